// The accesses of the hub, and what they leave.
ghost use Rattle.std.specs.Prelude.{◌≡◌, ◌<◌, ◌*◌, ◌/◌, ◌%◌, ◌^◌};
ghost use Rattle.p8_alu.specs.Effects.{plain_effect};
ghost use Rattle.p8_access.specs.Lives.{IsMade, is_last};
ghost use Rattle.p8_access.specs.Proper.{IsAligned, IsReduced, bytes_in, value_of};
ghost use Rattle.p8_cog.specs.Replay.{answered, hub_address, read_access, mode_access, start_access, move_request, operation_request, hub_request};

use crate::instruction_kind::HUBOP;
use p8_access::{Access, Answer, Origin, Reason, Width};
use p8_alu::Effect;
use p8_instr::Instr;

/// An access of the hub, and the result that it has where its answer holds no number.
#[derive(Clone, Copy)]
pub struct Request {
    pub access: Access,
    pub kept: u32,
}

/// A result with the flag C, where Z says whether it is 0.
#[inline(always)]
pub fn plain_effect(value: u32, c: bool) -> Effect
    ensures { result ≡ plain_effect value c }
{
    Effect {
        result: value,
        c,
        z: value == 0,
    }
}

/// The result and the flags by an answer.
#[inline(always)]
pub fn answered(kept: u32, answer: Answer) -> Effect
    ensures { result ≡ answered kept answer }
{
    match answer {
        Answer::Done => plain_effect(kept, false),
        Answer::Was(set) => plain_effect(kept, set),
        Answer::Value(value) => plain_effect(value, false),
        Answer::Number(Some(n)) => plain_effect(u32::from(n), false),
        Answer::Number(None) => plain_effect(7, true),
    }
}

/// The value that an answer carries for a register.
#[inline(always)]
pub fn value_in(answer: Answer) -> u32
    ensures { result ≡ value_of answer }
{
    match answer {
        Answer::Value(value) => value,
        Answer::Done | Answer::Number(_) | Answer::Was(_) => 0,
    }
}

/// Whether a life is over by the turn of an access.
#[inline(always)]
pub fn is_last(cog: u8, access: Access) -> bool
    ensures { result ≡ is_last cog access }
{
    match access {
        Access::Halt { .. } => true,
        Access::CogStop { cog: target } => target == cog,
        _ => false,
    }
}

/// A hub address, rounded down to a multiple of its bytes.
#[inline(always)]
fn aligned(source: u32, width: Width) -> u16
    ensures address { result ≡ hub_address source width }
    ensures aligned { IsAligned width result }
{
    match width {
        Width::Byte => (source & 0xFFFF) as u16,
        Width::Word => ((source & 0xFFFF) / 2 * 2) as u16,
        Width::Long => ((source & 0xFFFF) / 4 * 4) as u16,
    }
}

/// A value reduced to a width.
#[inline(always)]
fn reduced(value: u32, width: Width) -> u32
    ensures reduced { result ≡ value % 256 ^ bytes_in width }
    ensures below { IsReduced width result }
{
    match width {
        Width::Byte => value & 0xFF,
        Width::Word => value & 0xFFFF,
        Width::Long => value,
    }
}

/// A read of hub memory, which is a halt in ROM, from $8000 on.
#[inline(always)]
fn read_access(width: Width, address: u16) -> Access
    requires { IsAligned width address }
    ensures access { result ≡ read_access width address }
    ensures made { IsMade result }
{
    if address < 0x8000 {
        Access::Read { width, address }
    } else {
        Access::Halt {
            reason: Reason::Rom(address),
        }
    }
}

/// What CLKSET asks.
#[inline(always)]
fn mode_access(value: u32) -> Access
    ensures access { result ≡ mode_access value }
    ensures made { IsMade result }
{
    if value >> 7 & 1 == 1 {
        Access::Halt {
            reason: Reason::Reset,
        }
    } else {
        Access::ClkSet {
            mode: (value & 0xFF) as u8,
        }
    }
}

/// What COGINIT asks.
#[inline(always)]
fn start_access(value: u32) -> Access
    ensures access { result ≡ start_access value }
    ensures made { IsMade result }
{
    let code = ((value >> 4 & 0x3FFF) * 4) as u16;
    let par = ((value >> 18) * 4) as u16;
    let origin = Origin::Pasm { code, par };
    if value >> 3 & 1 == 1 {
        Access::CogInit {
            target: None,
            origin,
        }
    } else {
        Access::CogInit {
            target: Some((value & 7) as u8),
            origin,
        }
    }
}

/// What RDBYTE to WRLONG ask.
#[inline(always)]
fn move_request(i: Instr, width: Width, value: u32, source: u32) -> Request
    ensures request { result ≡ move_request i width value source }
    ensures made { IsMade result.access }
{
    let address = aligned(source, width);
    if i.writes_result() {
        Request {
            access: read_access(width, address),
            kept: 0,
        }
    } else {
        let value = reduced(value, width);
        Request {
            access: Access::Write {
                width,
                address,
                value,
            },
            kept: value,
        }
    }
}

/// What HUBOP asks.
#[inline(always)]
fn operation_request(operation: u32, value: u32) -> Request
    requires { operation < 8 }
    ensures request { result ≡ operation_request operation value }
    ensures made { IsMade result.access }
{
    let number = (value & 7) as u8;
    let (access, kept) = match operation {
        0 => (mode_access(value), value),
        1 => (Access::CogId, 0),
        2 => (start_access(value), 0),
        3 => (Access::CogStop { cog: number }, value & 7),
        4 => (Access::LockNew, 0),
        5 => (Access::LockRet { lock: number }, value & 7),
        6 => (Access::LockSet { lock: number }, value & 7),
        _ => (Access::LockClr { lock: number }, value & 7),
    };
    Request { access, kept }
}

/// What an instruction of the hub asks, by the values of its destination and its source.
#[inline(always)]
pub fn hub_request(i: Instr, value: u32, source: u32) -> Request
    ensures request { result ≡ hub_request i value source }
    ensures made { IsMade result.access }
{
    // Each width where it is known: else the compiler makes a number of it, and goes by that number twice.
    match i.opcode {
        HUBOP => operation_request(source & 7, value),
        0 => move_request(i, Width::Byte, value, source),
        1 => move_request(i, Width::Word, value, source),
        _ => move_request(i, Width::Long, value, source),
    }
}
