// Records of turns: their bytes, and the turn of a record.
ghost use Rattle.std.specs.Prelude.{◌≡◌, ◌<◌, ◌^◌, ℕ, List, IsTrue, ◌↔◌, MatchOption, IfSome, drop, length, ◌≤◌};
ghost use Rattle.byteorder.specs.Endian.{little_bytes};
ghost use Rattle.p8_access.specs.declared.order.Turn.{Turn};
ghost use Rattle.p8_access.specs.Proper.{IsNumber};
ghost use Rattle.p8_verify.specs.Table.{turn_bytes, IsAccessWithin, IsReasonWithin, IsAnswerWithin, IsWithin, IsRecord, NoRecord};
ghost use Rattle.p8_ledger.specs.Turns.{IsProperTurn};
ghost use Rattle.p8_verify.specs.Halts.{NamesRegister};

use crate::reading::turn_by;
use crate::table::{AccessFields, AnswerFields};
use byteorder::{ByteOrder, LittleEndian};
use p8_access::{Access, Answer, Reason, Turn};

/// How many bytes a record has.
pub const RECORD: usize = 24;

/// The bytes of a long, the lowest first.
pub fn long_bytes(number: u32) -> [u8; 4]
    ensures { result ≡ little_bytes 4 number }
{
    let mut bytes = [0; 4];
    LittleEndian::write_u32(&mut bytes, number);
    bytes
}

/// The record of a turn.
pub fn turn_bytes(turn: Turn) -> [u8; RECORD]
    requires { turn.key.clock < 2 ^ 32 }
    ensures bytes { result ≡ turn_bytes turn }
    ensures within { IsProperTurn turn → NamesRegister turn → IsWithin turn }
{
    let access = AccessFields::of(turn.access);
    let answer = AnswerFields::of(turn.answer);
    let [t0, t1, t2, t3] = long_bytes(turn.key.clock as u32);
    let [a0, a1, a2, a3] = long_bytes(access.a);
    let [b0, b1, b2, b3] = long_bytes(access.b);
    let [c0, c1, c2, c3] = long_bytes(access.c);
    let [v0, v1, v2, v3] = long_bytes(answer.value);
    [
        t0,
        t1,
        t2,
        t3,
        turn.key.cog,
        access.kind,
        answer.kind,
        access.extra,
        a0,
        a1,
        a2,
        a3,
        b0,
        b1,
        b2,
        b3,
        c0,
        c1,
        c2,
        c3,
        v0,
        v1,
        v2,
        v3,
    ]
}

/// Whether a number is that of a cog or a lock, or none.
fn is_number(number: Option<u8>) -> bool
    ensures { IsTrue result ↔ IsNumber number }
{
    match number {
        None => true,
        Some(number) => number < 8,
    }
}

fn is_reason_within(reason: Reason) -> bool
    ensures { IsTrue result ↔ IsReasonWithin reason }
{
    match reason {
        Reason::Register(register) => register < 512,
        _ => true,
    }
}

fn is_access_within(access: Access) -> bool
    ensures { IsTrue result ↔ IsAccessWithin access }
{
    match access {
        Access::CogInit { target, .. } => is_number(target),
        Access::CogStop { cog } => cog < 8,
        Access::LockRet { lock } | Access::LockSet { lock } | Access::LockClr { lock } => lock < 8,
        Access::Halt { reason } => is_reason_within(reason),
        _ => true,
    }
}

fn is_answer_within(answer: Answer) -> bool
    ensures { IsTrue result ↔ IsAnswerWithin answer }
{
    match answer {
        Answer::Number(number) => is_number(number),
        _ => true,
    }
}

/// Whether a turn has a record: the numbers of cogs and locks are below 8, and that of a register below 512.
fn is_within(turn: Turn) -> bool
    requires { turn.key.clock < 2 ^ 32 }
    ensures { IsTrue result ↔ IsWithin turn }
{
    turn.key.cog < 8 && is_access_within(turn.access) && is_answer_within(turn.answer)
}

/// Whether bytes are the record of a turn.
fn is_record_of(bytes: &[u8], turn: Turn) -> bool
    requires { turn.key.clock < 2 ^ 32 }
    ensures { IsTrue result ↔ (IsWithin turn × (bytes.now ≡ turn_bytes turn)) }
{
    is_within(turn) && turn_bytes(turn).as_slice() == bytes
}

/// The turn of the record with which these bytes begin; `None` exactly where they begin with none.
///
/// Two turns have no record in common. So the only turn that this can be the record of is made from its
/// numbers, and its record is compared with the bytes.
pub fn read_turn(bytes: &[u8]) -> Option<Turn>
    ensures turn { MatchOption result (NoRecord bytes.now) (λ turn. IsRecord bytes.now turn (drop 24 bytes.now)) }
    ensures length { IfSome result (λ _. 24 ≤ length bytes.now) }
{
    if bytes.len() < RECORD {
        return None;
    }
    let turn = turn_by(bytes);
    if is_record_of(&bytes[..RECORD], turn) {
        Some(turn)
    } else {
        None
    }
}

/// The turn of the record with which these bytes begin. That they begin with one is known, and isn't looked at again.
pub fn turn_of_record(bytes: &[u8]) -> Turn
    requires { (turn : Turn) × (rest : List ℕ) × IsRecord bytes.now turn rest }
    ensures turn { IsRecord bytes.now result (drop 24 bytes.now) }
    ensures length { 24 ≤ length bytes.now }
{
    turn_by(bytes)
}

/// Whether these bytes begin with the record of a turn.
pub fn begins_with(bytes: &[u8], turn: Turn) -> bool
    ensures record { IsTrue result → IsRecord bytes.now turn (drop 24 bytes.now) × (24 ≤ length bytes.now) }
    ensures other { (rest : List ℕ) → IsRecord bytes.now turn rest → IsTrue result }
{
    if turn.key.clock > u64::from(u32::MAX) || bytes.len() < RECORD {
        return false;
    }
    is_record_of(&bytes[..RECORD], turn)
}

/// What follows the record with which these bytes begin.
pub fn after_record(bytes: &[u8]) -> &[u8]
    requires { 24 ≤ length bytes.now }
    ensures { result.now ≡ drop 24 bytes.now }
{
    &bytes[RECORD..]
}
