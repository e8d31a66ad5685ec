// Worked histories, access by access.
ghost use Rattle.std.specs.Prelude.{◌<◌, ◌≤◌, length};
ghost use Rattle.p8_access.specs.Proper.{IsProper, IsAligned};

use p8_access::{Access, Answer, Boot, Key, Origin, Width};
use p8_hub::{CogState, Hub};
use p8_words::NoMemory;
use std::alloc::Global;

/// The hub of a file.
fn hub_of(alloc: Global, bytes: &[u8]) -> Result<Hub, NoMemory>
    requires { length bytes.now ≤ 32768 }
{
    Hub::open(alloc, &Boot::raw(alloc, bytes)?)
}

/// Whether a cog gets this answer, where the clock and the levels don't matter.
fn answers(hub: &mut Hub, cog: u8, access: Access, answer: Answer) -> bool
    requires cog { cog < 8 }
    requires proper { IsProper access }
{
    hub.answer(Key { clock: 8224, cog }, &access, 0) == answer
}

/// Whether cog 0 reads this value.
fn reads(hub: &mut Hub, width: Width, address: u16, value: u32) -> bool
    requires { IsAligned width address }
{
    answers(
        hub,
        0,
        Access::Read { width, address },
        Answer::Value(value),
    )
}

/// Whether cog 0 reads a file's first long, $083C0604, and its parts, and what it writes to $0100.
fn keeps_longs(hub: &mut Hub) -> bool {
    let write = Access::Write {
        width: Width::Long,
        address: 0x0100,
        value: 0x2A,
    };
    reads(hub, Width::Long, 0, 0x083C_0604)
        && reads(hub, Width::Word, 2, 0x083C)
        && reads(hub, Width::Byte, 1, 0x06)
        && answers(hub, 0, write, Answer::Done)
        && reads(hub, Width::Word, 0x0100, 0x2A)
        && hub.byte(0x0100) == 0x2A
        && hub.byte(0x8100) == 0
}

#[test]
fn reads_and_writes(rt: HostRuntime) {
    let Ok(mut hub) = hub_of(rt.alloc(), &[0x04, 0x06, 0x3C, 0x08]) else {
        panic!(rt; "memory for a hub")
    };
    assert!(rt; keeps_longs(&mut hub));
}

/// What each cog is started with.
const ORIGIN: Origin = Origin::Pasm {
    code: 0x000C,
    par: 0,
};

/// Whether cog 0 gets this answer where it starts a cog that is free.
fn starts(hub: &mut Hub, number: Option<u8>) -> bool {
    let access = Access::CogInit {
        target: None,
        origin: ORIGIN,
    };
    answers(hub, 0, access, Answer::Number(number))
}

/// Whether cog 0 starts all others, of which each loads and runs then, and no ninth.
fn starts_all(hub: &mut Hub) -> bool {
    for cog in 1..8 {
        if !starts(hub, Some(cog)) || !answers(hub, cog, Access::Load, Answer::Done) {
            return false;
        }
    }
    starts(hub, None)
}

/// Whether all cogs but cog 0 run.
fn runs_others(hub: &Hub) -> bool {
    for cog in 1..8 {
        if hub.state(cog) != (CogState::Running { origin: ORIGIN }) {
            return false;
        }
    }
    hub.state(0) == CogState::Stopped
}

#[test]
fn starts_eight_cogs(rt: HostRuntime) {
    let Ok(mut hub) = hub_of(rt.alloc(), &[]) else {
        panic!(rt; "memory for a hub")
    };
    let is_full = answers(&mut hub, 0, Access::Load, Answer::Done) && starts_all(&mut hub);
    let is_stopped = answers(&mut hub, 0, Access::CogStop { cog: 0 }, Answer::Done);
    assert!(rt; is_full && is_stopped && runs_others(&hub));
}
