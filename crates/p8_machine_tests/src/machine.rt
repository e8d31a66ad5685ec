// Worked runs, and what crosses threads.
ghost use Rattle.std.specs.Prelude.{◌≡◌, IfOk};
ghost use Rattle.p8_access.specs.declared.kinds.Origin.TheVariants.{Pasm};

use p8_access::{Access, Answer, Boot, Key, Turn, Width};
use p8_hub::Hub;
use p8_ledger::{Ended, Limits};
use p8_machine::{Machine, run_alone};
use p8_pins::PinScript;
use p8_region::{Region, Strip, words_of};
use p8_words::NoMemory;
use std::alloc::Global;

/// A boot of a write of $2A to $0100, COGID and a stop of that cog.
pub fn worked_boot(alloc: Global) -> Result<Boot, NoMemory>
    ensures { IfOk result (λ boot. boot.first ≡ Pasm 0 0) }
{
    let longs: [u32; 5] = [
        0x083C_0604,
        0x0CFC_0A01,
        0x0C7C_0A03,
        0x0000_002A,
        0x0000_0100,
    ];
    let mut bytes = [0; 20];
    for i in 0..5 {
        bytes[4 * i..4 * i + 4].copy_from_slice(&longs[i].to_le_bytes());
    }
    Ok(Boot::raw(alloc, &bytes)?)
}

fn turn(clock: u64, access: Access, answer: Answer) -> Turn {
    Turn {
        key: Key { clock, cog: 0 },
        access,
        answer,
    }
}

/// A read of a long.
fn reads(clock: u64, address: u16, value: u32) -> Turn {
    let width = Width::Long;
    turn(clock, Access::Read { width, address }, Answer::Value(value))
}

/// Whether a machine makes a load and the first two of its reads, and then no turn.
fn steps(machine: &mut Machine) -> bool {
    machine.step() == Some(turn(16, Access::Load, Answer::Done))
        && machine.step() == Some(reads(32, 0x0000, 0x083C_0604))
        && machine.step() == Some(reads(48, 0x0004, 0x0CFC_0A01))
        && machine.step().is_none()
}

/// Whether a run of at most three turns stops after them.
fn stops_at_the_limit(alloc: Global) -> Result<bool, NoMemory> {
    let limits = Limits {
        clocks: 10000,
        turns: 3,
    };
    let script = PinScript::empty(alloc);
    let mut machine = Machine::open(alloc, worked_boot(alloc)?, script, limits)?;
    Ok(steps(&mut machine))
}

#[test]
fn steps_up_to_the_limit(rt: HostRuntime) {
    assert!(rt; matches!(stops_at_the_limit(rt.alloc()), Ok(true)));
}

/// Whether a strip with room for one turn takes one, and gives the next one back.
fn takes_one(turns: &mut Strip<Turn>) -> bool {
    let first = turn(16, Access::Load, Answer::Done);
    let second = reads(32, 0x0000, 0x083C_0604);
    turns.push(first) == Ok(())
        && turns.push(second) == Err(second)
        && turns.get(0) == Some(first)
        && turns.get(1).is_none()
        && turns.len() == 1
        && turns.left() == 0
}

/// Whether a region for one turn has such a strip and nothing else; None where there is no memory.
fn has_room_for_one(alloc: Global) -> Option<bool> {
    let mut region = Region::new(alloc, words_of::<Turn>(1)).ok()?;
    let mut turns = region.cut::<Turn>(1).ok()?;
    Some(takes_one(&mut turns) && region.left() == 0)
}

#[test]
fn turns_up_to_the_room(rt: HostRuntime) {
    assert!(rt; has_room_for_one(rt.alloc()) == Some(true));
}

/// What is handed to a thread and comes back.
fn crossed<T: Send>(value: T) -> T
    ensures { result ≡ value }
{
    value
}

/// Whether the run has 500 turns, of which the last three are a write, COGID and a stop, by one that took them all.
fn is_worked(ended: &Ended) -> bool {
    let write = Access::Write {
        width: Width::Long,
        address: 0x0100,
        value: 0x2A,
    };
    let last = [
        turn(8224, write, Answer::Done),
        turn(8240, Access::CogId, Answer::Value(0)),
        turn(8256, Access::CogStop { cog: 0 }, Answer::Done),
    ];
    let turns = ended.history.turns.as_slice();
    turns.len() == 500
        && turns.ends_with(&last)
        && ended.crew == 1
        && ended.hub.byte(0x0100) == 0x2A
}

/// Whether no level is high at first and no byte written, and the whole run is as it was worked, with all of it moved as
/// to a thread and back.
fn runs_anywhere(alloc: Global) -> Result<bool, NoMemory> {
    let limits = crossed(Limits {
        clocks: 10000,
        turns: 1_000_000,
    });
    let script = crossed(PinScript::empty(alloc));
    let span = crossed(script.span_at(0));
    let boot = crossed(worked_boot(alloc)?);
    let hub = crossed(Hub::open(alloc, &boot)?);
    let is_low = span.levels == 0 && hub.byte(0x0100) == 0;
    let ended = crossed(run_alone(alloc, boot, script, limits)?);
    let script = PinScript::empty(alloc);
    let mut machine = crossed(Machine::open(alloc, worked_boot(alloc)?, script, limits)?);
    Ok(is_low && is_worked(&ended) && machine.step().is_some())
}

#[test]
fn runs_to_the_end_wherever_it_is(rt: HostRuntime) {
    assert!(rt; matches!(runs_anywhere(rt.alloc()), Ok(true)));
}
