// A worked run at the desk.
ghost use Rattle.std.specs.Prelude.{◌≡◌, IfOk};
ghost use Rattle.p8_access.specs.declared.kinds.Origin.TheVariants.{Pasm};
ghost use Rattle.p8_desk.specs.Passes.{Owns};

use p8_access::{Access, Answer, Boot, Key, Turn};
use p8_desk::{CogPass, Desk, Turned};
use p8_ledger::{Limits, Start};
use p8_pins::PinScript;
use p8_words::NoMemory;
use std::alloc::Global;

/// Cog 0 starts seven others, which go round for ever, and one more, for which there is no cog.
static STARTS: [u8; 28] = [
    0x02, 0x08, 0x7C, 0x0C, 0x00, 0x0A, 0xFC, 0xE4, 0x03, 0x0C, 0x7C, 0x0C, 0x00, 0x00, 0x7C, 0x5C,
    0x38, 0x00, 0x00, 0x00, 0x08, 0x00, 0x00, 0x00, 0x00, 0x00, 0x00, 0x00,
];

/// A start from a hub memory with that program, with no pin script.
fn eight_starts(alloc: Global) -> Result<Start, NoMemory>
    ensures first { IfOk result (λ start. start.boot.first ≡ Pasm 0 0) }
    ensures limits { IfOk result (λ start. (start.limits.clocks ≡ 20000) × (start.limits.turns ≡ 1000)) }
{
    Ok(Start {
        boot: Boot::raw(alloc, &STARTS)?,
        script: PinScript::empty(alloc),
        limits: Limits {
            clocks: 20000,
            turns: 1000,
        },
    })
}

/// Whether the first turn is cog 0's load, at clock 16, and cog 1 is told that it comes after it.
fn loads_first(desk: &Desk, zero: &mut CogPass, one: &mut CogPass) -> bool
    requires zero { Owns desk.now zero.old }
    requires one { Owns desk.now one.old }
{
    let load = Turn {
        key: Key { clock: 16, cog: 0 },
        access: Access::Load,
        answer: Answer::Done,
    };
    desk.try_turn(one) == Turned::After { cog: 0, bound: 16 }
        && desk.try_turn(zero) == Turned::Done(load)
        && zero.count() == 1
        && zero.seen() == 1
        && !zero.over()
}

/// Cog 0 is starting: its load comes first, at clock 16, whoever asks.
#[test]
fn the_load_comes_first(rt: HostRuntime) -> Result<(), NoMemory> {
    let (desk, mut passes) = Desk::open(rt.alloc(), eight_starts(rt.alloc())?)?;
    let Some(mut one) = passes.take(1) else {
        panic!(rt; "pass 1 is there")
    };
    let Some(mut zero) = passes.take(0) else {
        panic!(rt; "pass 0 is there")
    };
    assert!(rt; passes.take(0).is_none());
    assert!(rt; loads_first(&desk, &mut zero, &mut one));
    assert!(rt; passes.put(zero).is_ok());
    Ok(())
}

/// A pass doesn't come into the set of another desk where its place is filled.
#[test]
fn a_filled_place_takes_no_pass(rt: HostRuntime) -> Result<(), NoMemory> {
    let (_desk, mut passes) = Desk::open(rt.alloc(), eight_starts(rt.alloc())?)?;
    let (_other, mut others) = Desk::open(rt.alloc(), eight_starts(rt.alloc())?)?;
    let Some(zero) = passes.take(0) else {
        panic!(rt; "pass 0 is there")
    };
    let Err(zero) = others.put(zero) else {
        panic!(rt; "the place of pass 0 is filled")
    };
    assert!(rt; zero.cog() == 0 && passes.put(zero).is_ok());
    Ok(())
}
