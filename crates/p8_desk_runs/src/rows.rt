// Worked rows of one caller.
ghost use Rattle.std.specs.Prelude.{◌≡◌, ◌<◌};
ghost use Rattle.p8_desk.specs.PassSets.{AllThere};
ghost use Rattle.p8_desk.specs.Passes.{Owns};

use crate::calls::{put, take};
use p8_access::{Access, Answer, Key, Turn, Width};
use p8_desk::{CogPass, Desk, Passes, Turned};

/// How many longs a cog loads.
const LONGS: u16 = 496;

/// The longs of the program that writes $2A and stops; all others are 0.
const WRITER: [u32; 5] = [0x083C_0604, 0x0CFC_0A01, 0x0C7C_0A03, 0x2A, 0x100];

/// How many turns there are below clock 100,000 where cog 0 starts the seven others and stops, and they run a loop: 17, and the
/// 496 reads of each of the eight loads.
const TURNS: u32 = 3985;

/// How many calls there are at most until then.
const CALLS: u32 = 1_000_000;

fn turn(clock: u64, access: Access, answer: Answer) -> Turned {
    Turned::Done(Turn {
        key: Key { clock, cog: 0 },
        access,
        answer,
    })
}

/// The read of a long of the load that begins at clock 16.
fn read(long: u16) -> Turned
    requires { long < 496 }
{
    let value = match WRITER.get(usize::from(long)) {
        Some(value) => *value,
        None => 0,
    };
    let access = Access::Read {
        width: Width::Long,
        address: 4 * long,
    };
    turn(32 + 16 * u64::from(long), access, Answer::Value(value))
}

/// Whether each of the next calls makes one read of the load.
fn reads_all(desk: &Desk, pass: &mut CogPass) -> bool
    requires { Owns desk.now pass.old }
    ensures owns { Owns desk.now pass.new }
    ensures cog { pass.new.cog ≡ pass.old.cog }
{
    let mut all = true;
    for long in 0..LONGS {
        all &= desk.try_turn(pass) == read(long);
    }
    all
}

/// Whether the calls of cog 0 alone make the load, its reads, and the write, a turn each: no other cog runs.
fn writes(desk: &Desk, pass: &mut CogPass) -> bool
    requires { Owns desk.now pass.old }
    ensures owns { Owns desk.now pass.new }
    ensures cog { pass.new.cog ≡ pass.old.cog }
{
    let load = turn(16, Access::Load, Answer::Done);
    let access = Access::Write {
        width: Width::Long,
        address: 0x100,
        value: 0x2A,
    };
    let loaded = desk.try_turn(pass) == load;
    let read = reads_all(desk, pass);
    loaded && read && desk.try_turn(pass) == turn(8224, access, Answer::Done)
}

/// Whether each call makes a turn of the program that writes, whose desk this is.
pub fn makes_each_turn(desk: &Desk, passes: &mut Passes) -> bool
    requires { AllThere desk.now passes.old }
    ensures { AllThere desk.now passes.new }
{
    let mut pass = take(passes, 0);
    let all = writes(desk, &mut pass);
    put(passes, pass);
    all
}

/// One call of a cog.
fn call(desk: &Desk, passes: &mut Passes, cog: u8) -> Turned
    requires near { cog < 8 }
    requires there { AllThere desk.now passes.old }
    ensures { AllThere desk.now passes.new }
{
    let mut pass = take(passes, cog);
    let answer = desk.try_turn(&mut pass);
    put(passes, pass);
    answer
}

/// Which cog is called after an answer: the one that it names, or the same again.
fn next_after(cog: u8, answer: Turned) -> u8
    requires { cog < 8 }
    ensures { result < 8 }
{
    match answer {
        Turned::After { cog: other, .. } if other < 8 => other,
        _ => cog,
    }
}

fn is_done(answer: Turned) -> bool {
    match answer {
        Turned::Done(_) => true,
        Turned::Held { .. } => false,
        Turned::After { .. } => false,
        Turned::Ahead { .. } => false,
        Turned::Over => false,
    }
}

/// Calls cog 0, and the cog that each answer names, until all turns are made. Answers whose turn was the last.
fn call_to_the_end(desk: &Desk, passes: &mut Passes) -> u8
    requires { AllThere desk.now passes.old }
    ensures there { AllThere desk.now passes.new }
    ensures near { result < 8 }
{
    let mut cog = 0;
    let mut made = 0;
    for _ in 0..CALLS {
        let answer = call(desk, passes, cog);
        if is_done(answer) {
            made += 1;
        }
        if made == TURNS {
            return cog;
        }
        cog = next_after(cog, answer);
    }
    cog
}

/// Whether the cogs that run their loops say, one after the other, how far they have come: each promise is one of 1,024 instructions.
fn promise(desk: &Desk, passes: &mut Passes) -> bool
    requires { AllThere desk.now passes.old }
    ensures { AllThere desk.now passes.new }
{
    let mut answer = Turned::Over;
    for cog in 2..8u8 {
        answer = call(desk, passes, cog);
    }
    answer
        == Turned::After {
            cog: 1,
            bound: 24610,
        }
}

/// Whether the cogs promise after the last turn, one after the other, what 1,024 instructions take, at the desk of the program that starts
/// all eight.
pub fn promises_in_turn(desk: &Desk, passes: &mut Passes) -> bool
    requires { AllThere desk.now passes.old }
    ensures { AllThere desk.now passes.new }
{
    let last = call_to_the_end(desk, passes);
    let first = Turned::After {
        cog: 1,
        bound: 20514,
    };
    let second = Turned::After {
        cog: 2,
        bound: 20532,
    };
    let names_first = call(desk, passes, 7) == first;
    let names_second = call(desk, passes, 1) == second;
    last == 7 && names_first && names_second && promise(desk, passes)
}
