// A worked start, turn by turn.
ghost use Rattle.std.specs.Prelude.{◌≡◌, IfOk};
ghost use Rattle.p8_access.specs.declared.kinds.Origin.TheVariants.{Pasm};

use p8_access::{Access, Answer, Boot, Key, Next, Turn, Width};
use p8_ledger::{First, Ledger, Limits, Start, Taken};
use p8_pins::PinScript;
use p8_region::{Region, words_of};
use p8_words::NoMemory;
use std::alloc::Global;

/// A boot whose first long is a write of a long to $0100.
fn worked_boot(alloc: Global) -> Result<Boot, NoMemory>
    ensures { IfOk result (λ boot. boot.first ≡ Pasm 0 0) }
{
    Ok(Boot::raw(alloc, &[0x04, 0x06, 0x3C, 0x08])?)
}

fn turn(clock: u64, access: Access, answer: Answer) -> Turn {
    let key = Key { clock, cog: 0 };
    Turn {
        key,
        access,
        answer,
    }
}

/// What is handed to a thread and comes back.
fn crossed<T: Send>(value: T) -> T
    ensures { result ≡ value }
{
    value
}

/// Cog 0 loads at its first window, and then promises: it asks for its turns, and the others are told of it.
fn takes_the_load(ledger: &mut Ledger, script: &PinScript) -> bool {
    let load = turn(16, Access::Load, Answer::Done);
    let running = false;
    ledger.take(script, 1) == Taken::After { cog: 0, bound: 16 }
        && ledger.take(script, 0)
            == Taken::Done {
                turn: load,
                running,
            }
        && ledger.owes(0)
        && !ledger.owes(1)
        && ledger.take(script, 0) == Taken::Ahead { bound: 17 }
        && ledger.take_first(script) == First::Ahead { cog: 0, bound: 17 }
}

/// It says its first read, which is made as it comes, and then that nothing more comes.
fn takes_the_read(ledger: &mut Ledger, script: &PinScript) -> bool {
    let width = Width::Long;
    let access = Access::Read { width, address: 0 };
    ledger.say(0, Next::At { clock: 32, access });
    let read = turn(32, access, Answer::Value(0x083C_0604));
    let running = true;
    let is_made = ledger.take_first(script)
        == First::Done {
            turn: read,
            running,
        };
    ledger.say(0, Next::Quiet);
    is_made
        && ledger.take(script, 0) == Taken::Over
        && ledger.take_first(script) == First::Over
        && ledger.count() == 2
}

/// Whether a ledger with room for three turns takes both, and ends with them; None where there is no memory.
fn takes_both(alloc: Global) -> Option<bool> {
    let limits = Limits {
        clocks: 10000,
        turns: 3,
    };
    let mut region = Region::new(alloc, words_of::<Turn>(3)).ok()?;
    let log = region.cut::<Turn>(3).ok()?;
    let start = Start {
        boot: worked_boot(alloc).ok()?,
        script: PinScript::empty(alloc),
        limits,
    };
    let mut ledger = crossed(Ledger::open(alloc, &start, log).ok()?);
    let is_taken = takes_the_load(&mut ledger, &start.script)
        && takes_the_read(&mut ledger, &start.script);
    let ended = ledger.end(1);
    Some(is_taken && ended.history.turns.len() == 2 && ended.crew == 1)
}

#[test]
fn takes_what_the_least_front_allows(rt: HostRuntime) {
    assert!(rt; takes_both(rt.alloc()) == Some(true));
}
