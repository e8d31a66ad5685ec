// A run that keeps the counter of each turn, and what each cog asks in the end.
ghost use Rattle.std.specs.Prelude.{◌≡◌, ◌<◌, ◌≤◌, [], ℕ, List, Some, length, reverse, slice_get, IfOk};
ghost use Rattle.p8_machine.specs.declared.asked.Asked.{Asked};
ghost use Rattle.p8_access.specs.Proper.{IsProperOrigin};
ghost use Rattle.p8_access.specs.Histories.{IsOver, Ended as HasEnded};
ghost use Rattle.p8_hub.specs.Standing.{IsHub};
ghost use Rattle.p8_cog.specs.Lives.{asks};
ghost use Rattle.p8_ledger.specs.Worlds.{world_of};
ghost use Rattle.p8_machine.specs.Machines.{world_in, past_in, IsStanding};
ghost use Rattle.p8_machine.specs.Counted.{AreAsked, AreCounters, IsAskedBy};

use crate::asked::Asked;
use crate::run::Machine;
use p8_access::Boot;
use p8_ledger::{Ended, Limits};
use p8_pins::PinScript;
use p8_words::NoMemory;
use std::alloc::Global;

/// A history that has ended, with the counter of each turn and what each cog asks next.
#[derive(Drop)]
pub struct Counted {
    pub ended: Ended,
    /// For each turn, the oldest first, its counter: the hub address, in bytes, of the first byte of the bytecode of Spin that asks its access,
    /// or from which the long was loaded that asks it, if the run begins with that long there. `None` for the turn with which a life begins,
    /// the reads of a load, the write with which Spin enters its method, and a long that isn't the one that was loaded into its register.
    pub counters: Vec<Option<u16>>,
    /// What each cog asks next, in the order of their numbers.
    pub asked: [Asked; 8],
}

/// What the eight cogs ask next, in the order of their numbers.
fn next_accesses(machine: &Machine) -> [Asked; 8]
    ensures length { length result ≡ 8 }
    ensures each { IsStanding machine.now → (n : ℕ) (asked : Asked) → slice_get result n ≡ Some asked →
        IsAskedBy (world_in machine.now) (past_in machine.now) n asked }
{
    [
        machine.asked(0),
        machine.asked(1),
        machine.asked(2),
        machine.asked(3),
        machine.asked(4),
        machine.asked(5),
        machine.asked(6),
        machine.asked(7),
    ]
}

/// Makes turns until the history has ended, and keeps the counter of each.
fn count_turns(alloc: Global, machine: &mut Machine) -> Result<Vec<Option<u16>>, NoMemory>
    requires stands { IsStanding machine.old }
    requires begin { past_in machine.old ≡ [] }
    ensures over { IfOk result (λ _. IsOver asks (world_in machine.new) (past_in machine.new)) }
    ensures counters { IfOk result (λ counters. AreCounters (world_in machine.new) (past_in machine.new) (reverse counters.items)) }
    ensures stands { IsStanding machine.new }
    ensures world { world_in machine.new ≡ world_in machine.old }
{
    let mut counters = Vec::new(alloc);
    'steps: loop {
        let Some(counter) = machine.step_counted() else {
            return Ok(counters);
        };
        match counters.push(counter) {
            Ok(()) => {}
            Err(_) => return Err(NoMemory),
        }
    }
}

/// The whole history of a boot up to the limits, on one thread, with the counter of each turn and what each cog asks next. It is the history
/// that `crate::run_alone` gives.
///
/// # Errors
///
/// `NoMemory` where there is no memory for the run or for the counters.
pub fn run_counted(
    alloc: Global,
    boot: Boot,
    script: PinScript,
    limits: Limits,
) -> Result<Counted, NoMemory>
    requires clocks { limits.clocks ≤ 4000000000 }
    requires turns { limits.turns ≤ 1000000 }
    requires first { IsProperOrigin boot.first }
    ensures world { IfOk result (λ counted. world_of counted.ended.history.boot script counted.ended.history.limits ≡ world_of boot script limits) }
    ensures ended { IfOk result (λ counted. HasEnded asks (world_of boot script limits) (reverse counted.ended.history.turns.list)) }
    ensures hub { IfOk result (λ counted. IsHub (world_of boot script limits) (reverse counted.ended.history.turns.list) counted.ended.hub) }
    ensures counters { IfOk result (λ counted. AreCounters (world_of boot script limits) (reverse counted.ended.history.turns.list)
        (reverse counted.counters.items)) }
    ensures asked { IfOk result (λ counted. AreAsked (world_of boot script limits) (reverse counted.ended.history.turns.list) counted.asked) }
    ensures crew { IfOk result (λ counted. counted.ended.crew ≡ 1) }
{
    let mut machine = Machine::open(alloc, boot, script, limits)?;
    let counters = count_turns(alloc, &mut machine)?;
    let asked = next_accesses(&machine);
    Ok(Counted {
        ended: machine.end(),
        counters,
        asked,
    })
}
