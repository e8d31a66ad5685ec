// The ways in which the passes of a desk are called.
ghost use Rattle.std.specs.Prelude.{◌≤◌};
ghost use Rattle.p8_access.specs.Proper.{IsProperOrigin};
ghost use Rattle.p8_desk.specs.PassSets.{AllThere};

use crate::calls::{Order, rounds};
use crate::rows::{makes_each_turn, promises_in_turn};
use crate::threads::turn_in_threads;
use p8_desk::{Desk, Passes, Start, drive_all};
use p8_ledger::Ended;
use p8_words::NoMemory;
use std::alloc::Global;
use std::sync::Wait;
use std::thread::Threads;

/// How the passes of a desk are called.
#[derive(Clone, Copy)]
pub enum DriveMode {
    /// By `drive_all`.
    Driven,
    /// By one caller, in this order.
    Called(Order),
    /// All cogs at once, each in a thread of its own.
    Threads,
}

/// All passes in threads.
fn drive_threads<R: Threads + Wait + Sync>(rt: &R, desk: &Desk, passes: &mut Passes)
    requires { AllThere desk.now passes.old }
    ensures { AllThere desk.now passes.new }
{
    let mut places = [None, None, None, None, None, None, None, None];
    turn_in_threads(rt, desk, passes, &mut places);
}

/// Calls the passes in this way until the history has ended, or for very many rounds.
fn drive<R: Threads + Wait + Sync>(rt: &R, way: DriveMode, desk: &Desk, passes: &mut Passes)
    requires { AllThere desk.now passes.old }
    ensures { AllThere desk.now passes.new }
{
    match way {
        DriveMode::Driven => {}
        DriveMode::Called(order) => rounds(order, desk, passes),
        DriveMode::Threads => drive_threads(rt, desk, passes),
    }
}

/// A row of one caller, worked by hand: what is asked of a desk before its first turn.
#[derive(Clone, Copy)]
pub enum WorkedCalls {
    /// Each call makes a turn.
    Turns,
    /// Cogs promise in turn.
    Promises,
}

/// Whether a row holds at the desk of a start.
pub fn holds(alloc: Global, start: Start, row: WorkedCalls) -> Result<bool, NoMemory>
    requires clocks { start.limits.clocks ≤ 4000000000 }
    requires turns { start.limits.turns ≤ 1000000 }
    requires first { IsProperOrigin start.boot.first }
{
    let (desk, mut passes) = Desk::open(alloc, start)?;
    match row {
        WorkedCalls::Turns => Ok(makes_each_turn(&desk, &mut passes)),
        WorkedCalls::Promises => Ok(promises_in_turn(&desk, &mut passes)),
    }
}

/// The ended run of a start, made at a desk in one way.
pub fn run<R: Threads + Wait + Sync>(
    rt: &R,
    alloc: Global,
    start: Start,
    way: DriveMode,
) -> Result<Ended, NoMemory>
    requires clocks { start.limits.clocks ≤ 4000000000 }
    requires turns { start.limits.turns ≤ 1000000 }
    requires first { IsProperOrigin start.boot.first }
{
    let (desk, mut passes) = Desk::open(alloc, start)?;
    drive(rt, way, &desk, &mut passes);
    drive_all(&desk, &mut passes);
    Ok(desk.close(passes))
}
