// Runs by crews, one of whose starts is refused.
ghost use Rattle.std.specs.Prelude.{◌≤◌};
ghost use Rattle.p8_access.specs.Proper.{IsProperOrigin};

use p8_crew::{FailStarter, ThreadStarter, run_crew};
use p8_desk::{Desk, Start};
use p8_ledger::Ended;
use p8_words::NoMemory;
use std::alloc::Global;
use std::sync::Wait;
use std::thread::Threads;

/// How often a crew starts a job.
const STARTS: u64 = 8;

/// The starts that are refused, each in a run of its own: all eight, and a ninth that never comes.
pub const CALLS: u64 = STARTS + 1;

/// How many make the turns where the start of this number, counted from 1, is refused.
pub fn crew_of(call: u64) -> u8 {
    if call > STARTS { 8 } else { 1 }
}

/// The ended run of a start, made by the program's crew, whose start of this number is refused.
pub fn run_refused<R: Threads + Wait + Clone + Send + Drop + 'static>(
    rt: &R,
    alloc: Global,
    start: Start,
    call: u64,
) -> Result<Ended, NoMemory>
    requires clocks { start.limits.clocks ≤ 4000000000 }
    requires turns { start.limits.turns ≤ 1000000 }
    requires first { IsProperOrigin start.boot.first }
{
    let (desk, passes) = Desk::open(alloc, start)?;
    let mut starter = FailStarter::new(ThreadStarter::new(), call);
    run_crew(rt, alloc, &mut starter, desk, passes)
}
