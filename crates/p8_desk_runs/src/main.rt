//! Runs programs at the desk, by one caller in several orders of the cogs, by eight threads and by crews, and prints how many
//! traces agree with what is expected of them.
//!
//! The file `cases.txt` has a line for each program. One more program, in which cogs wait, are stopped and are started
//! anew, is run in threads a thousand times: each run is to have the trace of the machine's. The threads of the crews are the
//! program's own; all others call `Desk::turn` themselves. Where traces differ the program ends with status 1.
#![tactic(auto)]

mod calls;
mod cases;
mod crews;
mod rows;
mod threads;
mod ways;

use calls::Order;
use cases::Case;
use std::alloc::Global;
use std::fs::{self, Files};
use std::process::ExitCode;
use std::sync::Wait;
use std::thread::Threads;
use ways::{DriveMode, WorkedCalls, holds};

/// How the programs are run at the desk, and what is printed of it.
const WAYS: [(DriveMode, &str); 6] = [
    (DriveMode::Driven, "driven by one caller"),
    (
        DriveMode::Called(Order::Rising),
        "cogs 0 to 7, one call each",
    ),
    (
        DriveMode::Called(Order::Falling),
        "cogs 7 to 0, one call each",
    ),
    (
        DriveMode::Called(Order::LastFirst),
        "cog 7 ten times, then cogs 0 to 7",
    ),
    (
        DriveMode::Called(Order::Whole),
        "each cog for as long as it makes turns",
    ),
    (DriveMode::Threads, "eight threads"),
];

/// The program that is run many times: cog 1 is stopped and started anew, and three cogs wait, for clocks and for a pin.
const OFTEN: &str = "spin restarts.bin - 60000 1000 - -";

/// The rows of one caller that were worked by hand, each with what its run begins from.
const ROWS: [(WorkedCalls, &str); 2] = [
    (WorkedCalls::Turns, "run row-01.bin - 10000 100000 - -"),
    (WorkedCalls::Promises, "run row-07.bin - 100000 100000 - -"),
];

/// How often it is run.
const TIMES: u32 = 1000;

/// How many runs there were, and how many of them agreed.
#[derive(Clone, Copy)]
struct Tally {
    agreed: u64,
    all: u64,
}

impl Tally {
    fn count(&mut self, agrees: bool) {
        self.all = self.all.saturating_add(1);
        if agrees {
            self.agreed = self.agreed.saturating_add(1);
        }
    }
}

/// Runs all cases in one way.
fn run_all<R: Files + Alloc<A = Global> + Threads + Wait + Sync>(
    rt: &R,
    cases: &str,
    way: DriveMode,
) -> anyhow::Result<Tally> {
    let mut tally = Tally { agreed: 0, all: 0 };
    for line in cases.lines() {
        let case = Case::of_line(line)?;
        tally.count(case.agrees(rt, way)?);
    }
    Ok(tally)
}

/// Runs one program in threads many times. Each run is to have the trace of the machine's.
fn run_often<R: Files + Alloc<A = Global> + Threads + Wait + Sync>(
    rt: &R,
) -> anyhow::Result<Tally> {
    let case = Case::of_line(OFTEN)?;
    let expected = case.alone(rt)?;
    let mut tally = Tally { agreed: 0, all: 0 };
    for _ in 0..TIMES {
        let text = case.traced(rt, DriveMode::Threads)?;
        tally.count(text == expected);
    }
    Ok(tally)
}

/// Runs all cases by crews, with one start refused each time.
fn run_crews<R: Files + Alloc<A = Global> + Threads + Wait + Clone + Send + Drop + 'static>(
    rt: &R,
    cases: &str,
) -> anyhow::Result<Tally> {
    let mut tally = Tally { agreed: 0, all: 0 };
    for line in cases.lines() {
        let case = Case::of_line(line)?;
        tally.count(case.agrees_by_crews(rt)?);
    }
    Ok(tally)
}

/// Tries those rows.
fn try_rows<R: Files + Alloc<A = Global>>(rt: &R) -> anyhow::Result<Tally> {
    let mut tally = Tally { agreed: 0, all: 0 };
    for (row, line) in ROWS {
        let start = Case::of_line(line)?.start(rt)?;
        tally.count(holds(rt.alloc(), start, row)?);
    }
    Ok(tally)
}

/// Prints a tally, and answers whether all agreed.
fn tell<R: Print>(rt: &R, name: &str, tally: Tally) -> anyhow::Result<bool> {
    println!(rt; "{name}: {} of {} agree", tally.agreed, tally.all)?;
    Ok(tally.agreed == tally.all)
}

/// Runs all programs, prints what came of them, and answers whether all agreed.
fn tell_all<
    R: Files + Print + Alloc<A = Global> + Threads + Wait + Sync + Clone + Send + Drop + 'static,
>(rt: &R) -> anyhow::Result<bool> {
    let cases = fs::read_to_string(rt, "cases.txt")?;
    let mut all = true;
    for (way, name) in WAYS {
        all &= tell(rt, name, run_all(rt, &cases, way)?)?;
    }
    all &= tell(
        rt,
        "one program in threads, again and again",
        run_often(rt)?,
    )?;
    all &= tell(
        rt,
        "a crew of one for each of eight starts refused, and of eight for a ninth",
        run_crews(rt, &cases)?,
    )?;
    all &= tell(rt, "rows of one caller, worked by hand", try_rows(rt)?)?;
    Ok(all)
}

fn main(rt: HostRuntime) -> anyhow::Result<ExitCode> {
    if tell_all(&rt)? {
        Ok(ExitCode::from(0))
    } else {
        Ok(ExitCode::from(1))
    }
}
