//! Carries out commands by crews of eight threads and on one thread, and prints how many have what is expected of them.
//!
//! The files `cases.txt`, `meeting.txt` and `refusals.txt` have a line for each command: the file with what it must write, and its
//! words. In `held.txt` the cog whose worker is held back stands before that, with the clock of its first turn and the number of
//! turns before it. What a refused command must write is its status, a blank, and the line for faults. Where a command differs the
//! program ends with status 1.
#![tactic(auto)]

mod calls;
mod cases;
mod holding;
mod meeting;
mod watching;

use calls::{Calls, RunMode};
use cases::{Case, cases_in, held_cases_in};
use std::alloc::Global;
use std::fs::Files;
use std::process::ExitCode;
use std::sync::Wait;
use std::thread::Threads;

/// How commands are carried out, the file that has them, and what is printed of them.
const WAYS: [(RunMode, &str, &str); 7] = [
    (RunMode::Alone, "cases.txt", "by one thread alone"),
    (RunMode::Threads, "cases.txt", "by eight threads, twice"),
    (
        RunMode::Watched,
        "cases.txt",
        "all eight began with an untouched pass and ended with one that was over",
    ),
    (
        RunMode::Refused,
        "cases.txt",
        "with each of eight starts refused",
    ),
    (
        RunMode::Unrefused,
        "cases.txt",
        "with a ninth start refused",
    ),
    (
        RunMode::Meeting,
        "meeting.txt",
        "two callers of Desk::turn met between two turns",
    ),
    (
        RunMode::Refusal,
        "refusals.txt",
        "refused with status and line",
    ),
];

/// How many commands there were, and how many of them agreed.
#[derive(Clone, Copy)]
struct Tally {
    agreed: u64,
    all: u64,
}

impl Tally {
    fn count(&mut self, agrees: bool) {
        self.all = self.all.saturating_add(1);
        if agrees {
            self.agreed = self.agreed.saturating_add(1);
        }
    }
}

/// Has commands carried out in one way.
fn run_all<R: Threads + Wait + Files + Alloc<A = Global> + Clone + Send + Drop + 'static>(
    calls: &mut Calls<'_, R>,
    cases: &[Case],
    way: RunMode,
) -> anyhow::Result<Tally> {
    let mut tally = Tally { agreed: 0, all: 0 };
    for case in cases {
        tally.count(calls.agrees(case, way)?);
    }
    Ok(tally)
}

/// Has commands carried out by crews one of whose workers is held back.
fn run_held<R: Threads + Wait + Files + Alloc<A = Global> + Clone + Send + Drop + 'static>(
    rt: &R,
    calls: &mut Calls<'_, R>,
) -> anyhow::Result<Tally> {
    let mut tally = Tally { agreed: 0, all: 0 };
    for held in &held_cases_in(rt, "held.txt")? {
        tally.count(calls.one_held_back(held)?);
    }
    Ok(tally)
}

/// Has all commands carried out, prints what came of them, and answers whether all agreed.
fn tell_all<R: Threads + Wait + Files + Print + Alloc<A = Global> + Clone + Send + Drop + 'static>(
    rt: &R,
) -> anyhow::Result<bool> {
    let mut calls = Calls::new(rt)?;
    let mut all = true;
    for (way, file, name) in WAYS {
        let tally = run_all(&mut calls, &cases_in(rt, file)?, way)?;
        println!(rt; "{name}: {} of {} agree", tally.agreed, tally.all)?;
        all &= tally.agreed == tally.all;
    }
    let held = run_held(rt, &mut calls)?;
    println!(rt;
        "the others waited for one that was held back: {} of {} agree",
        held.agreed, held.all
    )?;
    Ok(all && held.agreed == held.all)
}

fn main(rt: HostRuntime) -> anyhow::Result<ExitCode> {
    if tell_all(&rt)? {
        Ok(ExitCode::from(0))
    } else {
        Ok(ExitCode::from(1))
    }
}
