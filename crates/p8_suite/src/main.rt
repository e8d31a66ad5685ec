//! Runs cases that lie in files, and prints how many agree with what is expected of them.
//!
//! The file `cases.txt` has a line for each case: its kind, the files that it is made of, and what is expected.
//! Where cases disagree, each has a line, and the program ends with status 1.
#![tactic(auto)]

mod cases;
mod dats;
mod instruction_texts;
mod names;
mod projects;
mod runs;
mod sources;
mod stops;
mod trees;

use cases::Case;
use std::alloc::Global;
use std::fs::{self, Files};
use std::process::ExitCode;

/// What cases are of, by number, in the order in which they are told.
static KINDS: [&str; 8] = [
    "sources", "trees", "names", "dats", "runs", "stops", "projects", "texts",
];

/// How many cases of a kind there were, and how many of them agreed.
#[derive(Clone, Copy)]
struct Tally {
    agreed: u64,
    all: u64,
}

impl Tally {
    fn count(&mut self, agrees: bool) {
        self.all = self.all.saturating_add(1);
        if agrees {
            self.agreed = self.agreed.saturating_add(1);
        }
    }
}

/// Whether a case agrees with what is expected of it.
fn agrees<R: Files + Alloc<A = Global>>(rt: &R, case: &Case) -> anyhow::Result<bool> {
    match case {
        Case::Source(source) => source.agrees(rt),
        Case::Tree(tree) => tree.agrees(rt),
        Case::Names(names) => names.agrees(rt),
        Case::Dat(dat) => dat.agrees(rt),
        Case::Run(run) => run.agrees(rt),
        Case::Stopped(stopped) => stopped.agrees(rt),
        Case::Written(written) => written.agrees(rt),
        Case::Unbuilt(unbuilt) => unbuilt.agrees(rt),
        Case::Text(text) => text.agrees(rt.alloc()),
    }
}

/// Runs the case of a line, tells where it differs, and counts it among those of its kind.
fn count(rt: &HostRuntime, line: &str, tallies: &mut [Tally]) -> anyhow::Result<()> {
    let case = Case::of_line(line)?;
    let agrees = agrees(rt, &case)?;
    if !agrees {
        println!(rt; "differs: {line}")?;
    }
    if let Some(tally) = tallies.get_mut(case.kind()) {
        tally.count(agrees);
    }
    Ok(())
}

fn suite(rt: &HostRuntime) -> anyhow::Result<bool> {
    let mut tallies = [Tally { agreed: 0, all: 0 }; 8];
    let lines = fs::read_to_string(rt, "cases.txt")?;
    for line in lines.lines() {
        count(rt, line, &mut tallies)?;
    }
    let mut all = true;
    for (kind, tally) in KINDS.iter().zip(&tallies) {
        println!(rt; "{kind}: {} of {} agree", tally.agreed, tally.all)?;
        all = all && tally.agreed == tally.all;
    }
    Ok(all)
}

fn main(rt: HostRuntime) -> anyhow::Result<ExitCode> {
    if suite(&rt)? {
        Ok(ExitCode::from(0))
    } else {
        Ok(ExitCode::from(1))
    }
}
