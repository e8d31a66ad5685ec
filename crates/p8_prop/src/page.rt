// Pages of runs.
ghost use Rattle.std.specs.Prelude.{◌≤◌, IfOk};
ghost use Rattle.p8_inputs.specs.Asks.{page_asks};
ghost use Rattle.p8_inputs.specs.Programs.{format_for};
ghost use Rattle.p8_commands.specs.Naming.{name_of};
ghost use Rattle.p8_commands.specs.Seen.{running, IsWithin};
ghost use Rattle.p8_prop.specs.Works.{IsPageWork};
ghost use Rattle.p8_inputs.specs.Reads.{ReadsForAll};
ghost use Rattle.p8_inputs.specs.Seen.{shelf_seen};

use crate::laws::runs_are_told;
use crate::work::Work;
use p8_commands::Run;
use p8_inputs::{Format, Program, Stop, read_paged};
use p8_io::Shelf;
use p8_ledger::{Limits, Start};
use p8_legend::Legend;
use std::alloc::Global;

/// What a page shows of a run.
#[derive(Drop)]
pub struct Paging {
    /// The name of the file that is run.
    pub file: Vec<u8>,
    /// The first clock that is shown.
    pub from: u64,
    /// The clock before which it ends.
    pub to: u64,
    /// What is known of the program.
    pub legend: Legend,
    /// The blocks of its project.
    pub project: Vec<u8>,
}

/// A page of a run of a file, which is hub memory where it is raw.
pub(crate) fn page_work<S: Shelf>(
    alloc: Global,
    raw: bool,
    run: Run<'_>,
    from: u64,
    to: u64,
    shelf: &mut S,
) -> Result<Work, Stop>
    requires within { IsWithin run }
    requires first { from ≤ 4000000000 }
    ensures work { IfOk result (IsPageWork (S.files shelf.old) (format_for raw run.entry.file.now) (running run.entry) from to) }
    ensures reads { ReadsForAll (page_asks (format_for raw run.entry.file.now) run.entry.file.now (name_of run.entry.script))
        (shelf_seen S.files S.log S.faults shelf.old shelf.new) result }
{
    runs_are_told();
    let program = Program {
        file: run.file,
        format: Format::chosen(raw, run.file),
    };
    let read = read_paged(alloc, program, run.script, shelf)?;
    let mut file = Vec::new(alloc);
    file.extend_from_slice(run.file.as_bytes())?;
    let limits = Limits {
        clocks: run.clocks,
        turns: run.turns,
    };
    Ok(Work::Page {
        start: Start {
            boot: read.inputs.boot,
            script: read.inputs.script,
            limits,
        },
        page: Paging {
            file,
            from,
            to,
            legend: read.legend,
            project: read.project,
        },
    })
}
