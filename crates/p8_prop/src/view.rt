// Views of runs.
ghost use Rattle.std.specs.Prelude.{◌≡◌, ◌+◌, ◌≤◌, IfOk};
ghost use Rattle.std.specs.Option.{ForSome};
ghost use Rattle.p8_inputs.specs.Asks.{view_asks};
ghost use Rattle.p8_inputs.specs.Programs.{format_for};
ghost use Rattle.p8_commands.specs.Naming.{name_of};
ghost use Rattle.p8_commands.specs.Seen.{dump_if_any, running, IsDumpInRam, IsWithin};
ghost use Rattle.p8_prop.specs.Texts.{dumped_range as range_of_dump, in_ram as range_in_ram, name_in};
ghost use Rattle.p8_prop.specs.Works.{IsViewWork};
ghost use Rattle.p8_inputs.specs.Reads.{ReadsForAll};
ghost use Rattle.p8_inputs.specs.Seen.{shelf_seen};

use crate::laws::runs_are_told;
use crate::work::Work;
use p8_commands::{Dump, Run};
use p8_inputs::{Format, Program, Stop, read_viewed};
use p8_io::Shelf;
use p8_ledger::{Limits, Start};
use p8_legend::Legend;
use p8_view::ViewOptions;
use std::alloc::Global;

/// What a view shows of a run.
#[derive(Drop)]
pub struct Viewing {
    /// Which turns it shows.
    pub options: ViewOptions,
    /// What is known of the program.
    pub legend: Legend,
    /// The range of hub RAM that it dumps in the end: an address, and how many bytes from there on.
    pub dump: Option<(u16, u16)>,
}

/// The name of what is to be dumped, where it is told by one.
fn dumped_name(dump: Option<Dump<'_>>) -> Option<&str>
    ensures { name_of result ≡ name_in (dump_if_any dump.entry) }
{
    match dump {
        Some(Dump::Name(name)) => Some(name),
        _ => None,
    }
}

/// A range, where it lies in hub RAM.
fn in_ram(range: (u16, u16)) -> Option<(u16, u16)>
    ensures { result ≡ range_in_ram range }
{
    let (address, count) = range;
    if u32::from(address) + u32::from(count) <= 32_768 {
        Some(range)
    } else {
        None
    }
}

/// The range that a view dumps, by a legend.
fn dumped_range(legend: &Legend, dump: Option<Dump<'_>>) -> Option<(u16, u16)>
    requires { IsDumpInRam dump }
    ensures range { result ≡ range_of_dump legend.now (dump_if_any dump.entry) }
    ensures in_ram { ForSome result (λ range. range.0 + range.1 ≤ 32768) }
{
    match dump {
        None => None,
        Some(Dump::Range(range)) => Some(range),
        Some(Dump::Name(name)) => in_ram(legend.range_of(name.as_bytes())?),
    }
}

/// A view of a run of a file, which is hub memory where it is raw.
pub(crate) fn view_work<S: Shelf>(
    alloc: Global,
    raw: bool,
    run: Run<'_>,
    options: ViewOptions,
    dump: Option<Dump<'_>>,
    shelf: &mut S,
) -> Result<Work, Stop>
    requires within { IsWithin run }
    requires dump { IsDumpInRam dump }
    ensures work { IfOk result (IsViewWork (S.files shelf.old) (format_for raw run.entry.file.now) (running run.entry) options (dump_if_any dump.entry)) }
    ensures reads { ReadsForAll (view_asks (format_for raw run.entry.file.now) run.entry.file.now (name_in (dump_if_any dump.entry)) (name_of run.entry.script))
        (shelf_seen S.files S.log S.faults shelf.old shelf.new) result }
{
    runs_are_told();
    let program = Program {
        file: run.file,
        format: Format::chosen(raw, run.file),
    };
    let read = read_viewed(alloc, program, dumped_name(dump), run.script, shelf)?;
    let limits = Limits {
        clocks: run.clocks,
        turns: run.turns,
    };
    let dump = dumped_range(&read.legend, dump);
    Ok(Work::View {
        start: Start {
            boot: read.inputs.boot,
            script: read.inputs.script,
            limits,
        },
        view: Viewing {
            options,
            legend: read.legend,
            dump,
        },
    })
}
