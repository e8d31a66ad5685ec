// What a view begins with.
ghost use Rattle.std.specs.Prelude.{false, IfOk, OnOk, IfErr};
ghost use Rattle.p8_access.specs.Proper.{IsProperOrigin};
ghost use Rattle.p8_inputs.specs.Asks.{viewing as viewing_ask, view_asks, program as program_ask};
ghost use Rattle.p8_inputs.specs.Legends.{HasName, IsLegendFrom, TellsNothing};
ghost use Rattle.p8_commands.specs.Naming.{name_of};
ghost use Rattle.p8_inputs.specs.Runs.{Begins};
ghost use Rattle.p8_inputs.specs.Steps.{IsBootOf, IsNameless, IsNamelessIn};
ghost use Rattle.p8_inputs.specs.declared.program.Format.TheVariants.{Source};
ghost use Rattle.p8_inputs.specs.Reads.{ReadsFor, ReadsForAll};
ghost use Rattle.p8_inputs.specs.Seen.{shelf_seen};

use crate::boots::binary_boot;
use crate::inputs::{Inputs, boot_in, script_for};
use crate::program::{Format, Program};
use crate::sources::explained_in;
use crate::stop::Stop;
use p8_access::Boot;
use p8_io::Shelf;
use p8_legend::{Legend, Ranges};
use p8_tree::Text;
use std::alloc::Global;

/// What a view begins with.
#[derive(Drop)]
pub struct Viewed {
    pub inputs: Inputs,
    /// What is known of the program: of an image nothing.
    pub legend: Legend,
}

/// The boot of what is run, with its legend.
#[derive(Drop)]
struct BootWithLegend {
    boot: Boot,
    legend: Legend,
}

/// A legend that tells nothing.
pub(crate) fn no_legend(alloc: Global) -> Legend
    ensures { TellsNothing result }
{
    Legend {
        names: Ranges::new(alloc),
        places: Ranges::new(alloc),
        lines: Ranges::new(alloc),
        locals: Ranges::new(alloc),
    }
}

/// The boot of a source's image, with its legend.
fn source_told<S: Shelf>(alloc: Global, file: &str, shelf: &mut S) -> Result<BootWithLegend, Stop>
    ensures boot { IfOk result (λ read. IsBootOf (S.files shelf.old) (Source false) file.now read.boot) }
    ensures proper { IfOk result (λ read. IsProperOrigin read.boot.first) }
    ensures legend { IfOk result (λ read. IsLegendFrom (S.files shelf.old) (Source false) file.now read.legend) }
    ensures reads { ReadsFor (program_ask (Source false) file.now) (shelf_seen S.files S.log S.faults shelf.old shelf.new) result }
{
    let read = explained_in(alloc, file, shelf)?;
    let boot = binary_boot(alloc, &read.image)?;
    Ok(BootWithLegend {
        boot,
        legend: read.legend,
    })
}

/// The boot of a program of which nothing is known: of any but a source whose code isn't short.
fn other_told<S: Shelf>(
    alloc: Global,
    program: Program<'_>,
    shelf: &mut S,
) -> Result<BootWithLegend, Stop>
    ensures boot { IfOk result (λ read. IsBootOf (S.files shelf.old) program.entry.format program.entry.file.now read.boot) }
    ensures proper { IfOk result (λ read. IsProperOrigin read.boot.first) }
    ensures legend { IfOk result (λ read. TellsNothing read.legend) }
    ensures reads { ReadsFor (program_ask program.entry.format program.entry.file.now) (shelf_seen S.files S.log S.faults shelf.old shelf.new) result }
{
    let boot = boot_in(alloc, program, shelf)?;
    Ok(BootWithLegend {
        boot,
        legend: no_legend(alloc),
    })
}

/// The boot of what is run, with its legend.
fn program_told<S: Shelf>(
    alloc: Global,
    program: Program<'_>,
    shelf: &mut S,
) -> Result<BootWithLegend, Stop>
    ensures boot { IfOk result (λ read. IsBootOf (S.files shelf.old) program.entry.format program.entry.file.now read.boot) }
    ensures proper { IfOk result (λ read. IsProperOrigin read.boot.first) }
    ensures legend { IfOk result (λ read. IsLegendFrom (S.files shelf.old) program.entry.format program.entry.file.now read.legend) }
    ensures reads { ReadsFor (program_ask program.entry.format program.entry.file.now) (shelf_seen S.files S.log S.faults shelf.old shelf.new) result }
{
    match program.format {
        Format::Source { short } => {
            if short {
                other_told(alloc, program, shelf)
            } else {
                source_told(alloc, program.file, shelf)
            }
        }
        Format::Memory | Format::Image | Format::Eeprom => other_told(alloc, program, shelf),
    }
}

/// The refusal of a name that nothing of the program of a file has.
fn unnamed(alloc: Global, file: &str, name: &str) -> Stop
    ensures { IsNameless file.now name.now result }
{
    let Ok(file) = Text::copy_of(alloc, file.as_bytes()) else {
        return Stop::NoMemory;
    };
    match Text::copy_of(alloc, name.as_bytes()) {
        Ok(name) => Stop::Unnamed { file, name },
        Err(_) => Stop::NoMemory,
    }
}

/// Looks for a name in the legend of a file, where one is asked for.
fn seek(alloc: Global, file: &str, name: Option<&str>, legend: &Legend) -> Result<(), Stop>
    ensures named { OnOk result (HasName legend.now (name_of name.entry)) }
    ensures unnamed { IfErr result (IsNamelessIn legend.now file.now (name_of name.entry)) }
{
    match name {
        None => Ok(()),
        Some(name) => match legend.range_of(name.as_bytes()) {
            Some(_) => Ok(()),
            None => Err(unnamed(alloc, file, name)),
        },
    }
}

/// The boot of what is run, with its legend, in which a name stands, where one is asked for.
fn told_with<S: Shelf>(
    alloc: Global,
    program: Program<'_>,
    name: Option<&str>,
    shelf: &mut S,
) -> Result<BootWithLegend, Stop>
    ensures boot { IfOk result (λ read. IsBootOf (S.files shelf.old) program.entry.format program.entry.file.now read.boot) }
    ensures proper { IfOk result (λ read. IsProperOrigin read.boot.first) }
    ensures legend { IfOk result (λ read. IsLegendFrom (S.files shelf.old) program.entry.format program.entry.file.now read.legend) }
    ensures named { IfOk result (λ read. HasName read.legend (name_of name.entry)) }
    ensures reads { ReadsFor (viewing_ask program.entry.format program.entry.file.now (name_of name.entry))
        (shelf_seen S.files S.log S.faults shelf.old shelf.new) result }
{
    let told = program_told(alloc, program, shelf)?;
    seek(alloc, program.file, name, &told.legend)?;
    Ok(told)
}

/// Reads what a view begins with: the file to run with its legend, and then the pin script, if one is named. Of a source the legend is that of its
/// project, which is read once; of hub memory, of an image and of short code it tells nothing. Where a name is asked for it has a range in
/// the legend ([`Legend::range_of`](p8_legend::Legend::range_of)).
///
/// # Errors
///
/// Those of [`read_inputs`](crate::read_inputs), and `Unnamed`: exactly where nothing of the program has the name that is asked for. That comes
/// before the pin script is read.
pub fn read_viewed<S: Shelf>(
    alloc: Global,
    program: Program<'_>,
    name: Option<&str>,
    script: Option<&str>,
    shelf: &mut S,
) -> Result<Viewed, Stop>
    ensures begins { IfOk result (λ read. Begins (S.files shelf.old) program.entry.format program.entry.file.now (name_of script.entry) read.inputs) }
    ensures proper { IfOk result (λ read. IsProperOrigin read.inputs.boot.first) }
    ensures legend { IfOk result (λ read. IsLegendFrom (S.files shelf.old) program.entry.format program.entry.file.now read.legend) }
    ensures named { IfOk result (λ read. HasName read.legend (name_of name.entry)) }
    ensures reads { ReadsForAll (view_asks program.entry.format program.entry.file.now (name_of name.entry) (name_of script.entry))
        (shelf_seen S.files S.log S.faults shelf.old shelf.new) result }
{
    let told = told_with(alloc, program, name, shelf)?;
    let script = script_for(alloc, script, shelf)?;
    Ok(Viewed {
        inputs: Inputs {
            boot: told.boot,
            script,
        },
        legend: told.legend,
    })
}
