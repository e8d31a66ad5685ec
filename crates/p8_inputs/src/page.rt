// What a page begins with.
ghost use Rattle.std.specs.Prelude.{◌≡◌, [], false, List, IfOk};
ghost use Rattle.p8_access.specs.Proper.{IsProperOrigin};
ghost use Rattle.p8_commands.specs.Naming.{name_of};
ghost use Rattle.p8_page.specs.Page.{Block, blocks_text};
ghost use Rattle.p8_inputs.specs.Asks.{page_asks, paging as paging_ask};
ghost use Rattle.p8_inputs.specs.Legends.{IsLegendFrom, TellsNothing};
ghost use Rattle.p8_inputs.specs.Pages.{AreBlocksFrom};
ghost use Rattle.p8_inputs.specs.Runs.{Begins};
ghost use Rattle.p8_inputs.specs.Steps.{IsBootOf};
ghost use Rattle.p8_inputs.specs.declared.program.Format.TheVariants.{Source};
ghost use Rattle.p8_inputs.specs.Reads.{ReadsFor, ReadsForAll};
ghost use Rattle.p8_inputs.specs.Seen.{shelf_seen};

use crate::boots::binary_boot;
use crate::inputs::{Inputs, boot_in, script_for};
use crate::program::{Format, Program};
use crate::sources::paged_in;
use crate::stop::Stop;
use crate::view::no_legend;
use p8_access::Boot;
use p8_io::Shelf;
use p8_legend::Legend;
use std::alloc::Global;

/// What a page begins with.
#[derive(Drop)]
pub struct Paged {
    pub inputs: Inputs,
    /// What is known of the program: of an image nothing.
    pub legend: Legend,
    /// The blocks that the page has of the project: its map and its files; of an image none.
    pub project: Vec<u8>,
}

/// The boot of what is run, with its legend and the blocks of its project.
#[derive(Drop)]
struct Shown {
    boot: Boot,
    legend: Legend,
    project: Vec<u8>,
}

/// The boot of a source's image, with its legend and the blocks of its project.
fn source_shown<S: Shelf>(alloc: Global, file: &str, shelf: &mut S) -> Result<Shown, Stop>
    ensures boot { IfOk result (λ read. IsBootOf (S.files shelf.old) (Source false) file.now read.boot) }
    ensures proper { IfOk result (λ read. IsProperOrigin read.boot.first) }
    ensures legend { IfOk result (λ read. IsLegendFrom (S.files shelf.old) (Source false) file.now read.legend) }
    ensures blocks { IfOk result (λ read. (blocks : List Block) × AreBlocksFrom (S.files shelf.old) (Source false) file.now blocks ×
        (read.project.items ≡ blocks_text blocks)) }
    ensures reads { ReadsFor (paging_ask (Source false) file.now) (shelf_seen S.files S.log S.faults shelf.old shelf.new) result }
{
    let read = paged_in(alloc, file, shelf)?;
    let boot = binary_boot(alloc, &read.image)?;
    Ok(Shown {
        boot,
        legend: read.legend,
        project: read.project,
    })
}

/// The boot of a program of which nothing is known: of any but a source whose code isn't short.
fn other_shown<S: Shelf>(alloc: Global, program: Program<'_>, shelf: &mut S) -> Result<Shown, Stop>
    ensures boot { IfOk result (λ read. IsBootOf (S.files shelf.old) program.entry.format program.entry.file.now read.boot) }
    ensures proper { IfOk result (λ read. IsProperOrigin read.boot.first) }
    ensures legend { IfOk result (λ read. TellsNothing read.legend) }
    ensures blocks { IfOk result (λ read. read.project.items ≡ []) }
    ensures reads { ReadsFor (paging_ask program.entry.format program.entry.file.now) (shelf_seen S.files S.log S.faults shelf.old shelf.new) result }
{
    let boot = boot_in(alloc, program, shelf)?;
    Ok(Shown {
        boot,
        legend: no_legend(alloc),
        project: Vec::new(alloc),
    })
}

/// The boot of what is run, with its legend and the blocks of its project.
fn program_shown<S: Shelf>(
    alloc: Global,
    program: Program<'_>,
    shelf: &mut S,
) -> Result<Shown, Stop>
    ensures boot { IfOk result (λ read. IsBootOf (S.files shelf.old) program.entry.format program.entry.file.now read.boot) }
    ensures proper { IfOk result (λ read. IsProperOrigin read.boot.first) }
    ensures legend { IfOk result (λ read. IsLegendFrom (S.files shelf.old) program.entry.format program.entry.file.now read.legend) }
    ensures blocks { IfOk result (λ read. (blocks : List Block) ×
        AreBlocksFrom (S.files shelf.old) program.entry.format program.entry.file.now blocks × (read.project.items ≡ blocks_text blocks)) }
    ensures reads { ReadsFor (paging_ask program.entry.format program.entry.file.now) (shelf_seen S.files S.log S.faults shelf.old shelf.new) result }
{
    match program.format {
        Format::Source { short } => {
            if short {
                other_shown(alloc, program, shelf)
            } else {
                source_shown(alloc, program.file, shelf)
            }
        }
        Format::Memory | Format::Image | Format::Eeprom => other_shown(alloc, program, shelf),
    }
}

/// Reads what a page begins with: the file to run with its legend and the blocks of its project, and then the pin script, if one is named. Of a
/// source legend and blocks are those of its project, which is read once; of hub memory, of an image and of short code the legend tells nothing, and
/// there are no blocks.
///
/// # Errors
///
/// Those of [`read_inputs`](crate::read_inputs).
pub fn read_paged<S: Shelf>(
    alloc: Global,
    program: Program<'_>,
    script: Option<&str>,
    shelf: &mut S,
) -> Result<Paged, Stop>
    ensures begins { IfOk result (λ read. Begins (S.files shelf.old) program.entry.format program.entry.file.now (name_of script.entry) read.inputs) }
    ensures proper { IfOk result (λ read. IsProperOrigin read.inputs.boot.first) }
    ensures legend { IfOk result (λ read. IsLegendFrom (S.files shelf.old) program.entry.format program.entry.file.now read.legend) }
    ensures blocks { IfOk result (λ read. (blocks : List Block) ×
        AreBlocksFrom (S.files shelf.old) program.entry.format program.entry.file.now blocks × (read.project.items ≡ blocks_text blocks)) }
    ensures reads { ReadsForAll (page_asks program.entry.format program.entry.file.now (name_of script.entry))
        (shelf_seen S.files S.log S.faults shelf.old shelf.new) result }
{
    let shown = program_shown(alloc, program, shelf)?;
    let script = script_for(alloc, script, shelf)?;
    Ok(Paged {
        inputs: Inputs {
            boot: shown.boot,
            script,
        },
        legend: shown.legend,
        project: shown.project,
    })
}
