// The code of a file for reading.
ghost use Rattle.std.specs.Prelude.{IfOk};
ghost use Rattle.p8_commands.specs.Commands.{CodeSource, CodeImage};
ghost use Rattle.p8_prop.specs.Texts.{asks_of};
ghost use Rattle.p8_prop.specs.Works.{IsWork};
ghost use Rattle.p8_inputs.specs.Reads.{ReadsForAll};
ghost use Rattle.p8_inputs.specs.Seen.{shelf_seen};

use crate::work::{Answer, Work};
use p8_commands::ImageKind;
use p8_inputs::{Stop, code_of_image, code_of_source};
use p8_io::Shelf;
use std::alloc::Global;

/// The code of a source.
pub(crate) fn source_code_work<S: Shelf>(
    alloc: Global,
    short: bool,
    file: &str,
    shelf: &mut S,
) -> Result<Work, Stop>
    ensures work { IfOk result (IsWork (S.files shelf.old) (CodeSource short file.now)) }
    ensures reads { ReadsForAll (asks_of (CodeSource short file.now)) (shelf_seen S.files S.log S.faults shelf.old shelf.new) result }
{
    let text = code_of_source(alloc, short, file, shelf)?;
    Ok(Work::Done(Answer::Text(text)))
}

/// The code of an image of a kind.
pub(crate) fn image_code_work<S: Shelf>(
    alloc: Global,
    kind: ImageKind,
    file: &str,
    shelf: &mut S,
) -> Result<Work, Stop>
    ensures work { IfOk result (IsWork (S.files shelf.old) (CodeImage kind file.now)) }
    ensures reads { ReadsForAll (asks_of (CodeImage kind file.now)) (shelf_seen S.files S.log S.faults shelf.old shelf.new) result }
{
    let text = code_of_image(alloc, kind, file, shelf)?;
    Ok(Work::Done(Answer::Text(text)))
}
