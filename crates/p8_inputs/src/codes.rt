// The code of a project or of an image for reading.
ghost use Rattle.std.specs.Prelude.{◌≡◌, ◌∷◌, [], ℕ, List, None, length, IfOk, OnOk, IfErr};
ghost use Rattle.p8_tree.specs.Views.{named_sources_of};
ghost use Rattle.p8_build.specs.Told.{IsRefusal};
ghost use Rattle.p8_code.specs.Images.{image_code as code_in_image};
ghost use Rattle.p8_inputs.specs.Asks.{coding as coding_ask, program as program_ask};
ghost use Rattle.p8_inputs.specs.Gathered.{IsWhole, StopsAtBuilding};
ghost use Rattle.p8_inputs.specs.Inputs.{IsProgram};
ghost use Rattle.p8_inputs.specs.Programs.{binary_by, fault_of, format_of, IsFaultOf};
ghost use Rattle.p8_inputs.specs.Sources.{IsCodeBy, IsCodeFrom};
ghost use Rattle.p8_inputs.specs.Reads.{ReadsFor, ReadsForAll};
ghost use Rattle.p8_inputs.specs.Seen.{shelf_seen};

use crate::inputs::bytes_in;
use crate::sources::{project_in, stop_of_building};
use crate::stop::Stop;
use p8_build::BuildFault;
use p8_code::{image_code, project_code, project_short_code};
use p8_commands::ImageKind;
use p8_image::{Image, LoadFault, load, load_eeprom};
use p8_io::Shelf;
use p8_objects::{Gathered, discard};
use p8_tree::{Project, Text};
use p8_words::Fail;
use std::alloc::Global;

/// Builds a project whose files have these bytes to its code, with the short code of its methods where it is short.
fn built_code(
    alloc: Global,
    short: bool,
    project: &Project,
    sources: &[Text],
) -> Result<Vec<u8>, BuildFault>
    requires whole { IsWhole (named_sources_of project.now) }
    requires beside { length sources.now ≡ length (named_sources_of project.now) }
    ensures coded { IfOk result (λ text. IsCodeBy short sources.now (named_sources_of project.now) text.items) }
    ensures refused { IfErr result (IsRefusal (named_sources_of project.now)) }
{
    if short {
        project_short_code(alloc, project, sources)
    } else {
        project_code(alloc, project, sources)
    }
}

/// The code of a project.
fn code_of_project(alloc: Global, short: bool, gathered: &Gathered) -> Result<Vec<u8>, Stop>
    requires whole { IsWhole (named_sources_of gathered.now.project) }
    requires beside { length gathered.now.sources ≡ length (named_sources_of gathered.now.project) }
    ensures text { IfOk result (λ text. IsCodeBy short gathered.now.sources (named_sources_of gathered.now.project) text.items) }
    ensures stopped { IfErr result (StopsAtBuilding (named_sources_of gathered.now.project) gathered.now.sources) }
{
    match built_code(alloc, short, &gathered.project, gathered.sources.as_slice()) {
        Ok(text) => Ok(text),
        Err(fault) => Err(stop_of_building(alloc, gathered, fault)),
    }
}

/// The code of the project of a top file.
fn source_code_in<S: Shelf>(
    alloc: Global,
    short: bool,
    file: &str,
    shelf: &mut S,
) -> Result<Vec<u8>, Stop>
    ensures text { IfOk result (λ text. IsCodeFrom (S.files shelf.old) short file.now text.items) }
    ensures reads { ReadsFor (coding_ask short file.now) (shelf_seen S.files S.log S.faults shelf.old shelf.new) result }
{
    let gathered = project_in(alloc, file, shelf)?;
    let text = code_of_project(alloc, short, &gathered);
    discard(gathered);
    text
}

/// The image of a kind that bytes are. Bytes that are none are refused with their first fault.
fn loaded(alloc: Global, kind: ImageKind, bytes: &[u8]) -> Result<Image, Fail<LoadFault>>
    ensures file { IfOk result (λ image. image.file ≡ binary_by kind bytes.now) }
    ensures good { OnOk result (fault_of (format_of kind) bytes.now ≡ None) }
    ensures refused { IfErr result (IsFaultOf (format_of kind) bytes.now) }
{
    match kind {
        ImageKind::Binary => {
            let image = load(alloc, bytes)?;
            Ok(image)
        }
        ImageKind::Eeprom => {
            let image = load_eeprom(alloc, bytes)?;
            Ok(image)
        }
    }
}

/// The code of the image of a kind that a file holds.
fn image_code_in<S: Shelf>(
    alloc: Global,
    kind: ImageKind,
    file: &str,
    shelf: &mut S,
) -> Result<Vec<u8>, Stop>
    ensures text { IfOk result
        (λ text. (bytes : List ℕ) × IsProgram (S.files shelf.old) (format_of kind) file.now bytes × (text.items ≡ code_in_image (binary_by kind bytes))) }
    ensures reads { ReadsFor (program_ask (format_of kind) file.now) (shelf_seen S.files S.log S.faults shelf.old shelf.new) result }
{
    let name = Text::copy_of(alloc, file.as_bytes())?;
    let bytes = bytes_in(alloc, file, shelf)?;
    match loaded(alloc, kind, &bytes) {
        Ok(image) => Ok(image_code(alloc, &image)?),
        Err(Fail::Refused(fault)) => Err(Stop::BadProgram { file: name, fault }),
        Err(Fail::NoMemory) => Err(Stop::NoMemory),
    }
}

/// The code for reading of the project of sources whose top file has this name, with the short code of its methods where it is short: see
/// [`project_code`](p8_code::project_code).
///
/// # Errors
///
/// Those of [`image_of_source`](crate::image_of_source).
pub fn code_of_source<S: Shelf>(
    alloc: Global,
    short: bool,
    file: &str,
    shelf: &mut S,
) -> Result<Vec<u8>, Stop>
    ensures text { IfOk result (λ text. IsCodeFrom (S.files shelf.old) short file.now text.items) }
    ensures reads { ReadsForAll (coding_ask short file.now ∷ []) (shelf_seen S.files S.log S.faults shelf.old shelf.new) result }
{
    source_code_in(alloc, short, file, shelf)
}

/// The code for reading of the image that a file of this kind holds: see [`image_code`](p8_code::image_code).
///
/// # Errors
///
/// Those of [`other_image`](crate::other_image).
pub fn code_of_image<S: Shelf>(
    alloc: Global,
    kind: ImageKind,
    file: &str,
    shelf: &mut S,
) -> Result<Vec<u8>, Stop>
    ensures text { IfOk result
        (λ text. (bytes : List ℕ) × IsProgram (S.files shelf.old) (format_of kind) file.now bytes × (text.items ≡ code_in_image (binary_by kind bytes))) }
    ensures reads { ReadsForAll (program_ask (format_of kind) file.now ∷ []) (shelf_seen S.files S.log S.faults shelf.old shelf.new) result }
{
    image_code_in(alloc, kind, file, shelf)
}
