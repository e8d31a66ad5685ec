// An image as the other kind of file.
ghost use Rattle.std.specs.Prelude.{◌≡◌, ◌∷◌, [], ℕ, List, None, IfOk, OnOk, IfErr};
ghost use Rattle.p8_inputs.specs.Asks.{program as program_ask};
ghost use Rattle.p8_inputs.specs.Inputs.{IsProgram};
ghost use Rattle.p8_inputs.specs.Programs.{fault_of, format_of, other_file, IsFaultOf};
ghost use Rattle.p8_inputs.specs.Reads.{ReadsFor, ReadsForAll};
ghost use Rattle.p8_inputs.specs.Seen.{shelf_seen};

use crate::inputs::bytes_in;
use crate::stop::Stop;
use p8_commands::ImageKind;
use p8_image::{LoadFault, load, load_eeprom};
use p8_io::Shelf;
use p8_tree::Text;
use p8_words::{Fail, NoMemory};
use std::alloc::Global;

/// The bytes of an image of a kind, as the other kind of file has them. Bytes that are none are refused with their first fault.
fn other_bytes(alloc: Global, kind: ImageKind, bytes: &[u8]) -> Result<Vec<u8>, Fail<LoadFault>>
    ensures text { IfOk result (λ text. text.items ≡ other_file kind bytes.now) }
    ensures good { OnOk result (fault_of (format_of kind) bytes.now ≡ None) }
    ensures refused { IfErr result (IsFaultOf (format_of kind) bytes.now) }
{
    match kind {
        ImageKind::Binary => {
            let image = load(alloc, bytes)?;
            match image.eeprom(alloc) {
                Ok(text) => Ok(text),
                Err(NoMemory) => Err(Fail::NoMemory),
            }
        }
        ImageKind::Eeprom => {
            let image = load_eeprom(alloc, bytes)?;
            Ok(image.bytes().to_vec(alloc)?)
        }
    }
}

/// An image of a kind that a file holds, as the other kind of file.
fn other_in<S: Shelf>(
    alloc: Global,
    kind: ImageKind,
    file: &str,
    shelf: &mut S,
) -> Result<Vec<u8>, Stop>
    ensures text { IfOk result
        (λ text. (bytes : List ℕ) × IsProgram (S.files shelf.old) (format_of kind) file.now bytes × (text.items ≡ other_file kind bytes)) }
    ensures reads { ReadsFor (program_ask (format_of kind) file.now) (shelf_seen S.files S.log S.faults shelf.old shelf.new) result }
{
    let name = Text::copy_of(alloc, file.as_bytes())?;
    let bytes = bytes_in(alloc, file, shelf)?;
    match other_bytes(alloc, kind, &bytes) {
        Ok(text) => Ok(text),
        Err(Fail::Refused(fault)) => Err(Stop::BadProgram { file: name, fault }),
        Err(Fail::NoMemory) => Err(Stop::NoMemory),
    }
}

/// The image that a file of this kind holds, as the other kind of file: of a `.binary` file the 32,768 bytes of the memory that a run of it
/// begins with, and of an `.eeprom` file its bytes below vbase, with the checksum that makes them add to $14 mod 256.
///
/// # Errors
///
/// `Missing` where the shelf has no file of that name. `BadProgram` exactly where the file is no image of its kind, with its first
/// fault. `Unread` only where the shelf has counted a fault. `NoMemory` where there was no memory. The shelf's files stay as they
/// were, and its count never falls.
pub fn other_image<S: Shelf>(
    alloc: Global,
    kind: ImageKind,
    file: &str,
    shelf: &mut S,
) -> Result<Vec<u8>, Stop>
    ensures text { IfOk result
        (λ text. (bytes : List ℕ) × IsProgram (S.files shelf.old) (format_of kind) file.now bytes × (text.items ≡ other_file kind bytes)) }
    ensures reads { ReadsForAll (program_ask (format_of kind) file.now ∷ []) (shelf_seen S.files S.log S.faults shelf.old shelf.new) result }
{
    other_in(alloc, kind, file, shelf)
}
