// The files of a run.
ghost use Rattle.std.specs.Prelude.{◌≤◌, ◌∷◌, [], length, Some, IfOk};
ghost use Rattle.p8_access.specs.Proper.{IsProperOrigin};
ghost use Rattle.p8_io.specs.Shelves.{IsRead};
ghost use Rattle.p8_inputs.specs.Asks.{program as program_ask, history as history_ask, script as one_script_ask};
ghost use Rattle.p8_inputs.specs.Asks.{script_ask, run_asks, check_asks, most_sent, message as message_ask};
ghost use Rattle.p8_inputs.specs.Inputs.{IsScriptFor};
ghost use Rattle.p8_commands.specs.Naming.{name_of};
ghost use Rattle.p8_inputs.specs.Runs.{Begins};
ghost use Rattle.p8_inputs.specs.Steps.{IsBootOf, IsOfBytes};
ghost use Rattle.p8_inputs.specs.declared.program.Format.TheVariants.{Source};
ghost use Rattle.p8_inputs.specs.Reads.{ReadsFor, ReadsForAll};
ghost use Rattle.p8_inputs.specs.Seen.{shelf_seen};

use crate::boots::{binary_boot, boot_of};
use crate::program::{Format, Program};
use crate::sources::image_in;
use crate::stop::Stop;
use p8_access::Boot;
use p8_image::LoadFault;
use p8_io::{Shelf, ShelfError};
use p8_pins::PinScript;
use p8_tree::Text;
use p8_words::Fail;
use std::alloc::Global;

/// How many bytes a message has at most.
const MOST_SENT: usize = 5_000;

/// What a run begins with.
#[derive(Drop)]
pub struct Inputs {
    /// The hub's memory and what cog 0 is started with.
    pub boot: Boot,
    /// The levels of the input pins.
    pub script: PinScript,
}

/// What a history file is checked against, and the file's bytes.
#[derive(Drop)]
pub struct Recorded {
    pub inputs: Inputs,
    pub history: Vec<u8>,
}

/// The bytes of a file that the words name.
pub(crate) fn bytes_in<S: Shelf>(alloc: Global, file: &str, shelf: &mut S) -> Result<Vec<u8>, Stop>
    ensures read { IfOk result (λ bytes. IsRead (S.files shelf.old) file.now bytes.items) }
    ensures reads { ReadsFor (history_ask file.now) (shelf_seen S.files S.log S.faults shelf.old shelf.new) result }
{
    let name = Text::copy_of(alloc, file.as_bytes())?;
    match shelf.read_named(alloc, file) {
        Ok(bytes) => Ok(bytes),
        Err(ShelfError::Missing) => Err(Stop::Missing {
            file: name,
            mention: None,
        }),
        Err(ShelfError::Failed) => Err(Stop::Unread { file: name }),
        Err(ShelfError::NoMemory) => Err(Stop::NoMemory),
    }
}

/// The boot of a file that has the bytes which are run.
fn file_in<S: Shelf>(alloc: Global, program: Program<'_>, shelf: &mut S) -> Result<Boot, Stop>
    requires { IsOfBytes program.format }
    ensures boot { IfOk result (IsBootOf (S.files shelf.old) program.entry.format program.entry.file.now) }
    ensures proper { IfOk result (λ boot. IsProperOrigin boot.first) }
    ensures reads { ReadsFor (program_ask program.entry.format program.entry.file.now) (shelf_seen S.files S.log S.faults shelf.old shelf.new) result }
{
    let name = Text::copy_of(alloc, program.file.as_bytes())?;
    let bytes = bytes_in(alloc, program.file, shelf)?;
    match boot_of(alloc, program.format, &bytes) {
        Ok(boot) => Ok(boot),
        Err(Fail::Refused(fault)) => Err(Stop::BadProgram { file: name, fault }),
        Err(Fail::NoMemory) => Err(Stop::NoMemory),
    }
}

/// The boot of a source's image.
fn source_in<S: Shelf>(alloc: Global, short: bool, file: &str, shelf: &mut S) -> Result<Boot, Stop>
    ensures boot { IfOk result (IsBootOf (S.files shelf.old) (Source short) file.now) }
    ensures proper { IfOk result (λ boot. IsProperOrigin boot.first) }
    ensures reads { ReadsFor (program_ask (Source short) file.now) (shelf_seen S.files S.log S.faults shelf.old shelf.new) result }
{
    let image = image_in(alloc, short, file, shelf)?;
    let boot = binary_boot(alloc, &image)?;
    Ok(boot)
}

/// The boot of what is run.
pub(crate) fn boot_in<S: Shelf>(
    alloc: Global,
    program: Program<'_>,
    shelf: &mut S,
) -> Result<Boot, Stop>
    ensures boot { IfOk result (IsBootOf (S.files shelf.old) program.entry.format program.entry.file.now) }
    ensures proper { IfOk result (λ boot. IsProperOrigin boot.first) }
    ensures reads { ReadsFor (program_ask program.entry.format program.entry.file.now) (shelf_seen S.files S.log S.faults shelf.old shelf.new) result }
{
    match program.format {
        Format::Source { short } => source_in(alloc, short, program.file, shelf),
        Format::Memory | Format::Image | Format::Eeprom => file_in(alloc, program, shelf),
    }
}

/// The pin script of a file.
fn script_in<S: Shelf>(alloc: Global, file: &str, shelf: &mut S) -> Result<PinScript, Stop>
    ensures script { IfOk result (IsScriptFor (S.files shelf.old) (Some file.now)) }
    ensures reads { ReadsFor (one_script_ask file.now) (shelf_seen S.files S.log S.faults shelf.old shelf.new) result }
{
    let name = Text::copy_of(alloc, file.as_bytes())?;
    let bytes = bytes_in(alloc, file, shelf)?;
    match PinScript::read(alloc, &bytes) {
        Ok(script) => Ok(script),
        Err(Fail::Refused(fault)) => Err(Stop::BadScript {
            file: name,
            line: fault.line,
        }),
        Err(Fail::NoMemory) => Err(Stop::NoMemory),
    }
}

/// The pin script of a run: that of a file, where one is named, and else one without lines.
pub(crate) fn script_for<S: Shelf>(
    alloc: Global,
    script: Option<&str>,
    shelf: &mut S,
) -> Result<PinScript, Stop>
    ensures script { IfOk result (IsScriptFor (S.files shelf.old) (name_of script.entry)) }
    ensures reads { ReadsForAll (script_ask (name_of script.entry)) (shelf_seen S.files S.log S.faults shelf.old shelf.new) result }
{
    match script {
        None => Ok(PinScript::empty(alloc)),
        Some(file) => script_in(alloc, file, shelf),
    }
}

/// Reads what a run begins with: the file to run, with all files of its project where it is a source, and then the pin script, if
/// one is named. Of the shelf these files are read, each once and in this order, and at an error none after the one that stops.
///
/// # Errors
///
/// Those of the first file that stops, in this order; where the shelf tells its files there is one such reason alone ([`one_reading`]
/// (crate::one_reading)), but for want of memory and faults of the shelf. `Missing`: the shelf has no file of that name. `Refused`: exactly where the project
/// of a source is refused, with its first refusal ([`image_of_source`](crate::image_of_source)). `BadProgram`: exactly where
/// the file to run is no image, with its first fault, or is more than 32,768 bytes of hub memory. `BadScript`: exactly
/// where the pin script has a bad line, or more than 1,048,576 bytes. `Unread`: only where the shelf has counted a fault.
/// `NoMemory`: there was no memory. The shelf's files stay as they were, and its count never falls.
pub fn read_inputs<S: Shelf>(
    alloc: Global,
    program: Program<'_>,
    script: Option<&str>,
    shelf: &mut S,
) -> Result<Inputs, Stop>
    ensures begins { IfOk result (Begins (S.files shelf.old) program.entry.format program.entry.file.now (name_of script.entry)) }
    ensures proper { IfOk result (λ inputs. IsProperOrigin inputs.boot.first) }
    ensures reads { ReadsForAll (run_asks program.entry.format program.entry.file.now (name_of script.entry))
        (shelf_seen S.files S.log S.faults shelf.old shelf.new) result }
{
    let boot = boot_in(alloc, program, shelf)?;
    let script = script_for(alloc, script, shelf)?;
    Ok(Inputs { boot, script })
}

/// Reads what a run begins with, and then the bytes of a history file, whatever they are.
///
/// # Errors
///
/// Those of [`read_inputs`]; then, for the history file, `Missing`, `Unread` and `NoMemory` as there.
pub fn read_recorded<S: Shelf>(
    alloc: Global,
    program: Program<'_>,
    script: Option<&str>,
    history: &str,
    shelf: &mut S,
) -> Result<Recorded, Stop>
    ensures begins { IfOk result (λ read. Begins (S.files shelf.old) program.entry.format program.entry.file.now (name_of script.entry) read.inputs) }
    ensures history { IfOk result (λ read. IsRead (S.files shelf.old) history.now read.history.items) }
    ensures proper { IfOk result (λ read. IsProperOrigin read.inputs.boot.first) }
    ensures reads { ReadsForAll (check_asks program.entry.format program.entry.file.now (name_of script.entry) history.now)
        (shelf_seen S.files S.log S.faults shelf.old shelf.new) result }
{
    let inputs = read_inputs(alloc, program, script, shelf)?;
    let history = bytes_in(alloc, history, shelf)?;
    Ok(Recorded { inputs, history })
}

/// The bytes of a message that is to be sent, at most 5,000.
///
/// # Errors
///
/// `Missing`, `Unread` and `NoMemory` as for [`read_inputs`]; `BadProgram` with the length exactly where the file has more bytes.
pub fn read_message<S: Shelf>(alloc: Global, file: &str, shelf: &mut S) -> Result<Vec<u8>, Stop>
    ensures read { IfOk result (λ bytes. IsRead (S.files shelf.old) file.now bytes.items) }
    ensures short { IfOk result (λ bytes. length bytes.items ≤ most_sent) }
    ensures reads { ReadsForAll (message_ask file.now ∷ []) (shelf_seen S.files S.log S.faults shelf.old shelf.new) result }
{
    let name = Text::copy_of(alloc, file.as_bytes())?;
    let bytes = bytes_in(alloc, file, shelf)?;
    let length = bytes.as_slice().len();
    if length > MOST_SENT {
        return Err(Stop::BadProgram {
            file: name,
            fault: LoadFault::BadLength { length },
        });
    }
    Ok(bytes)
}
