// What each command reads, and what it comes to then.
ghost use Rattle.std.specs.Prelude.{◌≡◌, ◌<◌, ◌≤◌, ◌∷◌, [], ℕ, List, Bool, Err, IfOk};
ghost use Rattle.p8_access.specs.declared.memory.Boot.{Boot};
ghost use Rattle.p8_access.specs.Worlds.{Line};
ghost use Rattle.p8_serial.specs.Laws.{IsRate};
ghost use Rattle.p8_verify.specs.Answers.{Tells};
ghost use Rattle.p8_access.specs.Boots.{ram_of};
ghost use Rattle.p8_access.specs.Proper.{IsProperOrigin};
ghost use Rattle.p8_access.specs.declared.kinds.Origin.TheVariants.{Pasm};
ghost use Rattle.p8_finish.specs.Made.{made_bytes};
ghost use Rattle.p8_finish.specs.Summary.{made_world};
ghost use Rattle.p8_io.specs.Shelves.{Files};
ghost use Rattle.p8_finish.specs.Finishes.{CanBeTold};
ghost use Rattle.p8_inputs.specs.Asks.{program as program_ask, run_asks};
ghost use Rattle.p8_inputs.specs.Programs.{format_for};
ghost use Rattle.p8_inputs.specs.Sources.{IsImageFrom};
ghost use Rattle.p8_inputs.specs.declared.program.Format.TheVariants.{Source};
ghost use Rattle.p8_commands.specs.Commands.{BuildSource, ListSource, MapSource, HintSource, ExplainFile, ExplainNumber, Check, TypeFile, Convert, Make, Help};
ghost use Rattle.p8_commands.specs.Naming.{name_of};
ghost use Rattle.p8_commands.specs.Seen.{command_read, running, HasLimits, IsWithin};
ghost use Rattle.p8_prop.specs.Headline.{IsBuild};
ghost use Rattle.p8_prop.specs.Texts.{accepted_line as accepted_line_of, asks_of};
ghost use Rattle.p8_prop.specs.Works.{IsCheckedBy, IsRunWork, IsWork, world_in};
ghost use Rattle.p8_inputs.specs.Reads.{ReadsForAll};
ghost use Rattle.p8_inputs.specs.Seen.{shelf_seen};

use crate::code::{image_code_work, source_code_work};
use crate::laws::{builds_keep_meaning, runs_are_told};
use crate::page::{Paging, page_work};
use crate::view::{Viewing, view_work};
use p8_access::Boot;
use p8_commands::{Command, ImageKind, Run, Subcommand, help_page};
use p8_explain::entry;
use p8_finish::{Finish, good_line, made_image};
use p8_inputs::{
    Format, Program, Recorded, Stop, hints_of_source, image_of_source, listing_of_source,
    map_of_source, other_image, read_inputs, read_message, read_recorded,
};
use p8_io::Shelf;
use p8_ledger::{Limits, Start};
use p8_pins::PinScript;
use p8_serial::typed;
use p8_tree::Text;
use p8_verify::{Cause, VerifyFault, verify};
use p8_view::ViewOptions;
use p8_wave::{Selection, View as Picture};
use p8_words::NoMemory;
use std::alloc::Global;

/// What comes of a command.
#[derive(Drop)]
pub enum Answer {
    /// Its text.
    Text(Vec<u8>),
    /// The history file of this name isn't that of the run: the first turn of which that can be said, counted from 1, or 0 for the file's
    /// head, and why.
    Bad {
        history: Text,
        turn: u64,
        cause: Cause,
    },
}

/// What a command comes to once its files are read.
#[derive(Drop)]
pub enum Work {
    /// Nothing is run.
    Done(Answer),
    /// A run, and what is told of it.
    Run { start: Start, finish: Finish },
    /// A run, and the view of it.
    View { start: Start, view: Viewing },
    /// A run, and the page of it.
    Page { start: Start, page: Paging },
}

/// The limits of a run of a made program.
const MADE_LIMITS: Limits = Limits {
    clocks: 100_000,
    turns: 100_000,
};

/// The bytes of the image of a source.
fn image_bytes<S: Shelf>(
    alloc: Global,
    short: bool,
    file: &str,
    shelf: &mut S,
) -> Result<Vec<u8>, Stop>
    ensures text { IfOk result (λ text. IsImageFrom (S.files shelf.old) short file.now text.items) }
    ensures keeps { IfOk result (λ text. IsBuild (S.files shelf.old) short file.now text.items) }
    ensures reads { ReadsForAll (program_ask (Source short) file.now ∷ []) (shelf_seen S.files S.log S.faults shelf.old shelf.new) result }
{
    builds_keep_meaning();
    let image = image_of_source(alloc, short, file, shelf)?;
    let bytes = image.bytes().to_vec(alloc)?;
    Ok(bytes)
}

/// The image of a source.
fn image_work<S: Shelf>(alloc: Global, short: bool, file: &str, shelf: &mut S) -> Result<Work, Stop>
    ensures work { IfOk result (IsWork (S.files shelf.old) (BuildSource short file.now)) }
    ensures reads { ReadsForAll (asks_of (BuildSource short file.now)) (shelf_seen S.files S.log S.faults shelf.old shelf.new) result }
{
    let text = image_bytes(alloc, short, file, shelf)?;
    Ok(Work::Done(Answer::Text(text)))
}

/// The listing of a source.
fn listing_work<S: Shelf>(
    alloc: Global,
    short: bool,
    file: &str,
    shelf: &mut S,
) -> Result<Work, Stop>
    ensures work { IfOk result (IsWork (S.files shelf.old) (ListSource short file.now)) }
    ensures reads { ReadsForAll (asks_of (ListSource short file.now)) (shelf_seen S.files S.log S.faults shelf.old shelf.new) result }
{
    let text = listing_of_source(alloc, short, file, shelf)?;
    Ok(Work::Done(Answer::Text(text)))
}

/// The map of a source.
fn map_work<S: Shelf>(alloc: Global, file: &str, shelf: &mut S) -> Result<Work, Stop>
    ensures work { IfOk result (IsWork (S.files shelf.old) (MapSource file.now)) }
    ensures reads { ReadsForAll (asks_of (MapSource file.now)) (shelf_seen S.files S.log S.faults shelf.old shelf.new) result }
{
    let text = map_of_source(alloc, file, shelf)?;
    Ok(Work::Done(Answer::Text(text)))
}

/// The hints at what is most likely a slip in a source.
fn hint_work<S: Shelf>(alloc: Global, file: &str, shelf: &mut S) -> Result<Work, Stop>
    ensures work { IfOk result (IsWork (S.files shelf.old) (HintSource file.now)) }
    ensures reads { ReadsForAll (asks_of (HintSource file.now)) (shelf_seen S.files S.log S.faults shelf.old shelf.new) result }
{
    let text = hints_of_source(alloc, file, shelf)?;
    Ok(Work::Done(Answer::Text(text)))
}

/// The line of a source of which nothing is refused.
fn accepted_line(alloc: Global, file: &str) -> Result<Vec<u8>, NoMemory>
    ensures { IfOk result (λ line. line.items ≡ accepted_line_of file.now) }
{
    let mut line = Vec::new(alloc);
    line.extend_from_slice(file.as_bytes())?;
    line.extend_from_slice(b": nothing is refused\n")?;
    Ok(line)
}

/// That nothing of a source is refused.
fn accepted_work<S: Shelf>(alloc: Global, file: &str, shelf: &mut S) -> Result<Work, Stop>
    ensures work { IfOk result (IsWork (S.files shelf.old) (ExplainFile file.now)) }
    ensures reads { ReadsForAll (asks_of (ExplainFile file.now)) (shelf_seen S.files S.log S.faults shelf.old shelf.new) result }
{
    let _image = image_of_source(alloc, false, file, shelf)?;
    let text = accepted_line(alloc, file)?;
    Ok(Work::Done(Answer::Text(text)))
}

/// An image of a kind as the other kind of file.
fn other_work<S: Shelf>(
    alloc: Global,
    kind: ImageKind,
    file: &str,
    shelf: &mut S,
) -> Result<Work, Stop>
    ensures work { IfOk result (IsWork (S.files shelf.old) (Convert kind file.now)) }
    ensures reads { ReadsForAll (asks_of (Convert kind file.now)) (shelf_seen S.files S.log S.faults shelf.old shelf.new) result }
{
    let text = other_image(alloc, kind, file, shelf)?;
    Ok(Work::Done(Answer::Text(text)))
}

/// A run of a file, by what the file is taken for, and what is told of it.
fn run_work<S: Shelf>(
    alloc: Global,
    format: Format,
    run: Run<'_>,
    finish: Finish,
    shelf: &mut S,
) -> Result<Work, Stop>
    requires within { IsWithin run }
    requires can { CanBeTold finish run.clocks run.turns }
    ensures work { IfOk result (IsRunWork (S.files shelf.old) format (running run.entry) finish) }
    ensures reads { ReadsForAll (run_asks format run.entry.file.now (name_of run.entry.script))
        (shelf_seen S.files S.log S.faults shelf.old shelf.new) result }
{
    runs_are_told();
    let file = Program {
        file: run.file,
        format,
    };
    let inputs = read_inputs(alloc, file, run.script, shelf)?;
    let limits = Limits {
        clocks: run.clocks,
        turns: run.turns,
    };
    Ok(Work::Run {
        start: Start {
            boot: inputs.boot,
            script: inputs.script,
            limits,
        },
        finish,
    })
}

/// A run of a file, which is hub memory where it is raw, and what is told of it.
fn chosen_work<S: Shelf>(
    alloc: Global,
    raw: bool,
    run: Run<'_>,
    finish: Finish,
    shelf: &mut S,
) -> Result<Work, Stop>
    requires within { IsWithin run }
    requires can { CanBeTold finish run.clocks run.turns }
    ensures work { IfOk result (IsRunWork (S.files shelf.old) (format_for raw run.entry.file.now) (running run.entry) finish) }
    ensures reads { ReadsForAll (run_asks (format_for raw run.entry.file.now) run.entry.file.now (name_of run.entry.script))
        (shelf_seen S.files S.log S.faults shelf.old shelf.new) result }
{
    run_work(alloc, Format::chosen(raw, run.file), run, finish, shelf)
}

/// The verdict on a history file of this name that wasn't found good.
fn not_good(history: Text, fault: VerifyFault) -> Result<Answer, NoMemory>
    ensures { (boot : Boot) (script : List Line) (bytes : List ℕ) → Tells boot script bytes (Err fault) → IfOk result (IsCheckedBy boot script bytes history) }
{
    match fault {
        VerifyFault::Bad { turn, cause } => Ok(Answer::Bad {
            history,
            turn,
            cause,
        }),
        VerifyFault::NoMemory => Err(NoMemory),
    }
}

/// The verdict on a history file of this name.
fn checked(alloc: Global, read: Recorded, history: &str) -> Result<Answer, NoMemory>
    requires { IsProperOrigin read.inputs.boot.first }
    ensures { IfOk result (IsCheckedBy read.inputs.boot read.inputs.script read.history.items history.now) }
{
    let history = Text::copy_of(alloc, history.as_bytes())?;
    match verify(alloc, read.inputs.boot, read.inputs.script, &read.history) {
        Ok(count) => {
            let text = good_line(alloc, count)?;
            Ok(Answer::Text(text))
        }
        Err(fault) => not_good(history, fault),
    }
}

/// The verdict on the history file of a run of a file.
fn check_work<S: Shelf>(
    alloc: Global,
    raw: bool,
    file: &str,
    script: Option<&str>,
    history: &str,
    shelf: &mut S,
) -> Result<Work, Stop>
    ensures work { IfOk result (IsWork (S.files shelf.old) (Check raw file.now history.now (name_of script.entry))) }
    ensures reads { ReadsForAll (asks_of (Check raw file.now history.now (name_of script.entry)))
        (shelf_seen S.files S.log S.faults shelf.old shelf.new) result }
{
    let program = Program {
        file,
        format: Format::chosen(raw, file),
    };
    let read = read_recorded(alloc, program, script, history, shelf)?;
    let answer = checked(alloc, read, history)?;
    Ok(Work::Done(answer))
}

/// A pin script that sends the bytes of a file.
fn typed_work<S: Shelf>(
    alloc: Global,
    file: &str,
    pin: u8,
    bits: u32,
    start: u64,
    shelf: &mut S,
) -> Result<Work, Stop>
    requires pin { pin < 32 }
    requires rate { IsRate bits }
    requires begins { (1 ≤ start) × (start ≤ 100000000) }
    ensures work { IfOk result (IsWork (S.files shelf.old) (TypeFile file.now pin bits start)) }
    ensures reads { ReadsForAll (asks_of (TypeFile file.now pin bits start)) (shelf_seen S.files S.log S.faults shelf.old shelf.new) result }
{
    let bytes = read_message(alloc, file, shelf)?;
    let text = typed(alloc, &bytes, pin, bits, start)?;
    Ok(Work::Done(Answer::Text(text)))
}

/// The boot of the made program of a seed.
fn made_boot(alloc: Global, seed: u32) -> Result<Boot, NoMemory>
    ensures ram { IfOk result (λ boot. boot.ram ≡ ram_of (made_bytes seed)) }
    ensures first { IfOk result (λ boot. boot.first ≡ Pasm 0 0) }
{
    let image = made_image(alloc, seed)?;
    Boot::raw(alloc, &image)
}

/// What a run of the made program of a seed begins from.
fn made_start(alloc: Global, seed: u32) -> Result<Start, NoMemory>
    ensures world { IfOk result (λ start. world_in start ≡ made_world seed) }
    ensures clocks { IfOk result (λ start. start.limits.clocks ≤ 4000000000) }
    ensures turns { IfOk result (λ start. start.limits.turns ≤ 1000000) }
    ensures proper { IfOk result (λ start. IsProperOrigin start.boot.first) }
{
    let boot = made_boot(alloc, seed)?;
    Ok(Start {
        boot,
        script: PinScript::empty(alloc),
        limits: MADE_LIMITS,
    })
}

/// A run of the made program of a seed.
fn made_work(alloc: Global, seed: u32) -> Result<Work, NoMemory>
    ensures { (files : Files) → (alone : Bool) → IfOk result (IsWork files (Make alone seed)) }
{
    let start = made_start(alloc, seed)?;
    Ok(Work::Run {
        start,
        finish: Finish::Summary { seed },
    })
}

/// What is told of a refusal by its number.
fn entry_work(alloc: Global, number: u8) -> Result<Work, NoMemory>
    ensures { (files : Files) → IfOk result (IsWork files (ExplainNumber number)) }
{
    let text = entry(alloc, number)?;
    Ok(Work::Done(Answer::Text(text)))
}

/// A page of help.
fn help_work(alloc: Global, topic: Option<Subcommand>) -> Result<Work, NoMemory>
    ensures { (files : Files) → IfOk result (IsWork files (Help topic)) }
{
    let text = help_page(alloc, topic)?;
    Ok(Work::Done(Answer::Text(text)))
}

/// What a command comes to once its files are read. Of the shelf no other file is read, each once and in the order of the command, and none after
/// one that stops it.
pub fn work_of<S: Shelf>(alloc: Global, command: Command<'_>, shelf: &mut S) -> Result<Work, Stop>
    requires { HasLimits command }
    ensures work { IfOk result (IsWork (S.files shelf.old) (command_read command.entry)) }
    ensures reads { ReadsForAll (asks_of (command_read command.entry)) (shelf_seen S.files S.log S.faults shelf.old shelf.new) result }
{
    match command {
        Command::Build { short, file } => image_work(alloc, short, file, shelf),
        Command::List { short, file } => listing_work(alloc, short, file, shelf),
        Command::CodeSource { short, file } => source_code_work(alloc, short, file, shelf),
        Command::CodeImage { kind, file } => image_code_work(alloc, kind, file, shelf),
        Command::Map { file } => map_work(alloc, file, shelf),
        Command::Hint { file } => hint_work(alloc, file, shelf),
        Command::ExplainFile { file } => accepted_work(alloc, file, shelf),
        Command::ExplainNumber { number } => {
            let work = entry_work(alloc, number)?;
            Ok(work)
        }
        Command::Raw { run } => {
            run_work(
                alloc,
                Format::Memory,
                run,
                Finish::Trace { dump: run.dump },
                shelf,
            )
        }
        Command::Run { short, run, .. } => {
            let format = Format::named(short, run.file);
            run_work(alloc, format, run, Finish::Trace { dump: run.dump }, shelf)
        }
        Command::Save { raw, run } => chosen_work(alloc, raw, run, Finish::Saved, shelf),
        Command::Check {
            raw,
            file,
            history,
            script,
        } => check_work(alloc, raw, file, script, history, shelf),
        Command::Serial {
            raw,
            run,
            pin,
            bits,
        } => chosen_work(alloc, raw, run, Finish::Serial { pin, bits }, shelf),
        Command::Wave {
            raw,
            all,
            pins_only,
            run,
            ..
        } => {
            let selection = Selection { all, pins_only };
            chosen_work(alloc, raw, run, Finish::Wave { selection }, shelf)
        }
        Command::Plot {
            raw,
            ascii,
            run,
            pins,
            from,
            to,
            columns,
            ..
        } => {
            let view = Picture {
                pins,
                from,
                to,
                columns,
                ascii,
            };
            chosen_work(alloc, raw, run, Finish::Plot { view }, shelf)
        }
        Command::View {
            raw,
            pins_only,
            quiet,
            run,
            cog,
            from,
            to,
            dump,
        } => {
            let options = ViewOptions {
                cog,
                from,
                to,
                pins_only,
                quiet,
            };
            view_work(alloc, raw, run, options, dump, shelf)
        }
        Command::Page { raw, run, from, to } => page_work(alloc, raw, run, from, to, shelf),
        Command::TypeFile {
            file,
            pin,
            bits,
            start,
        } => typed_work(alloc, file, pin, bits, start, shelf),
        Command::Convert { kind, file } => other_work(alloc, kind, file, shelf),
        Command::Make { seed, .. } => {
            let work = made_work(alloc, seed)?;
            Ok(work)
        }
        Command::Help { topic } => {
            let work = help_work(alloc, topic)?;
            Ok(work)
        }
    }
}
