// The top calls.
ghost use Rattle.std.specs.Prelude.{◌≡◌, map, string_bytes, IfOk, IfSome};
ghost use Rattle.p8_commands.specs.Commands.{alone_of, command_of};
ghost use Rattle.p8_commands.specs.Seen.{command_if_any, HasLimits};
ghost use Rattle.p8_prop.specs.Promises.{Keeps};
ghost use Rattle.p8_inputs.specs.Seen.{shelf_seen, sink_seen};

use crate::answer::{answered, stopped, unsaid};
use crate::command_answers::{answer_alone, answer_by_crew};
use crate::status::Status;
use p8_commands::{Command, command_in};
use p8_crew::Starter;
use p8_inputs::{Stop, one_reading};
use p8_io::{Shelf, Sink};
use p8_verify::one_verdict;
use p8_words::NoMemory;
use std::alloc::Global;
use std::sync::Wait;
use std::thread::Threads;

/// Does what the words say, and writes its text to `out`. [`help_page`](p8_commands::help_page) tells each command with its arguments and their
/// limits, and `help` and `help COMMAND` write that page.
///
/// - `build` and `list` write the image and the listing of a source, and `code` its code for reading, with `--short` with shorter code of the same
///   meaning, or that of an image; `map` writes where everything of a source stands in the hub;
/// - `explain` tells why a source is refused, or a refusal by its number, and `hint` what is accepted in a source and is most likely a slip;
/// - `raw` and `run` write the trace of a run, `save` its history as a file, and `check` how many turns a history file has that is the one of
///   a run;
/// - `serial` writes the bytes that stand on a pin of a run, and `type` a pin script that sends the bytes of a file;
/// - `wave` writes the wave of a run, `plot` draws the levels of some of its pins, `view` writes its history for reading, with the names and the
///   lines of a source, and `page` a page in HTML that shows it in a browser;
/// - `convert` writes an image as the other kind of file, and `make` the summary of a run of a made program.
///
/// A file is taken for an image where its name ends in `.binary` or `.eeprom`, and else for the top file of a project of sources, which is built
/// first: the files that its objects mention are read from the shelf too. `raw`, and each other command with `--raw`, takes it for hub memory, with cog
/// 0 started on it as PASM. `words` are those after the program's name, and are read by the rules of `clap`; `--help` and `-h` are no command.
///
/// The turns of `run`, `wave`, `plot` and `make` are made by a crew of eight threads, which `starter` gives their work; where one of them isn't
/// started, by this thread. `--alone` asks for this thread alone, which also makes the turns of every other command. The text is the same in each
/// case. With a crew this call may wait for its threads, and what it promises it promises where it returns.
///
/// The words are looked at first, then the file with its project, then the pin script, then the history file; then the run is made, and then its
/// text is written. Each of these files is read once, in this order, and none after one that stops the command. The shelf's files stay as they were,
/// and no count of faults falls. Every status but `Ok` is told by one line on `faults`, and before the text is written nothing goes to `out`. With
/// `explain` the explanation of a refusal, or of a missing file that a source mentions, is the text: it goes to `out`, with the line of the file as it
/// was read, and nothing to `faults`:
///
/// - `Usage` exactly where the words are no command;
/// - `Refused` exactly where the project of a source is refused, with the first refusal: of a file while the project is gathered
///   ([`gather`](p8_objects::gather)), or else when it is built ([`build`](p8_build::build)); `explain` tells it by its explanation
///   ([`explanation`](p8_explain::explanation));
/// - `ShelfFault` only where the shelf has counted a fault;
/// - `Missing` where the shelf has no file of that name, which the words or the project ask for, and exactly where nothing of the program has the
///   name that a view is to dump; a file that a source mentions is told by `explain` at that place ([`absence`](p8_explain::absence));
/// - `BadImage` exactly where the file is no image, with its first fault: of its length, of the sum of its bytes, of the places in its header; for
///   hub memory exactly where it has more than 32,768 bytes, and for `type` exactly where it has more than 5,000;
/// - `BadScript` exactly where the pin script has a bad line, or more than 1,048,576 bytes;
/// - `BadHistory` exactly where the history file isn't that of the run, with the first turn of which that can be said, and why
///   ([`verify`](p8_verify::verify));
/// - `SinkFault` only where `out` has counted a fault; a prefix of the text, or of the explanation, is out then;
/// - `NoMemory` where there was no memory, also for words that are no command.
pub fn prop<
    R: Threads + Wait + Clone + Send + Drop + 'static,
    S: Shelf,
    K: Sink,
    E: Sink,
    F: Starter,
>(
    rt: &R,
    alloc: Global,
    words: &[String],
    shelf: &mut S,
    out: &mut K,
    faults: &mut E,
    starter: &mut F,
) -> Status
    ensures { Keeps (record {
      shelf = shelf_seen S.files S.log S.faults shelf.old shelf.new;
      out = sink_seen K.faults K.taken out.old out.new;
      faults = sink_seen E.faults E.taken faults.old faults.new;
    }) (command_of (map string_bytes words.now)) result }
{
    one_reading();
    one_verdict();
    match command_in(alloc, words) {
        Ok(Some(command)) => {
            let answer = answer_by_crew(rt, alloc, starter, command, shelf);
            answered(alloc, command, answer, out, faults)
        }
        Ok(None) => unsaid(faults),
        Err(NoMemory) => stopped(&Stop::NoMemory, faults),
    }
}

/// Does what [`prop`] does, by this thread alone: it waits for nobody and always returns. A `run`, a `wave`, a `plot` or a `make`
/// without `--alone` is no command here, and its status is `Usage`; all else is as there.
pub fn prop_alone<S: Shelf, K: Sink, E: Sink>(
    alloc: Global,
    words: &[String],
    shelf: &mut S,
    out: &mut K,
    faults: &mut E,
) -> Status
    ensures { Keeps (record {
      shelf = shelf_seen S.files S.log S.faults shelf.old shelf.new;
      out = sink_seen K.faults K.taken out.old out.new;
      faults = sink_seen E.faults E.taken faults.old faults.new;
    }) (alone_of (command_of (map string_bytes words.now))) result }
{
    one_reading();
    one_verdict();
    match command_alone_in(alloc, words) {
        Ok(Some(command)) => {
            let answer = answer_alone(alloc, command, shelf);
            answered(alloc, command, answer, out, faults)
        }
        Ok(None) => unsaid(faults),
        Err(NoMemory) => stopped(&Stop::NoMemory, faults),
    }
}

/// The command of the words that one thread alone carries out, or None where they say another one or none.
fn command_alone_in<'a>(alloc: Global, words: &'a [String]) -> Result<Option<Command<'a>>, NoMemory>
    ensures seen { IfOk result (λ command. command_if_any command ≡ alone_of (command_of (map string_bytes words.now))) }
    ensures within { IfOk result (λ command. IfSome command HasLimits) }
{
    match command_in(alloc, words)? {
        Some(command) if command.is_alone() => Ok(Some(command)),
        _ => Ok(None),
    }
}
