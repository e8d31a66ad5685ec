// Writes what came of a command, and tells how it ended.
ghost use Rattle.std.specs.Prelude.{◌≡◌, ◌≤◌, ◌++◌, ◌∷◌, [], codes, true, List, ℕ, Some, IfOk};
ghost use Rattle.p8_commands.specs.Commands.{Command as CommandSaid, explains};
ghost use Rattle.p8_commands.specs.Pages.{usage_line};
ghost use Rattle.p8_commands.specs.Seen.{command_read};
ghost use Rattle.p8_finish.specs.Checks.{bad_line};
ghost use Rattle.p8_inputs.specs.Stops.{line_of as stop_line};
ghost use Rattle.p8_inputs.specs.Seen.{sink_seen};
ghost use Rattle.p8_io.specs.Sinks.{Wrote};
ghost use Rattle.p8_prop.specs.Verdicts.{explanation, stop_status};
ghost use Rattle.p8_prop.specs.Answers.{text_if_any, IsAnswer, IsEnded, IsGiven};
ghost use Rattle.p8_prop.specs.declared.status.Status.TheVariants.{Usage, SinkFault, BadHistory};

use crate::status::Status;
use crate::work::Answer;
use p8_commands::Command;
use p8_explain::{absence, explanation};
use p8_finish::tell_bad_history;
use p8_inputs::Stop;
use p8_io::{Sink, write_pieces};
use p8_verify::Cause;
use p8_words::NoMemory;
use std::alloc::Global;

/// The line of words that are no command.
const USAGE: &[u8] =
    b"prop: usage: prop build|list FILE, prop raw|run FILE CLOCKS [--pins F] [--turns K] [--dump A:N] [--alone]\n";

/// Tells that the words are no command.
pub fn unsaid<E: Sink>(faults: &mut E) -> Status
    ensures status { result ≡ Usage }
    ensures wrote { Wrote (E.faults faults.old) (E.faults faults.new) (E.taken faults.old) (E.taken faults.new) usage_line }
    ensures later { E.faults faults.old ≤ E.faults faults.new }
{
    let _ = write_pieces(faults, &[USAGE]);
    Status::Usage
}

/// The status that tells why there is no text.
fn status_of_stop(stop: &Stop) -> Status
    ensures { result ≡ stop_status stop.now }
{
    match stop {
        Stop::Unread { .. } => Status::ShelfFault,
        Stop::Missing { .. } => Status::Missing,
        Stop::NoMemory => Status::NoMemory,
        Stop::Refused { .. } => Status::Refused,
        Stop::BadProgram { .. } => Status::BadImage,
        Stop::BadScript { .. } => Status::BadScript,
        Stop::Unnamed { .. } => Status::Missing,
    }
}

/// Tells why there is no text.
pub fn stopped<E: Sink>(stop: &Stop, faults: &mut E) -> Status
    ensures status { result ≡ stop_status stop.now }
    ensures wrote { Wrote (E.faults faults.old) (E.faults faults.new) (E.taken faults.old) (E.taken faults.new) (stop_line stop.now) }
    ensures later { E.faults faults.old ≤ E.faults faults.new }
{
    stop.tell(faults);
    status_of_stop(stop)
}

/// Tells that the text could not be written.
fn unwritten<E: Sink>(faults: &mut E) -> Status
    ensures status { result ≡ SinkFault }
    ensures wrote { Wrote (E.faults faults.old) (E.faults faults.new) (E.taken faults.old) (E.taken faults.new) (codes "prop: cannot write" ++ 10 ∷ []) }
    ensures later { E.faults faults.old ≤ E.faults faults.new }
{
    let _ = write_pieces(faults, &[b"prop: cannot write", b"\n"]);
    Status::SinkFault
}

/// Tells that a history file isn't that of the run.
fn bad<E: Sink>(history: &[u8], turn: u64, cause: Cause, faults: &mut E) -> Status
    ensures status { result ≡ BadHistory }
    ensures wrote { Wrote (E.faults faults.old) (E.faults faults.new) (E.taken faults.old) (E.taken faults.new) (bad_line history.now turn cause) }
    ensures later { E.faults faults.old ≤ E.faults faults.new }
{
    tell_bad_history(history, turn, cause, faults);
    Status::BadHistory
}

/// Writes the text that came of a command, or tells what came in its place, and how that ended.
fn given<K: Sink, E: Sink>(answer: &Answer, out: &mut K, faults: &mut E) -> Status
    ensures answer { IsGiven answer.now
        (sink_seen K.faults K.taken out.old out.new)
        (sink_seen E.faults E.taken faults.old faults.new)
        result }
    ensures out_later { K.faults out.old ≤ K.faults out.new }
    ensures faults_later { E.faults faults.old ≤ E.faults faults.new }
{
    match answer {
        Answer::Text(text) => match out.write(text) {
            Ok(()) => Status::Ok,
            Err(_) => unwritten(faults),
        },
        Answer::Bad {
            history,
            turn,
            cause,
        } => bad(history.as_slice(), *turn, *cause, faults),
    }
}

/// The explanation of a reason that shows in a file, or None where it shows in none.
#[tactic(auto, unfolding(crate::specs::Verdicts::explanation))]
fn explanation_of(alloc: Global, stop: &Stop) -> Result<Option<Vec<u8>>, NoMemory>
    ensures { IfOk result (λ text. text_if_any text ≡ explanation stop.now) }
{
    match stop {
        Stop::Refused { file, fault, size } => {
            let bytes = file.bytes.as_slice();
            Ok(Some(explanation(alloc, &file.name, bytes, *fault, *size)?))
        }
        Stop::Missing { file, mention } => match mention {
            Some(mention) => {
                let bytes = mention.file.bytes.as_slice();
                Ok(Some(absence(alloc, &mention.file.name, bytes, mention.place, file)?))
            }
            None => Ok(None),
        },
        Stop::Unread { .. } | Stop::NoMemory => Ok(None),
        Stop::BadProgram { .. } | Stop::BadScript { .. } | Stop::Unnamed { .. } => Ok(None),
    }
}

/// Writes the explanation of a reason, and how that ended.
fn written<K: Sink, E: Sink>(stop: &Stop, text: &[u8], out: &mut K, faults: &mut E) -> Status
    ensures ended { (command : CommandSaid) → explains command ≡ true → explanation stop.now ≡ Some text.now → IsEnded command stop.now
        (sink_seen K.faults K.taken out.old out.new)
        (sink_seen E.faults E.taken faults.old faults.new)
        result }
    ensures out_later { K.faults out.old ≤ K.faults out.new }
    ensures faults_later { E.faults faults.old ≤ E.faults faults.new }
{
    match out.write(text) {
        Ok(()) => status_of_stop(stop),
        Err(_) => unwritten(faults),
    }
}

/// Writes the explanation of a reason, or tells the reason by its line where it has none, or that there was no memory for that.
fn explained<K: Sink, E: Sink>(alloc: Global, stop: &Stop, out: &mut K, faults: &mut E) -> Status
    ensures ended { (command : CommandSaid) → explains command ≡ true → IsEnded command stop.now
        (sink_seen K.faults K.taken out.old out.new)
        (sink_seen E.faults E.taken faults.old faults.new)
        result }
    ensures out_later { K.faults out.old ≤ K.faults out.new }
    ensures faults_later { E.faults faults.old ≤ E.faults faults.new }
{
    match explanation_of(alloc, stop) {
        Ok(Some(text)) => written(stop, &text, out, faults),
        Ok(None) => stopped(stop, faults),
        Err(NoMemory) => stopped(&Stop::NoMemory, faults),
    }
}

/// Tells why there is no text of a command, by its explanation where the command asks for that.
fn ended<K: Sink, E: Sink>(
    alloc: Global,
    command: Command<'_>,
    stop: &Stop,
    out: &mut K,
    faults: &mut E,
) -> Status
    ensures ended { IsEnded
        (command_read command.entry) stop.now
        (sink_seen K.faults K.taken out.old out.new)
        (sink_seen E.faults E.taken faults.old faults.new)
        result }
    ensures out_later { K.faults out.old ≤ K.faults out.new }
    ensures faults_later { E.faults faults.old ≤ E.faults faults.new }
{
    if command.explains() {
        explained(alloc, stop, out, faults)
    } else {
        stopped(stop, faults)
    }
}

/// Writes what came of a command, where anything did, or why nothing did, and tells how that ended.
pub fn answered<K: Sink, E: Sink>(
    alloc: Global,
    command: Command<'_>,
    answer: Result<Answer, Stop>,
    out: &mut K,
    faults: &mut E,
) -> Status
    ensures answer { IsAnswer
        (command_read command.entry) answer
        (sink_seen K.faults K.taken out.old out.new)
        (sink_seen E.faults E.taken faults.old faults.new)
        result }
    ensures out_later { K.faults out.old ≤ K.faults out.new }
    ensures faults_later { E.faults faults.old ≤ E.faults faults.new }
{
    match answer {
        Ok(answer) => given(&answer, out, faults),
        Err(stop) => ended(alloc, command, &stop, out, faults),
    }
}
