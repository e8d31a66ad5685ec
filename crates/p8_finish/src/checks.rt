// The words about a history file that was checked.
ghost use Rattle.std.specs.Prelude.{◌≡◌, ◌≤◌, ◌++◌, ◌∷◌, [], codes, IfOk};
ghost use Rattle.p8_io.specs.Sinks.{Wrote};
ghost use Rattle.p8_finish.specs.Checks.{bad_line, cause_text as cause_text_of, good_line as good_line_of};

use itoa::Buffer;
use p8_io::{Sink, write_pieces};
use p8_verify::Cause;
use p8_words::NoMemory;
use std::alloc::Global;

/// The line of a file that is the history of a run, with the number of its turns. The only error is want of memory.
pub fn good_line(alloc: Global, count: u64) -> Result<Vec<u8>, NoMemory>
    ensures { IfOk result (λ line. line.items ≡ good_line_of count) }
{
    let mut line = Vec::new(alloc);
    line.extend_from_slice(b"good ")?;
    line.extend_from_slice(Buffer::new().format(count).as_bytes())?;
    line.extend_from_slice(b"\n")?;
    Ok(line)
}

/// The word for why a file isn't the history of a run.
fn cause_text(cause: Cause) -> &'static [u8]
    ensures { result.now ≡ cause_text_of cause }
{
    match cause {
        Cause::Form => b"form",
        Cause::Extra => b"extra",
        Cause::Key => b"key",
        Cause::Access => b"access",
        Cause::Answer => b"answer",
        Cause::More => b"more",
    }
}

/// Writes the line of a history file, with the digits of the turn and the word for the cause.
fn tell_words<E: Sink>(history: &[u8], turn: &[u8], cause: &[u8], faults: &mut E)
    ensures wrote { Wrote (E.faults faults.old) (E.faults faults.new) (E.taken faults.old) (E.taken faults.new)
        (codes "prop: " ++ history.now ++ codes ": turn " ++ turn.now ++ codes " " ++ cause.now ++ 10 ∷ []) }
    ensures later { E.faults faults.old ≤ E.faults faults.new }
{
    let _ = write_pieces(
        faults,
        &[b"prop: ", history, b": turn ", turn, b" ", cause, b"\n"],
    );
}

/// Writes the line of a file that isn't the history of a run: its name, the first turn of which that can be said, and why. It is written as far
/// as the sink takes it.
pub fn tell_bad_history<E: Sink>(history: &[u8], turn: u64, cause: Cause, faults: &mut E)
    ensures wrote { Wrote (E.faults faults.old) (E.faults faults.new) (E.taken faults.old) (E.taken faults.new) (bad_line history.now turn cause) }
    ensures later { E.faults faults.old ≤ E.faults faults.new }
{
    let mut digits = Buffer::new();
    tell_words(
        history,
        digits.format(turn).as_bytes(),
        cause_text(cause),
        faults,
    );
}
