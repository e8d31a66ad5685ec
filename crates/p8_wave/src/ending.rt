// What ended a run, in the words of a view.
ghost use Rattle.std.specs.Prelude.{◌≡◌, ◌++◌, length, reverse, OnOk};
ghost use Rattle.std.specs.Fmt.{decimal};
ghost use Rattle.p8_wave.specs.Ending.{ended_text, last_clock as clock_of_last, made_text, why_text};

use crate::appending::push_decimal;
use p8_access::Turn;
use p8_instr::push_text;
use p8_words::NoMemory;

/// The clock of the last turn, 0 where there is none.
fn last_clock(turns: &[Turn]) -> u64
    ensures { result ≡ clock_of_last (reverse turns.now) }
{
    match turns.last() {
        Some(turn) => turn.key.clock,
        None => 0,
    }
}

/// Appends how many turns were made, and up to which clock.
fn push_made(out: &mut Vec<u8>, turns: u64, last: u64) -> Result<(), NoMemory>
    ensures { OnOk result (out.new.items ≡ out.old.items ++ made_text turns last) }
{
    push_decimal(out, turns)?;
    push_text(out, b" turns are made, the last at clock ")?;
    push_decimal(out, last)
}

/// Appends a clock with a text before it.
fn push_clock(out: &mut Vec<u8>, before: &[u8], clock: u64) -> Result<(), NoMemory>
    ensures { OnOk result (out.new.items ≡ out.old.items ++ (before.now ++ decimal clock)) }
{
    push_text(out, before)?;
    push_decimal(out, clock)
}

/// Appends a clock between two texts.
fn push_between(out: &mut Vec<u8>, before: &[u8], clock: u64, behind: &[u8]) -> Result<(), NoMemory>
    ensures { OnOk result (out.new.items ≡ out.old.items ++ (before.now ++ decimal clock ++ behind.now)) }
{
    push_clock(out, before, clock)?;
    push_text(out, behind)
}

/// Appends why no more turns were made.
fn push_why(out: &mut Vec<u8>, turns: u64, limit: u64, clocks: u64) -> Result<(), NoMemory>
    ensures { OnOk result (out.new.items ≡ out.old.items ++ why_text turns limit clocks) }
{
    if turns == limit {
        push_between(
            out,
            b" of ",
            clocks,
            b": no more are asked for; --turns gives more",
        )
    } else {
        push_clock(out, b": no cog makes another before clock ", clocks)
    }
}

/// Appends how many turns were made, up to which clock, and why no more were.
fn push_ended(
    out: &mut Vec<u8>,
    turns: u64,
    last: u64,
    limit: u64,
    clocks: u64,
) -> Result<(), NoMemory>
    ensures { OnOk result (out.new.items ≡ out.old.items ++ ended_text turns last limit clocks) }
{
    push_made(out, turns, last)?;
    push_why(out, turns, limit, clocks)
}

/// Appends what ended a run with these turns, the oldest first, between two texts.
pub fn push_end(
    out: &mut Vec<u8>,
    before: &[u8],
    turns: &[Turn],
    limit: u64,
    clocks: u64,
    behind: &[u8],
) -> Result<(), NoMemory>
    ensures { OnOk result (out.new.items ≡ out.old.items ++
        (before.now ++ ended_text (length turns.now) (clock_of_last (reverse turns.now)) limit clocks ++ behind.now)) }
{
    push_text(out, before)?;
    push_ended(out, turns.len() as u64, last_clock(turns), limit, clocks)?;
    push_text(out, behind)
}
