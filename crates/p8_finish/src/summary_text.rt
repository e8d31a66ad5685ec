// The text about the history of a made program.
ghost use Rattle.std.specs.Prelude.{◌≡◌, ◌++◌, ◌∷◌, [], codes, reverse, OnOk, IfOk};
ghost use Rattle.std.specs.Fmt.{decimal};
ghost use Rattle.p8_access.specs.Worlds.{World};
ghost use Rattle.p8_hub.specs.Standing.{IsHub};
ghost use Rattle.p8_instr.specs.Numerals.{hex};
ghost use Rattle.p8_finish.specs.Summary.{last_key, last_line, summary_of};

use crate::hub_words::sum_of_words;
use itoa::Buffer;
use p8_access::{Key, Turn};
use p8_instr::{long_digits, push_text};
use p8_ledger::Ended;
use p8_words::NoMemory;
use std::alloc::Global;

/// Appends a text and a number in decimal digits.
fn push_number(out: &mut Vec<u8>, text: &[u8], number: u64) -> Result<(), NoMemory>
    ensures { OnOk result (out.new.items ≡ out.old.items ++ (text.now ++ decimal number)) }
{
    push_text(out, text)?;
    push_text(out, Buffer::new().format(number).as_bytes())
}

/// Appends a line that ends with a number in decimal digits.
fn push_number_line(out: &mut Vec<u8>, text: &[u8], number: u64) -> Result<(), NoMemory>
    ensures { OnOk result (out.new.items ≡ out.old.items ++ (text.now ++ decimal number ++ 10 ∷ [])) }
{
    push_number(out, text, number)?;
    push_text(out, b"\n")
}

/// Appends the line of the last turn.
fn push_last_line(out: &mut Vec<u8>, key: Key) -> Result<(), NoMemory>
    ensures { OnOk result (out.new.items ≡ out.old.items ++ last_line key) }
{
    push_number(out, b"last ", key.clock)?;
    push_number_line(out, b" ", key.cog as u64)
}

/// Appends the line of the sum.
fn push_words_line(out: &mut Vec<u8>, words: u32) -> Result<(), NoMemory>
    ensures { OnOk result (out.new.items ≡ out.old.items ++ (codes "words " ++ hex 8 words ++ 10 ∷ [])) }
{
    push_text(out, b"words ")?;
    push_text(out, &long_digits(words))?;
    push_text(out, b"\n")
}

/// The key of the last of some turns, the oldest first; without a turn its clock and its cog are 0.
fn last_key(turns: &[Turn]) -> Key
    ensures { result ≡ last_key (reverse turns.now) }
{
    match turns.last() {
        Some(turn) => turn.key,
        None => Key { clock: 0, cog: 0 },
    }
}

/// The text about the history of a seed's made program, in four lines: the seed, how many turns the history has, the
/// clock and the cog of the last of them, and the sum of the 16 longs of the hub from $1000 on as the history leaves
/// them, of which the lowest 32 bits are kept.
///
/// The numbers are decimal, the sum is in eight hexadecimal digits, and every line ends with a line feed. The only
/// error is want of memory.
pub fn summary(alloc: Global, seed: u32, ended: &Ended) -> Result<Vec<u8>, NoMemory>
    ensures { (w : World)
        → IsHub w (reverse ended.now.history.turns.list) ended.now.hub
        → IfOk result (λ text. text.items ≡ summary_of seed w (reverse ended.now.history.turns.list)) }
{
    let turns = ended.history.turns.as_slice();
    let mut out = Vec::new(alloc);
    push_number_line(&mut out, b"made ", seed as u64)?;
    push_number_line(&mut out, b"turns ", turns.len() as u64)?;
    push_last_line(&mut out, last_key(turns))?;
    push_words_line(&mut out, sum_of_words(&ended.hub))?;
    Ok(out)
}
