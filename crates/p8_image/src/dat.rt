// The lines of a DAT.
ghost use Rattle.std.specs.Prelude.{◌≡◌, ◌<◌, ◌++◌, ◌∷◌, [], codes, length, MatchOption, IfOk, OnOk};
ghost use Rattle.p8_instr.specs.Instructions.{long_text};
ghost use Rattle.p8_instr.specs.Numerals.{hex};
ghost use Rattle.p8_image.specs.Listing.{long_by, long_line, long_lines, longs_of as longs_in};

use crate::appending::{address_after, push_place};
use p8_instr::{instr_text, long_digits, push_text};
use p8_words::NoMemory;
use std::alloc::Global;

/// Appends a long without the end of its line: where it stands, its digits, and its text as an instruction. The only error is want of memory.
pub fn push_long_head(
    alloc: Global,
    out: &mut Vec<u8>,
    place: u16,
    long: u32,
) -> Result<(), NoMemory>
    ensures { OnOk result (out.new.items ≡ out.old.items ++ (hex 4 place ++ codes " " ++ hex 8 long ++ codes " " ++ long_text long)) }
{
    let text = instr_text(alloc, long)?;
    push_place(out, place)?;
    push_text(out, b" ")?;
    push_text(out, &long_digits(long))?;
    push_text(out, b" ")?;
    push_text(out, &text)
}

/// Appends the line of a long.
fn push_long_line(alloc: Global, out: &mut Vec<u8>, place: u16, long: u32) -> Result<(), NoMemory>
    ensures { OnOk result (out.new.items ≡ out.old.items ++ long_line place long) }
{
    push_long_head(alloc, out, place, long)?;
    push_text(out, b"\n")
}

/// Four bytes as a long, the lowest first.
fn long_of(a: u8, b: u8, c: u8, d: u8) -> u32
    ensures { result ≡ long_by a b c d }
{
    u32::from(a) + 0x100 * u32::from(b) + 0x1_0000 * u32::from(c) + 0x100_0000 * u32::from(d)
}

/// The long of fewer than four bytes, with zeros after them; none where there is no byte.
fn last_long(bytes: &[u8]) -> Option<u32>
    requires { length bytes.now < 4 }
    ensures { MatchOption result (longs_in bytes.now ≡ []) (λ long. longs_in bytes.now ≡ long ∷ []) }
{
    match bytes {
        [a] => Some(long_of(*a, 0, 0, 0)),
        [a, b] => Some(long_of(*a, *b, 0, 0)),
        [a, b, c] => Some(long_of(*a, *b, *c, 0)),
        _ => None,
    }
}

/// The longs of some bytes, with zeros after the last byte up to a whole long. The only error is want of memory.
pub fn longs_of(alloc: Global, bytes: &[u8]) -> Result<Vec<u32>, NoMemory>
    ensures { IfOk result (λ longs. longs.items ≡ longs_in bytes.now) }
{
    let mut longs = Vec::new(alloc);
    let mut rest = bytes;
    while let [a, b, c, d, behind @ ..] = rest {
        longs.extend_from_slice(&[long_of(*a, *b, *c, *d)])?;
        rest = behind;
    }
    if let Some(long) = last_long(rest) {
        longs.extend_from_slice(&[long])?;
    }
    Ok(longs)
}

/// Appends the lines of longs that stand one after the other from an address on.
fn push_long_lines(
    alloc: Global,
    out: &mut Vec<u8>,
    mut place: u16,
    longs: &[u32],
) -> Result<(), NoMemory>
    ensures { OnOk result (out.new.items ≡ out.old.items ++ long_lines place longs.now) }
{
    for long in longs {
        push_long_line(alloc, out, place, *long)?;
        place = address_after(place, 4);
    }
    Ok(())
}

/// Appends the lines of a DAT that stands at an address, with the zeros after it.
pub fn push_dat_lines(
    alloc: Global,
    out: &mut Vec<u8>,
    place: u16,
    dat: &[u8],
) -> Result<(), NoMemory>
    ensures { OnOk result (out.new.items ≡ out.old.items ++ long_lines place (longs_in dat.now)) }
{
    let longs = longs_of(alloc, dat)?;
    push_long_lines(alloc, out, place, &longs)
}
