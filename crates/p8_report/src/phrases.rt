// Texts that are appended, with the numbers after them.
ghost use Rattle.std.specs.Prelude.{◌≡◌, ◌++◌, codes, OnOk};
ghost use Rattle.std.specs.Fmt.{decimal};
ghost use Rattle.p8_instr.specs.Numerals.{hex};

use itoa::Buffer;
use p8_instr::{byte_digits, long_digits, push_text};
use p8_words::NoMemory;

/// A text and a number in decimal digits, without leading zeros.
pub fn push_numbered(out: &mut Vec<u8>, text: &[u8], number: u64) -> Result<(), NoMemory>
    ensures { OnOk result (out.new.items ≡ out.old.items ++ (text.now ++ decimal number)) }
{
    push_text(out, text)?;
    push_text(out, Buffer::new().format(number).as_bytes())
}

/// A text and the last two hexadecimal digits of a number.
pub fn push_byte(out: &mut Vec<u8>, text: &[u8], value: u32) -> Result<(), NoMemory>
    ensures { OnOk result (out.new.items ≡ out.old.items ++ (text.now ++ hex 2 value)) }
{
    push_text(out, text)?;
    push_text(out, &byte_digits(value))
}

/// A text and two longs.
pub fn push_longs(out: &mut Vec<u8>, text: &[u8], first: u32, second: u32) -> Result<(), NoMemory>
    ensures { OnOk result (out.new.items ≡ out.old.items ++ (text.now ++ hex 8 first ++ codes " " ++ hex 8 second)) }
{
    push_text(out, text)?;
    push_text(out, &long_digits(first))?;
    push_text(out, b" ")?;
    push_text(out, &long_digits(second))
}
