// Texts that are appended, with numbers after them.
ghost use Rattle.std.specs.Prelude.{◌≡◌, ◌++◌, codes, OnOk};
ghost use Rattle.std.specs.Fmt.{decimal};
ghost use Rattle.p8_access.specs.declared.kinds.Width.{Width};
ghost use Rattle.p8_instr.specs.Numerals.{hex};
ghost use Rattle.p8_report.specs.Text.{digits_of, number_text, previous_text, width_text};

use p8_access::{Answer, Width};
use p8_instr::{byte_digits, long_digits, push_text, word_digits};
use p8_report::push_numbered;
use p8_words::NoMemory;

/// A text and a long.
pub(crate) fn push_long(out: &mut Vec<u8>, text: &[u8], value: u32) -> Result<(), NoMemory>
    ensures { OnOk result (out.new.items ≡ out.old.items ++ (text.now ++ hex 8 value)) }
{
    push_text(out, text)?;
    push_text(out, &long_digits(value))
}

/// The word for a width.
pub(crate) fn width_name(width: Width) -> &'static [u8]
    ensures { result.now ≡ width_text width }
{
    match width {
        Width::Byte => b"byte",
        Width::Word => b"word",
        Width::Long => b"long",
    }
}

/// A value in the digits of a width.
pub(crate) fn push_value(out: &mut Vec<u8>, width: Width, value: u32) -> Result<(), NoMemory>
    ensures { OnOk result (out.new.items ≡ out.old.items ++ hex (digits_of width) value) }
{
    match width {
        Width::Byte => push_text(out, &byte_digits(value)),
        Width::Word => push_text(out, &word_digits(value)),
        Width::Long => push_text(out, &long_digits(value)),
    }
}

/// A text and the number of a cog or a lock in an answer, or `none`.
pub(crate) fn push_number(out: &mut Vec<u8>, text: &[u8], answer: Answer) -> Result<(), NoMemory>
    ensures { OnOk result (out.new.items ≡ out.old.items ++ (text.now ++ number_text answer)) }
{
    push_text(out, text)?;
    match answer {
        Answer::Number(Some(number)) => push_numbered(out, b"", u64::from(number)),
        Answer::Number(None) | Answer::Done | Answer::Value(_) | Answer::Was(_) => {
            push_text(out, b"none")
        }
    }
}

/// A text, a lock, and the lock's previous state, 0 or 1.
pub(crate) fn push_lock(
    out: &mut Vec<u8>,
    text: &[u8],
    lock: u8,
    answer: Answer,
) -> Result<(), NoMemory>
    ensures { OnOk result (out.new.items ≡ out.old.items ++ (text.now ++ decimal lock ++ codes " " ++ previous_text answer)) }
{
    push_numbered(out, text, u64::from(lock))?;
    push_text(out, b" ")?;
    match answer {
        Answer::Was(true) => push_text(out, b"1"),
        Answer::Was(false) | Answer::Done | Answer::Value(_) | Answer::Number(_) => {
            push_text(out, b"0")
        }
    }
}
