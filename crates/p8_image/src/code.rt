// The lines of a method's code.
ghost use Rattle.std.specs.Prelude.{◌≡◌, ◌≤◌, ◌++◌, ◌∷◌, [], length, OnOk};
ghost use Rattle.std.specs.List.{flat_map};
ghost use Rattle.p8_instr.specs.Numerals.{hex};
ghost use Rattle.p8_image.specs.Listing.{line_size as line_size_of, code_line, code_lines};

use crate::appending::{address_after, behind, push_place};
use p8_bytecode::take_op;
use p8_instr::{byte_digits, push_text};
use p8_words::NoMemory;

/// Appends bytes in hexadecimal digits, with a space before each. The only error is want of memory.
pub fn push_bytes(out: &mut Vec<u8>, bytes: &[u8]) -> Result<(), NoMemory>
    ensures { OnOk result (out.new.items ≡ out.old.items ++ flat_map (λ byte. 32 ∷ hex 2 byte) bytes.now) }
{
    for byte in bytes {
        push_text(out, b" ")?;
        push_text(out, &byte_digits(u32::from(*byte)))?;
    }
    Ok(())
}

/// Appends the line of a bytecode.
fn push_code_line(out: &mut Vec<u8>, place: u16, bytes: &[u8]) -> Result<(), NoMemory>
    ensures { OnOk result (out.new.items ≡ out.old.items ++ code_line place bytes.now) }
{
    push_place(out, place)?;
    push_bytes(out, bytes)?;
    push_text(out, b"\n")
}

/// How many bytes stand on the line at the begin of a code: those of the bytecode there, and one where no bytecode stands whole.
pub fn line_size(code: &[u8]) -> usize
    requires { 1 ≤ length code.now }
    ensures size { result ≡ line_size_of code.now }
    ensures some { 1 ≤ result }
    ensures within { result ≤ length code.now }
{
    match take_op(code, 0) {
        Some((_, size)) => size,
        None => 1,
    }
}

/// Appends the lines of a code that stands at an address.
pub fn push_code_lines(out: &mut Vec<u8>, place: u16, code: &[u8]) -> Result<(), NoMemory>
    ensures { OnOk result (out.new.items ≡ out.old.items ++ code_lines place code.now) }
{
    let mut place = place;
    let mut rest = code;
    while !rest.is_empty() {
        let size = line_size(rest);
        push_code_line(out, place, &rest[..size])?;
        place = address_after(place, size);
        rest = behind(rest, size);
    }
    Ok(())
}
