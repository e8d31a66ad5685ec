// Bytes in a block.
ghost use Rattle.std.specs.Prelude.{◌≡◌, ◌++◌, flat_map, OnOk};
ghost use Rattle.p8_page.specs.Blocks.{escaped, is_plain as stands_for_itself};

use p8_instr::{byte_digits, push_text};
use p8_words::NoMemory;

/// Whether a byte stands for itself.
fn is_plain(byte: u8) -> bool
    ensures { result ≡ stands_for_itself byte }
{
    (byte == b'\n' || (byte >= 32 && byte <= 126 && byte != b'<')) && byte != b'%'
}

/// Appends a byte as it stands in a block.
fn push_byte(out: &mut Vec<u8>, byte: u8) -> Result<(), NoMemory>
    ensures { OnOk result (out.new.items ≡ out.old.items ++ escaped byte) }
{
    if is_plain(byte) {
        push_text(out, &[byte])
    } else {
        push_text(out, b"%")?;
        push_text(out, &byte_digits(u32::from(byte)))
    }
}

/// Appends bytes as they stand in a block.
pub fn push_escaped(out: &mut Vec<u8>, bytes: &[u8]) -> Result<(), NoMemory>
    ensures { OnOk result (out.new.items ≡ out.old.items ++ flat_map escaped bytes.now) }
{
    for byte in bytes {
        push_byte(out, *byte)?;
    }
    Ok(())
}
