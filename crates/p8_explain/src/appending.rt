// Texts that are put together.
ghost use Rattle.std.specs.Prelude.{◌≡◌, ◌++◌, replicate, OnOk};
ghost use Rattle.std.specs.Fmt.{decimal};

use itoa::Buffer;
use p8_instr::push_text;
use p8_words::NoMemory;

/// Appends a number in decimal digits. The only error is want of memory.
pub fn push_decimal(out: &mut Vec<u8>, number: u64) -> Result<(), NoMemory>
    ensures { OnOk result (out.new.items ≡ out.old.items ++ decimal number) }
{
    push_text(out, Buffer::new().format(number).as_bytes())
}

/// Appends so many spaces.
pub(crate) fn push_spaces(out: &mut Vec<u8>, count: usize) -> Result<(), NoMemory>
    ensures { OnOk result (out.new.items ≡ out.old.items ++ replicate count 32) }
{
    for _ in 0..count {
        push_text(out, b" ")?;
    }
    Ok(())
}
