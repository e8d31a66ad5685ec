// Texts that are appended.
ghost use Rattle.std.specs.Prelude.{◌≡◌, ◌++◌, OnOk};

use p8_words::NoMemory;

/// Appends a text. The only error is want of memory.
pub fn push_text(out: &mut Vec<u8>, text: &[u8]) -> Result<(), NoMemory>
    ensures { OnOk result (out.new.items ≡ out.old.items ++ text.now) }
{
    out.extend_from_slice(text)?;
    Ok(())
}
