// Texts that are appended.
ghost use Rattle.std.specs.Prelude.{◌≡◌, ◌≤◌, ◌++◌, length, drop, OnOk};
ghost use Rattle.p8_instr.specs.Numerals.{hex};
ghost use Rattle.p8_image.specs.Listing.{address_after as address_by};

use p8_instr::{push_text, word_digits};
use p8_words::NoMemory;

/// Appends an address.
pub fn push_place(out: &mut Vec<u8>, place: u16) -> Result<(), NoMemory>
    ensures { OnOk result (out.new.items ≡ out.old.items ++ hex 4 place) }
{
    push_text(out, &word_digits(u32::from(place)))
}

/// So many bytes after an address, mod 65,536.
pub fn address_after(place: u16, bytes: usize) -> u16
    ensures { result ≡ address_by place bytes }
{
    place.wrapping_add((bytes % 65_536) as u16)
}

/// The bytes after the first ones.
pub fn behind(bytes: &[u8], count: usize) -> &[u8]
    requires { count ≤ length bytes.now }
    ensures { result.now ≡ drop count bytes.now }
{
    &bytes[count..]
}
