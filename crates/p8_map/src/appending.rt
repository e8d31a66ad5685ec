// Texts that are appended.
ghost use Rattle.std.specs.Prelude.{◌≡◌, ◌++◌, codes, OnOk};
ghost use Rattle.std.specs.Fmt.{decimal};
ghost use Rattle.p8_instr.specs.Numerals.{hex};
ghost use Rattle.p8_image.specs.Listing.{address_after as address_by};
ghost use Rattle.p8_map.specs.Map.{size_word as word_of_size};

use itoa::Buffer;
use p8_instr::{push_text, word_digits};
use p8_words::NoMemory;

/// Appends an address in four hexadecimal digits. The only error is want of memory.
pub fn push_place(out: &mut Vec<u8>, place: u16) -> Result<(), NoMemory>
    ensures { OnOk result (out.new.items ≡ out.old.items ++ hex 4 place) }
{
    push_text(out, &word_digits(u32::from(place)))
}

/// Appends a number in decimal digits. The only error is want of memory.
pub fn push_number(out: &mut Vec<u8>, number: u64) -> Result<(), NoMemory>
    ensures { OnOk result (out.new.items ≡ out.old.items ++ decimal number) }
{
    push_text(out, Buffer::new().format(number).as_bytes())
}

/// So many bytes after an address, mod 65,536.
pub fn address_after(place: u16, bytes: u64) -> u16
    ensures { result ≡ address_by place bytes }
{
    place.wrapping_add((bytes % 65_536) as u16)
}

/// The word for an element of so many bytes.
pub fn size_word(bytes: u8) -> &'static [u8]
    ensures { result.now ≡ word_of_size bytes }
{
    match bytes {
        1 => b"byte",
        2 => b"word",
        _ => b"long",
    }
}
