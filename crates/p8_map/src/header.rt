// The lines of an image's header, and of the memory after the variables.
ghost use Rattle.std.specs.Prelude.{◌≡◌, ◌++◌, ◌<◌, slice_index, codes, OnOk};
ghost use Rattle.p8_instr.specs.Numerals.{hex};
ghost use Rattle.p8_image.specs.Headers.{word_at as word_in};
ghost use Rattle.p8_map.specs.Map.{byte_line, clock_lines, field_line, header_lines, memory_lines, place_lines, word_line};

use crate::appending::{push_number, push_place};
use p8_instr::{byte_digits, push_text, word_digits};
use p8_words::NoMemory;

/// How many bytes the hub's memory has.
const HUB_BYTES: u16 = 32_768;

/// Where an image's header tells the begin of the variables.
const VBASE: u16 = 8;

/// The byte at a place, or 0 where there is none.
fn byte_at(bytes: &[u8], place: u16) -> u8
    ensures { result ≡ slice_index bytes.now place }
{
    bytes.get(usize::from(place)).copied().unwrap_or(0)
}

/// The word at a place, its low byte first.
pub fn word_at(bytes: &[u8], place: u16) -> u16
    requires { place < 16 }
    ensures { result ≡ word_in bytes.now place }
{
    u16::from(byte_at(bytes, place)) + 256 * u16::from(byte_at(bytes, place + 1))
}

/// Where the variables of an image begin, as its header tells.
pub fn variables_at(image: &[u8]) -> u16
    ensures { result ≡ word_in image.now 8 }
{
    word_at(image, VBASE)
}

/// Appends the line of a field.
fn push_field(out: &mut Vec<u8>, place: u16, name: &[u8], digits: &[u8]) -> Result<(), NoMemory>
    ensures { OnOk result (out.new.items ≡ out.old.items ++ field_line place name.now digits.now) }
{
    push_place(out, place)?;
    push_text(out, b" header ")?;
    push_text(out, name)?;
    push_text(out, b" ")?;
    push_text(out, digits)?;
    push_text(out, b"\n")
}

fn push_byte(out: &mut Vec<u8>, image: &[u8], place: u16, name: &[u8]) -> Result<(), NoMemory>
    ensures { OnOk result (out.new.items ≡ out.old.items ++ byte_line image.now place name.now) }
{
    push_field(
        out,
        place,
        name,
        &byte_digits(u32::from(byte_at(image, place))),
    )
}

fn push_word(out: &mut Vec<u8>, image: &[u8], place: u16, name: &[u8]) -> Result<(), NoMemory>
    requires { place < 16 }
    ensures { OnOk result (out.new.items ≡ out.old.items ++ word_line image.now place name.now) }
{
    push_field(
        out,
        place,
        name,
        &word_digits(u32::from(word_at(image, place))),
    )
}

/// Appends the line of the clock's frequency.
fn push_frequency(out: &mut Vec<u8>, image: &[u8]) -> Result<(), NoMemory>
    ensures { OnOk result (out.new.items ≡ out.old.items ++ field_line 0 (codes "clkfreq") (hex 4 (word_in image.now 2) ++ hex 4 (word_in image.now 0))) }
{
    let [a, b, c, d] = word_digits(u32::from(word_at(image, 2)));
    let [e, f, g, h] = word_digits(u32::from(word_at(image, 0)));
    push_field(out, 0, b"clkfreq", &[a, b, c, d, e, f, g, h])
}

/// Appends the lines of the clock and of the checksum.
fn push_clock(out: &mut Vec<u8>, image: &[u8]) -> Result<(), NoMemory>
    ensures { OnOk result (out.new.items ≡ out.old.items ++ clock_lines image.now) }
{
    push_frequency(out, image)?;
    push_byte(out, image, 4, b"clkmode")?;
    push_byte(out, image, 5, b"checksum")
}

/// Appends the lines of the places that a header names.
fn push_places(out: &mut Vec<u8>, image: &[u8]) -> Result<(), NoMemory>
    ensures { OnOk result (out.new.items ≡ out.old.items ++ place_lines image.now) }
{
    push_word(out, image, 6, b"pbase")?;
    push_word(out, image, 8, b"vbase")?;
    push_word(out, image, 10, b"dbase")?;
    push_word(out, image, 12, b"pcurr")?;
    push_word(out, image, 14, b"dcurr")
}

/// Appends the lines of an image's header.
pub fn push_header(out: &mut Vec<u8>, image: &[u8]) -> Result<(), NoMemory>
    ensures { OnOk result (out.new.items ≡ out.old.items ++ header_lines image.now) }
{
    push_clock(out, image)?;
    push_places(out, image)
}

/// Appends the lines of the first frame and of the memory that is free after it.
pub fn push_memory(out: &mut Vec<u8>, dbase: u16, dcurr: u16) -> Result<(), NoMemory>
    ensures { OnOk result (out.new.items ≡ out.old.items ++ memory_lines dbase dcurr) }
{
    push_place(out, dbase)?;
    push_text(out, b" stack\n")?;
    push_place(out, dcurr)?;
    push_text(out, b" free ")?;
    push_number(out, u64::from(HUB_BYTES.saturating_sub(dcurr)))?;
    push_text(out, b"\n")
}
