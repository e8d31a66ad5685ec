// Lines that are made on a page. Each call writes after what stands before `at`, and answers where that ends.
ghost use Rattle.std.specs.Prelude.{◌≡◌, ◌<◌, ◌≤◌, ◌+◌, ◌++◌, length, take};
ghost use Rattle.std.specs.Fmt.{decimal};
ghost use Rattle.p8_instr.specs.Numerals.{hex};

use itoa::Buffer;
use p8_instr::{byte_digits, word_digits};

/// How many bytes a page has. Lines are appended to a text a page at a time.
pub const PAGE: usize = 4096;

/// How many bytes a line has at most: the clock 20, the cog 3, the access 27, two spaces and the end.
pub const LINE: usize = 64;

/// Writes a text.
#[inline(always)]
pub fn write_text(page: &mut [u8; PAGE], at: usize, text: &[u8]) -> usize
    requires { at + length text.now ≤ 4096 }
    ensures end { result ≡ at + length text.now }
    ensures text { take result page.new ≡ take at page.old ++ text.now }
{
    let mut end = at;
    for byte in text {
        page[end] = *byte;
        end += 1;
    }
    end
}

/// Writes the number of a cog or a lock. Those that there are have one digit.
#[inline(always)]
pub fn write_number(page: &mut [u8; PAGE], at: usize, number: u8) -> usize
    requires { at + 3 ≤ 4096 }
    ensures end { result ≤ at + 3 }
    ensures text { take result page.new ≡ take at page.old ++ decimal number }
{
    if number < 10 {
        write_digit(page, at, number)
    } else {
        write_text(page, at, Buffer::new().format(number).as_bytes())
    }
}

/// Writes a number below 10.
#[inline(always)]
fn write_digit(page: &mut [u8; PAGE], at: usize, digit: u8) -> usize
    requires room { at + 1 ≤ 4096 }
    requires digit { digit < 10 }
    ensures end { result ≡ at + 1 }
    ensures text { take result page.new ≡ take at page.old ++ decimal digit }
{
    write_text(page, at, &[b'0' + digit])
}

/// Writes a number in decimal digits.
pub fn write_decimal(page: &mut [u8; PAGE], at: usize, number: u32) -> usize
    requires { at + 10 ≤ 4096 }
    ensures end { result ≤ at + 10 }
    ensures text { take result page.new ≡ take at page.old ++ decimal number }
{
    write_text(page, at, Buffer::new().format(number).as_bytes())
}

/// Writes a text and the last two hexadecimal digits of a number.
#[inline(always)]
pub fn write_byte(page: &mut [u8; PAGE], at: usize, text: &[u8], value: u32) -> usize
    requires { at + length text.now + 2 ≤ 4096 }
    ensures end { result ≡ at + length text.now + 2 }
    ensures text { take result page.new ≡ take at page.old ++ (text.now ++ hex 2 value) }
{
    let at = write_text(page, at, text);
    write_text(page, at, &byte_digits(value))
}

/// Writes a text and the last four hexadecimal digits of a number.
#[inline(always)]
pub fn write_word(page: &mut [u8; PAGE], at: usize, text: &[u8], value: u32) -> usize
    requires { at + length text.now + 4 ≤ 4096 }
    ensures end { result ≡ at + length text.now + 4 }
    ensures text { take result page.new ≡ take at page.old ++ (text.now ++ hex 4 value) }
{
    let at = write_text(page, at, text);
    write_text(page, at, &word_digits(value))
}

/// Writes a text and a long.
#[inline(always)]
pub fn write_long(page: &mut [u8; PAGE], at: usize, text: &[u8], value: u32) -> usize
    requires { at + length text.now + 8 ≤ 4096 }
    ensures end { result ≡ at + length text.now + 8 }
    ensures text { take result page.new ≡ take at page.old ++ (text.now ++ hex 8 value) }
{
    let at = write_byte(page, at, text, value / 0x100_0000);
    let at = write_byte(page, at, b"", value / 0x1_0000);
    let at = write_byte(page, at, b"", value / 0x100);
    write_byte(page, at, b"", value)
}
