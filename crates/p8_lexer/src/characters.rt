// The characters of a source, in either encoding.

ghost use Rattle.std.specs.Prelude.{◌≡◌, ◌+◌, ◌-◌, ◌*◌, ◌^◌, ◌<◌, ◌≤◌, ◌↔◌, [], IsTrue, length, drop, take, slice_get, slice_index};
ghost use Rattle.p8_lexer.specs.Characters.{is_utf16, is_marked, mark_length, ends_in_half, text_of, characters};
ghost use Rattle.p8_lexer.specs.Spelling.{text_in};

use crate::token::Token;
use std::marker::Model;

/// What stands for a unit of UTF-16 above 255.
const WIDE: u8 = b'?';

/// How many characters a file may have.
const LONGEST: usize = 1_048_576;

/// Characters of a file, each below 256: all of its text, or a part of it.
///
/// They are read from the bytes of the file as they are asked for. A file that begins with FF FE is UTF-16 with the
/// low byte first, and a unit above 255 counts as `?`; in every other file a character is a byte, but for the mark
/// EF BB BF of UTF-8 in front.
#[derive(Debug, Drop)]
pub struct Characters<'a> {
    bytes: &'a [u8],
    utf16: bool,
}

impl<'a> Model for Characters<'a> {
    ghost use Rattle.std.specs.Prelude.{ℕ, List};
    ghost use Rattle.p8_lexer.specs.Characters.{decoded};

    ghost Value = { List ℕ };

    ghost view = { λ c. decoded c.utf16 c.bytes.now };
}

/// Whether a file is UTF-16.
pub fn is_utf16(bytes: &[u8]) -> bool
    ensures { result ≡ is_utf16 bytes.now }
{
    bytes.len() >= 2 && bytes[0] == 0xff && bytes[1] == 0xfe
}

/// Whether a file is UTF-16 and ends in half a unit.
pub fn ends_in_half(bytes: &[u8]) -> bool
    ensures { result ≡ ends_in_half bytes.now }
{
    is_utf16(bytes) && bytes.len() % 2 == 1
}

// Whether a file begins with the mark of UTF-8.
fn is_marked(bytes: &[u8]) -> bool
    ensures { result ≡ is_marked bytes.now }
{
    bytes.len() >= 3 && bytes[0] == 0xef && bytes[1] == 0xbb && bytes[2] == 0xbf
}

/// How many bytes stand in front of the text of a file: the mark of its encoding.
pub fn mark_length(bytes: &[u8]) -> usize
    ensures is { result ≡ mark_length bytes.now }
    ensures within { result ≤ length bytes.now }
    ensures few { result ≤ 3 }
{
    if is_utf16(bytes) {
        2
    } else if is_marked(bytes) {
        3
    } else {
        0
    }
}

// The bytes after the first `n`.
fn rest(bytes: &[u8], n: usize) -> &[u8]
    requires { n ≤ length bytes.now }
    ensures { result.now ≡ drop n bytes.now }
{
    &bytes[n..]
}

// The first `n` bytes.
fn front(bytes: &[u8], n: usize) -> &[u8]
    requires { n ≤ length bytes.now }
    ensures { result.now ≡ take n bytes.now }
{
    &bytes[..n]
}

impl<'a> Characters<'a> {
    /// The characters of a whole file, without the mark of its encoding.
    pub fn of_file(bytes: &'a [u8]) -> Characters<'a>
        ensures { result ≡ text_of bytes.now }
    {
        Characters {
            bytes: rest(bytes, mark_length(bytes)),
            utf16: is_utf16(bytes),
        }
    }

    /// The characters of a file, of what a file may have at most: its first 1,048,576.
    pub fn of_front(bytes: &'a [u8]) -> Characters<'a>
        ensures front { result ≡ text_in bytes.now }
        ensures short { length result ≤ 2 ^ 20 }
    {
        let text = Characters::of_file(bytes);
        if text.len() <= LONGEST {
            text
        } else {
            text.first(LONGEST)
        }
    }

    /// The characters of a plain text, which has no mark of an encoding: its bytes.
    pub fn of_text(text: &'a [u8]) -> Characters<'a>
        ensures { result ≡ text.now }
    {
        Characters {
            bytes: text,
            utf16: false,
        }
    }

    /// The characters of a token of a file.
    pub fn of_token(bytes: &'a [u8], token: &Token) -> Characters<'a>
        ensures { result ≡ characters bytes.now token.now }
    {
        let end = token.end.min(bytes.len());
        let begin = token.begin.min(end);
        Characters {
            bytes: &bytes[begin..end],
            utf16: is_utf16(bytes),
        }
    }

    /// How many characters there are.
    pub fn len(&self) -> usize
        ensures { result ≡ length self.now }
    {
        if self.utf16 {
            self.bytes.len() / 2
        } else {
            self.bytes.len()
        }
    }

    /// Whether there is no character.
    pub fn is_empty(&self) -> bool
        ensures { IsTrue result ↔ (self.now ≡ []) }
    {
        self.len() == 0
    }

    /// The character of this number, counted from 0.
    pub fn at(&self, i: usize) -> u8
        requires { i < length self.now }
        ensures { result ≡ slice_index self.now i }
    {
        if self.utf16 {
            if self.bytes[2 * i + 1] == 0 {
                self.bytes[2 * i]
            } else {
                WIDE
            }
        } else {
            self.bytes[i]
        }
    }

    /// The characters after the first `n`.
    pub fn skip(&self, n: usize) -> Characters<'a>
        requires { n ≤ length self.now }
        ensures { result ≡ drop n self.now }
    {
        if self.utf16 {
            Characters {
                bytes: rest(self.bytes, 2 * n),
                utf16: true,
            }
        } else {
            Characters {
                bytes: rest(self.bytes, n),
                utf16: false,
            }
        }
    }

    /// The first `n` characters.
    pub fn first(&self, n: usize) -> Characters<'a>
        requires { n ≤ length self.now }
        ensures { result ≡ take n self.now }
    {
        if self.utf16 {
            Characters {
                bytes: front(self.bytes, 2 * n),
                utf16: true,
            }
        } else {
            Characters {
                bytes: front(self.bytes, n),
                utf16: false,
            }
        }
    }
}
