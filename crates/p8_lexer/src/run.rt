// Runs of characters of a class.

ghost use Rattle.std.specs.Prelude.{◌≡◌, ◌≢◌, ◌+◌, ◌<◌, ◌≤◌, false, length, slice_index, MatchBool};
ghost use Rattle.p8_lexer.specs.Lexing.{is_letter, is_digit, is_in, AllIn, AreDigits};
ghost use Rattle.p8_lexer.specs.Cutting.{IsLongest};

use crate::characters::Characters;
use crate::piece::{Class, Radix};

/// Whether a character is a letter or `_`.
pub fn is_letter(c: u8) -> bool
    ensures { result ≡ is_letter c }
{
    (c >= b'A' && c <= b'Z') || (c >= b'a' && c <= b'z') || c == b'_'
}

/// Whether a character is a digit.
pub fn is_digit(radix: Radix, c: u8) -> bool
    ensures { result ≡ is_digit radix c }
{
    match radix {
        Radix::Binary => c >= b'0' && c <= b'1',
        Radix::Quaternary => c >= b'0' && c <= b'3',
        Radix::Decimal => c >= b'0' && c <= b'9',
        Radix::Hexadecimal => {
            (c >= b'0' && c <= b'9') || (c >= b'A' && c <= b'F') || (c >= b'a' && c <= b'f')
        }
    }
}

/// Whether a character is of a class.
pub fn is_in(class: Class, c: u8) -> bool
    ensures { result ≡ is_in class c }
{
    match class {
        Class::Blank => c == b' ' || c == b'\t',
        Class::Name => is_letter(c) || is_digit(Radix::Decimal, c),
        Class::Quoted => !(c == b'"' || c == b'\n' || c == b'\r'),
        Class::Line => !(c == b'\n' || c == b'\r'),
        Class::Digits(radix) => is_digit(radix, c) || c == b'_',
    }
}

/// Where the characters of a class end that begin at a place.
pub fn run_end(text: &Characters, from: usize, class: Class) -> usize
    requires { from ≤ length text.now }
    ensures behind { from ≤ result }
    ensures within { result ≤ length text.now }
    ensures all { AllIn class text.now from result }
    ensures stops { result < length text.now → is_in class (slice_index text.now result) ≡ false }
{
    let mut i = from;
    while i < text.len() && is_in(class, text.at(i)) {
        i += 1;
    }
    i
}

/// Where the digits end that begin at a place, with `_` anywhere but in front; None where no digit stands there.
pub fn digits_end(text: &Characters, from: usize, radix: Radix) -> Option<usize>
    requires { from ≤ length text.now }
    ensures { IsLongest (AreDigits radix text.now from) (length text.now) result }
{
    if from < text.len() && is_digit(radix, text.at(from)) {
        Some(run_end(text, from + 1, Class::Digits(radix)))
    } else {
        None
    }
}

/// Whether a character stands at a place of a text.
pub fn is_at(text: &Characters, i: usize, c: u8) -> bool
    requires { 0 < c }
    ensures { MatchBool result ((i < length text.now) × (slice_index text.now i ≡ c)) (slice_index text.now i ≢ c) }
{
    i < text.len() && text.at(i) == c
}
