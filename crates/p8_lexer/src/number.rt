// Numbers.

ghost use Rattle.std.specs.Prelude.{◌≡◌, ◌+◌, ◌-◌, ◌*◌, ◌^◌, ◌<◌, ◌≤◌, ◌⊎◌, ◌↔◌, ◌==◌, if◌then◌else◌, false};
ghost use Rattle.std.specs.Prelude.{IsTrue, length, take, drop, slice_index, MatchOption, MatchResult};
ghost use Rattle.p8_lexer.specs.Lexing.{is_digit, is_in, AllIn, AreDigits, IsFraction, IsExponent, IsFloatTail};
ghost use Rattle.p8_lexer.specs.Lexing.{mark, base, digit_value, value_behind, IsStuck, NoneIs};
ghost use Rattle.p8_lexer.specs.Cutting.{IsGreatest, IsLongest, IsCut};
ghost use Rattle.p8_lexer.specs.declared.piece.PieceKind.TheVariants as piece;
ghost use Rattle.p8_lexer.specs.declared.piece.Radix.TheVariants as radix;
ghost use Rattle.p8_lexer.specs.declared.piece.Class.TheVariants as class;
ghost use Rattle.p8_lexer.specs.declared.token.TokenKind.TheVariants as token;

use crate::characters::Characters;
use crate::piece::{Class, Cut, PieceKind, Radix};
use crate::run::{digits_end, is_in};
use crate::token::TokenKind;
use p8_tree::Refusal;

/// How many characters stand before the digits.
pub fn mark_length(radix: Radix) -> usize
    ensures { result ≡ length (mark radix) }
{
    match radix {
        Radix::Decimal => 0,
        Radix::Binary | Radix::Hexadecimal => 1,
        Radix::Quaternary => 2,
    }
}

fn base(radix: Radix) -> u64
    ensures { result ≡ base radix }
{
    match radix {
        Radix::Binary => 2,
        Radix::Quaternary => 4,
        Radix::Decimal => 10,
        Radix::Hexadecimal => 16,
    }
}

// What a digit stands for.
fn digit_value(c: u8) -> u8
    requires { IsTrue (is_digit radix.Hexadecimal c) }
    ensures is { result ≡ digit_value c }
    ensures small { result < 16 }
{
    if c <= b'9' {
        c - b'0'
    } else if c <= b'F' {
        c - b'A' + 10
    } else {
        c - b'a' + 10
    }
}

// What digits stand for with one more character.
fn value_with(value: u64, radix: Radix, c: u8) -> u64
    requires small { value < 2 ^ 32 }
    requires digit { IsTrue (is_in (class.Digits radix) c) }
    ensures { result ≡ if c == 95 then value else base radix * value + digit_value c }
{
    if c == b'_' {
        value
    } else {
        base(radix) * value + u64::from(digit_value(c))
    }
}

// What the digits of a text from one place up to another stand for; None where it doesn't fit in 32 bits.
fn value_of(text: &Characters, radix: Radix, from: usize, to: usize) -> Option<u32>
    requires ordered { from ≤ to }
    requires within { to ≤ length text.now }
    requires digits { AllIn (class.Digits radix) text.now from to }
    ensures { MatchOption result (2 ^ 32 ≤ value_behind (base radix) 0 (drop from (take to text.now)))
        (λ v. (v < 2 ^ 32) × (v ≡ value_behind (base radix) 0 (drop from (take to text.now)))) }
{
    let mut value = 0u64;
    for i in from..to {
        value = value_with(value, radix, text.at(i));
        if value > u64::from(u32::MAX) {
            return None;
        }
    }
    Some(value as u32)
}

// Whether a letter, a digit or `_` stands at a place.
fn is_name_at(text: &Characters, at: usize) -> bool
    ensures { result ≡ is_in class.Name (slice_index text.now at) }
{
    at < text.len() && is_in(Class::Name, text.at(at))
}

/// The number that begins a text, whose digits have been found to end at a place.
pub fn number(text: &Characters, radix: Radix, end: usize) -> Result<Cut, Refusal>
    requires marked { take (length (mark radix)) text.now ≡ mark radix }
    requires digits { IsGreatest (AreDigits radix text.now (length (mark radix))) (length text.now) end }
    requires no_float { NoneIs (piece.Token token.Float) text.now }
    ensures { MatchResult result (IsCut text.now) (λ refusal. IsStuck refusal false text.now) }
{
    if is_name_at(text, end) {
        return Err(Refusal::BadNumber);
    }
    match value_of(text, radix, mark_length(radix), end) {
        Some(value) => Ok(Cut {
            kind: PieceKind::Token(TokenKind::Number(value)),
            length: end,
        }),
        None => Err(Refusal::BadNumber),
    }
}

// Where a fraction ends that begins at a place.
fn fraction_end(text: &Characters, from: usize) -> Option<usize>
    requires { from ≤ length text.now }
    ensures { IsLongest (IsFraction text.now from) (length text.now) result }
{
    if from < text.len() && text.at(from) == b'.' {
        digits_end(text, from + 1, Radix::Decimal)
    } else {
        None
    }
}

// Where an exponent ends that begins at a place.
fn exponent_end(text: &Characters, from: usize) -> Option<usize>
    requires { from ≤ length text.now }
    ensures { IsLongest (IsExponent text.now from) (length text.now) result }
{
    if from < text.len() && is_exponent_mark(text.at(from)) {
        if from + 1 < text.len() && is_sign(text.at(from + 1)) {
            digits_end(text, from + 2, Radix::Decimal)
        } else {
            digits_end(text, from + 1, Radix::Decimal)
        }
    } else {
        None
    }
}

fn is_exponent_mark(c: u8) -> bool
    ensures { IsTrue result ↔ ((c ≡ 69) ⊎ (c ≡ 101)) }
{
    c == b'E' || c == b'e'
}

fn is_sign(c: u8) -> bool
    ensures { IsTrue result ↔ ((c ≡ 43) ⊎ (c ≡ 45)) }
{
    c == b'+' || c == b'-'
}

/// Where a fraction, an exponent or both end that begin at a place; None where none begins there.
pub fn float_tail_end(text: &Characters, from: usize) -> Option<usize>
    requires { from ≤ length text.now }
    ensures { IsLongest (IsFloatTail text.now from) (length text.now) result }
{
    match fraction_end(text, from) {
        Some(end) => Some(exponent_end(text, end).unwrap_or(end)),
        None => exponent_end(text, from),
    }
}
