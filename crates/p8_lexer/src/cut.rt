// Cutting the first piece off a text.

ghost use Rattle.std.specs.Prelude.{◌≡◌, ◌≢◌, ◌<◌, ◌≤◌, ℕ, false, IsTrue, Some, length, take, slice_index, slice_get, MatchOption};
ghost use Rattle.p8_lexer.specs.Words.{spelling, symbols};
ghost use Rattle.p8_lexer.specs.Lexing.{is_digit, is_letter, is_line_end, is_in, mark, AreDigits};
ghost use Rattle.p8_lexer.specs.Cutting.{IsCut, IsCutOrStuck, OnlySymbols, cut_or_open};
ghost use Rattle.p8_lexer.specs.declared.piece.Radix as radix_type;
ghost use Rattle.p8_lexer.specs.declared.piece.Radix.TheVariants as radix;
ghost use Rattle.p8_lexer.specs.declared.piece.Class.TheVariants as class;
ghost use Rattle.p8_lexer.specs.declared.word.Word as word_type;

use crate::characters::Characters;
use crate::comment::{comment_end, doc_comment_end};
use crate::lookup::named;
use crate::number::{float_tail_end, mark_length, number};
use crate::piece::{Class, Cut, PieceKind, Radix};
use crate::run::{digits_end, is_at, is_digit, is_in, is_letter, run_end};
use crate::token::TokenKind;
use p8_tree::Refusal;

const NAME_LIMIT: usize = 30;

// The longest symbol has so many characters.
const SYMBOL_LIMIT: usize = 3;

/// The piece that begins a text, or why none can be cut off.
pub fn first_cut(text: &Characters) -> Result<Cut, Refusal>
    requires { 0 < length text.now }
    ensures { IsCutOrStuck text.now result }
{
    let first = text.at(0);
    if is_letter(first) {
        name(text)
    } else if is_in(Class::Blank, first) {
        Ok(blank(text))
    } else if is_line_end(first) {
        Ok(line_end(text))
    } else if is_digit(Radix::Decimal, first) {
        decimal(text)
    } else {
        marked(text)
    }
}

fn is_line_end(c: u8) -> bool
    ensures { result ≡ is_line_end c }
{
    c == b'\n' || c == b'\r'
}

// The piece that begins a text with a mark.
fn marked(text: &Characters) -> Result<Cut, Refusal>
    requires within { 0 < length text.now }
    requires letter { is_letter (slice_index text.now 0) ≡ false }
    requires blank { is_in class.Blank (slice_index text.now 0) ≡ false }
    requires line_end { is_line_end (slice_index text.now 0) ≡ false }
    requires digit { is_digit radix.Decimal (slice_index text.now 0) ≡ false }
    ensures { IsCutOrStuck text.now result }
{
    let first = text.at(0);
    if first == b'\'' {
        Ok(line_comment(text))
    } else if first == b'{' {
        comment(text)
    } else if first == b'"' {
        string(text)
    } else if first == b'%' {
        with_percent(text)
    } else if first == b'$' {
        with_dollar(text)
    } else {
        symbol(text)
    }
}

fn blank(text: &Characters) -> Cut
    requires within { 0 < length text.now }
    requires blank { IsTrue (is_in class.Blank (slice_index text.now 0)) }
    ensures { IsCut text.now result }
{
    Cut {
        kind: PieceKind::Blank,
        length: run_end(text, 1, Class::Blank),
    }
}

fn line_end(text: &Characters) -> Cut
    requires within { 0 < length text.now }
    requires line_end { IsTrue (is_line_end (slice_index text.now 0)) }
    ensures { IsCut text.now result }
{
    if is_at(text, 0, b'\r') && is_at(text, 1, b'\n') {
        Cut::token(TokenKind::LineEnd, 2)
    } else {
        Cut::token(TokenKind::LineEnd, 1)
    }
}

fn line_comment(text: &Characters) -> Cut
    requires within { 0 < length text.now }
    requires apostrophe { slice_index text.now 0 ≡ 39 }
    ensures { IsCut text.now result }
{
    Cut {
        kind: PieceKind::LineComment,
        length: run_end(text, 1, Class::Line),
    }
}

fn comment(text: &Characters) -> Result<Cut, Refusal>
    requires within { 0 < length text.now }
    requires brace { slice_index text.now 0 ≡ 123 }
    ensures { IsCutOrStuck text.now result }
{
    if is_at(text, 1, b'{') {
        cut_or_open(PieceKind::DocComment, doc_comment_end(text))
    } else {
        cut_or_open(PieceKind::Comment, comment_end(text))
    }
}

// A comment of a kind that ends at a place, or isn't closed.
fn cut_or_open(kind: PieceKind, end: Option<usize>) -> Result<Cut, Refusal>
    ensures { result ≡ cut_or_open kind end }
{
    match end {
        Some(length) => Ok(Cut { kind, length }),
        None => Err(Refusal::OpenComment),
    }
}

fn name(text: &Characters) -> Result<Cut, Refusal>
    requires within { 0 < length text.now }
    requires letter { IsTrue (is_letter (slice_index text.now 0)) }
    ensures { IsCutOrStuck text.now result }
{
    let length = run_end(text, 1, Class::Name);
    if length > NAME_LIMIT {
        Err(Refusal::NameTooLong)
    } else {
        Ok(Cut::token(TokenKind::Name, length))
    }
}

fn string(text: &Characters) -> Result<Cut, Refusal>
    requires within { 0 < length text.now }
    requires quote { slice_index text.now 0 ≡ 34 }
    ensures { IsCutOrStuck text.now result }
{
    let end = run_end(text, 1, Class::Quoted);
    if end < text.len() && text.at(end) == b'"' {
        Ok(Cut::token(TokenKind::Str, end + 1))
    } else {
        Err(Refusal::OpenString)
    }
}

// The decimal number or the floating-point number that begins a text with a digit.
fn decimal(text: &Characters) -> Result<Cut, Refusal>
    requires within { 0 < length text.now }
    requires digit { IsTrue (is_digit radix.Decimal (slice_index text.now 0)) }
    ensures { IsCutOrStuck text.now result }
{
    let end = run_end(text, 1, Class::Digits(Radix::Decimal));
    match float_tail_end(text, end) {
        Some(length) => Ok(Cut::token(TokenKind::Float, length)),
        None => number(text, Radix::Decimal, end),
    }
}

// The binary or quaternary number that begins a text with `%`.
fn with_percent(text: &Characters) -> Result<Cut, Refusal>
    requires within { 0 < length text.now }
    requires percent { slice_index text.now 0 ≡ 37 }
    ensures { IsCutOrStuck text.now result }
{
    if is_at(text, 1, b'%') {
        marked_number(text, Radix::Quaternary)
    } else {
        marked_number(text, Radix::Binary)
    }
}

// The number of this radix that begins a text with its mark, which no other number begins.
fn marked_number(text: &Characters, radix: Radix) -> Result<Cut, Refusal>
    requires percent { slice_index text.now 0 ≡ 37 }
    requires within { length (mark radix) ≤ length text.now }
    requires marked { take (length (mark radix)) text.now ≡ mark radix }
    requires only { (other : radix_type.Radix) (n : ℕ) → take (length (mark other)) text.now ≡ mark other
        → AreDigits other text.now (length (mark other)) n → other ≡ radix }
    ensures { IsCutOrStuck text.now result }
{
    match digits_end(text, mark_length(radix), radix) {
        Some(end) => number(text, radix, end),
        None => Err(Refusal::BadNumber),
    }
}

// The hexadecimal number or the symbol that begins a text with `$`.
fn with_dollar(text: &Characters) -> Result<Cut, Refusal>
    requires within { 0 < length text.now }
    requires dollar { slice_index text.now 0 ≡ 36 }
    ensures { IsCutOrStuck text.now result }
{
    match digits_end(text, 1, Radix::Hexadecimal) {
        Some(end) => number(text, Radix::Hexadecimal, end),
        None => symbol(text),
    }
}

// The symbol that begins a text which begins with nothing else.
fn symbol(text: &Characters) -> Result<Cut, Refusal>
    requires within { 0 < length text.now }
    requires only { OnlySymbols text.now }
    requires brace { slice_index text.now 0 ≢ 123 }
    requires quote { slice_index text.now 0 ≢ 34 }
    requires percent { slice_index text.now 0 ≢ 37 }
    ensures { IsCutOrStuck text.now result }
{
    let mut length = text.len().min(SYMBOL_LIMIT);
    'lengths: while length > 0 {
        match symbol_number(&text.first(length)) {
            Some(number) => {
                return Ok(Cut::token(TokenKind::Symbol(number), length));
            }
            None => length -= 1,
        }
    }
    Err(Refusal::BadByte)
}

// The number of the symbol that these characters are.
fn symbol_number(text: &Characters) -> Option<u8>
    ensures { MatchOption result
        ((n : ℕ) (w : word_type.Word) → slice_get symbols n ≡ Some w → text.now ≢ spelling w)
        (λ n. (w : word_type.Word) × (slice_get symbols n ≡ Some w) × (text.now ≡ spelling w)) }
{
    match named(text) {
        Some(word) => word.symbol_number(),
        None => None,
    }
}
