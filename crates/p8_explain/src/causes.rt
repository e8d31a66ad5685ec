// What stands at the place where a line is refused.
ghost use Rattle.std.specs.Prelude.{◌≡◌, ◌++◌, ◌&&◌, ◌==◌, ◌≤◌, ◌<◌, take, length, slice_index, OnOk};
ghost use Rattle.p8_explain.specs.Causes.{is_of_word, word_length, is_spelled_so, symbol_at, token_at, ends_value, begins_value};
ghost use Rattle.p8_explain.specs.Causes.{begins_token, last_begin, token_before, spaces, token_behind, is_reserved, is_empty_pair, are_beside};
ghost use Rattle.p8_explain.specs.Causes.{cause_of, cause_at, quoted, sentence, seen};

use crate::lines::{first_of, rest_of};
use p8_instr::push_text;
use p8_lexer::{Characters, named};
use p8_words::NoMemory;

/// Why a token can't stand where it does, as far as its line shows it.
#[derive(Clone, Copy, Debug, PartialEq, Eq)]
pub(crate) enum Cause {
    /// the line's end stands there
    LineEnds,
    /// a reserved word stands there
    Reserved,
    /// `)` stands there after `(`
    EmptyPair,
    /// a word or a value stands there after another
    Beside,
    /// nothing stands before it on its line
    First,
    /// anything else
    Other,
}

/// Whether a character is a letter, a digit or `_`.
pub(crate) fn is_of_word(c: u8) -> bool
    ensures { result ≡ is_of_word c }
{
    matches!(c, b'A'..=b'Z' | b'a'..=b'z' | b'_' | b'0'..=b'9')
}

// How many characters of a word a text begins with.
fn word_length(text: &[u8]) -> usize
    ensures length { result ≡ word_length text.now }
    ensures within { result ≤ length text.now }
{
    let mut count = 0;
    for c in text {
        if !is_of_word(*c) {
            return count;
        }
        count += 1;
    }
    count
}

// Whether a text is a symbol or a reserved word.
fn is_spelled_so(text: &[u8]) -> bool
    ensures { result ≡ is_spelled_so text.now }
{
    named(&Characters::of_text(text)).is_some()
}

// The longest symbol that a text begins with.
fn symbol_at(text: &[u8]) -> &[u8]
    ensures { result.now ≡ symbol_at text.now }
{
    let three = first_of(text, 3);
    let two = first_of(text, 2);
    if is_spelled_so(three) {
        three
    } else if is_spelled_so(two) {
        two
    } else {
        first_of(text, 1)
    }
}

/// The character with which a text begins; 0 is none.
pub(crate) fn first_character(text: &[u8]) -> u8
    ensures { result ≡ slice_index text.now 0 }
{
    if text.is_empty() { 0 } else { text[0] }
}

/// The name, the number or the symbol that a text begins with.
pub(crate) fn token_at(text: &[u8]) -> &[u8]
    ensures { result.now ≡ token_at text.now }
{
    if is_of_word(first_character(text)) {
        first_of(text, word_length(text))
    } else {
        symbol_at(text)
    }
}

// Whether a token begins with a character that stands after another one; 0 is none.
fn begins_token(before: u8, c: u8) -> bool
    ensures { result ≡ begins_token before c }
{
    c != b' ' && !(is_of_word(before) && is_of_word(c))
}

// Where the last token of a text begins; its end, where it has none.
fn last_begin(front: &[u8]) -> usize
    ensures { result ≡ last_begin (length front.now) 0 0 front.now }
{
    let mut found = front.len();
    let mut before = 0;
    for (at, c) in front.iter().enumerate() {
        if begins_token(before, *c) {
            found = at;
        }
        before = *c;
    }
    found
}

/// The name, the number or the character that a text ends with, but for spaces; empty where there is none.
pub(crate) fn token_before(front: &[u8]) -> &[u8]
    ensures { result.now ≡ token_before front.now }
{
    token_at(rest_of(front, last_begin(front)))
}

// How many spaces a text begins with.
fn spaces(text: &[u8]) -> usize
    ensures { result ≡ spaces text.now }
{
    let mut count = 0;
    for c in text {
        if *c != b' ' {
            return count;
        }
        count += 1;
    }
    count
}

/// The token behind the one with which a text begins.
pub(crate) fn token_behind(text: &[u8]) -> &[u8]
    ensures { result.now ≡ token_behind text.now }
{
    let rest = rest_of(text, token_at(text).len());
    token_at(rest_of(rest, spaces(rest)))
}

// Whether a word or a value can end with a character.
fn ends_value(c: u8) -> bool
    ensures { result ≡ ends_value c }
{
    is_of_word(c) || c == b')' || c == b']' || c == b'"'
}

// Whether a word or a value can begin with a character.
fn begins_value(c: u8) -> bool
    ensures { result ≡ begins_value c }
{
    is_of_word(c) || c == b'"' || c == b'$' || c == b'%'
}

fn is_reserved(token: &[u8], next: u8) -> bool
    ensures { result ≡ is_reserved token.now next }
{
    is_spelled_so(token) && is_of_word(next)
}

fn is_empty_pair(last: u8, next: u8) -> bool
    ensures { result ≡ is_empty_pair last next }
{
    last == b'(' && next == b')'
}

fn are_beside(last: u8, next: u8) -> bool
    ensures { result ≡ are_beside last next }
{
    ends_value(last) && begins_value(next)
}

// What a token tells that begins with a character and stands after another one.
fn cause_of(token: &[u8], last: u8, next: u8) -> Cause
    ensures { result ≡ cause_of token.now last next }
{
    if is_reserved(token, next) {
        Cause::Reserved
    } else if is_empty_pair(last, next) {
        Cause::EmptyPair
    } else if are_beside(last, next) {
        Cause::Beside
    } else if last == 0 {
        Cause::First
    } else {
        Cause::Other
    }
}

// What a token tells that stands after another one.
fn cause_at(before: &[u8], token: &[u8]) -> Cause
    ensures { result ≡ cause_at before.now token.now }
{
    match token {
        [] => Cause::LineEnds,
        [next, ..] => cause_of(token, first_character(before), *next),
    }
}

/// Appends a token in quotes.
pub(crate) fn push_quoted(out: &mut Vec<u8>, token: &[u8]) -> Result<(), NoMemory>
    ensures { OnOk result (out.new.items ≡ out.old.items ++ quoted token.now) }
{
    push_text(out, b"`")?;
    push_text(out, token)?;
    push_text(out, b"`")?;
    Ok(())
}

// Appends a token between two texts.
fn push_around(out: &mut Vec<u8>, before: &[u8], token: &[u8], after: &[u8]) -> Result<(), NoMemory>
    ensures { OnOk result (out.new.items ≡ out.old.items ++ (before.now ++ quoted token.now ++ after.now)) }
{
    push_text(out, before)?;
    push_quoted(out, token)?;
    push_text(out, after)?;
    Ok(())
}

fn push_sentence(out: &mut Vec<u8>, cause: Cause, token: &[u8]) -> Result<(), NoMemory>
    ensures { OnOk result (out.new.items ≡ out.old.items ++ sentence cause token.now) }
{
    match cause {
        Cause::LineEnds => push_text(
            out,
            b"The line ends here, where more must follow, as a name, a value, a closing bracket or the : of a CASE item.\n",
        ),
        Cause::Reserved => push_around(
            out,
            b"",
            token,
            b" is a reserved word, and can't be a name.\n",
        ),
        Cause::EmptyPair => push_text(
            out,
            b"Nothing stands in these parentheses: leave them out, or write what belongs in them.\n",
        ),
        Cause::Beside => push_around(
            out,
            b"",
            token,
            b" follows another word or value, with no operator, comma, bracket or colon between them.\n",
        ),
        Cause::First => push_around(out, b"The line begins with ", token, b".\n"),
        Cause::Other => push_around(out, b"The line can be read up to ", token, b".\n"),
    }
}

/// Appends what can be seen of a token that stands after another one.
pub(crate) fn push_seen(out: &mut Vec<u8>, before: &[u8], token: &[u8]) -> Result<(), NoMemory>
    ensures { OnOk result (out.new.items ≡ out.old.items ++ seen before.now token.now) }
{
    push_sentence(out, cause_at(before, token), token)
}
