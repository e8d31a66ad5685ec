// The word that characters spell, and what a token is.

ghost use Rattle.std.specs.Prelude.{◌≡◌, ◌<◌, ◌↔◌, ℕ, false, IsTrue, List, Some, None, length, map, slice_get};
ghost use Rattle.p8_tree.specs.Names.{begins_name, is_reserved};
ghost use Rattle.p8_lexer.specs.declared.word.Word as word_type;
ghost use Rattle.p8_lexer.specs.Words.{capital, same, is_spelled, word_spelled, word_of};
ghost use Rattle.p8_lexer.specs.Table.{row_of, word_in, word_of_row};

use crate::characters::Characters;
use crate::table::{WordEntry, key, numbers_at, table};
use crate::token::{Token, TokenKind};
use crate::word::Word;

/// What a token of a file is to a reader of Spin.
///
/// A name that isn't reserved is [`Word::Name`]. Every number of a symbol that [`lex`](crate::lex) gives is that of
/// one; another number would count as a name.
pub fn word_of(bytes: &[u8], token: &Token) -> Word
    ensures { result ≡ word_of bytes.now token.now }
{
    match token.kind {
        TokenKind::Name => named(&Characters::of_token(bytes, token)).unwrap_or(Word::Name),
        TokenKind::Number(_) => Word::Number,
        TokenKind::Float => Word::FloatNumber,
        TokenKind::Str => Word::Str,
        TokenKind::Symbol(number) => Word::symbol(number).unwrap_or(Word::Name),
        TokenKind::LineEnd => Word::LineEnd,
    }
}

/// The symbol or the reserved word that these characters spell, in letters of any case.
pub fn named(text: &Characters) -> Option<Word>
    ensures { result ≡ word_spelled text.now }
{
    if text.is_empty() {
        return None;
    }
    let numbers = numbers_at(key(capital(text.at(0)), text.len()));
    word_in(table(), numbers, text)
}

// The word of the first of the rows of these numbers that is spelled as the characters are.
fn word_in(rows: &[WordEntry], numbers: &[u16], text: &Characters) -> Option<Word>
    ensures { result ≡ word_in (map row_of rows.now) numbers.now (map capital text.now) }
{
    for number in numbers {
        if let Some(word) = word_of_row(rows, *number, text) {
            return Some(word);
        }
    }
    None
}

// The word of the row of this number, where it is spelled as the characters are.
fn word_of_row(rows: &[WordEntry], number: u16, text: &Characters) -> Option<Word>
    ensures { result ≡ word_of_row (slice_get (map row_of rows.now) number) (map capital text.now) }
{
    let row = rows.get(usize::from(number))?;
    if is_same(row.0.as_bytes(), text) {
        Some(row.1)
    } else {
        None
    }
}

// Whether a spelling is that of the characters, in letters of any case.
fn is_same(spelling: &[u8], text: &Characters) -> bool
    ensures { result ≡ same spelling.now (map capital text.now) }
{
    if spelling.len() != text.len() {
        return false;
    }
    for (i, c) in spelling.iter().enumerate() {
        if *c != capital(text.at(i)) {
            return false;
        }
    }
    true
}

// A character as a capital letter, where it's a small one.
fn capital(c: u8) -> u8
    ensures { result ≡ capital c }
{
    if c >= b'a' && c <= b'z' { c - 32 } else { c }
}

/// Characters spell at most one word, and each spelling of a word is read as it.
pub fn one_word()
    ensures read { (word : word_type.Word) (text : List ℕ)
        → 0 < length text → IsTrue (is_spelled word (map capital text)) → word_spelled text ≡ Some word }
    ensures spelled { (word : word_type.Word) (text : List ℕ)
        → word_spelled text ≡ Some word → IsTrue (is_spelled word (map capital text)) }
{}

/// The reserved words are those that no name of a tree may be: a text in capitals that begins like a name is reserved
/// there exactly where it spells a word.
pub fn reserved_words()
    ensures { (name : List ℕ) → IsTrue (begins_name name) → map capital name ≡ name
        → (word_spelled name ≡ None) ↔ (is_reserved name ≡ false) }
{}
