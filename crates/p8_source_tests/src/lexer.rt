// Worked values of the lexer.
use p8_lexer::{Place, Word, lex, word_of};
use p8_tree::refusal_name;
use p8_words::Fail;
use std::alloc::Global;

/// Files, the number of the refusal of each, and its line and column.
static REFUSED: [(&[u8], u8, u32, u32); 5] = [
    (b"  4_294_967_296", 2, 1, 3),
    (b"{\r\r\n\n\t}}", 1, 4, 10),
    (b"\xff\xfea\x00b", 1, 1, 2),
    // The mark of UTF-8 has no place, and is none anywhere else.
    (b"\xef\xbb\xbfa \xef", 1, 1, 3),
    (b"\xef\xbb\xbf\xef\xbb\xbf", 1, 1, 1),
];

/// Whether a file is refused so.
fn is_refused(alloc: Global, bytes: &[u8], number: u8, place: Place) -> bool {
    match lex(alloc, bytes) {
        Err(Fail::Refused(fault)) => fault.number == number && fault.place == place,
        _ => false,
    }
}

#[test]
fn refuses_at_the_first_place(rt: HostRuntime) {
    let mut all = true;
    for (bytes, number, line, column) in &REFUSED {
        let place = Place {
            line: *line,
            column: *column,
        };
        all = all && is_refused(rt.alloc(), bytes, *number, place);
    }
    assert!(rt; all);
}

/// Files and the words of their tokens.
static WORDS: [(&[u8], &[Word]); 4] = [
    (
        b"x<-$1.5",
        &[
            Word::Name,
            Word::RotateLeft,
            Word::Number,
            Word::Dot,
            Word::Number,
        ],
    ),
    (
        b"if_nz_and_c IF_Z if",
        &[Word::IfCAndNz, Word::IfE, Word::If],
    ),
    (
        b"1.5\"a\"\n",
        &[Word::FloatNumber, Word::Str, Word::LineEnd],
    ),
    (
        b"\xef\xbb\xbfPUB \"\xef\xbb\xbf\" '\xef\xbb\xbf",
        &[Word::Pub, Word::Str],
    ),
];

/// Whether a file has tokens that are these words.
fn has_words(alloc: Global, bytes: &[u8], words: &[Word]) -> bool {
    let Ok(tokens) = lex(alloc, bytes) else {
        return false;
    };
    let mut all = tokens.len() == words.len();
    for (token, word) in tokens.as_slice().iter().zip(words) {
        all = all && word_of(bytes, token) == *word;
    }
    all
}

#[test]
fn reads_words(rt: HostRuntime) {
    let mut all = true;
    for (bytes, words) in &WORDS {
        all = all && has_words(rt.alloc(), bytes, words);
    }
    assert!(rt; all);
}

#[test]
fn names_refusals_and_words(rt: HostRuntime) {
    let has_refusals = refusal_name(1) == "BadByte"
        && refusal_name(31) == "NotCharacter"
        && refusal_name(32) == "";
    let has_symbols = Word::symbol(0) == Some(Word::PlusPlus)
        && Word::Assign.symbol_number() == Some(34)
        && Word::Con.symbol_number() == None;
    assert!(rt; has_refusals && has_symbols && Word::Andn.spelling() == "ANDN");
}
