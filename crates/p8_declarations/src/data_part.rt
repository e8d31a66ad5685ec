// What a piece is to a line of DAT.
ghost use Rattle.std.specs.Prelude.{◌≡◌};
ghost use Rattle.p8_lexer.specs.Pieces.{piece_of};
ghost use Rattle.p8_declarations.specs.DataParts.{part_of_word, part_of_piece, place_of};
ghost use Rattle.p8_declarations.specs.DataViews.{part_of};

use p8_lexer::{Meaning, Piece, Word};
use p8_tree::{Expr, Place, Text};

// A part of a line of DAT.
#[derive(Drop)]
pub enum Part {
    LineEnd,
    Colon(Place),
    Comma,
    Hash,
    LeftBracket,
    RightBracket,
    // BYTE, WORD or LONG, and how many bytes that is.
    Size(u8, Place),
    Org(Place),
    Res(Place),
    Fit(Place),
    // A condition's four bits.
    Condition(u8),
    // An effect's bit.
    Effect(u8),
    // JMP.
    Jump(Place),
    // Any other word, as that of an instruction.
    Other(Word, Place),
    Name(Text, Place),
    // The word behind a local label's colon.
    Label(Text, Place),
    Text(Text, Place),
    Tree(Expr, Place),
}

// What a word is.
#[tactic(auto, unfolding(crate::specs::DataParts::part_of_word))]
fn part_of_word(word: Word, place: Place) -> Part
    ensures { part_of result ≡ part_of_word word place }
{
    match word {
        Word::LineEnd => Part::LineEnd,
        Word::Colon => Part::Colon(place),
        Word::Comma => Part::Comma,
        Word::Hash => Part::Hash,
        Word::LeftBracket => Part::LeftBracket,
        Word::RightBracket => Part::RightBracket,
        Word::ByteSize => Part::Size(1, place),
        Word::WordSize => Part::Size(2, place),
        Word::LongSize => Part::Size(4, place),
        Word::Org => Part::Org(place),
        Word::Res => Part::Res(place),
        Word::Fit => Part::Fit(place),
        Word::Jmp => Part::Jump(place),
        _ => match word.meaning() {
            Meaning::Condition(bits) => Part::Condition(bits),
            Meaning::Effect(bit) => Part::Effect(bit),
            _ => Part::Other(word, place),
        },
    }
}

// What a piece is.
pub fn part_of_piece(piece: Piece) -> Part
    ensures { part_of result ≡ part_of_piece (piece_of piece) }
{
    match piece {
        Piece::Word(word, place) => part_of_word(word, place),
        Piece::Name(name, place) => Part::Name(name, place),
        Piece::Label(name, place) => Part::Label(name, place),
        Piece::Text(text, place) => Part::Text(text, place),
        Piece::Tree(tree, place) => Part::Tree(tree, place),
    }
}

// Where a piece stands.
pub fn place_of(piece: &Piece) -> Place
    ensures { result ≡ place_of (piece_of piece.now) }
{
    match piece {
        Piece::Word(_, place) => *place,
        Piece::Name(_, place) => *place,
        Piece::Label(_, place) => *place,
        Piece::Text(_, place) => *place,
        Piece::Tree(_, place) => *place,
    }
}
