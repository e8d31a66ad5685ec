// The parts of a line.
ghost use Rattle.std.specs.Prelude.{◌≡◌, ◌↔◌, IsTrue};
ghost use Rattle.p8_lexer.specs.Pieces.{piece_of, pieces_of};
ghost use Rattle.p8_declarations.specs.Parts.{line_end, colon, right_bracket, part_of_word, part_of_piece, parts, is_line_end};
ghost use Rattle.p8_declarations.specs.Views.{part_of};

use p8_lexer::{Piece, Word, discarding};
use p8_tree::{Expr, Place, Text};

/// A piece of a line, as declarations tell it apart.
#[derive(Drop)]
pub enum Part {
    LineEnd,
    Comma,
    /// `=`
    Equals,
    Hash(Place),
    Colon,
    /// `|`
    Bar,
    LeftParenthesis,
    RightParenthesis,
    LeftBracket,
    RightBracket,
    /// `BYTE`, `WORD` or `LONG`, in bytes.
    Size(u8),
    Name(Text, Place),
    Text(Text, Place),
    Tree(Expr),
    /// No part of a declaration.
    Other,
}

impl Part {
    /// The part that a piece is.
    pub fn of_piece(piece: Piece) -> Part
        ensures { part_of result ≡ part_of_piece (piece_of piece) }
    {
        match piece {
            Piece::Word(word, place) => Part::of_word(word, place),
            Piece::Name(name, place) => Part::Name(name, place),
            Piece::Label(name, _) => discarding(name, Part::Other),
            Piece::Text(text, place) => Part::Text(text, place),
            Piece::Tree(tree, _) => Part::Tree(tree),
        }
    }

    /// The part that a symbol, a reserved word or the end of the line is.
    #[tactic(auto, unfolding(crate::specs::Parts::part_of_word))]
    pub fn of_word(word: Word, place: Place) -> Part
        ensures { part_of result ≡ part_of_word word place }
    {
        match word {
            Word::LineEnd => Part::LineEnd,
            Word::Comma => Part::Comma,
            Word::EqualSign => Part::Equals,
            Word::Hash => Part::Hash(place),
            Word::Colon => Part::Colon,
            Word::BitOr => Part::Bar,
            Word::LeftParenthesis => Part::LeftParenthesis,
            Word::RightParenthesis => Part::RightParenthesis,
            Word::LeftBracket => Part::LeftBracket,
            Word::RightBracket => Part::RightBracket,
            Word::ByteSize => Part::Size(1),
            Word::WordSize => Part::Size(2),
            Word::LongSize => Part::Size(4),
            _ => Part::Other,
        }
    }

    /// Whether it is the end of the line.
    pub fn is_line_end(self) -> bool
        ensures { IsTrue result ↔ (part_of self ≡ line_end) }
    {
        match self {
            Part::LineEnd => true,
            other => discarding(other, false),
        }
    }

    /// Whether it is `:`.
    pub fn is_colon(self) -> bool
        ensures { IsTrue result ↔ (part_of self ≡ colon) }
    {
        match self {
            Part::Colon => true,
            other => discarding(other, false),
        }
    }

    /// Whether it is `]`.
    pub fn is_right_bracket(self) -> bool
        ensures { IsTrue result ↔ (part_of self ≡ right_bracket) }
    {
        match self {
            Part::RightBracket => true,
            other => discarding(other, false),
        }
    }
}

/// Whether pieces are the end of a line alone.
pub fn is_line_end(pieces: &[Piece]) -> bool
    ensures { result ≡ is_line_end (parts (pieces_of pieces.now)) }
{
    match pieces {
        [Piece::Word(word, place)] => Part::of_word(*word, *place).is_line_end(),
        _ => false,
    }
}
