// What a text is cut into.

ghost use Rattle.std.specs.Prelude.{◌≡◌};
ghost use Rattle.p8_lexer.specs.declared.piece.PieceKind.TheVariants as piece;

use crate::token::TokenKind;

/// A kind of piece.
#[derive(Clone, Copy)]
pub enum PieceKind {
    /// spaces and tabs
    Blank,
    /// from `'` to the line's end
    LineComment,
    /// braces, one in another
    Comment,
    /// from `{{` to the first `}}`
    DocComment,
    /// a token of this kind
    Token(TokenKind),
}

/// How the digits of a number are written.
#[derive(Clone, Copy)]
pub enum Radix {
    Binary,
    Quaternary,
    Decimal,
    Hexadecimal,
}

/// A class of characters.
#[derive(Clone, Copy)]
pub enum Class {
    /// space and tab
    Blank,
    /// letters, digits and `_`
    Name,
    /// what a string may have inside
    Quoted,
    /// what doesn't end a line
    Line,
    /// digits of this kind, and `_`
    Digits(Radix),
}

/// A piece that begins a text: its kind, and how many characters it has.
#[derive(Clone, Copy)]
pub struct Cut {
    pub kind: PieceKind,
    pub length: usize,
}

impl Cut {
    /// A token that begins a text.
    pub fn token(kind: TokenKind, length: usize) -> Cut
        ensures { result ≡ record { kind = piece.Token kind; length = length } }
    {
        Cut {
            kind: PieceKind::Token(kind),
            length,
        }
    }
}
