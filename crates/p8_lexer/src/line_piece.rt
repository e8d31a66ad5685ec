// Pieces.
ghost use Rattle.std.specs.Prelude.{◌≡◌};

use crate::word::Word;
use p8_tree::{Expr, Place, Text};

/// A piece of a line of a source.
#[derive(Drop)]
pub enum Piece {
    /// A symbol, a reserved word or the end of the line, with its place.
    Word(Word, Place),
    /// A name that isn't reserved, in capitals, with its place.
    Name(Text, Place),
    /// The word behind the colon of a local label, reserved or not, in capitals, with its place.
    Label(Text, Place),
    /// A string's characters, with the place of its first quote.
    Text(Text, Place),
    /// An expression, with the place of its first token.
    Tree(Expr, Place),
}

/// Lets go of a value, as of a piece that can't stand where it does, and gives this answer.
pub fn discarding<T: Drop, A>(unused: T, answer: A) -> A
    ensures { result ≡ answer }
{
    drop(unused);
    answer
}
