// What is left of a row of pieces.
ghost use Rattle.std.specs.Prelude.{◌≡◌, [], ◌∷◌, length, MatchOption};
ghost use Rattle.std.specs.Vec.Iter.{into_iter_items, into_iter_len};

use crate::data_part::{Part, part_of_piece};
use p8_lexer::Piece;
use std::vec::IntoIter;

// The pieces of a row that aren't read yet.
#[derive(Drop)]
pub struct DataPieces {
    pub pieces: IntoIter<Piece>,
    pub ghost counted: { into_iter_len pieces ≡ length (into_iter_items pieces) },
}

impl DataPieces {
    ghost use Rattle.p8_lexer.specs.Pieces.{pieces_of};
    ghost use Rattle.p8_declarations.specs.DataParts.{parts};
    ghost use Rattle.p8_declarations.specs.DataViews.{part_of, rest};

    // The whole row.
    pub fn new(pieces: Vec<Piece>) -> DataPieces
        ensures { rest result ≡ parts (pieces_of pieces.items) }
    {
        DataPieces {
            pieces: pieces.into_iter(),
        }
    }

    // The part that stands next; none before the line's end.
    pub fn next(&mut self) -> Option<Part>
        ensures { MatchOption result (rest self.old ≡ []) (λ x. rest self.old ≡ part_of x ∷ rest self.new) }
    {
        match part_of_piece(self.pieces.next()?) {
            Part::LineEnd => None,
            other => Some(other),
        }
    }
}
