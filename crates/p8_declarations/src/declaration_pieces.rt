// A row of pieces that is read from its first piece on.
ghost use Rattle.std.specs.Prelude.{◌≡◌, ◌<◌, ◌↔◌, ℕ, IsTrue, IfSome, [], ◌∷◌, MatchOption, false, length};
ghost use Rattle.std.specs.Bool.{OnTrue};
ghost use Rattle.p8_tree.specs.Views.{tree_of};
ghost use Rattle.p8_lexer.specs.Pieces.{pieces_of};
ghost use Rattle.p8_declarations.specs.Parts.{Part, line_end, colon, right_bracket, size, name, text, tree, parts};
ghost use Rattle.p8_declarations.specs.Constants.{constants, constants_behind};
ghost use Rattle.p8_declarations.specs.Variables.{variables, variables_behind};
ghost use Rattle.p8_declarations.specs.Views.{part_of, parts_in, continued, has_value, has_right_bracket, has_count};
ghost use Rattle.p8_declarations.specs.Views.{has_size, has_name, has_colon, has_text, has_file, behind_of, is_end};

use crate::part::Part;
use p8_lexer::{Piece, discarding};
use p8_tree::{Expr, Place, Text};
use std::alloc::Global;
use std::vec::IntoIter;

/// The pieces of a row that are still to come.
#[derive(Drop)]
pub struct DeclarationPieces {
    pieces: IntoIter<Piece, Global>,
}

impl DeclarationPieces {
    /// A row that is read from its first piece on.
    pub fn new(pieces: Vec<Piece>) -> DeclarationPieces
        ensures { parts_in result ≡ parts (pieces_of pieces.items) }
    {
        DeclarationPieces {
            pieces: pieces.into_iter(),
        }
    }

    /// Takes the next piece.
    pub fn next(&mut self) -> Option<Part>
        ensures { MatchOption result (parts_in self.old ≡ []) (λ x. parts_in self.old ≡ part_of x ∷ parts_in self.new) }
    {
        let piece = self.pieces.next()?;
        Some(Part::of_piece(piece))
    }

    /// Whether no piece is left.
    pub fn is_over(&self) -> bool
        ensures { IsTrue result ↔ (parts_in self.now ≡ []) }
    {
        self.pieces.len() == 0
    }

    /// Takes an expression.
    pub fn value(&mut self) -> Option<Expr>
        ensures { MatchOption result (has_value (parts_in self.old) ≡ false) (λ e. parts_in self.old ≡ tree (tree_of e) ∷ parts_in self.new) }
    {
        match self.next()? {
            Part::Tree(value) => Some(value),
            other => discarding(other, None),
        }
    }

    /// Takes an expression and the bracket after it.
    pub fn count(&mut self) -> Option<Expr>
        ensures { MatchOption result (has_count (parts_in self.old) ≡ false) (λ e. parts_in self.old ≡ tree (tree_of e) ∷ right_bracket ∷ parts_in self.new) }
    {
        let count = self.value()?;
        if self.right_bracket() {
            Some(count)
        } else {
            drop(count);
            None
        }
    }

    // Takes a piece, and says whether it is `]`.
    fn right_bracket(&mut self) -> bool
        ensures is { OnTrue result (parts_in self.old ≡ right_bracket ∷ parts_in self.new) }
        ensures begins { result ≡ has_right_bracket (parts_in self.old) }
    {
        match self.next() {
            Some(part) => part.is_right_bracket(),
            None => false,
        }
    }

    /// Takes a piece, and says whether it is `:`.
    pub fn colon(&mut self) -> bool
        ensures is { OnTrue result (parts_in self.old ≡ colon ∷ parts_in self.new) }
        ensures begins { result ≡ has_colon (parts_in self.old) }
    {
        match self.next() {
            Some(part) => part.is_colon(),
            None => false,
        }
    }

    /// Takes a size, in bytes.
    pub fn size(&mut self) -> Option<u8>
        ensures { MatchOption result (has_size (parts_in self.old) ≡ false) (λ s. parts_in self.old ≡ size s ∷ parts_in self.new) }
    {
        match self.next()? {
            Part::Size(size) => Some(size),
            other => discarding(other, None),
        }
    }

    /// Takes a name.
    pub fn name(&mut self) -> Option<(Text, Place)>
        ensures { MatchOption result (has_name (parts_in self.old) ≡ false) (λ x. parts_in self.old ≡ name x.0 x.1 ∷ parts_in self.new) }
    {
        match self.next()? {
            Part::Name(name, place) => Some((name, place)),
            other => discarding(other, None),
        }
    }

    /// Takes a string and the end of the line.
    pub fn file(&mut self) -> Option<(Text, Place)>
        ensures { MatchOption result (has_file (parts_in self.old) ≡ false) (λ x. parts_in self.old ≡ text x.0 x.1 ∷ line_end ∷ []) }
    {
        let (file, place) = self.text()?;
        if self.is_at_end() {
            Some((file, place))
        } else {
            None
        }
    }

    // Takes a string.
    fn text(&mut self) -> Option<(Text, Place)>
        ensures { MatchOption result (has_text (parts_in self.old) ≡ false) (λ x. parts_in self.old ≡ text x.0 x.1 ∷ parts_in self.new) }
    {
        match self.next()? {
            Part::Text(text, place) => Some((text, place)),
            other => discarding(other, None),
        }
    }

    // Takes a piece, and says whether it is the end of the line and the last one.
    fn is_at_end(&mut self) -> bool
        ensures { IsTrue result ↔ (parts_in self.old ≡ line_end ∷ []) }
    {
        match self.next() {
            Some(part) => part.is_line_end() && self.is_over(),
            None => false,
        }
    }

    /// Takes what may stand after an item.
    pub fn behind(&mut self) -> Option<Behind>
        ensures constants { constants_behind (parts_in self.old) ≡ continued result (constants (parts_in self.new)) }
        ensures variables { (s : ℕ) → variables_behind s (parts_in self.old) ≡ continued result (variables s (parts_in self.new)) }
        ensures shorter { IfSome result (λ b. length (parts_in self.new) < length (parts_in self.old)) }
    {
        let part = self.next()?;
        self.behind_at(part)
    }

    // What stands after an item where it is this piece that was taken.
    fn behind_at(&self, part: Part) -> Option<Behind>
        ensures { result ≡ behind_of (part_of part) (parts_in self.now) }
    {
        match part {
            Part::Comma => Some(Behind::Comma),
            Part::LineEnd => self.end(),
            other => discarding(other, None),
        }
    }

    /// What stands after the end of the line, where nothing does.
    pub fn end(&self) -> Option<Behind>
        ensures { result ≡ behind_of line_end (parts_in self.now) }
    {
        if self.is_over() {
            Some(Behind::End)
        } else {
            None
        }
    }
}

/// What stands after an item.
#[derive(Clone, Copy)]
pub enum Behind {
    /// A comma, and then another item.
    Comma,
    /// The end of the line, and nothing else.
    End,
}

impl Behind {
    /// Whether it is the end of the line.
    pub fn is_end(self) -> bool
        ensures { result ≡ is_end self }
    {
        match self {
            Behind::Comma => false,
            Behind::End => true,
        }
    }
}
