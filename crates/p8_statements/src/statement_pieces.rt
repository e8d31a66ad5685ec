// A row of pieces that is read from the left.
ghost use Rattle.std.specs.Prelude.{◌≡◌, [], ◌∷◌, MatchOption, option_map};
ghost use Rattle.p8_tree.specs.Views.{tree_of};
ghost use Rattle.p8_lexer.specs.Pieces.{piece_of, pieces_of, tree};
ghost use Rattle.p8_statements.specs.Rows.{sign, word_in, phrase, is_empty, is_end, ended, ends, value_in};
ghost use Rattle.p8_statements.specs.Views.{rest_of, reading, phrase_of};

use crate::role::{Role, role_of};
use p8_lexer::{Piece, Word, discarding};
use p8_tree::{Expr, Place};
use std::vec::IntoIter;

/// What a word is to a statement, with its place.
#[derive(Clone, Copy)]
pub struct Sign {
    pub role: Role,
    pub place: Place,
}

impl Sign {
    pub fn new(word: Word, place: Place) -> Sign
        ensures { result ≡ sign word place }
    {
        Sign {
            role: role_of(word),
            place,
        }
    }
}

/// An expression, and the word after it.
#[derive(Drop)]
pub struct Phrase {
    pub tree: Expr,
    pub behind: Role,
}

/// What is left of a row.
#[derive(Drop)]
pub struct StatementPieces {
    pieces: IntoIter<Piece>,
}

impl StatementPieces {
    pub fn new(pieces: Vec<Piece>) -> StatementPieces
        ensures { rest_of result ≡ pieces_of pieces.items }
    {
        StatementPieces {
            pieces: pieces.into_iter(),
        }
    }

    // The next piece.
    pub fn next(&mut self) -> Option<Piece>
        ensures { MatchOption result (rest_of self.old ≡ []) (λ x. rest_of self.old ≡ piece_of x ∷ rest_of self.new) }
    {
        self.pieces.next()
    }

    // Whether nothing is left.
    pub fn is_empty(&self) -> bool
        ensures { result ≡ is_empty (rest_of self.now) }
    {
        self.pieces.len() == 0
    }

    // Whether the line ends with this word, with nothing after it.
    pub fn is_end(&self, role: Role) -> bool
        ensures { result ≡ is_end role (rest_of self.now) }
    {
        role.is_line_end() && self.is_empty()
    }

    // Whether the line ends here.
    pub fn ends(&mut self) -> bool
        ensures { result ≡ ends (rest_of self.old) }
    {
        match self.word() {
            Some(sign) => self.is_end(sign.role),
            None => false,
        }
    }

    pub fn word(&mut self) -> Option<Sign>
        ensures { reading (λ s. s) result self.new ≡ word_in (rest_of self.old) }
    {
        match self.next()? {
            Piece::Word(word, place) => Some(Sign::new(word, place)),
            other => discarding(other, None),
        }
    }

    // An expression, and the word after it.
    pub fn phrase(&mut self) -> Option<Phrase>
        ensures { reading phrase_of result self.new ≡ phrase (rest_of self.old) }
    {
        match self.next()? {
            Piece::Tree(tree, place) => self.with_word(tree, place),
            other => discarding(other, None),
        }
    }

    // This expression, and the word after it.
    fn with_word(&mut self, value: Expr, place: Place) -> Option<Phrase>
        ensures { reading phrase_of result self.new ≡ phrase (tree (tree_of value) place ∷ rest_of self.old) }
    {
        match self.word() {
            Some(sign) => Some(Phrase {
                tree: value,
                behind: sign.role,
            }),
            None => discarding(value, None),
        }
    }

    // An expression up to the end of the line.
    pub fn value(&mut self) -> Option<Expr>
        ensures { option_map tree_of result ≡ value_in (rest_of self.old) }
    {
        let Phrase { tree, behind } = self.phrase()?;
        self.ended(tree, behind)
    }

    // This expression, where the line ends with this word.
    fn ended(&self, value: Expr, role: Role) -> Option<Expr>
        ensures { option_map tree_of result ≡ ended (tree_of value) role (rest_of self.now) }
    {
        if self.is_end(role) {
            Some(value)
        } else {
            drop(value);
            None
        }
    }
}
