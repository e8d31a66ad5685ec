// Tokens.

ghost use Rattle.std.specs.Prelude.{◌≡◌, IsTrue, ◌↔◌, [], length, slice_get};

use p8_tree::Place;
use std::marker::Model;

/// What a token is.
#[derive(Clone, Copy, Debug, PartialEq, Eq)]
pub enum TokenKind {
    /// a name or a reserved word, in letters of any case
    Name,
    /// a number of 32 bits, in any of the four ways to write one
    Number(u32),
    /// a floating-point number
    Float,
    /// a string, with its quotes
    Str,
    /// the symbol of this number: [`Word`](crate::Word) says which
    Symbol(u8),
    /// the end of a line
    LineEnd,
}

/// A token of a file.
///
/// It is made of the bytes from `begin` up to `end` of the file, in the encoding of the file.
#[derive(Clone, Copy, Debug, PartialEq, Eq)]
pub struct Token {
    pub place: Place,
    pub kind: TokenKind,
    pub begin: usize,
    pub end: usize,
}

/// The tokens of a file, in their order.
#[derive(Debug, Drop)]
pub struct Tokens {
    items: Vec<Token>,
}

impl Model for Tokens {
    ghost use Rattle.std.specs.Prelude.{List};
    ghost use Rattle.p8_lexer.specs.declared.token.Token.{Token};

    ghost Value = { List Token };

    ghost view = { λ tokens. tokens.items.items };
}

impl Tokens {
    /// Tokens that are these, in this order.
    pub fn new(items: Vec<Token>) -> Tokens
        ensures { result ≡ items.items }
    {
        Tokens { items }
    }

    /// The tokens, as a vector.
    pub fn into_vec(self) -> Vec<Token>
        ensures { result.items ≡ self }
    {
        let Tokens { items } = self;
        items
    }

    /// How many tokens there are.
    pub fn len(&self) -> usize
        ensures { result ≡ length self.now }
    {
        self.items.len()
    }

    /// Whether there is no token.
    pub fn is_empty(&self) -> bool
        ensures { IsTrue result ↔ (self.now ≡ []) }
    {
        self.items.is_empty()
    }

    /// The token of this number, counted from 0; None where there are no more than that.
    pub fn get(&self, at: usize) -> Option<Token>
        ensures { result ≡ slice_get self.now at }
    {
        self.items.get(at).copied()
    }

    /// All the tokens.
    pub fn as_slice(&self) -> &[Token]
        ensures { result.now ≡ self.now }
    {
        &self.items
    }
}
