// A place among the tokens of a file.
ghost use Rattle.std.specs.Prelude.{◌≡◌, ℕ, List, ◌∷◌, ◌+◌, ◌≤◌, ◌↔◌, IsTrue, IfOk, if◌then◌else◌, Some, None, length, map};
ghost use Rattle.p8_lexer.specs.Words.{capital};
ghost use Rattle.p8_grammar.specs.Lexemes.{name_in};
ghost use Rattle.p8_grammar.specs.Machine.{loose};
ghost use Rattle.p8_grammar.specs.Views.{lexeme_of};
ghost use Rattle.p8_expr.specs.Words.{between_quotes};
ghost use Rattle.p8_expr.specs.Cursors.{moved, token_there, word_there, end_place, place_there, text_there, lexeme_there};
ghost use Rattle.p8_expr.specs.Views.{is_lettered};

use crate::words::{between_quotes, capitals, lexeme};
use p8_grammar::Lexeme;
use p8_lexer::{Characters, Token, TokenKind, Tokens, Word, word_of};
use p8_tree::{Place, Text};
use std::alloc::{AllocError, Global};
use std::marker::Model;

/// Where a reader stands in a file: before a token, at the text's end behind the last one, or past that.
///
/// At the text's end stands what ends a line, at the place of the last token. Contracts see a cursor as a spot: the file's
/// bytes, its tokens, and the number of the token.
#[derive(Drop)]
pub struct TokenCursor<'a> {
    bytes: &'a [u8],
    tokens: &'a [Token],
    at: usize,
}

impl<'a> Model for TokenCursor<'a> {
    ghost use Rattle.p8_expr.specs.Cursors.{Spot};

    ghost Value = { Spot };

    ghost view = { λ c. record { bytes = c.bytes.now; tokens = c.tokens.now; at = c.at } };
}

impl<'a> TokenCursor<'a> {
    /// A cursor before the token of this number, of a file of these bytes.
    pub fn new(bytes: &'a [u8], tokens: &'a Tokens, at: usize) -> TokenCursor<'a>
        ensures bytes { result.bytes ≡ bytes.now }
        ensures tokens { result.tokens ≡ tokens.now }
        ensures at { result.at ≡ at }
    {
        TokenCursor {
            bytes,
            tokens: tokens.as_slice(),
            at,
        }
    }

    /// Another cursor before the same token.
    pub fn copied(&self) -> TokenCursor<'a>
        ensures { result ≡ self.now }
    {
        TokenCursor {
            bytes: self.bytes,
            tokens: self.tokens,
            at: self.at,
        }
    }

    /// The file.
    pub fn bytes(&self) -> &'a [u8]
        ensures { result.now ≡ self.now.bytes }
    {
        self.bytes
    }

    /// The number of the token before which it stands.
    pub fn at(&self) -> usize
        ensures { result ≡ self.now.at }
    {
        self.at
    }

    /// Whether no token is left.
    pub fn is_at_end(&self) -> bool
        ensures { IsTrue result ↔ (length self.now.tokens ≤ self.now.at) }
    {
        self.tokens.len() <= self.at
    }

    /// The token before which it stands, if one is left.
    pub fn token(&self) -> Option<Token>
        ensures { result ≡ token_there self.now }
    {
        self.tokens.get(self.at).copied()
    }

    /// What that is to a reader of Spin.
    pub fn word(&self) -> Word
        ensures { result ≡ word_there self.now }
    {
        match self.token() {
            Some(token) => word_of(self.bytes, &token),
            None => Word::LineEnd,
        }
    }

    /// The place of that.
    pub fn place(&self) -> Place
        ensures { result ≡ place_there self.now }
    {
        match self.token() {
            Some(token) => token.place,
            None => end_place(self.tokens),
        }
    }

    /// Goes past the token, or past the text's end.
    pub fn advance(&mut self)
        requires { self.old.at ≤ length self.old.tokens }
        ensures { self.new ≡ moved self.old (self.old.at + 1) }
    {
        self.at = self.tokens.len().min(self.at) + 1;
    }

    /// Goes to the token of another number.
    pub fn go_to(&mut self, at: usize)
        ensures { self.new ≡ moved self.old at }
    {
        self.at = at;
    }

    /// What it is to an expression, but for its characters.
    pub fn lexeme(&self) -> Lexeme
        ensures { loose (lexeme_there self.now) ≡ lexeme_of (map capital (text_there self.now)) (between_quotes (text_there self.now)) result }
    {
        match self.token() {
            Some(token) => lexeme(self.bytes, &token),
            None => Lexeme::Other,
        }
    }

    // Its characters.
    fn text(&self) -> Characters<'a>
        ensures { result ≡ text_there self.now }
    {
        match self.token() {
            Some(token) => Characters::of_token(self.bytes, &token),
            None => Characters::of_text(&[]),
        }
    }

    /// How many characters it has between its quotes.
    pub fn quoted_length(&self) -> usize
        ensures { result ≡ length (between_quotes (text_there self.now)) }
    {
        self.text().len().saturating_sub(2)
    }

    /// Its characters in capitals.
    pub fn name(&self, alloc: Global) -> Result<Text, AllocError>
        ensures { IfOk result (λ t. t ≡ map capital (text_there self.now)) }
    {
        capitals(alloc, &self.text())
    }

    /// Its characters in capitals behind a colon: the name of a local label.
    pub fn label(&self, alloc: Global) -> Result<Text, AllocError>
        ensures { IfOk result (λ t. t ≡ 58 ∷ map capital (text_there self.now)) }
    {
        let mut bytes = self.name(alloc)?.into_vec();
        bytes.insert(0, b':')?;
        Ok(Text::from_vec(bytes))
    }

    /// Its characters between its quotes.
    pub fn quoted(&self, alloc: Global) -> Result<Text, AllocError>
        ensures { IfOk result (λ t. t ≡ between_quotes (text_there self.now)) }
    {
        between_quotes(alloc, &self.text())
    }

    /// Whether it is a name behind the colon of a local label: there any word of letters is one.
    pub fn is_label(&self) -> bool
        ensures { name_in (lexeme_there self.now) ≡ (if result then Some (map capital (text_there self.now)) else None) }
    {
        let meaning = self.lexeme();
        match self.token() {
            Some(token) => match token.kind {
                TokenKind::Name => is_of_letters(meaning),
                _ => matches!(meaning, Lexeme::Name),
            },
            None => false,
        }
    }
}

// Whether a word of letters may mean this.
fn is_of_letters(lexeme: Lexeme) -> bool
    ensures { (n t : List ℕ) → result ≡ is_lettered (lexeme_of n t lexeme) }
{
    match lexeme {
        Lexeme::Mark(_) | Lexeme::Sign(_, _) | Lexeme::Assigns(_) | Lexeme::ObjectAddress => false,
        _ => true,
    }
}

// The place of the text's end: the last token's, or the text's first one.
fn end_place(tokens: &[Token]) -> Place
    ensures { result ≡ end_place tokens.now }
{
    match tokens.get(tokens.len().saturating_sub(1)) {
        Some(token) => token.place,
        None => Place { line: 1, column: 1 },
    }
}
