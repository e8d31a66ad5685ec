// Where a reader of an expression is.
ghost use Rattle.std.specs.Prelude.{◌≡◌, ◌≤◌, length, IsTrue, ◌↔◌};
ghost use Rattle.p8_grammar.specs.Lexemes.{mark as mark_word, equal};
ghost use Rattle.p8_grammar.specs.Views.{mark_of};
ghost use Rattle.p8_expr.specs.Cursors.{place_at};
ghost use Rattle.p8_expr.specs.Lookaheads.{Fits, HasNext, IsBehind};

use crate::token_cursor::TokenCursor;
use p8_grammar::{Lexeme, Punctuation, Setting};
use p8_tree::Place;

/// Where a reader of an expression is: before a token, of which it knows what it is to an expression that stands in this
/// setting.
#[derive(Drop)]
pub struct Lookahead<'a> {
    pub here: TokenCursor<'a>,
    pub lexeme: Lexeme,
    pub setting: Setting,
}

impl<'a> Lookahead<'a> {
    /// Where the cursor stands, in a setting.
    pub fn new(here: TokenCursor<'a>, setting: Setting) -> Lookahead<'a>
        requires { here.at ≤ length here.tokens }
        ensures { Fits result × (result.here ≡ here.entry) × (result.setting ≡ setting) }
    {
        let lexeme = here.lexeme();
        Lookahead {
            here,
            lexeme,
            setting,
        }
    }

    /// Goes past the next token, if there is one.
    pub fn advance(&mut self)
        requires { Fits self.old }
        ensures { IsBehind self.old self.new }
    {
        if !self.here.is_at_end() {
            self.here.advance();
        }
        self.lexeme = self.here.lexeme();
    }

    /// Stands in another setting from now on.
    pub fn stand_in(&mut self, setting: Setting)
        ensures { (self.new.here ≡ self.old.here) × (self.new.lexeme ≡ self.old.lexeme) × (self.new.setting ≡ setting) }
    {
        self.setting = setting;
    }

    /// The place of the next token.
    pub fn place(&self) -> Place
        ensures { result ≡ place_at self.now.here.tokens self.now.here.at }
    {
        self.here.place()
    }

    /// Whether `=` is next.
    pub fn has_equal(&self) -> bool
        requires { Fits self.now }
        ensures { IsTrue result ↔ HasNext self.now (mark_word equal) }
    {
        match self.lexeme {
            Lexeme::Mark(mark) => is_equal(mark),
            _ => false,
        }
    }
}

fn is_equal(mark: Punctuation) -> bool
    ensures { IsTrue result ↔ (mark_of mark ≡ equal) }
{
    match mark {
        Punctuation::Equal => true,
        _ => false,
    }
}
