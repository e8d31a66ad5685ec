// The first token of a line.
ghost use Rattle.std.specs.Prelude.{◌≡◌, ◌<◌, ◌↔◌, IsTrue, MatchOption, length};
ghost use Rattle.p8_lexer.specs.declared.word.Word.TheVariants as word_case;
ghost use Rattle.p8_lines.specs.Tokens.{left, left_behind};
ghost use Rattle.p8_blocks.specs.Reading.{is_begun};
ghost use Rattle.p8_blocks.specs.Standing.{IsHeadAt, Starts, word_of_head};

use crate::words::{BlockWord, head_of};
use p8_expr::TokenCursor;
use p8_lexer::Word;
use p8_tree::Place;

/// What is known of the first token of a line.
#[derive(Clone, Copy)]
pub struct First {
    pub word: Word,
    pub place: Place,
    /// Where the line begins. After the colon of a `CASE`'s item that is where the item begins.
    pub begin: Place,
    /// Whether it goes on after the colon of a `CASE`'s item.
    pub begun: bool,
}

// Whether a line of the text is begun, after the colon of a `CASE`'s item.
fn is_begun(begun: Option<Place>) -> bool
    ensures { result ≡ is_begun begun }
{
    match begun {
        Some(_) => true,
        None => false,
    }
}

impl First {
    /// The first token of a line, before which a cursor stands. `begun` is where the line begins, if not there.
    pub fn at(here: &TokenCursor, begun: Option<Place>) -> First
        requires { here.now.at < length here.now.tokens }
        ensures { Starts (left here.now) (left_behind here.now) begun result }
    {
        let place = here.place();
        First {
            word: here.word(),
            place,
            begin: begun.unwrap_or(place),
            begun: is_begun(begun),
        }
    }

    /// Whether it is the end of a line.
    pub fn is_line_end(self) -> bool
        ensures { IsTrue result ↔ (self.word ≡ word_case.LineEnd) }
    {
        self.word == Word::LineEnd
    }

    /// The block that the line begins.
    pub fn head(self) -> Option<BlockWord>
        ensures { MatchOption result (¬ IsHeadAt self.word self.place) (λ h. (self.word ≡ word_of_head h) × (self.place.column ≡ 1)) }
    {
        if self.place.column == 1 {
            head_of(self.word)
        } else {
            None
        }
    }
}
