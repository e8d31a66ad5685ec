// Which tokens an arrow stands for.
ghost use Rattle.std.specs.Prelude.{◌↔◌, IsTrue};
ghost use Rattle.p8_lines.specs.Signs.{Matches};

use crate::words::{
    is_condition, is_flag, is_label, is_on_memory, is_size, is_write, takes_one, takes_two,
};
use p8_lexer::Word;

/// Which tokens an arrow of the diagram stands for.
#[derive(Clone, Copy)]
pub enum Sign {
    /// A symbol, a reserved word, a name that isn't reserved, or the end of a line.
    Word(Word),
    /// `BYTE`, `WORD` or `LONG`.
    Size,
    /// A string that isn't empty.
    Text,
    /// A string of two characters or more.
    LongText,
    /// An instruction's condition.
    Condition,
    /// An instruction with a destination and a source that isn't on main memory.
    TwoOperands,
    /// An instruction on main memory.
    Memory,
    /// An instruction with a destination alone.
    OneOperand,
    /// `WZ` or `WC`.
    Flag,
    /// `WR` or `NR`.
    Write,
    /// A name, or a reserved word.
    Label,
}

impl Sign {
    /// Whether a token with this word, and with so many characters between its quotes, is one of
    /// these.
    pub fn matches(self, word: Word, length: usize) -> bool
        ensures { IsTrue result ↔ Matches self word length }
    {
        match self {
            Sign::Word(w) => w == word,
            Sign::Size => is_size(word),
            Sign::Text => word == Word::Str && length > 0,
            Sign::LongText => word == Word::Str && length > 1,
            Sign::Condition => is_condition(word),
            Sign::TwoOperands => takes_two(word),
            Sign::Memory => is_on_memory(word),
            Sign::OneOperand => takes_one(word),
            Sign::Flag => is_flag(word),
            Sign::Write => is_write(word),
            Sign::Label => is_label(word),
        }
    }
}
