// Which words begin lines of which kinds.
ghost use Rattle.std.specs.Prelude.{◌≡◌};
ghost use Rattle.p8_blocks.specs.Reading.{goes_on_chain, ends_loop, opens, leaves_loop};
ghost use Rattle.p8_blocks.specs.Standing.{head_of};
ghost use Rattle.p8_blocks.specs.Files.{is_chain_word, is_loop_end_word};

use p8_lexer::Word;
use p8_lines::LineState;

/// A word that begins a block where it stands in column 1.
#[derive(Clone, Copy)]
pub enum BlockWord {
    Con,
    Var,
    Obj,
    Pub,
    Pri,
    Dat,
}

/// The word as one that begins a block.
pub fn head_of(word: Word) -> Option<BlockWord>
    ensures { result ≡ head_of word }
{
    match word {
        Word::Con => Some(BlockWord::Con),
        Word::Var => Some(BlockWord::Var),
        Word::Obj => Some(BlockWord::Obj),
        Word::Pub => Some(BlockWord::Pub),
        Word::Pri => Some(BlockWord::Pri),
        Word::Dat => Some(BlockWord::Dat),
        _ => None,
    }
}

// Whether the word goes on with an `IF` chain.
fn is_chain_word(word: Word) -> bool
    ensures { result ≡ is_chain_word word }
{
    matches!(word, Word::Else | Word::Elseif | Word::Elseifnot)
}

// Whether the word ends a plain `REPEAT`.
fn is_loop_end_word(word: Word) -> bool
    ensures { result ≡ is_loop_end_word word }
{
    matches!(word, Word::While | Word::Until)
}

/// Whether a line that begins with the word goes on with a chain, where it doesn't go on after the
/// colon of a `CASE`'s item.
pub fn goes_on_chain(begun: bool, word: Word) -> bool
    ensures { result ≡ goes_on_chain begun word }
{
    !begun && is_chain_word(word)
}

/// Whether such a line ends a loop.
pub fn ends_loop(begun: bool, word: Word) -> bool
    ensures { result ≡ ends_loop begun word }
{
    !begun && is_loop_end_word(word)
}

/// Whether a line that is read from this state and begins with this word opens a block.
pub fn opens(state: LineState, word: Word) -> bool
    ensures { result ≡ opens state word }
{
    match state {
        LineState::Statement => matches!(word, Word::If | Word::Ifnot | Word::Case | Word::Repeat),
        LineState::CaseItem => true,
        _ => false,
    }
}

/// Whether such a line is `NEXT` or `QUIT`.
pub fn leaves_loop(state: LineState, word: Word) -> bool
    ensures { result ≡ leaves_loop state word }
{
    match state {
        LineState::Statement => matches!(word, Word::Next | Word::Quit),
        _ => false,
    }
}
