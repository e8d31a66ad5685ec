// Kinds of words.
ghost use Rattle.std.specs.Prelude.{◌≡◌};
ghost use Rattle.p8_tree.specs.Names.{begins_name};
ghost use Rattle.p8_lines.specs.Signs.{is_size, is_condition, takes_two, is_on_memory, takes_one, is_flag, is_write, is_label};

use p8_lexer::{Meaning, Word};

// Whether the word is one of BYTE, WORD and LONG.
pub fn is_size(word: Word) -> bool
    ensures { result ≡ is_size word }
{
    matches!(word.meaning(), Meaning::Size(_))
}

// Whether the word is one of the conditions of an instruction.
pub fn is_condition(word: Word) -> bool
    ensures { result ≡ is_condition word }
{
    matches!(word.meaning(), Meaning::Condition(_))
}

// Whether the word is one of the instructions with a destination and a source, but for those on main memory.
pub fn takes_two(word: Word) -> bool
    ensures { result ≡ takes_two word }
{
    match word {
        Word::And | Word::Or => true,
        Word::Waitpeq | Word::Waitpne | Word::Waitcnt => true,
        _ => matches!(word.meaning(), Meaning::TwoOperands),
    }
}

// Whether the word is one of the instructions on main memory.
pub fn is_on_memory(word: Word) -> bool
    ensures { result ≡ is_on_memory word }
{
    matches!(word.meaning(), Meaning::OnMemory)
}

// Whether the word is one of the instructions with a destination alone.
pub fn takes_one(word: Word) -> bool
    ensures { result ≡ takes_one word }
{
    matches!(
        word,
        Word::Clkset
            | Word::Cogid
            | Word::Coginit
            | Word::Cogstop
            | Word::Locknew
            | Word::Lockret
            | Word::Lockset
            | Word::Lockclr
    )
}

// Whether the word is one of WZ and WC.
pub fn is_flag(word: Word) -> bool
    ensures { result ≡ is_flag word }
{
    matches!(word, Word::Wz | Word::Wc)
}

// Whether the word is one of WR and NR.
pub fn is_write(word: Word) -> bool
    ensures { result ≡ is_write word }
{
    matches!(word, Word::Wr | Word::Nr)
}

// Whether a spelling begins with a capital letter or `_`.
fn begins_name(text: &str) -> bool
    ensures { result ≡ begins_name text.now }
{
    match text.as_bytes() {
        [first, ..] => (*first >= b'A' && *first <= b'Z') || *first == b'_',
        [] => false,
    }
}

// Whether the word is a name or a reserved word.
pub fn is_label(word: Word) -> bool
    ensures { result ≡ is_label word }
{
    begins_name(word.spelling()) || matches!(word, Word::Name)
}
