// The word of each number in a tree.

ghost use Rattle.std.specs.Prelude.{◌≡◌};
ghost use Rattle.p8_print.specs.Tables.{word_for, operator_word, is_boolean, change_word, is_behind};

use p8_lexer::{Sought, Word};
use p8_words::{LOGICAL_AND, LOGICAL_OR};

// The word of this number; no number that trees have is without one.
pub(crate) fn word_for(sought: Sought) -> Word
    ensures { result ≡ word_for sought }
{
    Word::by(sought).unwrap_or(Word::Plus)
}

// An operator before an operand or between operands.
pub(crate) fn operator_word(operator: u8) -> Word
    ensures { result ≡ operator_word operator }
{
    word_for(Sought::Operator(operator))
}

// Whether an operator is AND or OR.
pub(crate) fn is_boolean(operator: u8) -> bool
    ensures { result ≡ is_boolean operator }
{
    operator == LOGICAL_AND || operator == LOGICAL_OR
}

// A change, before its variable or after it, or an operator alone, whose effect byte is its bytecode less 0xA0.
pub(crate) fn change_word(effect: u8) -> Word
    ensures { result ≡ change_word effect }
{
    if 0x40 <= effect && effect <= 0x5F {
        operator_word(effect + 0xA0)
    } else {
        word_for(Sought::Change(effect))
    }
}

// Whether a change stands after its variable.
pub(crate) fn is_behind(effect: u8) -> bool
    ensures { result ≡ is_behind effect }
{
    effect == 0x28 || effect == 0x38 || effect == 0x18 || effect == 0x1C
}
