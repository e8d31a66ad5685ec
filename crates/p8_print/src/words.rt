// Writing single words, and forms without expressions in them.

ghost use Rattle.std.specs.Prelude.{◌≡◌, ◌∷◌, [], ◌++◌, OnOk};
ghost use Rattle.p8_lexer.specs.declared.word.Word.TheVariants as word_case;
ghost use Rattle.p8_print.specs.Spelled as spelled;
ghost use Rattle.p8_print.specs.Spelled.{word_of_label, text_of_words};
ghost use Rattle.p8_print.specs.Wording.{words_of_name};
ghost use Rattle.p8_print.specs.Writing.{separator};

use crate::script::Script;
use p8_lexer::Word;
use p8_tree::Text;
use p8_words::NoMemory;
use std::alloc::Global;

// Writes a symbol or a reserved word.
pub(crate) fn write_word(script: &mut Script, word: Word) -> Result<(), NoMemory>
    ensures { OnOk result (script.new ≡ script.old ++ text_of_words (spelled.reserved word ∷ [])) }
{
    script.word(word)?;
    Ok(())
}

// Writes a name that isn't reserved.
pub(crate) fn write_name(script: &mut Script, name: &Text) -> Result<(), NoMemory>
    ensures { OnOk result (script.new ≡ script.old ++ text_of_words (spelled.name name.now ∷ [])) }
{
    script.name(name)?;
    Ok(())
}

// Writes the word of a local label, which may be a reserved one.
fn write_label(script: &mut Script, name: &Text) -> Result<(), NoMemory>
    ensures { OnOk result (script.new ≡ script.old ++ text_of_words (word_of_label name.now ∷ [])) }
{
    script.label(name)?;
    Ok(())
}

// A number.
pub(crate) fn write_number(script: &mut Script, value: u32) -> Result<(), NoMemory>
    ensures { OnOk result (script.new ≡ script.old ++ text_of_words (spelled.number value ∷ [])) }
{
    script.number(value)?;
    Ok(())
}

// STRING("..")
pub(crate) fn write_string(script: &mut Script, text: &Text) -> Result<(), NoMemory>
    ensures { OnOk result (script.new ≡ script.old ++
        text_of_words (spelled.reserved word_case.String ∷ spelled.reserved word_case.LeftParenthesis ∷ spelled.string text.now ∷
        spelled.reserved word_case.RightParenthesis ∷ [])) }
{
    write_word(script, Word::String)?;
    write_word(script, Word::LeftParenthesis)?;
    write_text(script, text)?;
    write_word(script, Word::RightParenthesis)
}

// Writes a string, between quotes.
pub(crate) fn write_text(script: &mut Script, text: &Text) -> Result<(), NoMemory>
    ensures { OnOk result (script.new ≡ script.old ++ text_of_words (spelled.string text.now ∷ [])) }
{
    script.string(text)?;
    Ok(())
}

// The constant of an object.
pub(crate) fn write_constant(
    script: &mut Script,
    object: &Text,
    name: &Text,
) -> Result<(), NoMemory>
    ensures { OnOk result (script.new ≡ script.old ++ text_of_words (spelled.name object.now ∷ spelled.reserved word_case.Hash ∷ spelled.name name.now ∷ [])) }
{
    write_name(script, object)?;
    write_word(script, Word::Hash)?;
    write_name(script, name)
}

// Writes a variable's name: `RESULT` is a reserved word, and a local label begins with its colon.
pub(crate) fn write_variable_name(
    alloc: Global,
    script: &mut Script,
    name: &Text,
) -> Result<(), NoMemory>
    ensures { OnOk result (script.new ≡ script.old ++ text_of_words (words_of_name name.now)) }
{
    let characters = name.as_slice();
    if let Some((b':', label)) = characters.split_first() {
        write_word(script, Word::Colon)?;
        return write_label(script, &Text::copy_of(alloc, label)?);
    }
    if characters == b"RESULT".as_slice() {
        write_word(script, Word::Result)
    } else {
        write_name(script, name)
    }
}

// The comma before the item or the test of this number, if there is one.
pub(crate) fn write_separator(script: &mut Script, index: usize) -> Result<(), NoMemory>
    ensures { OnOk result (script.new ≡ script.old ++ text_of_words (separator index)) }
{
    if index == 0 {
        Ok(())
    } else {
        write_word(script, Word::Comma)
    }
}
