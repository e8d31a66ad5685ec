// Writing the words of instructions.

ghost use Rattle.std.specs.Prelude.{◌≡◌, ◌++◌, OnOk};
ghost use Rattle.p8_tree.specs.Views.{tree_of, instruction_of};
ghost use Rattle.p8_print.specs.Spelled.{text_of_words};
ghost use Rattle.p8_print.specs.DataWords.{words_of_condition, instruction_word, is_call, source_with, words_of_operands};
ghost use Rattle.p8_print.specs.DataWords.{words_of_effect, words_of_effects, words_of_instruction};

use crate::expressions::{write_enclosed, write_expr};
use crate::script::Script;
use crate::tables::word_for;
use crate::words::write_word;
use p8_lexer::{Characters, Sought, Word, named};
use p8_tree::{Expr, InstrLine, Text};
use p8_words::NoMemory;
use std::alloc::Global;

// An instruction.
pub(crate) fn write_instruction(
    alloc: Global,
    script: &mut Script,
    instr: &InstrLine,
) -> Result<(), NoMemory>
    ensures { OnOk result (script.new ≡ script.old ++ text_of_words (words_of_instruction (instruction_of instr.now))) }
{
    write_condition(script, instr.cond)?;
    write_word(script, instruction_word(&instr.word))?;
    write_operands(alloc, script, instr)?;
    write_effects(script, instr.effects)
}

// A condition, unless it is that of each instruction that has no word for it.
fn write_condition(script: &mut Script, cond: u8) -> Result<(), NoMemory>
    ensures { OnOk result (script.new ≡ script.old ++ text_of_words (words_of_condition cond)) }
{
    if cond == 15 {
        Ok(())
    } else {
        write_word(script, word_for(Sought::Condition(cond)))
    }
}

// The word of an instruction.
fn instruction_word(text: &Text) -> Word
    ensures { result ≡ instruction_word text.now }
{
    named(&Characters::of_text(text.as_slice())).unwrap_or(Word::Nop)
}

// Whether an instruction's word is CALL.
fn is_call(text: &Text) -> bool
    ensures { result ≡ is_call text.now }
{
    text.as_slice() == Word::Call.spelling().as_bytes()
}

// The operands, with a comma between them.
fn write_operands(alloc: Global, script: &mut Script, instr: &InstrLine) -> Result<(), NoMemory>
    ensures { OnOk result (script.new ≡ script.old ++ text_of_words (words_of_operands (instruction_of instr.now))) }
{
    let call = is_call(&instr.word);
    match (&instr.dest, &instr.source) {
        (None, None) => Ok(()),
        (Some(dest), None) => write_enclosed(alloc, script, dest),
        (None, Some(source)) => write_source(alloc, script, call, instr.immediate, source),
        (Some(dest), Some(source)) => {
            write_enclosed(alloc, script, dest)?;
            write_word(script, Word::Comma)?;
            write_source(alloc, script, call, instr.immediate, source)
        }
    }
}

// A source; that of CALL is a label alone.
fn write_source(
    alloc: Global,
    script: &mut Script,
    call: bool,
    immediate: bool,
    source: &Expr,
) -> Result<(), NoMemory>
    ensures { OnOk result (script.new ≡ script.old ++ text_of_words (source_with call immediate (tree_of source.now))) }
{
    if call {
        write_word(script, Word::Hash)?;
        write_expr(alloc, script, source)
    } else if immediate {
        write_word(script, Word::Hash)?;
        write_enclosed(alloc, script, source)
    } else {
        write_enclosed(alloc, script, source)
    }
}

// The effects.
fn write_effects(script: &mut Script, effects: u8) -> Result<(), NoMemory>
    ensures { OnOk result (script.new ≡ script.old ++ text_of_words (words_of_effects effects)) }
{
    write_effect(script, effects, 1, Word::Wz)?;
    write_effect(script, effects, 2, Word::Wc)?;
    write_effect(script, effects, 4, Word::Wr)?;
    write_effect(script, effects, 8, Word::Nr)
}

// An effect, where its bit is set.
fn write_effect(script: &mut Script, effects: u8, bit: u8, word: Word) -> Result<(), NoMemory>
    ensures { OnOk result (script.new ≡ script.old ++ text_of_words (words_of_effect effects bit word)) }
{
    if effects & bit == 0 {
        Ok(())
    } else {
        write_word(script, word)
    }
}
