// Writing the words of lines of `DAT`.

ghost use Rattle.std.specs.Prelude.{◌≡◌, ◌++◌, OnOk, map};
ghost use Rattle.p8_tree.specs.Views.{datum_of, contents_of, line_of};
ghost use Rattle.p8_print.specs.Spelled.{text_of_words};
ghost use Rattle.p8_print.specs.DataWords.{words_of_label, words_of_size, words_of_datum, more_data, words_of_data, words_of_contents, words_of_line};

use crate::expressions::{write_count, write_enclosed, write_value};
use crate::instructions::write_instruction;
use crate::script::Script;
use crate::tables::word_for;
use crate::words::{write_variable_name, write_word};
use p8_lexer::{Sought, Word};
use p8_tree::{DatBody, DatItem, DatLine, Text};
use p8_words::NoMemory;
use std::alloc::Global;

// Writes a line of `DAT`.
//
// Each expression stands in parentheses, and effects stand in the order of their bits.
pub(crate) fn write_line(alloc: Global, script: &mut Script, line: &DatLine) -> Result<(), NoMemory>
    ensures { OnOk result (script.new ≡ script.old ++ text_of_words (words_of_line (line_of line.now))) }
{
    write_label(alloc, script, &line.label)?;
    write_body(alloc, script, &line.body)
}

// A label, if there is one.
fn write_label(alloc: Global, script: &mut Script, label: &Option<Text>) -> Result<(), NoMemory>
    ensures { OnOk result (script.new ≡ script.old ++ text_of_words (words_of_label label.now)) }
{
    match label {
        None => Ok(()),
        Some(label) => write_variable_name(alloc, script, label),
    }
}

// What a line has after its label.
fn write_body(alloc: Global, script: &mut Script, body: &DatBody) -> Result<(), NoMemory>
    ensures { OnOk result (script.new ≡ script.old ++ text_of_words (words_of_contents (contents_of body.now))) }
{
    match body {
        DatBody::Nothing => Ok(()),
        DatBody::Data(size, items) => {
            write_word(script, word_for(Sought::Size(*size)))?;
            write_data(alloc, script, items.as_slice())
        }
        DatBody::Org(value) => {
            write_word(script, Word::Org)?;
            write_value(alloc, script, value)
        }
        DatBody::Res(value) => {
            write_word(script, Word::Res)?;
            write_value(alloc, script, value)
        }
        DatBody::Fit(value) => {
            write_word(script, Word::Fit)?;
            write_value(alloc, script, value)
        }
        DatBody::Instr(instr) => write_instruction(alloc, script, instr),
    }
}

// Items of data, with commas between them.
fn write_data(alloc: Global, script: &mut Script, items: &[DatItem]) -> Result<(), NoMemory>
    ensures { OnOk result (script.new ≡ script.old ++ text_of_words (words_of_data (map datum_of items.now))) }
{
    let Some((first, others)) = items.split_first() else {
        return Ok(());
    };
    write_datum(alloc, script, first)?;
    write_more(alloc, script, others)
}

// Items after others, each with the comma before it.
fn write_more(alloc: Global, script: &mut Script, items: &[DatItem]) -> Result<(), NoMemory>
    ensures { OnOk result (script.new ≡ script.old ++ text_of_words (more_data (map datum_of items.now))) }
{
    for item in items {
        write_word(script, Word::Comma)?;
        write_datum(alloc, script, item)?;
    }
    Ok(())
}

// An item of data.
fn write_datum(alloc: Global, script: &mut Script, item: &DatItem) -> Result<(), NoMemory>
    ensures { OnOk result (script.new ≡ script.old ++ text_of_words (words_of_datum (datum_of item.now))) }
{
    write_size(script, item.size)?;
    write_enclosed(alloc, script, &item.value)?;
    write_count(alloc, script, &item.count)
}

// An item's own size, if it has one.
fn write_size(script: &mut Script, size: Option<u8>) -> Result<(), NoMemory>
    ensures { OnOk result (script.new ≡ script.old ++ text_of_words (words_of_size size)) }
{
    match size {
        None => Ok(()),
        Some(size) => write_word(script, word_for(Sought::Size(size))),
    }
}
