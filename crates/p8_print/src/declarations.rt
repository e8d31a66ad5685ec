// Writing the words of declarations.

ghost use Rattle.std.specs.Prelude.{◌≡◌, ◌++◌, OnOk, map, option_map};
ghost use Rattle.p8_tree.specs.Views.{tree_of, constant_of, declared_of, child_of, method_of};
ghost use Rattle.p8_print.specs.Spelled.{text_of_words};
ghost use Rattle.p8_print.specs.DeclarationWords.{words_of_setting, words_of_constant, words_of_name_and_count, words_of_variable, words_of_child};
ghost use Rattle.p8_print.specs.DeclarationWords.{more_names, words_of_parameters, words_of_result, more_locals, words_of_locals, words_of_head};

use crate::expressions::{write_count, write_enclosed};
use crate::script::Script;
use crate::tables::word_for;
use crate::words::{write_name, write_text, write_word};
use p8_lexer::{Sought, Word};
use p8_tree::{ConItem, Expr, Method, ObjItem, Text, VarItem};
use p8_words::NoMemory;
use std::alloc::Global;

// Writes an item of `CON`: `name = e`, `name`, `name[e]` or `#e`, with the expression in parentheses.
pub(crate) fn write_constant(
    alloc: Global,
    script: &mut Script,
    item: &ConItem,
) -> Result<(), NoMemory>
    ensures { OnOk result (script.new ≡ script.old ++ text_of_words (words_of_constant (constant_of item.now))) }
{
    let Some(name) = &item.name else {
        return write_setting(alloc, script, &item.value);
    };
    write_name(script, name)?;
    match &item.value {
        None => write_count(alloc, script, &item.step),
        Some(value) => {
            write_word(script, Word::EqualSign)?;
            write_enclosed(alloc, script, value)
        }
    }
}

// `#e`, if there is a value.
fn write_setting(alloc: Global, script: &mut Script, value: &Option<Expr>) -> Result<(), NoMemory>
    ensures { OnOk result (script.new ≡ script.old ++ text_of_words (words_of_setting (option_map tree_of value.now))) }
{
    match value {
        None => Ok(()),
        Some(value) => {
            write_word(script, Word::Hash)?;
            write_enclosed(alloc, script, value)
        }
    }
}

// Writes a variable of `VAR`: its size, its name and its count in brackets, if it has one.
pub(crate) fn write_variable(
    alloc: Global,
    script: &mut Script,
    item: &VarItem,
) -> Result<(), NoMemory>
    ensures { OnOk result (script.new ≡ script.old ++ text_of_words (words_of_variable (declared_of item.now))) }
{
    write_word(script, word_for(Sought::Size(item.size)))?;
    write_name_and_count(alloc, script, item)
}

// A name with its count.
fn write_name_and_count(alloc: Global, script: &mut Script, item: &VarItem) -> Result<(), NoMemory>
    ensures { OnOk result (script.new ≡ script.old ++ text_of_words (words_of_name_and_count (declared_of item.now))) }
{
    write_name(script, &item.name)?;
    write_count(alloc, script, &item.count)
}

// Writes an object: its name, its count in brackets, if it has one, and its file's whole name.
pub(crate) fn write_object(
    alloc: Global,
    script: &mut Script,
    item: &ObjItem,
) -> Result<(), NoMemory>
    ensures { OnOk result (script.new ≡ script.old ++ text_of_words (words_of_child (child_of item.now))) }
{
    write_name(script, &item.name)?;
    write_count(alloc, script, &item.count)?;
    write_word(script, Word::Colon)?;
    write_text(script, &item.file)
}

// Writes the head of a method, after `PUB` or `PRI`.
pub(crate) fn write_head(
    alloc: Global,
    script: &mut Script,
    method: &Method,
) -> Result<(), NoMemory>
    ensures { OnOk result (script.new ≡ script.old ++ text_of_words (words_of_head (method_of method.now))) }
{
    write_name(script, &method.name)?;
    write_parameters(script, method.params.as_slice())?;
    write_result(script, &method.result)?;
    write_locals(alloc, script, method.locals.as_slice())
}

// Parameters in parentheses, if there are any.
fn write_parameters(script: &mut Script, params: &[Text]) -> Result<(), NoMemory>
    ensures { OnOk result (script.new ≡ script.old ++ text_of_words (words_of_parameters params.now)) }
{
    let Some((first, others)) = params.split_first() else {
        return Ok(());
    };
    write_word(script, Word::LeftParenthesis)?;
    write_name(script, first)?;
    write_more_names(script, others)?;
    write_word(script, Word::RightParenthesis)
}

// Names after others, each with the comma before it.
fn write_more_names(script: &mut Script, names: &[Text]) -> Result<(), NoMemory>
    ensures { OnOk result (script.new ≡ script.old ++ text_of_words (more_names names.now)) }
{
    for name in names {
        write_word(script, Word::Comma)?;
        write_name(script, name)?;
    }
    Ok(())
}

// The name of the result, if it has one.
fn write_result(script: &mut Script, name: &Option<Text>) -> Result<(), NoMemory>
    ensures { OnOk result (script.new ≡ script.old ++ text_of_words (words_of_result name.now)) }
{
    match name {
        None => Ok(()),
        Some(name) => {
            write_word(script, Word::Colon)?;
            write_name(script, name)
        }
    }
}

// `|` and the locals, if there are any.
fn write_locals(alloc: Global, script: &mut Script, locals: &[VarItem]) -> Result<(), NoMemory>
    ensures { OnOk result (script.new ≡ script.old ++ text_of_words (words_of_locals (map declared_of locals.now))) }
{
    let Some((first, others)) = locals.split_first() else {
        return Ok(());
    };
    write_word(script, Word::BitOr)?;
    write_name_and_count(alloc, script, first)?;
    write_more_locals(alloc, script, others)
}

// Locals after others, each with the comma before it.
fn write_more_locals(alloc: Global, script: &mut Script, locals: &[VarItem]) -> Result<(), NoMemory>
    ensures { OnOk result (script.new ≡ script.old ++ text_of_words (more_locals (map declared_of locals.now))) }
{
    for local in locals {
        write_word(script, Word::Comma)?;
        write_name_and_count(alloc, script, local)?;
    }
    Ok(())
}
