// Writing the words of expressions.

ghost use Rattle.std.specs.Prelude.{◌≡◌, ◌++◌, [], ◌∷◌, OnOk, option_map};
ghost use Rattle.p8_lexer.specs.declared.word.Word.TheVariants as word_case;
ghost use Rattle.p8_tree.specs.Expressions.{index};
ghost use Rattle.p8_tree.specs.Views.{tree_of, variable_of, call_of, trees_of, items_of, item_of};
ghost use Rattle.p8_tree.specs.Bridges.{boxed_index};
ghost use Rattle.p8_print.specs.Spelled.{reserved, text_of_words};
ghost use Rattle.p8_print.specs.Wording.{is_number, operand_with, change_with, object_with, words_of_trap, words_of_assignment};
ghost use Rattle.p8_print.specs.Wording.{words_of, words_of_form, words_of_variable, words_of_index, words_of_bits, words_of_item};
ghost use Rattle.p8_print.specs.Wording.{words_of_arguments, words_of_choices, wrapped, words_of_value, words_of_count};
ghost use Rattle.p8_print.specs.Tables.{built_word};
ghost use Rattle.p8_print.specs.Writing.{boxed_bits, word_before};

use crate::script::Script;
use crate::tables::{change_word, is_behind, is_boolean, operator_word, word_for};
use crate::words::{
    write_constant, write_name, write_number, write_separator, write_string, write_variable_name,
    write_word,
};
use p8_lexer::{Sought, Word};
use p8_tree::{Call, Expr, ExprKind, Item, Target, Text};
use p8_words::NoMemory;
use std::alloc::Global;

// Writes an expression as a whole, in parentheses, so that it can stand wherever an expression can.
#[cycle(writing)]
pub(crate) fn write_enclosed(
    alloc: Global,
    script: &mut Script,
    expr: &Expr,
) -> Result<(), NoMemory>
    ensures { OnOk result (script.new ≡ script.old ++ text_of_words (wrapped (tree_of expr.now))) }
{
    write_word(script, Word::LeftParenthesis)?;
    write_expr(alloc, script, expr)?;
    write_word(script, Word::RightParenthesis)
}

// A value after its word, if there is one.
pub(crate) fn write_value(
    alloc: Global,
    script: &mut Script,
    value: &Option<Expr>,
) -> Result<(), NoMemory>
    ensures { OnOk result (script.new ≡ script.old ++ text_of_words (words_of_value (option_map tree_of value.now))) }
{
    match value {
        None => Ok(()),
        Some(value) => write_enclosed(alloc, script, value),
    }
}

// A count in brackets, if there is one.
pub(crate) fn write_count(
    alloc: Global,
    script: &mut Script,
    count: &Option<Expr>,
) -> Result<(), NoMemory>
    ensures { OnOk result (script.new ≡ script.old ++ text_of_words (words_of_count (option_map tree_of count.now))) }
{
    match count {
        None => Ok(()),
        Some(count) => {
            write_word(script, Word::LeftBracket)?;
            write_enclosed(alloc, script, count)?;
            write_word(script, Word::RightBracket)
        }
    }
}

// An expression in brackets.
#[cycle(writing)]
fn write_bracketed(alloc: Global, script: &mut Script, expr: &Expr) -> Result<(), NoMemory>
    ensures { OnOk result (script.new ≡ script.old ++ text_of_words (words_of_index (index (tree_of expr.now)))) }
{
    write_word(script, Word::LeftBracket)?;
    write_expr(alloc, script, expr)?;
    write_word(script, Word::RightBracket)
}

// An operand of an operator.
#[cycle(writing)]
fn write_operand(alloc: Global, script: &mut Script, expr: &Expr) -> Result<(), NoMemory>
    ensures { OnOk result (script.new ≡ script.old ++ text_of_words (operand_with (is_number (tree_of expr.now)) (words_of (tree_of expr.now)))) }
{
    if is_number(expr) {
        write_expr(alloc, script, expr)
    } else {
        write_enclosed(alloc, script, expr)
    }
}

// An operator before its operand.
#[cycle(writing)]
fn write_prefixed(
    alloc: Global,
    script: &mut Script,
    operator: Word,
    operand: &Expr,
) -> Result<(), NoMemory>
    ensures { OnOk result (script.new ≡ script.old ++
        text_of_words (reserved operator ∷ operand_with (is_number (tree_of operand.now)) (words_of (tree_of operand.now)))) }
{
    write_word(script, operator)?;
    write_operand(alloc, script, operand)
}

// Whether an expression is a number.
fn is_number(expr: &Expr) -> bool
    ensures { result ≡ is_number (tree_of expr.now) }
{
    matches!(expr.kind, ExprKind::Number(_))
}

// Writes an expression as it is.
//
// An operator's operands stand in parentheses, but for numbers. The calls go as deep as the tree is high.
#[cycle(writing)]
pub(crate) fn write_expr(alloc: Global, script: &mut Script, expr: &Expr) -> Result<(), NoMemory>
    ensures { OnOk result (script.new ≡ script.old ++ text_of_words (words_of (tree_of expr.now))) }
{
    match &expr.kind {
        ExprKind::Number(value) => write_number(script, *value),
        ExprKind::Str(text) => write_string(script, text),
        ExprKind::Here => write_word(script, Word::Dollar),
        ExprKind::Var(variable) => write_variable(alloc, script, variable),
        ExprKind::Call(call) => write_call(alloc, script, call),
        ExprKind::Unary(operator, operand) => {
            write_prefixed(alloc, script, operator_word(*operator), operand)
        }
        ExprKind::Binary(operator, left, right) => {
            write_operand(alloc, script, left)?;
            write_word(script, operator_word(*operator))?;
            write_operand(alloc, script, right)
        }
        ExprKind::Assign(variable, operator, value) => {
            write_variable(alloc, script, variable)?;
            write_assignment(script, *operator)?;
            write_operand(alloc, script, value)
        }
        ExprKind::Change(variable, effect) => write_change(alloc, script, variable, *effect),
        ExprKind::Address(variable) => {
            write_word(script, Word::At)?;
            write_variable(alloc, script, variable)
        }
        ExprKind::ObjectAddress(offset) => write_prefixed(alloc, script, Word::AtAt, offset),
        ExprKind::ObjConst(object, name, _) => write_constant(script, object, name),
        ExprKind::Built(code, arguments) => {
            write_word(script, word_for(Sought::BuiltIn(*code)))?;
            write_arguments(alloc, script, arguments)
        }
        ExprKind::Strings(items) => {
            write_word(script, Word::String)?;
            write_arguments(alloc, script, items)
        }
        ExprKind::Look(code, value, items) => {
            write_looked_for(alloc, script, *code, value)?;
            write_choices(alloc, script, items)
        }
    }
}

// A variable.
#[cycle(writing)]
fn write_variable(alloc: Global, script: &mut Script, variable: &Target) -> Result<(), NoMemory>
    ensures { OnOk result (script.new ≡ script.old ++ text_of_words (words_of_variable (variable_of variable.now))) }
{
    match variable {
        Target::Named(name, index, _) => {
            write_variable_name(alloc, script, name)?;
            write_index(alloc, script, index)
        }
        Target::Part(name, size, index, _) => {
            write_variable_name(alloc, script, name)?;
            write_word(script, Word::Dot)?;
            write_word(script, word_for(Sought::Size(*size)))?;
            write_index(alloc, script, index)
        }
        Target::Memory(size, address, index, _) => {
            write_word(script, word_for(Sought::Size(*size)))?;
            write_bracketed(alloc, script, address)?;
            write_index(alloc, script, index)
        }
        Target::Register(address, bits, _) => {
            write_word(script, word_for(Sought::Register(*address)))?;
            write_bits(alloc, script, bits)
        }
    }
}

// An index in brackets, if there is one.
#[cycle(writing)]
fn write_index(
    alloc: Global,
    script: &mut Script,
    index: &Option<Box<Expr>>,
) -> Result<(), NoMemory>
    ensures { OnOk result (script.new ≡ script.old ++ text_of_words (words_of_index (boxed_index index.now))) }
{
    match index {
        None => Ok(()),
        Some(index) => write_bracketed(alloc, script, index),
    }
}

// The bits of a register in brackets, if they aren't all.
#[cycle(writing)]
fn write_bits(alloc: Global, script: &mut Script, bits: &Option<Box<Item>>) -> Result<(), NoMemory>
    ensures { OnOk result (script.new ≡ script.old ++ text_of_words (words_of_bits (boxed_bits bits.now))) }
{
    match bits {
        None => Ok(()),
        Some(item) => {
            write_word(script, Word::LeftBracket)?;
            write_item(alloc, script, item)?;
            write_word(script, Word::RightBracket)
        }
    }
}

// A value or a range of values.
#[cycle(writing)]
fn write_item(alloc: Global, script: &mut Script, item: &Item) -> Result<(), NoMemory>
    ensures { OnOk result (script.new ≡ script.old ++ text_of_words (words_of_item (item_of item.now))) }
{
    write_expr(alloc, script, &item.low)?;
    match &item.high {
        None => Ok(()),
        Some(high) => {
            write_word(script, Word::DotDot)?;
            write_expr(alloc, script, high)
        }
    }
}

// A change, before its variable or after it.
#[cycle(writing)]
fn write_change(
    alloc: Global,
    script: &mut Script,
    variable: &Target,
    effect: u8,
) -> Result<(), NoMemory>
    ensures { OnOk result (script.new ≡ script.old ++ text_of_words (change_with effect (words_of_variable (variable_of variable.now)))) }
{
    if is_behind(effect) {
        write_variable(alloc, script, variable)?;
        write_word(script, change_word(effect))
    } else {
        write_word(script, change_word(effect))?;
        write_variable(alloc, script, variable)
    }
}

// A call of a method.
#[cycle(writing)]
fn write_call(alloc: Global, script: &mut Script, call: &Call) -> Result<(), NoMemory>
    ensures { OnOk result (script.new ≡ script.old ++ text_of_words (words_of_form (call_of call.now))) }
{
    write_trap(script, call.trap)?;
    write_object(alloc, script, &call.object, &call.index)?;
    write_name(script, &call.method)?;
    write_arguments(alloc, script, &call.args)
}

// `\`, where a call stops an abort.
fn write_trap(script: &mut Script, trap: bool) -> Result<(), NoMemory>
    ensures { OnOk result (script.new ≡ script.old ++ text_of_words (words_of_trap trap)) }
{
    if trap {
        write_word(script, Word::Backslash)
    } else {
        Ok(())
    }
}

// The words of an assignment, by an operator or without one.
fn write_assignment(script: &mut Script, operator: Option<u8>) -> Result<(), NoMemory>
    ensures { OnOk result (script.new ≡ script.old ++ text_of_words (words_of_assignment operator)) }
{
    let Some(operator) = operator else {
        return write_word(script, Word::Assign);
    };
    if is_boolean(operator) {
        write_word(script, operator_word(operator))?;
        write_word(script, Word::EqualSign)
    } else {
        write_word(script, word_for(Sought::Assignment(operator)))
    }
}

// The object whose method is called, if it is another one.
#[cycle(writing)]
fn write_object(
    alloc: Global,
    script: &mut Script,
    object: &Option<Text>,
    index: &Option<Box<Expr>>,
) -> Result<(), NoMemory>
    ensures { OnOk result (script.new ≡ script.old ++ text_of_words (object_with object.now (words_of_index (boxed_index index.now)))) }
{
    match object {
        None => Ok(()),
        Some(object) => {
            write_name(script, object)?;
            write_index(alloc, script, index)?;
            write_word(script, Word::Dot)
        }
    }
}

// Arguments in parentheses, if there are any.
#[cycle(writing)]
fn write_arguments(alloc: Global, script: &mut Script, arguments: &[Expr]) -> Result<(), NoMemory>
    ensures { OnOk result (script.new ≡ script.old ++ text_of_words (words_of_arguments (trees_of arguments.now))) }
{
    for (i, argument) in arguments.iter().enumerate() {
        write_word(script, word_before(i))?;
        write_expr(alloc, script, argument)?;
    }
    if arguments.is_empty() {
        Ok(())
    } else {
        write_word(script, Word::RightParenthesis)
    }
}

// The word before the argument of this number.
fn word_before(index: usize) -> Word
    ensures { result ≡ word_before index }
{
    if index == 0 {
        Word::LeftParenthesis
    } else {
        Word::Comma
    }
}

// A LOOK function with what is looked for, before its items.
#[cycle(writing)]
fn write_looked_for(
    alloc: Global,
    script: &mut Script,
    code: u8,
    value: &Expr,
) -> Result<(), NoMemory>
    ensures { OnOk result (script.new ≡ script.old ++
        text_of_words (reserved (built_word code) ∷ reserved word_case.LeftParenthesis ∷ (words_of (tree_of value.now) ++ reserved word_case.Colon ∷ []))) }
{
    write_word(script, word_for(Sought::BuiltIn(code)))?;
    write_word(script, Word::LeftParenthesis)?;
    write_expr(alloc, script, value)?;
    write_word(script, Word::Colon)
}

// The items of a LOOK function, up to its parenthesis.
#[cycle(writing)]
fn write_choices(alloc: Global, script: &mut Script, items: &[Item]) -> Result<(), NoMemory>
    ensures { OnOk result (script.new ≡ script.old ++ text_of_words (words_of_choices (items_of items.now))) }
{
    for (i, item) in items.iter().enumerate() {
        write_separator(script, i)?;
        write_item(alloc, script, item)?;
    }
    write_word(script, Word::RightParenthesis)
}
