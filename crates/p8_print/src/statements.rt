// Writing the lines of a method.

ghost use Rattle.std.specs.Prelude.{◌≡◌, ◌++◌, ◌+◌, OnOk, IfOk};
ghost use Rattle.p8_tree.specs.Views.{statement_of, statements_of, arm_of, arms_of};
ghost use Rattle.p8_tree.specs.Statements.{otherwise};
ghost use Rattle.p8_print.specs.Layout.{lines_of_statements, lines_of_statement, lines_of_arms, lines_of_else, lines_of_items, lines_of_other};
ghost use Rattle.p8_print.specs.Writing.{text_of, lines_of_arm, lines_of_item};

use crate::lines::{
    arm_word, write_arm_line, write_end, write_expr_line, write_headed_line, write_item_line,
    write_other_line, write_repeat_line, write_value_line, write_word_line,
};
use crate::script::Script;
use p8_lexer::Word;
use p8_tree::{Arm, Stmt, StmtKind};
use p8_words::NoMemory;
use std::alloc::Global;

// Writes statements, each so many blanks to the right. The calls go as deep as blocks stand in one another.
#[cycle(lines)]
pub(crate) fn write_statements(
    alloc: Global,
    script: &mut Script,
    indent: usize,
    statements: &[Stmt],
) -> Result<(), NoMemory>
    ensures { OnOk result (script.new ≡ script.old ++ text_of (lines_of_statements indent (statements_of statements.now))) }
{
    for statement in statements {
        write_statement(alloc, script, indent, statement)?;
    }
    Ok(())
}

// A statement with the lines of its own.
#[cycle(lines)]
fn write_statement(
    alloc: Global,
    script: &mut Script,
    indent: usize,
    statement: &Stmt,
) -> Result<(), NoMemory>
    ensures { OnOk result (script.new ≡ script.old ++ text_of (lines_of_statement indent (statement_of statement.now))) }
{
    match &statement.kind {
        StmtKind::Do(value) => write_expr_line(alloc, script, indent, value),
        StmtKind::If(arms, rest) => {
            write_arms(alloc, script, indent, arms)?;
            match rest {
                None => Ok(()),
                Some(body) => write_else(alloc, script, indent, body),
            }
        }
        StmtKind::Case(value, arms, rest) => {
            write_headed_line(alloc, script, indent, Word::Case, value)?;
            let inner = deeper(indent)?;
            write_items(alloc, script, inner, arms)?;
            match rest {
                None => Ok(()),
                Some(body) => write_other(alloc, script, inner, body),
            }
        }
        StmtKind::Repeat(course, body) => {
            write_repeat_line(alloc, script, indent, course)?;
            write_statements(alloc, script, deeper(indent)?, body)?;
            write_end(alloc, script, indent, course)
        }
        StmtKind::Next => write_word_line(script, indent, Word::Next),
        StmtKind::Quit => write_word_line(script, indent, Word::Quit),
        StmtKind::Return(value) => write_value_line(alloc, script, indent, Word::Return, value),
        StmtKind::Abort(value) => write_value_line(alloc, script, indent, Word::Abort, value),
    }
}

// How far the lines of a block in a block stand to the right; no text has lines further to the right.
fn deeper(indent: usize) -> Result<usize, NoMemory>
    ensures { IfOk result (λ inner. inner ≡ indent + 2) }
{
    match indent.checked_add(2) {
        Some(inner) => Ok(inner),
        None => Err(NoMemory),
    }
}

// The arms of a chain.
#[cycle(lines)]
fn write_arms(
    alloc: Global,
    script: &mut Script,
    indent: usize,
    arms: &[Arm],
) -> Result<(), NoMemory>
    ensures { OnOk result (script.new ≡ script.old ++ text_of (lines_of_arms indent (arms_of arms.now))) }
{
    for (i, arm) in arms.iter().enumerate() {
        write_arm(alloc, script, indent, i == 0, arm)?;
    }
    Ok(())
}

// An arm of a chain.
#[cycle(lines)]
fn write_arm(
    alloc: Global,
    script: &mut Script,
    indent: usize,
    is_first: bool,
    arm: &Arm,
) -> Result<(), NoMemory>
    ensures { OnOk result (script.new ≡ script.old ++ text_of (lines_of_arm indent is_first (arm_of arm.now))) }
{
    let word = arm_word(is_first, arm.negated);
    write_arm_line(alloc, script, indent, word, arm.tests.as_slice())?;
    write_statements(alloc, script, deeper(indent)?, &arm.body)
}

// The ELSE of a chain.
#[cycle(lines)]
fn write_else(
    alloc: Global,
    script: &mut Script,
    indent: usize,
    body: &[Stmt],
) -> Result<(), NoMemory>
    ensures { OnOk result (script.new ≡ script.old ++ text_of (lines_of_else indent (otherwise (statements_of body.now)))) }
{
    write_word_line(script, indent, Word::Else)?;
    write_statements(alloc, script, deeper(indent)?, body)
}

// The items of a CASE.
#[cycle(lines)]
fn write_items(
    alloc: Global,
    script: &mut Script,
    indent: usize,
    items: &[Arm],
) -> Result<(), NoMemory>
    ensures { OnOk result (script.new ≡ script.old ++ text_of (lines_of_items indent (arms_of items.now))) }
{
    for item in items {
        write_item(alloc, script, indent, item)?;
    }
    Ok(())
}

// An item of a CASE.
#[cycle(lines)]
fn write_item(alloc: Global, script: &mut Script, indent: usize, item: &Arm) -> Result<(), NoMemory>
    ensures { OnOk result (script.new ≡ script.old ++ text_of (lines_of_item indent (arm_of item.now))) }
{
    write_item_line(alloc, script, indent, item.tests.as_slice())?;
    write_statements(alloc, script, deeper(indent)?, &item.body)
}

// The OTHER of a CASE.
#[cycle(lines)]
fn write_other(
    alloc: Global,
    script: &mut Script,
    indent: usize,
    body: &[Stmt],
) -> Result<(), NoMemory>
    ensures { OnOk result (script.new ≡ script.old ++ text_of (lines_of_other indent (otherwise (statements_of body.now)))) }
{
    write_other_line(script, indent)?;
    write_statements(alloc, script, deeper(indent)?, body)
}
