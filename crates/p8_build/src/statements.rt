// The texts of statements. The calls go as deep as blocks stand in one another.
ghost use Rattle.std.specs.Prelude.{◌≡◌, ◌++◌, OnOk, IfOk};
ghost use Rattle.p8_tree.specs.Views.{course_of, method_of, statement_of, statements_of, arm_of, arms_of};
ghost use Rattle.p8_build.specs.Strings.{before_body, behind_body, strings_in, in_statement, in_arm, in_arms};
ghost use Rattle.p8_build.specs.Views.{texts_of};

use crate::expressions::{put_items, put_option, put_tree};
use crate::string_texts::StringText;
use p8_tree::{Arm, Loop, Method, Stmt, StmtKind};
use p8_words::NoMemory;
use std::alloc::{AllocError, Global};

/// The `STRING`s of a method with their places, in the order of the source.
///
/// It takes time and memory in proportion to the method.
pub fn strings_of<'a>(alloc: Global, method: &'a Method) -> Result<Vec<StringText<'a>>, NoMemory>
    ensures { IfOk result (λ texts. texts_of texts.items ≡ strings_in (method_of method.now).body) }
{
    let mut texts = Vec::new(alloc);
    put_statements(method.body.as_slice(), &mut texts)?;
    Ok(texts)
}

// What a loop has before its body.
fn put_before<'a>(course: &'a Loop, texts: &mut Vec<StringText<'a>>) -> Result<(), AllocError>
    ensures { OnOk result (texts_of texts.new.items ≡ texts_of texts.old.items ++ before_body (course_of course.now)) }
{
    match course {
        Loop::Forever => Ok(()),
        Loop::Count(count) => put_tree(count, texts),
        Loop::Before(_, test) => put_tree(test, texts),
        Loop::After(_, _) => Ok(()),
        Loop::From(_, from, to, step, _) => {
            put_tree(from, texts)?;
            put_tree(to, texts)?;
            put_option(step, texts)
        }
    }
}

// What a loop has after its body.
fn put_behind<'a>(course: &'a Loop, texts: &mut Vec<StringText<'a>>) -> Result<(), AllocError>
    ensures { OnOk result (texts_of texts.new.items ≡ texts_of texts.old.items ++ behind_body (course_of course.now)) }
{
    match course {
        Loop::After(_, test) => put_tree(test, texts),
        _ => Ok(()),
    }
}

#[cycle(statements)]
fn put_statements<'a>(
    statements: &'a [Stmt],
    texts: &mut Vec<StringText<'a>>,
) -> Result<(), AllocError>
    ensures { OnOk result (texts_of texts.new.items ≡ texts_of texts.old.items ++ strings_in (statements_of statements.now)) }
{
    for statement in statements {
        put_statement(statement, texts)?;
    }
    Ok(())
}

#[cycle(statements)]
fn put_statement<'a>(statement: &'a Stmt, texts: &mut Vec<StringText<'a>>) -> Result<(), AllocError>
    ensures { OnOk result (texts_of texts.new.items ≡ texts_of texts.old.items ++ in_statement (statement_of statement.now)) }
{
    match &statement.kind {
        StmtKind::Do(value) => put_tree(value, texts),
        StmtKind::If(arms, rest) => {
            put_arms(arms, texts)?;
            match rest {
                None => Ok(()),
                Some(body) => put_statements(body, texts),
            }
        }
        StmtKind::Case(value, arms, rest) => {
            put_tree(value, texts)?;
            put_arms(arms, texts)?;
            match rest {
                None => Ok(()),
                Some(body) => put_statements(body, texts),
            }
        }
        StmtKind::Repeat(course, body) => {
            put_before(course, texts)?;
            put_statements(body, texts)?;
            put_behind(course, texts)
        }
        StmtKind::Next => Ok(()),
        StmtKind::Quit => Ok(()),
        StmtKind::Return(value) => put_option(value, texts),
        StmtKind::Abort(value) => put_option(value, texts),
    }
}

#[cycle(statements)]
fn put_arms<'a>(arms: &'a [Arm], texts: &mut Vec<StringText<'a>>) -> Result<(), AllocError>
    ensures { OnOk result (texts_of texts.new.items ≡ texts_of texts.old.items ++ in_arms (arms_of arms.now)) }
{
    for arm in arms {
        put_arm(arm, texts)?;
    }
    Ok(())
}

#[cycle(statements)]
fn put_arm<'a>(arm: &'a Arm, texts: &mut Vec<StringText<'a>>) -> Result<(), AllocError>
    ensures { OnOk result (texts_of texts.new.items ≡ texts_of texts.old.items ++ in_arm (arm_of arm.now)) }
{
    put_items(arm.tests.as_slice(), texts)?;
    put_statements(&arm.body, texts)
}
