// The first call of a file's methods with another number of arguments than is expected. The calls go as deep as blocks stand in one another.
ghost use Rattle.std.specs.Prelude.{◌≡◌, IfOk, option_map};
ghost use Rattle.p8_tree.specs.Views.{arm_of, arms_of, course_of, source_of, statement_of, statements_of, tree_of};
ghost use Rattle.p8_constants.specs.Standing.{item_of, items_of as item_trees};
ghost use Rattle.p8_build.specs.Arguments.{arguments_at, in_arm, in_arms, in_course, in_method, in_methods, in_option, in_statement, in_statements};
ghost use Rattle.p8_build.specs.Searching.{search_of};

use crate::arguments::Sought;
use crate::calls::{in_items, told_in};
use crate::sizes::Size;
use p8_constants::{Item, items_of};
use p8_kinds::Children;
use p8_tree::{Arm, Expr, Loop, Place, SourceFile, Stmt, StmtKind};
use p8_words::NoMemory;
use std::alloc::Global;

fn in_option(sought: &Sought<'_>, expr: &Option<Expr>) -> Option<Size>
    ensures { result ≡ in_option (search_of sought.now) (option_map tree_of expr.now) }
{
    match expr {
        None => None,
        Some(expr) => told_in(sought, expr),
    }
}

// How a REPEAT goes on.
fn in_course(sought: &Sought<'_>, course: &Loop) -> Option<Size>
    ensures { result ≡ in_course (search_of sought.now) (course_of course.now) }
{
    match course {
        Loop::Forever => None,
        Loop::Count(count) => told_in(sought, count),
        Loop::Before(_, test) => told_in(sought, test),
        Loop::After(_, test) => told_in(sought, test),
        Loop::From(_, from, to, step, _) => {
            let ends = told_in(sought, from).or(told_in(sought, to));
            ends.or(in_option(sought, step))
        }
    }
}

#[cycle(callers)]
fn in_statements(sought: &Sought<'_>, statements: &[Stmt]) -> Option<Size>
    ensures { result ≡ in_statements (search_of sought.now) (statements_of statements.now) }
{
    let mut first = None;
    for statement in statements {
        first = first.or(in_statement(sought, statement));
    }
    first
}

#[cycle(callers)]
fn in_statement(sought: &Sought<'_>, statement: &Stmt) -> Option<Size>
    ensures { result ≡ in_statement (search_of sought.now) (statement_of statement.now) }
{
    match &statement.kind {
        StmtKind::Do(value) => told_in(sought, value),
        StmtKind::If(arms, rest) => {
            let first = in_arms(sought, arms);
            match rest {
                None => first,
                Some(body) => first.or(in_statements(sought, body)),
            }
        }
        StmtKind::Case(value, arms, rest) => {
            let first = told_in(sought, value).or(in_arms(sought, arms));
            match rest {
                None => first,
                Some(body) => first.or(in_statements(sought, body)),
            }
        }
        StmtKind::Repeat(course, body) => {
            in_course(sought, course).or(in_statements(sought, body))
        }
        StmtKind::Next => None,
        StmtKind::Quit => None,
        StmtKind::Return(value) => in_option(sought, value),
        StmtKind::Abort(value) => in_option(sought, value),
    }
}

#[cycle(callers)]
fn in_arms(sought: &Sought<'_>, arms: &[Arm]) -> Option<Size>
    ensures { result ≡ in_arms (search_of sought.now) (arms_of arms.now) }
{
    let mut first = None;
    for arm in arms {
        first = first.or(in_arm(sought, arm));
    }
    first
}

#[cycle(callers)]
fn in_arm(sought: &Sought<'_>, arm: &Arm) -> Option<Size>
    ensures { result ≡ in_arm (search_of sought.now) (arm_of arm.now) }
{
    in_items(sought, arm.tests.as_slice()).or(in_statements(sought, &arm.body))
}

fn in_method(sought: &Sought<'_>, item: Item<'_>) -> Option<Size>
    ensures { result ≡ in_method (search_of sought.now) (item_of item.entry) }
{
    match item {
        Item::Method(method) => in_statements(sought, method.body.as_slice()),
        _ => None,
    }
}

fn in_methods(sought: &Sought<'_>, items: &[Item<'_>]) -> Option<Size>
    ensures { result ≡ in_methods (search_of sought.now) (item_trees items.now) }
{
    for item in items {
        if let Some(size) = in_method(sought, *item) {
            return Some(size);
        }
    }
    None
}

/// The first call at a place of a file with another number of arguments than is expected, by what the file sees of its objects.
pub(crate) fn arguments_at(
    alloc: Global,
    file: &SourceFile,
    children: &Children,
    place: Place,
) -> Result<Option<Size>, NoMemory>
    ensures { IfOk result (λ size. size ≡ arguments_at (source_of file.now) children.now place) }
{
    let items = items_of(alloc, file)?;
    let sought = Sought {
        items: &items,
        children: children.items.as_slice(),
        place,
    };
    Ok(in_methods(&sought, sought.items))
}
