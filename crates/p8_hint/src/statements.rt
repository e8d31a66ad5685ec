// What the rules look at in statements. The calls go as deep as blocks stand in one another.
ghost use Rattle.std.specs.Prelude.{◌≡◌, ◌++◌, ◌+◌, None, map, OnOk, IfOk};
ghost use Rattle.p8_tree.specs.Views.{arm_of, arms_of, course_of, method_of, statement_of, statements_of};
ghost use Rattle.p8_hint.specs.Spots.{bare_of, before_body, behind_body, behind_of, in_arm, in_arms, in_block, in_cases, in_choice, in_statement, spots_in};
ghost use Rattle.p8_hint.specs.SpotViews.{place_at, spots_of};

use crate::expressions::{put_condition, put_items, put_option, put_test, put_tree};
use crate::openers::{is_bare, is_endless};
use crate::spot::Spot;
use p8_tree::{Arm, Loop, Method, Place, Stmt, StmtKind};
use std::alloc::{AllocError, Global};

/// What the rules look at in a method, in the order of the source. It takes time and memory in proportion to the method.
pub(crate) fn spots_of_method<'a>(
    alloc: Global,
    method: &'a Method,
) -> Result<Vec<Spot<'a>>, AllocError>
    ensures { IfOk result (λ spots. spots_of spots.items ≡ spots_in (method_of method.now).body) }
{
    let mut spots = Vec::new(alloc);
    put_method(method, &mut spots)?;
    Ok(spots)
}

/// Puts what the rules look at in a method after what is there.
pub(crate) fn put_method<'a>(
    method: &'a Method,
    spots: &mut Vec<Spot<'a>>,
) -> Result<(), AllocError>
    ensures { OnOk result (spots_of spots.new.items ≡ spots_of spots.old.items ++ spots_in (method_of method.now).body) }
{
    put_block(method.body.as_slice(), spots)
}

// Where the statement of this number stands, where there is one.
fn place_at(statements: &[Stmt], number: usize) -> Option<Place>
    ensures { result ≡ place_at statements.now number }
{
    match statements.get(number) {
        Some(statement) => Some(statement.place),
        None => None,
    }
}

// An opener without a body, before a statement at its column.
fn put_bare<'a>(
    statement: &Stmt,
    next: Option<Place>,
    spots: &mut Vec<Spot<'a>>,
) -> Result<(), AllocError>
    ensures { OnOk result (spots_of spots.new.items ≡ spots_of spots.old.items ++ bare_of (statement_of statement.now) next) }
{
    match next {
        None => Ok(()),
        Some(next) => {
            if is_bare(statement) && next.column == statement.place.column {
                spots.push(Spot::Bare(statement.place))?;
            }
            Ok(())
        }
    }
}

// A statement behind one that never ends.
fn put_behind_endless<'a>(
    statement: &Stmt,
    next: Option<Place>,
    spots: &mut Vec<Spot<'a>>,
) -> Result<(), AllocError>
    ensures { OnOk result (spots_of spots.new.items ≡ spots_of spots.old.items ++ behind_of (statement_of statement.now) next) }
{
    match next {
        None => Ok(()),
        Some(next) => {
            if is_endless(statement) {
                spots.push(Spot::Behind(next))?;
            }
            Ok(())
        }
    }
}

// What a loop has before its body.
fn put_before<'a>(course: &'a Loop, spots: &mut Vec<Spot<'a>>) -> Result<(), AllocError>
    ensures { OnOk result (spots_of spots.new.items ≡ spots_of spots.old.items ++ before_body (course_of course.now)) }
{
    match course {
        Loop::Forever => Ok(()),
        Loop::Count(count) => put_tree(count, spots),
        Loop::Before(_, test) => put_test(test, spots),
        Loop::After(_, _) => Ok(()),
        Loop::From(name, from, to, step, _) => {
            spots.push(Spot::Name(name))?;
            put_tree(from, spots)?;
            put_tree(to, spots)?;
            put_option(step, spots)
        }
    }
}

// What a loop has after its body.
fn put_after<'a>(course: &'a Loop, spots: &mut Vec<Spot<'a>>) -> Result<(), AllocError>
    ensures { OnOk result (spots_of spots.new.items ≡ spots_of spots.old.items ++ behind_body (course_of course.now)) }
{
    match course {
        Loop::After(_, test) => put_test(test, spots),
        _ => Ok(()),
    }
}

#[cycle(statements)]
fn put_block<'a>(statements: &'a [Stmt], spots: &mut Vec<Spot<'a>>) -> Result<(), AllocError>
    ensures { OnOk result (spots_of spots.new.items ≡ spots_of spots.old.items ++ in_block (statements_of statements.now) None) }
{
    for (index, statement) in statements.iter().enumerate() {
        let next = place_at(statements, index + 1);
        put_bare(statement, next, spots)?;
        put_statement(statement, spots)?;
        put_behind_endless(statement, next, spots)?;
    }
    Ok(())
}

#[cycle(statements)]
fn put_statement<'a>(statement: &'a Stmt, spots: &mut Vec<Spot<'a>>) -> Result<(), AllocError>
    ensures { OnOk result (spots_of spots.new.items ≡ spots_of spots.old.items ++ in_statement (statement_of statement.now)) }
{
    match &statement.kind {
        StmtKind::Do(value) => put_tree(value, spots),
        StmtKind::If(arms, rest) => {
            put_arms(arms, spots)?;
            match rest {
                None => Ok(()),
                Some(body) => put_block(body, spots),
            }
        }
        StmtKind::Case(value, arms, rest) => {
            put_tree(value, spots)?;
            put_cases(arms, spots)?;
            match rest {
                None => Ok(()),
                Some(body) => put_block(body, spots),
            }
        }
        StmtKind::Repeat(course, body) => {
            put_before(course, spots)?;
            put_block(body, spots)?;
            put_after(course, spots)
        }
        StmtKind::Next => Ok(()),
        StmtKind::Quit => Ok(()),
        StmtKind::Return(value) => put_option(value, spots),
        StmtKind::Abort(value) => put_option(value, spots),
    }
}

#[cycle(statements)]
fn put_arms<'a>(arms: &'a [Arm], spots: &mut Vec<Spot<'a>>) -> Result<(), AllocError>
    ensures { OnOk result (spots_of spots.new.items ≡ spots_of spots.old.items ++ in_arms (arms_of arms.now)) }
{
    for arm in arms {
        put_arm(arm, spots)?;
    }
    Ok(())
}

#[cycle(statements)]
fn put_arm<'a>(arm: &'a Arm, spots: &mut Vec<Spot<'a>>) -> Result<(), AllocError>
    ensures { OnOk result (spots_of spots.new.items ≡ spots_of spots.old.items ++ in_arm (arm_of arm.now)) }
{
    put_condition(arm.tests.as_slice(), spots)?;
    put_items(arm.tests.as_slice(), spots)?;
    put_block(&arm.body, spots)
}

#[cycle(statements)]
fn put_cases<'a>(arms: &'a [Arm], spots: &mut Vec<Spot<'a>>) -> Result<(), AllocError>
    ensures { OnOk result (spots_of spots.new.items ≡ spots_of spots.old.items ++ in_cases (arms_of arms.now)) }
{
    for arm in arms {
        put_choice(arm, spots)?;
    }
    Ok(())
}

#[cycle(statements)]
fn put_choice<'a>(arm: &'a Arm, spots: &mut Vec<Spot<'a>>) -> Result<(), AllocError>
    ensures { OnOk result (spots_of spots.new.items ≡ spots_of spots.old.items ++ in_choice (arm_of arm.now)) }
{
    put_items(arm.tests.as_slice(), spots)?;
    put_block(&arm.body, spots)
}
