// Statements from their parts, one after another.
ghost use Rattle.std.specs.Prelude.{◌≡◌, [], IfOk, false};
ghost use Rattle.p8_tree.specs.Statements.{statement, Statement, If, Repeat, After, nothing_else, otherwise, ◌▹◌, ◌⊳◌, arm};
ghost use Rattle.p8_tree.specs.Views.{tree_of, items_of, statement_of, action_of, statements_of, arms_of, arm_of, course_of};
ghost use Rattle.p8_tree.specs.Bridges.{other_body};
ghost use Rattle.p8_columns.specs.Blocks.{condition};
ghost use Rattle.p8_columns.specs.Reader.{chained, ended, closing, tested, with_arm, with_else, with_end};
ghost use Rattle.p8_columns.specs.Views.{plain_of};

use crate::line::Action;
use p8_tree::{Arm, Expr, Item, List, Loop, Place, Stmt, StmtKind};
use std::alloc::{AllocError, Global};

// Room for one, where there is none yet: most bodies, chains and tests have one element, for which a first push takes room for four.
fn make_room<T>(items: &mut Vec<T>) -> Result<(), AllocError>
    ensures { items.new.items ≡ items.old.items }
{
    if items.is_empty() {
        items.reserve_exact(1)?;
    }
    Ok(())
}

/// The statement that a line is by itself.
pub fn plain(action: Action) -> StmtKind
    ensures { action_of result ≡ plain_of action }
{
    match action {
        Action::Do(tree) => StmtKind::Do(tree),
        Action::Next => StmtKind::Next,
        Action::Quit => StmtKind::Quit,
        Action::Return(value) => StmtKind::Return(value),
        Action::Abort(value) => StmtKind::Abort(value),
    }
}

/// Statements and one more.
pub fn with_statement(
    statements: Vec<Stmt>,
    place: Place,
    kind: StmtKind,
) -> Result<Vec<Stmt>, AllocError>
    ensures { IfOk result (λ v. statements_of v.items ≡ statements_of statements.items ▹ statement place (action_of kind)) }
{
    with_last(statements, Stmt { place, kind })
}

/// An arm of a chain.
pub fn condition(
    alloc: Global,
    negated: bool,
    test: Expr,
    body: Vec<Stmt>,
) -> Result<Arm, AllocError>
    ensures { IfOk result (λ a. arm_of a ≡ condition negated (tree_of test) (statements_of body.items)) }
{
    let mut tests = Vec::new(alloc);
    make_room(&mut tests)?;
    tests.push(Item {
        low: test,
        high: None,
    })?;
    Ok(Arm {
        tests: List::from_vec(tests),
        negated,
        body,
    })
}

/// An item of a `CASE`.
pub fn choice(tests: List<Item>, body: Vec<Stmt>) -> Arm
    ensures { arm_of result ≡ arm (items_of tests) false (statements_of body.items) }
{
    Arm {
        tests,
        negated: false,
        body,
    }
}

/// Arms and one more.
pub fn with_another(arms: Vec<Arm>, arm: Arm) -> Result<Vec<Arm>, AllocError>
    ensures { IfOk result (λ v. arms_of v.items ≡ arms_of arms.items ⊳ arm_of arm) }
{
    let mut arms = arms;
    make_room(&mut arms)?;
    arms.push(arm)?;
    Ok(arms)
}

// One more arm, where the chain has no `ELSE`.
fn chain_with(
    place: Place,
    arms: Vec<Arm>,
    other: Option<Vec<Stmt>>,
    arm: Arm,
) -> Result<Stmt, AllocError>
    ensures { IfOk result (λ s. statement_of s ≡ chained (statement place (If (arms_of arms.items) (other_body other))) (arm_of arm)) }
{
    match other {
        None => Ok(Stmt {
            place,
            kind: StmtKind::If(with_another(arms, arm)?, None),
        }),
        Some(body) => Ok(Stmt {
            place,
            kind: StmtKind::If(arms, Some(body)),
        }),
    }
}

// One more arm, where the statement is a chain that may go on.
fn chained(statement: Stmt, arm: Arm) -> Result<Stmt, AllocError>
    ensures { IfOk result (λ s. statement_of s ≡ chained (statement_of statement) (arm_of arm)) }
{
    let Stmt { place, kind } = statement;
    match kind {
        StmtKind::If(arms, other) => chain_with(place, arms, other, arm),
        kind => Ok(Stmt { place, kind }),
    }
}

/// Statements whose last, a chain that may go on, gets one more arm.
pub fn with_arm(statements: Vec<Stmt>, arm: Arm) -> Result<Vec<Stmt>, AllocError>
    ensures { IfOk result (λ v. statements_of v.items ≡ with_arm (statements_of statements.items) (arm_of arm)) }
{
    let mut statements = statements;
    match statements.pop() {
        Some(last) => {
            let last = chained(last, arm)?;
            with_last(statements, last)
        }
        None => Ok(statements),
    }
}

// Statements and one more.
fn with_last(statements: Vec<Stmt>, last: Stmt) -> Result<Vec<Stmt>, AllocError>
    ensures { IfOk result (λ v. statements_of v.items ≡ statements_of statements.items ▹ statement_of last) }
{
    let mut statements = statements;
    make_room(&mut statements)?;
    statements.push(last)?;
    Ok(statements)
}

// `ELSE`, where the chain has none.
fn chain_ended(place: Place, arms: Vec<Arm>, other: Option<Vec<Stmt>>, body: Vec<Stmt>) -> Stmt
    ensures { statement_of result ≡ ended (statement place (If (arms_of arms.items) (other_body other))) (statements_of body.items) }
{
    match other {
        None => Stmt {
            place,
            kind: StmtKind::If(arms, Some(body)),
        },
        Some(first) => Stmt {
            place,
            kind: StmtKind::If(arms, Some(first)),
        },
    }
}

// `ELSE`, where the statement is a chain that may go on.
fn ended(statement: Stmt, body: Vec<Stmt>) -> Stmt
    ensures { statement_of result ≡ ended (statement_of statement) (statements_of body.items) }
{
    let Stmt { place, kind } = statement;
    match kind {
        StmtKind::If(arms, other) => chain_ended(place, arms, other, body),
        kind => Stmt { place, kind },
    }
}

/// Statements whose last, a chain that may go on, gets its `ELSE`.
pub fn with_else(statements: Vec<Stmt>, body: Vec<Stmt>) -> Result<Vec<Stmt>, AllocError>
    ensures { IfOk result (λ v. statements_of v.items ≡ with_else (statements_of statements.items) (statements_of body.items)) }
{
    let mut statements = statements;
    match statements.pop() {
        Some(last) => with_last(statements, ended(last, body)),
        None => Ok(statements),
    }
}

// The course of a loop with a test at its end, where it has none of its own.
fn closing(course: Loop, until: bool, test: Expr) -> Loop
    ensures { course_of result ≡ closing (course_of course) until (tree_of test) }
{
    match course {
        Loop::Forever => Loop::After(until, test),
        course => {
            drop(test);
            course
        }
    }
}

// The test at the end of a loop, where the statement is a plain loop.
fn tested(statement: Stmt, until: bool, test: Expr) -> Stmt
    ensures { statement_of result ≡ tested (statement_of statement) until (tree_of test) }
{
    let Stmt { place, kind } = statement;
    match kind {
        StmtKind::Repeat(course, body) => Stmt {
            place,
            kind: StmtKind::Repeat(closing(course, until, test), body),
        },
        kind => {
            drop(test);
            Stmt { place, kind }
        }
    }
}

/// Statements whose last, a plain loop, gets the test at its end.
pub fn with_end(statements: Vec<Stmt>, until: bool, test: Expr) -> Result<Vec<Stmt>, AllocError>
    ensures { IfOk result (λ v. statements_of v.items ≡ with_end (statements_of statements.items) until (tree_of test)) }
{
    let mut statements = statements;
    match statements.pop() {
        Some(last) => with_last(statements, tested(last, until, test)),
        None => {
            drop(test);
            Ok(statements)
        }
    }
}
