// How many longs the code of statements holds at once on the operand stack. The calls go as deep as blocks stand in one another.
ghost use Rattle.std.specs.Prelude.{◌≡◌, ℕ, option_map};
ghost use Rattle.p8_tree.specs.Expressions.{no_items, ◌▸◌};
ghost use Rattle.p8_tree.specs.Statements.{no_arms, ◌⊳◌};
ghost use Rattle.p8_tree.specs.Views.{tree_of, items_of, item_of, course_of, action_of, arm_of, arms_of, statement_of, statements_of};
ghost use Rattle.p8_gen.specs.Depths.{held_if, held_by_test, held_by_tests, held_by_pass, held_in_loop, held_in, held_in_action, held_in_arms, held_in_cases};
ghost use Rattle.p8_gen.specs.Scopes.{names_of};
ghost use Rattle.p8_stmt.specs.Cutting.{cut};

use crate::expression_depths::{held, held_alone};
use p8_gen::Coder;
use p8_tree::{Arm, Expr, Item, Loop, Stmt, StmtKind};

// An expression that may be there.
fn held_if(coder: &Coder<'_>, expr: &Option<Expr>) -> u16
    ensures { result ≡ cut (held_if (names_of coder.now) (option_map tree_of expr.now)) }
{
    match expr {
        None => 0,
        Some(expr) => held(coder, expr),
    }
}

// The one test of an arm of IF.
fn held_by_test(coder: &Coder<'_>, tests: &[Item]) -> u16
    ensures { result ≡ cut (held_by_test (names_of coder.now) (items_of tests.now)) }
{
    match tests {
        [test] => held_by_condition(coder, test),
        _ => 0,
    }
}

// A test that is one value.
fn held_by_condition(coder: &Coder<'_>, test: &Item) -> u16
    ensures { result ≡ cut (held_by_test (names_of coder.now) (no_items ▸ item_of test.now)) }
{
    match &test.high {
        None => held(coder, &test.low),
        Some(_) => 0,
    }
}

// The tests of an arm of CASE, after the value that is compared.
fn held_by_tests(coder: &Coder<'_>, tests: &[Item]) -> u16
    ensures { result ≡ cut (held_by_tests (names_of coder.now) (items_of tests.now)) }
{
    let mut most: u16 = 0;
    for test in tests {
        most = most.max(held_by_choice(coder, test));
    }
    most
}

fn held_by_choice(coder: &Coder<'_>, test: &Item) -> u16
    ensures { result ≡ cut (held_by_tests (names_of coder.now) (no_items ▸ item_of test.now)) }
{
    let low = held(coder, &test.low).saturating_add(1);
    match &test.high {
        None => low,
        Some(high) => low.max(held(coder, high).saturating_add(2)),
    }
}

// The end of a pass of REPEAT FROM: its step where one is given, and both ends.
fn held_by_pass(coder: &Coder<'_>, step: &Option<Expr>, first: &Expr, last: &Expr) -> u16
    ensures { result ≡ cut (held_by_pass (names_of coder.now) (option_map tree_of step.now) (tree_of first.now) (tree_of last.now)) }
{
    let (low, high) = (held(coder, first), held(coder, last));
    match step {
        None => low.max(high.saturating_add(1)),
        Some(step) => held(coder, step)
            .max(low.saturating_add(1))
            .max(high.saturating_add(2)),
    }
}

// A loop around a body that holds so many. REPEAT e keeps its count below them.
fn held_in_loop(coder: &Coder<'_>, course: &Loop, body: u16) -> u16
    ensures { (n : ℕ) → body ≡ cut n → result ≡ cut (held_in_loop (names_of coder.now) (course_of course.now) n) }
{
    match course {
        Loop::Forever => body,
        Loop::Count(count) => held(coder, count).max(body.saturating_add(1)),
        Loop::Before(_, test) => held(coder, test).max(body),
        Loop::After(_, test) => held(coder, test).max(body),
        Loop::From(_, first, last, step, _) => held(coder, first)
            .max(body)
            .max(held_by_pass(coder, step, first, last)),
    }
}

/// What statements hold.
#[cycle(blocks)]
pub(crate) fn held_in(coder: &Coder<'_>, statements: &[Stmt]) -> u16
    ensures { result ≡ cut (held_in (names_of coder.now) (statements_of statements.now)) }
{
    let mut most: u16 = 0;
    for statement in statements {
        most = most.max(held_in_action(coder, statement));
    }
    most
}

#[cycle(blocks)]
fn held_in_action(coder: &Coder<'_>, statement: &Stmt) -> u16
    ensures { result ≡ cut (held_in_action (names_of coder.now) (action_of statement.now.kind)) }
{
    match &statement.kind {
        StmtKind::Do(expr) => held_alone(coder, expr),
        StmtKind::If(arms, rest) => match rest {
            None => held_in_arms(coder, arms),
            Some(body) => held_in_arms(coder, arms).max(held_in(coder, body)),
        },
        StmtKind::Case(value, arms, rest) => {
            let most = held(coder, value).max(held_in_cases(coder, arms));
            match rest {
                None => most,
                Some(body) => most.max(held_in(coder, body)),
            }
        }
        StmtKind::Repeat(course, body) => held_in_loop(coder, course, held_in(coder, body)),
        StmtKind::Next => 0,
        StmtKind::Quit => 0,
        StmtKind::Return(value) => held_if(coder, value),
        StmtKind::Abort(value) => held_if(coder, value),
    }
}

#[cycle(blocks)]
fn held_in_arms(coder: &Coder<'_>, arms: &[Arm]) -> u16
    ensures { result ≡ cut (held_in_arms (names_of coder.now) (arms_of arms.now)) }
{
    let mut most: u16 = 0;
    for arm in arms {
        most = most.max(held_in_arm(coder, arm));
    }
    most
}

#[cycle(blocks)]
fn held_in_arm(coder: &Coder<'_>, arm: &Arm) -> u16
    ensures { result ≡ cut (held_in_arms (names_of coder.now) (no_arms ⊳ arm_of arm.now)) }
{
    held_by_test(coder, arm.tests.as_slice()).max(held_in(coder, &arm.body))
}

#[cycle(blocks)]
fn held_in_cases(coder: &Coder<'_>, arms: &[Arm]) -> u16
    ensures { result ≡ cut (held_in_cases (names_of coder.now) (arms_of arms.now)) }
{
    let mut most: u16 = 0;
    for arm in arms {
        most = most.max(held_in_case(coder, arm));
    }
    most
}

#[cycle(blocks)]
fn held_in_case(coder: &Coder<'_>, arm: &Arm) -> u16
    ensures { result ≡ cut (held_in_cases (names_of coder.now) (no_arms ⊳ arm_of arm.now)) }
{
    held_by_tests(coder, arm.tests.as_slice()).max(held_in(coder, &arm.body))
}
