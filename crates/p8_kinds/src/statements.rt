// The first misuse of a name in statements. The calls go as deep as blocks stand in one another.
ghost use Rattle.std.specs.Prelude.{◌≡◌, option_map};
ghost use Rattle.p8_tree.specs.Views.{tree_of, variable_of, course_of, action_of, statement_of, statements_of, arm_of, arms_of};
ghost use Rattle.p8_kinds.specs.Environments.{environment_of};
ghost use Rattle.p8_kinds.specs.Misuses.{plain_name, name_alone};
ghost use Rattle.p8_kinds.specs.FirstMisuses.{first_done, first_in_option, first_in_course, first_in_statements, first_in_statement, first_in_action};
ghost use Rattle.p8_kinds.specs.FirstMisuses.{first_in_arm, first_in_arms};

use crate::expressions::{first_in, first_in_items};
use crate::rules::Rules;
use crate::scope::Scope;
use crate::single::misuse;
use crate::uses::Use;
use p8_tree::{Arm, Expr, ExprKind, Fault, Loop, Stmt, StmtKind, Target, first_of_two};

// A whole statement that is a variable.
fn first_in_variable_alone(scope: &Scope, variable: &Target, expr: &Expr) -> Option<Fault>
    ensures { result ≡ first_done (environment_of scope.now) (plain_name (variable_of variable.now)) (tree_of expr.now) }
{
    match variable {
        Target::Named(name, None, place) => misuse(Use::Method(0), scope.kind(name), *place),
        _ => first_in(scope, Rules::Method, expr),
    }
}

// An expression as a whole statement.
fn first_done(scope: &Scope, expr: &Expr) -> Option<Fault>
    ensures { result ≡ first_done (environment_of scope.now) (name_alone (tree_of expr.now)) (tree_of expr.now) }
{
    match &expr.kind {
        ExprKind::Var(variable) => first_in_variable_alone(scope, variable, expr),
        _ => first_in(scope, Rules::Method, expr),
    }
}

// An expression that may be there.
fn first_in_option(scope: &Scope, expr: &Option<Expr>) -> Option<Fault>
    ensures { result ≡ first_in_option (environment_of scope.now) (option_map tree_of expr.now) }
{
    match expr {
        None => None,
        Some(expr) => first_in(scope, Rules::Method, expr),
    }
}

// How a REPEAT goes on.
fn first_in_course(scope: &Scope, course: &Loop) -> Option<Fault>
    ensures { result ≡ first_in_course (environment_of scope.now) (course_of course.now) }
{
    match course {
        Loop::Forever => None,
        Loop::Count(count) => first_in(scope, Rules::Method, count),
        Loop::Before(_, test) => first_in(scope, Rules::Method, test),
        Loop::After(_, test) => first_in(scope, Rules::Method, test),
        Loop::From(name, from, to, step, place) => {
            let ends = first_of_two(
                first_in(scope, Rules::Method, from),
                first_in(scope, Rules::Method, to),
            );
            first_of_two(
                misuse(Use::Variable, scope.kind(name), *place),
                first_of_two(ends, first_in_option(scope, step)),
            )
        }
    }
}

// The first misuse in statements.
#[cycle(statements)]
pub(crate) fn first_in_statements(scope: &Scope, statements: &[Stmt]) -> Option<Fault>
    ensures { result ≡ first_in_statements (environment_of scope.now) (statements_of statements.now) }
{
    let mut first = None;
    for statement in statements {
        first = first_of_two(first, first_in_statement(scope, statement));
    }
    first
}

#[cycle(statements)]
fn first_in_statement(scope: &Scope, statement: &Stmt) -> Option<Fault>
    ensures { result ≡ first_in_statement (environment_of scope.now) (statement_of statement.now) }
{
    match &statement.kind {
        StmtKind::Do(value) => first_done(scope, value),
        StmtKind::If(arms, rest) => {
            let first = first_in_arms(scope, arms);
            match rest {
                None => first,
                Some(body) => first_of_two(first, first_in_statements(scope, body)),
            }
        }
        StmtKind::Case(value, arms, rest) => {
            let first = first_of_two(
                first_in(scope, Rules::Method, value),
                first_in_arms(scope, arms),
            );
            match rest {
                None => first,
                Some(body) => first_of_two(first, first_in_statements(scope, body)),
            }
        }
        StmtKind::Repeat(course, body) => first_of_two(
            first_in_course(scope, course),
            first_in_statements(scope, body),
        ),
        StmtKind::Next => None,
        StmtKind::Quit => None,
        StmtKind::Return(value) => first_in_option(scope, value),
        StmtKind::Abort(value) => first_in_option(scope, value),
    }
}

#[cycle(statements)]
fn first_in_arms(scope: &Scope, arms: &[Arm]) -> Option<Fault>
    ensures { result ≡ first_in_arms (environment_of scope.now) (arms_of arms.now) }
{
    let mut first = None;
    for arm in arms {
        first = first_of_two(first, first_in_arm(scope, arm));
    }
    first
}

#[cycle(statements)]
fn first_in_arm(scope: &Scope, arm: &Arm) -> Option<Fault>
    ensures { result ≡ first_in_arm (environment_of scope.now) (arm_of arm.now) }
{
    first_of_two(
        first_in_items(scope, Rules::Method, arm.tests.as_slice()),
        first_in_statements(scope, &arm.body),
    )
}
