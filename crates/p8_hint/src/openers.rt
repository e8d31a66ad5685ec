// How statements follow one another. The calls go as deep as blocks stand in one another.
ghost use Rattle.std.specs.Prelude.{◌≡◌, ◌&&◌, ◌||◌, not, map};
ghost use Rattle.p8_tree.specs.Views.{action_of, arm_of, arms_of, course_of, statement_of, statements_of};
ghost use Rattle.p8_hint.specs.Spots.{action_quits, arm_quits, arms_quit, counts, has_no_body, is_bare, is_empty, is_endless, is_forever};
ghost use Rattle.p8_hint.specs.Spots.{is_lone_and_bare, quit, quits};

use p8_tree::{Arm, Loop, Stmt, StmtKind};

fn either(a: bool, b: bool) -> bool
    ensures { result ≡ (a || b) }
{
    a || b
}

fn both(a: bool, b: bool) -> bool
    ensures { result ≡ (a && b) }
{
    a && b
}

fn is_empty(statements: &[Stmt]) -> bool
    ensures { result ≡ is_empty (map statement_of statements.now) }
{
    match statements {
        [] => true,
        [_, ..] => false,
    }
}

// Whether an arm has no body.
fn has_no_body(arm: &Arm) -> bool
    ensures { result ≡ has_no_body (arm_of arm.now) }
{
    is_empty(&arm.body)
}

// Whether there is one arm, and it has no body.
fn is_lone_and_bare(arms: &[Arm]) -> bool
    ensures { result ≡ is_lone_and_bare (map arm_of arms.now) }
{
    match arms {
        [arm] => has_no_body(arm),
        _ => false,
    }
}

// Whether a loop is none of `WHILE` and `UNTIL`.
fn counts(course: &Loop) -> bool
    ensures { result ≡ counts (course_of course.now) }
{
    match course {
        Loop::Forever => true,
        Loop::Count(_) => true,
        Loop::Before(_, _) => false,
        Loop::After(_, _) => false,
        Loop::From(..) => true,
    }
}

// Whether a loop has no condition.
fn is_forever(course: &Loop) -> bool
    ensures { result ≡ is_forever (course_of course.now) }
{
    match course {
        Loop::Forever => true,
        Loop::Count(_) => false,
        Loop::Before(_, _) => false,
        Loop::After(_, _) => false,
        Loop::From(..) => false,
    }
}

/// Whether a statement is an opener without a body that is most likely to have one.
pub(crate) fn is_bare(statement: &Stmt) -> bool
    ensures { result ≡ is_bare (action_of statement.now.kind) }
{
    match &statement.kind {
        StmtKind::Do(_) => false,
        StmtKind::If(arms, rest) => match rest {
            None => is_lone_and_bare(arms),
            Some(_) => false,
        },
        StmtKind::Case(..) => false,
        StmtKind::Repeat(course, body) => both(counts(course), is_empty(body)),
        StmtKind::Next => false,
        StmtKind::Quit => false,
        StmtKind::Return(_) => false,
        StmtKind::Abort(_) => false,
    }
}

/// Whether statements have a `QUIT` that leaves the loop in which they stand.
#[cycle(quits)]
fn quit(statements: &[Stmt]) -> bool
    ensures { result ≡ quit (statements_of statements.now) }
{
    let mut found = false;
    for statement in statements {
        found = either(found, quits(statement));
    }
    found
}

#[cycle(quits)]
fn quits(statement: &Stmt) -> bool
    ensures { result ≡ quits (statement_of statement.now) }
{
    match &statement.kind {
        StmtKind::Do(_) => false,
        StmtKind::If(arms, rest) => match rest {
            None => arms_quit(arms),
            Some(body) => either(arms_quit(arms), quit(body)),
        },
        StmtKind::Case(_, arms, rest) => match rest {
            None => arms_quit(arms),
            Some(body) => either(arms_quit(arms), quit(body)),
        },
        StmtKind::Repeat(_, _) => false,
        StmtKind::Next => false,
        StmtKind::Quit => true,
        StmtKind::Return(_) => false,
        StmtKind::Abort(_) => false,
    }
}

#[cycle(quits)]
fn arms_quit(arms: &[Arm]) -> bool
    ensures { result ≡ arms_quit (arms_of arms.now) }
{
    let mut found = false;
    for arm in arms {
        found = either(found, arm_quits(arm));
    }
    found
}

#[cycle(quits)]
fn arm_quits(arm: &Arm) -> bool
    ensures { result ≡ arm_quits (arm_of arm.now) }
{
    quit(&arm.body)
}

// Whether a body has statements, and none that quits the loop around it.
fn has_no_quit(body: &[Stmt]) -> bool
    ensures { result ≡ (not (is_empty (map statement_of body.now)) && not (quit (statements_of body.now))) }
{
    let (empty, left) = (is_empty(body), quit(body));
    both(!empty, !left)
}

/// Whether a statement is a loop without condition that has a body and is never left by `QUIT`.
pub(crate) fn is_endless(statement: &Stmt) -> bool
    ensures { result ≡ is_endless (action_of statement.now.kind) }
{
    match &statement.kind {
        StmtKind::Do(_) => false,
        StmtKind::If(..) => false,
        StmtKind::Case(..) => false,
        StmtKind::Repeat(course, body) => both(is_forever(course), has_no_quit(body)),
        StmtKind::Next => false,
        StmtKind::Quit => false,
        StmtKind::Return(_) => false,
        StmtKind::Abort(_) => false,
    }
}
