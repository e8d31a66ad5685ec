// What stands in a block, and how a block is closed.
ghost use Rattle.std.specs.Prelude.{◌≡◌, IfOk};
ghost use Rattle.p8_tree.specs.Statements.{If, no_arms, ◌⊳◌, nothing_else};
ghost use Rattle.p8_tree.specs.Views.{action_of, arm_of, statements_of, arms_of};
ghost use Rattle.p8_tree.specs.Bridges.{other_body};
ghost use Rattle.p8_columns.specs.Blocks.{body, choices};
ghost use Rattle.p8_columns.specs.Reader.{begun, with_body, with_choices, with_item, closed, statements_in};
ghost use Rattle.p8_columns.specs.Views.{kind_of, line_of, contents_of};

use crate::line::{Line, LineKind};
use crate::statements::{
    choice, condition, plain, with_another, with_arm, with_else, with_end, with_statement,
};
use p8_tree::{Arm, Stmt, StmtKind};
use std::alloc::{AllocError, Global};

/// What stands in a block so far.
#[derive(Drop)]
pub enum Contents {
    /// Statements.
    Body(Vec<Stmt>),
    /// The items of a `CASE`, and the body of its `OTHER`.
    Choices(Vec<Arm>, Option<Vec<Stmt>>),
}

// A chain with its first arm.
fn chain(alloc: Global, arm: Arm) -> Result<StmtKind, AllocError>
    ensures { IfOk result (λ k. action_of k ≡ If (no_arms ⊳ arm_of arm) nothing_else) }
{
    let arms = with_another(Vec::new(alloc), arm)?;
    Ok(StmtKind::If(arms, None))
}

// Statements and a line with the statements of its block. What doesn't fit is left out: no line that
// is taken comes to that.
fn with_body(
    alloc: Global,
    statements: Vec<Stmt>,
    line: Line,
    body: Vec<Stmt>,
) -> Result<Vec<Stmt>, AllocError>
    ensures { IfOk result (λ v. statements_of v.items ≡ with_body (statements_of statements.items) line.place (kind_of line.kind) (statements_of body.items)) }
{
    let Line { place, kind } = line;
    match kind {
        LineKind::Plain(action) => with_statement(statements, place, plain(action)),
        LineKind::If { negated, test } => {
            let arm = condition(alloc, negated, test, body)?;
            with_statement(statements, place, chain(alloc, arm)?)
        }
        LineKind::ElseIf { negated, test } => {
            with_arm(statements, condition(alloc, negated, test, body)?)
        }
        LineKind::Else => with_else(statements, body),
        LineKind::Repeat(course) => {
            with_statement(statements, place, StmtKind::Repeat(course, body))
        }
        LineKind::End { until, test } => with_end(statements, until, test),
        kind => {
            drop(kind);
            Ok(statements)
        }
    }
}

// Statements and a `CASE` with its items. What doesn't fit is left out, as above.
fn with_choices(
    statements: Vec<Stmt>,
    line: Line,
    arms: Vec<Arm>,
    other: Option<Vec<Stmt>>,
) -> Result<Vec<Stmt>, AllocError>
    ensures { IfOk result (λ v. statements_of v.items ≡
        with_choices (statements_of statements.items) line.place (kind_of line.kind) (arms_of arms.items) (other_body other)) }
{
    let Line { place, kind } = line;
    match kind {
        LineKind::Case(value) => {
            with_statement(statements, place, StmtKind::Case(value, arms, other))
        }
        _ => Ok(statements),
    }
}

// The items of a `CASE` and one more, or its `OTHER`. What doesn't fit is left out, as above.
fn with_item(
    arms: Vec<Arm>,
    other: Option<Vec<Stmt>>,
    kind: LineKind,
    body: Vec<Stmt>,
) -> Result<Contents, AllocError>
    ensures { IfOk result (λ x. contents_of x ≡ with_item (arms_of arms.items) (other_body other) (kind_of kind) (statements_of body.items)) }
{
    match kind {
        LineKind::Item(tests) => {
            let arms = with_another(arms, choice(tests, body))?;
            Ok(Contents::Choices(arms, other))
        }
        LineKind::Other => Ok(Contents::Choices(arms, Some(body))),
        _ => Ok(Contents::Choices(arms, other)),
    }
}

// Statements and a line after them, with the contents of its block.
fn with_block(
    alloc: Global,
    statements: Vec<Stmt>,
    line: Line,
    inner: Contents,
) -> Result<Contents, AllocError>
    ensures { IfOk result (λ x. contents_of x ≡ closed (body (statements_of statements.items)) (line_of line) (contents_of inner)) }
{
    match inner {
        Contents::Body(body) => {
            let statements = with_body(alloc, statements, line, body)?;
            Ok(Contents::Body(statements))
        }
        Contents::Choices(arms, other) => {
            let statements = with_choices(statements, line, arms, other)?;
            Ok(Contents::Body(statements))
        }
    }
}

// The items of a `CASE` and a line after them, with the contents of its block.
fn with_case_block(
    arms: Vec<Arm>,
    other: Option<Vec<Stmt>>,
    line: Line,
    inner: Contents,
) -> Result<Contents, AllocError>
    ensures { IfOk result (λ x. contents_of x ≡ closed (choices (arms_of arms.items) (other_body other)) (line_of line) (contents_of inner)) }
{
    match inner {
        Contents::Body(body) => with_item(arms, other, line.kind, body),
        Contents::Choices(_, _) => Ok(Contents::Choices(arms, other)),
    }
}

impl Contents {
    /// The contents of a block that is opened.
    pub fn begun(alloc: Global, opener: &LineKind) -> Contents
        ensures { contents_of result ≡ begun (kind_of opener.now) }
    {
        match opener {
            LineKind::Case(_) => Contents::Choices(Vec::new(alloc), None),
            _ => Contents::Body(Vec::new(alloc)),
        }
    }

    /// These contents and a line after them, with the contents of its block.
    pub fn with(self, alloc: Global, line: Line, inner: Contents) -> Result<Contents, AllocError>
        ensures { IfOk result (λ x. contents_of x ≡ closed (contents_of self) (line_of line) (contents_of inner)) }
    {
        match self {
            Contents::Body(statements) => with_block(alloc, statements, line, inner),
            Contents::Choices(arms, other) => with_case_block(arms, other, line, inner),
        }
    }

    /// The statements.
    pub fn into_statements(self, alloc: Global) -> Vec<Stmt>
        ensures { statements_of result.items ≡ statements_in (contents_of self) }
    {
        match self {
            Contents::Body(statements) => statements,
            Contents::Choices(_, _) => Vec::new(alloc),
        }
    }
}
