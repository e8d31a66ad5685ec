// Statements.
use crate::expressions::{Expr, Item};
use crate::places::Place;
use crate::sequences::{List, Text};

/// A statement with the place of its first token.
#[cycle(stmt)]
#[derive(Drop)]
pub struct Stmt {
    pub place: Place,
    pub kind: StmtKind,
}

/// The forms of a statement.
#[cycle(stmt)]
#[derive(Drop)]
pub enum StmtKind {
    /// An expression whose value isn't used.
    Do(Expr),
    /// An `IF` chain: its arms, and the body of `ELSE`.
    If(Vec<Arm>, Option<Vec<Stmt>>),
    /// `CASE`: the value, the arms, and the body of `OTHER`.
    Case(Expr, Vec<Arm>, Option<Vec<Stmt>>),
    /// `REPEAT` with its body.
    Repeat(Loop, Vec<Stmt>),
    Next,
    Quit,
    /// `RETURN`, alone or with a value.
    Return(Option<Expr>),
    /// `ABORT`, alone or with a value.
    Abort(Option<Expr>),
}

/// An arm of an `IF` chain or of a `CASE`.
#[cycle(stmt)]
#[derive(Drop)]
pub struct Arm {
    /// The condition of an `IF` chain's arm, or the items of a `CASE`.
    pub tests: List<Item>,
    /// Whether the arm is one of `IFNOT` or `ELSEIFNOT`.
    pub negated: bool,
    pub body: Vec<Stmt>,
}

/// How a `REPEAT` goes on.
#[derive(Drop)]
pub enum Loop {
    /// `REPEAT` alone.
    Forever,
    /// `REPEAT e`.
    Count(Expr),
    /// `REPEAT WHILE e`, or `REPEAT UNTIL e` where the flag is set.
    Before(bool, Expr),
    /// `REPEAT`, with `WHILE e` after the body, or `UNTIL e` where the flag is set.
    After(bool, Expr),
    /// `REPEAT name FROM e TO e STEP e`, with the place of the name at its end.
    From(Text, Expr, Expr, Option<Expr>, Place),
}
