// What the rules look at in a method.
use p8_tree::{Expr, Place, Text};

/// What the rules look at in a method's statements.
#[derive(Clone, Copy)]
pub enum Spot<'a> {
    /// A name stands in an expression, or counts a loop.
    Name(&'a Text),
    /// A name's address is taken, or it has an index.
    Reach(&'a Text),
    /// `COGNEW` or `COGINIT`: what is started, and its stack, or for PASM its parameter.
    Start(&'a Expr, &'a Expr),
    /// The port of a `WAITPEQ` or a `WAITPNE`.
    Port(&'a Expr),
    /// The whole test of an `IF`, an `ELSEIF`, a `WHILE` or an `UNTIL`.
    Test(&'a Expr),
    /// An opener without a body, before a line at its column.
    Bare(Place),
    /// A statement behind a loop that never ends.
    Behind(Place),
}
