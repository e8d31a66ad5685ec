//! The statements of a method from its lines, by their columns.
//!
//! A line has the place of its first token and its kind. A line at column c closes every open block
//! whose opener stands at column c or to the right of it, and then stands in the innermost block that
//! is left, the method itself at last. An `ELSE` kind goes on with the `IF` chain at its own column,
//! a line that begins with `WHILE` or `UNTIL` ends the plain `REPEAT` at its own column, and items and
//! `OTHER` stand directly under a `CASE`, with nothing after `OTHER`.
//!
//! `Blocks` takes the lines one after another, each where it fits, and gives the statements. Its
//! queries tell what fits at a column, how deep a line there would stand and whether in a loop; what
//! to refuse is the caller's business. Lines are at most one list of statements, and one exactly where
//! each of them fits: `one_reading` and `fit_together`.
//!
//! Indentation groups lines by the Propeller Manual v1.2; what the manual leaves open (lines of one
//! block at several columns, a `CASE` with nothing under it) is this project's profile.
#![tactic(auto)]

mod blocks;
mod contents;
mod laws;
mod line;
mod room;
mod stack;
mod statements;

pub use blocks::Blocks;
pub use laws::{fit_together, method_is_innermost, one_reading, opener_is_innermost};
pub use line::{Action, Line, LineKind};
pub use room::{Chain, Room};
