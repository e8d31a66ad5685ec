//! Statements: what a line of a method is, by its row of pieces.
#![tactic(auto)]

mod laws;
mod role;
mod statement_pieces;
mod statements;

pub use laws::kinds_are_proper;
pub use statements::line_kind;
