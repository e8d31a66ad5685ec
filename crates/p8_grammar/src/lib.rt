//! Expressions: which tokens spell which trees.
#![tactic(auto)]

mod laws;
mod lexemes;

pub use laws::{fronts_begin_fronts, height_shows, one_longest_front, one_tree, spelled_is_proper};
pub use lexemes::{Access, Lexeme, Punctuation, Setting};
