//! The text of a source's tree.
//!
//! What [`print_tree`] writes is said by the lines of a tree, each of them words after some blanks: words of expressions,
//! of declarations, of lines of methods and of lines of `DAT`. That the tree of a file is read from this text, but for
//! places, is a law of the crate `p8_printed`.
#![tactic(auto)]

mod assembly;
mod declarations;
mod expressions;
mod instructions;
mod lines;
mod printing;
mod script;
mod statements;
mod tables;
mod words;

pub use printing::print_tree;
