//! Hints: what of an accepted project is most likely a slip of the pen, with the text that mends it.
#![tactic(auto)]

mod accepted;
mod expressions;
mod facts;
mod hint;
mod hint_text;
mod items;
mod labels;
mod laws;
mod lines;
mod methods;
mod openers;
mod project;
mod rules;
mod spot;
mod statements;
mod table;

pub use hint::{Hint, Slip};
pub use laws::one_hints;
pub use project::{hints_of_accepted, project_hints};
