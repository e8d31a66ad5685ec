//! What is told of a history that has ended: its trace, a summary, or its file; and the words about a history file that was checked.
//!
//! Also made programs: eight cogs that run the same made-up instructions on 16 longs of the hub, from one seed, and the text
//! about what became of it.
#![tactic(auto)]

mod checks;
mod finish;
mod hub_words;
mod image;
mod instructions;
mod summary_text;

pub use checks::{good_line, tell_bad_history};
pub use finish::{Finish, told};
pub use image::made_image;
pub use summary_text::summary;
