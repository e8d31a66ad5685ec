//! The top calls of `prop`, which compiles programs of the Parallax Propeller P8X32A, runs them, and prints the history of the eight cogs.
//!
//! What each command comes to once its files are read is its work: its text, a verdict, or a run with what is told of it.
#![tactic(auto)]

mod answer;
mod code;
mod command_answers;
mod driver;
mod laws;
mod page;
mod run_laws;
mod saved_laws;
mod status;
mod top;
mod view;
mod work;

pub use laws::each_refusal_is_explained;
pub use page::Paging;
pub use run_laws::runs_print_their_history;
pub use saved_laws::saved_histories_are_good;
pub use status::Status;
pub use top::{prop, prop_alone};
pub use view::Viewing;
pub use work::{Answer, Work, work_of};
