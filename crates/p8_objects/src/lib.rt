//! The files of a project, gathered from a shelf.
#![tactic(auto)]

mod fault;
mod gathered;
mod gathering;
mod laws;
mod mentions;
mod next;
mod source;

pub use fault::{GatherFault, Mention, ReadFile};
pub use gathered::{Gathered, discard};
pub use gathering::gather;
pub use laws::{one_outcome, projects_are_gathered};
