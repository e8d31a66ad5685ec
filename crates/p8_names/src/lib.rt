//! The names of a file: each with its kind, or the first of what is wrong with them.
//!
//! What each file of a project sees of the files of its objects is found first. Laws say what holds of resolved names.
#![tactic(auto)]

mod beginning;
mod child;
mod child_laws;
mod copies;
mod data_names;
mod file_kinds;
mod finding;
mod hiding;
mod item_faults;
mod labels;
mod mention_graph;
mod method_faults;
mod method_list;
mod next_kinds;
mod numbers;
mod outside;
mod own_kinds;
mod resolved_laws;
mod resolving;

pub use beginning::constants_in;
pub use child_laws::one_for_each_project;
pub use finding::children_of;
pub use method_list::number_behind;
pub use own_kinds::numbered;
pub use resolved_laws::{own_names_are_apart, resolved_constants_are_words};
pub use resolving::{NameFault, resolve};
