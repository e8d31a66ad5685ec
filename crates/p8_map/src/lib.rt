//! The map of a project: where everything of it stands in the hub, with names as its sources spell them.
#![tactic(auto)]

mod accepted;
mod appending;
mod header;
mod instances;
mod labels;
mod mapping;
mod methods;
mod names;
mod objects;
mod owners;
mod plan;
mod project;
mod spelled;
mod strings;
mod variables;

pub use accepted::names_of_accepted;
pub use appending::{address_after, push_number, push_place};
pub use header::variables_at;
pub use instances::{Instance, instances_of};
pub use mapping::map_text;
pub use names::{FileNames, LocalName, MethodNames};
pub use objects::push_text_line;
pub use project::{map_of_accepted, project_map};
pub use strings::push_items;
pub use variables::{after_size, sized_bytes};
