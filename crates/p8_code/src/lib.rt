//! The code of a project or of an image for reading: its listing with the names of bytecodes and of what they name, with texts, and with the lines of
//! the sources.
#![tactic(auto)]

mod bytecodes;
mod codes;
mod dat;
mod images;
mod laws;
mod objects;
mod operations;
mod project;
mod slices;
mod source;

pub use images::image_code;
pub use laws::{bytecodes_have_names, listing_is_in_code, listing_is_in_code_of_accepted};
pub use project::{project_code, project_short_code};
