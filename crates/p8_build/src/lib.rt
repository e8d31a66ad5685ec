//! From a gathered project to the parts of its image, its image, or its first refusal.
//!
//! The texts of a method's `STRING`s are listed on the way.
#![tactic(auto)]

mod accepting;
mod arguments;
mod assembling;
mod building;
mod callers;
mod calls;
mod coding;
mod expressions;
mod fault;
mod finishing;
mod laws;
mod objects;
mod sizes;
mod statements;
mod string_texts;
mod text_numbers;

pub use accepting::AcceptedFile;
pub use building::{Accepted, Built, accept, build, build_parts};
pub use fault::BuildFault;
pub use finishing::finish;
pub use laws::{miscounted_calls_are_told, one_build};
pub use objects::object_of_codes;
pub use sizes::Size;
pub use statements::strings_of;
pub use string_texts::StringText;
