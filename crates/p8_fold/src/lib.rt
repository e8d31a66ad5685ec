//! The values of constant expressions: what names mean to them, their value, and what is wrong where they have none.
#![tactic(auto)]

mod consts;
mod folding;
mod laws;
mod meanings;
mod string_texts;
mod values;

pub use consts::Consts;
pub use laws::{other_has_no_value, value_or_fault};
pub use meanings::{Here, Meaning};
pub use string_texts::{first_in_text, put_text};
pub use values::{FoldFault, value_of};
