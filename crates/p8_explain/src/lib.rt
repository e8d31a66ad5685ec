//! What is told of a source's text to a person: what a refusal or a missing file says, with the line and a mark under the place, what is wrong and
//! what often mends it.
#![tactic(auto)]

mod appending;
mod causes;
mod entries;
mod explaining;
mod lines;
mod sizes;
mod slips;
mod standing;

pub use appending::push_decimal;
pub use explaining::{absence, entry, explanation, push_place};
pub use lines::{push_cell, push_marked, rest_of};
