//! Lines: which tokens may stand next in a line of a source, and reading a line to its pieces.
#![tactic(auto)]

mod arrow;
mod diagram;
mod reading;
mod sign;
mod state;
mod words;

pub use arrow::Arrow;
pub use reading::{one_reading, read_line};
pub use sign::Sign;
pub use state::LineState;
