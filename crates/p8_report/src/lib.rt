//! Printed texts: of a history, with a line for each turn and then what the hub is in the end, and of an instruction.
#![tactic(auto)]

mod accesses;
mod clocks;
mod dump;
mod history_text;
mod line;
mod lines;
mod origins;
mod phrases;
mod tail;
mod words;

pub use dump::push_dump;
pub use history_text::trace;
pub use p8_instr::instr_text;
pub use phrases::{push_longs, push_numbered};
pub use words::{code_in, kind_name, parameter_in, value_in};
