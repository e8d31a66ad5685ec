//! DAT blocks: where their lines stand, their bytes and labels, and what is wrong with them.
//!
//! The long of an instruction comes from the instruction's line, and what its names mean.
#![tactic(auto)]

mod assembling;
mod calls;
mod data;
mod files;
mod instruction_lines;
mod labels;
mod laws;
mod lines;
mod operands;
mod output;
mod placing;
mod regions;
mod spots;
mod values;

pub use assembling::{Dat, DatFault, LineBegin, assemble};
pub use instruction_lines::{Encoded, encode_line};
pub use laws::{nop_is_zero, printed_line_is_assembled};
pub use spots::Spot;
