//! What one instruction of a cog gives: its result and the flags C and Z.
#![tactic(auto)]

mod effect;
mod execution;
mod operations;
mod sums;

pub use effect::Effect;
pub use execution::execute;
