//! How many longs the code of a method holds at once on the operand stack, along the paths of its jumps.
#![tactic(auto)]

mod laws;

pub use laws::depth_is_the_most_along_paths;
