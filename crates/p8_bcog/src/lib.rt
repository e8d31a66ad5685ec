//! A cog that runs the bytecodes of Spin, one after the other, as a life of the machine's history. What its
//! life is stands in specs/.
#![tactic(auto)]

mod accesses;
mod bytecodes;
mod calling;
mod calls;
mod changes;
mod cogs;
mod control;
mod later;
mod marks;
mod moves;
mod operands;
mod quick;
mod running;
mod spin;
mod stack;
mod stage;
mod state;
mod step;
mod tables;
mod variable_access;
mod variable_place;
mod variables;

pub use spin::{SpinCog, is_access};
pub use stack::STACK_LONGS;
