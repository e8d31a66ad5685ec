//! The ledger of a run: it makes the turns of eight cogs in the order of their keys, by what the cogs have said.
//!
//! A cog that runs by itself says how far it has come: its next access with its earliest clock, that none comes
//! before a clock, or that none comes at all. From that and from what each cog is doing the ledger knows which turn
//! comes next, and makes it. Turns and sayings are a record; its turns are the machine's history. Nothing here runs
//! a life or waits.
#![tactic(auto)]

mod changes;
mod due;
mod fronts;
mod laws;
mod ledger;
mod outcome;
mod room;
mod start;
mod steps;
mod waits;

pub use due::LAST_CODE;
pub use laws::{
    least_front_comes_first, least_front_extends, no_front_ends, saying_keeps_truth, steps_beside,
    turn_beside, turn_keeps_truth, turn_of_a_start, turn_of_its_own,
};
pub use ledger::{First, Ledger, Taken};
pub use outcome::{Ended, History, Limits};
pub use room::{Room, stack_in};
pub use start::Start;
pub use steps::Step;
