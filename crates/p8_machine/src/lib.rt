//! The machine: eight cogs on one thread, turn by turn in the order of their keys.
//!
//! It is a ledger with the eight lives beside it. After each turn the life of its cog runs on to its next access, and
//! the cog says at once which that is. A counted run also has the counter of each turn: for a cog that runs Spin, where the
//! bytecode stands that asks the turn's access, and for one that runs PASM, from where in the hub the long was loaded that asks it.
#![tactic(auto)]

mod asked;
mod counted;
mod run;
mod seats;

pub use asked::Asked;
pub use counted::{Counted, run_counted};
pub use run::{Machine, run_alone};
