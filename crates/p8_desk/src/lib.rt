//! The desk at which eight cogs make the turns of one history, each in whatever thread it runs.
#![tactic(auto)]

mod bells;
mod desk;
mod drive;
mod gather;
mod open;
mod pass;
mod passes;
mod rider;
mod rule;
mod runner;
mod steps;
mod turned;

pub use desk::Desk;
pub use drive::drive_all;
pub use p8_ledger::Start;
pub use pass::CogPass;
pub use passes::Passes;
pub use turned::Turned;
