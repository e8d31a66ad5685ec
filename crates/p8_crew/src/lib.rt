//! The crew: eight jobs, each in a thread of its own, in which the turns of one cog are made at the desk of all.
#![tactic(auto)]

mod adapters;
mod crew;
mod gate;
mod job;
mod jobs;
mod starter;
mod ticket;

pub use adapters::{FailStarter, PlainWorker, ThreadStarter};
pub use crew::run_crew;
pub use gate::Gate;
pub use job::CogJob;
pub use starter::{Starter, Worker};
pub use ticket::{Ticket, start};
