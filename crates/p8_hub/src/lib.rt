//! The hub: its memory, its locks, the states of the eight cogs and the pins that they drive.
//!
//! Everything is kept in arrays that are changed in place. Contracts say which history of turns a hub
//! stands for, by the definitions of `p8_access`.
#![tactic(auto)]

mod cog_states;
mod hub_state;
mod locks;
mod memory;
mod pins;

pub use hub_state::Hub;
pub use p8_access::CogState;
