//! A cog that runs Propeller Assembly (PASM), instruction by instruction, as a life of the machine's
//! history, and the one type of life for cogs of each kind. What a life is stands in specs/.
#![tactic(auto)]

mod cog_life;
mod counters;
mod ending;
mod fields;
mod hub;
mod instruction_kind;
mod instructions;
mod life_kind;
mod pasm;
mod progress;
mod registers;
mod stage;
mod state;

pub use cog_life::CogLife;
pub use pasm::Cog;
