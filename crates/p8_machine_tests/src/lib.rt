//! Tests of the machine, of what it stands on and of what is made of its histories: worked values, instructions, lives, history
//! files and their checker, waves, pictures of pins, views, and pages.
//!
//! They stand apart from the crates that they test, because a crate with tests is proved twice.
#![tactic(auto)]

#[cfg(test)]
mod access;
#[cfg(test)]
mod alu;
#[cfg(test)]
mod bytecode;
#[cfg(test)]
mod counters;
#[cfg(test)]
mod desk;
#[cfg(test)]
mod histories;
#[cfg(test)]
mod history;
#[cfg(test)]
mod hub;
#[cfg(test)]
mod instr;
#[cfg(test)]
mod instructions;
#[cfg(test)]
mod lives;
#[cfg(test)]
mod machine;
#[cfg(test)]
mod pages;
#[cfg(test)]
mod pasm;
#[cfg(test)]
mod pictures;
#[cfg(test)]
mod pins;
#[cfg(test)]
mod programs;
#[cfg(test)]
mod record;
#[cfg(test)]
mod region;
#[cfg(test)]
mod spin;
#[cfg(test)]
mod turns;
#[cfg(test)]
mod views;
#[cfg(test)]
mod waves;
#[cfg(test)]
mod words;
