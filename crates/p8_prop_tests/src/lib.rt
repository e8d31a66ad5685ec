//! Tests of the top calls, and of hostile use: each call of the outside fails once, and sources are cut.
//!
//! They stand apart from the crate that they test, because a crate with tests is proved twice. Each test is a loop over
//! rows.
#![tactic(auto)]

#[cfg(test)]
mod calls;
#[cfg(test)]
mod commands;
#[cfg(test)]
mod cuts;
#[cfg(test)]
mod outside;
#[cfg(test)]
mod rows;
