//! Tests of sources and files: of tokens, expressions, trees, names, constants and `DAT`, of shelves and sinks, of what a run begins
//! with, of images, listings, maps, legends, explanations and hints. Whole files are read and printed by the suite of cases.
//!
//! They stand apart from the crates that they test, because a crate with tests is proved twice.
#![tactic(auto)]

#[cfg(test)]
mod arguments;
#[cfg(test)]
mod assembly;
#[cfg(test)]
mod codes;
#[cfg(test)]
mod components;
#[cfg(test)]
mod explanations;
#[cfg(test)]
mod expr;
#[cfg(test)]
mod faults;
#[cfg(test)]
mod hints;
#[cfg(test)]
mod images;
#[cfg(test)]
mod inputs;
#[cfg(test)]
mod io;
#[cfg(test)]
mod layouts;
#[cfg(test)]
mod legends;
#[cfg(test)]
mod lexer;
#[cfg(test)]
mod listings;
#[cfg(test)]
mod made;
#[cfg(test)]
mod maps;
#[cfg(test)]
mod operators;
#[cfg(test)]
mod projects;
#[cfg(test)]
mod resolving;
#[cfg(test)]
mod shelves;
#[cfg(test)]
mod sources;
#[cfg(test)]
mod trees;
