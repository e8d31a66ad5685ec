//! Memory that is taken once: a region, and the strips that are cut from it.
//!
//! A region is one block. A strip is a list of values of one type that never outgrows its room; no two strips
//! share a byte, and a strip stays usable after its region is gone. The block is given back by nobody and stays
//! taken until the program ends.
#![tactic(auto)]

mod places;
mod region;
mod strip;

// A crate can name a strip in a contract only if the types of its fields are exported.
#[doc(hidden)]
pub use places::{Places, Start};
pub use region::{NoRoom, Region, words_of};
pub use strip::{Strip, change_one};
