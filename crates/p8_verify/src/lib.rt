//! Histories kept in files, and their checker.
//!
//! A file has a head of 16 bytes and a record of 24 bytes for each turn. One table (specs/Table.antt) says which
//! numbers stand for a turn; a record is read as the only turn that can have it, and written again to see that it
//! does. The checker opens a machine within the limits of the file's head and walks it beside the records. A halt by a
//! register has a number in the table, since it names one of a cog's 512.
#![tactic(auto)]

mod checker;
mod files;
mod halt_laws;
mod head;
mod laws;
mod reading;
mod records;
mod table;
mod verdicts;

pub use checker::{VerifyFault, verify};
pub use files::history_bytes;
pub use halt_laws::halts_name_registers;
pub use laws::{ended_histories_have_files, good_files, one_turn_of_a_record, one_verdict};
pub use verdicts::{Cause, Verdict};
