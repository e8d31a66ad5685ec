//! What lies outside the program: shelves of files and sinks of bytes, with their counts of faults.
#![tactic(auto)]

mod adapters;
mod count;
mod fails;
mod log;
mod memory_shelf;
mod memory_sink;
mod pieces;
mod shelf;
mod sink;

pub use adapters::{FileShelf, StdSink};
pub use fails::FailList;
pub use memory_shelf::MemShelf;
pub use memory_sink::MemSink;
pub use pieces::write_pieces;
pub use shelf::{Shelf, ShelfError};
pub use sink::{Sink, SinkFailed};
