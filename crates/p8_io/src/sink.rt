// A sink of bytes, and the answer of a write that failed.
ghost use Rattle.std.specs.Prelude.{◌≤◌, ℕ, Option, List};
ghost use Rattle.p8_io.specs.Sinks.{Writes};

use std::error::Error;
use std::fmt::{self, Display, Formatter, Write};

/// A sink took a prefix of the bytes at most, and has counted a fault.
#[derive(Clone, Copy, Debug, PartialEq, Eq)]
pub struct SinkFailed;

impl Display for SinkFailed {
    fn fmt<W: Write>(&self, f: &mut Formatter<W>) -> Result<(), fmt::Error> {
        f.write_str("the bytes cannot be written")
    }
}

impl Error for SinkFailed {}

/// What takes bytes one write after another, and may fail.
///
/// A sink counts its faults, and a write that fails raises the count: it is then greater than before
/// the call, or stands at the last value of 64 bits. A sink in memory also tells contracts which bytes
/// it took; one over a stream of the system tells nothing of them.
pub trait Sink {
    /// The bytes that were taken so far, where the sink tells them.
    ghost taken: { Self → Option (List ℕ) };

    /// How many faults there have been.
    ghost faults: { Self → ℕ };

    /// Appends these bytes.
    ///
    /// `SinkFailed`: the count of faults rose, and a prefix of the bytes was appended, maybe none or
    /// all of them.
    fn write(&mut self, bytes: &[u8]) -> Result<(), SinkFailed>
        ensures writes { Writes (faults self.old) (faults self.new) (taken self.old) (taken self.new) bytes.now result }
        ensures later { faults self.old ≤ faults self.new };
}
