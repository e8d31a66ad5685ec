// Why a file is no pin script.
ghost use Rattle.std.specs.Prelude.{◌++◌, Some, codes};
ghost use Rattle.std.specs.Fmt.{decimal};

use std::error::Error;
use std::fmt::{self, Display, Formatter, Write};

/// A file that is no pin script.
#[derive(Clone, Copy, Debug, PartialEq, Eq)]
pub struct ScriptFault {
    /// The first bad line, counted from 1; 0 where the file has more than 1,048,576 bytes.
    pub line: u32,
}

impl Display for ScriptFault {
    ghost output = { λ fault. Some (codes "line " ++ decimal fault.line) };

    fn fmt<W: Write>(&self, f: &mut Formatter<W>) -> Result<(), fmt::Error> {
        write!(f, "line {}", self.line)
    }
}

impl Error for ScriptFault {}
