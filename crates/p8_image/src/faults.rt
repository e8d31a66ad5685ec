// Why a file is no image.
ghost use Rattle.std.specs.Prelude.{◌≡◌, Some};
ghost use Rattle.p8_image.specs.Messages.{field_name, fault_text};

use std::error::Error;
use std::fmt::{self, Display, Formatter, Write};

/// A place that the header of an image names.
#[derive(Clone, Copy, Debug, PartialEq, Eq)]
pub enum Field {
    /// Where the first object begins.
    Pbase,
    /// Where the objects end and the variables begin.
    Vbase,
    /// Where the frame of the first method begins.
    Dbase,
    /// Where the code of the first method begins.
    Pcurr,
    /// Where the frame of the first method ends.
    Dcurr,
}

/// Why a file is no image.
ghost use Rattle.std.specs.Prelude.{◌≡◌, Some};
ghost use Rattle.p8_image.specs.Messages.{field_name, fault_text};

#[derive(Clone, Copy, Debug, PartialEq, Eq)]
pub enum LoadFault {
    /// The file has fewer than 16 or more than 32,768 bytes, or a length that isn't a multiple of 4.
    BadLength {
        /// How many bytes it has.
        length: usize,
    },
    /// The bytes don't add to $14 mod 256.
    BadChecksum {
        /// Their sum mod 256.
        sum: u8,
    },
    /// A place of the header isn't where it has to be.
    BadHeader {
        /// The first such place.
        field: Field,
    },
}

/// The first frame of a project's image would end after the hub's memory of 32,768 bytes.
#[derive(Clone, Copy, Debug, PartialEq, Eq)]
pub struct TooLarge;

impl Field {
    /// Its name in messages.
    pub fn name(self) -> &'static str
        ensures { result.now ≡ field_name self }
    {
        match self {
            Field::Pbase => "pbase",
            Field::Vbase => "vbase",
            Field::Dbase => "dbase",
            Field::Pcurr => "pcurr",
            Field::Dcurr => "dcurr",
        }
    }
}

impl Display for LoadFault {
    ghost output = { λ fault. Some (fault_text fault) };

    fn fmt<W: Write>(&self, f: &mut Formatter<W>) -> Result<(), fmt::Error> {
        match self {
            LoadFault::BadLength { length } => write!(f, "length {length}"),
            LoadFault::BadChecksum { sum } => write!(f, "sum {:X}{:X}", sum / 16, sum % 16),
            LoadFault::BadHeader { field } => write!(f, "header {}", field.name()),
        }
    }
}

impl Error for LoadFault {}

impl Display for TooLarge {
    fn fmt<W: Write>(&self, f: &mut Formatter<W>) -> Result<(), fmt::Error> {
        f.write_str("the image is too large")
    }
}

impl Error for TooLarge {}
