// The two ways in which a call can fail: a refusal of what it was given, and want of memory.
ghost use Rattle.std.specs.Prelude.{◌≡◌};
ghost use Rattle.p8_words.specs.declared.failure.Fail.TheVariants.{Refused, NoMemory as OutOfMemory};

use std::alloc::AllocError;
use std::error::Error;
use std::fmt::{self, Display, Formatter, Write};

/// There was no memory for what a call had to keep.
///
/// It is never merged with a refusal, and says nothing of the arguments.
#[derive(Clone, Copy, Debug, PartialEq, Eq)]
pub struct NoMemory;

/// Why a call that may refuse its arguments gave no value.
#[derive(Debug, PartialEq, Eq, Drop)]
pub enum Fail<T> {
    /// The arguments are refused, with this fault.
    Refused(T),
    /// There was no memory.
    NoMemory,
}

impl From<AllocError> for NoMemory {
    ghost from_gives = { λ _ given. given ≡ record {} };

    fn from(_: AllocError) -> NoMemory {
        NoMemory
    }
}

impl<T> From<NoMemory> for Fail<T> {
    ghost from_gives = { λ _ given. given ≡ OutOfMemory };

    fn from(_: NoMemory) -> Fail<T> {
        Fail::NoMemory
    }
}

impl<T> From<AllocError> for Fail<T> {
    ghost from_gives = { λ _ given. given ≡ OutOfMemory };

    fn from(_: AllocError) -> Fail<T> {
        Fail::NoMemory
    }
}

impl Display for NoMemory {
    fn fmt<W: Write>(&self, f: &mut Formatter<W>) -> Result<(), fmt::Error> {
        f.write_str("out of memory")
    }
}

impl Error for NoMemory {}

impl<T: Display> Display for Fail<T> {
    fn fmt<W: Write>(&self, f: &mut Formatter<W>) -> Result<(), fmt::Error> {
        match self {
            Fail::Refused(fault) => fault.fmt(f),
            Fail::NoMemory => f.write_str("out of memory"),
        }
    }
}

impl<T: Error> Error for Fail<T> {}
