// A shelf of files, and why a read of it gave no bytes.
ghost use Rattle.std.specs.Prelude.{◌≡◌, ◌≤◌, ◌∷◌, [], ℕ, IfOk, vec_len};
ghost use Rattle.p8_io.specs.declared.shelf.ShelfError.TheVariants.{NoMemory};
ghost use Rattle.p8_io.specs.Shelves.{Files, Log, Reads, WereRead, read_limit};

use std::alloc::{AllocError, Global};
use std::error::Error;
use std::fmt::{self, Display, Formatter, Write};

/// Why a read of a file gave no bytes.
#[derive(Clone, Copy, Debug, PartialEq, Eq)]
pub enum ShelfError {
    /// The shelf has no file of that name.
    Missing,
    /// The shelf could not read the file, and has counted a fault.
    Failed,
    /// There was no memory for the bytes.
    NoMemory,
}

impl Display for ShelfError {
    fn fmt<W: Write>(&self, f: &mut Formatter<W>) -> Result<(), fmt::Error> {
        f.write_str(match self {
            ShelfError::Missing => "no such file",
            ShelfError::Failed => "the file cannot be read",
            ShelfError::NoMemory => "out of memory",
        })
    }
}

impl Error for ShelfError {}

impl From<AllocError> for ShelfError {
    ghost from_gives = { λ _ given. given ≡ NoMemory };

    fn from(_: AllocError) -> ShelfError {
        ShelfError::NoMemory
    }
}

/// Files by name, of which a read may fail.
///
/// A shelf counts its faults, and a read that fails for a reason of the outside raises the count: it
/// is then greater than before the call, or stands at the last value of 64 bits. A shelf in memory
/// also tells contracts which files it has and which were read; one over the system's files tells
/// neither.
pub trait Shelf {
    /// The bytes of each file, where the shelf tells them.
    ghost files: { Self → Files };

    /// The names that were read so far, in order, where the shelf tells them.
    ghost log: { Self → Log };

    /// How many faults there have been.
    ghost faults: { Self → ℕ };

    /// Reads the first 1,048,577 bytes of the named file, or all of a shorter one.
    ///
    /// `Missing`: there is no file of that name. A shelf that doesn't tell its files counts this as a
    /// fault too. `Failed`: the file could not be read; the count of faults rose. `NoMemory`: there
    /// was no memory for the bytes. The files stay as they were. Whatever the answer is, the name is
    /// one more of those that were read.
    fn read(&mut self, alloc: Global, name: &str) -> Result<Vec<u8>, ShelfError>
        // Where the files are told, `Ok` has the start of the named one, so a name that the shelf
        // lacks is never `Ok`.
        ensures reads { Reads (faults self.old) (faults self.new) (files self.old) name.now result }
        ensures limited { IfOk result (λ bytes. vec_len bytes ≤ read_limit) }
        ensures later { faults self.old ≤ faults self.new }
        ensures kept { files self.new ≡ files self.old }
        ensures logged { WereRead (log self.old) (log self.new) (name.now ∷ []) };

    /// Does what `read` does, for a file that the words of a command name: that is the file of just this name. A shelf
    /// may look in other places too for what a source mentions, which is read by `read`; one that never does leaves this
    /// method as it is.
    fn read_named(&mut self, alloc: Global, name: &str) -> Result<Vec<u8>, ShelfError>
        ensures reads { Reads (faults self.old) (faults self.new) (files self.old) name.now result }
        ensures limited { IfOk result (λ bytes. vec_len bytes ≤ read_limit) }
        ensures later { faults self.old ≤ faults self.new }
        ensures kept { files self.new ≡ files self.old }
        ensures logged { WereRead (log self.old) (log self.new) (name.now ∷ []) }
    {
        self.read(alloc, name)
    }
}
