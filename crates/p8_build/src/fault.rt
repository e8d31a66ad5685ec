// Why there is no image.
ghost use Rattle.std.specs.Prelude.{◌≡◌};
ghost use Rattle.p8_tree.specs.Views.{named_source_of};
ghost use Rattle.p8_build.specs.Faults.{IsToldOf};
ghost use Rattle.p8_build.specs.declared.fault.BuildFault.TheVariants.{NoMemory as OutOfMemory};

use crate::sizes::Size;
use p8_tree::{Fault, ProjectFile, Text};
use p8_words::NoMemory;
use std::alloc::Global;

/// Why a project can't be built.
#[derive(Drop)]
pub enum BuildFault {
    /// A file is refused.
    Source {
        /// The name of the file, as it is mentioned.
        file: Text,
        /// Why, by a refusal of the numbers 12 to 18 or 20 to 29, and where in the file.
        fault: Fault,
        /// How large what is too large is, the method of a 26 or the image of a 28; how many arguments the call of a 17 has; and nothing
        /// of any other refusal.
        size: Option<Size>,
    },
    /// There was no memory.
    NoMemory,
}

impl From<NoMemory> for BuildFault {
    ghost from_gives = { λ _ given. given ≡ OutOfMemory };

    fn from(_: NoMemory) -> BuildFault {
        BuildFault::NoMemory
    }
}

/// A refusal of one of a project's files.
#[derive(Clone, Copy)]
pub(crate) struct PhaseRefusal {
    /// The phase in which it comes: 0 for names and constants, 1 for data, 2 for code and 3 for the image.
    pub(crate) phase: u8,
    /// The number of the file, counted from 0.
    pub(crate) file: usize,
    /// What is wrong with the file.
    pub(crate) fault: Fault,
    /// How large what it tells is, as [`BuildFault`] has it.
    pub(crate) size: Option<Size>,
}

/// What is told of a refusal of a file, or `NoMemory` where there is none for the file's name.
pub(crate) fn told(alloc: Global, file: &ProjectFile, refusal: PhaseRefusal) -> BuildFault
    ensures { IsToldOf (named_source_of file.now) refusal result }
{
    match Text::copy_of(alloc, file.name.as_slice()) {
        Ok(file) => BuildFault::Source {
            file,
            fault: refusal.fault,
            size: refusal.size,
        },
        Err(_) => BuildFault::NoMemory,
    }
}
