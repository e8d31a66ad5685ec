// Why there is no project.
ghost use Rattle.std.specs.Prelude.{◌≡◌, IfOk};
ghost use Rattle.p8_objects.specs.Outcomes.{read_as};
ghost use Rattle.p8_objects.specs.declared.fault.GatherFault.TheVariants.{NoMemory as OutOfMemory};

use p8_tree::{Fault, Place, Text};
use std::alloc::{AllocError, Global};

/// A file of a project as it was read.
#[derive(Drop)]
pub struct ReadFile {
    /// Its name, as it is mentioned.
    pub name: Text,
    pub bytes: Text,
}

/// A file with this name and these bytes.
pub(crate) fn copy_of(alloc: Global, name: &Text, bytes: &Text) -> Result<ReadFile, AllocError>
    ensures { IfOk result (λ file. file ≡ read_as name.now bytes.now) }
{
    let name = Text::copy_of(alloc, name.as_slice())?;
    let bytes = Text::copy_of(alloc, bytes.as_slice())?;
    Ok(ReadFile { name, bytes })
}

/// Where a file is mentioned.
#[derive(Drop)]
pub struct Mention {
    /// The file that mentions it.
    pub file: ReadFile,
    /// Where its name stands there, in an item of `OBJ`.
    pub place: Place,
}

/// Why a project can't be gathered. `file` is a file of the project, or its name, as it is mentioned.
#[derive(Drop)]
pub enum GatherFault {
    /// A file is refused, by itself or for what it mentions.
    Source {
        /// The file that is refused.
        file: ReadFile,
        /// Why, by a refusal of the numbers 1 to 11, 19, 20 or 30, and where in the file.
        fault: Fault,
    },
    /// The shelf has no file of that name.
    Missing {
        file: Text,
        /// Where it is mentioned. The top file is mentioned nowhere.
        mention: Option<Mention>,
    },
    /// The shelf could not read the file, and has counted a fault.
    ShelfFault {
        file: Text,
    },
    /// There was no memory.
    NoMemory,
}

impl From<AllocError> for GatherFault {
    ghost from_gives = { λ _ given. given ≡ OutOfMemory };

    fn from(_: AllocError) -> GatherFault {
        GatherFault::NoMemory
    }
}
