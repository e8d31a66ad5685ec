// Why there is nothing to run.
ghost use Rattle.std.specs.Prelude.{◌≡◌, ◌≤◌};
ghost use Rattle.p8_io.specs.Sinks.{Wrote};
ghost use Rattle.p8_inputs.specs.Stops.{line_of};
ghost use Rattle.p8_inputs.specs.declared.stop.Stop.TheVariants.{NoMemory as OutOfMemory};

use crate::telling::{
    tell_bad_program, tell_bad_script, tell_missing, tell_no_memory, tell_refused, tell_unnamed,
    tell_unread,
};
use p8_build::Size;
use p8_image::LoadFault;
use p8_io::Sink;
use p8_objects::{Mention, ReadFile};
use p8_tree::{Fault, Text};
use p8_words::NoMemory;
use std::alloc::AllocError;

/// Why there is nothing to run. `file` is a file by its name, as the words have it, or as a source mentions it.
#[derive(Drop)]
pub enum Stop {
    /// This file could not be read.
    Unread {
        file: Text,
    },
    /// This file doesn't exist.
    Missing {
        file: Text,
        /// Where a source of the project mentions it, where one does.
        mention: Option<Mention>,
    },
    /// There was no memory.
    NoMemory,
    /// A source of the project is refused.
    Refused {
        /// The source as it was read.
        file: ReadFile,
        /// Why, and where in the file.
        fault: Fault,
        /// The size of what is too large, at a 26 and a 28.
        size: Option<Size>,
    },
    /// The file to run is no image, or too long for hub memory.
    BadProgram {
        file: Text,
        fault: LoadFault,
    },
    /// The pin script's first bad line, counted from 1; 0 where the file is too long.
    BadScript {
        file: Text,
        line: u32,
    },
    /// Nothing of the program has a name that is asked for.
    Unnamed {
        file: Text,
        name: Text,
    },
}

impl From<AllocError> for Stop {
    ghost from_gives = { λ _ given. given ≡ OutOfMemory };

    fn from(_: AllocError) -> Stop {
        Stop::NoMemory
    }
}

impl From<NoMemory> for Stop {
    ghost from_gives = { λ _ given. given ≡ OutOfMemory };

    fn from(_: NoMemory) -> Stop {
        Stop::NoMemory
    }
}

impl Stop {
    /// Writes the line that tells it, as far as the sink takes it.
    pub fn tell<E: Sink>(&self, faults: &mut E)
        ensures wrote { Wrote (E.faults faults.old) (E.faults faults.new) (E.taken faults.old) (E.taken faults.new) (line_of self.now) }
        ensures later { E.faults faults.old ≤ E.faults faults.new }
    {
        match self {
            Stop::Unread { file } => tell_unread(file.as_slice(), faults),
            Stop::Missing { file, .. } => tell_missing(file.as_slice(), faults),
            Stop::NoMemory => tell_no_memory(faults),
            Stop::Refused { file, fault, .. } => tell_refused(file.name.as_slice(), *fault, faults),
            Stop::BadProgram { file, fault } => tell_bad_program(file.as_slice(), *fault, faults),
            Stop::BadScript { file, line } => tell_bad_script(file.as_slice(), *line, faults),
            Stop::Unnamed { file, name } => tell_unnamed(file.as_slice(), name.as_slice(), faults),
        }
    }
}
