// The names that were read of a shelf in memory.
ghost use Rattle.std.specs.Prelude.{◌≡◌, [], Some, None, OnOk, OnErr};
ghost use Rattle.p8_io.specs.Shelves.{logged};
ghost use Rattle.p8_io.specs.Contents.{log_of};
ghost use Rattle.p8_io.specs.Memory.{names_of};

use p8_words::NoMemory;
use std::alloc::Global;
use std::marker::Model;

/// The names that were read so far, or none, for good, where there was no memory for one of them.
#[derive(Drop)]
pub(crate) struct ReadLog {
    names: Option<Vec<String>>,
}

impl Model for ReadLog {
    ghost use Rattle.p8_io.specs.Shelves.{Log};
    ghost use Rattle.p8_io.specs.Contents.{log_of, log_code};

    ghost Value = { Log };

    ghost coded = { log_code };

    ghost view = { λ log. log_of log.names };
}

impl ReadLog {
    // No name so far. It takes no memory.
    pub(crate) fn new(alloc: Global) -> ReadLog
        ensures { result ≡ Some [] }
    {
        ReadLog {
            names: Some(Vec::new(alloc)),
        }
    }

    // Adds a name. Without memory for it the log is given up.
    pub(crate) fn add(&mut self, alloc: Global, name: &str) -> Result<(), NoMemory>
        ensures ok { OnOk result (self.new ≡ logged self.old name.now) }
        ensures err { OnErr result (self.new ≡ None) }
    {
        let Some(mut names) = self.names.take() else {
            return Ok(());
        };
        let name = String::from_str(alloc, name)?;
        match names.push(name) {
            Ok(()) => {
                self.names = Some(names);
                Ok(())
            }
            Err(_) => Err(NoMemory),
        }
    }

    // The names.
    pub(crate) fn names(&self) -> Option<&[String]>
        ensures { names_of result ≡ self.now }
    {
        match &self.names {
            Some(names) => Some(names.as_slice()),
            None => None,
        }
    }
}
