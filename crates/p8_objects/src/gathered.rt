// A project as it is gathered.
ghost use Rattle.std.specs.Prelude.{◌≡◌, length, IfOk};
ghost use Rattle.p8_tree.specs.Views.{named_sources_of};
ghost use Rattle.p8_objects.specs.Projects.{IsIn};
ghost use Rattle.p8_objects.specs.Whole.{HasText};

use crate::fault::ReadFile;
use crate::mentions::number_of;
use p8_tree::{List, Project, Text};
use std::alloc::{AllocError, Global};

/// A project with the bytes of its files.
#[derive(Drop)]
pub struct Gathered {
    pub project: Project,
    /// The bytes of each file, in the order of the files.
    pub sources: List<Text>,
}

impl Gathered {
    /// The file of this name as it was read, which is one of the project. The only error is want of memory.
    pub fn file_named(&self, alloc: Global, name: Text) -> Result<ReadFile, AllocError>
        requires beside { length self.now.sources ≡ length (named_sources_of self.now.project) }
        requires there { IsIn (named_sources_of self.now.project) name }
        ensures named { IfOk result (λ file. file.name ≡ name) }
        ensures text { IfOk result (HasText (named_sources_of self.now.project) self.now.sources) }
    {
        match number_of(self.project.files.as_slice(), &name) {
            Some(at) => {
                let bytes = Text::copy_of(alloc, self.sources.as_slice()[at].as_slice())?;
                Ok(ReadFile { name, bytes })
            }
            None => unreachable!(),
        }
    }
}

/// Lets a project go. A crate that does so itself has to prove once more how trees are let go.
pub fn discard(gathered: Gathered) {
    drop(gathered);
}
