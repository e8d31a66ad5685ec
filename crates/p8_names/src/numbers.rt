// The files of a project by their names.
ghost use Rattle.std.specs.Prelude.{◌≡◌, ℕ, List, Some, OnOk, IfOk, length};
ghost use Rattle.p8_tree.specs.Views.{named_sources_of};
ghost use Rattle.p8_fold.specs.ConstantEntries.{at_bytes};
ghost use Rattle.p8_names.specs.Finding.{HasNumbers};

use p8_tree::{Project, Text};
use std::alloc::{AllocError, Global};
use std::collections::BTreeMap;

/// The numbers of a project's files by their names.
#[derive(Drop)]
pub(crate) struct Numbers {
    names: BTreeMap<Vec<u8>, usize>,
}

impl Numbers {
    /// The numbers of all files.
    pub(crate) fn of_project(alloc: Global, project: &Project) -> Result<Numbers, AllocError>
        ensures { IfOk result (λ numbers. HasNumbers (named_sources_of project.now) (length (named_sources_of project.now)) (λ n. at_bytes n numbers.names)) }
    {
        let mut numbers = Numbers {
            names: BTreeMap::new(alloc),
        };
        for (index, file) in project.files.as_slice().iter().enumerate() {
            numbers.enter(alloc, &file.name, index)?;
        }
        Ok(numbers)
    }

    // Enters the number of a file.
    fn enter(&mut self, alloc: Global, name: &Text, number: usize) -> Result<(), AllocError>
        ensures entered { OnOk result (at_bytes name.now self.new.names ≡ Some number) }
        ensures others { (n : List ℕ) → ¬ (n ≡ name.now) → at_bytes n self.new.names ≡ at_bytes n self.old.names }
    {
        let key = name.as_slice().to_vec(alloc)?;
        self.names.insert(key, number)?;
        Ok(())
    }

    /// The number of the file of a name.
    pub(crate) fn of(&self, name: &Text) -> Option<usize>
        ensures { result ≡ at_bytes name.now self.now.names }
    {
        self.names.get(name.as_slice()).copied()
    }
}
