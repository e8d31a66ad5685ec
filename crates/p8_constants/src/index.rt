// Names of constants, and the nodes that give their values.
ghost use Rattle.std.specs.Prelude.{◌≡◌, ℕ, ◌+◌, ◌*◌, ◌<◌, ◌^◌, List, Option, Some, None, OnOk, IfOk, length, option_map};
ghost use Rattle.p8_fold.specs.ConstantEntries.{setting_of, at_bytes};
ghost use Rattle.p8_constants.specs.Rows.{rows_from, node_of, constant_at, or_else, named_here};

use crate::rows::Rows;
use p8_fold::Consts;
use p8_tree::Text;
use p8_words::NoMemory;
use std::alloc::{AllocError, Global};
use std::collections::BTreeMap;

/// Which node gives the value of a name: the names of a file's constants, without those that mean something outside.
#[derive(Drop)]
pub(crate) struct Index {
    names: BTreeMap<Vec<u8>, usize>,
}

impl Index {
    /// The names of a file's constants, each with the node of its first definition: they are entered from the last one on.
    pub(crate) fn of_rows(alloc: Global, rows: &Rows, outside: &Consts) -> Result<Index, NoMemory>
        requires { 2 * length rows.now + length rows.now < 2 ^ 64 }
        ensures { IfOk result (λ index. (n : List ℕ) →
            at_bytes n index.names ≡ option_map (node_of (rows_from rows.now)) (constant_at (setting_of outside.now) (rows_from rows.now) n)) }
    {
        let names = BTreeMap::new(alloc);
        let mut index = Index { names };
        for k in (0..rows.len()).rev() {
            index.add(alloc, &rows.item(k).name, rows.node(k), outside)?;
        }
        Ok(index)
    }

    // Adds a name, in place of what stood at it, unless it stands outside.
    fn add(
        &mut self,
        alloc: Global,
        name: &Option<Text>,
        node: usize,
        outside: &Consts,
    ) -> Result<(), AllocError>
        ensures { OnOk result ((n : List ℕ) → at_bytes n self.new.names ≡
            or_else (named_here (setting_of outside.now) n name.now node) (at_bytes n self.old.names)) }
    {
        match name {
            None => Ok(()),
            Some(name) => self.add_name(alloc, name, node, outside),
        }
    }

    fn add_name(
        &mut self,
        alloc: Global,
        name: &Text,
        node: usize,
        outside: &Consts,
    ) -> Result<(), AllocError>
        ensures { OnOk result ((n : List ℕ) → at_bytes n self.new.names ≡
            or_else (named_here (setting_of outside.now) n (Some name.now) node) (at_bytes n self.old.names)) }
    {
        match outside.get(name) {
            Some(_) => Ok(()),
            None => self.insert(alloc, name, node),
        }
    }

    fn insert(&mut self, alloc: Global, name: &Text, node: usize) -> Result<(), AllocError>
        ensures entered { OnOk result (at_bytes name.now self.new.names ≡ Some node) }
        ensures others { (n : List ℕ) → ¬ (n ≡ name.now) → at_bytes n self.new.names ≡ at_bytes n self.old.names }
    {
        let key = name.as_slice().to_vec(alloc)?;
        self.names.insert(key, node)?;
        Ok(())
    }

    /// The node that gives the value of a name.
    pub(crate) fn get(&self, name: &Text) -> Option<usize>
        ensures { result ≡ at_bytes name.now self.now.names }
    {
        self.names.get(name.as_slice()).copied()
    }
}
