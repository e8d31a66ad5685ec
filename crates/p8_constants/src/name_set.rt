// Sets of names.
ghost use Rattle.std.specs.Prelude.{◌≡◌, ℕ, List, [], ◌∷◌, ◌++◌, ◌↔◌, IsTrue, IsSome, Contains, IfOk, OnOk};
ghost use Rattle.p8_fold.specs.ConstantEntries.{at_bytes};
ghost use Rattle.p8_constants.specs.Standing.{Holds};

use p8_tree::Text;
use std::alloc::{AllocError, Global};
use std::collections::BTreeMap;

/// A set of names.
#[derive(Drop)]
pub struct NameSet {
    alloc: Global,
    names: BTreeMap<Vec<u8>, ()>,
}

impl NameSet {
    /// The empty set. It takes no memory.
    pub fn new(alloc: Global) -> NameSet
        ensures { Holds result [] }
    {
        NameSet {
            alloc,
            names: BTreeMap::new(alloc),
        }
    }

    /// Whether a name is in the set.
    pub fn has(&self, name: &[u8]) -> bool
        ensures { (names : List (List ℕ)) → Holds self.now names → IsTrue result ↔ Contains names name.now }
    {
        self.names.contains_key(name)
    }

    /// Puts a name into the set, where it may be already, and tells whether it was.
    pub fn has_then_put(&mut self, name: &[u8]) -> Result<bool, AllocError>
        ensures told { (names : List (List ℕ)) → Holds self.old names → IfOk result (λ had. IsTrue had ↔ Contains names name.now) }
        ensures taken { OnOk result ((names : List (List ℕ)) → Holds self.old names → Holds self.new (names ++ name.now ∷ [])) }
    {
        let key = name.to_vec(self.alloc)?;
        let old = self.names.insert(key, ())?;
        Ok(old.is_some())
    }

    /// Puts a name into the set, where it may be already.
    pub fn put(&mut self, name: &[u8]) -> Result<(), AllocError>
        ensures { OnOk result ((names : List (List ℕ)) → Holds self.old names → Holds self.new (names ++ name.now ∷ [])) }
    {
        self.has_then_put(name)?;
        Ok(())
    }
}
