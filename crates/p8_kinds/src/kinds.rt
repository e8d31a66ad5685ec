// The kinds of a file's names.
ghost use Rattle.std.specs.Prelude.{◌≡◌, ℕ, List, Some, None, OnOk, OnErr, IfOk};
ghost use Rattle.std.specs.Option.{option_copied};
ghost use Rattle.p8_kinds.specs.Kinds.{own, kind_of};
ghost use Rattle.p8_kinds.specs.Entries.{at_bytes, names_at, at_number};

use crate::name_kinds::NameKind;
use p8_tree::Text;
use p8_words::NoMemory;
use std::alloc::{AllocError, Global};
use std::collections::BTreeMap;

pub(crate) type Names = BTreeMap<Vec<u8>, NameKind>;

type Scopes = BTreeMap<u32, Names>;

/// The kinds of a file's names: those of the whole file, and those of each method alone.
///
/// Methods are numbered from 1, `PUB`s in order and then `PRI`s, and the whole file stands at 0. These numbers don't stop at
/// 255.
#[derive(Drop)]
pub struct Kinds {
    alloc: Global,
    scopes: Scopes,
}

impl Kinds {
    /// No names. It takes no memory.
    pub fn new(alloc: Global) -> Kinds
        ensures empty { (method : ℕ) → (name : List ℕ) → own result method name ≡ None }
    {
        Kinds {
            alloc,
            scopes: BTreeMap::new(alloc),
        }
    }

    /// Says what a name of the whole file, at 0, or of one method is. It replaces what stood there.
    ///
    /// Where there is no memory, all names stay what they were.
    pub fn set(&mut self, method: u32, name: &Text, kind: NameKind) -> Result<(), NoMemory>
        ensures entered { OnOk result (own self.new method name.now ≡ Some kind) }
        ensures others { (m : ℕ) → (n : List ℕ) → ¬ ((m ≡ method) × (n ≡ name.now)) → own self.new m n ≡ own self.old m n }
        ensures unchanged { OnErr result ((m : ℕ) → (n : List ℕ) → own self.new m n ≡ own self.old m n) }
    {
        self.replace(method, name, kind)?;
        Ok(())
    }

    /// Says what a name is, as [`set`](Kinds::set) does, and gives what it was.
    pub fn replace(
        &mut self,
        method: u32,
        name: &Text,
        kind: NameKind,
    ) -> Result<Option<NameKind>, NoMemory>
        ensures old { IfOk result (λ old. old ≡ own self.old method name.now) }
        ensures entered { OnOk result (own self.new method name.now ≡ Some kind) }
        ensures others { (m : ℕ) → (n : List ℕ) → ¬ ((m ≡ method) × (n ≡ name.now)) → own self.new m n ≡ own self.old m n }
        ensures unchanged { OnErr result ((m : ℕ) → (n : List ℕ) → own self.new m n ≡ own self.old m n) }
    {
        let old = enter_in(self.alloc, &mut self.scopes, method, name, kind)?;
        Ok(old)
    }

    /// What a name of this method alone is, or at 0 a name of the whole file.
    pub fn own(&self, method: u32, name: &Text) -> Option<NameKind>
        ensures { result ≡ own self.now method name.now }
    {
        match self.scopes.get(&method) {
            Some(names) => names.get(name.as_slice()).copied(),
            None => None,
        }
    }

    /// What a name is in a method: a name of its own, or else one of the whole file.
    pub fn find(&self, method: u32, name: &Text) -> Option<NameKind>
        ensures { result ≡ kind_of self.now method name.now }
    {
        match self.own(method, name) {
            Some(kind) => Some(kind),
            None => self.own(0, name),
        }
    }

    // The names of the whole file, if there are any.
    pub(crate) fn of_file(&self) -> Option<&Names>
        ensures { option_copied result ≡ names_at 0 self.now.scopes }
    {
        self.scopes.get(&0)
    }
}

// Puts a kind at a name, and gives what stood there.
fn enter(
    alloc: Global,
    names: &mut Names,
    name: &Text,
    kind: NameKind,
) -> Result<Option<NameKind>, AllocError>
    ensures old { IfOk result (λ old. old ≡ at_bytes name.now names.old) }
    ensures entered { OnOk result (at_bytes name.now names.new ≡ Some kind) }
    ensures others { (n : List ℕ) → ¬ (n ≡ name.now) → at_bytes n names.new ≡ at_bytes n names.old }
    ensures unchanged { OnErr result ((n : List ℕ) → at_bytes n names.new ≡ at_bytes n names.old) }
{
    let key = name.as_slice().to_vec(alloc)?;
    let old = names.insert(key, kind)?;
    Ok(old)
}

// Puts a kind at a name of a scope, and gives what stood there.
fn enter_in(
    alloc: Global,
    scopes: &mut Scopes,
    method: u32,
    name: &Text,
    kind: NameKind,
) -> Result<Option<NameKind>, AllocError>
    ensures old { IfOk result (λ old. old ≡ at_number method name.now scopes.old) }
    ensures entered { OnOk result (at_number method name.now scopes.new ≡ Some kind) }
    ensures others { (m : ℕ) → (n : List ℕ) → ¬ ((m ≡ method) × (n ≡ name.now)) → at_number m n scopes.new ≡ at_number m n scopes.old }
    ensures unchanged { OnErr result ((m : ℕ) → (n : List ℕ) → at_number m n scopes.new ≡ at_number m n scopes.old) }
{
    match scopes.get_mut(&method) {
        Some(names) => enter(alloc, names, name, kind),
        None => enter_first(alloc, scopes, method, name, kind),
    }
}

// Puts a kind at a name of a scope that has none yet: nothing stood there.
fn enter_first(
    alloc: Global,
    scopes: &mut Scopes,
    method: u32,
    name: &Text,
    kind: NameKind,
) -> Result<Option<NameKind>, AllocError>
    requires { names_at method scopes.old ≡ None }
    ensures old { IfOk result (λ old. old ≡ at_number method name.now scopes.old) }
    ensures entered { OnOk result (at_number method name.now scopes.new ≡ Some kind) }
    ensures others { (m : ℕ) → (n : List ℕ) → ¬ ((m ≡ method) × (n ≡ name.now)) → at_number m n scopes.new ≡ at_number m n scopes.old }
    ensures unchanged { OnErr result ((m : ℕ) → (n : List ℕ) → at_number m n scopes.new ≡ at_number m n scopes.old) }
{
    let mut names = BTreeMap::new(alloc);
    enter(alloc, &mut names, name, kind)?;
    scopes.insert(method, names)?;
    Ok(None)
}
