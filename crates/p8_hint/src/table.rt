// Tables from names to numbers.
ghost use Rattle.std.specs.Prelude.{◌≡◌, ℕ, List, Some, None, is_some, OnOk};
ghost use Rattle.std.specs.Str.{bytes_eq};
ghost use Rattle.p8_fold.specs.ConstantEntries.{at_bytes};
ghost use Rattle.p8_hint.specs.Rules.{after, once_more};
ghost use Rattle.p8_hint.specs.FileFacts.{and_code};
ghost use Rattle.p8_hint.specs.Tables.{number_in};

use std::alloc::{AllocError, Global};
use std::collections::BTreeMap;

type Entries = BTreeMap<Vec<u8>, u64>;

/// A table from names to numbers.
#[derive(Drop)]
pub struct Table {
    alloc: Global,
    entries: Entries,
}

impl Table {
    /// A table without entries. It takes no memory.
    pub fn new(alloc: Global) -> Table
        ensures { (name : List ℕ) → number_in result name ≡ None }
    {
        Table {
            alloc,
            entries: BTreeMap::new(alloc),
        }
    }

    /// The number of a name, where it has one.
    pub fn get(&self, name: &[u8]) -> Option<u64>
        ensures { result ≡ number_in self.now name.now }
    {
        self.entries.get(name).copied()
    }

    /// Whether a name has a number.
    pub fn has(&self, name: &[u8]) -> bool
        ensures { result ≡ is_some (number_in self.now name.now) }
    {
        self.get(name).is_some()
    }

    /// Gives a name a number, in place of that which it had.
    pub fn put(&mut self, name: &[u8], number: u64) -> Result<(), AllocError>
        ensures { OnOk result ((n : List ℕ) → number_in self.new n ≡ after (bytes_eq n name.now) (λ before. number) (number_in self.old n)) }
    {
        enter(self.alloc, &mut self.entries, name, number)?;
        Ok(())
    }

    /// Counts a name once more: 2 stands for more than once.
    pub fn count(&mut self, name: &[u8]) -> Result<(), AllocError>
        ensures { OnOk result ((n : List ℕ) → number_in self.new n ≡ after (bytes_eq n name.now) once_more (number_in self.old n)) }
    {
        let number = once_more(self.get(name));
        self.put(name, number)?;
        Ok(())
    }

    /// Marks a label: with 1 where an instruction stands at it, and at the others of its name.
    pub fn mark(&mut self, name: &[u8], is_code: bool) -> Result<(), AllocError>
        ensures { OnOk result ((n : List ℕ) → number_in self.new n ≡ after (bytes_eq n name.now) (and_code is_code) (number_in self.old n)) }
    {
        let number = and_code(is_code, self.get(name));
        self.put(name, number)?;
        Ok(())
    }
}

// Puts a number at a name.
fn enter(alloc: Global, entries: &mut Entries, name: &[u8], number: u64) -> Result<(), AllocError>
    ensures entered { OnOk result (at_bytes name.now entries.new ≡ Some number) }
    ensures others { OnOk result ((n : List ℕ) → ¬ (n ≡ name.now) → at_bytes n entries.new ≡ at_bytes n entries.old) }
{
    let key = name.to_vec(alloc)?;
    entries.insert(key, number)?;
    Ok(())
}

fn once_more(before: Option<u64>) -> u64
    ensures { result ≡ once_more before }
{
    match before {
        None => 1,
        Some(_) => 2,
    }
}

fn and_code(is_code: bool, before: Option<u64>) -> u64
    ensures { result ≡ and_code is_code before }
{
    if !is_code {
        return 0;
    }
    match before {
        None => 1,
        Some(before) => before,
    }
}
