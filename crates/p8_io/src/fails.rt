// Which calls of a shelf or a sink in memory are to fail.
ghost use Rattle.std.specs.Prelude.{◌≡◌, ◌++◌, ◌∷◌, [], OnOk, OnErr, nat_eq};
ghost use Rattle.std.specs.List.{list_any};
ghost use Rattle.p8_io.specs.Counts.{raised};
ghost use Rattle.p8_io.specs.Memory.{is_next_listed};

use crate::count::raise;
use p8_words::NoMemory;
use std::alloc::Global;
use std::marker::Model;

/// The numbers of the calls that are to fail. A call's number says which one it is since its object was
/// made: the first is 1.
///
/// A contract sees it as the list of these numbers.
#[derive(Drop)]
pub struct FailList {
    numbers: Vec<u64>,
}

impl Model for FailList {
    ghost use Rattle.std.specs.Prelude.{List, ℕ};

    ghost Value = { List ℕ };

    ghost view = { λ list. list.numbers.items };
}

impl FailList {
    /// Lists no call. It takes no memory.
    pub fn new(alloc: Global) -> FailList
        ensures { result ≡ [] }
    {
        FailList {
            numbers: Vec::new(alloc),
        }
    }

    /// Lists the call of this number too. Without memory for it the list stays as it was.
    pub fn at(&mut self, call: u64) -> Result<(), NoMemory>
        ensures ok { OnOk result (self.new ≡ self.old ++ call ∷ []) }
        ensures err { OnErr result (self.new ≡ self.old) }
    {
        match self.numbers.push(call) {
            Ok(()) => Ok(()),
            Err(_) => Err(NoMemory),
        }
    }

    // Whether the call of this number is listed.
    fn lists(&self, call: u64) -> bool
        ensures { result ≡ list_any (λ number. nat_eq number call) self.now }
    {
        self.numbers.contains(&call)
    }
}

/// The calls of an object so far, and those that are to fail.
#[derive(Drop)]
pub(crate) struct Calls {
    pub(crate) made: u64,
    pub(crate) fails: FailList,
}

impl Calls {
    // Counts a call, and says whether it is to fail.
    pub(crate) fn is_failing(&mut self) -> bool
        ensures listed { result ≡ is_next_listed self.old.fails self.old.made }
        ensures made { self.new.made ≡ raised self.old.made }
        ensures fails { self.new.fails ≡ self.old.fails }
    {
        raise(&mut self.made);
        self.fails.lists(self.made)
    }
}
