// A shelf of files in memory.
ghost use Rattle.std.specs.Prelude.{◌≡◌, ◌≤◌, ◌↔◌, ◌∷◌, [], None, IsTrue, false, OnOk, OnErr, IfOk, take, vec_len};
ghost use Rattle.std.specs.Option.{option_copied};
ghost use Rattle.std.specs.FinMap as map;
ghost use Rattle.p8_io.specs.Counts.{raised};
ghost use Rattle.p8_io.specs.Shelves.{Reads, WereRead, logged, read_limit};
ghost use Rattle.p8_io.specs.Memory.{empty_shelf, counted_if, is_next_listed, names_of};

use crate::count::raise;
use crate::fails::{Calls, FailList};
use crate::log::ReadLog;
use crate::shelf::{Shelf, ShelfError};
use p8_words::NoMemory;
use std::alloc::{AllocError, Global};
use std::collections::BTreeMap;
use std::marker::Model;

/// How many bytes of a file a read gives at most.
pub(crate) const READ_LIMIT: usize = 1_048_577;

/// Files in memory, for tests and for callers that have the bytes already.
///
/// A contract sees the files by name, the count of faults, which names were read and how many reads there were, and
/// the numbers of those that are to fail. It tells its files, so a read answers `Missing` exactly where there is no file
/// of the name, and fails exactly where its number is listed. It tells the names that were read until there is no
/// memory for one of them.
#[derive(Drop)]
pub struct MemShelf {
    alloc: Global,
    contents: BTreeMap<String, Vec<u8>>,
    calls: Calls,
    log: ReadLog,
    faults: u64,
}

impl Model for MemShelf {
    ghost use Rattle.p8_io.specs.Memory.{MemoryShelf};
    ghost use Rattle.p8_io.specs.Contents.{memory_shelf_code, files_of};

    ghost Value = { MemoryShelf };

    ghost coded = { memory_shelf_code };

    ghost view = { λ shelf. record {
      files = files_of shelf.contents.entries;
      faults = shelf.faults;
      log = shelf.log;
      calls = shelf.calls.made;
      fails = shelf.calls.fails;
    } };
}

impl MemShelf {
    /// No files, no faults, no reads and none that is to fail. It takes no memory.
    pub fn new(alloc: Global) -> MemShelf
        ensures { result ≡ empty_shelf }
    {
        MemShelf {
            alloc,
            contents: BTreeMap::new(alloc),
            calls: Calls {
                made: 0,
                fails: FailList::new(alloc),
            },
            log: ReadLog::new(alloc),
            faults: 0,
        }
    }

    /// The same shelf, of which the listed reads fail, and no others. Reads are counted since `new`.
    pub fn with(self, fails: FailList) -> MemShelf
        ensures files { result.files ≡ self.files }
        ensures faults { result.faults ≡ self.faults }
        ensures log { result.log ≡ self.log }
        ensures calls { result.calls ≡ self.calls }
        ensures fails { result.fails ≡ fails }
    {
        MemShelf {
            alloc: self.alloc,
            contents: self.contents,
            calls: Calls {
                made: self.calls.made,
                fails,
            },
            log: self.log,
            faults: self.faults,
        }
    }

    /// Sets one file. A file that had this name is replaced. Without memory the shelf stays as it was.
    pub fn add(&mut self, name: &str, bytes: &[u8]) -> Result<(), NoMemory>
        ensures ok { OnOk result (self.new.files ≡ map.insert self.old.files name.now bytes.now) }
        ensures err { OnErr result (self.new.files ≡ self.old.files) }
        ensures faults { self.new.faults ≡ self.old.faults }
        ensures log { self.new.log ≡ self.old.log }
        ensures calls { self.new.calls ≡ self.old.calls }
        ensures fails { self.new.fails ≡ self.old.fails }
    {
        let name = String::from_str(self.alloc, name)?;
        let bytes = Vec::from_slice(self.alloc, bytes)?;
        match self.contents.insert(name, bytes) {
            Ok(_) => Ok(()),
            Err(_) => Err(NoMemory),
        }
    }

    /// The names that were read since `new`, in order and each as often as it was read, whatever came of it; None
    /// where there was no memory for one of them.
    pub fn names_read(&self) -> Option<&[String]>
        ensures { names_of result ≡ self.now.log }
    {
        self.log.names()
    }

    // The bytes of the file of that name.
    fn file(&self, name: &str) -> Option<&[u8]>
        ensures { option_copied result ≡ map.get self.now.files name.now }
    {
        match self.contents.get(name) {
            Some(file) => Some(file.as_slice()),
            None => None,
        }
    }
}

// A copy of the first bytes, at most so many.
fn start_of(alloc: Global, bytes: &[u8], limit: usize) -> Result<Vec<u8>, AllocError>
    ensures start { IfOk result (λ start. start.items ≡ take limit bytes.now) }
    ensures limited { IfOk result (λ start. vec_len start ≤ limit) }
{
    Vec::from_slice(alloc, &bytes[..limit.min(bytes.len())])
}

impl Shelf for MemShelf {
    ghost use Rattle.std.specs.Prelude.{Some};

    ghost files = { λ shelf. Some (map.get shelf.files) };

    ghost log = { λ shelf. shelf.log };

    ghost faults = { λ shelf. shelf.faults };

    #[tactic(auto, unfolding(crate::specs::Shelves::read_limit))]
    fn read(&mut self, alloc: Global, name: &str) -> Result<Vec<u8>, ShelfError>
        // What every shelf promises.
        ensures reads { Reads self.old.faults self.new.faults (Some (map.get self.old.files)) name.now result }
        ensures limited { IfOk result (λ bytes. vec_len bytes ≤ read_limit) }
        ensures later { self.old.faults ≤ self.new.faults }
        ensures kept { self.new.files ≡ self.old.files }
        ensures logged { WereRead self.old.log self.new.log (name.now ∷ []) }

        // After bytes it tells that too.
        ensures noted { OnOk result (self.new.log ≡ logged self.old.log name.now) }

        // The listed reads fail, and no others.
        ensures failed { (result ≡ Err ShelfError.Failed) ↔ IsTrue (is_next_listed self.old.fails self.old.calls) }
        ensures missing { result ≡ Err ShelfError.Missing ↔
            ((map.get self.old.files name.now ≡ None) × (is_next_listed self.old.fails self.old.calls ≡ false)) }
        ensures faults { self.new.faults ≡ counted_if (is_next_listed self.old.fails self.old.calls) self.old.faults }
        ensures calls { self.new.calls ≡ raised self.old.calls }
        ensures fails { self.new.fails ≡ self.old.fails }
    {
        let noted = self.log.add(self.alloc, name);
        if self.calls.is_failing() {
            raise(&mut self.faults);
            return Err(ShelfError::Failed);
        }
        let Some(file) = self.file(name) else {
            return Err(ShelfError::Missing);
        };
        match (noted, start_of(alloc, file, READ_LIMIT)) {
            (Ok(()), Ok(start)) => Ok(start),
            _ => Err(ShelfError::NoMemory),
        }
    }
}
