// Shelves in memory.
use p8_io::{FailList, MemShelf};
use p8_words::NoMemory;
use std::alloc::Global;

/// A shelf of these files, of which the read of this number fails; for 0 none does.
pub fn shelf_of(alloc: Global, files: &[(&str, &[u8])], call: u64) -> Result<MemShelf, NoMemory> {
    let mut fails = FailList::new(alloc);
    fails.at(call)?;
    let mut shelf = MemShelf::new(alloc).with(fails);
    for (name, bytes) in files {
        shelf.add(name, bytes)?;
    }
    Ok(shelf)
}
