// A shelf that knows what it was asked for.
ghost use Rattle.std.specs.Prelude.{◌≡◌, ◌≤◌, ◌∷◌, [], IfOk, vec_len};
ghost use Rattle.p8_io.specs.Shelves.{Reads, WereRead, read_limit};

use p8_io::{Shelf, ShelfError};
use std::alloc::Global;

/// A shelf that keeps the name of the first file that it was asked for, and of the first one that was missing, as far as there was memory for
/// them. It is in all else the shelf within.
#[derive(Drop)]
pub struct AskedShelf<S> {
    shelf: S,
    is_asked: bool,
    first: Option<String>,
    missing: Option<String>,
}

impl<S: Shelf> AskedShelf<S> {
    /// A shelf that wasn't asked for anything so far.
    pub fn new(shelf: S) -> AskedShelf<S> {
        AskedShelf {
            shelf,
            is_asked: false,
            first: None,
            missing: None,
        }
    }

    /// The name of the first file that it was asked for.
    pub fn first(&self) -> Option<&str> {
        self.first.as_deref()
    }

    /// The name of the first file that was missing.
    pub fn missing(&self) -> Option<&str> {
        self.missing.as_deref()
    }

    // Keeps the name of a file that it is asked for, where it is the first.
    fn keep_asked(&mut self, alloc: Global, name: &str)
        ensures same { self.new.shelf ≡ self.old.shelf }
    {
        if !self.is_asked {
            self.is_asked = true;
            self.first = String::from_str(alloc, name).ok();
        }
    }

    // Keeps the name of a file where it is the first that is missing.
    fn keep_missing(&mut self, alloc: Global, name: &str, read: &Result<Vec<u8>, ShelfError>)
        ensures same { self.new.shelf ≡ self.old.shelf }
    {
        if let (Err(ShelfError::Missing), None) = (read, &self.missing) {
            self.missing = String::from_str(alloc, name).ok();
        }
    }
}

impl<S: Shelf> Shelf for AskedShelf<S> {
    ghost files = { λ asked. S.files asked.shelf };

    ghost log = { λ asked. S.log asked.shelf };

    ghost faults = { λ asked. S.faults asked.shelf };

    fn read(&mut self, alloc: Global, name: &str) -> Result<Vec<u8>, ShelfError>
        ensures reads { Reads (S.faults self.old.shelf) (S.faults self.new.shelf) (S.files self.old.shelf) name.now result }
        ensures limited { IfOk result (λ bytes. vec_len bytes ≤ read_limit) }
        ensures later { S.faults self.old.shelf ≤ S.faults self.new.shelf }
        ensures kept { S.files self.new.shelf ≡ S.files self.old.shelf }
        ensures logged { WereRead (S.log self.old.shelf) (S.log self.new.shelf) (name.now ∷ []) }
    {
        self.keep_asked(alloc, name);
        let read = self.shelf.read(alloc, name);
        self.keep_missing(alloc, name, &read);
        read
    }

    fn read_named(&mut self, alloc: Global, name: &str) -> Result<Vec<u8>, ShelfError>
        ensures reads { Reads (S.faults self.old.shelf) (S.faults self.new.shelf) (S.files self.old.shelf) name.now result }
        ensures limited { IfOk result (λ bytes. vec_len bytes ≤ read_limit) }
        ensures later { S.faults self.old.shelf ≤ S.faults self.new.shelf }
        ensures kept { S.files self.new.shelf ≡ S.files self.old.shelf }
        ensures logged { WereRead (S.log self.old.shelf) (S.log self.new.shelf) (name.now ∷ []) }
    {
        self.keep_asked(alloc, name);
        let read = self.shelf.read_named(alloc, name);
        self.keep_missing(alloc, name, &read);
        read
    }
}
