// The files and the streams of the system, as a shelf and as sinks. They tell no contents.
ghost use Rattle.std.specs.Prelude.{◌≡◌, ◌≤◌, ◌∷◌, [], ℕ, List, None, Err, IfOk, IfSome, OnOk, is_err, take, vec_len};
ghost use Rattle.std.specs.Bool.{OnTrue};
ghost use Rattle.std.specs.Io.KnownBytes.{Appends};
ghost use Rattle.p8_io.specs.Memory.{counted_if};
ghost use Rattle.p8_io.specs.Shelves.{Reads, WereRead, read_limit};
ghost use Rattle.p8_io.specs.Sinks.{Writes};

use crate::count::raise;
use crate::memory_shelf::READ_LIMIT;
use crate::shelf::{Shelf, ShelfError};
use crate::sink::{Sink, SinkFailed};
use std::alloc::Global;
use std::fs::File;
use std::io::{Error, ErrorKind, Read, Write};
use std::marker::Model;
use std::path::{Path, PathBuf};
use std::rt::Files;

/// The files of the system, by their paths.
///
/// The first file that is read by `read`, the top file of a project, and each file that is read by `read_named` is the one
/// of just this name. Every further file, which a source mentions, is looked for as it stands; where nothing of that name is there,
/// beside the first file; and then in the folders that the shelf was given, in their order. Where none of these has it, a name that doesn't
/// end in `.spin` is looked for once more with `.spin` behind it. A path from the root has one place.
///
/// A read is `Missing` where the system has nothing of that name in any of these, and `Failed` at every other fault,
/// as at a folder; but one of the shelf's folders that is none, that can't be read, or in which a folder has the name, is passed over. Either raises
/// the count of faults by one. Want of memory, the system's too, is `NoMemory` and
/// no fault. A contract sees the count alone, and nothing of what the files hold.
#[derive(Drop)]
pub struct FileShelf<'a, R> {
    rt: &'a R,
    faults: u64,
    // Where a file is looked for last that a source mentions.
    folders: Vec<PathBuf>,
    // The folder of the first file that was read by `read`.
    beside: Option<PathBuf>,
}

impl<'a, R> Model for FileShelf<'a, R> {
    ghost use Rattle.std.specs.Prelude.{ℕ};

    ghost Value = { ℕ };

    ghost view = { λ shelf. shelf.faults };
}

impl<'a, R: Files> FileShelf<'a, R> {
    /// A shelf without faults so far, which also looks in these folders for what a source mentions.
    pub fn new(rt: &'a R, folders: Vec<PathBuf>) -> FileShelf<'a, R>
        ensures { result ≡ 0 }
    {
        FileShelf {
            rt,
            faults: 0,
            folders,
            beside: None,
        }
    }

    // Reads the top file of a project. Its folder is the one in which others are looked for first.
    fn read_top(&mut self, alloc: Global, name: &str) -> Result<Vec<u8>, ShelfError>
        ensures limited { IfOk result (λ bytes. vec_len bytes ≤ READ_LIMIT) }
        ensures quiet { self.new ≡ self.old }
    {
        let path = Path::new(name);
        let bytes = read_file(self.rt, alloc, path, false)?;
        self.beside = match path.parent() {
            Some(folder) => Some(folder.to_path_buf(alloc)?),
            None => None,
        };
        Ok(bytes)
    }

    // Reads the top file of a project, or a file that a source of it mentions.
    fn read_found(&mut self, alloc: Global, name: &str) -> Result<Vec<u8>, ShelfError>
        ensures limited { IfOk result (λ bytes. vec_len bytes ≤ READ_LIMIT) }
        ensures quiet { self.new ≡ self.old }
    {
        match &self.beside {
            None => self.read_top(alloc, name),
            Some(folder) => read_mentioned(self.rt, alloc, folder.as_path(), &self.folders, name),
        }
    }

    // Counts why a read gave no bytes, where that is a fault, and hands it on.
    fn counted(&mut self, error: ShelfError) -> ShelfError
        ensures reads { (name : List ℕ) → Reads self.old self.new None name (Err result) }
        ensures later { self.old ≤ self.new }
    {
        match error {
            ShelfError::NoMemory => ShelfError::NoMemory,
            fault => {
                raise(&mut self.faults);
                fault
            }
        }
    }
}

// Whether one of the shelf's folders is passed over at such a failure.
fn is_passed_over(kind: ErrorKind) -> bool {
    matches!(
        kind,
        ErrorKind::NotADirectory
            | ErrorKind::IsADirectory
            | ErrorKind::PermissionDenied
            | ErrorKind::InvalidFilename
            | ErrorKind::FilesystemLoop
    )
}

// Why a call on a file gave no bytes; `passes` says whether this place may be passed over.
fn cause(error: &Error, passes: bool) -> ShelfError {
    match error.kind() {
        ErrorKind::OutOfMemory => ShelfError::NoMemory,
        ErrorKind::NotFound => ShelfError::Missing,
        kind => {
            if passes && is_passed_over(kind) {
                ShelfError::Missing
            } else {
                ShelfError::Failed
            }
        }
    }
}

// The first bytes of a reader, at most so many. Each turn takes at least one byte, or is the last: no call
// is tried again, so one that a signal interrupts has failed.
fn first_bytes<F: Read>(
    alloc: Global,
    file: &mut F,
    limit: usize,
    passes: bool,
) -> Result<Vec<u8>, ShelfError>
    ensures limited { IfOk result (λ bytes. vec_len bytes ≤ limit) }

    // Where the reader tells its bytes.
    ensures first { IfOk result (λ bytes. IfSome (F.remaining file.old) (λ all. bytes.items ≡ take limit all)) }
{
    let mut bytes = Vec::new(alloc);
    let mut chunk = [0; 4096];
    'turns: while bytes.len() < limit {
        let wanted = chunk.len().min(limit - bytes.len());
        match file.read(&mut chunk[..wanted]) {
            Ok(0) => return Ok(bytes),
            Ok(taken) => bytes.extend_from_slice(&chunk[..taken])?,
            Err(error) => return Err(cause(&error, passes)),
        }
    }
    Ok(bytes)
}

// Opens a file and reads its first bytes, as many as a read gives at most.
fn read_file<R: Files>(
    rt: &R,
    alloc: Global,
    path: Path<'_>,
    passes: bool,
) -> Result<Vec<u8>, ShelfError>
    ensures { IfOk result (λ bytes. vec_len bytes ≤ READ_LIMIT) }
{
    match File::open(rt, path) {
        Ok(mut file) => first_bytes(alloc, &mut file, READ_LIMIT, passes),
        Err(error) => Err(cause(&error, passes)),
    }
}

// Reads the file of a name in the first of the folders that has it.
fn read_in_folders<R: Files>(
    rt: &R,
    alloc: Global,
    folders: &[PathBuf],
    name: Path<'_>,
) -> Result<Vec<u8>, ShelfError>
    ensures { IfOk result (λ bytes. vec_len bytes ≤ READ_LIMIT) }
{
    for folder in folders {
        let path = folder.as_path().join(alloc, name)?;
        match read_file(rt, alloc, path.as_path(), true) {
            Err(ShelfError::Missing) => {}
            read => return read,
        }
    }
    Err(ShelfError::Missing)
}

// Reads a file that a source mentions, as it stands, beside the top file, or in the first of the folders that has it.
fn read_placed<R: Files>(
    rt: &R,
    alloc: Global,
    beside: Path<'_>,
    folders: &[PathBuf],
    name: Path<'_>,
) -> Result<Vec<u8>, ShelfError>
    ensures { IfOk result (λ bytes. vec_len bytes ≤ READ_LIMIT) }
{
    match read_file(rt, alloc, name, false) {
        Err(ShelfError::Missing) => {}
        read => return read,
    }
    let path = beside.join(alloc, name)?;
    match read_file(rt, alloc, path.as_path(), false) {
        Err(ShelfError::Missing) => read_in_folders(rt, alloc, folders, name),
        read => read,
    }
}

// Reads a file that a source mentions, by its name, or else by that with `.spin` behind it.
fn read_mentioned<R: Files>(
    rt: &R,
    alloc: Global,
    beside: Path<'_>,
    folders: &[PathBuf],
    name: &str,
) -> Result<Vec<u8>, ShelfError>
    ensures { IfOk result (λ bytes. vec_len bytes ≤ READ_LIMIT) }
{
    let read = read_placed(rt, alloc, beside, folders, Path::new(name));
    if read != Err(ShelfError::Missing) || name.ends_with(".spin") {
        return read;
    }
    let name = format!(in alloc; "{name}.spin")?;
    read_placed(rt, alloc, beside, folders, Path::new(&name))
}

impl<'a, R: Files> Shelf for FileShelf<'a, R> {
    ghost files = { λ _. None };

    ghost log = { λ _. None };

    ghost faults = { λ faults. faults };

    #[tactic(auto, unfolding(crate::specs::Shelves::read_limit))]
    fn read(&mut self, alloc: Global, name: &str) -> Result<Vec<u8>, ShelfError>
        // What every shelf promises.
        ensures reads { Reads self.old self.new None name.now result }
        ensures limited { IfOk result (λ bytes. vec_len bytes ≤ read_limit) }
        ensures later { self.old ≤ self.new }
        ensures logged { WereRead None None (name.now ∷ []) }

        // A read that gives bytes is no fault.
        ensures quiet { OnOk result (self.new ≡ self.old) }
    {
        match self.read_found(alloc, name) {
            Ok(bytes) => Ok(bytes),
            Err(error) => Err(self.counted(error)),
        }
    }

    #[tactic(auto, unfolding(crate::specs::Shelves::read_limit))]
    fn read_named(&mut self, alloc: Global, name: &str) -> Result<Vec<u8>, ShelfError>
        // What every shelf promises.
        ensures reads { Reads self.old self.new None name.now result }
        ensures limited { IfOk result (λ bytes. vec_len bytes ≤ read_limit) }
        ensures later { self.old ≤ self.new }
        ensures logged { WereRead None None (name.now ∷ []) }

        // A read that gives bytes is no fault.
        ensures quiet { OnOk result (self.new ≡ self.old) }
    {
        match read_file(self.rt, alloc, Path::new(name), false) {
            Ok(bytes) => Ok(bytes),
            Err(error) => Err(self.counted(error)),
        }
    }
}

/// A stream of the system that takes bytes, as standard output.
///
/// Each write is followed by a flush, and a write that takes nothing of the bytes that are left is a fault.
///
/// It tells no bytes as a sink does. A contract sees the count of faults and, where the stream itself tells
/// what it holds, those bytes: the streams of the system do not, and a `Vec<u8>` does.
#[derive(Drop)]
pub struct StdSink<W: Write> {
    to: W,
    faults: u64,
}

impl<W: Write> Model for StdSink<W> {
    ghost use Rattle.p8_io.specs.Streams.{Stream};

    ghost Value = { Stream };

    ghost view = { λ sink. record { contents = W.contents sink.to; faults = sink.faults } };
}

impl<W: Write + Drop> StdSink<W> {
    /// A sink without faults so far.
    pub fn new(to: W) -> StdSink<W>
        ensures contents { result.contents ≡ W.contents to }
        ensures faults { result.faults ≡ 0 }
    {
        StdSink { to, faults: 0 }
    }
}

// Writes all the bytes and flushes, and says whether that went well. Each turn writes at least one byte,
// or is the last: a write that takes none has failed, and so has one that a signal interrupts.
fn send<W: Write>(to: &mut W, bytes: &[u8]) -> bool
    // Where the writer tells its bytes.
    ensures all { OnTrue result (Appends (W.contents to.old) (W.contents to.new) bytes.now) }
    ensures prefix { (n : ℕ) × Appends (W.contents to.old) (W.contents to.new) (take n bytes.now) }
{
    let mut rest = bytes;
    'turns: while !rest.is_empty() {
        match to.write(rest) {
            Ok(0) => return false,
            Ok(taken) => rest = &rest[taken..],
            Err(_) => return false,
        }
    }
    to.flush().is_ok()
}

impl<W: Write + Drop> Sink for StdSink<W> {
    ghost taken = { λ _. None };

    ghost faults = { λ sink. sink.faults };

    fn write(&mut self, bytes: &[u8]) -> Result<(), SinkFailed>
        // What every sink promises.
        ensures writes { Writes self.old.faults self.new.faults None None bytes.now result }
        ensures later { self.old.faults ≤ self.new.faults }

        // The failing writes are counted, and no others.
        ensures faults { self.new.faults ≡ counted_if (is_err result) self.old.faults }

        // Where the stream tells its bytes.
        ensures all { OnOk result (Appends self.old.contents self.new.contents bytes.now) }
        ensures prefix { (n : ℕ) × Appends self.old.contents self.new.contents (take n bytes.now) }
    {
        if send(&mut self.to, bytes) {
            return Ok(());
        }
        raise(&mut self.faults);
        Err(SinkFailed)
    }
}
