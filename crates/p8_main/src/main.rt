//! `prop`: compiles programs of the Parallax Propeller P8X32A, runs them, and prints the history of the eight cogs.
#![tactic(auto)]

mod asked;
mod searched_places;

use crate::asked::AskedShelf;
use crate::searched_places::tell_places;
use p8_crew::ThreadStarter;
use p8_inputs::Stop;
use p8_io::{FileShelf, StdSink};
use p8_prop::{Status, prop};
use p8_words::NoMemory;
use std::env::{self, FillError};
use std::io::ErrorKind;
use std::path::{Path, PathBuf};
use std::process::ExitCode;
use std::rt::Env;

/// The words after the program's name. Where one of them isn't UTF-8 they are no command, as no words
/// at all are none.
fn words_of(rt: &HostRuntime) -> Result<Vec<String>, NoMemory> {
    let mut words = Vec::new(rt.alloc());
    match env::args(rt) {
        Ok(args) => {
            for word in args.skip(1) {
                match words.push(word) {
                    Ok(()) => {}
                    Err(_) => return Err(NoMemory),
                }
            }
            Ok(words)
        }
        Err(error) => match error.kind() {
            ErrorKind::OutOfMemory => Err(NoMemory),
            _ => Ok(words),
        },
    }
}

/// The most bytes that a variable of the environment is looked at with: as many as Linux lets it have, and more.
const MOST_BYTES: usize = 1 << 20;

/// The bytes of the environment's `PROP_PATH`, or None where it isn't set or has more than a megabyte.
fn path_bytes(rt: &HostRuntime) -> Result<Option<Vec<u8>>, NoMemory> {
    let mut bytes = Vec::new(rt.alloc());
    for size in [256, 65_536, MOST_BYTES] {
        bytes.resize(size, 0)?;
        match rt.var("PROP_PATH", bytes.as_mut_slice()) {
            Ok(length) => {
                bytes.truncate(length);
                return Ok(Some(bytes));
            }
            Err(FillError::NotPresent) => return Ok(None),
            Err(FillError::TooLong) => {}
        }
    }
    Ok(None)
}

/// The folders of the environment's `PROP_PATH`, between which colons stand. What isn't UTF-8 of it is passed over.
fn folders_of(rt: &HostRuntime) -> Result<Vec<PathBuf>, NoMemory> {
    let mut folders = Vec::new(rt.alloc());
    let Some(bytes) = path_bytes(rt)? else {
        return Ok(folders);
    };
    for part in bytes.split(|byte| *byte == b':') {
        if let Ok(folder) = str::from_utf8(part) {
            match folders.push(Path::new(folder).to_path_buf(rt.alloc())?) {
                Ok(()) => {}
                Err(_) => return Err(NoMemory),
            }
        }
    }
    Ok(folders)
}

/// Whether the words ask for explanations.
fn explains(words: &[String]) -> bool {
    words.first().is_some_and(|word| word.as_str() == "explain")
}

fn main(rt: HostRuntime) -> ExitCode {
    let mut out = StdSink::new(rt.stdout());
    let mut faults = StdSink::new(rt.stderr());
    let mut starter = ThreadStarter::new();
    let (Ok(words), Ok(folders)) = (words_of(&rt), folders_of(&rt)) else {
        Stop::NoMemory.tell(&mut faults);
        return ExitCode::from(Status::NoMemory.code());
    };
    let mut shelf = AskedShelf::new(FileShelf::new(&rt, folders));
    let status = prop(
        &rt,
        rt.alloc(),
        &words,
        &mut shelf,
        &mut out,
        &mut faults,
        &mut starter,
    );
    if let (Status::Missing, true, Ok(folders)) = (status, explains(&words), folders_of(&rt)) {
        let _ = tell_places(&rt, &shelf, folders, &mut out, &mut faults);
    }
    ExitCode::from(status.code())
}
