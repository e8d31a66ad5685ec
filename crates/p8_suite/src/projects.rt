// Projects of sources, and what commands on them write.
use anyhow::anyhow;
use p8_inputs::{image_of_source, listing_of_source};
use p8_io::{MemShelf, MemSink};
use std::alloc::Global;
use std::fs::{self, Files};

/// How long a line may be.
const LINE_BYTES: usize = 256;

/// The mark before the name of each file of a project.
const MARK: &str = "## ";

/// A command on a project.
#[derive(Clone, Copy, PartialEq, Eq)]
pub enum Command {
    /// The bytes of its image.
    Build,
    /// The bytes of its image with shorter code.
    Short,
    /// Its listing.
    List,
}

/// A project with a file that has what a command on it writes.
#[derive(Clone, Copy)]
pub struct Written<'a> {
    command: Command,
    project: &'a str,
    expected: &'a str,
}

/// A project that isn't built, with the line that tells why.
#[derive(Clone, Copy)]
pub struct Unbuilt<'a> {
    project: &'a str,
    /// The line, without the program's name in front.
    line: &'a str,
}

/// A project on a shelf.
#[derive(Drop)]
pub struct OnShelf {
    /// The name of its top file.
    pub top: String,
    pub shelf: MemShelf,
}

/// The project of a file that holds its files: each stands after a line with a mark and its name, the top file first.
pub fn shelved<R: Files + Alloc<A = Global>>(rt: &R, project: &str) -> anyhow::Result<OnShelf> {
    let alloc = rt.alloc();
    let text = fs::read_to_string(rt, project)?;
    let mut shelf = MemShelf::new(alloc);
    let mut top = None;
    for part in text.split(MARK).skip(1) {
        let (name, bytes) = part
            .split_once('\n')
            .ok_or_else(|| anyhow!("a file without a name"))?;
        shelf.add(name, bytes.as_bytes())?;
        if top.is_none() {
            top = Some(String::from_str(alloc, name)?);
        }
    }
    match top {
        Some(top) => Ok(OnShelf { top, shelf }),
        None => Err(anyhow!("a project without files")),
    }
}

/// Whether a project is built to these bytes.
fn is_built(alloc: Global, short: bool, project: &mut OnShelf, expected: &[u8]) -> bool {
    match image_of_source(alloc, short, &project.top, &mut project.shelf) {
        Ok(image) => image.bytes() == expected,
        Err(_) => false,
    }
}

impl<'a> Written<'a> {
    /// The project of a case's words.
    pub fn of_words(command: Command, words: &'a str) -> anyhow::Result<Written<'a>> {
        let (project, expected) = words
            .split_once(' ')
            .ok_or_else(|| anyhow!("a project without what it comes to"))?;
        Ok(Written {
            command,
            project,
            expected,
        })
    }

    /// Whether the command writes what the file has.
    pub fn agrees<R: Files + Alloc<A = Global>>(&self, rt: &R) -> anyhow::Result<bool> {
        let alloc = rt.alloc();
        let expected = fs::read(rt, self.expected)?;
        let mut project = shelved(rt, self.project)?;
        match self.command {
            Command::Build => Ok(is_built(alloc, false, &mut project, expected.as_slice())),
            Command::Short => Ok(is_built(alloc, true, &mut project, expected.as_slice())),
            Command::List => match listing_of_source(
                alloc,
                false,
                &project.top,
                &mut project.shelf,
            ) {
                Ok(text) => Ok(text == expected),
                Err(_) => Ok(false),
            },
        }
    }
}

impl<'a> Unbuilt<'a> {
    /// The project of a case's words.
    pub fn of_words(words: &'a str) -> anyhow::Result<Unbuilt<'a>> {
        let (project, line) = words
            .split_once(' ')
            .ok_or_else(|| anyhow!("a project without a line"))?;
        Ok(Unbuilt { project, line })
    }

    /// Whether the line that tells why it isn't built is this one.
    pub fn agrees<R: Files + Alloc<A = Global>>(&self, rt: &R) -> anyhow::Result<bool> {
        let alloc = rt.alloc();
        let mut project = shelved(rt, self.project)?;
        match image_of_source(alloc, false, &project.top, &mut project.shelf) {
            Ok(_) => Ok(false),
            Err(stop) => {
                let mut faults = MemSink::new(alloc, LINE_BYTES)?;
                stop.tell(&mut faults);
                let expected = format!(in alloc; "prop: {}\n", self.line)?;
                Ok(faults.bytes() == expected.as_bytes())
            }
        }
    }
}
