// Commands with what is expected of them, and the files that they read.
use crate::holding::Hold;
use anyhow::anyhow;
use p8_io::MemShelf;
use std::alloc::Global;
use std::fs::{self, Files};

/// A command, with the file that has what it must write.
#[derive(Drop)]
pub struct Case {
    /// Its words.
    pub words: Vec<String>,
    /// The words by which one thread alone is to carry it out.
    pub alone: Vec<String>,
    /// What it must write.
    pub text: Vec<u8>,
}

/// The words of a line, with a blank between two of them.
fn words_in(alloc: Global, line: &str) -> anyhow::Result<Vec<String>> {
    let mut words = Vec::new(alloc);
    for word in line.split(' ') {
        words.push(String::from_str(alloc, word)?)?;
    }
    Ok(words)
}

impl Case {
    /// The case of a line `FILE WORD..`: the file with what must be written, and the words of the command, without `--alone`.
    ///
    /// # Errors
    ///
    /// A line without words, a file that can't be read, and want of memory.
    pub fn of_line<R: Files + Alloc<A = Global>>(rt: &R, line: &str) -> anyhow::Result<Case> {
        let alloc = rt.alloc();
        let (file, words) = line
            .split_once(' ')
            .ok_or_else(|| anyhow!("a case without words"))?;
        Ok(Case {
            words: words_in(alloc, words)?,
            alone: words_in(alloc, &format!(in alloc; "{words} --alone")?)?,
            text: fs::read(rt, file)?,
        })
    }
}

/// A command whose crew has one worker that is held back.
#[derive(Drop)]
pub struct HeldCase {
    pub hold: Hold,
    pub case: Case,
}

impl HeldCase {
    /// The case of a line `COG CLOCK BEFORE: FILE WORD..`: the worker that is held back, and the command.
    fn of_line<R: Files + Alloc<A = Global>>(rt: &R, line: &str) -> anyhow::Result<HeldCase> {
        let (hold, case) = line
            .split_once(": ")
            .ok_or_else(|| anyhow!("a case without a hold"))?;
        Ok(HeldCase {
            hold: Hold::of_line(hold)?,
            case: Case::of_line(rt, case)?,
        })
    }
}

/// The cases of a file, which has a line for each, with the workers that are held back.
///
/// # Errors
///
/// As for a line, and a file that can't be read.
pub fn held_cases_in<R: Files + Alloc<A = Global>>(
    rt: &R,
    file: &str,
) -> anyhow::Result<Vec<HeldCase>> {
    let mut cases = Vec::new(rt.alloc());
    for line in fs::read_to_string(rt, file)?.lines() {
        cases.push(HeldCase::of_line(rt, line)?)?;
    }
    Ok(cases)
}

/// The cases of a file, which has a line for each.
///
/// # Errors
///
/// As for a line, and a file that can't be read.
pub fn cases_in<R: Files + Alloc<A = Global>>(rt: &R, file: &str) -> anyhow::Result<Vec<Case>> {
    let mut cases = Vec::new(rt.alloc());
    for line in fs::read_to_string(rt, file)?.lines() {
        cases.push(Case::of_line(rt, line)?)?;
    }
    Ok(cases)
}

/// The shelf of the files that all commands read, whose names `shelf.txt` has in a line each.
///
/// # Errors
///
/// A file that can't be read, and want of memory.
pub fn shelf<R: Files + Alloc<A = Global>>(rt: &R) -> anyhow::Result<MemShelf> {
    let mut shelf = MemShelf::new(rt.alloc());
    for name in fs::read_to_string(rt, "shelf.txt")?.lines() {
        shelf.add(name, &fs::read(rt, name)?)?;
    }
    Ok(shelf)
}
