// Sources and what reading them answers.
use anyhow::anyhow;
use p8_blocks::parse;
use p8_lexer::lex;
use p8_words::{Fail, NoMemory};
use std::alloc::Global;
use std::fs::{self, Files};

/// A source, and what reading it answers: `ok`, or the number of its first refusal and where it stands, as `6 3:8`.
#[derive(Clone, Copy)]
pub struct Source<'a> {
    file: &'a str,
    verdict: &'a str,
}

/// What reading a source answers, as a case spells it.
fn verdict_of(alloc: Global, bytes: &[u8]) -> Result<String, NoMemory> {
    let fault = match lex(alloc, bytes) {
        Ok(tokens) => match parse(alloc, bytes, &tokens) {
            Ok(_) => return Ok(String::from_str(alloc, "ok")?),
            Err(Fail::Refused(fault)) => (fault.number, fault.place.line, fault.place.column),
            Err(Fail::NoMemory) => return Err(NoMemory),
        },
        Err(Fail::Refused(fault)) => (fault.number, fault.place.line, fault.place.column),
        Err(Fail::NoMemory) => return Err(NoMemory),
    };
    let (number, line, column) = fault;
    Ok(format!(in alloc; "{number} {line}:{column}")?)
}

impl<'a> Source<'a> {
    /// The source of a case's words.
    pub fn of_words(words: &'a str) -> anyhow::Result<Source<'a>> {
        let (file, verdict) = words
            .split_once(' ')
            .ok_or_else(|| anyhow!("a source without a verdict"))?;
        Ok(Source { file, verdict })
    }

    /// Whether reading the source answers so.
    pub fn agrees<R: Files + Alloc<A = Global>>(&self, rt: &R) -> anyhow::Result<bool> {
        let bytes = fs::read(rt, self.file)?;
        let verdict = verdict_of(rt.alloc(), &bytes)?;
        Ok(verdict.as_str() == self.verdict)
    }
}
