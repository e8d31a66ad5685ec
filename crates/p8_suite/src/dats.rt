// Sources and what their DAT blocks come to.
ghost use Rattle.p8_tree.specs.Proper.{IsProperFile};
ghost use Rattle.p8_tree.specs.Views.{source_of};

use crate::names::tree_of;
use anyhow::anyhow;
use p8_dat::{Dat, DatFault, assemble};
use p8_kinds::{Children, Label};
use p8_names::resolve;
use p8_tree::{List, SourceFile};
use p8_words::{Fail, NoMemory};
use std::alloc::{AllocError, Global};
use std::fs::{self, Files};

/// A top file without objects, the offset of its DAT in its object, and what assembling it answers: `ok`, the bytes in
/// hexadecimal digits, and each label with its offset, its cog address in bytes and its size, as `ok 0300FF WIDTH 9 1 2`, or
/// the number of the first refusal and where it stands, as `22 9:3`.
#[derive(Clone, Copy)]
pub struct DatBlocks<'a> {
    file: &'a str,
    start: u32,
    verdict: &'a str,
}

/// Assembles the DAT of a file.
fn assembled(
    alloc: Global,
    file: &SourceFile,
    children: &Children,
    start: u32,
) -> Result<Dat, Fail<DatFault>>
    requires { IsProperFile (source_of file.now) }
{
    match resolve(alloc, file, children, true) {
        Ok(named) => {
            let dat = assemble(alloc, &named, start);
            drop(named);
            dat
        }
        Err(fail) => Err(fail),
    }
}

/// Writes a label with its place.
fn write_label(out: &mut String, label: &Label) -> Result<(), AllocError> {
    let name = str::from_utf8(label.name.as_slice()).unwrap_or("?");
    write!(out, " {name} {} {} {}", label.offset, label.cog, label.size)
}

/// The bytes and the labels, as a case spells them.
fn text_of(alloc: Global, dat: &Dat) -> Result<String, AllocError> {
    let mut out = String::from_str(alloc, "ok ")?;
    for byte in dat.bytes.as_slice() {
        write!(out, "{byte:02X}")?;
    }
    for label in dat.labels.as_slice() {
        write_label(&mut out, label)?;
    }
    Ok(out)
}

/// What assembling the DAT of a file answers, as a case spells it.
fn verdict_of(alloc: Global, file: &SourceFile, start: u32) -> Result<String, NoMemory>
    requires { IsProperFile (source_of file.now) }
{
    let children = Children {
        items: List::new(alloc),
    };
    match assembled(alloc, file, &children, start) {
        Ok(dat) => {
            let text = text_of(alloc, &dat);
            drop(dat);
            Ok(text?)
        }
        Err(Fail::Refused(fault)) => {
            let (number, place) = (fault.number, fault.place);
            Ok(format!(in alloc; "{number} {}:{}", place.line, place.column)?)
        }
        Err(Fail::NoMemory) => Err(NoMemory),
    }
}

impl<'a> DatBlocks<'a> {
    /// The source of a case's words.
    pub fn of_words(words: &'a str) -> anyhow::Result<DatBlocks<'a>> {
        let (file, rest) = words
            .split_once(' ')
            .ok_or_else(|| anyhow!("a source without a start"))?;
        let (start, verdict) = rest
            .split_once(' ')
            .ok_or_else(|| anyhow!("a source without a verdict"))?;
        Ok(DatBlocks {
            file,
            start: start.parse()?,
            verdict,
        })
    }

    /// Whether assembling the source answers so.
    pub fn agrees<R: Files + Alloc<A = Global>>(&self, rt: &R) -> anyhow::Result<bool> {
        let bytes = fs::read(rt, self.file)?;
        let file = tree_of(rt.alloc(), &bytes)?;
        let verdict = verdict_of(rt.alloc(), &file, self.start);
        drop(file);
        Ok(verdict?.as_str() == self.verdict)
    }
}
