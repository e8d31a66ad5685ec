// Sources and what becomes of their names.
ghost use Rattle.std.specs.Prelude.{IfOk};
ghost use Rattle.p8_tree.specs.Proper.{IsProperFile};
ghost use Rattle.p8_tree.specs.Views.{source_of};

use anyhow::anyhow;
use p8_blocks::{parse, tokens_are_proper};
use p8_kinds::{Children, NameKind, Named};
use p8_lexer::lex;
use p8_names::resolve;
use p8_tree::{Block, ConItem, List, SourceFile, Text};
use p8_words::{Fail, NoMemory};
use std::alloc::{AllocError, Global};
use std::fs::{self, Files};

/// A top file without objects, and what resolving its names answers: `ok` and the constants of `CON` with their values, as
/// `ok WIDTH 00000010`, or the number of the first refusal and where it stands, as `15 3:8`.
#[derive(Clone, Copy)]
pub struct Names<'a> {
    file: &'a str,
    verdict: &'a str,
}

/// The tree of a source that can be read.
pub fn tree_of(alloc: Global, bytes: &[u8]) -> anyhow::Result<SourceFile>
    ensures { IfOk result (λ file. IsProperFile (source_of file)) }
{
    tokens_are_proper();
    let Ok(tokens) = lex(alloc, bytes) else {
        return Err(anyhow!("a source without tokens"));
    };
    match parse(alloc, bytes, &tokens) {
        Ok(file) => Ok(file),
        Err(_) => Err(anyhow!("a source without a tree")),
    }
}

/// Writes a constant with its value.
fn write_constant(out: &mut String, named: &Named, name: &Text) -> Result<(), AllocError> {
    let text = str::from_utf8(name.as_slice()).unwrap_or("?");
    match named.kinds.own(0, name) {
        Some(NameKind::Const(value)) => write!(out, " {text} {value:08X}"),
        _ => write!(out, " {text} ?"),
    }
}

fn write_item(out: &mut String, named: &Named, item: &ConItem) -> Result<(), AllocError> {
    match &item.name {
        Some(name) => write_constant(out, named, name),
        None => Ok(()),
    }
}

/// Writes the constants of a file.
fn write_named(out: &mut String, named: &Named) -> Result<(), AllocError> {
    out.push_str("ok")?;
    for block in named.file.blocks.as_slice() {
        if let Block::Con(items) = block {
            for item in items.as_slice() {
                write_item(out, named, item)?;
            }
        }
    }
    Ok(())
}

/// What resolving the names of a file answers, as a case spells it.
fn verdict_of(alloc: Global, file: &SourceFile, children: &Children) -> Result<String, NoMemory>
    requires { IsProperFile (source_of file.now) }
{
    let mut out = String::new(alloc);
    match resolve(alloc, file, children, true) {
        Ok(named) => write_named(&mut out, &named)?,
        Err(Fail::Refused(fault)) => {
            let place = fault.place;
            write!(out, "{} {}:{}", fault.number, place.line, place.column)?;
        }
        Err(Fail::NoMemory) => return Err(NoMemory),
    }
    Ok(out)
}

impl<'a> Names<'a> {
    /// The source of a case's words.
    pub fn of_words(words: &'a str) -> anyhow::Result<Names<'a>> {
        let (file, verdict) = words
            .split_once(' ')
            .ok_or_else(|| anyhow!("a source without a verdict"))?;
        Ok(Names { file, verdict })
    }

    /// Whether resolving the source answers so.
    pub fn agrees<R: Files + Alloc<A = Global>>(&self, rt: &R) -> anyhow::Result<bool> {
        let bytes = fs::read(rt, self.file)?;
        let children = Children {
            items: List::new(rt.alloc()),
        };
        let file = tree_of(rt.alloc(), &bytes)?;
        let verdict = verdict_of(rt.alloc(), &file, &children);
        drop(file);
        Ok(verdict?.as_str() == self.verdict)
    }
}
