// The line of a case.
use crate::dats::DatBlocks;
use crate::instruction_texts::Printed;
use crate::names::Names;
use crate::projects::{Command, Unbuilt, Written};
use crate::runs::Run;
use crate::sources::Source;
use crate::stops::Stopped;
use crate::trees::Tree;
use anyhow::anyhow;
use p8_inputs::Format;

/// A case: what is run, and what is expected of it.
#[derive(Clone, Copy)]
pub enum Case<'a> {
    /// `source FILE VERDICT`: a source, and what reading it answers.
    Source(Source<'a>),
    /// `tree FILE TEXT`: a source, and the file of the text of its tree.
    Tree(Tree<'a>),
    /// `names FILE VERDICT`: a top file without objects, and what resolving its names answers.
    Names(Names<'a>),
    /// `dat FILE START VERDICT`: a top file without objects, and what assembling its DAT at an offset answers.
    Dat(DatBlocks<'a>),
    /// `run IMAGE TRACE CLOCKS TURNS PINS DUMP`: a file as hub memory, and its trace; `spin` with the same words: an
    /// image of compiled Spin; `made`: a project, whose image runs, with its pin script among its files.
    Run(Run<'a>),
    /// `stops IMAGE PINS LINE`: an image that can't be run, and the line that tells why, without the program's name.
    Stopped(Stopped<'a>),
    /// `build PROJECT IMAGE`: a project of sources, whose files stand in one file, and its image; `short PROJECT IMAGE`: with shorter
    /// code; `list PROJECT LISTING`: its listing.
    Written(Written<'a>),
    /// `refused PROJECT LINE`: a project that isn't built, and the line that tells why, without the program's name.
    Unbuilt(Unbuilt<'a>),
    /// `text LONG TEXT`: a long and its text as an instruction.
    Text(Printed<'a>),
}

impl<'a> Case<'a> {
    /// The case of a line.
    ///
    /// # Errors
    ///
    /// A line that is of no kind, or whose numbers are none or too great.
    pub fn of_line(line: &'a str) -> anyhow::Result<Case<'a>> {
        let (kind, rest) = line
            .split_once(' ')
            .ok_or_else(|| anyhow!("a case without files"))?;
        match kind {
            "source" => Ok(Case::Source(Source::of_words(rest)?)),
            "tree" => Ok(Case::Tree(Tree::of_words(rest)?)),
            "names" => Ok(Case::Names(Names::of_words(rest)?)),
            "dat" => Ok(Case::Dat(DatBlocks::of_words(rest)?)),
            "run" => Ok(Case::Run(Run::of_words(Format::Memory, rest)?)),
            "spin" => Ok(Case::Run(Run::of_words(Format::Image, rest)?)),
            "made" => Ok(Case::Run(Run::of_words(Format::Source { short: false }, rest)?)),
            "build" => Ok(Case::Written(Written::of_words(Command::Build, rest)?)),
            "short" => Ok(Case::Written(Written::of_words(Command::Short, rest)?)),
            "list" => Ok(Case::Written(Written::of_words(Command::List, rest)?)),
            "refused" => Ok(Case::Unbuilt(Unbuilt::of_words(rest)?)),
            "stops" => Ok(Case::Stopped(Stopped::of_words(rest)?)),
            "text" => Ok(Case::Text(Printed::of_words(rest)?)),
            _ => Err(anyhow!("a case of no kind: {kind}")),
        }
    }

    /// The number of what the case is of, below 8.
    pub fn kind(&self) -> usize {
        match self {
            Case::Source(_) => 0,
            Case::Tree(_) => 1,
            Case::Names(_) => 2,
            Case::Dat(_) => 3,
            Case::Run(_) => 4,
            Case::Stopped(_) => 5,
            Case::Written(_) | Case::Unbuilt(_) => 6,
            Case::Text(_) => 7,
        }
    }
}
