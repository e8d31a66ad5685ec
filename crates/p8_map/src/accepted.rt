// The names of the files of an accepted project.
ghost use Rattle.std.specs.Prelude.{◌≡◌, length, map, IfOk};
ghost use Rattle.p8_tree.specs.Views.{named_source_of};
ghost use Rattle.p8_lexer.specs.Spelling.{text_in};
ghost use Rattle.p8_build.specs.Accepted.{IsAccepted, compiled_files};
ghost use Rattle.p8_map.specs.Accepting.{names_by, AreNamesBy};
ghost use Rattle.p8_map.specs.Projects.{names_of};

use crate::names::FileNames;
use p8_build::{Accepted, AcceptedFile};
use p8_lexer::Spellings;
use p8_tree::{List, ProjectFile, Text};
use p8_words::NoMemory;
use std::alloc::Global;

/// The names of the files of an accepted project, in the order of the files, as they spell them. `sources` are the bytes of the files, in their
/// order. The only error is want of memory.
pub fn names_of_accepted(
    alloc: Global,
    files: &[ProjectFile],
    sources: &[Text],
    accepted: &Accepted<'_>,
) -> Result<List<FileNames>, NoMemory>
    requires beside { length sources.now ≡ length files.now }
    requires accepted { IsAccepted (map named_source_of files.now) accepted.now }
    ensures { IfOk result (λ names. names ≡ names_of sources.now (map named_source_of files.now) accepted.now.children (compiled_files accepted.now)) }
{
    names_of_all(alloc, files, sources, accepted.files.as_slice())
}

/// The names of all files, by what was worked out of each.
fn names_of_all(
    alloc: Global,
    files: &[ProjectFile],
    sources: &[Text],
    accepted: &[AcceptedFile<'_>],
) -> Result<List<FileNames>, NoMemory>
    requires sources { length sources.now ≡ length files.now }
    requires accepted { length accepted.now ≡ length files.now }
    ensures { IfOk result (AreNamesBy sources.now (map named_source_of files.now) accepted.now) }
{
    let mut all = List::new(alloc);
    for (index, file) in files.iter().enumerate() {
        let names = names_of_one(alloc, file, &sources[index], &accepted[index])?;
        all.push(names)?;
    }
    Ok(all)
}

/// The names of a file of these bytes.
fn names_of_one(
    alloc: Global,
    file: &ProjectFile,
    bytes: &Text,
    found: &AcceptedFile<'_>,
) -> Result<FileNames, NoMemory>
    ensures { IfOk result (λ names. names ≡ names_by (text_in bytes.now) (named_source_of file.now).name found.now) }
{
    let source = Spellings::of(alloc, bytes.as_slice())?;
    FileNames::of(alloc, file.name.as_slice(), &source, found)
}
