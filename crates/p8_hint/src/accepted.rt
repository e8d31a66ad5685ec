// The hints of the files of an accepted project.
ghost use Rattle.std.specs.Prelude.{◌≡◌, length, map, IfOk};
ghost use Rattle.p8_tree.specs.Views.{named_source_of};
ghost use Rattle.p8_build.specs.Accepted.{IsAccepted, compiled_files};
ghost use Rattle.p8_hint.specs.Accepting.{AreReady, AreTextsBy, IsReady, text_by};
ghost use Rattle.p8_hint.specs.Hints.{texts_of};

use crate::facts::facts_of_items;
use crate::hint_text::text_of_hints;
use crate::items::hints_in;
use crate::lines::Lines;
use p8_build::{Accepted, AcceptedFile};
use p8_tree::{List, ProjectFile, Text};
use p8_words::NoMemory;
use std::alloc::Global;

/// The text of the hints of each file of an accepted project, in the order of the files. `sources` are the bytes of the files, in
/// their order. The only error is want of memory.
pub(crate) fn texts_of_accepted(
    alloc: Global,
    files: &[ProjectFile],
    sources: &[Text],
    accepted: &Accepted<'_>,
) -> Result<List<Text>, NoMemory>
    requires beside { length sources.now ≡ length files.now }
    requires accepted { IsAccepted (map named_source_of files.now) accepted.now }
    ensures { IfOk result (λ texts. texts ≡ texts_of sources.now (map named_source_of files.now) accepted.now.children (compiled_files accepted.now)) }
{
    texts_of_all(alloc, files, sources, accepted.files.as_slice())
}

// The texts of all files, by what was worked out of each.
fn texts_of_all(
    alloc: Global,
    files: &[ProjectFile],
    sources: &[Text],
    accepted: &[AcceptedFile<'_>],
) -> Result<List<Text>, NoMemory>
    requires sources { length sources.now ≡ length files.now }
    requires accepted { length accepted.now ≡ length files.now }
    requires ready { AreReady accepted.now }
    ensures { IfOk result (AreTextsBy sources.now (map named_source_of files.now) accepted.now) }
{
    let mut all = List::new(alloc);
    for (index, file) in files.iter().enumerate() {
        all.push(text_of_one(alloc, file, &sources[index], &accepted[index])?)?;
    }
    Ok(all)
}

// The text of a file of these bytes.
fn text_of_one(
    alloc: Global,
    file: &ProjectFile,
    bytes: &Text,
    accepted: &AcceptedFile<'_>,
) -> Result<Text, NoMemory>
    requires { IsReady accepted.now }
    ensures { IfOk result (λ text. text ≡ text_by bytes.now (named_source_of file.now) accepted.now) }
{
    let items = accepted.items.as_slice();
    let facts = facts_of_items(
        alloc,
        &accepted.tables.consts,
        items,
        accepted.methods.as_slice(),
        accepted.codes.as_slice(),
    )?;
    let hints = hints_in(alloc, &facts, items)?;
    let lines = Lines::of(alloc, bytes.as_slice())?;
    text_of_hints(alloc, &file.name, &lines, &hints)
}
