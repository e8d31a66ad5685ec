// The hints of a project.
ghost use Rattle.std.specs.Prelude.{◌≡◌, ◌≤◌, ◌<◌, length, map, IfOk, IfErr};
ghost use Rattle.p8_tree.specs.Views.{named_sources_of, named_source_of};
ghost use Rattle.p8_tree.specs.Projects.{most_files};
ghost use Rattle.p8_names.specs.Mentions.{HaveMentioned, HaveNoRing};
ghost use Rattle.p8_build.specs.Accepted.{IsAccepted};
ghost use Rattle.p8_build.specs.Parts.{AreProper};
ghost use Rattle.p8_build.specs.Told.{IsRefusal};
ghost use Rattle.p8_hint.specs.Projects.{IsHintsOf};

use crate::accepted::texts_of_accepted;
use crate::hint_text::whole_text;
use p8_build::{Accepted, BuildFault, accept};
use p8_tree::{Project, ProjectFile, Text};
use p8_words::NoMemory;
use std::alloc::Global;

/// The hints of a project: what of it is accepted and is most likely a slip of the pen, file by file and in the order of the source, each with
/// its place and the name of its rule, the source's line with a mark, and a sentence; `nothing to hint at` where there is none.
/// `sources` are the bytes of the project's files, in their order.
///
/// The conditions, the errors and when each comes are those of [`build_parts`](p8_build::build_parts): a project has hints exactly where
/// it is built to an image. Beside the building it takes time in proportion to the project and to the text, but for look-ups of names,
/// which take the logarithm of their number.
pub fn project_hints(
    alloc: Global,
    project: &Project,
    sources: &[Text],
) -> Result<Vec<u8>, BuildFault>
    requires beside { length sources.now ≡ length (named_sources_of project.now) }
    requires first { 0 < length (named_sources_of project.now) }
    requires few { length (named_sources_of project.now) ≤ most_files }
    requires mentioned { HaveMentioned (named_sources_of project.now) }
    requires no_ring { HaveNoRing (named_sources_of project.now) }
    requires proper { AreProper (named_sources_of project.now) }
    ensures told { IfOk result (λ text. IsHintsOf sources.now (named_sources_of project.now) text.items) }
    ensures refused { IfErr result (IsRefusal (named_sources_of project.now)) }
{
    let accepted = accept(alloc, project)?;
    Ok(hints_of_accepted(alloc, project.files.as_slice(), sources, &accepted)?)
}

/// The hints of an accepted project, as [`project_hints`] tells them. The only error is want of memory.
pub fn hints_of_accepted(
    alloc: Global,
    files: &[ProjectFile],
    sources: &[Text],
    accepted: &Accepted<'_>,
) -> Result<Vec<u8>, NoMemory>
    requires beside { length sources.now ≡ length files.now }
    requires accepted { IsAccepted (map named_source_of files.now) accepted.now }
    ensures { IfOk result (λ text. IsHintsOf sources.now (map named_source_of files.now) text.items) }
{
    let texts = texts_of_accepted(alloc, files, sources, accepted)?;
    whole_text(alloc, texts.as_slice())
}
