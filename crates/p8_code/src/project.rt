// The code of a project.
ghost use Rattle.std.specs.Prelude.{◌≡◌, ◌≤◌, ◌<◌, ◌++◌, length, map, slice_get, unwrap_or, IfOk, IfErr, OnOk};
ghost use Rattle.p8_tree.specs.Views.{named_sources_of, named_source_of};
ghost use Rattle.p8_tree.specs.Projects.{most_files};
ghost use Rattle.p8_names.specs.Mentions.{HaveMentioned, HaveNoRing};
ghost use Rattle.p8_build.specs.Accepted.{IsAccepted};
ghost use Rattle.p8_build.specs.Parts.{AreProper};
ghost use Rattle.p8_build.specs.Told.{IsRefusal};
ghost use Rattle.p8_code.specs.Listing.{code_of, object_lines};
ghost use Rattle.p8_code.specs.Projects.{IsCodeOf, IsShortCodeOf};
ghost use Rattle.p8_code.specs.Accepting.{code_by, codes_by};

use crate::objects::Object;
use crate::source::lines_of;
use p8_build::{Accepted, AcceptedFile, BuildFault, accept};
use p8_image::{ObjectPart, Offsets};
use p8_map::{FileNames, address_after, names_of_accepted};
use p8_opt::shorten;
use p8_stmt::MethodCode;
use p8_tree::{List, Project, ProjectFile, Text};
use p8_words::NoMemory;
use std::alloc::Global;

/// Where the first object of an image stands: after the image's header.
const FIRST_BASE: u16 = 16;

/// The code of a project for reading: its listing ([`listing`](p8_image::listing)), in which bytecodes have their names and what they name, and longs
/// of DAT their labels, with the lines of the sources between them. `sources` are the bytes of the project's files, in their order.
///
/// The conditions, the errors and when each comes are those of [`build_parts`](p8_build::build_parts): a project has such a text exactly where it is
/// built to an image. Beside the building it takes time in proportion to the project and to the text, but for look-ups of names, which take that of
/// their number.
pub fn project_code(
    alloc: Global,
    project: &Project,
    sources: &[Text],
) -> Result<Vec<u8>, BuildFault>
    requires beside { length sources.now ≡ length (named_sources_of project.now) }
    requires first { 0 < length (named_sources_of project.now) }
    requires few { length (named_sources_of project.now) ≤ most_files }
    requires mentioned { HaveMentioned (named_sources_of project.now) }
    requires no_ring { HaveNoRing (named_sources_of project.now) }
    requires proper { AreProper (named_sources_of project.now) }
    ensures coded { IfOk result (λ text. IsCodeOf sources.now (named_sources_of project.now) text.items) }
    ensures refused { IfErr result (IsRefusal (named_sources_of project.now)) }
{
    let accepted = accept(alloc, project)?;
    Ok(code_of_accepted(alloc, project.files.as_slice(), sources, &accepted)?)
}

/// The code of a project with short code ([`build_short`](p8_opt::build_short)), with the names and the lines of its files as they stand; under the
/// same conditions and with the same errors as [`project_code`].
pub fn project_short_code(
    alloc: Global,
    project: &Project,
    sources: &[Text],
) -> Result<Vec<u8>, BuildFault>
    requires beside { length sources.now ≡ length (named_sources_of project.now) }
    requires first { 0 < length (named_sources_of project.now) }
    requires few { length (named_sources_of project.now) ≤ most_files }
    requires mentioned { HaveMentioned (named_sources_of project.now) }
    requires no_ring { HaveNoRing (named_sources_of project.now) }
    requires proper { AreProper (named_sources_of project.now) }
    ensures coded { IfOk result (λ text. IsShortCodeOf sources.now (named_sources_of project.now) text.items) }
    ensures refused { IfErr result (IsRefusal (named_sources_of project.now)) }
{
    let accepted = accept(alloc, project)?;
    Ok(short_code_of_accepted(alloc, project.files.as_slice(), sources, &accepted)?)
}

/// The code of an accepted project, whose files have these bytes.
fn code_of_accepted(
    alloc: Global,
    files: &[ProjectFile],
    sources: &[Text],
    accepted: &Accepted<'_>,
) -> Result<Vec<u8>, NoMemory>
    requires beside { length sources.now ≡ length files.now }
    requires accepted { IsAccepted (map named_source_of files.now) accepted.now }
    ensures { IfOk result (λ text. IsCodeOf sources.now (map named_source_of files.now) text.items) }
{
    let names = names_of_accepted(alloc, files, sources, accepted)?;
    code_of_parts(
        alloc,
        names.as_slice(),
        accepted.built.objects.as_slice(),
        sources,
        accepted.files.as_slice(),
        &[],
    )
}

/// The code of an accepted project with short code, whose files have these bytes.
fn short_code_of_accepted(
    alloc: Global,
    files: &[ProjectFile],
    sources: &[Text],
    accepted: &Accepted<'_>,
) -> Result<Vec<u8>, NoMemory>
    requires some { 0 < length files.now }
    requires few { length files.now ≤ most_files }
    requires proper { AreProper (map named_source_of files.now) }
    requires beside { length sources.now ≡ length files.now }
    requires accepted { IsAccepted (map named_source_of files.now) accepted.now }
    ensures { IfOk result (λ text. IsShortCodeOf sources.now (map named_source_of files.now) text.items) }
{
    let names = names_of_accepted(alloc, files, sources, accepted)?;
    let short = shorten(alloc, files, accepted)?;
    code_of_parts(
        alloc,
        names.as_slice(),
        short.built.objects.as_slice(),
        sources,
        accepted.files.as_slice(),
        short.codes.as_slice(),
    )
}

/// The codes of the methods of the file of this number: the short ones, or its own where there are none.
fn codes_at<'a>(
    short: &'a [List<MethodCode>],
    index: usize,
    file: &'a AcceptedFile<'_>,
) -> &'a [MethodCode]
    ensures { result.now ≡ unwrap_or (slice_get short.now index) file.now.codes }
{
    match short.get(index) {
        Some(codes) => codes.as_slice(),
        None => file.codes.as_slice(),
    }
}

/// The code of a project by the names of its files, their objects, their bytes, what was worked out of them, and the short codes of each one's methods,
/// where it is told with them.
fn code_of_parts(
    alloc: Global,
    files: &[FileNames],
    objects: &[ObjectPart],
    sources: &[Text],
    accepted: &[AcceptedFile<'_>],
    short: &[List<MethodCode>],
) -> Result<Vec<u8>, NoMemory>
    requires objects { length objects.now ≡ length files.now }
    requires sources { length sources.now ≡ length files.now }
    requires accepted { length accepted.now ≡ length files.now }
    ensures { IfOk result (λ text. text.items ≡ code_of files.now objects.now (codes_by sources.now accepted.now short.now)) }
{
    let mut out = Vec::new(alloc);
    let mut base = FIRST_BASE;
    for (index, own) in files.iter().enumerate() {
        let object = &objects[index];
        let file = &accepted[index];
        let codes = codes_at(short, index, file);
        push_file(
            alloc,
            &mut out,
            base,
            files,
            own,
            object,
            &sources[index],
            file,
            codes,
        )?;
        base = address_after(base, u64::from(Offsets::of(object).size));
    }
    Ok(out)
}

/// Appends the lines of the object of a file, which begins at an address and has these codes of its methods.
fn push_file(
    alloc: Global,
    out: &mut Vec<u8>,
    base: u16,
    files: &[FileNames],
    own: &FileNames,
    part: &ObjectPart,
    bytes: &Text,
    found: &AcceptedFile<'_>,
    codes: &[MethodCode],
) -> Result<(), NoMemory>
    ensures { OnOk result (out.new.items ≡ out.old.items ++ object_lines (λ text. text) files.now base own.now part.now (code_by bytes.now found.now codes.now)) }
{
    let source = lines_of(alloc, bytes.as_slice())?;
    let object = Object {
        files,
        own,
        part,
        source: source.as_slice(),
        lines: found.dat.lines.as_slice(),
        codes,
    };
    object.push(alloc, out, base)
}
