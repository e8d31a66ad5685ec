// The legend of a project.
ghost use Rattle.std.specs.Prelude.{◌≡◌, ◌≤◌, ◌<◌, length, map, IfOk, IfErr};
ghost use Rattle.p8_tree.specs.Views.{named_sources_of, named_source_of};
ghost use Rattle.p8_tree.specs.Projects.{most_files};
ghost use Rattle.p8_names.specs.Mentions.{HaveMentioned, HaveNoRing};
ghost use Rattle.p8_build.specs.Accepted.{IsAccepted};
ghost use Rattle.p8_build.specs.Parts.{AreProper};
ghost use Rattle.p8_build.specs.Told.{IsRefusal};
ghost use Rattle.p8_legend.specs.Projects.{IsLegendOf};

use crate::legend::Legend;
use crate::parts::legend_of_parts;
use crate::project::table_of_accepted;
use p8_build::{Accepted, BuildFault, accept};
use p8_map::{names_of_accepted, variables_at};
use p8_tree::{Project, ProjectFile, Text};
use p8_words::NoMemory;
use std::alloc::Global;

/// The legend of a project: the names of what stands in the image that [`build`](p8_build::build) makes of it, and of each bytecode its place and
/// what it names in the frame of its method, as [`legend_of_parts`] tells them, with each name as its file spells it where it is defined.
/// `sources` are the bytes of the project's files, in their order.
///
/// The conditions, the errors and when each comes are those of [`build_parts`](p8_build::build_parts): a project has a legend exactly where
/// it is built to an image. Beside the building it takes time in proportion to the project and to the names of its instances.
pub fn project_legend(
    alloc: Global,
    project: &Project,
    sources: &[Text],
) -> Result<Legend, BuildFault>
    requires beside { length sources.now ≡ length (named_sources_of project.now) }
    requires first { 0 < length (named_sources_of project.now) }
    requires few { length (named_sources_of project.now) ≤ most_files }
    requires mentioned { HaveMentioned (named_sources_of project.now) }
    requires no_ring { HaveNoRing (named_sources_of project.now) }
    requires proper { AreProper (named_sources_of project.now) }
    ensures legend { IfOk result (IsLegendOf sources.now (named_sources_of project.now)) }
    ensures refused { IfErr result (IsRefusal (named_sources_of project.now)) }
{
    let accepted = accept(alloc, project)?;
    Ok(legend_of_accepted(alloc, project.files.as_slice(), sources, &accepted)?)
}

/// The legend of an accepted project, whose files have these bytes. The only error is want of memory.
pub fn legend_of_accepted(
    alloc: Global,
    files: &[ProjectFile],
    sources: &[Text],
    accepted: &Accepted<'_>,
) -> Result<Legend, NoMemory>
    requires beside { length sources.now ≡ length files.now }
    requires accepted { IsAccepted (map named_source_of files.now) accepted.now }
    ensures { IfOk result (IsLegendOf sources.now (map named_source_of files.now)) }
{
    let names = names_of_accepted(alloc, files, sources, accepted)?;
    let table = table_of_accepted(alloc, accepted)?;
    let built = &accepted.built;
    let image = built.image.bytes();
    legend_of_parts(
        alloc,
        image,
        variables_at(image),
        names.as_slice(),
        built.objects.as_slice(),
        accepted.files.as_slice(),
        &table,
    )
}
