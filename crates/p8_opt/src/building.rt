// Building a project with short code.
ghost use Rattle.std.specs.Prelude.{◌≤◌, ◌<◌, length, map, IfOk, IfErr};
ghost use Rattle.p8_tree.specs.Views.{named_sources_of, named_source_of};
ghost use Rattle.p8_tree.specs.Projects.{most_files};
ghost use Rattle.p8_names.specs.Mentions.{AreDistinct, HaveMentioned, HaveNoRing};
ghost use Rattle.p8_build.specs.Accepted.{IsAccepted};
ghost use Rattle.p8_build.specs.Parts.{AreProper};
ghost use Rattle.p8_build.specs.Told.{IsRefusal};
ghost use Rattle.p8_opt.specs.Shorts.{IsShortBuiltTo, IsShortImageBuilt};
ghost use Rattle.p8_opt.specs.Shorter.{HasNoLongerMethods, KeepsSource};
ghost use Rattle.p8_opt.specs.Shortening.{IsShortened};

use crate::built_laws::built_short_images_keep_meaning;
use crate::objects::{codes_of_all, objects_with};
use p8_build::{Accepted, BuildFault, Built, accept, finish};
use p8_image::Image;
use p8_stmt::MethodCode;
use p8_tree::{List, Project, ProjectFile};
use p8_words::{Fail, NoMemory};
use std::alloc::Global;

/// Builds a project with shorter code of the same meaning to its image and the objects of which the image is made.
///
/// Each method is folded, and of its jumps the least set has two bytes for the offset. Texts of what is dropped stay.
/// The conditions, the errors and when each comes are those of [`build_parts`](p8_build::build_parts): a project must be
/// accepted as it stands. It takes time in proportion to the project, but for the rounds in which jumps get their
/// second byte: at most one more than a method has jumps, and few where it isn't made for that.
pub fn build_short_parts(alloc: Global, project: &Project) -> Result<Built, BuildFault>
    requires first { 0 < length (named_sources_of project.now) }
    requires few { length (named_sources_of project.now) ≤ most_files }
    requires mentioned { HaveMentioned (named_sources_of project.now) }
    requires no_ring { HaveNoRing (named_sources_of project.now) }
    requires proper { AreProper (named_sources_of project.now) }
    ensures built { IfOk result (IsShortBuiltTo (named_sources_of project.now)) }
    ensures refused { IfErr result (IsRefusal (named_sources_of project.now)) }
{
    let accepted = accept(alloc, project)?;
    let Shortened { codes, built } = shorten(alloc, project.files.as_slice(), &accepted)?;
    drop(codes);
    Ok(built)
}

/// Builds a project to its image with shorter code alone, under the same conditions and with the same errors as
/// [`build_short_parts`].
///
/// No method of it is longer than in the image that [`build`](p8_build::build) makes. And the image keeps the meaning of the project's source as it
/// stands, where the files have names of their own.
pub fn build_short(alloc: Global, project: &Project) -> Result<Image, BuildFault>
    requires first { 0 < length (named_sources_of project.now) }
    requires few { length (named_sources_of project.now) ≤ most_files }
    requires mentioned { HaveMentioned (named_sources_of project.now) }
    requires no_ring { HaveNoRing (named_sources_of project.now) }
    requires proper { AreProper (named_sources_of project.now) }
    ensures built { IfOk result (IsShortImageBuilt (named_sources_of project.now)) }
    ensures no_longer { IfOk result (HasNoLongerMethods (named_sources_of project.now)) }
    ensures keeps { AreDistinct (named_sources_of project.now) → IfOk result (KeepsSource (named_sources_of project.now)) }
    ensures refused { IfErr result (IsRefusal (named_sources_of project.now)) }
{
    built_short_images_keep_meaning();
    let Built { image, objects } = build_short_parts(alloc, project)?;
    drop(objects);
    Ok(image)
}

/// What an accepted project comes to with short code.
#[derive(Drop)]
pub struct Shortened {
    /// The codes of the methods of each file, in the order of the files.
    pub codes: List<List<MethodCode>>,
    /// What the project is built to with them.
    pub built: Built,
}

/// What an accepted project, of these files, comes to with short code. The only error is want of memory.
pub fn shorten(
    alloc: Global,
    files: &[ProjectFile],
    accepted: &Accepted<'_>,
) -> Result<Shortened, NoMemory>
    requires some { 0 < length files.now }
    requires few { length files.now ≤ most_files }
    requires proper { AreProper (map named_source_of files.now) }
    requires accepted { IsAccepted (map named_source_of files.now) accepted.now }
    ensures built { IfOk result (λ short. IsShortBuiltTo (map named_source_of files.now) short.built) }
    ensures codes { IfOk result (IsShortened (map named_source_of files.now) accepted.now) }
{
    let all = accepted.files.as_slice();
    let codes = codes_of_all(alloc, all)?;
    let objects = objects_with(alloc, files, all, codes.as_slice())?;
    match finish(alloc, &all[0].kinds, objects) {
        Ok(built) => Ok(Shortened { codes, built }),
        Err(Fail::NoMemory) => Err(NoMemory),
        Err(Fail::Refused(_)) => unreachable!(),
    }
}
