// Building a project.
ghost use Rattle.std.specs.Prelude.{◌≡◌, ◌≤◌, ◌<◌, length, map, List as list, IfOk, IfErr};
ghost use Rattle.p8_tree.specs.Views.{named_sources_of, named_source_of};
ghost use Rattle.p8_tree.specs.Projects.{NamedSource, most_files};
ghost use Rattle.p8_names.specs.Children.{AreChildren};
ghost use Rattle.p8_names.specs.Mentions.{HaveMentioned, HaveNoRing};
ghost use Rattle.p8_build.specs.Parts.{AreProper};
ghost use Rattle.p8_build.specs.Accepted.{IsAccepted};
ghost use Rattle.p8_build.specs.Told.{IsBuiltTo, IsImageBuilt, IsRefusal};
ghost use Rattle.p8_build.specs.Phases.{IfPhaseRefused, IsFirstAt};

use crate::accepting::{AcceptedFile, accept_files};
use crate::fault::{BuildFault, PhaseRefusal, told};
use crate::finishing::finish_measured;
use crate::objects::objects_of_all;
use p8_image::{Image, ObjectPart};
use p8_kinds::Children;
use p8_names::children_of;
use p8_tree::{List, Project, ProjectFile};
use p8_words::Fail;
use std::alloc::Global;

/// What a project is built to.
#[derive(Drop)]
pub struct Built {
    /// Its image.
    pub image: Image,
    /// What the image is made of: an object for each file, in the order of the files.
    pub objects: List<ObjectPart>,
}

/// Builds a project to its image and the objects of which the image is made.
///
/// The project is one that [`gather`](p8_objects::gather) gives: it has at most 255 files, no two of one name, the file of each
/// mention among them, and no ring of mentions.
///
/// # Errors
///
/// `Source` with the first refusal of the project: by phase, then by file in their order, then by place, then by number. The phases
/// are names and constants (12 to 18 and 20), data (12, 13 and 21 to 24), code (25 to 27), and the image: 28 where the first frame
/// would end after the hub's 32,768 bytes, else 29 where the clock's constants tell none, both at the beginning of the top file.
///
/// `NoMemory` may come at any point. It takes time and memory in proportion to the project and to its data, but for look-ups of
/// names and places, which take the logarithm of their number.
pub fn build_parts(alloc: Global, project: &Project) -> Result<Built, BuildFault>
    requires first { 0 < length (named_sources_of project.now) }
    requires few { length (named_sources_of project.now) ≤ most_files }
    requires mentioned { HaveMentioned (named_sources_of project.now) }
    requires no_ring { HaveNoRing (named_sources_of project.now) }
    requires proper { AreProper (named_sources_of project.now) }
    ensures built { IfOk result (IsBuiltTo (named_sources_of project.now)) }
    ensures refused { IfErr result (IsRefusal (named_sources_of project.now)) }
{
    let accepted = accept(alloc, project)?;
    Ok(accepted.into_built())
}

/// Builds a project to its image alone, under the same conditions and with the same errors as [`build_parts`].
pub fn build(alloc: Global, project: &Project) -> Result<Image, BuildFault>
    requires first { 0 < length (named_sources_of project.now) }
    requires few { length (named_sources_of project.now) ≤ most_files }
    requires mentioned { HaveMentioned (named_sources_of project.now) }
    requires no_ring { HaveNoRing (named_sources_of project.now) }
    requires proper { AreProper (named_sources_of project.now) }
    ensures built { IfOk result (IsImageBuilt (named_sources_of project.now)) }
    ensures refused { IfErr result (IsRefusal (named_sources_of project.now)) }
{
    let accepted = accept(alloc, project)?;
    Ok(accepted.into_image())
}

/// An accepted project: what is worked out of it, once for its image, its listing, its map and its legend.
#[derive(Drop)]
pub struct Accepted<'a> {
    /// What each file sees of its objects, in the order of the files.
    pub children: List<Children>,
    /// What each file comes to, in their order.
    pub files: List<AcceptedFile<'a>>,
    /// What the project is built to.
    pub built: Built,
}

impl Accepted<'_> {
    /// What the project is built to.
    pub fn into_built(self) -> Built
        ensures is { result ≡ self.entry.built }
        ensures built { (sources : list NamedSource) → IsAccepted sources self.entry → IsBuiltTo sources result }
    {
        let Accepted {
            children,
            files,
            built,
        } = self;
        drop(children);
        drop(files);
        built
    }

    /// The project's image.
    pub fn into_image(self) -> Image
        ensures is { result ≡ self.entry.built.image }
        ensures built { (sources : list NamedSource) → IsAccepted sources self.entry → IsImageBuilt sources result }
    {
        let Built { image, objects } = self.into_built();
        drop(objects);
        image
    }
}

/// Works out what a project comes to: of each file its names, its data and the codes of its methods, its objects and its image.
///
/// The conditions, the errors and when each comes are those of [`build_parts`], which is made of this.
pub fn accept<'a>(alloc: Global, project: &'a Project) -> Result<Accepted<'a>, BuildFault>
    requires first { 0 < length (named_sources_of project.now) }
    requires few { length (named_sources_of project.now) ≤ most_files }
    requires mentioned { HaveMentioned (named_sources_of project.now) }
    requires no_ring { HaveNoRing (named_sources_of project.now) }
    requires proper { AreProper (named_sources_of project.now) }
    ensures accepted { IfOk result (IsAccepted (named_sources_of project.now)) }
    ensures refused { IfErr result (IsRefusal (named_sources_of project.now)) }
{
    let files = project.files.as_slice();
    let children = List::from_vec(children_of(alloc, project)?);
    match accept_by(alloc, files, children) {
        Ok(accepted) => Ok(accepted),
        Err(Fail::Refused(refusal)) => Err(told(alloc, &files[refusal.file], refusal)),
        Err(Fail::NoMemory) => Err(BuildFault::NoMemory),
    }
}

/// What files come to by what they see of their objects, or their first refusal.
fn accept_by<'a>(
    alloc: Global,
    files: &'a [ProjectFile],
    children: List<Children>,
) -> Result<Accepted<'a>, Fail<PhaseRefusal>>
    requires first { 0 < length files.now }
    requires few { length files.now ≤ most_files }
    requires proper { AreProper (map named_source_of files.now) }
    requires children { AreChildren (map named_source_of files.now) children }
    ensures accepted { IfOk result (IsAccepted (map named_source_of files.now)) }
    ensures refused { IfErr result (IfPhaseRefused (IsFirstAt (map named_source_of files.now) children)) }
{
    let accepted = accept_files(alloc, files, children.as_slice())?;
    let objects = objects_of_all(alloc, files, accepted.as_slice())?;
    let built = finish_measured(alloc, &accepted.as_slice()[0].kinds, objects)?;
    Ok(Accepted {
        children,
        files: accepted,
        built,
    })
}
