// The map of a project.
ghost use Rattle.std.specs.Prelude.{◌≡◌, IfOk};
ghost use Rattle.p8_map.specs.Map.{map_of};

use crate::header::{push_header, push_memory, variables_at, word_at};
use crate::instances::instances_of;
use crate::names::FileNames;
use crate::objects::push_objects;
use crate::owners::push_owners;
use crate::plan::bases;
use p8_image::ObjectPart;
use p8_words::NoMemory;
use std::alloc::Global;

/// Where an image's header tells the begin of the first frame.
const DBASE: u16 = 10;

/// Where it tells the end of the first frame.
const DCURR: u16 = 14;

/// The map of a project: where everything of it stands in the hub, line by line. `image` are the bytes of its image; `files` are the
/// names of its files and `objects` their objects, both in the order of the files, the top file's first.
///
/// Lines stand in the order of addresses. They tell the fields of the image's header; each object once, with the objects inside it,
/// its labels with their hub address and their address in a cog in longs, its methods with their number, entry and frame, and its
/// texts; each instance that has variables of its own ([`instances_of`]), with these; the stack, and the free memory with its bytes.
/// Addresses are told mod 65,536, which is exact in an image that fits the hub. The only error is want of memory.
pub fn map_text(
    alloc: Global,
    image: &[u8],
    files: &[FileNames],
    objects: &[ObjectPart],
) -> Result<Vec<u8>, NoMemory>
    ensures { IfOk result (λ text. text.items ≡ map_of image.now files.now objects.now) }
{
    let bases = bases(alloc, objects)?;
    let instances = instances_of(alloc, variables_at(image), files, objects)?;
    let mut out = Vec::new(alloc);
    push_header(&mut out, image)?;
    push_objects(&mut out, files, objects)?;
    push_owners(&mut out, files, objects, &bases, instances.as_slice())?;
    push_memory(&mut out, word_at(image, DBASE), word_at(image, DCURR))?;
    Ok(out)
}
