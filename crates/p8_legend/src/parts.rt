// The legend of a project's parts.
ghost use Rattle.std.specs.Prelude.{◌≡◌, [], map, IfOk};
ghost use Rattle.p8_legend.specs.DatLines.{with_dats};
ghost use Rattle.p8_legend.specs.Frames.{with_locals};
ghost use Rattle.p8_legend.specs.ProjectLegends.{names_in, with_rows};

use crate::code_places::places_of;
use crate::dat_lines::dat_lines_of;
use crate::instances::push_instances;
use crate::legend::Legend;
use crate::locals::locals_of;
use crate::objects::names_of;
use crate::table::LineTable;
use p8_build::AcceptedFile;
use p8_image::ObjectPart;
use p8_map::{FileNames, instances_of};
use p8_words::NoMemory;
use std::alloc::Global;

/// The legend of a project's objects: the names of its labels, of its methods' codes and of the variables of each instance of an object,
/// and of each bytecode its place and what it names in the frame of its method.
///
/// `image` are the bytes of the project's image, `files` the names of the project's files, `objects` their objects in the same order, the top
/// file's first, `accepted` what was worked out of each file, and `table` is the project's line table; `variables_at` is where variables begin,
/// the image's vbase. A label names the bytes up to the next one, and the last one those up to the codes; so does a line of DAT. Names that aren't
/// the top file's begin with a path, each name on it with `.` behind it: those of variables with the names of the objects on the way to their
/// instance, as [`instances_of`] tells them; those of labels and methods with the path of the first instance of their object, which is the first
/// one inside the first file of the project that has one. A range that begins before the one before it ends is left out. The only error is want
/// of memory.
pub fn legend_of_parts(
    alloc: Global,
    image: &[u8],
    variables_at: u16,
    files: &[FileNames],
    objects: &[ObjectPart],
    accepted: &[AcceptedFile<'_>],
    table: &LineTable,
) -> Result<Legend, NoMemory>
    ensures names { IfOk result (λ legend. (legend.names.ranges, legend.names.texts) ≡ names_in variables_at files.now objects.now) }
    ensures lines { IfOk result (λ legend. (legend.lines.ranges, legend.lines.texts) ≡
        with_dats ([], []) 16 files.now objects.now (map (λ f. f.dat.lines) accepted.now)) }
    ensures locals { IfOk result (λ legend. (legend.locals.ranges, legend.locals.texts) ≡ with_locals ([], []) image.now files.now table.now.rows) }
    ensures places { IfOk result (λ legend. (legend.places.ranges, legend.places.texts) ≡ with_rows ([], []) files.now table.now.rows) }
{
    let mut names = names_of(alloc, files, objects)?;
    let instances = instances_of(alloc, variables_at, files, objects)?;
    push_instances(alloc, &mut names, files, objects, instances.as_slice())?;
    Ok(Legend {
        names,
        places: places_of(alloc, files, table.rows.as_slice())?,
        lines: dat_lines_of(alloc, files, objects, accepted)?,
        locals: locals_of(alloc, image, files, table.rows.as_slice())?,
    })
}
