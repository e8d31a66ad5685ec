// The line table of a project.
ghost use Rattle.std.specs.Prelude.{◌≡◌, List as list, IfOk};
ghost use Rattle.p8_tree.specs.Projects.{NamedSource};
ghost use Rattle.p8_build.specs.Accepted.{IsAccepted, compiled_files};
ghost use Rattle.p8_legend.specs.Rows.{IsLineTable, codes_of, rows_from};

use crate::rows::rows_of;
use crate::table::LineTable;
use p8_build::Accepted;
use p8_words::NoMemory;
use std::alloc::Global;

/// The line table of an accepted project: for each bytecode of its image, where it stands in the hub and which statement it is made from.
///
/// Addresses are told mod 65,536, which is exact in an image that fits the hub, as that of an accepted project does. It takes time in proportion to the
/// project. The only error is want of memory.
pub fn table_of_accepted(alloc: Global, accepted: &Accepted<'_>) -> Result<LineTable, NoMemory>
    ensures rows { IfOk result (λ table. table.rows ≡ rows_from 0 16 accepted.now.built.objects (codes_of (compiled_files accepted.now))) }
    ensures table { (files : list NamedSource) → IsAccepted files accepted.now → IfOk result (IsLineTable files) }
{
    let objects = accepted.built.objects.as_slice();
    rows_of(alloc, objects, accepted.files.as_slice())
}
