// The law of the names of locals that a legend tells. The function holds no code of its own: its contract is the law.
ghost use Rattle.std.specs.Prelude.{◌≡◌, ◌<◌, ℕ, List, length};
ghost use Rattle.p8_tree.specs.Projects.{NamedSource};
ghost use Rattle.p8_names.specs.Mentions.{AreDistinct, HaveMentioned, HaveNoRing};
ghost use Rattle.p8_access.specs.declared.order.Turn.{Turn};
ghost use Rattle.p8_access.specs.Worlds.{World};
ghost use Rattle.p8_access.specs.Histories.{Legal};
ghost use Rattle.p8_cog.specs.Lives.{asks};
ghost use Rattle.p8_image.specs.Headers.{header_of};
ghost use Rattle.p8_image.specs.Loading.{ImageValue, memory_of, start_of};
ghost use Rattle.p8_build.specs.Parts.{AreProper};
ghost use Rattle.p8_build.specs.Told.{IsImageBuilt};
ghost use Rattle.p8_map.specs.Projects.{names_of};
ghost use Rattle.p8_opt.specs.Programs.{program_of, addresses_of};
ghost use Rattle.p8_legend.specs.declared.legend.Legend.{Legend};
ghost use Rattle.p8_legend.specs.declared.table.LineTable.{LineTable};
ghost use Rattle.p8_legend.specs.Projects.{IsLegendOf};
ghost use Rattle.p8_legend.specs.Rows.{IsLineTable};
ghost use Rattle.p8_legend.specs.Framing.{LocalsAreNamed};

use crate::row_laws::turns_are_asked_for_the_statements_of_their_rows;
use crate::table_laws::table_tells_each_address_once;
use p8_build::one_build;
use p8_image::image_loads;
use p8_names::one_for_each_project;

/// Law: in the history of a world that begins with the image of a project, where the project's legend tells a name of the bytecode that asks a turn
/// of Spin ([`Legend::local`](crate::Legend::local)), the turn reads or writes what has this name in the frame of the method that runs: its result, a
/// parameter or a local, of the method whose code the bytecode stands in, as far behind the begin of the frame as the map of the project tells it. Or
/// the turn is a halt, as of a read of ROM.
///
/// The files are those of a project with the top file first, each one read, under names of their own, and the file of each object among them, and none
/// leads back to itself through its objects. `names_of` are their names, as they spell them.
pub fn locals_are_named_by_their_frames()
    ensures { (sources : List (List ℕ)) → (files : List NamedSource) → AreProper files → 0 < length files → AreDistinct files → HaveMentioned files →
        HaveNoRing files → (image : ImageValue) → (is : IsImageBuilt files image) → (legend : Legend) → (of : IsLegendOf sources files legend) →
        (table : LineTable) → IsLineTable files table → (w : World) → w.memory ≡ memory_of image.file → w.first ≡ start_of (header_of image.file) →
        (history : List Turn) → Legal asks w history → LocalsAreNamed (names_of sources files of.children of.compiled)
        (program_of files is.0.built.children is.0.built.compiled) (addresses_of files is.0.built.compiled is.0.objects) table.rows legend.locals w history }
{
    one_for_each_project();
    one_build();
    image_loads();
    table_tells_each_address_once();
    turns_are_asked_for_the_statements_of_their_rows();
}
