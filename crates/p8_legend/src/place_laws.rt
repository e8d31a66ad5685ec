// Laws of the places that a legend tells. The functions hold no code of their own: their contracts are the laws.
ghost use Rattle.std.specs.Prelude.{◌≡◌, ◌<◌, ℕ, List, length};
ghost use Rattle.p8_tree.specs.Projects.{NamedSource};
ghost use Rattle.p8_names.specs.Mentions.{AreDistinct, HaveMentioned, HaveNoRing};
ghost use Rattle.p8_access.specs.declared.order.Turn.{Turn};
ghost use Rattle.p8_access.specs.Worlds.{World};
ghost use Rattle.p8_access.specs.Histories.{Legal};
ghost use Rattle.p8_cog.specs.Lives.{asks};
ghost use Rattle.p8_image.specs.Headers.{header_of};
ghost use Rattle.p8_image.specs.Loading.{ImageValue, memory_of, start_of};
ghost use Rattle.p8_build.specs.Parts.{AreProper};
ghost use Rattle.p8_build.specs.Told.{IsImageBuilt};
ghost use Rattle.p8_opt.specs.Programs.{program_of, addresses_of};
ghost use Rattle.p8_legend.specs.declared.legend.Legend.{Legend};
ghost use Rattle.p8_legend.specs.declared.table.LineTable.{LineTable};
ghost use Rattle.p8_legend.specs.Projects.{IsLegendOf};
ghost use Rattle.p8_legend.specs.Rows.{IsLineTable};
ghost use Rattle.p8_legend.specs.Telling.{TellsRows, TurnsAreTold};

use crate::row_laws::turns_are_asked_for_the_statements_of_their_rows;
use crate::table_laws::{rows_are_of_their_methods, table_tells_each_address_once};
use p8_names::one_for_each_project;

/// Law: the legend of a project tells of each address the place of the row of its line table that holds the address, and of an address that no row
/// holds none. So no row is left out.
///
/// The place is `FILE:LINE METHOD`: the row's file and line, and its method's name as the file spells it where it is defined. Each byte of a method's code has
/// a row ([`each_byte_of_code_has_a_row`](crate::each_byte_of_code_has_a_row)).
pub fn places_are_those_of_rows()
    ensures { (sources : List (List ℕ)) → (files : List NamedSource) → length sources ≡ length files → AreDistinct files → HaveNoRing files →
        (legend : Legend) → IsLegendOf sources files legend → (table : LineTable) → IsLineTable files table → TellsRows sources files table.rows legend.places }
{
    one_for_each_project();
    table_tells_each_address_once();
    rows_are_of_their_methods();
}

/// Law: in the history of a world that begins with the image of a project, each turn of a cog that runs Spin, if a bytecode asks it, is asked from an address
/// of which the project's legend tells the place of the statement for which the source asks it: its file, its line and its method.
///
/// The files are those of a project with the top file first, each one read, under names of their own, and the file of each object among them, and none
/// leads back to itself through its objects. Only the write with which Spin enters its first method is asked by no bytecode.
pub fn turns_have_the_places_of_their_statements()
    ensures { (sources : List (List ℕ)) → (files : List NamedSource) → length sources ≡ length files → AreProper files → 0 < length files →
        AreDistinct files → HaveMentioned files → HaveNoRing files → (image : ImageValue) → (is : IsImageBuilt files image) → (legend : Legend) →
        IsLegendOf sources files legend → (w : World) → w.memory ≡ memory_of image.file → w.first ≡ start_of (header_of image.file) →
        (history : List Turn) → Legal asks w history → TurnsAreTold sources files (program_of files is.0.built.children is.0.built.compiled)
        (addresses_of files is.0.built.compiled is.0.objects) legend.places w history }
{
    turns_are_asked_for_the_statements_of_their_rows();
    places_are_those_of_rows();
}
