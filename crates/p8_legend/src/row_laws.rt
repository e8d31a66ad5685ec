// Laws of the accesses of lives, by the rows of a project's line table. The functions hold no code of their own: their contracts are the laws.
ghost use Rattle.std.specs.Prelude.{◌≡◌, ℕ, ◌<◌, List, length, map};
ghost use Rattle.p8_tree.specs.Projects.{NamedSource};
ghost use Rattle.p8_names.specs.Mentions.{AreDistinct, HaveMentioned, HaveNoRing};
ghost use Rattle.p8_access.specs.declared.order.Turn.{Turn};
ghost use Rattle.p8_access.specs.Lives.{Entered};
ghost use Rattle.p8_access.specs.Replays.{answer_of};
ghost use Rattle.p8_access.specs.Worlds.{World};
ghost use Rattle.p8_access.specs.Histories.{Legal};
ghost use Rattle.p8_cog.specs.Lives.{asks};
ghost use Rattle.p8_bcog.specs.Counters.{IsAskedFrom};
ghost use Rattle.p8_image.specs.Headers.{header_of};
ghost use Rattle.p8_image.specs.Loading.{ImageValue, memory_of, start_of};
ghost use Rattle.p8_build.specs.Parts.{AreProper};
ghost use Rattle.p8_build.specs.Told.{IsImageBuilt};
ghost use Rattle.p8_meaning.specs.Programs.{Target};
ghost use Rattle.p8_meaning.specs.Lives.{IsMethodOrigin, says_for};
ghost use Rattle.p8_opt.specs.Programs.{program_of, addresses_of};
ghost use Rattle.p8_legend.specs.declared.table.LineTable.{LineTable};
ghost use Rattle.p8_legend.specs.Rows.{IsLineTable};
ghost use Rattle.p8_legend.specs.Naming.{NamesStatement, TurnsAreNamed};

use crate::table_laws::table_tells_each_address_once;
use p8_compiled::{accesses_are_asked_for_their_statements, turns_come_after_few_bytecodes};
use p8_names::one_for_each_project;
use p8_opt::images_have_their_lines;

/// Law: where the image of a project runs, each access of a life of Spin is asked from an address whose row in the project's line table names the
/// statement for which the source asks it.
///
/// The files are those of a project with the top file first, each one read, under names of their own, and the file of each object among them, and none
/// leads back to itself through its objects. The life begins with a method of the project, in any frame and any cog, with the memory that the image starts
/// with. After some turns so many bytecodes are done whole, and the one at the address asks next: the row names the statement for which the source asks the
/// access that comes after the answers of those turns, told up to any greater bound.
pub fn accesses_are_asked_for_the_statements_of_their_rows()
    ensures { (files : List NamedSource) → AreProper files → 0 < length files → AreDistinct files → HaveMentioned files → HaveNoRing files →
        (image : ImageValue) → (is : IsImageBuilt files image) → (table : LineTable) → IsLineTable files table → (entered : Entered) →
        entered.memory ≡ memory_of image.file → (target : Target) → (frame : ℕ) →
        IsMethodOrigin (program_of files is.0.built.children is.0.built.compiled)
        (addresses_of files is.0.built.compiled is.0.objects) entered.origin target frame → (turns : List Turn) → (address : ℕ) →
        (asked : IsAskedFrom entered turns address) → (bound : ℕ) → asked.0 < bound →
        NamesStatement table.rows address (says_for (program_of files is.0.built.children is.0.built.compiled)
        (addresses_of files is.0.built.compiled is.0.objects) target frame entered.cog (map answer_of turns) bound) }
{
    one_for_each_project();
    table_tells_each_address_once();
    images_have_their_lines();
    accesses_are_asked_for_their_statements();
}

/// Law: in the history of a world that begins with the image of a project, each turn of a cog that runs Spin, if a bytecode asks it, is asked from an
/// address whose row in the project's line table names the statement for which the source asks it. The files are as above.
///
/// Only the write with which Spin enters its first method is asked by no bytecode.
pub fn turns_are_asked_for_the_statements_of_their_rows()
    ensures { (files : List NamedSource) → AreProper files → 0 < length files → AreDistinct files → HaveMentioned files → HaveNoRing files →
        (image : ImageValue) → (is : IsImageBuilt files image) → (table : LineTable) → IsLineTable files table → (w : World) →
        w.memory ≡ memory_of image.file → w.first ≡ start_of (header_of image.file) → (history : List Turn) → Legal asks w history →
        TurnsAreNamed (program_of files is.0.built.children is.0.built.compiled) (addresses_of files is.0.built.compiled is.0.objects) table.rows w history }
{
    images_have_their_lines();
    turns_come_after_few_bytecodes();
    accesses_are_asked_for_the_statements_of_their_rows();
}
