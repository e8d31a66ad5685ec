// The laws of the places in a view. The functions hold no code of their own: their contracts are the laws.
ghost use Rattle.std.specs.Prelude.{◌≡◌, ◌<◌, ℕ, List, Option, length, reverse};
ghost use Rattle.p8_tree.specs.Projects.{NamedSource};
ghost use Rattle.p8_names.specs.Mentions.{AreDistinct, HaveMentioned, HaveNoRing};
ghost use Rattle.p8_access.specs.declared.order.Turn.{Turn};
ghost use Rattle.p8_access.specs.Worlds.{World};
ghost use Rattle.p8_access.specs.Histories.{Legal};
ghost use Rattle.p8_cog.specs.Lives.{asks};
ghost use Rattle.p8_machine.specs.Counted.{AreCounters};
ghost use Rattle.p8_image.specs.Headers.{header_of};
ghost use Rattle.p8_image.specs.Loading.{ImageValue, memory_of, start_of};
ghost use Rattle.p8_build.specs.Parts.{AreProper};
ghost use Rattle.p8_build.specs.Told.{IsImageBuilt};
ghost use Rattle.p8_opt.specs.Programs.{program_of, addresses_of};
ghost use Rattle.p8_legend.specs.declared.legend.Legend.{Legend};
ghost use Rattle.p8_legend.specs.Projects.{IsLegendOf};
ghost use Rattle.p8_view.specs.Places.{LinesShowLines, LinesShowPlaces};

use p8_legend::{addresses_of_dat_have_their_lines, turns_have_the_places_of_their_statements};

/// Law: in the view of a run of a project's image, the line of each turn that a bytecode of Spin asks ends with the place of the statement for which the source
/// asks it, `FILE:LINE METHOD`. The line of a turn without a counter shows no place: the turn with which a cog begins, the write with which Spin enters its
/// first method, the reads with which PASM is loaded, and what an instruction asks that isn't the image's where it was loaded from.
///
/// The files are those of a project with the top file first, each one read, under names of their own, and the file of each object among them, and none leads
/// back to itself through its objects. The counters are those of the turns, as [`view`](crate::view) takes them.
pub fn lines_show_the_places_of_their_statements()
    ensures { (sources : List (List ℕ)) → (files : List NamedSource) → length sources ≡ length files → AreProper files → 0 < length files →
        AreDistinct files → HaveMentioned files → HaveNoRing files → (image : ImageValue) → (is : IsImageBuilt files image) → (legend : Legend) →
        IsLegendOf sources files legend → (w : World) → w.memory ≡ memory_of image.file → w.first ≡ start_of (header_of image.file) →
        (history : List Turn) → Legal asks w history → (counters : List (Option ℕ)) → AreCounters w history (reverse counters) →
        LinesShowPlaces sources files (program_of files is.0.built.children is.0.built.compiled)
        (addresses_of files is.0.built.compiled is.0.objects) legend w counters history }
{
    turns_have_the_places_of_their_statements();
}

/// Law: in the view of a run, the line of each turn that an instruction of PASM asks ends with the line of DAT, `FILE:LINE`, that has in the project's image the
/// address from which the long was loaded that the cog executes.
///
/// What a counter is tells which long that is: the one that stands at the cog's program counter, in one of the registers that it loads, and the one with which
/// the run begins at that address. So no line is shown for an instruction that the program has changed or made.
pub fn lines_show_the_lines_of_dat()
    ensures { (sources : List (List ℕ)) → (files : List NamedSource) → length sources ≡ length files → AreProper files → (legend : Legend) →
        (is : IsLegendOf sources files legend) → (w : World) → (history : List Turn) → (counters : List (Option ℕ)) →
        AreCounters w history (reverse counters) → LinesShowLines files is.children is.compiled legend w counters history }
{
    addresses_of_dat_have_their_lines();
}
