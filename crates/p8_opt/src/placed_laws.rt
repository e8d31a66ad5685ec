// Laws of the images of projects. The functions hold no code of their own: their contracts are the laws.
ghost use Rattle.std.specs.Prelude.{◌≡◌, ◌<◌, ℕ, length, List};
ghost use Rattle.p8_tree.specs.Projects.{NamedSource};
ghost use Rattle.p8_tree.specs.Sources.{Source};
ghost use Rattle.p8_kinds.specs.declared.children.Children.{Children};
ghost use Rattle.p8_names.specs.Mentions.{AreDistinct, HaveMentioned, HaveNoRing};
ghost use Rattle.p8_names.specs.Children.{AreChildren};
ghost use Rattle.p8_access.specs.Worlds.{World};
ghost use Rattle.p8_image.specs.declared.clocks.Clock.{Clock as ClockOf};
ghost use Rattle.p8_image.specs.Headers.{header_of};
ghost use Rattle.p8_image.specs.Layout.{header_by, image_of};
ghost use Rattle.p8_image.specs.Loading.{memory_of, start_of};
ghost use Rattle.p8_image.specs.Projects.{FitsHub};
ghost use Rattle.p8_build.specs.Parts.{AreProper};
ghost use Rattle.p8_build.specs.Files.{CompiledFile};
ghost use Rattle.p8_build.specs.Builds.{AreCompiled, objects_of};
ghost use Rattle.p8_compiled.specs.Told.{IsWorldOf};
ghost use Rattle.p8_opt.specs.Lines.{lines_of, IsWorldByLines};
ghost use Rattle.p8_opt.specs.Programs.{program_of, with_sources, addresses_of};
ghost use Rattle.p8_opt.specs.Recoding.{AreRecoded};
ghost use Rattle.p8_opt.specs.Meaning.{KeepsMeaning};

use p8_compiled::code_keeps_meaning;
use p8_image::{image_loads, parts_stand};

/// Law: in the memory that such an image starts with each bytecode of a method is made from the statement of its line, by the table of the lines of
/// all codes, each at its address. The files are as below.
pub fn recoded_images_have_their_lines()
    ensures { (files : List NamedSource) → (changed : ℕ → Source) → (children : List Children) → (xs : List CompiledFile) → (clock : ClockOf) →
        AreProper files → 0 < length files → AreDistinct files → HaveMentioned files → HaveNoRing files → AreChildren files children →
        AreRecoded files changed children xs → FitsHub (header_by (objects_of files children xs)) → (w : World) →
        w.memory ≡ memory_of (image_of clock (objects_of files children xs)) →
        w.first ≡ start_of (header_of (image_of clock (objects_of files children xs))) →
        IsWorldByLines (with_sources changed (program_of files children xs)) (addresses_of files xs (objects_of files children xs))
        (lines_of (objects_of files children xs) xs) w }
{
    image_loads();
    parts_stand();
}

/// Law: the memory that the image of an accepted project starts with has the methods of a changed source, where its codes are those of the
/// changed bodies, each with such jumps wide that every offset fits; and what cog 0 starts with is the first method of the top file.
///
/// The files are those of a project with the top file first, each one read, under names of their own, and the file of each object among
/// them, and none leads back to itself through its objects. The changed sources have the same methods but for their bodies. The texts and all
/// addresses are those of the files' own sources.
pub fn recoded_images_have_their_methods()
    ensures { (files : List NamedSource) → (changed : ℕ → Source) → (children : List Children) → (xs : List CompiledFile) → (clock : ClockOf) →
        AreProper files → 0 < length files → AreDistinct files → HaveMentioned files → HaveNoRing files → AreChildren files children →
        AreRecoded files changed children xs → FitsHub (header_by (objects_of files children xs)) → (w : World) →
        w.memory ≡ memory_of (image_of clock (objects_of files children xs)) →
        w.first ≡ start_of (header_of (image_of clock (objects_of files children xs))) →
        IsWorldOf (with_sources changed (program_of files children xs)) (addresses_of files xs (objects_of files children xs)) w }
{
    recoded_images_have_their_lines();
}

/// Law: such an image keeps the meaning of the changed source, whatever runs beside it: of each of its methods, in each frame and each cog. The
/// files are as above.
pub fn recoded_images_keep_meaning()
    ensures { (files : List NamedSource) → (changed : ℕ → Source) → (children : List Children) → (xs : List CompiledFile) → (clock : ClockOf) →
        AreProper files → 0 < length files → AreDistinct files → HaveMentioned files → HaveNoRing files → AreChildren files children →
        AreRecoded files changed children xs → FitsHub (header_by (objects_of files children xs)) →
        KeepsMeaning (memory_of (image_of clock (objects_of files children xs))) (with_sources changed (program_of files children xs))
        (addresses_of files xs (objects_of files children xs)) }
{
    recoded_images_have_their_methods();
    code_keeps_meaning();
}

/// Law: the memory that the image of an accepted project starts with has the methods of its source, and what cog 0 starts with is the first
/// method of its top file.
///
/// The files are those of a project with the top file first, each one read, under names of their own, and the file of each object among
/// them, and none leads back to itself through its objects.
pub fn images_have_their_methods()
    ensures { (files : List NamedSource) → (children : List Children) → (xs : List CompiledFile) → (clock : ClockOf) → AreProper files →
        0 < length files → AreDistinct files → HaveMentioned files → HaveNoRing files → AreChildren files children → AreCompiled files children xs →
        FitsHub (header_by (objects_of files children xs)) → (w : World) → w.memory ≡ memory_of (image_of clock (objects_of files children xs)) →
        w.first ≡ start_of (header_of (image_of clock (objects_of files children xs))) →
        IsWorldOf (program_of files children xs) (addresses_of files xs (objects_of files children xs)) w }
{
    recoded_images_have_their_methods();
}

/// Law: in the memory that the image of an accepted project starts with each bytecode of a method is made from the statement of its line. The files are
/// as above.
pub fn images_have_their_lines()
    ensures { (files : List NamedSource) → (children : List Children) → (xs : List CompiledFile) → (clock : ClockOf) → AreProper files →
        0 < length files → AreDistinct files → HaveMentioned files → HaveNoRing files → AreChildren files children → AreCompiled files children xs →
        FitsHub (header_by (objects_of files children xs)) → (w : World) → w.memory ≡ memory_of (image_of clock (objects_of files children xs)) →
        w.first ≡ start_of (header_of (image_of clock (objects_of files children xs))) →
        IsWorldByLines (program_of files children xs) (addresses_of files xs (objects_of files children xs)) (lines_of (objects_of files children xs) xs) w }
{
    recoded_images_have_their_lines();
}

/// Law: the image of an accepted project keeps the meaning of its source, whatever runs beside it: of each of its methods, in each frame and
/// each cog. The files are as above.
pub fn images_keep_meaning()
    ensures { (files : List NamedSource) → (children : List Children) → (xs : List CompiledFile) → (clock : ClockOf) → AreProper files →
        0 < length files → AreDistinct files → HaveMentioned files → HaveNoRing files → AreChildren files children → AreCompiled files children xs →
        FitsHub (header_by (objects_of files children xs)) →
        KeepsMeaning (memory_of (image_of clock (objects_of files children xs))) (program_of files children xs)
        (addresses_of files xs (objects_of files children xs)) }
{
    images_have_their_methods();
    code_keeps_meaning();
}
