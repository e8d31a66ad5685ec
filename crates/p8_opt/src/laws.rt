// Laws of building with short code. The functions hold no code of their own: their contracts are the laws.
ghost use Rattle.std.specs.Prelude.{◌≡◌, ◌<◌, ℕ, length, List};
ghost use Rattle.p8_tree.specs.Projects.{NamedSource};
ghost use Rattle.p8_access.specs.declared.order.Turn.{Turn};
ghost use Rattle.p8_names.specs.Mentions.{AreDistinct, HaveMentioned, HaveNoRing};
ghost use Rattle.p8_access.specs.Worlds.{World};
ghost use Rattle.p8_access.specs.Histories.{Ended};
ghost use Rattle.p8_image.specs.declared.clocks.Clock.{Clock};
ghost use Rattle.p8_image.specs.declared.parts.ObjectPart.{ObjectPart};
ghost use Rattle.p8_image.specs.Headers.{header_of};
ghost use Rattle.p8_image.specs.Layout.{image_of};
ghost use Rattle.p8_image.specs.Loading.{memory_of, start_of};
ghost use Rattle.p8_cog.specs.Lives.{asks};
ghost use Rattle.p8_build.specs.Parts.{AreProper};
ghost use Rattle.p8_compiled.specs.Told.{SpinIsTold};
ghost use Rattle.p8_opt.specs.Programs.{program_of, addresses_of};
ghost use Rattle.p8_opt.specs.Meaning.{KeepsMeaning};
ghost use Rattle.p8_opt.specs.Shorts.{IsShortBuilt};

use crate::placed_laws::{recoded_images_have_their_methods, recoded_images_keep_meaning};
use p8_compiled::lives_are_told;
use p8_meaning::{folded_sources_have_folded_methods, folds_keep_meaning};
use p8_names::one_for_each_project;

/// Law: with short code a project is built to one thing alone.
pub fn one_short_build()
    ensures { (files : List NamedSource) → AreDistinct files → HaveNoRing files → (c d : Clock) → (a b : List ObjectPart) → IsShortBuilt files c a →
        IsShortBuilt files d b → (c ≡ d) × (a ≡ b) }
{
    one_for_each_project();
}

/// Law: the image of an accepted project with short code keeps the meaning of its source as it stands, whatever runs
/// beside it: of each of its methods, in each frame and each cog, at the addresses that this image has.
///
/// The files are those of a project with the top file first, each one read, under names of their own, and the file of
/// each object among them, and none leads back to itself through its objects.
pub fn short_images_keep_meaning()
    ensures { (files : List NamedSource) → (clock : Clock) → (objects : List ObjectPart) → AreProper files → 0 < length files → AreDistinct files →
        HaveMentioned files → HaveNoRing files → (b : IsShortBuilt files clock objects) →
        KeepsMeaning (memory_of (image_of clock objects)) (program_of files b.children b.compiled) (addresses_of files b.short objects) }
{
    recoded_images_keep_meaning();
    folds_keep_meaning();
    folded_sources_have_folded_methods();
}

/// Law: in the ended history of a world that begins with the image of an accepted project with short code, each life of
/// Spin is told by the project's source as it stands. The files are as above.
pub fn short_lives_are_told()
    ensures { (files : List NamedSource) → (clock : Clock) → (objects : List ObjectPart) → AreProper files → 0 < length files → AreDistinct files →
        HaveMentioned files → HaveNoRing files → (b : IsShortBuilt files clock objects) → (w : World) →
        w.memory ≡ memory_of (image_of clock objects) → w.first ≡ start_of (header_of (image_of clock objects)) → (past : List Turn) →
        Ended asks w past → SpinIsTold (program_of files b.children b.compiled) (addresses_of files b.short objects) w past }
{
    recoded_images_have_their_methods();
    lives_are_told();
    folds_keep_meaning();
    folded_sources_have_folded_methods();
}
