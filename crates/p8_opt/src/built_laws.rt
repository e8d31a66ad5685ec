// Laws of what building a project answers. The functions hold no code of their own: their contracts are the laws.
ghost use Rattle.std.specs.Prelude.{◌<◌, length, List};
ghost use Rattle.p8_tree.specs.Projects.{NamedSource};
ghost use Rattle.p8_names.specs.Mentions.{AreDistinct, HaveMentioned, HaveNoRing};
ghost use Rattle.p8_image.specs.Loading.{ImageValue, memory_of};
ghost use Rattle.p8_build.specs.Parts.{AreProper};
ghost use Rattle.p8_build.specs.Told.{IsImageBuilt};
ghost use Rattle.p8_opt.specs.Shorts.{IsShortImageBuilt};
ghost use Rattle.p8_opt.specs.Programs.{program_of, addresses_of};
ghost use Rattle.p8_opt.specs.Meaning.{KeepsMeaning};
ghost use Rattle.p8_opt.specs.Loads.{LoadsAs};

use crate::placed_laws::images_keep_meaning;
use p8_image::image_loads;

/// Law: the image that [`build`](p8_build::build) answers keeps the meaning of the project's source, whatever runs beside it: of each of its methods, in
/// each frame and each cog, at the addresses that the image has.
///
/// The files are those of a project with the top file first, each one read, under names of their own, and the file of each object among them, and none
/// leads back to itself through its objects.
pub fn built_images_keep_meaning()
    ensures { (files : List NamedSource) → AreProper files → 0 < length files → AreDistinct files → HaveMentioned files → HaveNoRing files →
        (image : ImageValue) → (is : IsImageBuilt files image) →
        KeepsMeaning (memory_of image.file) (program_of files is.0.built.children is.0.built.compiled) (addresses_of files is.0.built.compiled is.0.objects) }
{
    images_keep_meaning();
}

/// Law: so does the image that [`build_short`](crate::build_short) answers: of the source as it stands, at the addresses of the short code.
pub fn built_short_images_keep_meaning()
    ensures { (files : List NamedSource) → AreProper files → 0 < length files → AreDistinct files → HaveMentioned files → HaveNoRing files →
        (image : ImageValue) → (is : IsShortImageBuilt files image) →
        KeepsMeaning (memory_of image.file) (program_of files is.0.built.children is.0.built.compiled) (addresses_of files is.0.built.short is.0.objects) }
{
    crate::laws::short_images_keep_meaning();
}

/// Law: [`load`](p8_image::load) takes the file of the image that [`build`](p8_build::build) answers, as this very image, and its boot begins as the header of
/// the layout says.
pub fn built_images_load()
    ensures { (files : List NamedSource) → 0 < length files → (image : ImageValue) → (is : IsImageBuilt files image) → LoadsAs image is.0.objects }
{
    image_loads();
}

/// Law: so it takes the file of the image that [`build_short`](crate::build_short) answers.
pub fn short_images_load()
    ensures { (files : List NamedSource) → AreProper files → 0 < length files → (image : ImageValue) → (is : IsShortImageBuilt files image) →
        LoadsAs image is.0.objects }
{
    image_loads();
}
