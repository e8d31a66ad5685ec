// Laws of where names stand in the hub. The functions do nothing: their contracts are the laws.
ghost use Rattle.std.specs.Prelude.{◌≡◌, ◌<◌, ℕ, List, length, slice_get, Some};
ghost use Rattle.p8_tree.specs.Projects.{NamedSource};
ghost use Rattle.p8_kinds.specs.declared.children.Children.{Children};
ghost use Rattle.p8_kinds.specs.declared.name_kinds.NameKind.TheVariants.{Global, Label};
ghost use Rattle.p8_names.specs.Children.{AreChildren};
ghost use Rattle.p8_names.specs.Mentions.{AreDistinct, HaveMentioned, HaveNoRing};
ghost use Rattle.p8_image.specs.Layout.{header_by, image_of};
ghost use Rattle.p8_image.specs.Places.{base_of};
ghost use Rattle.p8_image.specs.Projects.{FitsHub};
ghost use Rattle.p8_meaning.specs.Programs.{File, Instance};
ghost use Rattle.p8_meaning.specs.Lives.{IsInstance};
ghost use Rattle.p8_build.specs.Parts.{AreProper};
ghost use Rattle.p8_build.specs.Files.{CompiledFile};
ghost use Rattle.p8_build.specs.Builds.{AreCompiled, objects_of};
ghost use Rattle.p8_map.specs.Projects.{IsMapOf, names_of};
ghost use Rattle.p8_opt.specs.Programs.{addresses_of, program_of};
ghost use Rattle.p8_legend.specs.declared.legend.Legend.{Legend};
ghost use Rattle.p8_legend.specs.declared.ranges.Range.{Range};
ghost use Rattle.p8_legend.specs.Projects.{IsLegendOf};
ghost use Rattle.p8_legend.specs.Stands.{IsAmong, IsNameOf, IsTold};
ghost use Rattle.p8_legend.specs.MapLines.{IsMadeMap};
ghost use Rattle.p8_legend.specs.Kinded.{HasVariable, HasLabel};

use p8_image::{image_loads, parts_stand};

/// Law: the names of a project's legend stand where the image has what they name, and where the source's meaning reads and writes it.
///
/// Each range with its text is that of a label, of a method's code or of a variable of an object instance, by the layout of the image and the
/// addresses of its program (`right`). And each of these has its range there (`whole`), also one without a byte: a label that stands where the next
/// one stands, and a variable without elements. So a name finds what it names. Only instances inside others are passed over that have no byte of
/// variables, nor one inside them that has.
pub fn names_stand_where_the_image_has_them()
    ensures right { (sources : List (List ℕ)) → (files : List NamedSource) → AreProper files → (legend : Legend) →
        (is : IsLegendOf sources files legend) → (text : List ℕ) → (range : Range) → IsAmong legend.names text range →
        IsNameOf (names_of sources files is.children is.compiled) (objects_of files is.children is.compiled)
        (addresses_of files is.compiled (objects_of files is.children is.compiled)) text range }
    ensures whole { (sources : List (List ℕ)) → (files : List NamedSource) → AreProper files → HaveMentioned files → HaveNoRing files →
        (legend : Legend) → (is : IsLegendOf sources files legend) → (text : List ℕ) → (range : Range) →
        (named : IsNameOf (names_of sources files is.children is.compiled) (objects_of files is.children is.compiled)
        (addresses_of files is.compiled (objects_of files is.children is.compiled)) text range) →
        IsTold (names_of sources files is.children is.compiled) (objects_of files is.children is.compiled)
        (addresses_of files is.compiled (objects_of files is.children is.compiled)) text range named → IsAmong legend.names text range }
{}

/// Law: the map of a project is made of lines, each of which tells an object, a label, a method, a text or a variable at the address that it has by the same
/// layout and the same addresses as the names of the project's legend.
pub fn maps_tell_where_the_image_has_it()
    ensures { (sources : List (List ℕ)) → (files : List NamedSource) → AreProper files → (text : List ℕ) → (is : IsMapOf sources files text) →
        IsMadeMap (image_of is.clock (objects_of files is.children is.compiled)) (names_of sources files is.children is.compiled)
        (objects_of files is.children is.compiled) (addresses_of files is.compiled (objects_of files is.children is.compiled)) text }
{}

/// Law: where the source's meaning takes a name of an accepted project to be, by the kind of the name, there stands what has this name in map and legend.
///
/// Each object instance of the project's program stands at the base of its file's object (`instances`). A name that is a variable in a method, or
/// outside all methods at 0, is that of a variable of the instance, and one that is a label that of a label of its file: of the kind's size, and at
/// the address that the meaning takes (`variables`, `labels`). So what [`names_stand_where_the_image_has_them`] and
/// [`maps_tell_where_the_image_has_it`] tell of variables and labels, they tell of the names of the source.
pub fn names_stand_by_their_kinds()
    ensures instances { (files : List NamedSource) → AreProper files → 0 < length files → AreDistinct files → HaveMentioned files →
        HaveNoRing files → (children : List Children) → AreChildren files children → (compiled : List CompiledFile) →
        AreCompiled files children compiled → FitsHub (header_by (objects_of files children compiled)) → (instance : Instance) →
        IsInstance (program_of files children compiled) (addresses_of files compiled (objects_of files children compiled)) instance →
        instance.base ≡ base_of (objects_of files children compiled) instance.file }
    ensures variables { (files : List NamedSource) → AreProper files → 0 < length files → AreDistinct files → HaveMentioned files →
        HaveNoRing files → (children : List Children) → AreChildren files children → (compiled : List CompiledFile) →
        AreCompiled files children compiled → FitsHub (header_by (objects_of files children compiled)) → (sources : List (List ℕ)) →
        length sources ≡ length files → (instance : Instance) →
        IsInstance (program_of files children compiled) (addresses_of files compiled (objects_of files children compiled)) instance → (file : File) →
        slice_get (program_of files children compiled) instance.file ≡ Some file → (method : ℕ) → (name : List ℕ) → (size offset : ℕ) →
        file.kind method name ≡ Some (Global size offset) →
        HasVariable (names_of sources files children compiled) (objects_of files children compiled)
        (addresses_of files compiled (objects_of files children compiled)) instance name size offset }
    ensures labels { (files : List NamedSource) → AreProper files → 0 < length files → AreDistinct files → HaveMentioned files → HaveNoRing files →
        (children : List Children) → AreChildren files children → (compiled : List CompiledFile) → AreCompiled files children compiled →
        FitsHub (header_by (objects_of files children compiled)) → (sources : List (List ℕ)) → length sources ≡ length files →
        (instance : Instance) → IsInstance (program_of files children compiled)
        (addresses_of files compiled (objects_of files children compiled)) instance → (file : File) →
        slice_get (program_of files children compiled) instance.file ≡ Some file → (method : ℕ) → (name : List ℕ) → (size : ℕ) →
        file.kind method name ≡ Some (Label size) → HasLabel (names_of sources files children compiled) (objects_of files children compiled)
        (addresses_of files compiled (objects_of files children compiled)) instance name size }
{
    image_loads();
    parts_stand();
}
