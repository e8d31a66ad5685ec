// Laws of code for reading. The functions do nothing: their contracts are the laws.
ghost use Rattle.std.specs.Prelude.{◌≡◌, ◌<◌, ℕ, List, [], length, map};
ghost use Rattle.p8_tree.specs.Projects.{NamedSource};
ghost use Rattle.p8_image.specs.declared.clocks.Clock.{Clock};
ghost use Rattle.p8_image.specs.declared.parts.ObjectPart.{ObjectPart as Object};
ghost use Rattle.p8_image.specs.Listing.{listing_of};
ghost use Rattle.p8_build.specs.Builds.{IsBuilt};
ghost use Rattle.p8_map.specs.declared.names.FileNames.{FileNames as Names};
ghost use Rattle.p8_opt.specs.Shorts.{IsShortBuilt};
ghost use Rattle.p8_code.specs.Laws.{HaveObjects, HoldsListing, IsNamed};
ghost use Rattle.p8_code.specs.Listing.{FileCode, lines_with};
ghost use Rattle.p8_code.specs.Projects.{IsCodeOf, IsShortCodeOf};

/// Law: a byte has a name exactly where a row of the bytecodes that are read has it.
pub fn bytecodes_have_names()
    ensures { (code : ℕ) → code < 256 → IsNamed code }
{}

/// Law: the code of a project for reading, without what its listing doesn't have, is the listing. So its addresses and its bytes are those that the
/// listing tells.
///
/// The files are those of a project that is built: each has an object, and for each method of it a name and a code.
pub fn listing_is_in_code()
    ensures { (files : List Names) → (objects : List Object) → (codes : List FileCode) → HaveObjects files objects codes →
        lines_with (λ text. []) files objects codes ≡ listing_of (map (λ (file : Names). file.file) files) objects }
{}

/// Law: the listing of an accepted project, of the objects that it is built to and the names of its files, is in its code for reading, and that of its
/// short code in its short code for reading.
///
/// The texts are the bytes of the files, one for each.
pub fn listing_is_in_code_of_accepted()
    ensures code { (texts : List (List ℕ)) → (files : List NamedSource) → (text : List ℕ) → length texts ≡ length files → IsCodeOf texts files text →
        (clock : Clock) × (objects : List Object) × IsBuilt files clock objects ×
        HoldsListing text (listing_of (map (λ (file : NamedSource). file.name) files) objects) }
    ensures short_code { (texts : List (List ℕ)) → (files : List NamedSource) → (text : List ℕ) → length texts ≡ length files →
        IsShortCodeOf texts files text → (clock : Clock) × (objects : List Object) × IsShortBuilt files clock objects ×
        HoldsListing text (listing_of (map (λ (file : NamedSource). file.name) files) objects) }
{}
