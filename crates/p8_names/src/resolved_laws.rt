// Laws of resolved names. The functions do nothing: their contracts are the laws.
ghost use Rattle.std.specs.Prelude.{◌≡◌, ◌+◌, ℕ, Bool, List, slice_get, Some, None};
ghost use Rattle.p8_tree.specs.Projects.{NamedSource};
ghost use Rattle.p8_tree.specs.Proper.{IsProperMethod};
ghost use Rattle.p8_tree.specs.Sources.{MethodTree, Source};
ghost use Rattle.p8_constants.specs.FileItems.{items};
ghost use Rattle.p8_kinds.specs.declared.children.Children.{Children};
ghost use Rattle.p8_kinds.specs.declared.kinds.Kinds.{Kinds};
ghost use Rattle.p8_kinds.specs.declared.name_kinds.NameKind.{NameKind};
ghost use Rattle.p8_kinds.specs.FileSettings.{file_setting};
ghost use Rattle.p8_kinds.specs.Kinds.{own};
ghost use Rattle.p8_names.specs.Kinds.{numbered};
ghost use Rattle.p8_names.specs.Resolution.{IsNamed};
ghost use Rattle.p8_names.specs.Children.{AreChildren};
ghost use Rattle.p8_names.specs.Own.{IsLocal};
ghost use Rattle.p8_names.specs.Words.{HasWords};

/// Law: the constants of a file whose names are resolved, and those of the files of its objects, are words.
pub fn resolved_constants_are_words()
    ensures { (files : List NamedSource) → (all : List Children) → AreChildren files all → (i : ℕ) → (file : NamedSource) → (seen : Children) →
        slice_get files i ≡ Some file → slice_get all i ≡ Some seen → (top : Bool) → (found : Kinds) → IsNamed file.tree seen top found →
        HasWords (file_setting found seen) }
{}

/// Law: a name of a method's own, that of a parameter, of its result or of a local, is no name of its file, and names a
/// long of the frame.
pub fn own_names_are_apart()
    ensures apart { (source : Source) → (seen : Children) → (top : Bool) → (found : Kinds) → IsNamed source seen top found → (k : ℕ) →
        (m : MethodTree) → slice_get (numbered (items source)) k ≡ Some m → IsProperMethod m → (name : List ℕ) → (kind : NameKind) →
        own found (k + 1) name ≡ Some kind → own found 0 name ≡ None }
    ensures local { (source : Source) → (seen : Children) → (top : Bool) → (found : Kinds) → IsNamed source seen top found → (k : ℕ) →
        (m : MethodTree) → slice_get (numbered (items source)) k ≡ Some m → IsProperMethod m → (name : List ℕ) → (kind : NameKind) →
        own found (k + 1) name ≡ Some kind → IsLocal kind }
{}
