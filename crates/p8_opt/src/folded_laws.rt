// Laws of folded methods. The functions do nothing: their contracts are the laws.
ghost use Rattle.std.specs.Prelude.{◌≡◌, ◌≤◌, ◌+◌, ℕ, Bool, IsTrue, nat_le, if◌then◌else◌, List, length, slice_get, Some};
ghost use Rattle.p8_tree.specs.declared.places.Place.{Place};
ghost use Rattle.p8_tree.specs.Nesting.{leave_loops, depth};
ghost use Rattle.p8_tree.specs.Projects.{NamedSource};
ghost use Rattle.p8_tree.specs.Proper.{AreProperStatements, IsProperMethod};
ghost use Rattle.p8_tree.specs.Sources.{MethodTree, Source};
ghost use Rattle.p8_tree.specs.Statements.{Statements};
ghost use Rattle.p8_tree.specs.declared.faults.Fault.{Fault};
ghost use Rattle.p8_constants.specs.FileItems.{items};
ghost use Rattle.p8_kinds.specs.declared.children.Children.{Children};
ghost use Rattle.p8_kinds.specs.declared.kinds.Kinds.{Kinds};
ghost use Rattle.p8_kinds.specs.declared.name_kinds.Label.{Label};
ghost use Rattle.p8_kinds.specs.Environments.{Environment};
ghost use Rattle.p8_kinds.specs.FileSettings.{file_setting};
ghost use Rattle.p8_kinds.specs.Kinds.{kind_of};
ghost use Rattle.p8_kinds.specs.Misuses.{MisuseInStatements};
ghost use Rattle.p8_names.specs.Kinds.{numbered};
ghost use Rattle.p8_names.specs.Resolution.{IsNamed};
ghost use Rattle.p8_names.specs.Children.{AreChildren};
ghost use Rattle.p8_meaning.specs.Programs.{File};
ghost use Rattle.p8_gen.specs.Depths.{held_in};
ghost use Rattle.p8_gen.specs.Files.{names_in};
ghost use Rattle.p8_gen.specs.Methods.{bytes_of, method_code};
ghost use Rattle.p8_gen.specs.Names.{Names, all_wide};
ghost use Rattle.p8_stmt.specs.Methods.{rebodied, IsMethodFault};
ghost use Rattle.p8_meaning.specs.Constants.{Constants, constants_in};
ghost use Rattle.p8_meaning.specs.Folding.{folded_body};
ghost use Rattle.p8_meaning.specs.Projects.{HidesNone, constants_of};
ghost use Rattle.p8_opt.specs.Asked.{AreWords, HideNoConstant};

use p8_compiled::code_ends_where_its_bytes_do;
use p8_names::{own_names_are_apart, resolved_constants_are_words};

/// Law: a folded body could have been read, where the values of constants are words: its trees are proper, each NEXT
/// and each QUIT stands in a loop, and its blocks stand no deeper in one another than they did.
pub fn folded_bodies_are_proper()
    ensures proper { (c : Constants) → AreWords c → (ss : Statements) → AreProperStatements ss → AreProperStatements (folded_body c ss) }
    ensures loops { (c : Constants) → (inside : Bool) → (ss : Statements) → IsTrue (leave_loops inside ss) → IsTrue (leave_loops inside (folded_body c ss)) }
    ensures shallow { (c : Constants) → (ss : Statements) → depth (folded_body c ss) ≤ depth ss }
{}

/// Law: where no name of a body is used against its kind, none of the folded body is.
pub fn folded_bodies_misuse_nothing()
    ensures { (env : Environment) → (c : Constants) → (ss : Statements) → AreProperStatements ss → ((f : Fault) → ¬ MisuseInStatements env ss f) →
        (f : Fault) → ¬ MisuseInStatements env (folded_body c ss) f }
{}

/// Law: the code of a folded method, with all its jumps wide, is no longer than that of the method, holds no more on
/// the operand stack, and has no fault that the method's has not: none of its jumps goes too far, and it isn't too
/// large.
///
/// The method was read, and what is a constant of its file where a number is needed is that constant in its statements,
/// too.
pub fn folded_methods_are_no_longer()
    ensures length { (n : Names) → n.wide ≡ all_wide → HideNoConstant n → (ss : Statements) → AreProperStatements ss →
        length (bytes_of (method_code n (folded_body (constants_in n.constants) ss))) ≤ length (bytes_of (method_code n ss)) }
    ensures depth { (n : Names) → n.wide ≡ all_wide → HideNoConstant n → (ss : Statements) →
        held_in n (folded_body (constants_in n.constants) ss) ≤ held_in n ss }
    ensures faults { (n : Names) → n.wide ≡ all_wide → HideNoConstant n → (m : MethodTree) → AreProperStatements m.body →
        ((f : Fault) → ¬ IsMethodFault n m f) → (f : Fault) → ¬ IsMethodFault n (rebodied m (folded_body (constants_in n.constants) m.body)) f }
{
    code_ends_where_its_bytes_do();
}

/// Law: a file whose names are resolved has what is asked: its constants, and those of the files of its objects, are
/// words, and no name of a method that was read hides one of them.
pub fn resolved_files_can_be_folded()
    ensures words { (files : List NamedSource) → (all : List Children) → AreChildren files all → (i : ℕ) → (file : NamedSource) → (seen : Children) →
        slice_get files i ≡ Some file → slice_get all i ≡ Some seen → (top : Bool) → (found : Kinds) → IsNamed file.tree seen top found →
        AreWords (constants_in (file_setting found seen)) }
    ensures names { (source : Source) → (seen : Children) → (top : Bool) → (found : Kinds) → IsNamed source seen top found → (k : ℕ) →
        (m : MethodTree) → slice_get (numbered (items source)) k ≡ Some m → IsProperMethod m → (labels : List Label) → (statement : Place) →
        HideNoConstant (names_in found seen labels (k + 1) statement) }
{
    resolved_constants_are_words();
    own_names_are_apart();
}

/// Law: where the names of a file are resolved, and its methods were read, no method hides one of its constants or
/// objects: for each method the constants are those of the whole file. What the names of the file are in a method is
/// what was resolved; a number that no method has counts as 0.
pub fn resolved_files_hide_none()
    ensures constants { (source : Source) → (seen : Children) → (top : Bool) → (found : Kinds) → IsNamed source seen top found →
        ((k : ℕ) → (m : MethodTree) → slice_get (numbered (items source)) k ≡ Some m → IsProperMethod m) → (f : File) → f.children ≡ seen.items →
        ((method : ℕ) → (name : List ℕ) → f.kind method name ≡
        kind_of found (if nat_le method (length (numbered (items source))) then method else 0) name) → (method : ℕ) →
        constants_of f method ≡ constants_in (file_setting found seen) }
    ensures hides { (source : Source) → (seen : Children) → (top : Bool) → (found : Kinds) → IsNamed source seen top found →
        ((k : ℕ) → (m : MethodTree) → slice_get (numbered (items source)) k ≡ Some m → IsProperMethod m) → (f : File) → f.children ≡ seen.items →
        ((method : ℕ) → (name : List ℕ) → f.kind method name ≡
        kind_of found (if nat_le method (length (numbered (items source))) then method else 0) name) → HidesNone f }
{
    own_names_are_apart();
}
