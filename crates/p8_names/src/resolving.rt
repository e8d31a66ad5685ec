// The names of a file.
ghost use Rattle.std.specs.Prelude.{◌≡◌, ◌<◌, ℕ, List, None, Bool, IfOk, IfErr, OnOk};
ghost use Rattle.p8_tree.specs.Proper.{IsProperFile};
ghost use Rattle.p8_tree.specs.Sources.{Source};
ghost use Rattle.p8_tree.specs.Views.{source_of};
ghost use Rattle.p8_tree.specs.declared.faults.Fault.{Fault};
ghost use Rattle.p8_tree.specs.Faults.{IsFirstFault, IfRefused};
ghost use Rattle.p8_fold.specs.ConstantEntries.{setting_of};
ghost use Rattle.p8_constants.specs.Names.{predefined as table};
ghost use Rattle.p8_constants.specs.Standing.{items_of, valued, IsFirstOf};
ghost use Rattle.p8_kinds.specs.declared.children.Children.{Children};
ghost use Rattle.p8_kinds.specs.Kinds.{own};
ghost use Rattle.p8_names.specs.Kinds.{numbered as numbered_methods};
ghost use Rattle.p8_names.specs.Faults.{IsNameFault};
ghost use Rattle.p8_names.specs.Resolution.{IsNamed};
ghost use Rattle.p8_names.specs.Looking.{IsShown};
ghost use Rattle.p8_names.specs.Resolving.{MisusedBy, HasAllMethods, BrokenBy};
ghost use Rattle.p8_names.specs.Beginning.{IsBegun};

use crate::beginning::{Begun, begin};
use crate::data_names::first_unknown_in_lines;
use crate::item_faults::{first_broken, first_repeat};
use crate::method_list::{look_at_all, number_behind};
use crate::own_kinds::numbered;
use p8_constants::Item;
use p8_kinds::{Children, Named, Scope};
use p8_tree::{Fault, SourceFile, first_of_two};
use p8_words::{Fail, NoMemory};
use std::alloc::Global;

/// Why the names of a file are refused.
///
/// In constants and where a constant is needed: 12 what isn't constant, 13 a division by 0. 14 a name that is defined twice. 15
/// a name without a definition. 16 a name whose kind doesn't fit its use. 17 a call with another number of arguments, or a method
/// with more than 15 parameters. 18 a top file without a `PUB`. 20 an object without an instance, or with the 256th of the file.
pub type NameFault = Fault;

// Enters the own names of all methods, and tells the first fault of the uses of names in methods and in DAT.
fn first_misused(
    alloc: Global,
    scope: &mut Scope,
    items: &[Item<'_>],
) -> Result<Option<Fault>, NoMemory>
    requires shown { IsShown scope.old.kinds (setting_of scope.old.consts) }
    requires free { (m : ℕ) (n : List ℕ) → 0 < m → own scope.old.kinds m n ≡ None }
    ensures fault { IfOk result (λ first. IsFirstOf first (MisusedBy scope.old.kinds scope.old.publics (setting_of scope.old.consts) (items_of items.now))) }
    ensures kinds { IfOk result (λ _. HasAllMethods scope.old.kinds scope.new.kinds (setting_of scope.old.consts) (numbered_methods (items_of items.now))) }
{
    let methods = numbered(alloc, items)?;
    let in_methods = look_at_all(alloc, scope, &methods)?;
    let number = number_behind(methods.len())?;
    let in_lines = first_unknown_in_lines(scope, number, items)?;
    Ok(first_of_two(in_methods, in_lines))
}

// The first fault of all but the constants, by what the names mean.
fn first_broken_rule(
    alloc: Global,
    begun: &mut Begun<'_>,
    top: bool,
) -> Result<Option<Fault>, NoMemory>
    requires table { valued begun.old.predefined.items ≡ table }
    requires shown { IsShown begun.old.scope.kinds (setting_of begun.old.scope.consts) }
    requires free { (m : ℕ) (n : List ℕ) → 0 < m → own begun.old.scope.kinds m n ≡ None }
    ensures fault { IfOk result (λ first. IsFirstOf first
        (BrokenBy begun.old.scope.kinds begun.old.scope.publics (setting_of begun.old.scope.consts) (items_of begun.old.items.items) top)) }
    ensures kinds { IfOk result (λ _. HasAllMethods begun.old.scope.kinds begun.new.scope.kinds (setting_of begun.old.scope.consts)
        (numbered_methods (items_of begun.old.items.items))) }
    ensures constants { IfOk result (λ _. begun.new.fault ≡ begun.old.fault) }
{
    let repeat = first_repeat(alloc, &begun.items, &begun.predefined)?;
    let broken = first_broken(&begun.scope.consts, &begun.items, top);
    let misused = first_misused(alloc, &mut begun.scope, &begun.items)?;
    Ok(first_of_two(first_of_two(repeat, broken), misused))
}

/// Finds what each name of a file is: a constant with its value, a variable with its place, a label, a method or an object with
/// its number, and in each method its parameters, its result and its locals.
///
/// `children` has what is seen of the file of each item of `OBJ`, in order. `top` says that the file is the project's top file.
/// A file with something wrong in its names is refused with the first of its faults, by place and then by number. It takes time
/// and memory in proportion to the file, but for look-ups of names, which take the logarithm of their number.
pub fn resolve<'a>(
    alloc: Global,
    file: &'a SourceFile,
    children: &'a Children,
    top: bool,
) -> Result<Named<'a>, Fail<NameFault>>
    requires { IsProperFile (source_of file.now) }
    ensures named { IfOk result (λ named. IsNamed (source_of file.now) children.now top named.kinds) }
    ensures file { IfOk result (λ named. named.file.now ≡ file.now) }
    ensures children { IfOk result (λ named. named.children.now ≡ children.now) }
    ensures refused { IfErr result (IfRefused (IsFirstFault (IsNameFault (source_of file.now) children.now top))) }
{
    let mut begun = begin(alloc, file, children)?;
    let broken = first_broken_rule(alloc, &mut begun, top)?;
    let Begun { scope, fault, .. } = begun;
    match first_of_two(fault, broken) {
        Some(fault) => Err(Fail::Refused(fault)),
        None => Ok(Named {
            file,
            children,
            kinds: scope.kinds,
        }),
    }
}
