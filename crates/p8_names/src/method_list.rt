// All methods of a file, looked at one after the other.
ghost use Rattle.std.specs.Prelude.{◌≡◌, ◌+◌, ◌<◌, ℕ, List, None, IfOk, length, map};
ghost use Rattle.p8_tree.specs.Views.{method_of};
ghost use Rattle.p8_fold.specs.ConstantEntries.{setting_of};
ghost use Rattle.p8_constants.specs.Standing.{IsFirstOf};
ghost use Rattle.p8_kinds.specs.Kinds.{own};
ghost use Rattle.p8_names.specs.Faults.{InMethods};
ghost use Rattle.p8_names.specs.Looking.{IsShown, IsFaultIn};
ghost use Rattle.p8_names.specs.Resolving.{HasMethods};

use crate::method_faults::look_at;
use p8_kinds::Scope;
use p8_tree::{Fault, Method, first_of_two};
use p8_words::NoMemory;
use std::alloc::Global;

/// The number of the method with this index: there is no memory for more methods than a number tells.
pub fn number_behind(index: usize) -> Result<u32, NoMemory>
    ensures { IfOk result (λ number. number ≡ index + 1) }
{
    match u32::try_from(index) {
        Ok(index) if index < u32::MAX => Ok(index + 1),
        _ => Err(NoMemory),
    }
}

/// Enters the own names of methods, the first at the number 1, and tells the first fault of their locals' counts and of their
/// bodies. What names mean where a constant is needed is the same after it.
pub(crate) fn look_at_all(
    alloc: Global,
    scope: &mut Scope,
    methods: &[&Method],
) -> Result<Option<Fault>, NoMemory>
    requires shown { IsShown scope.old.kinds (setting_of scope.old.consts) }
    requires free { (m : ℕ) (n : List ℕ) → 0 < m → own scope.old.kinds m n ≡ None }
    ensures fault { IfOk result (λ first. IsFirstOf first
        (InMethods (IsFaultIn scope.old.kinds scope.old.publics (setting_of scope.old.consts)) (map (λ m. method_of m.now) methods.now))) }
    ensures kinds { IfOk result (λ _. HasMethods scope.old.kinds scope.new.kinds (setting_of scope.old.consts)
        (map (λ m. method_of m.now) methods.now) (length methods.now)) }
    ensures consts { IfOk result (λ _. setting_of scope.new.consts ≡ setting_of scope.old.consts) }
    ensures publics { IfOk result (λ _. scope.new.publics ≡ scope.old.publics) }
{
    let mut first = None;
    for (index, method) in methods.iter().enumerate() {
        let number = number_behind(index)?;
        first = first_of_two(first, look_at(alloc, scope, number, method)?);
    }
    Ok(first)
}
