// What is wrong with the names of one method.
ghost use Rattle.std.specs.Prelude.{◌≡◌, ◌⊎◌, ◌<◌, ℕ, List, None, IfOk, map};
ghost use Rattle.p8_kinds.specs.Kinds.{own};
ghost use Rattle.p8_names.specs.Looking.{IsShown, IsFaultIn, HasOwnKinds};
ghost use Rattle.p8_tree.specs.Views.{declared_of, method_of};
ghost use Rattle.p8_fold.specs.ConstantEntries.{setting_of};
ghost use Rattle.p8_constants.specs.Rules.{FaultInCount};
ghost use Rattle.p8_constants.specs.Standing.{IsFirstOf};
ghost use Rattle.p8_kinds.specs.Environments.{environment_of};
ghost use Rattle.p8_kinds.specs.Misuses.{MisuseInStatements};
ghost use Rattle.p8_names.specs.Faults.{FaultInLocals};

use crate::hiding::{hide, restore};
use crate::own_kinds::enter_own_names;
use p8_constants::{count_fault, own_names};
use p8_fold::Consts;
use p8_kinds::{Scope, first_misuse};
use p8_tree::{Fault, Method, VarItem, first_of_two};
use p8_words::NoMemory;
use std::alloc::Global;

// The first fault of the count of a local.
fn local_fault(consts: &Consts, local: &VarItem) -> Option<Fault>
    ensures { IsFirstOf result (FaultInCount (setting_of consts.now) (declared_of local.now).count) }
{
    count_fault(consts, local.count.as_ref())
}

// The first fault of the counts of locals.
fn first_local_fault(consts: &Consts, locals: &[VarItem]) -> Option<Fault>
    ensures { IsFirstOf result (FaultInLocals (setting_of consts.now) (map declared_of locals.now)) }
{
    let mut first = None;
    for local in locals {
        first = first_of_two(first, local_fault(consts, local));
    }
    first
}

/// The first fault of the counts of a method's locals and of its body, by what is known of names there.
pub(crate) fn method_fault(scope: &Scope, method: &Method) -> Option<Fault>
    ensures { IsFirstOf result (λ f. FaultInLocals (environment_of scope.now).constants (method_of method.now).locals f ⊎
        MisuseInStatements (environment_of scope.now) (method_of method.now).body f) }
{
    let local = first_local_fault(&scope.consts, method.locals.as_slice());
    first_of_two(local, first_misuse(scope, method.body.as_slice()))
}

/// Enters the own names of a method at its number, and tells the first fault of its locals' counts and of its body. What names
/// mean where a constant is needed is the same after it.
pub(crate) fn look_at(
    alloc: Global,
    scope: &mut Scope,
    number: u32,
    method: &Method,
) -> Result<Option<Fault>, NoMemory>
    requires shown { IsShown scope.old.kinds (setting_of scope.old.consts) }
    requires own { 0 < number }
    requires free { (n : List ℕ) → own scope.old.kinds number n ≡ None }
    ensures fault { IfOk result (λ first. IsFirstOf first (IsFaultIn scope.old.kinds scope.old.publics (setting_of scope.old.consts) (method_of method.now))) }
    ensures kinds { IfOk result (λ _. HasOwnKinds scope.old.kinds scope.new.kinds number (setting_of scope.old.consts) (method_of method.now)) }
    ensures consts { IfOk result (λ _. setting_of scope.new.consts ≡ setting_of scope.old.consts) }
    ensures publics { IfOk result (λ _. scope.new.publics ≡ scope.old.publics) }
{
    let names = own_names(alloc, method)?;
    hide(&mut scope.consts, &names)?;
    enter_own_names(&mut scope.kinds, number, &scope.consts, method)?;
    scope.number = number;
    let fault = method_fault(scope, method);
    restore(&mut scope.consts, &scope.kinds, &names)?;
    Ok(fault)
}
