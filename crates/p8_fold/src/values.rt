// The value of an expression where a constant is needed.
ghost use Rattle.std.specs.Prelude.{◌≡◌, ◌↔◌, List, ℕ, IfOk, IfErr, OnOk, OnErr, Some, None};
ghost use Rattle.p8_tree.specs.Views.{tree_of};
ghost use Rattle.p8_tree.specs.declared.faults.Fault.{Fault};
ghost use Rattle.p8_tree.specs.Faults.{IsFirstFault};
ghost use Rattle.p8_fold.specs.Meanings.{Setting};
ghost use Rattle.p8_fold.specs.ConstantEntries.{setting_of};
ghost use Rattle.p8_fold.specs.Values.{value, FaultIn};
ghost use Rattle.p8_fold.specs.Verdicts.{verdict as told_of};
ghost use Rattle.p8_fold.specs.Agreement.{AgreeOn};

use crate::consts::Consts;
use crate::folding::verdict;
use p8_tree::{Expr, Fault};

/// Why an expression has no value: 12 where something isn't constant, 13 at the operator of a division by 0, 15 at a name
/// without an entry, 16 at a name before `#` that isn't an object's.
pub type FoldFault = Fault;

/// The value of an expression whose names mean what the table says: a word, each operation reduced mod 2^32 before the next.
///
/// An expression without a value is refused with the first of its faults, by place and then by number. It takes no memory,
/// and calls go as deep as the tree is high.
pub fn value_of(expr: &Expr, consts: &Consts) -> Result<u32, FoldFault>
    ensures value { IfOk result (λ v. value (setting_of consts.now) (tree_of expr.now) ≡ Some v) }
    ensures clean { OnOk result ((f : Fault) → ¬ FaultIn (setting_of consts.now) (tree_of expr.now) f) }
    ensures refused { IfErr result (IsFirstFault (FaultIn (setting_of consts.now) (tree_of expr.now))) }
    ensures no_value { OnErr result (value (setting_of consts.now) (tree_of expr.now) ≡ None) }
    ensures told { result ≡ told_of (setting_of consts.now) (tree_of expr.now) }

    // Only the entries of names that stand in the expression decide.
    ensures names_decide { (other : Setting) → AgreeOn (setting_of consts.now) other (tree_of expr.now) →
        value other (tree_of expr.now) ≡ value (setting_of consts.now) (tree_of expr.now) }
    ensures names_decide_faults { (other : Setting) → AgreeOn (setting_of consts.now) other (tree_of expr.now) → (f : Fault) →
        FaultIn other (tree_of expr.now) f ↔ FaultIn (setting_of consts.now) (tree_of expr.now) f }
{
    verdict(consts, expr)
}
