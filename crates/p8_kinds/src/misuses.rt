// What is wrong with the names of a method, and of an expression of DAT.
ghost use Rattle.std.specs.Prelude.{◌≡◌, MatchOption};
ghost use Rattle.p8_tree.specs.Views.{tree_of, statements_of};
ghost use Rattle.p8_tree.specs.declared.faults.Fault.{Fault};
ghost use Rattle.p8_tree.specs.Faults.{IsFirstFault};
ghost use Rattle.p8_kinds.specs.Environments.{environment_of};
ghost use Rattle.p8_kinds.specs.Misuses.{MisuseInStatements, UnknownIn};

use crate::expressions::first_in;
use crate::rules::Rules;
use crate::scope::Scope;
use crate::statements::first_in_statements;
use p8_tree::{Expr, Fault, Stmt};

/// The first fault of a method's statements, by place and then by number: a name without a definition, 15, or of a kind that
/// doesn't fit its use, 16, a call with another number of arguments, 17, and in `CONSTANT` and in a list of `STRING` what isn't
/// constant, 12, or divides by 0, 13; in the latter also a constant that isn't from 1 to 255, 31. None exactly where there is
/// none.
///
/// It takes no memory, and calls go as deep as trees and blocks are.
pub fn first_misuse(scope: &Scope, body: &[Stmt]) -> Option<Fault>
    ensures { MatchOption result ((f : Fault) → ¬ MisuseInStatements (environment_of scope.now) (statements_of body.now) f)
        (IsFirstFault (MisuseInStatements (environment_of scope.now) (statements_of body.now))) }
{
    first_in_statements(scope, body)
}

/// The first fault of the names of an expression in `DAT`: one without a definition, 15, or before `#` one that is no object,
/// 16. None exactly where there is none.
///
/// It takes no memory, and calls go as deep as the tree is high.
pub fn first_unknown(scope: &Scope, expr: &Expr) -> Option<Fault>
    ensures { MatchOption result ((f : Fault) → ¬ UnknownIn (environment_of scope.now) (tree_of expr.now) f)
        (IsFirstFault (UnknownIn (environment_of scope.now) (tree_of expr.now))) }
{
    first_in(scope, Rules::Data, expr)
}
