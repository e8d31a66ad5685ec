// What holds of the constants of every file.
ghost use Rattle.std.specs.Prelude.{◌≡◌, ◌↔◌, ℕ, ◌+◌, ◌%◌, ◌^◌, ◌<◌, Some, Contains, List, [], ◌∷◌, ◌++◌};
ghost use Rattle.p8_tree.specs.declared.faults.Fault.{Fault};
ghost use Rattle.p8_fold.specs.Meanings.{Setting};
ghost use Rattle.p8_fold.specs.Values.{value, FaultIn};
ghost use Rattle.p8_constants.specs.Items.{Term, Sum, definition};
ghost use Rattle.p8_constants.specs.Mentions.{Mentions};
ghost use Rattle.p8_constants.specs.Constants.{Scope, Needs, IsRightFor, Adds, Has, IsOrdered, IsLayered, counted};

/// Law: a constant has at most one value.
pub fn one_value()
    ensures { (c : Scope) → (n : List ℕ) → (v w : ℕ) → Has c n v → Has c n w → v ≡ w }
{}

/// Law: an expression of CON has one value and one set of faults, whatever setting that is right for it they are told by.
pub fn one_meaning()
    ensures values { (c : Scope) → (e : Term) → (s t : Setting) → IsRightFor c e s → IsRightFor c e t → value s e.tree ≡ value t e.tree }
    ensures faults { (c : Scope) → (e : Term) → (s t : Setting) → IsRightFor c e s → IsRightFor c e t → (f : Fault) → FaultIn s e.tree f ↔ FaultIn t e.tree f }
{}

/// Law: a further step adds its value to a counter, or 0 where it is refused.
pub fn steps_add()
    ensures { (c : Scope) → (es : List Term) → (e : Term) → (s : Setting) → (v : ℕ) → Adds c es v → IsRightFor c e s →
        Adds c (es ++ e ∷ []) ((v + counted (value s e.tree)) % 2 ^ 32) }
{}

/// Names of constants, and a rank for each.
pub trait Order {
    ghost Among: { List ℕ → Type 0 };

    ghost rank: { List ℕ → ℕ };
}

/// Law: of names that come in an order of evaluation none is circular, in no expression.
pub fn ordered_is_not_circular<O: Order>()
    ensures { (c : Scope) → IsOrdered c O.Among O.rank → (n : List ℕ) → (e : Term) → O.Among n → Mentions e.tree n → ¬ Needs c n e }
{}

/// Expressions, and a layer for each.
pub trait Layers {
    ghost Among: { Term → Type 0 };

    ghost layer: { Term → ℕ };
}

/// Law: where expressions stand in layers, a name whose terms stand in lower layers than an expression isn't circular there.
pub fn lower_is_not_circular<L: Layers>()
    ensures { (c : Scope) → IsLayered c L.Among L.layer → (n : List ℕ) → (e : Term) →
        ((sum : Sum) → (f : Term) → c.outside.name n ≡ None → definition c.constants n ≡ Some sum → Contains sum.terms f →
        L.Among f × (L.layer f < L.layer e)) → ¬ Needs c n e }
{}
