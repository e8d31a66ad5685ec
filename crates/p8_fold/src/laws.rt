// What holds of every expression and every meaning of names.
ghost use Rattle.std.specs.Prelude.{◌≡◌, ◌⊎◌, ℕ, List, Some, None};
ghost use Rattle.p8_tree.specs.declared.places.Place.{Place};
ghost use Rattle.p8_tree.specs.Expressions.{Tree, node, Var, Named, no_index};
ghost use Rattle.p8_tree.specs.declared.faults.Fault.{Fault};
ghost use Rattle.p8_tree.specs.Faults.{fault, IsFirstFault};
ghost use Rattle.p8_tree.specs.declared.refusal.Refusal.TheVariants.{NotConstant};
ghost use Rattle.p8_fold.specs.declared.meanings.Meaning.TheVariants.{Other as Variable};
ghost use Rattle.p8_fold.specs.Meanings.{Setting, meaning_of};
ghost use Rattle.p8_fold.specs.Values.{value, FaultIn, HasValue, IsRefused};

/// Law: each expression has a value and no fault, or it has no value and a first fault.
pub fn value_or_fault()
    ensures { (s : Setting) → (e : Tree) → HasValue s e ⊎ IsRefused s e }
{}

/// Law: a name that means something other than a constant, a label or an object has no value, and 12 stands at it.
pub fn other_has_no_value()
    ensures { (s : Setting) → (name : List ℕ) → (p q : Place) → meaning_of s name ≡ Some Variable →
        (value s (node p (Var (Named name no_index q))) ≡ None) × FaultIn s (node p (Var (Named name no_index q))) (fault NotConstant q) }
{}
