// What holds of every set of faults and of refusals.
ghost use Rattle.std.specs.Prelude.{◌≡◌, ◌⊎◌, ℕ};
ghost use Rattle.p8_tree.specs.declared.faults.Fault.{Fault};
ghost use Rattle.p8_tree.specs.Faults.{earlier, IsFirstFault, PhaseFault, IsFirstRefusal, ComesEarlier, in_file};

/// A set of faults, by the fact that a fault is in it.
pub trait FaultSet {
    ghost IsFault: { Fault → Type 0 };
}

/// A set of refusals, by the fact that a refusal is in it.
pub trait RefusalSet {
    ghost IsRefused: { PhaseFault → Type 0 };
}

/// Law: a set has at most one first fault.
pub fn one_first<S: FaultSet>()
    ensures { (f g : Fault) → IsFirstFault S.IsFault f → IsFirstFault S.IsFault g → f ≡ g }
{}

/// Law: of what is in one of two sets, the earlier of their first faults is the first.
pub fn earlier_is_first<S: FaultSet, T: FaultSet>()
    ensures { (f g : Fault) → IsFirstFault S.IsFault f → IsFirstFault T.IsFault g → IsFirstFault (λ x. S.IsFault x ⊎ T.IsFault x) (earlier f g) }
{}

/// Law: the first fault of a file in a phase is the first refusal of the project where no earlier phase has one, and in this
/// phase no earlier file.
pub fn first_of_file_is_first<S: RefusalSet>()
    ensures { (phase file : ℕ) (f : Fault) → ((a : PhaseFault) → S.IsRefused a → ¬ ComesEarlier phase file a) →
        IsFirstFault (in_file S.IsRefused phase file) f → IsFirstRefusal S.IsRefused (record { phase = phase; file = file; fault = f }) }
{}
