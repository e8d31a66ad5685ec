// Laws of the meaning. The functions do nothing: their contracts are the laws.
ghost use Rattle.std.specs.Prelude.{◌≡◌, ℕ, ◌≤◌, List};
ghost use Rattle.p8_access.specs.declared.kinds.Answer.{Answer};
ghost use Rattle.p8_meaning.specs.Programs.{Program, Addresses, Target};
ghost use Rattle.p8_meaning.specs.Lives.{says};
ghost use Rattle.p8_meaning.specs.Bounds.{made_of, IsSettled, IsBeginning};
ghost use Rattle.p8_meaning.specs.Halts.{AreSourceAccesses};

/// Law: a greater bound tells at least as much of what a method does: the accesses that a lesser bound tells come first, and once the
/// bound doesn't end first, a greater one tells the same.
pub fn greater_bound_tells_more()
    ensures longer { (program : Program) → (addresses : Addresses) → (target : Target) → (frame cog : ℕ) → (answers : List Answer) → (f g : ℕ) →
        f ≤ g → IsBeginning (made_of (says program addresses target frame cog answers f)) (made_of (says program addresses target frame cog answers g)) }
    ensures settled { (program : Program) → (addresses : Addresses) → (target : Target) → (frame cog : ℕ) → (answers : List Answer) → (f g : ℕ) →
        f ≤ g → IsSettled (says program addresses target frame cog answers f) →
        says program addresses target frame cog answers g ≡ says program addresses target frame cog answers f }
{}

/// Law: a source never asks for a start of its own cog by the machine, for a change of the clock, or for a halt other than that of a read of
/// ROM, of one method too many, of an index beyond an object's instances or of a port that isn't there.
pub fn source_halts_are_few()
    ensures { (program : Program) → (addresses : Addresses) → (target : Target) → (frame cog : ℕ) → (answers : List Answer) → (f : ℕ) →
        AreSourceAccesses (says program addresses target frame cog answers f) }
{}
