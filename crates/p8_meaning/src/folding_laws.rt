// Laws of folded methods. The functions do nothing: their contracts are the laws.
ghost use Rattle.std.specs.Prelude.{◌≡◌, ℕ, List, All};
ghost use Rattle.p8_access.specs.declared.kinds.Answer.{Answer};
ghost use Rattle.p8_meaning.specs.Programs.{Program, Addresses, Target};
ghost use Rattle.p8_meaning.specs.Lives.{says, says_for};
ghost use Rattle.p8_meaning.specs.Projects.{AreFolded, HidesNone, folded_program};

/// Law: what the source of a project says, it says with its methods folded: the same accesses of the same answers, with the same bound, in each
/// method, frame and cog.
pub fn folds_keep_meaning()
    ensures { (program other : Program) → AreFolded program other → (addresses : Addresses) → (target : Target) → (frame cog : ℕ) →
        (answers : List Answer) → (f : ℕ) → says other addresses target frame cog answers f ≡ says program addresses target frame cog answers f }
{}

/// Law: each access is asked for the statement at the same place as before the methods were folded.
pub fn folds_keep_statements()
    ensures { (program other : Program) → AreFolded program other → (addresses : Addresses) → (target : Target) → (frame cog : ℕ) →
        (answers : List Answer) → (f : ℕ) → says_for other addresses target frame cog answers f ≡ says_for program addresses target frame cog answers f }
{}

/// Law: where no method hides a constant or an object of its file, the project whose sources are folded, each by the constants of its file, has
/// the methods of the project folded.
pub fn folded_sources_have_folded_methods()
    ensures { (program : Program) → All HidesNone program → AreFolded program (folded_program program) }
{}
