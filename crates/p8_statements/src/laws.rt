// What the lines of a method satisfy.
ghost use Rattle.p8_statements.specs.Proper.{KindsAreProper};

/// A row whose names and expressions are proper makes a proper line. The function does nothing, and its
/// contract is the law.
#[tactic(auto, using(crate::proofs::ProperLines::kinds_proper))]
pub fn kinds_are_proper()
    ensures { KindsAreProper }
{}
