// What declarations satisfy.
ghost use Rattle.p8_declarations.specs.Proper.{ConstantsAreProper, VariablesAreProper, ObjectsAreProper, HeadsAreProper};

/// A row whose names, strings and expressions are proper declares proper items, and is a proper head of
/// a method. The function does nothing, and its contract is the law.
pub fn declarations_are_proper()
    ensures constants { ConstantsAreProper }
    ensures variables { VariablesAreProper }
    ensures objects { ObjectsAreProper }
    ensures heads { HeadsAreProper }
{}
