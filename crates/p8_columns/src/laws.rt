// Laws on lines and statements: each function does nothing, and its contract is the law.
ghost use Rattle.p8_columns.specs.Blocks.{FitTogether, OneReading, MethodIsInnermost, OpenerIsInnermost};

/// Lines are statements exactly where each of them fits after those before it.
pub fn fit_together()
    ensures { FitTogether }
{}

/// Lines are at most one list of statements.
pub fn one_reading()
    ensures { OneReading }
{}

/// A line may stand next in the method itself exactly where no other block is open for it.
pub fn method_is_innermost()
    ensures { MethodIsInnermost }
{}

/// A line may stand next in an opener's block exactly where that opener is the last one to the left
/// of it with every line since to the right of the opener.
pub fn opener_is_innermost()
    ensures { OpenerIsInnermost }
{}
