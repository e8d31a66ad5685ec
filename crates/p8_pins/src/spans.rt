// Spans of clocks over which the input levels stay the same.
ghost use Rattle.std.specs.Prelude.{◌≡◌, ◌<◌, ◌≤◌, ◌^◌, ℕ, IfSome, IfNone};
ghost use Rattle.p8_access.specs.Pins.{pins_with, Holds};
ghost use Rattle.p8_pins.specs.Matches.{IsBefore};

use crate::matching::{first_with, pins};
use p8_access::Test;

/// The clocks from some clock on up to the next line of a pin script: the input levels stay the same.
///
/// Who decides several waits turn by turn keeps the span of the present clock. Within it each wait is
/// decided at once, and the script is looked at again only where the run reaches the next line.
#[derive(Clone, Copy, Debug, PartialEq, Eq)]
pub struct Span {
    /// The levels of the input pins.
    pub levels: u32,
    /// The clock of the next line, or None where there is none.
    pub end: Option<u64>,
    /// How many lines come before that one.
    pub count: usize,
}

impl Span {
    /// The least clock of at least `from`, before the span's end and below 2^62, at which a test holds
    /// with the span's levels while the outputs stay so; None exactly where there is none.
    #[inline]
    pub fn first_match(&self, from: u64, dira: u32, outputs: u32, test: &Test) -> Option<u64>
        ensures below { IfSome result (λ clock. clock < 2 ^ 62) }
        ensures within { IfSome result (λ clock. IsBefore clock self.now.end) }
        ensures not_before { IfSome result (λ clock. from ≤ clock) }
        ensures holds { IfSome result (λ clock. Holds test.now (pins_with dira outputs self.now.levels) clock) }
        ensures least { IfSome result (λ clock. (u : ℕ) → from ≤ u → Holds test.now (pins_with dira outputs self.now.levels) u → clock ≤ u) }
        ensures none { IfNone result ((u : ℕ) → from ≤ u → u < 2 ^ 62 → IsBefore u self.now.end →
            Holds test.now (pins_with dira outputs self.now.levels) u → ⊥) }
    {
        let clock = first_with(from, pins(dira, outputs, self.levels), test)?;
        match self.end {
            Some(end) if end <= clock => None,
            _ => Some(clock),
        }
    }
}
