// Faults and their order.
ghost use Rattle.std.specs.Prelude.{◌≡◌, [], IsTrue, ◌↔◌, Contains, MatchOption};
ghost use Rattle.p8_tree.specs.Faults.{FaultBefore, IsFirstFault, comes_before, earlier, first_of_two, with_further};

use crate::places::Place;
use crate::refusal::refusal_name;
use std::error::Error;
use std::fmt::{self, Display, Formatter, Write};

/// One reason for which a source is refused: the number of the rule that it breaks, and where.
///
/// Every part of the compiler tells what is refused by one of these, made by [`Refusal::at`](crate::Refusal::at).
#[derive(Clone, Copy, Debug, PartialEq, Eq)]
pub struct Fault {
    /// The number of a [`Refusal`](crate::Refusal).
    pub number: u8,
    /// Where the source breaks the rule.
    pub place: Place,
}

impl Display for Fault {
    fn fmt<W: Write>(&self, f: &mut Formatter<W>) -> Result<(), fmt::Error> {
        write!(
            f,
            "{}:{}: {} {}",
            self.place.line,
            self.place.column,
            self.number,
            refusal_name(self.number)
        )
    }
}

impl Error for Fault {}

impl Fault {
    /// Whether this fault comes before another one: at an earlier place, or at the same place by a lower number.
    pub fn is_before(self, other: Fault) -> bool
        ensures told { result ≡ comes_before self other }
        ensures order { IsTrue result ↔ FaultBefore self other }
    {
        self.place.is_before(other.place)
            || (self.place == other.place && self.number < other.number)
    }

    /// The one of two faults that is told where there are both.
    pub fn earlier(self, other: Fault) -> Fault
        ensures { result ≡ earlier self other }
    {
        if other.is_before(self) { other } else { self }
    }

    /// The earlier of this fault and a further one, if there is one.
    pub fn with_further(self, further: Option<Fault>) -> Fault
        ensures { result ≡ with_further self further }
    {
        match further {
            None => self,
            Some(further) => self.earlier(further),
        }
    }

    /// The fault that is told where there are these: none exactly where there is none.
    pub fn first_of(faults: &[Fault]) -> Option<Fault>
        ensures { MatchOption result (faults.now ≡ []) (IsFirstFault (Contains faults.now)) }
    {
        let mut first: Option<Fault> = None;
        for fault in faults {
            first = match first {
                None => Some(*fault),
                Some(found) => Some(found.earlier(*fault)),
            };
        }
        first
    }
}

/// The earlier of two faults, of those that there are.
pub fn first_of_two(first: Option<Fault>, second: Option<Fault>) -> Option<Fault>
    ensures { result ≡ first_of_two first second }
{
    match first {
        None => second,
        Some(first) => Some(first.with_further(second)),
    }
}
