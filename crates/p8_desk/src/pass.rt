// The pass of one cog.
ghost use Rattle.std.specs.Prelude.{◌≡◌, length};
ghost use Rattle.p8_ledger.specs.Records.{turns};

use crate::rider::Rider;
use crate::rule::Place;
use std::marker::Model;

/// The right of one cog to make its turns at the desk that made the pass. It holds the cog's life.
#[derive(Drop)]
pub struct CogPass {
    pub(crate) seat: Place,
    pub(crate) rider: Rider,
    /// How many turns the longest history has that was seen.
    pub(crate) count: u64,
}

impl Model for CogPass {
    ghost use Rattle.std.specs.Prelude.{◌≡◌, length};
    ghost use Rattle.p8_ledger.specs.Records.{turns};
    ghost use Rattle.p8_desk.specs.Passes.{PassValue};
    ghost use Rattle.p8_desk.specs.Seats.{passed, pass_in, Seated};

    ghost Value = { PassValue };

    ghost view = { λ p. passed p.seat.table_id p.seat.me p.rider.cog p.rider.over };

    ghost invariant = { λ p. Seated p.seat.me p.rider × (p.count ≡ length (turns (pass_in p.seat.me p.rider.cog).seen)) };
}

impl CogPass {
    /// Whose pass it is.
    pub fn cog(&self) -> u8
        ensures { result ≡ self.now.cog }
    {
        self.rider.cog
    }

    /// How many turns the cog has made.
    pub fn count(&self) -> u64
        ensures { result ≡ length (turns self.now.steps.own) }
    {
        self.rider.made
    }

    /// How many turns the longest history has that the pass has seen.
    pub fn seen(&self) -> u64
        ensures { result ≡ length (turns self.now.steps.seen) }
    {
        self.count
    }

    /// Whether a try with this pass has answered `Over`.
    pub fn over(&self) -> bool
        ensures { result ≡ self.now.over }
    {
        self.rider.over
    }
}
