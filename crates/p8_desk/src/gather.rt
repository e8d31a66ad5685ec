// The passes of all cogs in one seat, in their own again, and the end of a desk.
ghost use Rattle.std.specs.Prelude.{◌≡◌, ◌<◌, ◌∷◌, ℕ, [], true, Some, None, length, slice_get, slice_set};
ghost use Rattle.p8_ledger.specs.declared.ledger.Ledger.{Ledger};
ghost use Rattle.p8_ledger.specs.Records.{turns};
ghost use Rattle.p8_desk.specs.declared.rider.Rider.{Rider};
ghost use Rattle.p8_desk.specs.declared.rule.Known.{Known};
ghost use Rattle.p8_desk.specs.Closing.{Closed};
ghost use Rattle.p8_desk.specs.Gathering.{Gathered, PartsOf, Riding};
ghost use Rattle.p8_desk.specs.PassSets.{AllThere, HasOver, IsOut};
ghost use Rattle.p8_desk.specs.Passes.{PassValue};
ghost use Rattle.p8_desk.specs.Rules.{known};
ghost use Rattle.p8_desk.specs.Seats.{passed, pass_in, Seated};

use crate::desk::Desk;
use crate::pass::CogPass;
use crate::passes::Passes;
use crate::rider::Rider;
use crate::rule::{Board, Place};
use crate::steps::{join, part, seize};
use p8_ledger::{Ended, Ledger};

/// What the passes of eight cogs keep besides their seats, each at its cog's place while it is taken apart.
pub type Riders = [Option<Rider>; 8];

/// The seat of a pass, and what it keeps besides.
fn take_apart(pass: CogPass) -> (Place, Rider)
    ensures { PartsOf pass result.0.table_id result.0.me result.1 }
{
    let CogPass { seat, rider, .. } = pass;
    (seat, rider)
}

/// Takes the pass of a cog, which is there: gives its seat, and puts what it keeps besides into its place.
fn take_seat(passes: &mut Passes, riders: &mut Riders, cog: u8) -> Place
    requires there { (cog < 8) × (pass : PassValue) × (slice_get passes.old cog ≡ Some (Some pass)) }
    requires room { length riders.old ≡ 8 }
    ensures own { (pass : PassValue) → slice_get passes.old cog ≡ Some (Some pass) →
        (rider : Rider) × (riders.new ≡ slice_set riders.old cog (Some rider)) × PartsOf pass result.table_id result.me rider }
    ensures left { passes.new ≡ slice_set passes.old cog None }
{
    match passes.take(cog) {
        Some(pass) => {
            let (seat, rider) = take_apart(pass);
            riders[cog as usize] = Some(rider);
            seat
        }
        None => unreachable!(),
    }
}

/// A seat that has all passes. What they keep besides comes to their places among `riders`.
pub fn gather(desk: &Desk, passes: &mut Passes, riders: &mut Riders) -> Place
    requires there { AllThere desk.now passes.old }
    requires room { length riders.old ≡ 8 }
    ensures own { result.table_id ≡ desk.now.table }
    ensures gathered { Gathered desk.now.world passes.old riders.new 8 result.me }
    ensures out { (n : ℕ) → n < 8 → IsOut n passes.new }
    ensures eight { length passes.old ≡ 8 }
{
    let _ = &passes.places;
    let mut seat = take_seat(passes, riders, 0);
    for cog in 1..8u8 {
        let other = take_seat(passes, riders, cog);
        join(&desk.table.shared, &mut seat, other);
    }
    seat
}

/// Puts a pass together and back into its place, which is empty.
fn put_back(passes: &mut Passes, seat: Place, rider: Rider, count: u64)
    requires seated { Seated seat.me rider × (count ≡ length (turns (pass_in seat.me rider.cog).seen)) }
    requires out { IsOut rider.cog passes.old }
    ensures { passes.new ≡ slice_set passes.old rider.cog (Some (passed seat.table_id seat.me rider.cog rider.over)) }
{
    match passes.put(CogPass { seat, rider, count }) {
        Ok(()) => {}
        Err(_) => unreachable!(),
    }
}

/// Puts a pass together whose seat is given and that lies at its place among the riders.
fn put_next(passes: &mut Passes, seat: Place, riders: &mut Riders, cog: u8, count: u64)
    requires there { (cog < 8) × (rider : Rider) × (slice_get riders.old cog ≡ Some (Some rider)) × (rider.cog ≡ cog) × Seated seat.me rider ×
        (count ≡ length (turns (pass_in seat.me rider.cog).seen)) × IsOut cog passes.old }
    ensures put { (rider : Rider) → slice_get riders.old cog ≡ Some (Some rider) →
        passes.new ≡ slice_set passes.old cog (Some (passed seat.table_id seat.me cog rider.over)) }
    ensures left { riders.new ≡ slice_set riders.old cog None }
{
    match riders[cog as usize].take() {
        Some(rider) => put_back(passes, seat, rider, count),
        None => unreachable!(),
    }
}

/// Gives each pass a seat of its own again, and puts it back into its place. They all have seen so many turns.
pub fn scatter(desk: &Desk, seat: Place, riders: &mut Riders, passes: &mut Passes, count: u64)
    requires own { seat.table_id ≡ desk.now.table }
    requires riding { Riding desk.now.world seat.me riders.old }
    requires seen { (n : ℕ) (p : Known) → known seat.me.0.passes n ≡ Some p → count ≡ length (turns p.seen) }
    requires out { (n : ℕ) → n < 8 → IsOut n passes.old }
    ensures there { AllThere desk.now passes.new }
    ensures over { (n : ℕ) (rider : Rider) → n < 8 → slice_get riders.old n ≡ Some (Some rider) → rider.over ≡ true → HasOver passes.new }
{
    let mut seat = seat;
    for cog in 0..8u8 {
        let own = part(&desk.table.shared, &mut seat, cog);
        put_next(passes, own, riders, cog, count);
    }
}

/// Takes the ledger out of the slot that the seat holds.
fn take_out(board: &Board, seat: &mut Place) -> Ledger
    requires own { seat.old.table_id ≡ board.now.table_id }
    requires has { (ledger : Ledger) × (seat.old.me.1 ≡ (0, Some ledger) ∷ []) }
    ensures own { (seat.new.table_id ≡ seat.old.table_id) × (seat.new.id ≡ seat.old.id) }
    ensures out { (seat.old.me.1 ≡ (0, Some result) ∷ []) × (seat.new.me ≡ (seat.old.me.0, (0, None) ∷ [])) }
{
    match board.exchange(seat, 0, None) {
        Some(ledger) => ledger,
        None => unreachable!(),
    }
}

impl Desk {
    /// The ended history and the hub that it left, taken out of the desk's slot. All passes are there, and one of them is
    /// over; without passes nobody can use the desk any more.
    pub fn close(&self, passes: Passes) -> Ended
        requires there { AllThere self.now passes }
        requires over { HasOver passes }
        ensures closed { Closed self.now.world passes result }
        ensures crew { result.crew ≡ 1 }
    {
        let mut passes = passes;
        let mut riders = [None, None, None, None, None, None, None, None];
        let mut seat = gather(self, &mut passes, &mut riders);
        seize(&self.table.shared, &mut seat, 0);
        take_out(&self.table.shared, &mut seat).end(1)
    }
}
