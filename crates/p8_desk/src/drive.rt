// All eight cogs, driven from one thread.
ghost use Rattle.std.specs.Prelude.{◌≡◌, ◌<◌, ℕ, Some, length};
ghost use Rattle.p8_ledger.specs.Records.{turns};
ghost use Rattle.p8_desk.specs.declared.rule.Known.{Known};
ghost use Rattle.p8_desk.specs.Gathering.{next_cog, HasRode, OneOver, Riding};
ghost use Rattle.p8_desk.specs.PassSets.{AllThere, HasOver};
ghost use Rattle.p8_desk.specs.Rules.{known};

use crate::desk::Desk;
use crate::gather::{Riders, gather, scatter};
use crate::passes::Passes;
use crate::rule::Place;
use crate::turned::Turned;

/// One try of a cog, by a seat that has the passes of all cogs. `count` is how many turns there are then.
fn ride(desk: &Desk, seat: &mut Place, riders: &mut Riders, count: &mut u64, cog: u8) -> Turned
    requires cog { cog < 8 }
    requires own { seat.old.table_id ≡ desk.now.table }
    requires riding { Riding desk.now.world seat.old.me riders.old }
    ensures own { seat.new.table_id ≡ desk.now.table }
    ensures rode { HasRode desk.now.world cog seat.old.me seat.new.me riders.new count.new result }
{
    match &mut riders[cog as usize] {
        Some(rider) => rider.ride(desk, seat, count),
        None => unreachable!(),
    }
}

/// Which cog is to try after an answer: the cog that it names, or the same again; none where the history has ended.
fn next_after(cog: u8, answer: Turned) -> Option<u8>
    ensures { result ≡ next_cog cog answer }
{
    match answer {
        Turned::After { cog: other, .. } => Some(other),
        Turned::Over => None,
        Turned::Done(_) => Some(cog),
        Turned::Ahead { .. } => Some(cog),
        Turned::Held { .. } => Some(cog),
    }
}

/// Lets the cogs try, beginning with cog 0, until the history has ended. Answers how many turns it has.
fn drive(desk: &Desk, seat: &mut Place, riders: &mut Riders) -> u64
    requires own { seat.old.table_id ≡ desk.now.table }
    requires riding { Riding desk.now.world seat.old.me riders.old }
    ensures own { seat.new.table_id ≡ desk.now.table }
    ensures riding { Riding desk.now.world seat.new.me riders.new }
    ensures seen { (n : ℕ) (p : Known) → known seat.new.me.0.passes n ≡ Some p → result ≡ length (turns p.seen) }
    ensures over { OneOver riders.new }
{
    let mut count = 0;
    let mut cog = 0;
    let mut answer = ride(desk, seat, riders, &mut count, cog);
    while let Some(next) = next_after(cog, answer) {
        cog = next;
        answer = ride(desk, seat, riders, &mut count, cog);
    }
    count
}

/// Drives all eight passes of a desk from this thread until the history has ended. It takes no memory and waits for
/// nobody. All passes are there, and so they are afterwards; one of them is over then.
pub fn drive_all(desk: &Desk, passes: &mut Passes)
    requires there { AllThere desk.now passes.old }
    ensures there { AllThere desk.now passes.new }
    ensures over { HasOver passes.new }
{
    let mut riders = [None, None, None, None, None, None, None, None];
    let mut seat = gather(desk, passes, &mut riders);
    let count = drive(desk, &mut seat, &mut riders);
    scatter(desk, seat, &mut riders, passes, count);
}
