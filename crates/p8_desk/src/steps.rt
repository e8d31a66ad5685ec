// The steps of a seat at the table.
ghost use Rattle.std.specs.Prelude.{◌≡◌, ◌+◌, ◌<◌, true, [], Some, None};
ghost use Rattle.atomic_table.specs.Table.{step as move};
ghost use mathlib.Core.Option.{none};
ghost use Rattle.p8_desk.specs.declared.rule.Known.{Known};
ghost use Rattle.p8_desk.specs.Rules.{known, Seized, Released, Seen, CanTell, CanFree, seeing, without_pass, pass_alone, joined};
ghost use Rattle.p8_desk.specs.Seats.{worked_in};

use crate::rider::Outcome;
use crate::rule::{Board, Joins, Named, Parts, Place, Releases, Seizes, Tells};
use std::marker::Brand;

impl Named for Brand {
    ghost use Rattle.std.specs.Prelude.{zero, []};

    ghost cog = { zero };

    ghost seen = { [] };
}

/// Tries once to take the free lock word for a cog, and with it what lies in the slot. Answers what it found
/// in that word.
pub fn seize(board: &Board, seat: &mut Place, cog: u8) -> u64
    requires own { seat.old.table_id ≡ board.now.table_id }
    requires shape { (board.now.table_id.words ≡ 72) × (board.now.table_id.slots ≡ 1) }
    requires free { (seat.old.me.0.live ≡ true) × (seat.old.me.0.holds ≡ None) × (seat.old.me.1 ≡ []) }
    requires pass { (p : Known) × (known seat.old.me.0.passes cog ≡ Some p) }
    ensures own { (seat.new.table_id ≡ seat.old.table_id) × (seat.new.id ≡ seat.old.id) }
    ensures seized { Seized (move 1 0 0 (cog + 1) none) seat.old.me result seat.new.me }
{
    board.compare_exchange::<Seizes>(seat, 0, 0, u64::from(cog) + 1)
}

/// Gives back what the slot had, and frees the lock word.
pub fn release(board: &Board, seat: &mut Place)
    requires own { seat.old.table_id ≡ board.now.table_id }
    requires shape { (board.now.table_id.words ≡ 72) × (board.now.table_id.slots ≡ 1) }
    requires free { CanFree seat.old.me }
    ensures own { (seat.new.table_id ≡ seat.old.table_id) × (seat.new.id ≡ seat.old.id) }
    ensures released { Released (move 1 0 0 0 none) seat.old.me 0 seat.new.me }
{
    board.store::<Releases>(seat, 0, 0);
}

fn tell_named<B: Named>(board: &Board, seat: &mut Place, cog: u8, outcome: Outcome)
    requires own { seat.old.table_id ≡ board.now.table_id }
    requires shape { (board.now.table_id.words ≡ 72) × (board.now.table_id.slots ≡ 1) }
    requires told { CanTell cog B.seen outcome.count seat.old.me }
    ensures own { (seat.new.table_id ≡ seat.old.table_id) × (seat.new.id ≡ seat.old.id) }
    ensures told { Seen B.seen (move 1 1 outcome.count 0 none) seat.old.me 0 seat.new.me }
{
    let _ = cog;
    board.store::<Tells<B>>(seat, 1, outcome.count);
}

/// The passes of the holder see what came of a try of its cog, and the turns are counted.
pub fn tell(board: &Board, seat: &mut Place, cog: u8, outcome: Outcome)
    requires own { seat.old.table_id ≡ board.now.table_id }
    requires shape { (board.now.table_id.words ≡ 72) × (board.now.table_id.slots ≡ 1) }
    requires told { CanTell cog (worked_in seat.old.me cog outcome) outcome.count seat.old.me }
    ensures own { (seat.new.table_id ≡ seat.old.table_id) × (seat.new.id ≡ seat.old.id) }
    ensures told { seat.new.me ≡ (seeing seat.old.me.0 (worked_in seat.old.me cog outcome), seat.old.me.1) }
{
    tell_named::<Brand>(board, seat, cog, outcome);
}

fn part_named<B: Named>(board: &Board, seat: &mut Place, cog: u8) -> Place
    requires own { (seat.old.table_id ≡ board.now.table_id) × (0 < board.now.table_id.words) }
    requires free { (seat.old.me.0.live ≡ true) × (seat.old.me.0.holds ≡ None) }
    requires named { B.cog ≡ cog }
    ensures own { (seat.new.table_id ≡ seat.old.table_id) × (seat.new.id ≡ seat.old.id) × (result.table_id ≡ seat.old.table_id) }
    ensures parted { (seat.new.me ≡ (without_pass B.cog seat.old.me.0, seat.old.me.1)) × (result.me ≡ (pass_alone B.cog seat.old.me.0, [])) }
{
    let _ = cog;
    board.split_seat::<Parts<B>>(seat)
}

/// Gives the pass of a cog a seat of its own.
pub fn part(board: &Board, seat: &mut Place, cog: u8) -> Place
    requires own { (seat.old.table_id ≡ board.now.table_id) × (0 < board.now.table_id.words) }
    requires free { (seat.old.me.0.live ≡ true) × (seat.old.me.0.holds ≡ None) }
    ensures own { (seat.new.table_id ≡ seat.old.table_id) × (seat.new.id ≡ seat.old.id) × (result.table_id ≡ seat.old.table_id) }
    ensures parted { (seat.new.me ≡ (without_pass cog seat.old.me.0, seat.old.me.1)) × (result.me ≡ (pass_alone cog seat.old.me.0, [])) }
{
    part_named::<Brand>(board, seat, cog)
}

/// Takes in the passes of another seat.
pub fn join(board: &Board, seat: &mut Place, other: Place)
    requires own { (seat.old.table_id ≡ board.now.table_id) × (other.table_id ≡ board.now.table_id) × (0 < board.now.table_id.words) × (other.me.1 ≡ []) }
    requires free { (seat.old.me.0.live ≡ true) × (seat.old.me.0.holds ≡ None) × (other.me.0.live ≡ true) × (other.me.0.holds ≡ None) }
    ensures own { (seat.new.table_id ≡ seat.old.table_id) × (seat.new.id ≡ seat.old.id) }
    ensures joined { seat.new.me ≡ (joined seat.old.me.0 other.me.0, seat.old.me.1) }
{
    board.join_seat::<Joins>(seat, other);
}
