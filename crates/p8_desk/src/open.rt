// A desk before its first turn.
ghost use Rattle.std.specs.Prelude.{◌≡◌, ◌≤◌, ◌<◌, ◌*◌, [], ◌∷◌, Some, IfOk};
ghost use Rattle.p8_access.specs.Proper.{IsProperOrigin};
ghost use Rattle.p8_ledger.specs.Worlds.{world_of};
ghost use Rattle.p8_ledger.specs.declared.start.Start.{Start};
ghost use Rattle.p8_ledger.specs.Ledgers.{Found};
ghost use Rattle.p8_desk.specs.PassSets.{fresh, new_places};
ghost use Rattle.p8_desk.specs.Rules.{first_view, world_in, with_passes, new_pass};
ghost use Rattle.p8_desk.specs.Runners.{Rides};

use crate::bells::WORDS;
use crate::desk::Desk;
use crate::pass::CogPass;
use crate::passes::Passes;
use crate::rider::Rider;
use crate::rule::{Board, Place, Tabletop};
use crate::runner::Runner;
use crate::steps::part;
use atomic_table::Table;
use p8_access::Ram;
use p8_ledger::{Ledger, Room, Start, stack_in};
use p8_region::Region;
use p8_words::NoMemory;
use std::alloc::Global;

/// A table with this ledger in its slot, and the seat that has the passes of all cogs.
fn lay(alloc: Global, start: &Start, ledger: Ledger) -> Result<(Tabletop, Place), NoMemory>
    requires { Found (world_in start.now) ledger [] }
    ensures key { IfOk result (λ t. t.0.shared.key ≡ start.now) }
    ensures shape { IfOk result (λ t. (t.0.shared.table_id.words ≡ 72) × (t.0.shared.table_id.slots ≡ 1)) }
    ensures seat { IfOk result (λ t. (t.1.table_id ≡ t.0.shared.table_id) × (t.1.me ≡ (first_view start.now, []))) }
{
    let mut slots = Vec::new(alloc);
    match slots.push(Some(ledger)) {
        Ok(()) => {}
        Err(_) => return Err(NoMemory),
    }
    match Table::new(alloc, &[0; WORDS], slots, start) {
        Ok(laid) => Ok(laid),
        Err(_) => Err(NoMemory),
    }
}

/// The pass of a cog in which nothing has begun.
fn new_place(seat: Place, runner: Runner, cog: u8) -> Option<CogPass>
    requires seat { (start : Start) × (seat.me ≡ (with_passes (first_view start) (new_pass cog ∷ []), [])) × Rides (world_in start) cog [] runner }
    requires cog { cog < 8 }
    ensures { (start : Start) → seat.me ≡ (with_passes (first_view start) (new_pass cog ∷ []), []) → result ≡ Some (fresh (world_in start) seat.table_id cog) }
{
    let rider = Rider {
        cog,
        runner,
        made: 0,
        over: false,
    };
    let count = 0;
    Some(CogPass { seat, rider, count })
}

/// The passes of all cogs, each with a seat of its own. Their operand stacks are cut from the region.
fn new_passes(
    alloc: Global,
    board: &Board,
    seat: Place,
    memory: &Ram,
    stacks: Region,
) -> Result<Passes, NoMemory>
    requires own { (seat.table_id ≡ board.now.table_id) × (0 < board.now.table_id.words) }
    requires seat { (start : Start) × (seat.me ≡ (first_view start, [])) }
    requires room { 8 * 16384 ≤ stacks }
    ensures { (start : Start) → seat.me ≡ (first_view start, []) → IfOk result (λ passes. passes ≡ new_places (world_in start) board.now.table_id 8) }
{
    let mut seat = seat;
    let mut stacks = stacks;
    let mut places = Vec::with_capacity(alloc, 8)?;
    for cog in 0..8u8 {
        let stack = stack_in(&mut stacks);
        let runner = Runner::new(alloc, memory, stack, cog)?;
        let own = part(board, &mut seat, cog);
        match places.push(new_place(own, runner, cog)) {
            Ok(()) => {}
            Err(_) => return Err(NoMemory),
        }
    }
    Ok(Passes { places })
}

impl Desk {
    /// A desk and the passes of its eight cogs, before the first turn. All memory of the run is taken here, the log of
    /// `limits.turns` turns and the operand stacks of Spin in one region.
    pub fn open(alloc: Global, start: Start) -> Result<(Desk, Passes), NoMemory>
        requires clocks { start.limits.clocks ≤ 4000000000 }
        requires turns { start.limits.turns ≤ 1000000 }
        requires first { IsProperOrigin start.boot.first }
        ensures world { IfOk result (λ opened. opened.0.world ≡ world_of start.boot start.script start.limits) }
        ensures passes { IfOk result (λ opened. opened.1 ≡ new_places opened.0.world opened.0.table 8) }
    {
        let room = Room::new(alloc, start.limits.turns as usize)?;
        let ledger = Ledger::open(alloc, &start, room.log)?;
        let (table, seat) = lay(alloc, &start, ledger)?;
        let passes = new_passes(alloc, &table.shared, seat, &start.boot.ram, room.stacks)?;
        Ok((Desk { table, start }, passes))
    }
}
