// The memory of a run: one region, cut into the log of its turns and the operand stacks of its cogs.
ghost use Rattle.std.specs.Prelude.{◌≡◌, ◌≤◌, ◌+◌, ◌*◌, [], IfOk};
ghost use Rattle.p8_region.specs.Bounded.{bounded};

use p8_access::Turn;
use p8_bcog::STACK_LONGS;
use p8_region::{Region, Strip, words_of};
use p8_words::NoMemory;
use std::alloc::Global;
use std::mem::size_of;

// The greatest log, of 1,000,000 turns, takes at most 64 MB.
const _: () = prove!(size_of::<Turn>() <= 64);

/// What a run keeps its turns in, and what the operand stacks of its cogs are cut from.
#[derive(Drop)]
pub struct Room {
    pub log: Strip<Turn>,
    pub stacks: Region,
}

impl Room {
    /// A region of just the size of a run's strips, so that no cut is refused, and the log as its first strip. What no
    /// turn fills is never touched.
    pub fn new(alloc: Global, turns: usize) -> Result<Room, NoMemory>
        requires { turns ≤ 1000000 }
        ensures log { IfOk result (λ room. room.log ≡ bounded [] turns) }
        ensures stacks { IfOk result (λ room. room.stacks ≡ 8 * 16384) }
    {
        let words = words_of::<Turn>(turns) + 8 * words_of::<u32>(STACK_LONGS);
        let mut stacks = Region::new(alloc, words)?;
        match stacks.cut(turns) {
            Ok(log) => Ok(Room { log, stacks }),
            Err(_) => unreachable!(),
        }
    }
}

/// An operand stack, cut from what is left of a region.
pub fn stack_in(region: &mut Region) -> Strip<u32>
    requires { 16384 ≤ region.old }
    ensures stack { result ≡ bounded [] 16384 }
    ensures left { region.new + 16384 ≡ region.old }
{
    match region.cut(STACK_LONGS) {
        Ok(stack) => stack,
        Err(_) => unreachable!(),
    }
}
