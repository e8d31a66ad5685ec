// What a run is bounded by, and what it gives.
ghost use Rattle.p8_ledger.specs.Turns.{AreProper, is_prop-AreProper};

use p8_access::{Boot, Turn};
use p8_hub::Hub;
use p8_region::Strip;

/// The limits of a run: no turn is made at the clock `clocks` or later, and at most `turns` are made.
/// `clocks` is at most 4,000,000,000 and `turns` at most 1,000,000 wherever a call takes them.
#[derive(Clone, Copy, Debug, PartialEq, Eq)]
pub struct Limits {
    pub clocks: u64,
    pub turns: u64,
}

/// The turns of a run, with what it began from.
#[derive(Drop)]
pub struct History {
    pub boot: Boot,
    pub limits: Limits,
    pub turns: Strip<Turn>,
    ghost proper: { AreProper turns.list } by { is_prop-AreProper turns.list },
}

/// A history that has ended, with the hub that it left, and how many took its turns: 1, or 8.
#[derive(Drop)]
pub struct Ended {
    pub history: History,
    pub hub: Hub,
    pub crew: u8,
}
