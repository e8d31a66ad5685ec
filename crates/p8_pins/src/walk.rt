// A walk along a run, from one clock at which the pins may change to the next.
ghost use Rattle.std.specs.Prelude.{◌≡◌, ◌<◌, ◌≤◌, ◌+◌, ℕ, List, reverse, Some, None, MatchOption};
ghost use Rattle.p8_access.specs.declared.order.Turn.{Turn as TurnValue};
ghost use Rattle.p8_access.specs.Worlds.{Line};
ghost use Rattle.p8_pins.specs.Driving.{ComeFrom, StandFor};
ghost use Rattle.p8_pins.specs.Walks.{IsAt, pins_along, IsStill, earlier_of};

use crate::pin_script::PinScript;
use crate::registers::{Registers, touches};
use crate::spans::Span;
use p8_access::Turn;

/// Where a walk is: the turns to come, the registers as those before have left them, and the script's span.
#[derive(Drop)]
pub struct Walk<'a> {
    pub script: &'a PinScript,
    pub turns: &'a [Turn],
    pub registers: Registers,
    pub span: Span,
}

/// The turns from the first on that may change a register.
fn from_first_touch<'a>(turns: &'a [Turn]) -> &'a [Turn]
    ensures stands { (past : List TurnValue) (clock : ℕ) (registers : Registers) → StandFor past clock registers turns.now →
        StandFor past clock registers result.now }
    ensures come { (clock : ℕ) → ComeFrom clock turns.now → ComeFrom clock result.now }
{
    let mut rest = turns;
    while let Some((turn, after)) = rest.split_first() {
        if touches(turn) {
            return rest;
        }
        rest = after;
    }
    rest
}

/// Takes the turns that aren't later than a clock, and gives back those to come.
fn take_by<'a>(registers: &mut Registers, turns: &'a [Turn], clock: u64) -> &'a [Turn]
    ensures stands { (past : List TurnValue) (from : ℕ) → from ≤ clock → StandFor past from registers.old turns.now →
        StandFor past clock registers.new result.now }
    ensures come { (from : ℕ) → ComeFrom from turns.now → ComeFrom (clock + 1) result.now }
{
    let mut rest = turns;
    while let Some((turn, after)) = rest.split_first() {
        if clock < turn.key.clock {
            return rest;
        }
        registers.take(turn);
        rest = after;
    }
    rest
}

/// The earlier of two clocks, where there is one.
fn earlier(one: Option<u64>, turns: &[Turn]) -> Option<u64>
    ensures { result ≡ earlier_of one turns.now }
{
    match (one, turns.first()) {
        (Some(line), Some(turn)) => Some(line.min(turn.key.clock)),
        (line, None) => line,
        (None, Some(turn)) => Some(turn.key.clock),
    }
}

impl<'a> Walk<'a> {
    /// A walk at clock 0.
    pub fn open(script: &'a PinScript, turns: &'a [Turn]) -> Walk<'a>
        ensures script { result.script.now ≡ script.now }
        ensures at { ComeFrom 0 turns.now → IsAt script.now (reverse turns.now) 0 result }
    {
        let mut registers = Registers::open();
        let to_come = take_by(&mut registers, turns, 0);
        Walk {
            script,
            turns: to_come,
            registers,
            span: script.span_at(0),
        }
    }

    /// The pins at the clock of the walk.
    pub fn pins(&self) -> u32
        ensures { (script : List Line) (past : List TurnValue) (clock : ℕ) → IsAt script past clock self.now → result ≡ pins_along script past clock }
    {
        self.registers.pins(self.span.levels)
    }

    /// Goes to the next clock at which the pins may change, if there is one.
    pub fn next(&mut self) -> Option<u64>
        ensures script { self.new.script.now ≡ self.old.script.now }
        ensures at { (script : List Line) (past : List TurnValue) (clock : ℕ) → self.old.script.now ≡ script → IsAt script past clock self.old →
            MatchOption result (IsStill script past clock None)
            (λ next. (clock < next) × IsAt script past next self.new × IsStill script past clock (Some next)) }
    {
        let turns = from_first_touch(self.turns);
        match earlier(self.span.end, turns) {
            None => None,
            Some(clock) => {
                self.turns = take_by(&mut self.registers, turns, clock);
                self.span = self.script.span_near(&self.span, clock);
                Some(clock)
            }
        }
    }
}
