// How far a walk along a history has come.
ghost use Rattle.std.specs.Prelude.{◌≡◌, ◌<◌, ◌≤◌, [], ℕ, List, drop, IfSome};
ghost use Rattle.p8_access.specs.declared.order.Turn.{Turn};
ghost use Rattle.p8_access.specs.Worlds.{World, level_at as level_of};
ghost use Rattle.p8_access.specs.Histories.{Rises};
ghost use Rattle.p8_access.specs.Pins.{pins_with, dira as directions_after, outputs as outputs_after};
ghost use Rattle.p8_pins.specs.Matches.{IsBefore};
ghost use Rattle.p8_wave.specs.Following.{AreSignals};
ghost use Rattle.p8_wave.specs.Walks.{IsAt, IsLater, taken_by, left_by};

use crate::signals::Signals;
use crate::snapshot::Snapshot;
use p8_access::Turn;
use p8_pins::{PinScript, Span};

/// What is known at a clock of a walk: the signals after the turns up to it, and the span of the script.
#[derive(Drop)]
pub struct Course {
    pub signals: Signals,
    pub span: Span,
}

/// The turns after the first.
fn after_first(turns: &[Turn]) -> &[Turn]
    ensures { result.now ≡ drop 1 turns.now }
{
    match turns {
        [_, rest @ ..] => rest,
        [] => turns,
    }
}

/// Takes the turns up to a clock, and answers those that are left.
pub fn take_turns<'a>(signals: &mut Signals, turns: &'a [Turn], clock: u64) -> &'a [Turn]
    ensures left { result.now ≡ left_by clock turns.now }
    ensures signals { (w : World) (past : List Turn) → AreSignals w past signals.old → AreSignals w (taken_by clock turns.now past) signals.new }
{
    let mut left = turns;
    while let [turn, ..] = left {
        if turn.key.clock > clock {
            return left;
        }
        signals.record_turn(turn);
        left = after_first(left);
    }
    left
}

/// The clock of the next turn or line of the script, where one comes before the end, else the end.
pub fn next_clock(turns: &[Turn], line: Option<u64>, end: u64) -> u64
    ensures within { result ≤ end }
    ensures quiet { (u : ℕ) → u < result → IsLater u turns.now × IsBefore u line }
    ensures later { (u : ℕ) → u < end → IsLater u turns.now → IsBefore u line → u < result }
{
    let turn = match turns {
        [turn, ..] => end.min(turn.key.clock),
        [] => end,
    };
    match line {
        Some(line) => turn.min(line),
        None => turn,
    }
}

impl Course {
    /// At clock 0, before its turns.
    pub fn open(script: &PinScript) -> Course
        ensures signals { (w : World) → AreSignals w [] result.signals }
        ensures levels { (u : ℕ) → IsBefore u result.span.end → level_of script.now u ≡ result.span.levels }
        ensures later { IfSome result.span.end (λ end. 0 < end) }
    {
        Course {
            signals: Signals::open(),
            span: script.span_at(0),
        }
    }

    /// Goes on to a clock, and answers the turns that are left.
    pub fn go<'a>(&mut self, turns: &'a [Turn], script: &PinScript, clock: u64) -> &'a [Turn]
        ensures at { (w : World) (past : List Turn) (before : ℕ)
            → w.script ≡ script.now
            → Rises past
            → before ≤ clock
            → IsAt w past before turns.now self.old
            → IsAt w past clock result.now self.new }
        ensures turn { IsLater clock result.now }
        ensures line { IsBefore clock self.new.span.end }
    {
        let left = take_turns(&mut self.signals, turns, clock);
        self.span = script.span_near(&self.span, clock);
        left
    }

    /// The values of all variables.
    pub fn snapshot(&self) -> Snapshot
        ensures signals { result.signals ≡ self.now.signals }
        ensures pins { (w : World) (past : List Turn) → AreSignals w past self.now.signals →
            result.pins ≡ pins_with (directions_after past) (outputs_after past) self.now.span.levels }
    {
        Snapshot {
            signals: self.signals,
            pins: self.signals.pins(self.span.levels),
        }
    }
}
