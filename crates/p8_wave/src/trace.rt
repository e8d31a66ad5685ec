// A pin along the changes of a run.
ghost use Rattle.std.specs.Prelude.{◌≡◌, ◌<◌, ◌≤◌, ℕ, Bool};
ghost use Rattle.p8_pins.specs.Levels.{is_high};
ghost use Rattle.p8_pins.specs.LevelChanges.{lines_of, HasPassed, IsLater};
ghost use Rattle.p8_wave.specs.Plot.{mark_of};
ghost use Rattle.p8_wave.specs.Tracing.{same, stays, IsFrom};

use crate::grid::Column;
use crate::pin_level::PinLevel;
use p8_pins::Change;
use std::marker::Model;

/// Whether the bit of a pin is set, of 32.
#[tactic(auto, unfolding(p8_pins::specs::Levels::is_high))]
pub fn is_set(pins: u32, pin: u8) -> bool
    requires { pin < 32 }
    ensures { result ≡ is_high pin pins }
{
    (pins >> pin) % 2 == 1
}

/// Whether two levels are the same.
fn same_level(one: bool, other: bool) -> bool
    ensures { result ≡ same one other }
{
    one == other
}

/// The pins at some clock, and the changes that come later. It goes forward only.
#[derive(Drop)]
pub struct Trace<'a> {
    pins: u32,
    changes: &'a [Change],
}

impl<'a> Model for Trace<'a> {
    ghost use Rattle.p8_pins.specs.LevelChanges.{Ahead, lines_of};

    ghost Value = { Ahead };

    ghost view = { λ t. record { pins = t.pins; changes = lines_of t.changes.now } };
}

impl<'a> Trace<'a> {
    /// Before the first of these changes, where all pins are low.
    pub fn new(changes: &'a [Change]) -> Trace<'a>
        ensures pins { result.pins ≡ 0 }
        ensures changes { result.changes ≡ lines_of changes.now }
    {
        Trace { pins: 0, changes }
    }

    /// Whether a pin is high there.
    fn is_high(&self, pin: u8) -> bool
        requires { pin < 32 }
        ensures { result ≡ is_high pin self.now.pins }
    {
        is_set(self.pins, pin)
    }

    /// Goes past all changes that aren't later than a clock. Whether the pin stays as it was.
    fn pass(&mut self, pin: u8, clock: u64) -> bool
        requires { pin < 32 }
        ensures stays { result ≡ stays pin (is_high pin self.old.pins) clock self.old.changes }
        ensures passed { HasPassed clock self.old self.new }
        ensures later { IsLater clock self.new.changes }
    {
        let high = self.is_high(pin);
        let mut stayed = true;
        while let Some((change, rest)) = self.changes.split_first() {
            if clock < change.clock {
                return stayed;
            }
            stayed &= same_level(high, is_set(change.pins, pin));
            self.pins = change.pins;
            self.changes = rest;
        }
        stayed
    }

    /// What the pin shows in a column, to whose last clock the trace goes.
    pub fn mark(&mut self, pin: u8, column: &Column) -> PinLevel
        requires pin { pin < 32 }
        requires clocks { column.now.first < column.now.end }
        ensures mark { (whole : ℕ → Bool) (from : ℕ) → from ≤ column.now.first → IsFrom whole pin from self.old → result ≡ mark_of whole column.now }
        ensures goes_on { (whole : ℕ → Bool) (from : ℕ) → from ≤ column.now.first → IsFrom whole pin from self.old → IsFrom whole pin column.now.end self.new }
    {
        self.pass(pin, column.first);
        let high = self.is_high(pin);
        if !self.pass(pin, column.end - 1) {
            return PinLevel::Changing;
        }
        if high { PinLevel::High } else { PinLevel::Low }
    }
}
