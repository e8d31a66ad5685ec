// A cursor along the changes of a run's pins.
ghost use Rattle.std.specs.Prelude.{◌≡◌, ◌<◌, ◌≤◌, ◌∷◌, ℕ, List, [], MatchOption, IfSome, IfNone};
ghost use Rattle.p8_pins.specs.Levels.{is_high};
ghost use Rattle.p8_pins.specs.LevelChanges.{line_of, lines_of, pins_from, HasPassed, IsLater};

use crate::change::Change;
use std::marker::Model;

/// The pins at some clock, and the changes that come later. It goes forward only.

#[derive(Drop)]
pub struct Cursor<'a> {
    pins: u32,
    changes: &'a [Change],
}

impl<'a> Model for Cursor<'a> {
    ghost use Rattle.p8_pins.specs.LevelChanges.{Ahead, lines_of};

    ghost Value = { Ahead };

    ghost view = { λ c. record { pins = c.pins; changes = lines_of c.changes.now } };
}

impl<'a> Cursor<'a> {
    /// A cursor before the first of these changes, where all pins are low.
    pub fn new(changes: &'a [Change]) -> Cursor<'a>
        ensures pins { result.pins ≡ 0 }
        ensures changes { result.changes ≡ lines_of changes.now }
    {
        Cursor { pins: 0, changes }
    }

    /// Whether a pin is high where the cursor is.
    pub fn is_high(&self, pin: u8) -> bool
        requires { pin < 32 }
        ensures { result ≡ is_high pin self.now.pins }
    {
        (self.pins >> pin) % 2 == 1
    }

    /// Goes past the next change and gives it; None exactly where there is none.
    pub fn next(&mut self) -> Option<Change>
        ensures passed { MatchOption result (self.old.changes ≡ []) (λ change. self.old.changes ≡ line_of change ∷ self.new.changes) }
        ensures pins { IfSome result (λ change. self.new.pins ≡ change.pins) }
        ensures stays { IfNone result (self.new ≡ self.old) }
    {
        match self.changes.split_first() {
            None => None,
            Some((change, rest)) => {
                self.pins = change.pins;
                self.changes = rest;
                Some(*change)
            }
        }
    }

    /// Goes to a clock, past all changes that aren't later.
    pub fn go_to(&mut self, clock: u64)
        ensures passed { HasPassed clock self.old self.new }
        ensures later { IsLater clock self.new.changes }
        ensures pins { self.new.pins ≡ pins_from self.old clock }
    {
        while let Some((change, rest)) = self.changes.split_first() {
            if clock < change.clock {
                return;
            }
            self.pins = change.pins;
            self.changes = rest;
        }
    }
}
