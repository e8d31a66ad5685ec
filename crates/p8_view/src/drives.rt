// How a turn changes the pins.
ghost use Rattle.std.specs.Prelude.{◌≡◌, ◌<◌, ◌++◌, OnOk};
ghost use Rattle.p8_pins.specs.Levels.{is_high};
ghost use Rattle.p8_view.specs.View.{same_drives};
ghost use Rattle.p8_view.specs.Drives.{pin_changes, pin_text, pin_word as word_of_pin, pins_text};

use p8_instr::push_text;
use p8_report::push_numbered;
use p8_words::NoMemory;

/// What the cogs do to the 32 pins, bit n for pin n.
#[derive(Clone, Copy, Debug, PartialEq, Eq)]
pub struct Drives {
    /// The pins that some cog makes outputs.
    pub directions: u32,
    /// The outputs that some cog with that direction makes high.
    pub high: u32,
}

/// Whether a pin is high in a word.
#[tactic(auto, unfolding(p8_pins::specs::Levels::is_high))]
fn is_high(pin: u8, word: u32) -> bool
    requires { pin < 32 }
    ensures { result ≡ is_high pin word }
{
    (word >> pin) % 2 == 1
}

/// Whether the pins are the same.
pub(crate) fn are_same(a: &Drives, b: &Drives) -> bool
    ensures { result ≡ same_drives a.now b.now }
{
    a.directions == b.directions && a.high == b.high
}

impl Drives {
    /// Whether a pin is another one then.
    fn changes(&self, after: &Drives, pin: u8) -> bool
        requires { pin < 32 }
        ensures { result ≡ pin_changes self.now after.now pin }
    {
        is_high(pin, self.directions) != is_high(pin, after.directions)
            || is_high(pin, self.high) != is_high(pin, after.high)
    }

    /// The word for what a pin is.
    fn pin_word(&self, pin: u8) -> &'static [u8]
        requires { pin < 32 }
        ensures { result.now ≡ word_of_pin self.now pin }
    {
        if !is_high(pin, self.directions) {
            b" input"
        } else if is_high(pin, self.high) {
            b" high"
        } else {
            b" low"
        }
    }
}

/// Appends a pin, where it changes.
fn push_pin(out: &mut Vec<u8>, before: &Drives, after: &Drives, pin: u8) -> Result<(), NoMemory>
    requires { pin < 32 }
    ensures { OnOk result (out.new.items ≡ out.old.items ++ pin_text before.now after.now pin) }
{
    if !before.changes(after, pin) {
        return Ok(());
    }
    push_numbered(out, b", ", u64::from(pin))?;
    push_text(out, after.pin_word(pin))
}

/// Appends the pins that change, with what they are then. Most turns change none.
pub(crate) fn push_pins(out: &mut Vec<u8>, before: &Drives, after: &Drives) -> Result<(), NoMemory>
    ensures { OnOk result (out.new.items ≡ out.old.items ++ pins_text before.now after.now) }
{
    if are_same(before, after) {
        Ok(())
    } else {
        push_each(out, before, after)
    }
}

/// Asks each of the 32 pins whether it changes, and appends those that do.
fn push_each(out: &mut Vec<u8>, before: &Drives, after: &Drives) -> Result<(), NoMemory>
    ensures { OnOk result (out.new.items ≡ out.old.items ++ pins_text before.now after.now) }
{
    for pin in 0..32 {
        push_pin(out, before, after, pin)?;
    }
    Ok(())
}
