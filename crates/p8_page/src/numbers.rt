// The clocks, windows and pins of a page, a line each.
ghost use Rattle.std.specs.Prelude.{◌≡◌, ◌<◌, ◌≤◌, ◌^◌, ◌++◌, flat_map, OnOk};
ghost use Rattle.std.specs.List.{range_with_len};
ghost use Rattle.p8_access.specs.Windows.{window_of};
ghost use Rattle.p8_pins.specs.LevelChanges.{line_of, lines_of};
ghost use Rattle.p8_page.specs.Kept.{kept};
ghost use Rattle.p8_page.specs.Page.{number_line, pins_line, range_text, windows_text};

use itoa::Buffer;
use p8_access::window;
use p8_instr::{long_digits, push_text};
use p8_pins::Change;
use p8_words::NoMemory;

/// Appends a number on a line.
fn push_number(out: &mut Vec<u8>, number: u64) -> Result<(), NoMemory>
    ensures { OnOk result (out.new.items ≡ out.old.items ++ number_line number) }
{
    push_text(out, Buffer::new().format(number).as_bytes())?;
    push_text(out, b"\n")
}

/// Appends the first clock that is shown, and the one behind the last.
pub fn push_range(out: &mut Vec<u8>, from: u64, to: u64) -> Result<(), NoMemory>
    ensures { OnOk result (out.new.items ≡ out.old.items ++ range_text from to) }
{
    push_number(out, from)?;
    push_number(out, to)
}

/// Appends of each cog the first clock from this one on at which the hub serves it.
pub fn push_windows(out: &mut Vec<u8>, from: u64) -> Result<(), NoMemory>
    requires { from < 2 ^ 62 }
    ensures { OnOk result (out.new.items ≡ out.old.items ++ windows_text from) }
{
    for cog in 0..8 {
        push_number(out, window(cog, from))?;
    }
    Ok(())
}

/// Appends a clock, and the pins from it on.
fn push_change(out: &mut Vec<u8>, change: Change) -> Result<(), NoMemory>
    ensures { OnOk result (out.new.items ≡ out.old.items ++ pins_line (line_of change)) }
{
    push_text(out, Buffer::new().format(change.clock).as_bytes())?;
    push_text(out, b" ")?;
    push_text(out, &long_digits(change.pins))?;
    push_text(out, b"\n")
}

/// Appends the changes of the pins before a clock, without those by which no pin changes.
pub fn push_changes(out: &mut Vec<u8>, changes: &[Change], end: u64) -> Result<(), NoMemory>
    ensures { OnOk result (out.new.items ≡ out.old.items ++ flat_map pins_line (kept 0 end (lines_of changes.now))) }
{
    let mut pins = 0;
    for change in changes {
        if change.clock < end && change.pins != pins {
            push_change(out, *change)?;
        }
        pins = change.pins;
    }
    Ok(())
}
