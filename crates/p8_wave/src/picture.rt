// The picture of pins of a run.
ghost use Rattle.std.specs.Prelude.{◌≡◌, ◌<◌, ◌++◌, ℕ, flat_map, reverse, IfOk, OnOk};
ghost use Rattle.p8_access.specs.Worlds.{level_at};
ghost use Rattle.p8_access.specs.Histories.{Rises};
ghost use Rattle.p8_ledger.specs.Worlds.{world_of};
ghost use Rattle.p8_pins.specs.Levels.{is_high};
ghost use Rattle.p8_pins.specs.LevelChanges.{lines_of, RiseFrom};
ghost use Rattle.p8_wave.specs.Plot.{label_of, mark_of, text_of_mark, picture_of, plot_of};
ghost use Rattle.p8_wave.specs.Tracing.{Follow, line_of_pin};

use crate::appending::push_decimal;
use crate::ending::push_end;
use crate::grid::{Column, columns};
use crate::plot_scale::push_scale;
use crate::scale::rate_of;
use crate::trace::{Trace, is_set};
use crate::view::View;
use p8_access::{Boot, Turn};
use p8_instr::push_text;
use p8_ledger::Limits;
use p8_pins::{Change, PinScript, pin_changes, run_end};
use p8_words::NoMemory;
use std::alloc::Global;

/// Appends the label of a pin.
fn push_label(out: &mut Vec<u8>, pin: u8) -> Result<(), NoMemory>
    ensures { OnOk result (out.new.items ≡ out.old.items ++ label_of pin) }
{
    push_text(out, b"P")?;
    push_decimal(out, u64::from(pin))?;
    push_text(out, if pin < 10 { b"  " } else { b" " })
}

/// Appends the marks of a pin along the changes, one for each column.
fn push_marks(
    out: &mut Vec<u8>,
    changes: &[Change],
    columns: &[Column],
    pin: u8,
    ascii: bool,
) -> Result<(), NoMemory>
    requires pin { pin < 32 }
    requires rise { RiseFrom 0 (lines_of changes.now) }
    requires follow { Follow 0 columns.now }
    ensures { OnOk result (out.new.items ≡ out.old.items ++
        flat_map (λ column. text_of_mark ascii (mark_of (λ t. is_high pin (level_at (lines_of changes.now) t)) column)) columns.now) }
{
    let mut trace = Trace::new(changes);
    for column in columns {
        let mark = trace.mark(pin, column);
        push_text(out, mark.text(ascii))?;
    }
    Ok(())
}

/// Appends the line of a pin where it is shown.
fn push_line(
    out: &mut Vec<u8>,
    changes: &[Change],
    columns: &[Column],
    pin: u8,
    view: &View,
) -> Result<(), NoMemory>
    requires pin { pin < 32 }
    requires rise { RiseFrom 0 (lines_of changes.now) }
    requires follow { Follow 0 columns.now }
    ensures { OnOk result (out.new.items ≡ out.old.items ++ line_of_pin (lines_of changes.now) view.now columns.now pin) }
{
    if !is_set(view.pins, pin) {
        return Ok(());
    }
    push_label(out, pin)?;
    push_marks(out, changes, columns, pin, view.ascii)?;
    push_text(out, b"\n")
}

/// The picture of a run with these changes of its pins, and of so many clocks of a frequency in Hz, which is 0 where none is told.
fn picture(
    alloc: Global,
    changes: &[Change],
    columns: &[Column],
    view: &View,
    frequency: u32,
    shown: u64,
) -> Result<Vec<u8>, NoMemory>
    requires rise { RiseFrom 0 (lines_of changes.now) }
    requires follow { Follow 0 columns.now }
    ensures { IfOk result (λ text. text.items ≡ picture_of
        (λ pin t. is_high pin (level_at (lines_of changes.now) t)) view.now.ascii columns.now view.now.pins frequency shown) }
{
    let mut out = Vec::new(alloc);
    for pin in 0..32 {
        push_line(&mut out, changes, columns, pin, view)?;
    }
    push_scale(&mut out, columns, frequency, shown)?;
    Ok(out)
}

/// The picture of some pins over the clocks of a run, as text for a terminal.
///
/// `turns` are the turns of a run, the oldest first, with rising keys, that began with `boot` and this pin script, within
/// these limits. The pins are shown from the lowest on. Shown are the clocks from the view's first one on that are before its
/// end and the run's, which is at its limit of clocks, or at the last turn's clock where it has as many turns as it may
/// have. There are at most as many columns as the view has, each for as few clocks as can be, and the last one for what is
/// left. A line has the label of a pin and a mark for each column: high or low where the pin is so at all clocks of the
/// column, else changing.
///
/// Below are a line with a tick at each tenth column, one with the clocks at which these columns begin, and, where the first
/// long of the boot's image tells a frequency, one with their times: in microseconds where less than 10 ms are shown, else
/// in milliseconds, rounded down to three digits after the point. In a line of clocks or times every second tick alone has
/// one where one that begins a column is longer than nine characters. Where no clock is shown there are the labels alone.
/// The last line tells how many turns were made, the last one's clock, and why there are no more.
///
/// The only error is want of memory.
pub fn plot(
    alloc: Global,
    boot: &Boot,
    script: &PinScript,
    turns: &[Turn],
    limits: Limits,
    view: &View,
) -> Result<Vec<u8>, NoMemory>
    requires { Rises (reverse turns.now) }
    ensures { IfOk result (λ text. text.items ≡ plot_of (world_of boot.now script.now limits) (reverse turns.now) view.now) }
{
    let changes = pin_changes(alloc, turns, script)?;
    let end = view.to.min(run_end(turns, limits.clocks, limits.turns));
    let columns = columns(alloc, view.columns, view.from, end)?;
    let shown = end.saturating_sub(view.from);
    let mut text = picture(
        alloc,
        changes.as_slice(),
        columns.as_slice(),
        view,
        rate_of(boot),
        shown,
    )?;
    push_end(&mut text, b"", turns, limits.turns, limits.clocks, b"\n")?;
    Ok(text)
}
