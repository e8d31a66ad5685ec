// The lines below the pins of a picture: ticks, and the clocks and the times at them.
ghost use Rattle.std.specs.Prelude.{◌≡◌, ◌<◌, ◌++◌, nat_lt, length, OnOk};
ghost use Rattle.std.specs.List.{list_any};
ghost use Rattle.p8_wave.specs.Axes.{axis_by, axis_line, scale_of, step_of, text_at, tick_line, time_line, IsTold};

use crate::appending::push_spaces;
use crate::axes::{Axis, TimeUnit};
use crate::grid::Column;
use p8_instr::push_text;
use p8_words::NoMemory;

/// How many columns a terminal has before the first column of a picture.
const LABEL: usize = 4;

/// Appends the line with a tick at each tenth column.
fn push_ticks(out: &mut Vec<u8>, columns: &[Column]) -> Result<(), NoMemory>
    ensures { OnOk result (out.new.items ≡ out.old.items ++ tick_line columns.now) }
{
    let mut before = LABEL;
    for column in columns {
        if column.number % 10 == 0 {
            push_spaces(out, before)?;
            push_text(out, b"|")?;
            before = 9;
        }
    }
    push_text(out, b"\n")
}

/// Whether what an axis tells of a column has more than nine characters.
fn is_long(axis: Axis, columns: &[Column]) -> bool
    requires { IsTold axis }
    ensures { result ≡ list_any (λ column. nat_lt 9 (length (text_at axis column.first))) columns.now }
{
    for column in columns {
        if axis.length_at(column.first) > 9 {
            return true;
        }
    }
    false
}

/// How many columns there are for what an axis tells.
fn step(axis: Axis, columns: &[Column]) -> usize
    requires { IsTold axis }
    ensures step { result ≡ step_of axis columns.now }
    ensures some { 0 < result }
{
    if is_long(axis, columns) { 20 } else { 10 }
}

/// Appends what an axis tells of every column of so many, and before it what its line begins with.
fn push_texts(
    out: &mut Vec<u8>,
    axis: Axis,
    columns: &[Column],
    step: usize,
) -> Result<(), NoMemory>
    requires told { IsTold axis }
    requires step { 0 < step }
    ensures { OnOk result (out.new.items ≡ out.old.items ++ axis_by step axis columns.now) }
{
    push_text(out, axis.label())?;
    let mut before = 0;
    for column in columns {
        if column.number % step as u64 == 0 {
            push_spaces(out, before)?;
            axis.push_at(out, column.first)?;
            before = step.saturating_sub(axis.length_at(column.first));
        }
    }
    push_text(out, b"\n")
}

/// Appends the line of an axis.
fn push_axis(out: &mut Vec<u8>, axis: Axis, columns: &[Column]) -> Result<(), NoMemory>
    requires { IsTold axis }
    ensures { OnOk result (out.new.items ≡ out.old.items ++ axis_line axis columns.now) }
{
    push_texts(out, axis, columns, step(axis, columns))
}

/// Appends the line of the times, where a frequency is told.
fn push_times(
    out: &mut Vec<u8>,
    columns: &[Column],
    frequency: u32,
    shown: u64,
) -> Result<(), NoMemory>
    ensures { OnOk result (out.new.items ≡ out.old.items ++ time_line frequency shown columns.now) }
{
    if frequency == 0 {
        return Ok(());
    }
    let unit = TimeUnit::for_shown(frequency, shown);
    push_axis(out, Axis::Times { frequency, unit }, columns)
}

/// Appends all of them below columns for so many clocks, of a frequency in Hz that is 0 where none is told.
pub fn push_scale(
    out: &mut Vec<u8>,
    columns: &[Column],
    frequency: u32,
    shown: u64,
) -> Result<(), NoMemory>
    ensures { OnOk result (out.new.items ≡ out.old.items ++ scale_of frequency shown columns.now) }
{
    if columns.is_empty() {
        return Ok(());
    }
    push_ticks(out, columns)?;
    push_axis(out, Axis::Clocks, columns)?;
    push_times(out, columns, frequency, shown)
}
