// The frames on a pin, along the changes of a run's pins.
ghost use Rattle.std.specs.Prelude.{◌≡◌, ◌<◌, ◌≤◌, ◌+◌, ◌*◌, ◌/◌, ◌^◌, ◌&&◌, ◌∷◌, ◌++◌, not, ℕ, Bool, List, [], length, MatchOption, IfOk, IfSome, OnOk};
ghost use Rattle.p8_access.specs.Worlds.{level_at};
ghost use Rattle.p8_pins.specs.Levels.{is_high};
ghost use Rattle.p8_pins.specs.LevelChanges.{lines_of, RiseFrom, HasPassed, IsLater};
ghost use Rattle.p8_serial.specs.Laws.{IsRate};
ghost use Rattle.p8_serial.specs.Serial.{stop_of, byte_at, frames, serial_by};
ghost use Rattle.p8_serial.specs.Receiving.{falls_in, level_in, IsPast, IsReceiving, IsNext, line_of_frame};

use crate::numbers::push_decimal;
use p8_instr::{byte_digits, push_text};
use p8_pins::{Change, Cursor};
use p8_words::NoMemory;
use std::alloc::Global;

/// A frame: the clock at which it begins, its byte, and whether its stop bit is high.
#[derive(Clone, Copy)]
pub struct Frame {
    pub start: u64,
    pub byte: u8,
    pub good: bool,
}

/// Whether a pin falls that was so before and is so now.
fn falls(before: bool, now: bool) -> bool
    ensures { result ≡ (before && not now) }
{
    before && !now
}

/// Goes past the next falling edge of a pin and gives its clock, or past all changes where there is none.
fn next_fall(cursor: &mut Cursor, pin: u8) -> Option<u64>
    requires { pin < 32 }
    ensures falls { MatchOption result (falls_in pin cursor.old ≡ []) (λ edge. falls_in pin cursor.old ≡ edge ∷ falls_in pin cursor.new) }
    ensures past { IfSome result (λ edge. (from : ℕ) → RiseFrom from cursor.old.changes → IsPast from edge cursor.old cursor.new) }
    ensures shorter { IfSome result (λ edge. length cursor.new.changes < length cursor.old.changes) }
{
    let mut high = cursor.is_high(pin);
    while let Some(change) = cursor.next() {
        let now = cursor.is_high(pin);
        if falls(high, now) {
            return Some(change.clock);
        }
        high = now;
    }
    None
}

/// Whether a pin is high at a clock, to which the cursor goes.
fn level(cursor: &mut Cursor, pin: u8, clock: u64) -> bool
    requires { pin < 32 }
    ensures level { result ≡ level_in pin cursor.old clock }
    ensures passed { HasPassed clock cursor.old cursor.new }
    ensures later { IsLater clock cursor.new.changes }
{
    cursor.go_to(clock);
    cursor.is_high(pin)
}

/// The byte of the frame that begins at a clock. The cursor goes to the middle of its last data bit.
fn receive_byte(cursor: &mut Cursor, pin: u8, bits: u32, start: u64) -> u8
    requires pin { pin < 32 }
    requires rate { IsRate bits }
    requires fits { stop_of bits start < 2 ^ 64 }
    ensures byte { result ≡ byte_at (level_in pin cursor.old) bits start }
    ensures passed { HasPassed (start + 8 * bits + bits / 2) cursor.old cursor.new }
{
    let first = start + u64::from(bits / 2);
    let mut byte = 0;
    for i in 0..8 {
        if level(cursor, pin, first + (i + 1) * u64::from(bits)) {
            byte += 1 << i;
        }
    }
    byte
}

/// Receives the next frame that counts: its stop bit is looked at before the end.
fn receive(cursor: &mut Cursor, pin: u8, bits: u32, end: u64) -> Option<Frame>
    requires pin { pin < 32 }
    requires rate { IsRate bits }
    ensures frame { (whole : ℕ → Bool) (after : ℕ) → IsReceiving whole pin after cursor.old →
        MatchOption result (frames bits end after (falls_in pin cursor.old) ≡ []) (λ frame. IsNext whole pin bits end after cursor.old frame cursor.new) }
    ensures shorter { IfSome result (λ frame. length cursor.new.changes < length cursor.old.changes) }
{
    match next_fall(cursor, pin) {
        None => None,
        Some(start) => {
            let reach = 9 * u64::from(bits) + u64::from(bits / 2);
            if end.saturating_sub(reach) <= start {
                return None;
            }
            let byte = receive_byte(cursor, pin, bits, start);
            let good = level(cursor, pin, start + reach);
            Some(Frame { start, byte, good })
        }
    }
}

/// Appends the line of a frame.
fn push_frame(out: &mut Vec<u8>, frame: &Frame) -> Result<(), NoMemory>
    ensures { OnOk result (out.new.items ≡ out.old.items ++ line_of_frame frame.now) }
{
    push_decimal(out, frame.start)?;
    push_text(out, b" ")?;
    if frame.good {
        push_text(out, &byte_digits(u32::from(frame.byte)))?;
    } else {
        push_text(out, b"framing")?;
    }
    push_text(out, b"\n")
}

/// The frames on a pin below an end, as text.
pub fn frames_text(
    alloc: Global,
    changes: &[Change],
    pin: u8,
    bits: u32,
    end: u64,
) -> Result<Vec<u8>, NoMemory>
    requires pin { pin < 32 }
    requires rate { IsRate bits }
    requires rise { RiseFrom 0 (lines_of changes.now) }
    ensures { IfOk result (λ text. text.items ≡ serial_by (λ t. is_high pin (level_at (lines_of changes.now) t)) bits end) }
{
    let mut out = Vec::new(alloc);
    let mut cursor = Cursor::new(changes);
    cursor.go_to(0);
    let mut count = 0;
    while let Some(frame) = receive(&mut cursor, pin, bits, end) {
        push_frame(&mut out, &frame)?;
        count += u64::from(frame.good);
    }
    push_text(&mut out, b"bytes ")?;
    push_decimal(&mut out, count)?;
    push_text(&mut out, b"\n")?;
    Ok(out)
}
