// The pin script that sends bytes.
ghost use Rattle.std.specs.Prelude.{◌≡◌, ◌≤◌, ◌<◌, ◌++◌, ◌^◌, length, flat_map, true, if◌then◌else◌, IfOk, OnOk};
ghost use Rattle.p8_serial.specs.Laws.{IsRate};
ghost use Rattle.p8_serial.specs.Typed.{frame_of, has_bit, line_at, line_text, lines_from, typed_text};

use crate::numbers::push_decimal;
use p8_instr::{long_digits, push_text};
use p8_words::NoMemory;
use std::alloc::Global;

/// The levels where one pin is so and all others are low.
fn levels(pin: u8, high: bool) -> u32
    requires { pin < 32 }
    ensures { result ≡ (if high then 2 ^ pin else 0) }
{
    if high { 1 << pin } else { 0 }
}

/// Appends a line: from a clock on the pin is so, and all others are low.
fn push_line(out: &mut Vec<u8>, pin: u8, clock: u64, high: bool) -> Result<(), NoMemory>
    requires { pin < 32 }
    ensures { OnOk result (out.new.items ≡ out.old.items ++ line_text (line_at pin clock high)) }
{
    push_decimal(out, clock)?;
    push_text(out, b" ")?;
    push_text(out, &long_digits(levels(pin, high)))?;
    push_text(out, b"\n")
}

/// Whether a bit of a byte is set.
fn bit(byte: u8, i: u8) -> bool
    requires { i < 8 }
    ensures { result ≡ has_bit byte i }
{
    (byte >> i) % 2 == 1
}

/// The ten bits of a frame: a low start bit, the byte's bits from the lowest, a high stop bit.
#[tactic(auto, unfolding(crate::specs::Typed::frame_of))]
fn frame(byte: u8) -> [bool; 10]
    ensures { result ≡ frame_of byte }
{
    [
        false,
        bit(byte, 0),
        bit(byte, 1),
        bit(byte, 2),
        bit(byte, 3),
        bit(byte, 4),
        bit(byte, 5),
        bit(byte, 6),
        bit(byte, 7),
        true,
    ]
}

/// Appends a line wherever a bit of a row isn't as the one before it. The pin is high before the row.
fn push_row(out: &mut Vec<u8>, pin: u8, bits: u32, start: u64, row: &[bool]) -> Result<(), NoMemory>
    requires pin { pin < 32 }
    requires rate { IsRate bits }
    requires start { start ≤ 1000000000 }
    requires row { length row.now ≤ 10 }
    ensures { OnOk result (out.new.items ≡ out.old.items ++ flat_map line_text (lines_from pin bits start true row.now)) }
{
    let mut before = true;
    let mut clock = start;
    for bit in row {
        if *bit != before {
            push_line(out, pin, clock, *bit)?;
        }
        before = *bit;
        clock += u64::from(bits);
    }
    Ok(())
}

/// The pin script that sends these bytes on a pin, as text: at most 5,000 bytes.
///
/// `pin` is 0 to 31, `bits` the length of a bit, 2 to 10,000 clocks, and `start` the clock at which the first frame begins,
/// 1 to 100,000,000. The pin is high from clock 0 on and all others are low; each byte has a frame of ten bits, one after the
/// other; there is a line for clock 0 and for each change. The only error is want of memory.
pub fn typed(
    alloc: Global,
    bytes: &[u8],
    pin: u8,
    bits: u32,
    start: u64,
) -> Result<Vec<u8>, NoMemory>
    requires count { length bytes.now ≤ 5000 }
    requires pin { pin < 32 }
    requires rate { IsRate bits }
    requires begins { (1 ≤ start) × (start ≤ 100000000) }
    ensures { IfOk result (λ text. text.items ≡ typed_text bytes.now pin bits start) }
{
    let mut out = Vec::new(alloc);
    push_line(&mut out, pin, 0, true)?;
    let mut clock = start;
    for byte in bytes {
        push_row(&mut out, pin, bits, clock, &frame(*byte))?;
        clock += 10 * u64::from(bits);
    }
    Ok(out)
}
