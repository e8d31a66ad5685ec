// The time at a clock.
ghost use Rattle.std.specs.Prelude.{◌≡◌, ◌++◌, ◌+◌, ◌*◌, ◌^◌, ◌≤◌, length, slice_index, OnOk};
ghost use Rattle.p8_access.specs.Worlds.{World};
ghost use Rattle.p8_view.specs.View.{micro_text, rate, three_digits, time_text};

use byteorder::{ByteOrder, LittleEndian};
use itoa::Buffer;
use p8_access::{Boot, Origin};
use p8_instr::push_text;
use p8_words::NoMemory;

/// The long at the begin of a memory.
fn first_long(bytes: &[u8]) -> u32
    requires { 4 ≤ length bytes.now }
    ensures { result ≡ slice_index bytes.now 0 + 256 * slice_index bytes.now 1 + 256 ^ 2 * slice_index bytes.now 2 + 256 ^ 3 * slice_index bytes.now 3 }
{
    LittleEndian::read_u32(bytes)
}

/// The frequency in Hz that an image tells; 0 where there is no image.
pub(crate) fn rate_of(boot: &Boot) -> u32
    ensures { (w : World) → w.memory ≡ boot.now.ram → w.first ≡ boot.now.first → result ≡ rate w }
{
    match boot.first {
        Origin::Pasm { .. } => 0,
        Origin::Spin { .. } => first_long(boot.ram.bytes()),
    }
}

/// The last three decimal digits of a number.
fn three_digits(number: u64) -> [u8; 3]
    ensures { result ≡ three_digits number }
{
    [
        b'0' + (number / 100 % 10) as u8,
        b'0' + (number / 10 % 10) as u8,
        b'0' + (number % 10) as u8,
    ]
}

/// The same, of a number of twice the size.
fn last_digits(number: u128) -> [u8; 3]
    ensures { result ≡ three_digits number }
{
    three_digits((number % 1000) as u64)
}

/// Appends so many nanoseconds, in microseconds.
fn push_micro(out: &mut Vec<u8>, nanoseconds: u64) -> Result<(), NoMemory>
    ensures { OnOk result (out.new.items ≡ out.old.items ++ micro_text nanoseconds) }
{
    push_text(out, Buffer::new().format(nanoseconds / 1000).as_bytes())?;
    push_text(out, b".")?;
    push_text(out, &three_digits(nanoseconds))?;
    push_text(out, b" us ")
}

/// The same, of a number of twice the size. It is never inlined: no run of a program comes so far.
#[inline(never)]
fn push_long_micro(out: &mut Vec<u8>, nanoseconds: u128) -> Result<(), NoMemory>
    ensures { OnOk result (out.new.items ≡ out.old.items ++ micro_text nanoseconds) }
{
    push_text(out, Buffer::new().format(nanoseconds / 1000).as_bytes())?;
    push_text(out, b".")?;
    push_text(out, &last_digits(nanoseconds))?;
    push_text(out, b" us ")
}

/// The last clock whose nanoseconds at 1 Hz have 64 bits.
const FAR: u64 = 18_446_744_073;

/// Appends the time at a clock of a frequency in Hz; nothing where that is 0.
pub(crate) fn push_time(out: &mut Vec<u8>, frequency: u32, clock: u64) -> Result<(), NoMemory>
    ensures { OnOk result (out.new.items ≡ out.old.items ++ time_text frequency clock) }
{
    if frequency == 0 {
        return Ok(());
    }
    // A division of 64 bits takes a tenth of one of 128.
    if clock <= FAR {
        return push_micro(out, clock * 1_000_000_000 / u64::from(frequency));
    }
    push_long_micro(
        out,
        u128::from(clock) * 1_000_000_000 / u128::from(frequency),
    )
}
