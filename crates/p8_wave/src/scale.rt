// What a clock lasts, and the time scale of a wave.
ghost use Rattle.std.specs.Prelude.{◌≡◌, ◌<◌, ◌≤◌, ◌+◌, ◌*◌, ◌^◌, ◌++◌, length, slice_index, OnOk};
ghost use Rattle.p8_access.specs.Worlds.{World};
ghost use Rattle.p8_wave.specs.Scale.{frequency, rate, period_of as period_in, power_of, ticks_of, ticks_in, count_text, second_text, unit_text};
ghost use Rattle.p8_wave.specs.Scale.{exact_text, tick_text, scale_text};

use crate::appending::push_numbered;
use byteorder::{ByteOrder, LittleEndian};
use p8_access::{Boot, Origin};
use p8_instr::push_text;
use p8_words::NoMemory;

/// The frequency in Hz where no image tells one.
const USUAL: u32 = 80_000_000;

/// How many femtoseconds a second has.
const SECOND: u64 = 1_000_000_000_000_000;

/// The greatest unit of time is ten to this power of femtoseconds.
const MOST_TENS: u32 = 15;

/// What a clock lasts.
#[derive(Clone, Copy)]
pub struct Scale {
    /// The clock's frequency in Hz.
    pub frequency: u32,
    /// How many femtoseconds a clock lasts, where that is a whole number.
    pub period: Option<u64>,
}

/// The long at the begin of a memory.
fn first_long(bytes: &[u8]) -> u32
    requires { 4 ≤ length bytes.now }
    ensures { result ≡ slice_index bytes.now 0 + 256 * slice_index bytes.now 1 + 256 ^ 2 * slice_index bytes.now 2 + 256 ^ 3 * slice_index bytes.now 3 }
{
    LittleEndian::read_u32(bytes)
}

/// The frequency in Hz that an image tells; 0 where there is no image.
pub fn rate_of(boot: &Boot) -> u32
    ensures { (w : World) → w.memory ≡ boot.now.ram → w.first ≡ boot.now.first → result ≡ rate w }
{
    match boot.first {
        Origin::Pasm { .. } => 0,
        Origin::Spin { .. } => first_long(boot.ram.bytes()),
    }
}

/// The frequency of a boot's clock.
#[tactic(auto, unfolding(crate::specs::Scale::frequency))]
fn frequency_of(boot: &Boot) -> u32
    ensures frequency { (w : World) → w.memory ≡ boot.now.ram → w.first ≡ boot.now.first → result ≡ frequency w }
    ensures some { 0 < result }
{
    let told = rate_of(boot);
    if told == 0 { USUAL } else { told }
}

/// How many femtoseconds a clock of this frequency lasts, where that is a whole number.
#[tactic(auto, unfolding(crate::specs::Scale::period_of))]
fn period_of(frequency: u32) -> Option<u64>
    requires { 0 < frequency }
    ensures { result ≡ period_in frequency }
{
    if SECOND % u64::from(frequency) == 0 {
        Some(SECOND / u64::from(frequency))
    } else {
        None
    }
}

/// How often ten divides a period, at most 15 times, and what it leaves.
fn tens_of(period: u64) -> (u32, u64)
    ensures power { result.0 ≡ power_of period }
    ensures left { result.1 ≡ ticks_of period }
{
    let mut power = 0;
    let mut left = period;
    while power < MOST_TENS {
        if left % 10 != 0 {
            return (power, left);
        }
        left /= 10;
        power += 1;
    }
    (power, left)
}

/// The number of a unit: 1, 10 or 100.
fn count_name(power: u32) -> &'static [u8]
    ensures { result.now ≡ count_text power }
{
    match power % 3 {
        0 => b"1 ",
        1 => b"10 ",
        _ => b"100 ",
    }
}

/// The name of a unit of 1,000 to this power of femtoseconds.
fn second_name(thousands: u32) -> &'static [u8]
    ensures { result.now ≡ second_text thousands }
{
    match thousands {
        0 => b"fs",
        1 => b"ps",
        2 => b"ns",
        3 => b"us",
        4 => b"ms",
        _ => b"s",
    }
}

/// The unit of ten to a power of femtoseconds.
fn push_unit(out: &mut Vec<u8>, power: u32) -> Result<(), NoMemory>
    ensures { OnOk result (out.new.items ≡ out.old.items ++ unit_text power) }
{
    push_text(out, count_name(power))?;
    push_text(out, second_name(power / 3))
}

/// The unit of time of which a clock's period is a whole number.
fn push_exact(out: &mut Vec<u8>, period: u64) -> Result<(), NoMemory>
    ensures { OnOk result (out.new.items ≡ out.old.items ++ exact_text period) }
{
    push_text(out, b"$timescale ")?;
    push_unit(out, tens_of(period).0)?;
    push_text(out, b" $end\n")
}

/// A clock as the unit of time.
fn push_tick(out: &mut Vec<u8>, frequency: u32) -> Result<(), NoMemory>
    ensures { OnOk result (out.new.items ≡ out.old.items ++ tick_text frequency) }
{
    push_numbered(
        out,
        b"$timescale 1 ns $end\n$comment A tick is one clock at ",
        frequency,
    )?;
    push_text(out, b" Hz. $end\n")
}

impl Scale {
    /// The scale of a boot.
    pub fn of_boot(boot: &Boot) -> Scale
        ensures frequency { (w : World) → w.memory ≡ boot.now.ram → w.first ≡ boot.now.first → result.frequency ≡ frequency w }
        ensures period { result.period ≡ period_in result.frequency }
    {
        let frequency = frequency_of(boot);
        Scale {
            frequency,
            period: period_of(frequency),
        }
    }

    /// How many units a clock lasts.
    pub fn ticks(&self) -> u64
        ensures { result ≡ ticks_in self.now.period }
    {
        match self.period {
            Some(period) => tens_of(period).1,
            None => 1,
        }
    }

    /// The time scale. Where a clock lasts no whole number of femtoseconds, what it is stands in a comment.
    pub fn push(&self, out: &mut Vec<u8>) -> Result<(), NoMemory>
        ensures { OnOk result (out.new.items ≡ out.old.items ++ scale_text self.now.frequency self.now.period) }
    {
        match self.period {
            Some(period) => push_exact(out, period),
            None => push_tick(out, self.frequency),
        }
    }
}
