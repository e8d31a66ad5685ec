// What a line below a picture tells of a clock: its number, or its time.
ghost use Rattle.std.specs.Prelude.{◌≡◌, ◌<◌, ◌^◌, ◌++◌, length, OnOk};
ghost use Rattle.std.specs.Fmt.{decimal};
ghost use Rattle.p8_wave.specs.Axes.{axis_label, text_at, thousandths_of, thousandths_text, three_digits, time_at, unit_for, unit_label, IsTold};

use itoa::Buffer;
use p8_instr::push_text;
use p8_words::NoMemory;

/// The unit in which times are told.
#[derive(Clone, Copy)]
pub enum TimeUnit {
    Microseconds,
    Milliseconds,
}

/// What a line tells of clocks: their numbers, or their times in a unit, with the clock's frequency in Hz.
#[derive(Clone, Copy)]
pub enum Axis {
    Clocks,
    Times { frequency: u32, unit: TimeUnit },
}

impl TimeUnit {
    /// The unit where so many clocks of a frequency in Hz are shown: microseconds where they last less than 10 ms.
    pub fn for_shown(frequency: u32, shown: u64) -> TimeUnit
        ensures { result ≡ unit_for frequency shown }
    {
        if u128::from(shown) * 100 < u128::from(frequency) {
            TimeUnit::Microseconds
        } else {
            TimeUnit::Milliseconds
        }
    }

    /// How many thousandths of it a second has.
    fn thousandths(self) -> u128
        ensures thousandths { result ≡ thousandths_of self }
        ensures most { result < 2 ^ 30 }
    {
        match self {
            TimeUnit::Microseconds => 1_000_000_000,
            TimeUnit::Milliseconds => 1_000_000,
        }
    }

    /// Its name, four characters wide.
    fn label(self) -> &'static [u8]
        ensures { result.now ≡ unit_label self }
    {
        match self {
            TimeUnit::Microseconds => b"us  ",
            TimeUnit::Milliseconds => b"ms  ",
        }
    }

    /// The time at a clock of a frequency, in thousandths of the unit, rounded down.
    fn time_at(self, frequency: u32, clock: u64) -> u128
        requires { 0 < frequency }
        ensures { result ≡ time_at frequency self clock }
    {
        u128::from(clock) * self.thousandths() / u128::from(frequency)
    }
}

/// The last three decimal digits of a number.
fn three_digits(number: u128) -> [u8; 3]
    ensures { result ≡ three_digits number }
{
    [
        b'0' + (number / 100 % 10) as u8,
        b'0' + (number / 10 % 10) as u8,
        b'0' + (number % 10) as u8,
    ]
}

/// Appends a number in decimal digits.
fn push_digits(out: &mut Vec<u8>, number: u128) -> Result<(), NoMemory>
    ensures { OnOk result (out.new.items ≡ out.old.items ++ decimal number) }
{
    push_text(out, Buffer::new().format(number).as_bytes())
}

/// How many decimal digits a number has.
fn digits(number: u128) -> usize
    ensures digits { result ≡ length (decimal number) }
    ensures most { result < 2 ^ 63 }
{
    Buffer::new().format(number).as_bytes().len()
}

/// Appends so many thousandths, as a number with three digits after the point.
fn push_thousandths(out: &mut Vec<u8>, number: u128) -> Result<(), NoMemory>
    ensures { OnOk result (out.new.items ≡ out.old.items ++ thousandths_text number) }
{
    push_digits(out, number / 1000)?;
    push_text(out, b".")?;
    push_text(out, &three_digits(number))
}

/// How many characters these have.
fn thousandths_length(number: u128) -> usize
    ensures { result ≡ length (thousandths_text number) }
{
    digits(number / 1000) + 4
}

impl Axis {
    /// What its line begins with, four characters.
    pub fn label(self) -> &'static [u8]
        ensures { result.now ≡ axis_label self }
    {
        match self {
            Axis::Clocks => b"    ",
            Axis::Times { unit, .. } => unit.label(),
        }
    }

    /// Appends what it tells of a clock.
    pub fn push_at(self, out: &mut Vec<u8>, clock: u64) -> Result<(), NoMemory>
        requires { IsTold self }
        ensures { OnOk result (out.new.items ≡ out.old.items ++ text_at self clock) }
    {
        match self {
            Axis::Clocks => push_digits(out, u128::from(clock)),
            Axis::Times { frequency, unit } => push_thousandths(
                out,
                unit.time_at(frequency, clock),
            ),
        }
    }

    /// How many characters that has.
    pub fn length_at(self, clock: u64) -> usize
        requires { IsTold self }
        ensures { result ≡ length (text_at self clock) }
    {
        match self {
            Axis::Clocks => digits(u128::from(clock)),
            Axis::Times { frequency, unit } => thousandths_length(unit.time_at(frequency, clock)),
        }
    }
}
