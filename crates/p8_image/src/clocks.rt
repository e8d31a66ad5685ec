// The clock of a program.
ghost use Rattle.std.specs.Prelude.{◌≡◌, option_map};
ghost use Rattle.p8_image.specs.Clocks.{clock_of, external_clock, frequency_of};

/// The clock that an image asks for.
#[derive(Clone, Copy, Debug, PartialEq, Eq)]
pub struct Clock {
    /// The mode byte, as the instruction CLKSET takes it.
    pub mode: u8,
    /// The frequency in hertz.
    pub frequency: u32,
}

/// The chip's fast oscillator, which a program has that asks for none.
const FAST: Clock = Clock {
    mode: 0,
    frequency: 12_000_000,
};

/// The chip's slow oscillator.
const SLOW: Clock = Clock {
    mode: 1,
    frequency: 20_000,
};

/// The external modes: the value of `_CLKMODE`, the mode byte, and by how much the clock is faster than what comes in.
const EXTERNAL_MODES: [(u32, u8, u32); 24] = [
    (0x004, 0x22, 1),
    (0x008, 0x2A, 1),
    (0x010, 0x32, 1),
    (0x020, 0x3A, 1),
    (0x044, 0x63, 1),
    (0x048, 0x6B, 1),
    (0x050, 0x73, 1),
    (0x060, 0x7B, 1),
    (0x084, 0x64, 2),
    (0x088, 0x6C, 2),
    (0x090, 0x74, 2),
    (0x0A0, 0x7C, 2),
    (0x104, 0x65, 4),
    (0x108, 0x6D, 4),
    (0x110, 0x75, 4),
    (0x120, 0x7D, 4),
    (0x204, 0x66, 8),
    (0x208, 0x6E, 8),
    (0x210, 0x76, 8),
    (0x220, 0x7E, 8),
    (0x404, 0x67, 16),
    (0x408, 0x6F, 16),
    (0x410, 0x77, 16),
    (0x420, 0x7F, 16),
];

impl Clock {
    /// The clock of a program by the values of its constants `_CLKMODE`, `_CLKFREQ` and `_XINFREQ`, as far as they are given.
    ///
    /// Without a mode, and with RCFAST (1) or RCSLOW (2), it is the chip's own oscillator, and the frequencies don't matter. Any
    /// other mode is one of XINPUT (4), XTAL1 (8), XTAL2 ($10) and XTAL3 ($20), alone or with one of PLL1X ($40), PLL2X ($80),
    /// PLL4X ($100), PLL8X ($200) and PLL16X ($400). Its frequency in hertz is `_CLKFREQ`, or `_XINFREQ` times the PLL's factor,
    /// mod 2^32. `None` exactly where the mode is no mode, an external mode has no frequency, or the two frequencies disagree.
    pub fn told(mode: Option<u32>, frequency: Option<u32>, input: Option<u32>) -> Option<Clock>
        ensures { result ≡ clock_of mode frequency input }
    {
        match mode {
            None | Some(1) => Some(FAST),
            Some(2) => Some(SLOW),
            Some(mode) => external(&EXTERNAL_MODES, mode, frequency, input),
        }
    }
}

/// The first external mode of a table that has this value, with its frequency.
fn external(
    mut table: &[(u32, u8, u32)],
    value: u32,
    frequency: Option<u32>,
    input: Option<u32>,
) -> Option<Clock>
    ensures { result ≡ external_clock table.entry.now value frequency input }
{
    while let [(row, mode, factor), rest @ ..] = table {
        if *row == value {
            return clock_with(*mode, external_frequency(*factor, frequency, input));
        }
        table = rest;
    }
    None
}

/// A mode with its frequency, if that is told.
fn clock_with(mode: u8, frequency: Option<u32>) -> Option<Clock>
    ensures { result ≡ option_map (λ f. record { mode = mode; frequency = f }) frequency }
{
    frequency.map(|frequency| Clock { mode, frequency })
}

/// The frequency of an external mode that makes the clock so much faster than what comes in.
fn external_frequency(factor: u32, frequency: Option<u32>, input: Option<u32>) -> Option<u32>
    ensures { result ≡ frequency_of factor frequency input }
{
    match (frequency, input) {
        (None, None) => None,
        (Some(told), None) => Some(told),
        (None, Some(input)) => Some(input.wrapping_mul(factor)),
        (Some(told), Some(input)) if told == input.wrapping_mul(factor) => Some(told),
        (Some(_), Some(_)) => None,
    }
}
