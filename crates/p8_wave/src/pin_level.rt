// What a pin shows in a column.
ghost use Rattle.std.specs.Prelude.{◌≡◌};
ghost use Rattle.p8_wave.specs.Plot.{text_of_mark};

/// How a pin is at the clocks of a column.
#[derive(Clone, Copy)]
pub enum PinLevel {
    /// Low at all of them.
    Low,
    /// High at all of them.
    High,
    /// Low at some and high at others.
    Changing,
}

impl PinLevel {
    /// The mark in print, one column of a terminal wide: in ASCII, or else in characters of boxes and blocks.
    pub fn text(self, ascii: bool) -> &'static [u8]
        ensures { result.now ≡ text_of_mark ascii self }
    {
        match (self, ascii) {
            (PinLevel::Low, true) => b"_",
            (PinLevel::High, true) => b"-",
            (PinLevel::Changing, true) => b"X",
            (PinLevel::Low, false) => "▁".as_bytes(),
            (PinLevel::High, false) => "▔".as_bytes(),
            (PinLevel::Changing, false) => "╳".as_bytes(),
        }
    }
}
