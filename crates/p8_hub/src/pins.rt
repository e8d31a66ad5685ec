// The pins that the eight cogs drive.
ghost use Rattle.std.specs.Prelude.{◌≡◌, ◌<◌, ◌^◌, fold, replicate, slice_set, bit_and, bit_or};
ghost use Rattle.std.specs.List.{zip};
ghost use Rattle.p8_access.specs.Pins.{pins_with};
ghost use Rattle.p8_hub.specs.Parts.{ors, driven};

/// The registers OUTA and DIRA of the eight cogs.
#[derive(Drop)]
pub struct Pins {
    pub outa: [u32; 8],
    pub dira: [u32; 8],
}

impl Pins {
    /// All registers are 0.
    pub fn open() -> Pins
        ensures outa { result.outa ≡ replicate 8 0 }
        ensures dira { result.dira ≡ replicate 8 0 }
    {
        Pins {
            outa: [0; 8],
            dira: [0; 8],
        }
    }

    /// Writes OUTA of a cog.
    pub fn set_outa(&mut self, cog: u8, value: u32)
        requires { cog < 8 }
        ensures outa { self.new.outa ≡ slice_set self.old.outa cog value }
        ensures dira { self.new.dira ≡ self.old.dira }
    {
        self.outa[cog as usize] = value;
    }

    /// Writes DIRA of a cog.
    pub fn set_dira(&mut self, cog: u8, value: u32)
        requires { cog < 8 }
        ensures outa { self.new.outa ≡ self.old.outa }
        ensures dira { self.new.dira ≡ slice_set self.old.dira cog value }
    {
        self.dira[cog as usize] = value;
    }

    /// Clears both registers of a cog.
    pub fn clear(&mut self, cog: u8)
        requires { cog < 8 }
        ensures outa { self.new.outa ≡ slice_set self.old.outa cog 0 }
        ensures dira { self.new.dira ≡ slice_set self.old.dira cog 0 }
    {
        self.outa[cog as usize] = 0;
        self.dira[cog as usize] = 0;
    }

    /// The pins that some cog makes outputs.
    pub fn directions(&self) -> u32
        ensures { result ≡ ors self.now.dira }
    {
        self.dira.iter().fold(0, |all, dira| all | *dira)
    }

    /// The outputs that some cog with that direction makes high.
    pub fn outputs(&self) -> u32
        ensures { result ≡ ors (driven self.now.outa self.now.dira) }
    {
        self.outa
            .iter()
            .zip(&self.dira)
            .map(|(outa, dira)| *outa & *dira)
            .fold(0, |all, high| all | high)
    }

    /// All pins, where the inputs have these levels.
    pub fn read(&self, levels: u32) -> u32
        ensures { result ≡ pins_with (ors self.now.dira) (ors (driven self.now.outa self.now.dira)) levels }
    {
        self.outputs() | (levels & (self.directions() ^ u32::MAX))
    }
}
