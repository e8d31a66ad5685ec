// The registers by which the eight cogs drive the pins.
ghost use Rattle.std.specs.Prelude.{◌≡◌, ◌<◌, ◌==◌, ℕ, List, [], false, if◌then◌else◌, slice_index};
ghost use Rattle.p8_access.specs.declared.order.Turn.{Turn as TurnValue};
ghost use Rattle.p8_access.specs.Hub.{or_else, is_number};
ghost use Rattle.p8_access.specs.Pins.{pins_with, dira, outputs};
ghost use Rattle.p8_pins.specs.Driving.{outa_told, dira_told, TouchesNone, AreAfter};

use p8_access::{Access, Answer, Turn};

/// OUTA and DIRA of the eight cogs after some turns.
#[derive(Drop)]
pub struct Registers {
    pub outa: [u32; 8],
    pub dira: [u32; 8],
}

/// Sets the register of a cog, where there is such a cog.
fn set(row: &mut [u32; 8], cog: u8, value: u32)
    ensures { (n : ℕ) → n < 8 → slice_index row.new n ≡ (if cog == n then value else slice_index row.old n) }
{
    if cog < 8 {
        row[cog as usize] = value;
    }
}

/// Whether a turn may change a register.
pub fn touches(turn: &Turn) -> bool
    ensures { result ≡ false → TouchesNone turn.now }
{
    match turn.access {
        Access::OutSet { .. } | Access::DirSet { .. } | Access::Halt { .. } => true,
        Access::CogStop { .. } | Access::CogInit { .. } => true,
        _ => false,
    }
}

impl Registers {
    /// Before any turn all are 0.
    pub fn open() -> Registers
        ensures { AreAfter [] result }
    {
        Registers {
            outa: [0; 8],
            dira: [0; 8],
        }
    }

    /// Clears both registers of a cog.
    fn clear(&mut self, cog: u8)
        ensures outa { (n : ℕ) → n < 8 → slice_index self.new.outa n ≡ (if cog == n then 0 else slice_index self.old.outa n) }
        ensures dira { (n : ℕ) → n < 8 → slice_index self.new.dira n ≡ (if cog == n then 0 else slice_index self.old.dira n) }
    {
        set(&mut self.outa, cog, 0);
        set(&mut self.dira, cog, 0);
    }

    /// Does what a turn does to them: its cog writes one, or a cog is started, stopped or halts.
    pub fn take(&mut self, turn: &Turn)
        ensures outa { (n : ℕ) → n < 8 → slice_index self.new.outa n ≡ or_else (outa_told n turn.now) (slice_index self.old.outa n) }
        ensures dira { (n : ℕ) → n < 8 → slice_index self.new.dira n ≡ or_else (dira_told n turn.now) (slice_index self.old.dira n) }
    {
        match turn.access {
            Access::OutSet { value } => set(&mut self.outa, turn.key.cog, value),
            Access::DirSet { value } => set(&mut self.dira, turn.key.cog, value),
            Access::Halt { .. } => self.clear(turn.key.cog),
            Access::CogStop { cog } => self.clear(cog),
            Access::CogInit { .. } => self.start(turn.answer),
            _ => {}
        }
    }

    /// Clears the registers of the cog that a start's answer names, if it names one.
    fn start(&mut self, answer: Answer)
        ensures outa { (n : ℕ) → n < 8 → slice_index self.new.outa n ≡ (if is_number n answer then 0 else slice_index self.old.outa n) }
        ensures dira { (n : ℕ) → n < 8 → slice_index self.new.dira n ≡ (if is_number n answer then 0 else slice_index self.old.dira n) }
    {
        if let Answer::Number(Some(cog)) = answer {
            self.clear(cog);
        }
    }

    /// All pins, where the inputs have these levels.
    pub fn pins(&self, levels: u32) -> u32
        ensures { (past : List TurnValue) → AreAfter past self.now → result ≡ pins_with (dira past) (outputs past) levels }
    {
        let mut directions = 0;
        let mut outputs = 0;
        for cog in 0..8 {
            directions |= self.dira[cog];
            outputs |= self.outa[cog] & self.dira[cog];
        }
        outputs | (levels & (directions ^ u32::MAX))
    }
}
