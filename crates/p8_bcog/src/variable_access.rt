// Variables: hub memory, and pins of a register.
ghost use Rattle.std.specs.Prelude.{◌≡◌, ◌<◌, ◌≤◌, ◌%◌, true};
ghost use Rattle.p8_bcog.specs.Places.{pins_in, ones, ordered, pins_of, mask_of, with_pins, register_value, register_access, writes_register};
ghost use Rattle.p8_bcog.specs.Places.{value_in, reduced, writes_place, extended, updated, leaves_old, left_of, stepped, uses, reads_place};
ghost use Rattle.p8_bcog.specs.Laters.{comes};
ghost use Rattle.p8_bcog.specs.declared.variable_place.VariablePlace.TheVariants.{Memory};
ghost use Rattle.p8_bcog.specs.declared.step.Wanted.TheVariants.{Changed};
ghost use Rattle.p8_bcog.specs.declared.step.Later.TheVariants.{Left};
ghost use Rattle.p8_bcog.specs.declared.step.Step.TheVariants.{Asking};
ghost use Rattle.p8_bcog.specs.Ready.{IsGood, IsMadeIf, IsPlace, HasRoom, HasRoomFor, HasRoomToUse};
ghost use Rattle.p8_bcog.specs.Standing.{is_under};
ghost use Rattle.p8_bcog.specs.Stops.{at_stage, IsSound};

use crate::accesses::{read_of, write_of};
use crate::operands::{difference, is_at_most, is_between, sum_of};
use crate::stage::SpinStage;
use crate::state::SpinState;
use crate::step::{Later, Step, Wanted};
use crate::variable_place::VariablePlace;
use p8_access::{Access, Reason, Width};
use p8_words::{binary, is_unary, reverse, unary};

/// The addresses of registers.
const PAR: u16 = 0x1F0;

const CNT: u16 = 0x1F1;

const INA: u16 = 0x1F2;

const OUTA: u16 = 0x1F4;

const OUTB: u16 = 0x1F5;

const DIRA: u16 = 0x1F6;

const DIRB: u16 = 0x1F7;

const CTRA: u16 = 0x1F8;

/// How many pins there are from one to another, in either order.
fn pins_in(high: u8, low: u8) -> u32
    requires high { high < 32 }
    requires low { low < 32 }
    ensures count { result ≡ pins_in high low }
    ensures some { 1 ≤ result }
    ensures most { result ≤ 32 }
{
    u32::from(high.abs_diff(low)) + 1
}

/// A word of so many ones.
fn ones(count: u32) -> u32
    requires some { 1 ≤ count }
    requires most { count ≤ 32 }
    ensures { result ≡ ones count }
{
    u32::MAX >> (32 - count)
}

/// Bits in the order of the pins, or back.
fn ordered(high: u8, low: u8, bits: u32) -> u32
    requires high { high < 32 }
    requires low { low < 32 }
    ensures { result ≡ ordered high low bits }
{
    if low <= high {
        bits
    } else {
        reverse(bits) >> (32 - pins_in(high, low))
    }
}

/// The value of some pins of a register.
fn pins_of(high: u8, low: u8, word: u32) -> u32
    requires high { high < 32 }
    requires low { low < 32 }
    ensures { result ≡ pins_of high low word }
{
    let bits = word >> high.min(low) & ones(pins_in(high, low));
    ordered(high, low, bits)
}

/// A register with a value in some of its pins.
fn with_pins(high: u8, low: u8, value: u32, word: u32) -> u32
    requires high { high < 32 }
    requires low { low < 32 }
    ensures { result ≡ with_pins high low value word }
{
    let ones = ones(pins_in(high, low));
    let least = high.min(low);
    let mask = ones << least;
    word & (u32::MAX - mask) | ordered(high, low, value & ones) << least
}

/// The access by which a register is read, if there is one.
fn register_access(register: u16) -> Option<Access>
    ensures access { result ≡ register_access register }
    ensures made { IsMadeIf result }
{
    match register {
        CNT => Some(Access::Clock),
        INA => Some(Access::PinsIn),
        _ => None,
    }
}

impl VariablePlace {
    /// Its value by the word that was read there.
    pub fn value_in(self, word: u32) -> u32
        requires { IsPlace self }
        ensures { result ≡ value_in self word }
    {
        match self {
            VariablePlace::Memory { .. } => word,
            VariablePlace::Pins { high, low, .. } => pins_of(high, low, word),
        }
    }

    /// A value reduced to its size.
    #[inline(always)]
    fn reduced(self, value: u32) -> u32
        requires { IsPlace self }
        ensures { result ≡ reduced self value }
    {
        match self {
            VariablePlace::Memory { width, .. } => match width {
                Width::Byte => value & 0xFF,
                Width::Word => value & 0xFFFF,
                Width::Long => value,
            },
            VariablePlace::Pins { high, low, .. } => value & ones(pins_in(high, low)),
        }
    }
}

/// The sign of bit 7 or of bit 15 is extended.
fn extended_byte(value: u32) -> u32
    ensures { result ≡ extended 8 value }
{
    let byte = value & 0xFF;
    if byte < 0x80 {
        byte
    } else {
        byte + 0xFFFF_FF00
    }
}

fn extended_word(value: u32) -> u32
    ensures { result ≡ extended 16 value }
{
    let word = value & 0xFFFF;
    if word < 0x8000 {
        word
    } else {
        word + 0xFFFF_0000
    }
}

/// The new value by an effect without its bit 7.
#[inline(always)]
fn updated(effect: u8, value: u32, right: u32) -> u32
    requires { effect < 0x60 }
    ensures { result ≡ updated effect value right }
{
    if effect == 0x10 {
        extended_byte(value)
    } else if effect == 0x14 {
        extended_word(value)
    } else if effect < 0x30 {
        sum_of(value, 1)
    } else if effect < 0x40 {
        difference(value, 1)
    } else if is_unary(effect + 0xA0) {
        unary(effect + 0xA0, value)
    } else {
        binary(effect + 0xA0, value, right)
    }
}

/// Whether an effect, without its bit 7, leaves the old value.
fn leaves_old(effect: u8) -> bool
    ensures { result ≡ leaves_old effect }
{
    (effect >= 0x28 && effect < 0x30) || (effect >= 0x38 && effect < 0x40)
}

/// What an effect leaves of a value.
pub fn left_of(effect: u8, value: u32) -> Option<u32>
    ensures { result ≡ left_of effect value }
{
    if effect >= 128 { Some(value) } else { None }
}

/// The new value of a variable of REPEAT.
fn stepped(value: u32, by: u32, from: u32, to: u32) -> u32
    ensures { result ≡ stepped value by from to }
{
    if is_at_most(from, to) {
        sum_of(value, by)
    } else {
        difference(value, by)
    }
}

/// An access, with which a bytecode is done.
#[inline]
pub fn ending(access: Access, value: Option<u32>) -> Step
    ensures { result ≡ Asking access (Left value) }
{
    Step::Asking {
        access,
        later: Later::Left { value },
    }
}

impl SpinState {
    /// What a register has that is read without an access.
    fn register_value(&self, register: u16) -> u32
        ensures { result ≡ register_value register self.now }
    {
        match register {
            PAR => u32::from(self.par),
            OUTA => self.outa,
            OUTB => self.outb,
            DIRA => self.dira,
            DIRB => self.dirb,
            _ => 0,
        }
    }

    /// Writes a register, and leaves a value if there is one.
    #[tactic(auto, unfolding(crate::specs::Places::writes_register))]
    fn write_register(
        &mut self,
        register: u16,
        value: u32,
        left: Option<u32>,
    ) -> Result<Step, Reason>
        requires { HasRoomFor left self.old }
        ensures does { comes result self.new ≡ writes_register register value left self.old }
        ensures good { IsGood result self.new }
    {
        match register {
            OUTA => {
                self.outa = value;
                return Ok(ending(Access::OutSet { value }, left));
            }
            DIRA => {
                self.dira = value;
                return Ok(ending(Access::DirSet { value }, left));
            }
            OUTB => self.outb = value,
            DIRB => self.dirb = value,
            _ => {
                if register >= CTRA && value != 0 {
                    return Err(Reason::Register(register));
                }
            }
        }
        self.leave(left);
        Ok(Step::Done)
    }

    /// Writes a place, and leaves a value if there is one.
    #[tactic(auto, unfolding(crate::specs::Places::writes_place))]
    pub fn write_place(
        &mut self,
        place: VariablePlace,
        value: u32,
        left: Option<u32>,
    ) -> Result<Step, Reason>
        requires place { IsPlace place }
        requires room { HasRoomFor left self.old }
        ensures does { comes result self.new ≡ writes_place place value left self.old }
        ensures good { IsGood result self.new }
    {
        match place {
            VariablePlace::Memory { width, address } => Ok(ending(
                write_of(width, address, value),
                left,
            )),
            VariablePlace::Pins {
                register,
                high,
                low,
            } => {
                let word = with_pins(high, low, value, self.register_value(register));
                self.write_register(register, word, left)
            }
        }
    }

    /// Writes memory as `write_place` does, and tells how far the life is then.
    #[inline(always)]
    #[tactic(auto, unfolding(crate::specs::Places::writes_place))]
    pub fn write_memory(
        &self,
        width: Width,
        address: u16,
        value: u32,
        left: Option<u32>,
        stage: &mut SpinStage,
    )
        requires room { HasRoomFor left self.now }
        ensures does { at_stage stage.new self.now ≡ writes_place (Memory width address) value left self.now }
        ensures under { is_under stage.new ≡ true }
        ensures sound { IsSound stage.new self.now }
    {
        *stage = SpinStage::Asked {
            access: write_of(width, address, value),
            later: Later::Left { value: left },
        };
    }

    /// Changes memory whose value was read, as `change_place` does, and tells how far the life is then.
    #[inline(always)]
    #[tactic(auto, unfolding(crate::specs::Places::uses))]
    pub fn change_memory(
        &self,
        effect: u8,
        right: u32,
        width: Width,
        address: u16,
        value: u32,
        stage: &mut SpinStage,
    )
        requires room { 128 ≤ effect → HasRoom self.now }
        requires effect { effect % 128 < 0x60 }
        ensures does { at_stage stage.new self.now ≡ uses (Changed effect right) (Memory width address) value self.now }
        ensures under { is_under stage.new ≡ true }
        ensures sound { IsSound stage.new self.now }
    {
        let place = VariablePlace::Memory { width, address };
        let new = updated(effect % 128, value, right);
        let kept = if leaves_old(effect % 128) { value } else { new };
        let left = left_of(effect, place.reduced(kept));
        self.write_memory(width, address, new, left, stage);
    }

    /// Changes a place whose value was read by an effect.
    #[tactic(auto, unfolding(crate::specs::Places::uses))]
    fn change_place(
        &mut self,
        effect: u8,
        right: u32,
        place: VariablePlace,
        value: u32,
    ) -> Result<Step, Reason>
        requires place { IsPlace place }
        requires room { 128 ≤ effect → HasRoom self.old }
        requires effect { effect % 128 < 0x60 }
        ensures does { comes result self.new ≡ uses (Changed effect right) place value self.old }
        ensures good { IsGood result self.new }
    {
        let new = updated(effect % 128, value, right);
        let kept = if leaves_old(effect % 128) { value } else { new };
        self.write_place(place, new, left_of(effect, place.reduced(kept)))
    }

    /// Goes on by the value of a place.
    #[tactic(auto, unfolding(crate::specs::Places::uses))]
    pub fn use_value(
        &mut self,
        wanted: Wanted,
        place: VariablePlace,
        value: u32,
    ) -> Result<Step, Reason>
        requires place { IsPlace place }
        requires room { HasRoomToUse wanted self.old }
        ensures does { comes result self.new ≡ uses wanted place value self.old }
        ensures good { IsGood result self.new }
    {
        match wanted {
            Wanted::Pushed => {
                self.push(value);
                Ok(Step::Done)
            }
            Wanted::Replaced { value: new } => self.write_place(place, new, Some(value)),
            Wanted::Changed { effect, right } => self.change_place(effect, right, place, value),
            Wanted::Stepped {
                by,
                from,
                to,
                target,
            } => {
                let new = stepped(value, by, from, to);
                if is_between(new, from, to) {
                    self.at = target;
                }
                self.write_place(place, new, None)
            }
        }
    }

    /// Reads a place.
    #[tactic(auto, unfolding(crate::specs::Places::reads_place))]
    pub fn read_place(&mut self, wanted: Wanted, place: VariablePlace) -> Result<Step, Reason>
        requires place { IsPlace place }
        requires room { HasRoomToUse wanted self.old }
        ensures does { comes result self.new ≡ reads_place wanted place self.old }
        ensures good { IsGood result self.new }
    {
        match place {
            VariablePlace::Memory { width, address } => {
                let access = read_of(width, address)?;
                let later = Later::Value { place, wanted };
                Ok(Step::Asking { access, later })
            }
            VariablePlace::Pins {
                register,
                high,
                low,
            } => match register_access(register) {
                Some(access) => {
                    let later = Later::Value { place, wanted };
                    Ok(Step::Asking { access, later })
                }
                None => {
                    let value = pins_of(high, low, self.register_value(register));
                    self.use_value(wanted, place, value)
                }
            },
        }
    }

    /// Reads memory as `read_place` does, and tells how far the life is then.
    #[inline(always)]
    #[tactic(auto, unfolding(crate::specs::Places::reads_place))]
    pub fn read_memory(&self, wanted: Wanted, width: Width, address: u16, stage: &mut SpinStage)
        requires room { HasRoomToUse wanted self.now }
        ensures does { at_stage stage.new self.now ≡ reads_place wanted (Memory width address) self.now }
        ensures under { is_under stage.new ≡ true }
        ensures sound { IsSound stage.new self.now }
    {
        match read_of(width, address) {
            Ok(access) => {
                let place = VariablePlace::Memory { width, address };
                *stage = SpinStage::Asked {
                    access,
                    later: Later::Value { place, wanted },
                };
            }
            Err(reason) => *stage = SpinStage::Halted { reason },
        }
    }
}
