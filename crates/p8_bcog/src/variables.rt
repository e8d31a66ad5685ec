// The bytecodes of variables and registers.
ghost use Rattle.std.specs.Prelude.{◌≡◌, ◌<◌, ◌≤◌, ◌%◌, ◌^◌, length};
ghost use Rattle.p8_bcog.specs.Variables.{acts, short_address, short_variable, width_of, is_indexed, base_of, names, index_of, address_of, variable};
ghost use Rattle.p8_bcog.specs.Variables.{acts_on_pins, register_of, one_pin, some_pins, all_pins, whole_register};
ghost use Rattle.p8_bcog.specs.Laters.{comes};
ghost use Rattle.p8_bcog.specs.Ready.{IsGood, IsPlace};

use crate::state::SpinState;
use crate::step::Step;
use crate::variable_place::VariablePlace;
use p8_access::{Access, Reason, Width};
use p8_bytecode::Op;

/// The width of a variable by its bytecode.
fn width_of(code: u8) -> Width
    ensures { result ≡ width_of code }
{
    if code < 0xA0 {
        Width::Byte
    } else if code < 0xC0 {
        Width::Word
    } else {
        Width::Long
    }
}

/// Whether a variable has an index.
fn is_indexed(code: u8) -> bool
    ensures { result ≡ is_indexed code }
{
    code / 16 % 2 == 1
}

/// How many operands name a variable.
fn names(code: u8) -> usize
    ensures names { result ≡ names code }
    ensures most { result ≤ 2 }
{
    usize::from(is_indexed(code)) + usize::from(code / 4 % 4 == 0)
}

/// The pin that a value names.
fn pin_of(value: u32) -> u8
    ensures pin { result ≡ value % 32 }
    ensures below { result < 32 }
{
    (value & 31) as u8
}

/// The register that a register's byte names.
fn register_of(byte: u32) -> u16
    ensures { result ≡ register_of byte }
{
    0x1E0 + (byte & 31) as u16
}

impl SpinState {
    /// Does with a variable what its bytecode says.
    #[tactic(auto, unfolding(crate::specs::Variables::acts))]
    fn act(
        &mut self,
        action: u8,
        named: usize,
        op: Op,
        width: Width,
        address: u16,
    ) -> Result<Step, Reason>
        requires named { named ≤ 2 }
        requires effect { op.effect % 128 < 0x60 }
        ensures does { comes result self.new ≡ acts action named op width address self.old }
        ensures good { IsGood result self.new }
    {
        let place = VariablePlace::Memory { width, address };
        match action {
            0 => self.push_place(named, place),
            1 => self.pop_place(named, place),
            2 => self.change(named, op, place),
            _ => {
                self.test(named, 1)?;
                self.replace(named, u32::from(address));
                Ok(Step::Done)
            }
        }
    }

    /// The address of a long variable by its bytecode.
    pub fn short_address(&self, code: u8) -> u16
        ensures { result ≡ short_address code self.now }
    {
        let base = if code / 32 % 2 == 0 {
            self.vbase
        } else {
            self.frame
        };
        base.wrapping_add(u16::from(code / 4 % 8 * 4))
    }

    /// A long variable that its bytecode names.
    #[tactic(auto, unfolding(crate::specs::Variables::short_variable))]
    pub fn short_variable(&mut self, op: Op) -> Result<Step, Reason>
        requires effect { op.effect % 128 < 0x60 }
        ensures does { comes result self.new ≡ short_variable op self.old }
        ensures good { IsGood result self.new }
    {
        let address = self.short_address(op.code);
        self.act(op.code % 4, 0, op, Width::Long, address)
    }

    /// What the address of a variable counts from.
    fn base_of(&self, code: u8) -> u32
        ensures { result ≡ base_of code self.now }
    {
        match code / 4 % 4 {
            0 => self.peek(usize::from(is_indexed(code))),
            1 => u32::from(self.pbase),
            2 => u32::from(self.vbase),
            _ => u32::from(self.frame),
        }
    }

    /// How far its index takes a variable.
    fn index_of(&self, code: u8) -> u32
        ensures { result ≡ index_of code self.now % 2 ^ 32 }
    {
        if !is_indexed(code) {
            return 0;
        }
        let bytes: u32 = match width_of(code) {
            Width::Byte => 1,
            Width::Word => 2,
            Width::Long => 4,
        };
        self.peek(0).wrapping_mul(bytes)
    }

    /// The address of a variable.
    fn address_of(&self, op: Op) -> u16
        ensures { result ≡ address_of op self.now }
    {
        let base = self.base_of(op.code);
        let index = self.index_of(op.code);
        (base.wrapping_add(op.first).wrapping_add(index) & 0xFFFF) as u16
    }

    /// A variable in memory.
    #[tactic(auto, unfolding(crate::specs::Variables::variable))]
    pub fn variable(&mut self, op: Op) -> Result<Step, Reason>
        requires effect { op.effect % 128 < 0x60 }
        ensures does { comes result self.new ≡ variable op self.old }
        ensures good { IsGood result self.new }
    {
        let named = names(op.code);
        let address = self.address_of(op);
        self.act(op.code % 4, named, op, width_of(op.code), address)
    }

    /// Does with pins what the register's byte says.
    #[tactic(auto, unfolding(crate::specs::Variables::acts_on_pins))]
    fn act_on_pins(&mut self, named: usize, op: Op, place: VariablePlace) -> Result<Step, Reason>
        requires named { named ≤ 2 }
        requires effect { op.effect % 128 < 0x60 }
        requires place { IsPlace place }
        ensures does { comes result self.new ≡ acts_on_pins named op place self.old }
        ensures good { IsGood result self.new }
    {
        if op.first < 0xA0 {
            self.push_place(named, place)
        } else if op.first < 0xC0 {
            self.pop_place(named, place)
        } else {
            self.change(named, op, place)
        }
    }

    /// One pin of a register, or some.
    #[tactic(auto, unfolding(crate::specs::Variables::one_pin))]
    pub fn one_pin(&mut self, op: Op) -> Result<Step, Reason>
        requires effect { op.effect % 128 < 0x60 }
        ensures does { comes result self.new ≡ one_pin op self.old }
        ensures good { IsGood result self.new }
    {
        let pin = pin_of(self.peek(0));
        let register = register_of(op.first);
        self.act_on_pins(
            1,
            op,
            VariablePlace::Pins {
                register,
                high: pin,
                low: pin,
            },
        )
    }

    /// The pins of a register from one to another.
    #[tactic(auto, unfolding(crate::specs::Variables::some_pins))]
    pub fn some_pins(&mut self, op: Op) -> Result<Step, Reason>
        requires effect { op.effect % 128 < 0x60 }
        ensures does { comes result self.new ≡ some_pins op self.old }
        ensures good { IsGood result self.new }
    {
        let high = pin_of(self.peek(1));
        let low = pin_of(self.peek(0));
        let register = register_of(op.first);
        self.act_on_pins(
            2,
            op,
            VariablePlace::Pins {
                register,
                high,
                low,
            },
        )
    }

    /// All pins of a register.
    #[tactic(auto, unfolding(crate::specs::Variables::all_pins))]
    fn all_pins(&mut self, op: Op) -> Result<Step, Reason>
        requires effect { op.effect % 128 < 0x60 }
        ensures does { comes result self.new ≡ all_pins op self.old }
        ensures good { IsGood result self.new }
    {
        let register = register_of(op.first);
        self.act_on_pins(
            0,
            op,
            VariablePlace::Pins {
                register,
                high: 31,
                low: 0,
            },
        )
    }

    /// A whole register, or COGID.
    #[tactic(auto, unfolding(crate::specs::Variables::whole_register))]
    pub fn whole_register(&mut self, op: Op) -> Result<Step, Reason>
        requires effect { op.effect % 128 < 0x60 }
        ensures does { comes result self.new ≡ whole_register op self.old }
        ensures good { IsGood result self.new }
    {
        if op.first == 0x89 {
            return self.ask_word(0, Access::CogId);
        }
        self.all_pins(op)
    }
}
