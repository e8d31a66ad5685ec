// The code of numbers, and of what is done with a variable once it is named.
ghost use Rattle.std.specs.Prelude.{◌≡◌, ◌≤◌, ◌<◌, ◌+◌, OnOk};
ghost use Rattle.p8_bytecode.specs.Reading.{bare};
ghost use Rattle.p8_gen.specs.Pieces.{Written};
ghost use Rattle.p8_gen.specs.Variables.{number, home_at, home_of, home_of_kind, memory_op, plain_op, register, effect_for, effect_by, leaving};
ghost use Rattle.p8_gen.specs.Variables.{assigned, counts, is_short, size_bits, base_bits, action_of, effect_of, operation_bits};
ghost use Rattle.p8_gen.specs.Expressions.{sized};
ghost use Rattle.p8_gen.specs.Scopes.{names_of};
ghost use Rattle.p8_gen.specs.Views.{base_of, home_in, operation_of};
ghost use Rattle.p8_gen.specs.Writing.{Stands};

use crate::coder::Coder;
use crate::writer::{Writer, bare};
use p8_bytecode::{
    Op, PUSH_0, PUSH_1, PUSH_BYTE_LIT, PUSH_LONG_LIT, PUSH_MID_LIT, PUSH_NEG1, PUSH_WORD_LIT,
};
use p8_kinds::NameKind;
use p8_tree::Text;
use std::alloc::AllocError;

/// What a variable's offset is counted from.
#[derive(Clone, Copy, PartialEq, Eq)]
pub enum Base {
    /// An address that was pushed.
    Pushed,
    /// The object.
    OfObject,
    /// The object's variables.
    OfVariables,
    /// The method's frame.
    OfFrame,
}

/// Where a variable stands, and its size in bytes.
#[derive(Clone, Copy)]
pub struct Home {
    pub base: Base,
    pub offset: u32,
    pub size: u8,
}

/// What is done with a variable.
#[derive(Clone, Copy)]
pub enum Operation {
    /// Its value is pushed.
    Push,
    /// A value is popped into it.
    Pop,
    /// It is changed by the effect of this byte.
    Using(u8),
    /// Its address is pushed.
    Reference,
}

impl Base {
    // The bits of a bytecode of memory that say the base.
    fn bits(self) -> u8
        ensures { result ≡ base_bits (base_of self) }
    {
        match self {
            Base::Pushed => 0,
            Base::OfObject => 4,
            Base::OfVariables => 8,
            Base::OfFrame => 12,
        }
    }
}

impl Operation {
    // The bits of a bytecode of memory that say what is done.
    fn action(self) -> u8
        ensures { result ≡ action_of (operation_of self) }
    {
        match self {
            Operation::Push => 0,
            Operation::Pop => 1,
            Operation::Using(_) => 2,
            Operation::Reference => 3,
        }
    }

    // The effect byte, 0 where there is none.
    fn effect(self) -> u8
        ensures { result ≡ effect_of (operation_of self) }
    {
        match self {
            Operation::Using(effect) => effect,
            _ => 0,
        }
    }

    // The bits of a register's byte that say what is done.
    fn register_bits(self) -> u8
        ensures { result ≡ operation_bits (operation_of self) }
    {
        match self {
            Operation::Using(_) => 0xC0,
            Operation::Pop => 0xA0,
            _ => 0x80,
        }
    }
}

// The bits of a bytecode of memory that say a size.
fn size_bits(size: u8) -> u8
    ensures { result ≡ size_bits size }
{
    match size {
        1 => 0,
        2 => 0x20,
        _ => 0x40,
    }
}

impl Home {
    /// The bytecode of this variable, where an index was pushed or not.
    pub fn memory_op(self, indexed: bool, operation: Operation) -> Op
        ensures { result ≡ memory_op indexed (home_in self) (operation_of operation) }
    {
        let index = if indexed { 0x10 } else { 0 };
        Op {
            first: self.offset % (1 << 15),
            effect: operation.effect(),
            ..bare(0x80 + size_bits(self.size) + index + self.base.bits() + operation.action())
        }
    }

    /// The bytecode of this variable without an index.
    pub fn plain_op(self, operation: Operation) -> Op
        ensures { result ≡ plain_op (home_in self) (operation_of operation) }
    {
        match self.base {
            Base::OfVariables if self.is_short() => self.short_op(0x40, operation),
            Base::OfFrame if self.is_short() => self.short_op(0x60, operation),
            _ => self.memory_op(false, operation),
        }
    }

    /// The same place, taken as one of another size.
    pub fn sized(self, size: u8) -> Home
        ensures { home_in result ≡ sized (home_in self) size }
    {
        Home { size, ..self }
    }

    // Whether it is a long among the first eight.
    fn is_short(self) -> bool
        ensures { result ≡ is_short (home_in self) }
    {
        self.size == 4 && self.offset < 32 && self.offset % 4 == 0
    }

    // The bytecode of a long among the first eight.
    fn short_op(self, first: u8, operation: Operation) -> Op
        requires { (self.offset < 32) × (first < 128) }
        ensures { result ≡ record (bare (first + self.offset + action_of (operation_of operation))) { effect = effect_of (operation_of operation) } }
    {
        Op {
            effect: operation.effect(),
            ..bare(first + self.offset as u8 + operation.action())
        }
    }
}

impl Coder<'_> {
    /// Where the variable of a name stands.
    pub fn home(&self, name: &Text) -> Home
        ensures { home_in result ≡ home_of (names_of self.now) name.now }
    {
        self.home_of_kind(name, self.kind(name))
    }

    // Where the variable of a name of this kind stands.
    pub(crate) fn home_of_kind(&self, name: &Text, kind: Option<NameKind>) -> Home
        ensures { home_in result ≡ home_of_kind (names_of self.now) name.now kind }
    {
        match kind {
            Some(NameKind::Global { size, offset }) => home_at(Base::OfVariables, offset, size),
            Some(NameKind::Local { offset }) => home_at(Base::OfFrame, offset, 4),
            Some(NameKind::Label { size }) => {
                home_at(Base::OfObject, self.tables.labels.offset(name), size)
            }
            _ => home_at(Base::OfFrame, 0, 4),
        }
    }
}

/// A variable of this size at an offset from a base.
pub(crate) fn home_at(base: Base, offset: u32, size: u8) -> Home
    ensures { home_in result ≡ home_at (base_of base) offset size }
{
    Home { base, offset, size }
}

impl Writer {
    /// Appends a number, in the shortest form.
    pub fn number(&mut self, n: u32) -> Result<(), AllocError>
        ensures { (w : Written) → Stands self.old w → OnOk result (Stands self.new (number n w)) }
    {
        match n {
            0 => self.byte(PUSH_0),
            1 => self.byte(PUSH_1),
            u32::MAX => self.byte(PUSH_NEG1),
            _ if n < 1 << 8 => self.with_number(PUSH_BYTE_LIT, n),
            _ if n < 1 << 16 => self.with_number(PUSH_WORD_LIT, n),
            _ if n < 1 << 24 => self.with_number(PUSH_MID_LIT, n),
            _ => self.with_number(PUSH_LONG_LIT, n),
        }
    }

    /// Appends the bytecode of a register, or of some of its pins.
    pub fn register(
        &mut self,
        code: u8,
        address: u16,
        operation: Operation,
    ) -> Result<(), AllocError>
        ensures { (w : Written) → Stands self.old w → OnOk result (Stands self.new (register code address (operation_of operation) w)) }
    {
        self.one(Op {
            first: u32::from(operation.register_bits()) + u32::from(address).saturating_sub(0x1E0),
            effect: operation.effect(),
            ..bare(code)
        })
    }
}

// Whether a change is `++` or `--`.
fn counts(change: u8) -> bool
    ensures { result ≡ counts change }
{
    matches!(change, 0x20 | 0x28 | 0x30 | 0x38)
}

/// The effect of a change of a variable of this size, 0 for a register.
pub(crate) fn effect_for(size: u8, change: u8) -> u8
    ensures { result ≡ effect_for size change }
{
    match size {
        1 if counts(change) => change + 2,
        2 if counts(change) => change + 4,
        4 if counts(change) => change + 6,
        _ => change,
    }
}

/// An effect that leaves a value where it is used.
pub(crate) fn leaving(used: bool, effect: u8) -> u8
    ensures { result ≡ leaving used effect }
{
    if used {
        effect.wrapping_add(0x80)
    } else {
        effect
    }
}

/// What an assignment does with its variable, by its operator.
pub(crate) fn assigned(used: bool, operator: Option<u8>) -> Operation
    ensures { operation_of result ≡ assigned used operator }
{
    match operator {
        None if used => Operation::Using(0x80),
        None => Operation::Pop,
        Some(operator) => Operation::Using(leaving(used, operator.saturating_sub(0xA0))),
    }
}
