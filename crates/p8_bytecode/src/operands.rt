// The table of bytecodes: which bytes stand after each.
ghost use Rattle.std.specs.Prelude.{◌≡◌};
ghost use Rattle.p8_bytecode.specs.Table.{operands_of, is_register, is_effect};
ghost use Rattle.p8_bytecode.specs.Reading.{changes_variable, has_base, changes_register};

/// What stands after the byte of a bytecode, in the order of the bytes.
///
/// Source: the public Spin bytecode listing of the Propeller P8X32A.
#[derive(Clone, Copy, Debug, PartialEq, Eq)]
pub enum Operands {
    /// Nothing.
    Nothing,
    /// The offset of a jump, of one or two bytes.
    Offset,
    /// One byte.
    OneByte,
    /// Two bytes, each a number of its own.
    TwoBytes,
    /// Three bytes, each a number of its own.
    ThreeBytes,
    /// One byte whose bit 7 is 0.
    SevenBits,
    /// A number of two bytes, high byte first.
    Word,
    /// A number of three bytes, high byte first.
    Triple,
    /// A number of four bytes, high byte first.
    Long,
    /// The byte of a register, then an effect where the byte says "change".
    Register,
    /// An effect where the bytecode says "change"; the bytecode itself names the variable.
    ShortVariable,
    /// The offset of a variable where the bytecode has a base, then an effect where it says "change".
    Variable,
}

/// What stands after a bytecode's byte; `None` exactly where no bytecode has that byte.
///
/// It is always inlined, since the loop of a Spin cog is to hold it.
#[inline(always)]
#[tactic(auto, unfolding(crate::specs::Table::rows))]
pub fn operands_of(code: u8) -> Option<Operands>
    ensures { result ≡ operands_of code }
{
    match code {
        0x00..=0x03 => Some(Operands::Nothing),
        0x04 => Some(Operands::Offset),
        0x05 => Some(Operands::OneByte),
        0x06 => Some(Operands::TwoBytes),
        0x07 => Some(Operands::ThreeBytes),
        0x08..=0x0B => Some(Operands::Offset),
        0x0C => Some(Operands::Nothing),
        0x0D..=0x0E => Some(Operands::Offset),
        0x0F => Some(Operands::Nothing),
        0x10..=0x13 => Some(Operands::Offset),
        0x14 => Some(Operands::Nothing),
        0x15 => Some(Operands::TwoBytes),
        0x16..=0x1F => Some(Operands::Nothing),
        0x21..=0x23 => Some(Operands::Nothing),
        0x28..=0x36 => Some(Operands::Nothing),
        0x37 => Some(Operands::SevenBits),
        0x38 => Some(Operands::OneByte),
        0x39 => Some(Operands::Word),
        0x3A => Some(Operands::Triple),
        0x3B => Some(Operands::Long),
        0x3D..=0x3F => Some(Operands::Register),
        0x40..=0x7F => Some(Operands::ShortVariable),
        0x80..=0xDF => Some(Operands::Variable),
        0xE0..=0xFF => Some(Operands::Nothing),
        _ => None,
    }
}

// Whether a byte names a register after this bytecode: $90, $B0 or $D0 (push, pop, change) plus the
// register's address less $1F0; and $89 after $3F, which is COGID.
pub(crate) fn is_register(code: u8, byte: u8) -> bool
    ensures { result ≡ is_register code byte }
{
    match byte {
        0x90..=0x9F | 0xB0..=0xBF | 0xD0..=0xDF => true,
        0x89 => code == 0x3F,
        _ => false,
    }
}

// Whether a byte is an effect. Bit 7 says that a value is left, but for 02 and 06, the steps of REPEAT,
// which leave none.
pub(crate) fn is_effect(byte: u8) -> bool
    ensures { result ≡ is_effect byte }
{
    match byte {
        0x02 | 0x06 => true,
        _ => matches!(byte % 128, 0x00 | 0x10 | 0x14 | 0x18 | 0x1C | 0x20..=0x5F),
    }
}

// Whether a bytecode of memory, or of a long variable by its number, has an effect.
pub(crate) fn changes_variable(code: u8) -> bool
    ensures { result ≡ changes_variable code }
{
    code % 4 == 2
}

// Whether a bytecode of memory has a variable's offset.
pub(crate) fn has_base(code: u8) -> bool
    ensures { result ≡ has_base code }
{
    code / 4 % 4 > 0
}

// Whether an effect follows the byte of a register.
pub(crate) fn changes_register(byte: u32) -> bool
    ensures { result ≡ changes_register byte }
{
    byte >= 0xC0
}
