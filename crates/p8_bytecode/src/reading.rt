// Bytecodes read from bytes.
ghost use Rattle.std.specs.Prelude.{◌≡◌, ℕ, ◌+◌, ◌-◌, ◌^◌, ◌<◌, ◌≤◌, length, drop, Some, IfSome};
ghost use Rattle.p8_bytecode.specs.Reading.{sign_extended, offset_in, effect_in, changing, variable_in, jump_in, operands_in, op_in, op_at, bare, offset_size};
ghost use Rattle.p8_bytecode.specs.Spelling.{Stands};
ghost use Rattle.p8_bytecode.specs.declared.operands.Operands.TheVariants.{OneByte, TwoBytes, ThreeBytes, SevenBits, Word, Triple, Long, Register};

use crate::op::Op;
use crate::operands::{
    Operands, changes_register, changes_variable, has_base, is_effect, is_register, operands_of,
};

/// The bytecode at a place of some bytes, and the place after it; `None` exactly where no bytecode
/// stands whole there: no bytecode has that byte, a register's or an effect's byte isn't in the
/// tables, bit 7 of a packed constant is 1, or the bytes end before the bytecode does.
#[inline]
pub fn take_op(bytes: &[u8], at: usize) -> Option<(Op, usize)>
    ensures value { result ≡ op_at bytes.now at }
    ensures within { IfSome result (λ taken. (at < taken.1) × (taken.1 ≤ length bytes.now)) }
    ensures whole { IfSome result (λ taken. Stands (drop at bytes.now) taken.0 (taken.1 - at)) }
    ensures stands { (op : Op) (size : ℕ) → Stands (drop at bytes.now) op size → result ≡ Some (op, at + size) }
{
    let (op, size) = op_in(bytes.get(at..)?)?;
    Some((op, at + size))
}

// The bytecode at the head of these bytes, and the number of its bytes.
#[inline]
fn op_in(bytes: &[u8]) -> Option<(Op, usize)>
    ensures value { result ≡ op_in bytes.now }
    ensures within { IfSome result (λ read. (0 < read.1) × (read.1 ≤ length bytes.now)) }
    ensures whole { IfSome result (λ read. Stands bytes.now read.0 read.1) }
{
    let [code, operands @ ..] = bytes else {
        return None;
    };
    let (op, size) = operands_in(operands_of(*code)?, *code, operands)?;
    Some((op, 1 + size))
}

// A bytecode with the operands at the head of these bytes, and how many bytes they have.
fn operands_in(operands: Operands, code: u8, bytes: &[u8]) -> Option<(Op, usize)>
    ensures value { result ≡ operands_in operands code bytes.now }
    ensures within { IfSome result (λ read. read.1 ≤ length bytes.now) }
{
    match operands {
        Operands::Nothing => Some((Op::bare(code), 0)),
        Operands::Offset => jump_in(code, bytes),
        Operands::OneByte => one_byte_in(code, bytes),
        Operands::TwoBytes => two_bytes_in(code, bytes),
        Operands::ThreeBytes => three_bytes_in(code, bytes),
        Operands::SevenBits => seven_bits_in(code, bytes),
        Operands::Word => word_in(code, bytes),
        Operands::Triple => triple_in(code, bytes),
        Operands::Long => long_in(code, bytes),
        Operands::Register => register_in(code, bytes),
        Operands::ShortVariable => changing(changes_variable(code), Op::bare(code), 0, bytes),
        Operands::Variable if has_base(code) => variable_in(code, bytes),
        Operands::Variable => changing(changes_variable(code), Op::bare(code), 0, bytes),
    }
}

fn one_byte_in(code: u8, bytes: &[u8]) -> Option<(Op, usize)>
    ensures value { result ≡ operands_in OneByte code bytes.now }
    ensures within { IfSome result (λ read. read.1 ≤ length bytes.now) }
{
    let [a, ..] = bytes else {
        return None;
    };
    Some((with_first(code, u32::from(*a)), 1))
}

fn two_bytes_in(code: u8, bytes: &[u8]) -> Option<(Op, usize)>
    ensures value { result ≡ operands_in TwoBytes code bytes.now }
    ensures within { IfSome result (λ read. read.1 ≤ length bytes.now) }
{
    let [a, b, ..] = bytes else {
        return None;
    };
    let op = Op {
        second: u32::from(*b),
        ..with_first(code, u32::from(*a))
    };
    Some((op, 2))
}

fn three_bytes_in(code: u8, bytes: &[u8]) -> Option<(Op, usize)>
    ensures value { result ≡ operands_in ThreeBytes code bytes.now }
    ensures within { IfSome result (λ read. read.1 ≤ length bytes.now) }
{
    let [a, b, c, ..] = bytes else {
        return None;
    };
    let op = Op {
        second: u32::from(*b),
        third: u32::from(*c),
        ..with_first(code, u32::from(*a))
    };
    Some((op, 3))
}

fn seven_bits_in(code: u8, bytes: &[u8]) -> Option<(Op, usize)>
    ensures value { result ≡ operands_in SevenBits code bytes.now }
    ensures within { IfSome result (λ read. read.1 ≤ length bytes.now) }
{
    match bytes {
        [a, ..] if *a < 128 => Some((with_first(code, u32::from(*a)), 1)),
        _ => None,
    }
}

fn word_in(code: u8, bytes: &[u8]) -> Option<(Op, usize)>
    ensures value { result ≡ operands_in Word code bytes.now }
    ensures within { IfSome result (λ read. read.1 ≤ length bytes.now) }
{
    let [a, b, ..] = bytes else {
        return None;
    };
    let number = u32::from(*a) * 0x100 + u32::from(*b);
    Some((with_first(code, number), 2))
}

fn triple_in(code: u8, bytes: &[u8]) -> Option<(Op, usize)>
    ensures value { result ≡ operands_in Triple code bytes.now }
    ensures within { IfSome result (λ read. read.1 ≤ length bytes.now) }
{
    let [a, b, c, ..] = bytes else {
        return None;
    };
    let number = u32::from(*a) * 0x1_0000 + u32::from(*b) * 0x100 + u32::from(*c);
    Some((with_first(code, number), 3))
}

fn long_in(code: u8, bytes: &[u8]) -> Option<(Op, usize)>
    ensures value { result ≡ operands_in Long code bytes.now }
    ensures within { IfSome result (λ read. read.1 ≤ length bytes.now) }
{
    let [a, b, c, d, ..] = bytes else {
        return None;
    };
    let number = u32::from(*a) * 0x100_0000
        + u32::from(*b) * 0x1_0000
        + u32::from(*c) * 0x100
        + u32::from(*d);
    Some((with_first(code, number), 4))
}

fn register_in(code: u8, bytes: &[u8]) -> Option<(Op, usize)>
    ensures value { result ≡ operands_in Register code bytes.now }
    ensures within { IfSome result (λ read. read.1 ≤ length bytes.now) }
{
    match bytes {
        [byte, rest @ ..] if is_register(code, *byte) => {
            let byte = u32::from(*byte);
            changing(changes_register(byte), with_first(code, byte), 1, rest)
        }
        _ => None,
    }
}

// A bytecode of memory with a base: a variable's offset, and the effect where the bytecode says "change".
fn variable_in(code: u8, bytes: &[u8]) -> Option<(Op, usize)>
    ensures value { result ≡ variable_in code bytes.now }
    ensures within { IfSome result (λ read. read.1 ≤ length bytes.now) }
{
    match bytes {
        [byte, rest @ ..] if *byte < 128 => changing(
            changes_variable(code),
            with_first(code, u32::from(*byte)),
            1,
            rest,
        ),
        [high, low, rest @ ..] => {
            let place = u32::from(*high % 128) * 256 + u32::from(*low);
            changing(changes_variable(code), with_first(code, place), 2, rest)
        }
        _ => None,
    }
}

// A jump with its offset.
fn jump_in(code: u8, bytes: &[u8]) -> Option<(Op, usize)>
    ensures value { result ≡ jump_in code (offset_in bytes.now) }
    ensures within { IfSome result (λ read. read.1 ≤ length bytes.now) }
{
    let (offset, long_form) = offset_in(bytes)?;
    let op = Op {
        long_form,
        ..with_first(code, offset)
    };
    Some((op, offset_size(long_form)))
}

// The operation with the effect at the head of these bytes where there is one; `size` bytes stand
// before them.
fn changing(changes: bool, op: Op, size: usize, bytes: &[u8]) -> Option<(Op, usize)>
    requires { size < 8 }
    ensures value { result ≡ changing changes op size bytes.now }
    ensures within { IfSome result (λ read. read.1 ≤ size + length bytes.now) }
{
    if changes {
        effect_in(op, size, bytes)
    } else {
        Some((op, size))
    }
}

fn effect_in(op: Op, size: usize, bytes: &[u8]) -> Option<(Op, usize)>
    requires { size < 8 }
    ensures value { result ≡ effect_in op size bytes.now }
    ensures within { IfSome result (λ read. read.1 ≤ size + length bytes.now) }
{
    match bytes {
        [effect @ (0x02 | 0x06), rest @ ..] => {
            let (second, long_form) = offset_in(rest)?;
            let op = Op {
                effect: *effect,
                second,
                long_form,
                ..op
            };
            Some((op, size + 1 + offset_size(long_form)))
        }
        [effect, ..] if is_effect(*effect) => {
            let op = Op {
                effect: *effect,
                ..op
            };
            Some((op, size + 1))
        }
        _ => None,
    }
}

// The offset of a jump as a word, and whether it has two bytes.
fn offset_in(bytes: &[u8]) -> Option<(u32, bool)>
    ensures value { result ≡ offset_in bytes.now }
    ensures within { IfSome result (λ read. offset_size read.1 ≤ length bytes.now) }
{
    match bytes {
        [byte, ..] if *byte < 128 => Some((sign_extended(u32::from(*byte), 7), false)),
        [high, low, ..] => {
            let number = u32::from(*high % 128) * 256 + u32::from(*low);
            Some((sign_extended(number, 15), true))
        }
        _ => None,
    }
}

// How many bytes an offset has.
fn offset_size(long_form: bool) -> usize
    ensures { result ≡ offset_size long_form }
{
    if long_form { 2 } else { 1 }
}

// The word, in two's complement, of the signed number that these lowest bits of a number are.
fn sign_extended(number: u32, bits: u32) -> u32
    requires within { number < 2 ^ bits }
    requires bits { (0 < bits) × (bits < 32) }
    ensures { result ≡ sign_extended bits number }
{
    if number < 1 << (bits - 1) {
        number
    } else {
        number.wrapping_sub(1 << bits)
    }
}

fn with_first(code: u8, first: u32) -> Op
    ensures { result ≡ record (bare code) { first = first } }
{
    Op {
        first,
        ..Op::bare(code)
    }
}
