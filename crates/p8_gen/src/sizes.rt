// How many bytes bytecodes have.
ghost use Rattle.std.specs.Prelude.{◌≡◌, ◌≤◌, ℕ, Option, length, if◌then◌else◌, [], Some, None};
ghost use Rattle.p8_bytecode.specs.Reading.{has_base, changes_register, changes_variable};
ghost use Rattle.p8_bytecode.specs.Spelling.{spelled, operand_bytes, effect_bytes, place_bytes, has_long_place, offset_bytes};

use p8_bytecode::{Op, Operands, operands_of};

/// How many bytes a bytecode has as a compiler writes it.
pub(crate) fn size_of(op: &Op) -> u32
    ensures { result ≡ length (spelled op.now) }
{
    match operands_of(op.code) {
        None => 1,
        Some(operands) => 1 + operands_size(operands, op),
    }
}

fn operands_size(operands: Operands, op: &Op) -> u32
    ensures { result ≡ length (operand_bytes (Some operands) (has_long_place op.now) op.now) }
{
    match operands {
        Operands::Nothing => 0,
        Operands::Offset => offset_size(op.long_form),
        Operands::OneByte | Operands::SevenBits => 1,
        Operands::TwoBytes | Operands::Word => 2,
        Operands::ThreeBytes | Operands::Triple => 3,
        Operands::Long => 4,
        Operands::Register => 1 + effect_size(op.first >= 0xC0, op),
        Operands::ShortVariable => effect_size(op.code % 4 == 2, op),
        Operands::Variable => place_size(op) + effect_size(op.code % 4 == 2, op),
    }
}

fn offset_size(long_form: bool) -> u32
    ensures length { (offset : ℕ) → result ≡ length (offset_bytes long_form offset) }
    ensures small { result ≤ 2 }
{
    if long_form { 2 } else { 1 }
}

fn place_size(op: &Op) -> u32
    ensures { result ≡ length (if has_base op.now.code then place_bytes (has_long_place op.now) op.now.first else []) }
{
    if op.code / 4 % 4 == 0 {
        0
    } else if op.code == 0x87 || op.first >= 128 {
        2
    } else {
        1
    }
}

fn effect_size(changes: bool, op: &Op) -> u32
    ensures { result ≡ length (effect_bytes changes op.now) }
{
    if !changes {
        return 0;
    }
    match op.effect {
        0x02 | 0x06 => 1 + offset_size(op.long_form),
        _ => 1,
    }
}
