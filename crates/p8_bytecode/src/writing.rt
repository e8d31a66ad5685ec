// Bytecodes written as a compiler writes them.
ghost use Rattle.std.specs.Prelude.{◌≡◌, ℕ, ◌++◌, List, [], length, Some, if◌then◌else◌, OnOk};
ghost use Rattle.p8_bytecode.specs.Spelling.{IsOp, FitsOperands, IsChange, IsPlace, offset_bytes, place_bytes, effect_bytes, operand_bytes};
ghost use Rattle.p8_bytecode.specs.Spelling.{has_long_place, spelled};
ghost use Rattle.p8_bytecode.specs.Reading.{has_base, op_in};

use crate::op::Op;
use crate::operands::{Operands, changes_register, changes_variable, has_base, operands_of};
use p8_words::NoMemory;

/// Appends a bytecode: its byte, its operands and its effect. The offset of a jump has the form that
/// the operation names. The offset of a variable has one byte where it is below 128, except after the
/// byte $87, and else two.
///
/// The operation has to be one that `take_op` can answer. After `NoMemory` a part of the bytecode may
/// have been appended.
pub fn put_op(op: &Op, out: &mut Vec<u8>) -> Result<(), NoMemory>
    requires { IsOp op.now }
    ensures written { OnOk result (out.new.items ≡ out.old.items ++ spelled op.now) }
    ensures read_back { (rest : List ℕ) → op_in (spelled op.now ++ rest) ≡ Some (op.now, length (spelled op.now)) }
{
    out.extend_from_slice(&[op.code])?;
    match operands_of(op.code) {
        None => Ok(()),
        Some(operands) => put_operands(operands, op, out),
    }
}

fn put_operands(operands: Operands, op: &Op, out: &mut Vec<u8>) -> Result<(), NoMemory>
    requires { FitsOperands (Some operands) op.now }
    ensures { OnOk result (out.new.items ≡ out.old.items ++ operand_bytes (Some operands) (has_long_place op.now) op.now) }
{
    let [low, middle, upper, high] = op.first.to_le_bytes();
    match operands {
        Operands::Nothing => Ok(()),
        Operands::Offset => put_offset(op.long_form, op.first, out),
        Operands::OneByte | Operands::SevenBits => put(&[low], out),
        Operands::TwoBytes => put(&[low, op.second as u8], out),
        Operands::ThreeBytes => put(&[low, op.second as u8, op.third as u8], out),
        Operands::Word => put(&[middle, low], out),
        Operands::Triple => put(&[upper, middle, low], out),
        Operands::Long => put(&[high, upper, middle, low], out),
        Operands::Register => {
            put(&[low], out)?;
            put_effect(changes_register(op.first), op, out)
        }
        Operands::ShortVariable => put_effect(changes_variable(op.code), op, out),
        Operands::Variable => {
            put_place(op, out)?;
            put_effect(changes_variable(op.code), op, out)
        }
    }
}

// Appends a variable's offset where the bytecode has a base.
fn put_place(op: &Op, out: &mut Vec<u8>) -> Result<(), NoMemory>
    requires { IsPlace (has_base op.now.code) op.now.first }
    ensures { OnOk result (out.new.items ≡ out.old.items ++ (if has_base op.now.code then place_bytes (has_long_place op.now) op.now.first else [])) }
{
    if !has_base(op.code) {
        Ok(())
    } else if op.code == 0x87 || op.first >= 128 {
        put(&[128 + (op.first / 256) as u8, (op.first % 256) as u8], out)
    } else {
        put(&[op.first as u8], out)
    }
}

// Appends the effect of an operation that changes something, with the offset of a step of REPEAT.
fn put_effect(changes: bool, op: &Op, out: &mut Vec<u8>) -> Result<(), NoMemory>
    requires { IsChange changes op.now }
    ensures { OnOk result (out.new.items ≡ out.old.items ++ effect_bytes changes op.now) }
{
    if !changes {
        return Ok(());
    }
    put(&[op.effect], out)?;
    match op.effect {
        0x02 | 0x06 => put_offset(op.long_form, op.second, out),
        _ => Ok(()),
    }
}

fn put_offset(long_form: bool, offset: u32, out: &mut Vec<u8>) -> Result<(), NoMemory>
    ensures { OnOk result (out.new.items ≡ out.old.items ++ offset_bytes long_form offset) }
{
    if long_form {
        put(
            &[128 + (offset / 256 % 128) as u8, (offset % 256) as u8],
            out,
        )
    } else {
        put(&[(offset % 128) as u8], out)
    }
}

fn put(bytes: &[u8], out: &mut Vec<u8>) -> Result<(), NoMemory>
    ensures { OnOk result (out.new.items ≡ out.old.items ++ bytes.now) }
{
    out.extend_from_slice(bytes)?;
    Ok(())
}
