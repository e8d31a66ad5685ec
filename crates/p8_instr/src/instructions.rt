// The text of an instruction.
ghost use Rattle.std.specs.Prelude.{◌≡◌, ◌++◌, nat_lt, if◌then◌else◌, [], codes, IfOk, OnOk};
ghost use Rattle.p8_instr.specs.Instruction.{writes_result};
ghost use Rattle.p8_instr.specs.Instructions.{condition_text, word_text, operands_text, effects_text, instruction_text, long_text};

use crate::appending::push_text;
use crate::conditions::condition_name;
use crate::instruction::{ALWAYS, Instr, decode};
use crate::mnemonics::mnemonic;
use crate::numerals::register_digits;
use p8_words::NoMemory;
use std::alloc::Global;

/// Appends the name of the condition and a space, if there is one to print.
fn push_condition(out: &mut Vec<u8>, i: Instr) -> Result<(), NoMemory>
    ensures { OnOk result (out.new.items ≡ out.old.items ++ condition_text i) }
{
    if i.cond == ALWAYS {
        return Ok(());
    }
    push_text(out, condition_name(i.cond).unwrap_or(b""))?;
    push_text(out, b" ")
}

/// Appends the word of the opcode.
fn push_word(out: &mut Vec<u8>, i: Instr) -> Result<(), NoMemory>
    ensures { OnOk result (out.new.items ≡ out.old.items ++ word_text i) }
{
    push_text(out, mnemonic(i.opcode, i.writes_result()).unwrap_or(b""))
}

/// Appends the operands.
fn push_operands(out: &mut Vec<u8>, i: Instr) -> Result<(), NoMemory>
    ensures { OnOk result (out.new.items ≡ out.old.items ++ operands_text i) }
{
    push_text(out, b"$")?;
    push_text(out, &register_digits(u32::from(i.dest)))?;
    push_text(out, if i.is_immediate() { b", #$" } else { b", $" })?;
    push_text(out, &register_digits(u32::from(i.source)))
}

/// What is printed of whether the result is written.
fn result_effect(i: Instr) -> &'static [u8]
    ensures { result.now ≡ (if nat_lt i.opcode 3 then [] else (if writes_result i then codes " WR" else codes " NR")) }
{
    if i.opcode < 3 {
        b""
    } else if i.writes_result() {
        b" WR"
    } else {
        b" NR"
    }
}

/// Appends the effects.
fn push_effects(out: &mut Vec<u8>, i: Instr) -> Result<(), NoMemory>
    ensures { OnOk result (out.new.items ≡ out.old.items ++ effects_text i) }
{
    push_text(out, if i.writes_z() { b" WZ" } else { b"" })?;
    push_text(out, if i.writes_c() { b" WC" } else { b"" })?;
    push_text(out, result_effect(i))
}

/// Appends the text of an instruction.
fn push_instruction(out: &mut Vec<u8>, i: Instr) -> Result<(), NoMemory>
    ensures { OnOk result (out.new.items ≡ out.old.items ++ instruction_text i) }
{
    push_condition(out, i)?;
    push_word(out, i)?;
    push_text(out, b" ")?;
    push_operands(out, i)?;
    push_effects(out, i)
}

/// The text of a long as an instruction of assembly source, such as `IF_Z ADD $000, #$004 WZ WR`.
///
/// It has the condition unless that is `IF_ALWAYS`, the word of the opcode, the destination, the source with `#` where it is a
/// number, `WZ` and `WC` where the flags are written, and `WR` or `NR` but for the words that read and write the hub's memory.
/// The long 0 is `NOP`. The only error is want of memory.
pub fn instr_text(alloc: Global, long: u32) -> Result<Vec<u8>, NoMemory>
    ensures { IfOk result (λ text. text.items ≡ long_text long) }
{
    let mut out = Vec::new(alloc);
    if long == 0 {
        push_text(&mut out, b"NOP")?;
    } else {
        push_instruction(&mut out, decode(long))?;
    }
    Ok(out)
}
