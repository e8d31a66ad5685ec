// The long of an instruction's line.
ghost use Rattle.std.specs.Prelude.{◌≡◌, ◌<◌, MatchOption, IfOk};
ghost use Rattle.std.specs.Str.{bytes_eq};
ghost use Rattle.p8_tree.specs.Views.{instruction_of};
ghost use Rattle.p8_tree.specs.declared.faults.Fault.{Fault};
ghost use Rattle.p8_tree.specs.Faults.{IsFirstFault};
ghost use Rattle.p8_fold.specs.ConstantEntries.{setting_of};
ghost use Rattle.p8_instr.specs.Instruction.{FitsFields};
ghost use Rattle.p8_dat.specs.Encoding.{bit, flags_of, instr_with, long_of_fields, long_of_line, FaultInInstruction};
ghost use Rattle.p8_dat.specs.FirstOfLine.{first_in_instruction};

use crate::calls::called;
use crate::operands::operand_of;
use p8_fold::Consts;
use p8_instr::{FLAG_C, FLAG_I, FLAG_R, FLAG_Z, Instr, default_of, encode};
use p8_tree::{Fault, InstrLine, first_of_two};
use p8_words::NoMemory;
use std::alloc::Global;

/// The long of an instruction's line, in which an operand that is refused counts as 0, and the first of what is wrong with the
/// line: 12, 13, 15 and 16 of its expressions, 21 at an operand that isn't from 0 to 511 or is a label off the longs, 24 at a
/// CALL without its label `x_RET`.
#[derive(Clone, Copy, Debug, PartialEq, Eq)]
pub struct Encoded {
    pub long: u32,
    pub fault: Option<Fault>,
}

/// The long of an instruction's line whose names mean what the table says, with `$` and the registers as in an operand.
///
/// Memory is taken for the name of a CALL's label `x_RET`.
pub fn encode_line(alloc: Global, line: &InstrLine, consts: &Consts) -> Result<Encoded, NoMemory>
    ensures long { IfOk result (λ e. e.long ≡ long_of_line (setting_of consts.now) (instruction_of line.now)) }
    ensures fault { IfOk result (λ e. MatchOption e.fault ((f : Fault) → ¬ FaultInInstruction (setting_of consts.now) (instruction_of line.now) f)
        (IsFirstFault (FaultInInstruction (setting_of consts.now) (instruction_of line.now)))) }
    ensures told { IfOk result (λ e. e.fault ≡ first_in_instruction (setting_of consts.now) (instruction_of line.now)) }
{
    let source = operand_of(&line.source, line.source_place, consts);
    let dest = operand_of(&line.dest, line.dest_place, consts);
    let fault = first_of_two(dest.fault, source.fault);
    if is_word(line, b"CALL") {
        let end = called(
            alloc,
            &line.source,
            line.dest_place,
            line.source_place,
            consts,
        )?;
        Ok(Encoded {
            long: long_of(line, end.field, source.field),
            fault: first_of_two(fault, end.fault),
        })
    } else {
        Ok(Encoded {
            long: long_of(line, dest.field, source.field),
            fault,
        })
    }
}

// Whether this is the instruction's word.
fn is_word(line: &InstrLine, word: &[u8]) -> bool
    ensures { result ≡ bytes_eq line.now.word word.now }
{
    line.word.as_slice() == word
}

// The long of a line with these fields of its operands.
fn long_of(line: &InstrLine, dest: u16, source: u16) -> u32
    requires dest { dest < 512 }
    requires source { source < 512 }
    ensures { result ≡ long_of_fields (instruction_of line.now) dest source }
{
    if is_word(line, b"NOP") {
        0
    } else {
        match default_of(line.word.as_slice()) {
            None => 0,
            Some(word) => encode(instr_of(line, word, dest, source)),
        }
    }
}

// The instruction of a line with this word.
fn instr_of(line: &InstrLine, word: Instr, dest: u16, source: u16) -> Instr
    requires dest { dest < 512 }
    requires source { source < 512 }
    requires word { FitsFields word }
    ensures value { result ≡ instr_with (instruction_of line.now) word dest source }
    ensures in_range { FitsFields result }
{
    Instr {
        opcode: word.opcode,
        flags: flags_of(word, line.immediate, line.effects),
        cond: line.cond % 16,
        dest,
        source: if line.source.is_some() {
            source
        } else {
            word.source
        },
    }
}

// Whether a bit of the effects is set.
fn has_effect(effects: u8, place: u8) -> bool
    requires { place < 8 }
    ensures { result ≡ bit place effects }
{
    effects >> place & 1 == 1
}

// The flags Z, C, R and I.
fn flags_of(word: Instr, immediate: bool, effects: u8) -> u8
    ensures value { result ≡ flags_of word immediate effects }
    ensures in_range { result < 16 }
{
    let writes = if word.writes_result() {
        !has_effect(effects, 3)
    } else {
        has_effect(effects, 2)
    };
    FLAG_Z * u8::from(has_effect(effects, 0))
        + FLAG_C * u8::from(has_effect(effects, 1))
        + FLAG_R * u8::from(writes)
        + FLAG_I * u8::from(immediate || word.is_immediate())
}
