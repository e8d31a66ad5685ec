// The names of bytecodes, of their effects and of registers.
ghost use Rattle.std.specs.Prelude.{◌≡◌, ◌++◌, map, OnOk};
ghost use Rattle.p8_code.specs.Bytecodes.{bytecode_name, effect_name as name_of_effect, memory_name, named as name_at, names as all_names};
ghost use Rattle.p8_code.specs.Bytecodes.{register_name as name_of_register, short_name};
ghost use Rattle.p8_code.specs.Views.{now_of};

use p8_instr::push_text;
use p8_words::NoMemory;

// 64 bytecodes from 00 on; 32 operators; 16 rows of effects, of four numbers each; 16 registers; what is done with a variable, its base, its size,
// whether there is an index, and the base of a long by its number; the steps of `REPEAT`.
#[rattlefmt::skip]
static NAMES: [&str; 146] = [
    "FRAME_CALL_RETURN", "FRAME_CALL_NORETURN", "FRAME_CALL_ABORT", "FRAME_CALL_TRASHABORT", "BRANCH", "CALL", "OBJCALL", "OBJCALL_INDEXED",
    "LOOP_START", "LOOP_CONTINUE", "JUMP_IF_FALSE", "JUMP_IF_TRUE", "JUMP_FROM_STACK", "COMPARE_CASE", "COMPARE_CASE_RANGE", "LOOK_ABORT",
    "LOOKUP_COMPARE", "LOOKDOWN_COMPARE", "LOOKUPRANGE_COMPARE", "LOOKDOWNRANGE_COMPARE", "QUIT", "MARK_INTERPRETED", "STRSIZE", "STRCOMP",
    "BYTEFILL", "WORDFILL", "LONGFILL", "WAITPEQ", "BYTEMOVE", "WORDMOVE", "LONGMOVE", "WAITPNE",
    "", "COGSTOP", "LOCKRET", "WAITCNT", "", "", "", "",
    "COGINIT_RETURNS", "LOCKNEW_RETURNS", "LOCKSET_RETURNS", "LOCKCLR_RETURNS", "COGINIT", "LOCKNEW", "LOCKSET", "LOCKCLR",
    "ABORT", "ABORT_WITH_RETURN", "RETURN", "POP_RETURN", "PUSH_NEG1", "PUSH_0", "PUSH_1", "PUSH_PACKED_LIT",
    "PUSH_BYTE_LIT", "PUSH_WORD_LIT", "PUSH_MID_LIT", "PUSH_LONG_LIT", "", "INDEXED_MEM_OP", "INDEXED_RANGE_MEM_OP", "MEMORY_OP",
    // 64: E0 to FF
    "ROTATE_RIGHT", "ROTATE_LEFT", "SHIFT_RIGHT", "SHIFT_LEFT", "LIMIT_MIN", "LIMIT_MAX", "NEGATE", "COMPLEMENT",
    "BIT_AND", "ABSOLUTE_VALUE", "BIT_OR", "BIT_XOR", "ADD", "SUBTRACT", "ARITH_SHIFT_RIGHT", "BIT_REVERSE",
    "LOGICAL_AND", "ENCODE", "LOGICAL_OR", "DECODE", "MULTIPLY", "MULTIPLY_HI", "DIVIDE", "MODULO",
    "SQUARE_ROOT", "LESS", "GREATER", "NOT_EQUAL", "EQUAL", "LESS_EQUAL", "GREATER_EQUAL", "LOGICAL_NOT",
    // 96: the effects 00, 04, .. 3C
    "COPY", "", "", "", "EXTEND_8", "EXTEND_16", "BIT_CLEAR", "BIT_SET",
    "PRE_INCREMENT", "PRE_INCREMENT", "POST_INCREMENT", "POST_INCREMENT", "PRE_DECREMENT", "PRE_DECREMENT", "POST_DECREMENT", "POST_DECREMENT",
    // 112: $1F0 to $1FF
    "PAR", "CNT", "INA", "INB", "OUTA", "OUTB", "DIRA", "DIRB", "CTRA", "CTRB", "FRQA", "FRQB", "PHSA", "PHSB", "VCFG", "VSCL",
    // 128
    "PUSH_", "POP_", "EFFECT_", "REFERENCE_",
    "MAINMEM_", "OBJECTMEM_", "VARIABLEMEM_", "LOCALMEM_",
    "BYTE", "WORD", "LONG", "",
    "", "INDEXED_", "VARMEM_LONG", "LOCALMEM_LONG",
    "REPEAT_COMPARE", "REPEAT_COMPARE_STEP",
];

/// The table of names.
fn names() -> &'static [&'static str]
    ensures { map now_of result.now ≡ all_names }
{
    &NAMES
}

/// The name at a number of the table; nothing where there is none.
fn named(number: u8) -> &'static [u8]
    ensures { result.now ≡ name_at number }
{
    match names().get(usize::from(number)) {
        Some(name) => (*name).as_bytes(),
        None => b"",
    }
}

/// Appends the name of a bytecode of memory.
fn push_memory_name(out: &mut Vec<u8>, code: u8) -> Result<(), NoMemory>
    ensures { OnOk result (out.new.items ≡ out.old.items ++ memory_name code) }
{
    push_text(out, named(128 + code % 4))?;
    push_text(out, named(140 + code / 16 % 2))?;
    push_text(out, named(132 + code / 4 % 4))?;
    push_text(out, named(136 + code / 32 % 4))
}

/// Appends the name of the bytecode of a long by its number.
fn push_short_name(out: &mut Vec<u8>, code: u8) -> Result<(), NoMemory>
    ensures { OnOk result (out.new.items ≡ out.old.items ++ short_name code) }
{
    push_text(out, named(128 + code % 4))?;
    push_text(out, named(142 + code / 32 % 2))
}

/// Appends the name of a bytecode by its byte; nothing where no bytecode has it.
pub(crate) fn push_bytecode_name(out: &mut Vec<u8>, code: u8) -> Result<(), NoMemory>
    ensures { OnOk result (out.new.items ≡ out.old.items ++ bytecode_name code) }
{
    if code < 0x40 {
        push_text(out, named(code))
    } else if code < 0x80 {
        push_short_name(out, code)
    } else if code < 0xE0 {
        push_memory_name(out, code)
    } else {
        push_text(out, named(code - 0xA0))
    }
}

/// The name of an effect by its byte without bit 7.
pub(crate) fn effect_name(effect: u8) -> &'static [u8]
    ensures { result.now ≡ name_of_effect effect }
{
    match effect {
        0x02 | 0x06 => named(144 + effect / 4),
        0x00..=0x3F => named(96 + effect / 4),
        _ => named(effect),
    }
}

/// The name of a register by the byte that names it in code.
pub(crate) fn register_name(byte: u32) -> &'static [u8]
    ensures { result.now ≡ name_of_register byte }
{
    if byte == 0x89 {
        b"COGID"
    } else {
        named(112 + (byte % 16) as u8)
    }
}
