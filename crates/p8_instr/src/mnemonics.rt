// The words of assembly source that stand for an instruction.
ghost use Rattle.std.specs.Prelude.{◌≡◌, ◌==◌, ◌<◌, map, IsSome, IfSome, option_copied};
ghost use Rattle.std.specs.Str.{str_eq_ignore_ascii_case};
ghost use Rattle.p8_instr.specs.Instruction.{FitsFields};
ghost use Rattle.p8_instr.specs.Mnemonics.{entry_of, word_where, mnemonics, is_named_by};

use crate::instruction::{ALWAYS, FLAG_I, FLAG_R, Instr};

/// A word with the instruction that it stands for, which always executes.
macro_rules! row {
    ($word:literal, $opcode:literal, $flags:expr) => {
        row!($word, $opcode, $flags, 0)
    };
    ($word:literal, $opcode:literal, $flags:expr, $source:literal) => {
        (
            $word,
            Instr {
                opcode: $opcode,
                flags: $flags,
                cond: ALWAYS,
                dest: 0,
                source: $source,
            },
        )
    };
}

const MNEMONICS: [(&[u8], Instr); 83] = [
    row!(b"RDBYTE", 0, FLAG_R),
    row!(b"RDWORD", 1, FLAG_R),
    row!(b"RDLONG", 2, FLAG_R),
    row!(b"WRBYTE", 0, 0),
    row!(b"WRWORD", 1, 0),
    row!(b"WRLONG", 2, 0),
    row!(b"HUBOP", 3, 0),
    row!(b"MUL", 4, FLAG_R),
    row!(b"MULS", 5, FLAG_R),
    row!(b"ENC", 6, FLAG_R),
    row!(b"ONES", 7, FLAG_R),
    row!(b"ROR", 8, FLAG_R),
    row!(b"ROL", 9, FLAG_R),
    row!(b"SHR", 10, FLAG_R),
    row!(b"SHL", 11, FLAG_R),
    row!(b"RCR", 12, FLAG_R),
    row!(b"RCL", 13, FLAG_R),
    row!(b"SAR", 14, FLAG_R),
    row!(b"REV", 15, FLAG_R),
    row!(b"MINS", 16, FLAG_R),
    row!(b"MAXS", 17, FLAG_R),
    row!(b"MIN", 18, FLAG_R),
    row!(b"MAX", 19, FLAG_R),
    row!(b"MOVS", 20, FLAG_R),
    row!(b"MOVD", 21, FLAG_R),
    row!(b"MOVI", 22, FLAG_R),
    row!(b"JMPRET", 23, FLAG_R),
    row!(b"AND", 24, FLAG_R),
    row!(b"ANDN", 25, FLAG_R),
    row!(b"OR", 26, FLAG_R),
    row!(b"XOR", 27, FLAG_R),
    row!(b"MUXC", 28, FLAG_R),
    row!(b"MUXNC", 29, FLAG_R),
    row!(b"MUXZ", 30, FLAG_R),
    row!(b"MUXNZ", 31, FLAG_R),
    row!(b"ADD", 32, FLAG_R),
    row!(b"SUB", 33, FLAG_R),
    row!(b"ADDABS", 34, FLAG_R),
    row!(b"SUBABS", 35, FLAG_R),
    row!(b"SUMC", 36, FLAG_R),
    row!(b"SUMNC", 37, FLAG_R),
    row!(b"SUMZ", 38, FLAG_R),
    row!(b"SUMNZ", 39, FLAG_R),
    row!(b"MOV", 40, FLAG_R),
    row!(b"NEG", 41, FLAG_R),
    row!(b"ABS", 42, FLAG_R),
    row!(b"ABSNEG", 43, FLAG_R),
    row!(b"NEGC", 44, FLAG_R),
    row!(b"NEGNC", 45, FLAG_R),
    row!(b"NEGZ", 46, FLAG_R),
    row!(b"NEGNZ", 47, FLAG_R),
    row!(b"CMPS", 48, 0),
    row!(b"CMPSX", 49, 0),
    row!(b"ADDX", 50, FLAG_R),
    row!(b"SUBX", 51, FLAG_R),
    row!(b"ADDS", 52, FLAG_R),
    row!(b"SUBS", 53, FLAG_R),
    row!(b"ADDSX", 54, FLAG_R),
    row!(b"SUBSX", 55, FLAG_R),
    row!(b"CMPSUB", 56, FLAG_R),
    row!(b"DJNZ", 57, FLAG_R),
    row!(b"TJNZ", 58, 0),
    row!(b"TJZ", 59, 0),
    row!(b"WAITPEQ", 60, 0),
    row!(b"WAITPNE", 61, 0),
    row!(b"WAITCNT", 62, FLAG_R),
    row!(b"WAITVID", 63, 0),
    row!(b"TEST", 24, 0),
    row!(b"TESTN", 25, 0),
    row!(b"CMP", 33, 0),
    row!(b"CMPX", 51, 0),
    row!(b"JMP", 23, 0),
    row!(b"RET", 23, FLAG_I),
    row!(b"CALL", 23, FLAG_R | FLAG_I),
    row!(b"CLKSET", 3, FLAG_I, 0),
    row!(b"COGID", 3, FLAG_R | FLAG_I, 1),
    row!(b"COGINIT", 3, FLAG_I, 2),
    row!(b"COGSTOP", 3, FLAG_I, 3),
    row!(b"LOCKNEW", 3, FLAG_R | FLAG_I, 4),
    row!(b"LOCKRET", 3, FLAG_I, 5),
    row!(b"LOCKSET", 3, FLAG_I, 6),
    row!(b"LOCKCLR", 3, FLAG_I, 7),
    (
        b"NOP",
        Instr {
            opcode: 0,
            flags: 0,
            cond: 0,
            dest: 0,
            source: 0,
        },
    ),
];

/// What stands beside a word in a table, the word's letters taken in any case.
pub(crate) fn entry_in<T: Copy>(mut table: &[(&[u8], T)], word: &[u8]) -> Option<T>
    ensures { result ≡ entry_of (map (λ entry. (entry.0.now, entry.1)) table.entry.now) word.now }
{
    while let [entry, rest @ ..] = table {
        if same_word(entry.0, word) {
            return Some(entry.1);
        }
        table = rest;
    }
    None
}

fn same_word(a: &[u8], b: &[u8]) -> bool
    ensures { result ≡ str_eq_ignore_ascii_case a.now b.now }
{
    a.eq_ignore_ascii_case(b)
}

/// What a word of assembly source stands for, in letters of any case, before its operands,
/// condition and effects are put in; `None` exactly where no instruction has that word.
///
/// Its condition is `ALWAYS`, but for NOP, which is the long 0. `FLAG_R` is set where the
/// instruction writes its result unless NR is written. `FLAG_I` is set for the eight hub words, whose
/// number is the source, and for RET and CALL, which jump to a number.
pub fn default_of(word: &[u8]) -> Option<Instr>
    ensures value { result ≡ entry_of mnemonics word.now }
    ensures in_range { IfSome result FitsFields }
{
    entry_in(&MNEMONICS, word)
}

/// The word of an opcode, from 0 to 63, in listings; each of them has one.
///
/// The opcodes 0 to 2 have one word where they write their result, which they read from the hub,
/// and another where they don't, and write to the hub.
pub fn mnemonic(opcode: u8, writes_result: bool) -> Option<&'static [u8]>
    ensures value { option_copied result ≡ word_where (is_named_by opcode writes_result) mnemonics }
    ensures found { opcode < 64 → IsSome result }
{
    mnemonic_in(&MNEMONICS, opcode, writes_result)
}

fn mnemonic_in<'a>(
    mut table: &[(&'a [u8], Instr)],
    opcode: u8,
    writes_result: bool,
) -> Option<&'a [u8]>
    ensures { option_copied result
        ≡ word_where (is_named_by opcode writes_result) (map (λ entry. (entry.0.now, entry.1)) table.entry.now) }
{
    while let [entry, rest @ ..] = table {
        if is_named_by(entry.1, opcode, writes_result) {
            return Some(entry.0);
        }
        table = rest;
    }
    None
}

fn is_named_by(i: Instr, opcode: u8, writes_result: bool) -> bool
    ensures { result ≡ is_named_by opcode writes_result i }
{
    let written = if writes_result { FLAG_R } else { 0 };
    i.opcode == opcode && (opcode >= 3 || i.flags == written)
}
