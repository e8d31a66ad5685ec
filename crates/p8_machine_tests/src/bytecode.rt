// Bytecodes of worked programs, read and written back.
use p8_bytecode::{Op, Operands, operands_of, put_op, take_op};
use p8_words::NoMemory;
use std::alloc::Global;

/// The bytes of a bytecode, its number, its three operands, its effect, and whether its offset has the long form.
type Spelling = (&'static [u8], u8, [u32; 3], u8, bool);

/// Whether these bytes are this bytecode, and are written for it.
fn is_spelled(alloc: Global, spelling: &Spelling) -> Result<bool, NoMemory> {
    let (bytes, code, [first, second, third], effect, long_form) = *spelling;
    let Some((op, next)) = take_op(bytes, 0) else {
        return Ok(false);
    };
    let expected = Op {
        code,
        first,
        second,
        third,
        effect,
        long_form,
    };
    let mut written = Vec::new(alloc);
    put_op(&op, &mut written)?;
    Ok(op == expected && next == bytes.len() && written.as_slice() == bytes)
}

static SPELLINGS: [Spelling; 11] = [
    (b"\x34", 0x34, [0, 0, 0], 0, false),
    // A jump by -2 in the short form, and by -17 in the long one.
    (b"\x04\x7E", 0x04, [0xFFFF_FFFE, 0, 0], 0, false),
    (b"\x04\xFF\xEF", 0x04, [0xFFFF_FFEF, 0, 0], 0, true),
    // The start of method 2 with one argument; a call in an array of objects.
    (b"\x15\x02\x01", 0x15, [2, 1, 0], 0, false),
    (b"\x07\x86\x29\x90", 0x07, [134, 41, 144], 0, false),
    // The constants 1000 and 12,000,000.
    (b"\x39\x03\xE8", 0x39, [1000, 0, 0], 0, false),
    (b"\x3B\x00\xB7\x1B\x00", 0x3B, [12_000_000, 0, 0], 0, false),
    // DIRA's pin becomes an output.
    (b"\x3D\xD6\x1C", 0x3D, [0xD6, 0, 0], 0x1C, false),
    // A local long counts a REPEAT with a step; the code goes back by 3.
    (b"\x66\x06\x7D", 0x66, [0, 0xFFFF_FFFD, 0], 0x06, false),
    // A variable at 25,712 gets a value that stays on the stack; a text's address.
    (b"\xCE\xE4\x70\xCB", 0xCE, [25_712, 0, 0], 0xCB, false),
    (b"\x87\x80\x2C", 0x87, [0x2C, 0, 0], 0, false),
];

#[test]
fn bytecodes_have_one_spelling(rt: HostRuntime) {
    for spelling in &SPELLINGS {
        let is_one = matches!(is_spelled(rt.alloc(), spelling), Ok(true));
        assert!(rt; is_one, "bytecode {}", spelling.1);
    }
}

/// Bytes at whose begin no bytecode stands.
static NO_BYTECODES: [&[u8]; 7] = [
    // No byte; no such bytecode; a packed constant with bit 7; an offset whose second byte is missing.
    b"",
    b"\x20",
    b"\x37\x80",
    b"\x04\xFF",
    // A register below the last sixteen; an effect that isn't in the table, one with bit 7 too many.
    b"\x3F\x80",
    b"\x42\x60",
    b"\x42\x82\x00",
];

#[test]
fn no_bytecode_stands(rt: HostRuntime) {
    for bytes in &NO_BYTECODES {
        assert!(rt; take_op(bytes, 0).is_none());
    }
    // COGID is no register whose pins a bytecode names.
    let is_named = matches!(take_op(b"\x3F\x89", 0), Some((_, 2)));
    let has_pins = take_op(b"\x3E\x89", 0).is_some();
    assert!(rt; is_named && !has_pins && operands_of(0x3F) == Some(Operands::Register));
}
