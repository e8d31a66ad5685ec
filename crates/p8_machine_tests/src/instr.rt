// Words, conditions and longs of programs whose longs are known.
use p8_instr::{
    FLAG_I, FLAG_Z, Instr, condition_name, condition_of, decode, default_of, encode, mnemonic,
};

/// A word, the flags, the destination and the source that are added to what it stands for, and the long.
type Spelling = (&'static str, u8, u16, u16, u32);

/// Whether the word stands for the long, and the long for its own fields.
fn makes_its_long(spelling: &Spelling) -> bool {
    let (word, flags, dest, source, long) = *spelling;
    let Some(found) = default_of(word.as_bytes()) else {
        return false;
    };
    let i = Instr {
        flags: found.flags | flags,
        dest,
        source: found.source | source,
        ..found
    };
    i == decode(long) && encode(decode(long)) == long
}

static SPELLINGS: [Spelling; 13] = [
    ("wrlong", 0, 3, 4, 0x083C_0604),
    ("RdLong", 0, 12, 13, 0x08BC_180D),
    ("coginit", 0, 6, 0, 0x0C7C_0C02),
    ("COGID", 0, 5, 0, 0x0CFC_0A01),
    ("lockNew", 0, 8, 0, 0x0CFC_1004),
    ("jmp", FLAG_I, 0, 2, 0x5C7C_0002),
    ("ret", 0, 0, 0, 0x5C7C_0000),
    ("add", FLAG_I, 12, 1, 0x80FC_1801),
    ("MOV", FLAG_I, 0, 4, 0xA0FC_0004),
    ("djnz", FLAG_I, 5, 0, 0xE4FC_0A00),
    ("waitpeq", 0, 3, 3, 0xF03C_0603),
    ("waitcnt", FLAG_I, 7, 0, 0xF8FC_0E00),
    ("nop", 0, 0, 0, 0x0000_0000),
];

#[test]
fn words_make_longs(rt: HostRuntime) {
    for spelling in &SPELLINGS {
        assert!(rt; makes_its_long(spelling), "{}", spelling.0);
    }
    assert!(rt; default_of(b"MOVE").is_none());
}

/// A word, the condition that it names, and how that is printed.
type Name = (&'static str, u8, &'static str);

static NAMES: [Name; 5] = [
    ("IF_ALWAYS", 15, "IF_ALWAYS"),
    ("if_nz_and_nc", 1, "IF_A"),
    ("If_Z_Eq_C", 9, "IF_C_EQ_Z"),
    ("IF_NC", 3, "IF_AE"),
    ("IF_NZ_OR_NC", 7, "IF_NC_OR_NZ"),
];

/// Whether a word names this condition, and the condition is printed so.
fn names_condition(name: &Name) -> bool {
    let (word, field, printed) = *name;
    match condition_name(field) {
        Some(name) => condition_of(word.as_bytes()) == Some(field) && name == printed.as_bytes(),
        None => false,
    }
}

/// Whether the opcode has this mnemonic.
fn has_mnemonic(opcode: u8, writes_result: bool, word: &[u8]) -> bool {
    match mnemonic(opcode, writes_result) {
        Some(found) => found == word,
        None => false,
    }
}

#[test]
fn conditions_have_names(rt: HostRuntime) {
    for name in &NAMES {
        assert!(rt; names_condition(name), "{}", name.0);
    }
    let has_names = has_mnemonic(0, false, b"WRBYTE") && has_mnemonic(40, true, b"MOV");
    assert!(rt; has_names && condition_of(b"IF_MAYBE").is_none());
}

#[test]
fn fields_say_when_and_what(rt: HostRuntime) {
    // IF_C_AND_NZ executes with C and without Z; the flags are Z and I.
    let i = Instr {
        opcode: 40,
        flags: FLAG_Z | FLAG_I,
        cond: 4,
        dest: 0,
        source: 0,
    };
    let is_met = i.is_met(true, false) && !i.is_met(false, true);
    let writes = i.writes_z() && !i.writes_c() && !i.writes_result() && i.is_immediate();
    assert!(rt; is_met && writes);
}
