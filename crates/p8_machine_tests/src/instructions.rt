// Longs of worked programs and their texts.
use p8_report::instr_text;
use p8_words::NoMemory;
use std::alloc::Global;

/// Whether a long has this text.
fn has_text(alloc: Global, long: u32, expected: &str) -> Result<bool, NoMemory> {
    let text = instr_text(alloc, long)?;
    Ok(text.as_slice() == expected.as_bytes())
}

/// Longs and their texts.
static TEXTS: [(u32, &str); 4] = [
    (0x0000_0000, "NOP"),
    (0x5C7C_0000, "JMPRET $000, #$000 NR"),
    (0x083C_0604, "WRLONG $003, $004"),
    (0xA0FC_0004, "MOV $000, #$004 WR"),
];

#[test]
fn longs_have_texts(rt: HostRuntime) {
    for (long, text) in &TEXTS {
        assert!(rt;
            matches!(has_text(rt.alloc(), *long, text), Ok(true)),
            "{text}"
        );
    }
}
