// Worked values.
use p8_access::Test;
use p8_pins::{PinScript, ScriptFault};
use p8_words::Fail as Failure;
use std::alloc::{AllocError, Global};

/// The line of the fault of a text that is refused.
fn refused_line(alloc: Global, text: &str) -> Option<u32> {
    match PinScript::read(alloc, text.as_bytes()) {
        Err(Failure::Refused(fault)) => Some(fault.line),
        Err(Failure::NoMemory) => None,
        Ok(script) => {
            drop(script);
            None
        }
    }
}

/// Texts, and the first bad line of each.
static BAD_TEXTS: [(&str, u32); 3] = [
    ("9000 1", 1),
    ("5 00000001\n5 00000000", 2),
    ("# a\r\n\r\n5 00000001\r\n5 00000001\r\n", 4),
];

/// Whether a fault has this text.
fn has_text(alloc: Global, fault: ScriptFault, text: &str) -> Result<bool, AllocError> {
    let found = fault.to_string(alloc)?;
    Ok(found.as_str() == text)
}

#[test]
fn refuses_the_first_bad_line(rt: HostRuntime) {
    for (text, line) in &BAD_TEXTS {
        assert!(rt;
            refused_line(rt.alloc(), text) == Some(*line),
            "line {line}"
        );
    }
    let fault = ScriptFault { line: 2 };
    assert!(rt; matches!(has_text(rt.alloc(), fault, "line 2"), Ok(true)));
}

/// Whether the levels are those of the lines.
fn has_levels(script: &PinScript) -> bool {
    script.level_at(4) == 0
        && script.level_at(5) == 1
        && script.level_at(8) == 1
        && script.level_at(9) == 0xABCD
}

/// Whether the wait is over at clock 9 and in no span before it, in which a wait for a count is over.
fn has_matches(script: &PinScript) -> bool {
    let test = Test::PinsEqual {
        state: 0xCD,
        mask: 0xFF,
    };
    let span = script.span_at(6);
    let count = Test::Count { target: 8 };
    script.first_match(6, 0, 0, &test) == Some(9)
        && span.levels == 1
        && span.end == Some(9)
        && script.span_near(&script.span_at(0), 6) == span
        && span.first_match(6, 0, 0, &test).is_none()
        && span.first_match(6, 0, 0, &count) == Some(8)
}

#[test]
fn decides_waits_by_a_script(rt: HostRuntime) {
    let text = b"#5\n0000000005 00000001\r\n9 0000aBcD\n";
    let Ok(script) = PinScript::read(rt.alloc(), text) else {
        panic!(rt; "a script of two lines")
    };
    let is_empty = PinScript::empty(rt.alloc()).level_at(9) == 0;
    assert!(rt; is_empty && has_levels(&script) && has_matches(&script));
}
