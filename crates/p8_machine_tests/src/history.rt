// A worked history and its text.
use crate::machine::worked_boot;
use p8_ledger::Limits;
use p8_machine::run_alone;
use p8_pins::PinScript;
use p8_report::trace;
use p8_words::NoMemory;
use std::alloc::Global;

/// The load of a program and the first read of that.
const TEXT: &[u8] =
    b"16 0 load 0000\n32 0 rdlong 0000 083C0604\nended turns 2\nlocks ........\npins 00000000 00000000\n\
    cog 0 running pasm\ncog 1 stopped\ncog 2 stopped\ncog 3 stopped\ncog 4 stopped\ncog 5 stopped\n\
    cog 6 stopped\ncog 7 stopped\n\
    0000: 04 06 3C 08 01 0A FC 0C 03 0A 7C 0C 2A 00 00 00\n0010: 00\n";

/// Whether a history that ends by its turns, with a dump of 17 bytes, has that text.
fn has_the_text(alloc: Global) -> Result<bool, NoMemory> {
    let limits = Limits {
        clocks: 10_000,
        turns: 2,
    };
    let ended = run_alone(alloc, worked_boot(alloc)?, PinScript::empty(alloc), limits)?;
    let text = trace(alloc, &ended, Some((0, 17)))?;
    Ok(text.as_slice() == TEXT)
}

#[test]
fn a_worked_history(rt: HostRuntime) {
    assert!(rt; matches!(has_the_text(rt.alloc()), Ok(true)));
}
