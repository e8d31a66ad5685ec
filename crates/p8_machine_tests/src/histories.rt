// Histories that are saved and checked.
ghost use Rattle.std.specs.Prelude.{◌≤◌, IfOk};
ghost use Rattle.p8_access.specs.Proper.{IsProperOrigin};

use crate::programs::{BLINK, BLINK_SAVED, KINDS, LAST_KINDS};
use p8_access::{Boot, Origin, Ram};
use p8_ledger::Limits;
use p8_machine::run_alone;
use p8_pins::PinScript;
use p8_verify::{Cause, VerifyFault, history_bytes, verify};
use p8_words::NoMemory;
use std::alloc::Global;
use std::test::Fail;

/// A write of $2A to $0100, COGID and a stop of that cog.
static PROGRAM: [u8; 20] = [
    0x04, 0x06, 0x3c, 0x08, 0x01, 0x0a, 0xfc, 0x0c, 0x03, 0x0a, 0x7c, 0x0c, 0x2a, 0x00, 0x00, 0x00,
    0x00, 0x01, 0x00, 0x00,
];

/// The file of its history up to clock 176: the load and ten of its reads.
static SAVED: [u8; 280] = [
    0x50, 0x38, 0x48, 0x31, 0xb1, 0x00, 0x00, 0x00, 0x40, 0x9c, 0x00, 0x00, 0x0b, 0x00, 0x00, 0x00,
    0x10, 0x00, 0x00, 0x00, 0x00, 0x01, 0x00, 0x00, 0x00, 0x00, 0x00, 0x00, 0x00, 0x00, 0x00, 0x00,
    0x00, 0x00, 0x00, 0x00, 0x00, 0x00, 0x00, 0x00, 0x20, 0x00, 0x00, 0x00, 0x00, 0x02, 0x01, 0x02,
    0x00, 0x00, 0x00, 0x00, 0x00, 0x00, 0x00, 0x00, 0x00, 0x00, 0x00, 0x00, 0x04, 0x06, 0x3c, 0x08,
    0x30, 0x00, 0x00, 0x00, 0x00, 0x02, 0x01, 0x02, 0x04, 0x00, 0x00, 0x00, 0x00, 0x00, 0x00, 0x00,
    0x00, 0x00, 0x00, 0x00, 0x01, 0x0a, 0xfc, 0x0c, 0x40, 0x00, 0x00, 0x00, 0x00, 0x02, 0x01, 0x02,
    0x08, 0x00, 0x00, 0x00, 0x00, 0x00, 0x00, 0x00, 0x00, 0x00, 0x00, 0x00, 0x03, 0x0a, 0x7c, 0x0c,
    0x50, 0x00, 0x00, 0x00, 0x00, 0x02, 0x01, 0x02, 0x0c, 0x00, 0x00, 0x00, 0x00, 0x00, 0x00, 0x00,
    0x00, 0x00, 0x00, 0x00, 0x2a, 0x00, 0x00, 0x00, 0x60, 0x00, 0x00, 0x00, 0x00, 0x02, 0x01, 0x02,
    0x10, 0x00, 0x00, 0x00, 0x00, 0x00, 0x00, 0x00, 0x00, 0x00, 0x00, 0x00, 0x00, 0x01, 0x00, 0x00,
    0x70, 0x00, 0x00, 0x00, 0x00, 0x02, 0x01, 0x02, 0x14, 0x00, 0x00, 0x00, 0x00, 0x00, 0x00, 0x00,
    0x00, 0x00, 0x00, 0x00, 0x00, 0x00, 0x00, 0x00, 0x80, 0x00, 0x00, 0x00, 0x00, 0x02, 0x01, 0x02,
    0x18, 0x00, 0x00, 0x00, 0x00, 0x00, 0x00, 0x00, 0x00, 0x00, 0x00, 0x00, 0x00, 0x00, 0x00, 0x00,
    0x90, 0x00, 0x00, 0x00, 0x00, 0x02, 0x01, 0x02, 0x1c, 0x00, 0x00, 0x00, 0x00, 0x00, 0x00, 0x00,
    0x00, 0x00, 0x00, 0x00, 0x00, 0x00, 0x00, 0x00, 0xa0, 0x00, 0x00, 0x00, 0x00, 0x02, 0x01, 0x02,
    0x20, 0x00, 0x00, 0x00, 0x00, 0x00, 0x00, 0x00, 0x00, 0x00, 0x00, 0x00, 0x00, 0x00, 0x00, 0x00,
    0xb0, 0x00, 0x00, 0x00, 0x00, 0x02, 0x01, 0x02, 0x24, 0x00, 0x00, 0x00, 0x00, 0x00, 0x00, 0x00,
    0x00, 0x00, 0x00, 0x00, 0x00, 0x00, 0x00, 0x00,
];

/// A change of a byte of that file, and what is wrong with it then.
struct Damage {
    place: usize,
    byte: u8,
    turn: u64,
    cause: Cause,
}

static DAMAGES: [Damage; 12] = [
    // The first letter, CLOCKS 150,995,121, K 65,344, and a head that counts 10 turns.
    Damage {
        place: 0,
        byte: 0x51,
        turn: 0,
        cause: Cause::Form,
    },
    Damage {
        place: 7,
        byte: 0x09,
        turn: 0,
        cause: Cause::Form,
    },
    Damage {
        place: 9,
        byte: 0xFF,
        turn: 0,
        cause: Cause::Form,
    },
    Damage {
        place: 12,
        byte: 10,
        turn: 11,
        cause: Cause::Form,
    },
    // A further kind of access, and an answer of another kind.
    Damage {
        place: 16 + 5,
        byte: 18,
        turn: 1,
        cause: Cause::Form,
    },
    Damage {
        place: 16 + 6,
        byte: 1,
        turn: 1,
        cause: Cause::Answer,
    },
    // CLOCKS 80 and 193.
    Damage {
        place: 4,
        byte: 0x50,
        turn: 5,
        cause: Cause::Extra,
    },
    Damage {
        place: 4,
        byte: 0xC1,
        turn: 12,
        cause: Cause::More,
    },
    // The last turn's clock, its cog, its width and its value.
    Damage {
        place: 256,
        byte: 0xB1,
        turn: 11,
        cause: Cause::Key,
    },
    Damage {
        place: 260,
        byte: 1,
        turn: 11,
        cause: Cause::Key,
    },
    Damage {
        place: 263,
        byte: 0,
        turn: 11,
        cause: Cause::Access,
    },
    Damage {
        place: 276,
        byte: 1,
        turn: 11,
        cause: Cause::Answer,
    },
];

fn boot(alloc: Global) -> Result<Boot, NoMemory>
    ensures { IfOk result (λ boot. IsProperOrigin boot.first) }
{
    Ok(Boot::raw(alloc, &PROGRAM)?)
}

fn boot_of_kinds(alloc: Global) -> Result<Boot, NoMemory>
    ensures { IfOk result (λ boot. IsProperOrigin boot.first) }
{
    Ok(Boot::raw(alloc, &KINDS)?)
}

pub(crate) fn boot_of_blink(alloc: Global) -> Result<Boot, NoMemory>
    ensures { IfOk result (λ boot. IsProperOrigin boot.first) }
{
    Ok(Boot {
        ram: Ram::new(alloc, &BLINK)?,
        first: Origin::Spin {
            entry: 0x1C,
            pbase: 0x10,
            vbase: 0x50,
            frame: 0x78,
            size: 0,
        },
    })
}

/// The file of a history.
fn saved(alloc: Global, boot: Boot, clocks: u64) -> Result<Vec<u8>, NoMemory>
    requires first { IsProperOrigin boot.first }
    requires clocks { clocks ≤ 100000000 }
{
    let limits = Limits {
        clocks,
        turns: 40_000,
    };
    let ended = run_alone(alloc, boot, PinScript::empty(alloc), limits)?;
    history_bytes(alloc, &ended.history)
}

fn checked(alloc: Global, boot: Boot, file: &[u8]) -> Result<u64, VerifyFault>
    requires { IsProperOrigin boot.first }
{
    verify(alloc, boot, PinScript::empty(alloc), file)
}

/// What is saved is the file, and a file of no turns is its head alone.
#[test]
fn saves(rt: HostRuntime) -> Result<(), Fail> {
    let none: [u8; 16] = [
        0x50, 0x38, 0x48, 0x31, 0, 0, 0, 0, 0x40, 0x9C, 0, 0, 0, 0, 0, 0,
    ];
    assert_eq!(rt;
        saved(rt.alloc(), boot(rt.alloc())?, 0)?.as_slice(),
        none.as_slice()
    );
    assert_eq!(rt;
        saved(rt.alloc(), boot(rt.alloc())?, 177)?.as_slice(),
        SAVED.as_slice()
    );
    Ok(())
}

/// The file is good; a byte less is wrong in its last turn, and a byte more after it.
#[test]
fn checks_whole_files(rt: HostRuntime) -> Result<(), Fail> {
    let short = VerifyFault::Bad {
        turn: 11,
        cause: Cause::Form,
    };
    let long = VerifyFault::Bad {
        turn: 12,
        cause: Cause::Form,
    };
    let mut longer = SAVED.as_slice().to_vec(rt.alloc())?;
    longer.extend_from_slice(&[0])?;
    assert_eq!(rt; checked(rt.alloc(), boot(rt.alloc())?, &SAVED), Ok(11));
    assert_eq!(rt;
        checked(rt.alloc(), boot(rt.alloc())?, &SAVED[..279]),
        Err(short)
    );
    assert_eq!(rt; checked(rt.alloc(), boot(rt.alloc())?, &longer), Err(long));
    Ok(())
}

/// Each damage is told with its turn and its cause.
#[test]
fn tells_each_damage(rt: HostRuntime) -> Result<(), Fail> {
    for damage in &DAMAGES {
        let mut file = SAVED;
        file[damage.place % file.len()] = damage.byte;
        let fault = VerifyFault::Bad {
            turn: damage.turn,
            cause: damage.cause,
        };
        assert_eq!(rt; checked(rt.alloc(), boot(rt.alloc())?, &file), Err(fault));
    }
    Ok(())
}

/// The records of each kind of access and answer that PASM comes to.
#[test]
fn saves_all_kinds(rt: HostRuntime) -> Result<(), Fail> {
    let file = saved(rt.alloc(), boot_of_kinds(rt.alloc())?, 20_000)?;
    assert_eq!(rt; file.len(), 12_688);
    assert!(rt; file.as_slice().ends_with(&LAST_KINDS));
    let good = checked(rt.alloc(), boot_of_kinds(rt.alloc())?, &file);
    assert_eq!(rt; good, Ok(528));
    Ok(())
}

/// A program in Spin that starts a second cog.
#[test]
fn saves_spin(rt: HostRuntime) -> Result<(), Fail> {
    let file = saved(rt.alloc(), boot_of_blink(rt.alloc())?, 97_600)?;
    assert_eq!(rt; file.as_slice(), BLINK_SAVED.as_slice());
    let good = checked(rt.alloc(), boot_of_blink(rt.alloc())?, &file);
    assert_eq!(rt; good, Ok(18));
    Ok(())
}
