// Worked pictures.
ghost use Rattle.std.specs.Prelude.{◌≡◌};

use p8_access::{Access, Answer, Boot, Key, Origin, Turn};
use p8_ledger::Limits;
use p8_pins::PinScript;
use p8_wave::{View, plot};
use p8_words::NoMemory;
use std::alloc::Global;
use std::test::Fail;

/// A write of a register by cog 1.
fn write(clock: u64, access: Access) -> Turn
    ensures { result.key.clock ≡ clock }
{
    Turn {
        key: Key { clock, cog: 1 },
        access,
        answer: Answer::Done,
    }
}

/// A boot of an image that begins with these bytes, of which the first four tell the frequency.
fn image(alloc: Global, frequency: [u8; 4]) -> Result<Boot, NoMemory> {
    let first = Origin::Spin {
        entry: 0x18,
        pbase: 0x10,
        vbase: 0x1C,
        frame: 0x24,
        size: 0,
    };
    Ok(Boot {
        ram: Boot::raw(alloc, &frequency)?.ram,
        first,
    })
}

/// A clock a column, up to the run's end, and a picture of no clocks. A raw program tells no frequency.
#[test]
fn shows_each_clock(rt: HostRuntime) -> Result<(), Fail> {
    let script = PinScript::read(rt.alloc(), b"0 00000002\n3 00000001\n12 00000000\n")?;
    let boot = Boot::raw(rt.alloc(), b"")?;
    let limits = Limits {
        clocks: 15,
        turns: 10,
    };
    let view = View {
        pins: 0x8000_0003,
        from: 0,
        to: u64::MAX,
        columns: 101,
        ascii: true,
    };
    let text = plot(rt.alloc(), &boot, &script, &[], limits, &view)?;
    let worked =
        b"P0  ___---------___\nP1  ---____________\nP31 _______________\n    |         |\n    0         10\n\
        0 turns are made, the last at clock 0: no cog makes another before clock 15\n";
    assert_eq!(rt; text.as_slice(), worked.as_slice());
    let late = View { from: 15, ..view };
    let text = plot(rt.alloc(), &boot, &script, &[], limits, &late)?;
    let empty =
        b"P0  \nP1  \nP31 \n0 turns are made, the last at clock 0: no cog makes another before clock 15\n";
    assert_eq!(rt; text.as_slice(), empty.as_slice());
    Ok(())
}

/// Four clocks a column: the script has the pin high from clock 104 to 109, and a cog from clock 500 on. At 96 MHz 40 clocks last
/// 0.41666 microseconds.
#[test]
fn marks_what_changes(rt: HostRuntime) -> Result<(), Fail> {
    let script = PinScript::read(rt.alloc(), b"104 00000010\n110 00000000\n")?;
    let boot = image(rt.alloc(), [0x00, 0xD8, 0xB8, 0x05])?;
    let turns = [
        write(200, Access::DirSet { value: 0x10 }),
        write(500, Access::OutSet { value: 0x10 }),
    ];
    let limits = Limits {
        clocks: 1000,
        turns: 10,
    };
    let view = View {
        pins: 0x10,
        from: 100,
        to: 504,
        columns: 101,
        ascii: false,
    };
    let text = plot(rt.alloc(), &boot, &script, &turns, limits, &view)?;
    let begin = "P4  ▁▔╳▁▁".as_bytes();
    let end = "▁▁▔\n\
        \x20   |         |         |         |         |         |         |         |         |         |         |\n\
        \x20   100       140       180       220       260       300       340       380       420       460       500\n\
        us  1.041     1.458     1.875     2.291     2.708     3.125     3.541     3.958     4.375     4.791     5.208\n\
        2 turns are made, the last at clock 500: no cog makes another before clock 1000\n"
        .as_bytes();
    assert!(rt; text.as_slice().starts_with(begin));
    assert!(rt; text.as_slice().ends_with(end));
    assert_eq!(rt; text.len(), 4 + 3 * 101 + 1 + 106 + 108 + 110 + 80);
    Ok(())
}

/// The pin is high from clock 3,000,000,000 on, which is in the 76th of 101 columns. At 80 MHz these are 50 seconds, and a clock has ten
/// digits where a time has nine characters.
#[test]
fn long_clocks_stand_apart(rt: HostRuntime) -> Result<(), Fail> {
    let script = PinScript::read(rt.alloc(), b"3000000000 00000001\n")?;
    let boot = image(rt.alloc(), [0x00, 0xB4, 0xC4, 0x04])?;
    let limits = Limits {
        clocks: 4_000_000_000,
        turns: 10,
    };
    let view = View {
        pins: 1,
        from: 0,
        to: u64::MAX,
        columns: 101,
        ascii: true,
    };
    let text = plot(rt.alloc(), &boot, &script, &[], limits, &view)?;
    let worked =
        b"P0  ___________________________________________________________________________X-------------------------\n\
        \x20   |         |         |         |         |         |         |         |         |         |         |\n\
        \x20   0                   792079220           1584158440          2376237660          3168316880          3960396100\n\
        ms  0.000     4950.495  9900.990  14851.485 19801.980 24752.475 29702.970 34653.465 39603.961 44554.456 49504.951\n\
        0 turns are made, the last at clock 0: no cog makes another before clock 4000000000\n";
    assert_eq!(rt; text.as_slice(), worked.as_slice());
    Ok(())
}

/// Ten clocks a column, a second after the start: a time has eleven characters where a clock has eight digits.
#[test]
fn long_times_stand_apart(rt: HostRuntime) -> Result<(), Fail> {
    let script = PinScript::empty(rt.alloc());
    let boot = image(rt.alloc(), [0x00, 0xB4, 0xC4, 0x04])?;
    let limits = Limits {
        clocks: 100_000_000,
        turns: 10,
    };
    let view = View {
        pins: 0x8000_0000,
        from: 80_000_000,
        to: 80_000_210,
        columns: 21,
        ascii: true,
    };
    let text = plot(rt.alloc(), &boot, &script, &[], limits, &view)?;
    let worked = b"P31 _____________________\n\
        \x20   |         |         |\n\
        \x20   80000000  80000100  80000200\n\
        us  1000000.000         1000002.500\n\
        0 turns are made, the last at clock 0: no cog makes another before clock 100000000\n";
    assert_eq!(rt; text.as_slice(), worked.as_slice());
    Ok(())
}
