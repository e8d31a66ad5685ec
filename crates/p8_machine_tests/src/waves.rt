// Worked runs as waves.
ghost use Rattle.std.specs.Prelude.{◌≤◌, length};

use p8_access::{Boot, Origin};
use p8_ledger::{Ended, Limits};
use p8_machine::run_alone;
use p8_pins::PinScript;
use p8_wave::{Selection, wave};
use p8_words::NoMemory;
use std::alloc::Global;
use std::test::Fail;

/// Cog 0 starts cog 1, which waits for pin 0; cog 0 makes it high, and both stop.
pub(crate) const WAKING: [u8; 48] = [
    0x02, 0x0E, 0x7C, 0x0C, 0x00, 0x10, 0xFC, 0xF8, 0x01, 0xE8, 0xFF, 0xA0, 0x01, 0xEC, 0xFF, 0xA0,
    0x03, 0x12, 0x7C, 0x0C, 0x05, 0x0A, 0x3C, 0xF0, 0x03, 0x0C, 0x7C, 0x0C, 0x58, 0x00, 0x00, 0x00,
    0x00, 0x41, 0x00, 0x00, 0x00, 0x00, 0x00, 0x00, 0x01, 0x00, 0x00, 0x00, 0x01, 0x00, 0x00, 0x00,
];

const WOKEN: &[u8] = b"$version Propeller P8X32A $end\n$timescale 100 ps $end\n\
    $scope module pins $end\n$var wire 1 ! P0 $end\n$upscope $end\n\
    $scope module cog0 $end\n$var wire 32 A outa $end\n$var wire 32 B dira $end\n$var wire 2 C state $end\n$upscope $end\n\
    $scope module cog1 $end\n$var wire 2 F state $end\n$upscope $end\n\
    $enddefinitions $end\n\
    #0\n$dumpvars\n0!\nb00000000000000000000000000000000 A\nb00000000000000000000000000000000 B\nb01 C\nb00 F\n$end\n\
    #2000\nb10 C\n\
    #1028000\nb01 F\n\
    #1028250\nb10 F\n\
    #2080625\nb00000000000000000000000000000001 A\n\
    #2081125\n1!\nb00000000000000000000000000000001 B\n\
    #2082000\n0!\nb00000000000000000000000000000000 A\nb00000000000000000000000000000000 B\nb00 C\n\
    #2082250\nb00 F\n\
    #2500000\n\
    $comment 1001 turns are made, the last at clock 16658: no cog makes another before clock 20000 $end\n";

/// The wave of a run of a raw program over so many clocks, without a pin script.
fn raw_wave(
    alloc: Global,
    program: &[u8],
    clocks: u64,
    selection: Selection,
) -> Result<Vec<u8>, NoMemory>
    requires program { length program.now ≤ 32768 }
    requires clocks { clocks ≤ 4000000000 }
{
    let limits = Limits {
        clocks,
        turns: 100_000,
    };
    let boot = Boot::raw(alloc, program)?;
    let ended = run_alone(alloc, boot, PinScript::empty(alloc), limits)?;
    wave(alloc, &ended.history, &PinScript::empty(alloc), selection)
}

/// The clock is 80 MHz, so a clock lasts 125 units of 100 ps. Cog 0 has 502 turns, its load with 496 reads, a start, a wait, two writes of
/// registers and a stop, and cog 1 has 499.
#[test]
fn a_cog_wakes_another(rt: HostRuntime) -> Result<(), Fail> {
    let selection = Selection {
        all: false,
        pins_only: false,
    };
    let text = raw_wave(rt.alloc(), &WAKING, 20_000, selection)?;
    assert_eq!(rt; text.as_slice(), WOKEN);
    Ok(())
}

/// Of the same run pin 0 alone changes.
const WOKEN_PINS: &[u8] = b"$version Propeller P8X32A $end\n$timescale 100 ps $end\n\
    $scope module pins $end\n$var wire 1 ! P0 $end\n$upscope $end\n\
    $enddefinitions $end\n\
    #0\n$dumpvars\n0!\n$end\n\
    #2081125\n1!\n\
    #2082000\n0!\n\
    #2500000\n\
    $comment 1001 turns are made, the last at clock 16658: no cog makes another before clock 20000 $end\n";

#[test]
fn pins_alone(rt: HostRuntime) -> Result<(), Fail> {
    let selection = Selection {
        all: false,
        pins_only: true,
    };
    let text = raw_wave(rt.alloc(), &WAKING, 20_000, selection)?;
    assert_eq!(rt; text.as_slice(), WOKEN_PINS);
    Ok(())
}

/// The same program, but that cog 0 waits for clock 3,000,000,000: its wait is in register 8.
const WAITING: [u8; 48] = [
    0x02, 0x0E, 0x7C, 0x0C, 0x00, 0x10, 0xFC, 0xF8, 0x01, 0xE8, 0xFF, 0xA0, 0x01, 0xEC, 0xFF, 0xA0,
    0x03, 0x12, 0x7C, 0x0C, 0x05, 0x0A, 0x3C, 0xF0, 0x03, 0x0C, 0x7C, 0x0C, 0x58, 0x00, 0x00, 0x00,
    0x00, 0x5E, 0xD0, 0xB2, 0x00, 0x00, 0x00, 0x00, 0x01, 0x00, 0x00, 0x00, 0x01, 0x00, 0x00, 0x00,
];

/// Both clocks that are waited for are multiples of 16, so all that follows comes 2,999,983,360 clocks later, up to the last clock that
/// a run may have.
const WAITED: &[u8] = b"$version Propeller P8X32A $end\n$timescale 100 ps $end\n\
    $scope module pins $end\n$var wire 1 ! P0 $end\n$upscope $end\n\
    $enddefinitions $end\n\
    #0\n$dumpvars\n0!\n$end\n\
    #375000001125\n1!\n\
    #375000002000\n0!\n\
    #500000000000\n\
    $comment 1001 turns are made, the last at clock 3000000018: no cog makes another before clock 4000000000 $end\n";

/// A run of no clock has the values at clock 0, and that time once.
const NO_CLOCK: &[u8] = b"$version Propeller P8X32A $end\n$timescale 100 ps $end\n\
    $enddefinitions $end\n\
    #0\n$dumpvars\n$end\n\
    $comment 0 turns are made, the last at clock 0: no cog makes another before clock 0 $end\n";

#[test]
fn the_longest_and_the_shortest_run(rt: HostRuntime) -> Result<(), Fail> {
    let selection = Selection {
        all: false,
        pins_only: true,
    };
    let text = raw_wave(rt.alloc(), &WAITING, 4_000_000_000, selection)?;
    assert_eq!(rt; text.as_slice(), WAITED);
    let text = raw_wave(rt.alloc(), &WAITING, 0, selection)?;
    assert_eq!(rt; text.as_slice(), NO_CLOCK);
    Ok(())
}

/// Cog 0 takes a lock, sets it, clears it and gives it back, and stops.
const LOCKING: [u8; 24] = [
    0x04, 0x0A, 0xFC, 0x0C, 0x06, 0x0A, 0x7C, 0x0C, 0x07, 0x0A, 0x7C, 0x0C, 0x05, 0x0A, 0x7C, 0x0C,
    0x03, 0x0A, 0x7C, 0x0C, 0x00, 0x00, 0x00, 0x00,
];

/// The first access is at clock 8224, and each comes 16 clocks after the one before. All pins and locks stand, and no
/// cog.
const LOCKED: &[u8] = b"$version Propeller P8X32A $end\n$timescale 100 ps $end\n\
    $scope module pins $end\n\
    $var wire 1 ! P0 $end\n$var wire 1 \" P1 $end\n$var wire 1 # P2 $end\n$var wire 1 $ P3 $end\n\
    $var wire 1 % P4 $end\n$var wire 1 & P5 $end\n$var wire 1 ' P6 $end\n$var wire 1 ( P7 $end\n\
    $var wire 1 ) P8 $end\n$var wire 1 * P9 $end\n$var wire 1 + P10 $end\n$var wire 1 , P11 $end\n\
    $var wire 1 - P12 $end\n$var wire 1 . P13 $end\n$var wire 1 / P14 $end\n$var wire 1 0 P15 $end\n\
    $var wire 1 1 P16 $end\n$var wire 1 2 P17 $end\n$var wire 1 3 P18 $end\n$var wire 1 4 P19 $end\n\
    $var wire 1 5 P20 $end\n$var wire 1 6 P21 $end\n$var wire 1 7 P22 $end\n$var wire 1 8 P23 $end\n\
    $var wire 1 9 P24 $end\n$var wire 1 : P25 $end\n$var wire 1 ; P26 $end\n$var wire 1 < P27 $end\n\
    $var wire 1 = P28 $end\n$var wire 1 > P29 $end\n$var wire 1 ? P30 $end\n$var wire 1 @ P31 $end\n\
    $upscope $end\n$scope module locks $end\n\
    $var wire 1 Y lock0 $end\n$var wire 1 Z taken0 $end\n$var wire 1 [ lock1 $end\n$var wire 1 \\ taken1 $end\n\
    $var wire 1 ] lock2 $end\n$var wire 1 ^ taken2 $end\n$var wire 1 _ lock3 $end\n$var wire 1 ` taken3 $end\n\
    $var wire 1 a lock4 $end\n$var wire 1 b taken4 $end\n$var wire 1 c lock5 $end\n$var wire 1 d taken5 $end\n\
    $var wire 1 e lock6 $end\n$var wire 1 f taken6 $end\n$var wire 1 g lock7 $end\n$var wire 1 h taken7 $end\n\
    $upscope $end\n$enddefinitions $end\n#0\n$dumpvars\n\
    0!\n0\"\n0#\n0$\n0%\n0&\n0'\n0(\n0)\n0*\n0+\n0,\n0-\n0.\n0/\n00\n\
    01\n02\n03\n04\n05\n06\n07\n08\n09\n0:\n0;\n0<\n0=\n0>\n0?\n0@\n\
    0Y\n0Z\n0[\n0\\\n0]\n0^\n0_\n0`\n0a\n0b\n0c\n0d\n0e\n0f\n0g\n0h\n\
    $end\n\
    #1028000\n1Z\n\
    #1030000\n1Y\n\
    #1032000\n0Y\n\
    #1034000\n0Z\n\
    #2500000\n\
    $comment 502 turns are made, the last at clock 8288: no cog makes another before clock 20000 $end\n";

#[test]
fn all_pins_and_locks(rt: HostRuntime) -> Result<(), Fail> {
    let selection = Selection {
        all: true,
        pins_only: true,
    };
    let text = raw_wave(rt.alloc(), &LOCKING, 20_000, selection)?;
    assert_eq!(rt; text.as_slice(), LOCKED);
    Ok(())
}

/// An image whose main method is empty, at 96 MHz, whose period is no whole number of femtoseconds.
const EMPTY: [u8; 28] = [
    0x00, 0xD8, 0xB8, 0x05, 0x00, 0x6A, 0x10, 0x00, 0x1C, 0x00, 0x24, 0x00, 0x18, 0x00, 0x28, 0x00,
    0x0C, 0x00, 0x02, 0x00, 0x08, 0x00, 0x00, 0x00, 0x32, 0x00, 0x00, 0x00,
];

const EMPTY_FIRST: Origin = Origin::Spin {
    entry: 0x18,
    pbase: 0x10,
    vbase: 0x1C,
    frame: 0x24,
    size: 0,
};

/// The turns run out at clock 8224, at which the script's last line isn't seen.
const FEW: &[u8] = b"$version Propeller P8X32A $end\n\
    $timescale 1 ns $end\n$comment A tick is one clock at 96000000 Hz. $end\n\
    $scope module pins $end\n$var wire 1 \" P1 $end\n$upscope $end\n\
    $scope module cog0 $end\n$var wire 2 C state $end\n$upscope $end\n\
    $enddefinitions $end\n\
    #0\n$dumpvars\n0\"\nb01 C\n$end\n\
    #16\nb10 C\n\
    #100\n1\"\n\
    #8200\n0\"\n\
    #8224\n\
    $comment 2 turns are made, the last at clock 8224 of 20000: no more are asked for; --turns gives more $end\n";

/// The run of that image with this script, up to its second turn.
fn few_turns(alloc: Global, script: &PinScript) -> Result<Ended, NoMemory> {
    let limits = Limits {
        clocks: 20_000,
        turns: 2,
    };
    let boot = Boot {
        ram: Boot::raw(alloc, &EMPTY)?.ram,
        first: EMPTY_FIRST,
    };
    run_alone(alloc, boot, script.copy(alloc)?, limits)
}

#[test]
fn turns_run_out(rt: HostRuntime) -> Result<(), Fail> {
    let lines = b"100 00000002\n8200 00000000\n8224 00000004\n";
    let script = PinScript::read(rt.alloc(), lines)?;
    let ended = few_turns(rt.alloc(), &script)?;
    let selection = Selection {
        all: false,
        pins_only: false,
    };
    let text = wave(rt.alloc(), &ended.history, &script, selection)?;
    assert_eq!(rt; text.as_slice(), FEW);
    Ok(())
}
