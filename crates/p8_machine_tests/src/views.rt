// Worked runs as views. The clocks of the Spin program's turns are those of its saved history, which an independent model of the machine made.
ghost use Rattle.std.specs.Prelude.{◌≤◌, length};
ghost use Rattle.p8_access.specs.Proper.{IsProperOrigin};

use crate::histories::boot_of_blink;
use crate::waves::WAKING;
use p8_access::Boot;
use p8_ledger::Limits;
use p8_legend::{Legend, Range, Ranges};
use p8_machine::run_counted;
use p8_pins::PinScript;
use p8_tree::Text;
use p8_view::{ViewOptions, view};
use p8_words::NoMemory;
use std::alloc::Global;
use std::test::Fail;

/// What is shown of a run, and its limits.
#[derive(Clone, Copy)]
struct ShownRun {
    clocks: u64,
    turns: u64,
    cog: Option<u8>,
    from: u64,
    to: u64,
    pins_only: bool,
    quiet: bool,
}

/// All turns of a run below clock 90,000.
const ALL: ShownRun = ShownRun {
    clocks: 90_000,
    turns: 2000,
    cog: None,
    from: 0,
    to: 90_000,
    pins_only: false,
    quiet: false,
};

/// No turn of a run below clock 10,000.
const NONE: ShownRun = ShownRun {
    clocks: 10_000,
    turns: 2000,
    cog: None,
    from: 0,
    to: 10_000,
    pins_only: false,
    quiet: true,
};

/// The view of a run, with the long at $0054.
fn seen(alloc: Global, boot: Boot, legend: &Legend, row: &ShownRun) -> Result<Vec<u8>, NoMemory>
    requires { IsProperOrigin boot.first }
{
    let limits = Limits {
        clocks: row.clocks.min(100_000),
        turns: row.turns.min(2000),
    };
    let options = ViewOptions {
        cog: row.cog,
        from: row.from,
        to: row.to,
        pins_only: row.pins_only,
        quiet: row.quiet,
    };
    let counted = run_counted(alloc, boot, PinScript::empty(alloc), limits)?;
    view(
        alloc,
        &counted.ended,
        counted.counters.as_slice(),
        &counted.asked,
        legend,
        &options,
        Some((0x54, 4)),
    )
}

/// A range with its name, with its place in a source, or with what its bytecode names in a frame.
type RangeText = (u16, u16, &'static [u8]);

/// The names of the Spin program: two of its methods, and the parameter of the one that the second cog runs.
static NAMES: [RangeText; 3] = [
    (0x1C, 0x23, b"main"),
    (0x3A, 0x50, b"blink"),
    (0x54, 0x58, b"pin"),
];

/// A place for all of each method.
static PLACES: [RangeText; 3] = [
    (0x1C, 0x23, b"top.spin:3 main"),
    (0x30, 0x3A, b"led.spin:6 start"),
    (0x3A, 0x50, b"led.spin:9 blink"),
];

/// What three bytecodes name in the frames of their methods: the parameter that `start` stores, its result, and nothing that is told.
static LOCALS: [RangeText; 3] = [
    (0x31, 0x32, b"start.p"),
    (0x38, 0x39, b"start.result"),
    (0x3A, 0x3B, b""),
];

/// Puts these texts with their ranges.
fn put(alloc: Global, ranges: &mut Ranges, all: &[RangeText]) -> Result<(), NoMemory> {
    for (address, end, text) in all {
        let range = Range {
            address: *address,
            end: *end,
        };
        ranges.push(range, Text::copy_of(alloc, text)?)?;
    }
    Ok(())
}

fn legend_of_blink(alloc: Global) -> Result<Legend, NoMemory> {
    let mut legend = Legend::empty(alloc);
    put(alloc, &mut legend.names, &NAMES)?;
    put(alloc, &mut legend.places, &PLACES)?;
    put(alloc, &mut legend.locals, &LOCALS)?;
    Ok(legend)
}

/// Whether the view of the Spin program is this.
fn shows(alloc: Global, row: &ShownRun, expected: &[u8]) -> Result<bool, NoMemory> {
    let legend = legend_of_blink(alloc)?;
    let text = seen(alloc, boot_of_blink(alloc)?, &legend, row)?;
    Ok(text.as_slice() == expected)
}

/// At 80 MHz a clock lasts 12.5 ns. The counter is read at clock 17,595, so that bytecode begins at 17,561; an addition takes 32 clocks, and
/// a wait may end 36 clocks after its bytecode's begin. Each filter lets the turn at its first clock through, and not that at its last one.
static BLINKING: [(ShownRun, &[u8]); 5] = [
    (
        ALL,
        b"16 0.200 us cog 0 begin of spin main 0078\n\
        8224 102.800 us cog 0 write long 0078 = 00000000\n\
        8336 104.200 us cog 0 write long 007C = 00000000 top.spin:3 main\n\
        8352 104.400 us cog 0 write long 0080 = 00000004 top.spin:3 main\n\
        8432 105.400 us cog 0 read long start.p = 00000004 led.spin:6 start\n\
        8512 106.400 us cog 0 write long pin = 00000004 led.spin:6 start\n\
        8528 106.600 us cog 0 coginit 1 spin blink 0050 led.spin:6 start\n\
        8530 106.625 us cog 1 begin of spin blink 0050\n\
        8640 108.000 us cog 0 write long start.result = 00000002 led.spin:6 start\n\
        8720 109.000 us cog 0 cogstop 0 top.spin:3 main\n\
        16738 209.225 us cog 1 write long 0050 = 00000000\n\
        16786 209.825 us cog 1 read long pin = 00000004 led.spin:9 blink\n\
        16828 210.350 us cog 1 dira 00000010, 4 low led.spin:9 blink\n\
        16866 210.825 us cog 1 read long pin = 00000004 led.spin:9 blink\n\
        16908 211.350 us cog 1 outa 00000010, 4 high led.spin:9 blink\n\
        16978 212.225 us cog 1 read long 0000 = 04C4B400 led.spin:9 blink\n\
        17595 219.937 us cog 1 cnt 000044BB led.spin:9 blink\n\
        cog 0 is stopped at clock 8720\n\
        cog 1 runs since clock 8530, its last turn is at clock 17595, waits since clock 17665 for the counter to be 97595 led.spin:9 blink\n\
        cog 2 is idle\ncog 3 is idle\ncog 4 is idle\ncog 5 is idle\ncog 6 is idle\ncog 7 is idle\n\
        17 turns are made, the last at clock 17595\nno cog makes another before clock 90000\n0054: 04 00 00 00\n",
    ),
    (
        ShownRun {
            from: 16_828,
            to: 16_908,
            ..ALL
        },
        b"16828 210.350 us cog 1 dira 00000010, 4 low led.spin:9 blink\n\
        16866 210.825 us cog 1 read long pin = 00000004 led.spin:9 blink\n\
        cog 0 is stopped at clock 8720\n\
        cog 1 runs since clock 8530, its last turn is at clock 17595, waits since clock 17665 for the counter to be 97595 led.spin:9 blink\n\
        cog 2 is idle\ncog 3 is idle\ncog 4 is idle\ncog 5 is idle\ncog 6 is idle\ncog 7 is idle\n\
        17 turns are made, the last at clock 17595\nno cog makes another before clock 90000\n0054: 04 00 00 00\n",
    ),
    (
        ShownRun {
            pins_only: true,
            ..ALL
        },
        b"16828 210.350 us cog 1 dira 00000010, 4 low led.spin:9 blink\n\
        16908 211.350 us cog 1 outa 00000010, 4 high led.spin:9 blink\n\
        cog 0 is stopped at clock 8720\n\
        cog 1 runs since clock 8530, its last turn is at clock 17595, waits since clock 17665 for the counter to be 97595 led.spin:9 blink\n\
        cog 2 is idle\ncog 3 is idle\ncog 4 is idle\ncog 5 is idle\ncog 6 is idle\ncog 7 is idle\n\
        17 turns are made, the last at clock 17595\nno cog makes another before clock 90000\n0054: 04 00 00 00\n",
    ),
    (
        ShownRun {
            turns: 5,
            quiet: true,
            ..ALL
        },
        b"cog 0 runs since clock 16, its last turn is at clock 8432, does next at clock 8512: write long pin = 00000004 led.spin:6 start\n\
        cog 1 is idle\ncog 2 is idle\ncog 3 is idle\ncog 4 is idle\ncog 5 is idle\ncog 6 is idle\ncog 7 is idle\n\
        5 turns are made, the last at clock 8432\nno more are asked for; --turns gives more\n0054: 00 00 00 00\n",
    ),
    (
        ShownRun {
            turns: 7,
            cog: Some(1),
            ..ALL
        },
        b"cog 0 runs since clock 16, its last turn is at clock 8528, does next at clock 8640: write long start.result = 00000002 \
        led.spin:6 start\n\
        cog 1 is started at clock 8528 and has had no turn yet\n\
        cog 2 is idle\ncog 3 is idle\ncog 4 is idle\ncog 5 is idle\ncog 6 is idle\ncog 7 is idle\n\
        7 turns are made, the last at clock 8528\nno more are asked for; --turns gives more\n0054: 04 00 00 00\n",
    ),
];

#[test]
fn a_spin_program_with_its_names(rt: HostRuntime) -> Result<(), Fail> {
    for (row, expected) in &BLINKING {
        assert!(rt; matches!(shows(rt.alloc(), row, expected), Ok(true)));
    }
    Ok(())
}

/// Whether the view of a raw program, of which these lines of DAT are known and no name, begins so.
fn begins(
    alloc: Global,
    row: &ShownRun,
    program: &[u8],
    lines: &[RangeText],
    expected: &[u8],
) -> Result<bool, NoMemory>
    requires { length program.now ≤ 32768 }
{
    let mut legend = Legend::empty(alloc);
    put(alloc, &mut legend.lines, lines)?;
    let text = seen(alloc, Boot::raw(alloc, program)?, &legend, row)?;
    Ok(text.as_slice().starts_with(expected))
}

/// Cog 0 waits for clock 16,640 and cog 1 for pin 0, which cog 0 makes high; both stop. The first instruction begins 8,192 clocks after
/// the load, and a write of OUTA or DIRA is at the third clock of its instruction.
const WOKEN: &[u8] = b"16 cog 0 load of 0000, 496 longs\n\
    8224 cog 0 coginit 1 pasm 0014 0000\n\
    8226 cog 1 load of 0014, 496 longs\n\
    16640 cog 0 waitcnt until 16640\n\
    16645 cog 0 outa 00000001\n\
    16649 cog 0 dira 00000001, 0 high\n\
    16649 cog 1 waitpeq 00000001 00000001\n\
    16656 cog 0 cogstop 0, 0 input\n\
    16658 cog 1 cogstop 1\n\
    cog 0 is stopped at clock 16656\ncog 1 is stopped at clock 16658\ncog 2 is idle\n";

#[test]
fn a_cog_wakes_another(rt: HostRuntime) -> Result<(), Fail> {
    assert!(rt; matches!(begins(rt.alloc(), &ALL, &WAKING, &[], WOKEN), Ok(true)));
    Ok(())
}

/// The lines of its instructions; cog 1 is loaded from $0014 on.
static WAKING_LINES: [RangeText; 7] = [
    (0x00, 0x04, b"wake.spin:3"),
    (0x04, 0x08, b"wake.spin:4"),
    (0x08, 0x0C, b"wake.spin:5"),
    (0x0C, 0x10, b"wake.spin:6"),
    (0x10, 0x14, b"wake.spin:7"),
    (0x14, 0x18, b"wake.spin:10"),
    (0x18, 0x1C, b"wake.spin:11"),
];

const WOKEN_LINES: &[u8] = b"16 cog 0 load of 0000, 496 longs\n\
    8224 cog 0 coginit 1 pasm 0014 0000 wake.spin:3\n\
    8226 cog 1 load of 0014, 496 longs\n\
    16640 cog 0 waitcnt until 16640 wake.spin:4\n\
    16645 cog 0 outa 00000001 wake.spin:5\n\
    16649 cog 0 dira 00000001, 0 high wake.spin:6\n\
    16649 cog 1 waitpeq 00000001 00000001 wake.spin:10\n\
    16656 cog 0 cogstop 0, 0 input wake.spin:7\n\
    16658 cog 1 cogstop 1 wake.spin:11\n\
    cog 0 is stopped at clock 16656\ncog 1 is stopped at clock 16658\ncog 2 is idle\n";

#[test]
fn instructions_with_their_lines(rt: HostRuntime) -> Result<(), Fail> {
    let shown = begins(rt.alloc(), &ALL, &WAKING, &WAKING_LINES, WOKEN_LINES);
    assert!(rt; matches!(shown, Ok(true)));
    Ok(())
}

/// A program that changes its own third instruction before it comes there, from clock 8,208 on:
///
/// ```text
/// $0000  add 2, #1
/// $0004  nop
/// $0008  mov dira, #0     the cog executes mov dira, #1
/// $000C  mov outa, #1
/// $0010  mov ctra, #1     there is no counter A: a halt
/// ```
const CHANGING: [u8; 20] = [
    0x01, 0x04, 0xFC, 0x80, 0x00, 0x00, 0x00, 0x00, 0x00, 0xEC, 0xFF, 0xA0, 0x01, 0xE8, 0xFF, 0xA0,
    0x01, 0xF0, 0xFF, 0xA0,
];

static CHANGING_LINES: [RangeText; 5] = [
    (0x00, 0x04, b"code.spin:2"),
    (0x04, 0x08, b"code.spin:3"),
    (0x08, 0x0C, b"code.spin:4"),
    (0x0C, 0x10, b"code.spin:5"),
    (0x10, 0x14, b"code.spin:6"),
];

/// No line of the source has the instruction that the cog executes in its third register.
const CHANGED: &[u8] = b"16 cog 0 load of 0000, 496 longs\n\
    8219 cog 0 dira 00000001, 0 low\n\
    8223 cog 0 outa 00000001, 0 high code.spin:5\n\
    8227 cog 0 halt register 1F8, 0 input code.spin:6\n\
    cog 0 halts at clock 8227: register 1F8 code.spin:6\ncog 1 is idle\n";

#[test]
fn a_changed_instruction_has_no_line(rt: HostRuntime) -> Result<(), Fail> {
    let shown = begins(rt.alloc(), &ALL, &CHANGING, &CHANGING_LINES, CHANGED);
    assert!(rt; matches!(shown, Ok(true)));
    Ok(())
}

/// Programs whose first instruction, at clock 8,208, waits from clock 8,212 on, and the first line of their end. WAITCNT for 16,
/// for what CNT was 2^31 clocks before, and for the number before that; WAITPEQ; WAITPNE; and a jump to itself.
static WAITING: [([u8; 8], &[u8]); 6] = [
    (
        [0x00, 0x02, 0xFC, 0xF8, 0x10, 0x00, 0x00, 0x00],
        b"cog 0 runs since clock 16, its last turn is at clock 7952, waits since clock 8212 for the counter to be 16, which lies 8196 clocks back: \
        the wait is missed, and ends at clock 4294967312\n",
    ),
    (
        [0x00, 0x02, 0xFC, 0xF8, 0x14, 0x20, 0x00, 0x80],
        b"cog 0 runs since clock 16, its last turn is at clock 7952, waits since clock 8212 for the counter to be 2147491860, which lies \
        2147483648 clocks back: the wait is missed, and ends at clock 2147491860\n",
    ),
    (
        [0x00, 0x02, 0xFC, 0xF8, 0x13, 0x20, 0x00, 0x80],
        b"cog 0 runs since clock 16, its last turn is at clock 7952, waits since clock 8212 for the counter to be 2147491859\n",
    ),
    (
        [0x08, 0x02, 0x7C, 0xF0, 0x08, 0x00, 0x00, 0x00],
        b"cog 0 runs since clock 16, its last turn is at clock 7952, waits since clock 8212 for the pins 00000008 to be 00000008\n",
    ),
    (
        [0x08, 0x02, 0x7C, 0xF4, 0x00, 0x00, 0x00, 0x00],
        b"cog 0 runs since clock 16, its last turn is at clock 7952, waits since clock 8212 for the pins 00000008 not to be 00000000\n",
    ),
    (
        [0x00, 0x00, 0x7C, 0x5C, 0x00, 0x00, 0x00, 0x00],
        b"cog 0 runs since clock 16, its last turn is at clock 7952, asks nothing before clock 10000\n",
    ),
];

/// Whether the end of the view of a program, of which no turn is shown, begins so.
fn ends(alloc: Global, program: &[u8; 8], expected: &[u8]) -> Result<bool, NoMemory> {
    begins(alloc, &NONE, program, &[], expected)
}

#[test]
fn what_a_cog_waits_for(rt: HostRuntime) -> Result<(), Fail> {
    for (program, expected) in &WAITING {
        assert!(rt; matches!(ends(rt.alloc(), program, expected), Ok(true)));
    }
    Ok(())
}

/// The wait for a pin, with its line.
const WAITING_LINE: &[u8] =
    b"cog 0 runs since clock 16, its last turn is at clock 7952, waits since clock 8212 for the pins 00000008 to be 00000008 wait.spin:2\n";

#[test]
fn where_a_cog_waits(rt: HostRuntime) -> Result<(), Fail> {
    let lines: [RangeText; 2] = [(0x00, 0x04, b"wait.spin:2"), (0x04, 0x08, b"wait.spin:3")];
    let (program, _) = &WAITING[3];
    assert!(rt;
        matches!(
            begins(rt.alloc(), &NONE, program, &lines, WAITING_LINE),
            Ok(true)
        )
    );
    Ok(())
}
