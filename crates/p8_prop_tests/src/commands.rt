// Worked calls over a shelf and sinks in memory.
use crate::calls::{Failing, File, Left, left_by, shelf_failing_at, sink_failing_at, words_in};
use p8_crew::ThreadStarter;
use p8_prop::{Status, prop, prop_alone};
use p8_words::NoMemory;
use std::alloc::Global;
use std::sync::Wait;
use std::thread::Threads;

/// The image of `PUB main`.
pub const IMAGE: &[u8] =
    b"\x00\x1B\xB7\0\0\x6A\x10\0\x1C\0\x24\0\x18\0\x28\0\x0C\0\x02\0\x08\0\0\0\x32\0\0\0";

/// Its trace, with the first two bytes of the hub's memory.
const TEXT: &[u8] =
    b"16 0 begin 0018 0024\n8224 0 wrlong 0024 00000000\n8272 0 cogstop 0\nended clocks 3\n\
    locks ........\npins 00000000 00000000\ncog 0 stopped\ncog 1 stopped\ncog 2 stopped\n\
    cog 3 stopped\ncog 4 stopped\ncog 5 stopped\ncog 6 stopped\ncog 7 stopped\n0000: 00 1B\n";

/// The history of a run of the image as hub memory up to clock 17: the load of cog 0.
const HISTORY: &[u8] =
    b"P8H1\x11\0\0\0\x40\x9C\0\0\x01\0\0\0\x10\0\0\0\0\x01\0\0\0\0\0\0\0\0\0\0\0\0\0\0\0\0\0\0";

/// That of another cog.
const OTHER_HISTORY: &[u8] =
    b"P8H1\x11\0\0\0\x40\x9C\0\0\x01\0\0\0\x10\0\0\0\x01\x01\0\0\0\0\0\0\0\0\0\0\0\0\0\0\0\0\0\0";

/// The pin script that sends the byte $41 on pin 0 from clock 1000 on, with 100 clocks a bit.
const SENT: &[u8] =
    b"0 00000001\n1000 00000000\n1100 00000001\n1200 00000000\n1700 00000001\n1800 00000000\n1900 00000001\n";

/// The listing of a method that goes on for ever, with short code.
const SHORT_LISTING: &[u8] = b"object loop.spin 0010\nmethod 1 0018\n0018 04 7E\n001A 32\n";

/// The listing of `PUB main`.
const LISTING: &[u8] = b"object main.spin 0010\nmethod 1 0018\n0018 32\n";

/// The code of `PUB main`.
const CODE: &[u8] =
    b"object main.spin 0010\nmethod 1 0018 main\n  1: PUB main\n0018 32                 RETURN\n";

/// The code of its image, which has three bytes behind the method.
const IMAGE_CODE: &[u8] =
    b"object 0010\nmethod 1 0018\n0018 32                 RETURN\n0019 string 0, 0, 0\n";

/// The levels of pin 0 up to clock 2000, 100 clocks a column, with that script.
const NARROW: &[u8] = b"P0  ----------_-_____-_-\n    |         |\n    0         1000\n\
    124 turns are made, the last at clock 1984: no cog makes another before clock 2000\n";

/// The levels of pin 0 of `PUB main` up to clock 20,000, 1,000 clocks a column, at 12 MHz.
const TIMED: &[u8] =
    b"P0  ____________________\n    |         |\n    0         10000\nus  0.000     833.333\n\
    3 turns are made, the last at clock 8272: no cog makes another before clock 20000\n";

/// The summary of the made program of seed 1.
const MADE: &[u8] = b"made 1\nturns 36299\nlast 99998 7\nwords 319AD0F5\n";

/// The explanation of a method that assigns a reserved word, after a tab.
const EXPLANATION: &str = "next.spin:2:14: 6 Unexpected\n\
    \x20       a := next\n\
    \x20            ^\n\
    `next` is a reserved word, and can't be a name.\n\
    No line begins or goes on so, or the file ends here and more must follow.\n\
    Look at what stands before it: a missing operator, bracket, comma or colon is told at the token after it.\n";

/// The explanation of a pin script, which is no source.
const SCRIPT: &str = "a.pins:1:1: 6 Unexpected\n\
    9000 1\n\
    ^\n\
    The line begins with `9000`.\n\
    No line begins or goes on so, or the file ends here and more must follow.\n\
    Look at what stands before it: a missing operator, bracket, comma or colon is told at the token after it.\n\
    A pin script is told by prop help run: it has a line for each change, as 9000 00000001, a clock and 8 hexadecimal digits for the pins.\n";

/// The explanation of a file that is missing.
const ABSENCE: &str = "lost.spin:2:7: kid.spin is missing\n\
    \x20 k : \"kid\"\n\
    \x20     ^\n\
    There is no file of this name. Capitals and small letters differ, and a name without a dot gets .spin.\n";

/// The explanation of a name without a definition, in a file below the top file.
const UNKNOWN: &str = "near.spin:2:3: 15 Unknown\n\
    \x20 nosuch := 1\n\
    \x20 ^\n\
    This name has no definition that is seen here.\n\
    Check its spelling. Of another file PUBs and constants are seen, after the object's name, as object.method or object#CONSTANT.\n";

/// The explanation of a file that leads back to the one that mentions it.
const RING: &str = "back.spin:2:7: 19 Cycle\n\
    \x20 r : \"ring\"\n\
    \x20     ^\n\
    This object leads back to a file that uses it.\n\
    Take the object out of one of the files.\n";

/// The explanation of a method whose frame has its result and 2,048 longs of locals.
const LARGE_FRAME: &str = "large.spin:1:5: 26 FrameTooLarge\n\
    PUB main | a[2048]\n\
    \x20   ^\n\
    The frame has 2049 longs, 1 more than 2048.\n\
    The method's result, parameters and locals are more than 2,048 longs, or it holds more than 128 values at once.\n\
    Put large arrays into VAR.\n";

/// The explanation of an image with 16 bytes of header, 12 of the object, 32,732 of variables, 8 before the first frame and 4 of its result.
const LARGE_IMAGE: &str = "wide.spin:1:1: 28 ImageTooLarge\n\
    VAR\n\
    ^\n\
    The image with its variables and the first frame has 32772 bytes, 4 more than 32768.\n\
    The program, its variables and the first method's frame don't fit into 32,768 bytes.\n\
    Shorten arrays or code.\n";

/// What is told of the refusal 26.
const ENTRY: &[u8] = b"26 FrameTooLarge\n\
    The method's result, parameters and locals are more than 2,048 longs, or it holds more than 128 values at once.\n\
    Put large arrays into VAR.\n\
    Example: PUB main | a[2048]\n";

/// The map of `PUB main`.
const MAP: &[u8] =
    b"0000 header clkfreq 00B71B00\n0004 header clkmode 00\n0005 header checksum 6A\n0006 header pbase 0010\n\
    0008 header vbase 001C\n000A header dbase 0024\n000C header pcurr 0018\n000E header dcurr 0028\n\
    0010 object main.spin\n0018 method 1 main\n+0000 result RESULT 1\n\
    0024 stack\n0028 free 32728\n";

/// The view of `PUB main`.
const VIEW: &[u8] =
    b"16 1.333 us cog 0 begin of spin main 0024\n8224 685.333 us cog 0 write long 0024 = 00000000\n\
    8272 689.333 us cog 0 cogstop 0 main.spin:1 main\n\
    cog 0 is stopped at clock 8272\ncog 1 is idle\ncog 2 is idle\ncog 3 is idle\n\
    cog 4 is idle\ncog 5 is idle\ncog 6 is idle\ncog 7 is idle\n\
    3 turns are made, the last at clock 8272\nno cog makes another before clock 20000\n";

/// The view of the same from the last clock on that a run which is shown may have.
const LATE_VIEW: &[u8] =
    b"cog 0 is stopped at clock 8272\ncog 1 is idle\ncog 2 is idle\ncog 3 is idle\n\
    cog 4 is idle\ncog 5 is idle\ncog 6 is idle\ncog 7 is idle\n\
    3 turns are made, the last at clock 8272\nno cog makes another before clock 4000000000\n";

/// The end of the view of a method that writes 5 to the variable `x` at clock 8304, with the variable.
const WRITTEN: &[u8] =
    b"cog 0 is stopped at clock 8352\ncog 1 is idle\ncog 2 is idle\ncog 3 is idle\n\
    cog 4 is idle\ncog 5 is idle\ncog 6 is idle\ncog 7 is idle\n\
    4 turns are made, the last at clock 8352\nno cog makes another before clock 20000\n\
    001C: 05 00 00 00\n";

/// The page of `make`.
const PAGE: &[u8] =
    b"prop make SEED [--alone]\nRuns a made program for eight cogs, and writes a summary.\n\
    \x20 SEED: the number of a made program: 1 to 10 digits, at most 4294967295\n\
    \x20 [--alone]: one thread makes all turns, in place of eight\ne.g. prop make 1\ne.g. prop make 4294967295 --alone\n";

/// The line of words that are no command.
const USAGE: &str =
    "prop: usage: prop build|list FILE, prop raw|run FILE CLOCKS [--pins F] [--turns K] [--dump A:N] [--alone]\n";

/// The source whose image that is.
const MAIN: &[u8] = b"PUB main\n";

/// Other files of the shelf: an image, an empty file, a bad pin script, two good sources, two bad ones, one that mentions a bad
/// one and one that mentions none, one with a name that has no definition and one that mentions it, two that mention each other, one whose method
/// is too large, one that mentions it and one whose image is too large, a message and the script that sends it, and two history files.
static FILES: [File; 20] = [
    ("a.binary", IMAGE),
    ("empty.binary", b""),
    ("a.pins", b"9000 1"),
    ("bad.spin", b"CON\n  a = 1\n"),
    ("loop.spin", b"PUB main\n  repeat\n"),
    ("five.spin", b"VAR\n  long x\nPUB main\n  x := 5\n"),
    ("next.spin", b"PUB main\n\ta := next\n"),
    ("outer.spin", b"OBJ\n  n : \"next\"\nPUB main\n"),
    ("lost.spin", b"OBJ\n  k : \"kid\"\nPUB main\n"),
    ("near.spin", b"PUB f\n  nosuch := 1\n"),
    ("far.spin", b"OBJ\n  n : \"near\"\nPUB main\n"),
    ("back.spin", b"OBJ\n  r : \"ring\"\nPUB f\n"),
    ("ring.spin", b"OBJ\n  b : \"back\"\nPUB main\n"),
    ("large.spin", b"PUB main | a[2048]\n"),
    ("deep.spin", b"OBJ\n  d : \"large\"\nPUB main\n"),
    ("wide.spin", b"VAR\n  long a[8183]\nPUB main\n"),
    ("a.txt", b"A"),
    ("sent.pins", SENT),
    ("a.history", HISTORY),
    ("b.history", OTHER_HISTORY),
];

/// Makes a call of a line's words on a shelf of those files, in which the read and the write of these numbers fail; for 0 none does.
fn left(alloc: Global, line: &str, read: u64, write: u64) -> Result<Left, NoMemory> {
    let told = 0;
    let failing = Failing { read, write, told };
    left_by(alloc, MAIN, &FILES, line, failing)
}

/// Whether a line's words are carried out and leave this text, and no line of a fault.
fn leaves(alloc: Global, line: &str, text: &[u8]) -> Result<bool, NoMemory> {
    let left = left(alloc, line, 0, 0)?;
    let is_done = left.status == Status::Ok && left.faults.bytes().is_empty();
    Ok(is_done && left.out.bytes() == text)
}

/// A call that is refused: its words, the numbers of the read and of the write that fail, its status, and the line that tells it.
type Refusal = (&'static str, u64, u64, Status, &'static str);

/// Whether a call has its status and its line, and leaves no text.
fn is_refused(alloc: Global, refusal: &Refusal) -> Result<bool, NoMemory> {
    let (line, read, write, status, fault) = *refusal;
    let left = left(alloc, line, read, write)?;
    Ok(left.is_refusal(status, fault))
}

/// Calls and what they write. An option stands before FILE, and another one between FILE and CLOCKS.
static ANSWERS: [(&str, &[u8]); 24] = [
    ("run --alone a.binary --dump=0000:2 20000", TEXT),
    ("build main.spin", IMAGE),
    ("list main.spin", LISTING),
    ("code main.spin", CODE),
    ("code a.binary", IMAGE_CODE),
    ("run main.spin 20000 --alone --dump 0000:2", TEXT),
    ("save a.binary 17 --raw", HISTORY),
    ("check a.binary a.history --raw", b"good 1\n"),
    ("type a.txt 0 100 1000", SENT),
    (
        "serial a.binary 1951 0 100 --raw --pins=sent.pins",
        b"1000 41\nbytes 1\n",
    ),
    (
        "serial a.binary 1950 0 100 --raw --pins=sent.pins",
        b"bytes 0\n",
    ),
    (
        "plot a.binary 2000 0 995:1005 --raw --ascii --alone --pins=sent.pins",
        b"P0  -----_____\n    |\n    995\n124 turns are made, the last at clock 1984: no cog makes another before clock 2000\n",
    ),
    (
        "plot a.binary 2000 0 --raw --ascii --alone --pins=sent.pins --width 20",
        NARROW,
    ),
    ("plot main.spin 20000 0 --width 20 --ascii --alone", TIMED),
    ("list loop.spin --short", SHORT_LISTING),
    ("make --alone 01", MADE),
    ("help make", PAGE),
    ("explain main.spin", b"main.spin: nothing is refused\n"),
    ("explain 26", ENTRY),
    ("hint main.spin", b"nothing to hint at\n"),
    ("map main.spin", MAP),
    ("view main.spin 20000 --alone", VIEW),
    ("view main.spin 4000000000 --from 4000000000", LATE_VIEW),
    ("view five.spin 20000 --quiet --dump x", WRITTEN),
];

#[test]
fn carries_commands_out(rt: HostRuntime) {
    for (line, text) in &ANSWERS {
        assert!(rt;
            matches!(leaves(rt.alloc(), line, text), Ok(true)),
            "{line}"
        );
    }
}

/// Calls whose files or whose text are at fault.
static FAULTS: [Refusal; 19] = [
    (
        "build bad.spin",
        0,
        0,
        Status::Refused,
        "prop: bad.spin:1:1: 18 NoPub\n",
    ),
    (
        "check a.binary b.history --raw",
        0,
        0,
        Status::BadHistory,
        "prop: b.history: turn 1 key\n",
    ),
    (
        "check a.binary c.history --pins a.pins",
        0,
        0,
        Status::BadScript,
        "prop: a.pins: line 1\n",
    ),
    (
        "raw a.binary 1",
        1,
        0,
        Status::ShelfFault,
        "prop: cannot read a.binary\n",
    ),
    (
        "raw a.binary 1",
        0,
        1,
        Status::SinkFault,
        "prop: cannot write\n",
    ),
    (
        "raw b.bin 1",
        0,
        0,
        Status::Missing,
        "prop: b.bin is missing\n",
    ),
    (
        "run empty.binary 1 --alone",
        0,
        0,
        Status::BadImage,
        "prop: empty.binary: length 0\n",
    ),
    (
        "raw a.binary 1 --pins a.pins",
        0,
        0,
        Status::BadScript,
        "prop: a.pins: line 1\n",
    ),
    (
        "build outer.spin",
        3,
        0,
        Status::Refused,
        "prop: next.spin:2:14: 6 Unexpected\n",
    ),
    (
        "explain none.spin",
        0,
        0,
        Status::Missing,
        "prop: none.spin is missing\n",
    ),
    (
        "explain next.spin",
        0,
        1,
        Status::SinkFault,
        "prop: cannot write\n",
    ),
    (
        "build lost.spin",
        0,
        0,
        Status::Missing,
        "prop: kid.spin is missing\n",
    ),
    (
        "list lost.spin",
        3,
        0,
        Status::Missing,
        "prop: kid.spin is missing\n",
    ),
    (
        "code outer.spin",
        3,
        0,
        Status::Refused,
        "prop: next.spin:2:14: 6 Unexpected\n",
    ),
    (
        "code empty.binary",
        0,
        0,
        Status::BadImage,
        "prop: empty.binary: length 0\n",
    ),
    (
        "view five.spin 20000 --dump y",
        0,
        0,
        Status::Missing,
        "prop: five.spin: nothing is named y\n",
    ),
    (
        "hint next.spin",
        0,
        0,
        Status::Refused,
        "prop: next.spin:2:14: 6 Unexpected\n",
    ),
    (
        "map next.spin",
        0,
        0,
        Status::Refused,
        "prop: next.spin:2:14: 6 Unexpected\n",
    ),
    (
        "page outer.spin 20000",
        3,
        0,
        Status::Refused,
        "prop: next.spin:2:14: 6 Unexpected\n",
    ),
];

#[test]
fn tells_faults(rt: HostRuntime) {
    for refusal in &FAULTS {
        assert!(rt;
            matches!(is_refused(rt.alloc(), refusal), Ok(true)),
            "{}",
            refusal.0
        );
    }
}

/// Calls that explain, the number of the read that would fail, and their status with what they write. What is explained shows in the top file or in
/// one below it, which is read once: a third read would fail.
static EXPLAINED: [(&str, u64, Status, &str); 7] = [
    ("explain outer.spin", 3, Status::Refused, EXPLANATION),
    ("explain far.spin", 3, Status::Refused, UNKNOWN),
    ("explain ring.spin", 3, Status::Refused, RING),
    ("explain lost.spin", 3, Status::Missing, ABSENCE),
    ("explain deep.spin", 0, Status::Refused, LARGE_FRAME),
    ("explain wide.spin", 0, Status::Refused, LARGE_IMAGE),
    ("explain a.pins", 0, Status::Refused, SCRIPT),
];

/// Whether a call writes an explanation, has its status, and tells no fault.
fn is_explained(
    alloc: Global,
    line: &str,
    read: u64,
    status: Status,
    text: &str,
) -> Result<bool, NoMemory> {
    let left = left(alloc, line, read, 0)?;
    let is_written = left.out.bytes() == text.as_bytes() && left.faults.bytes().is_empty();
    Ok(left.status == status && is_written)
}

#[test]
fn explains_to_the_output(rt: HostRuntime) {
    for (line, read, status, text) in &EXPLAINED {
        assert!(rt;
            matches!(
                is_explained(rt.alloc(), line, *read, *status, text),
                Ok(true)
            ),
            "{line}"
        );
    }
}

/// Whether a word without a byte is a file that is missing.
fn is_empty_name_missing(alloc: Global) -> Result<bool, NoMemory> {
    let mut words = words_in(alloc, "explain")?;
    match words.push(String::new(alloc)) {
        Ok(()) => {}
        Err(_) => return Err(NoMemory),
    }
    let mut out = sink_failing_at(alloc, 0)?;
    let mut faults = sink_failing_at(alloc, 0)?;
    let mut shelf = shelf_failing_at(alloc, MAIN, &FILES, 0)?;
    let status = prop_alone(alloc, &words, &mut shelf, &mut out, &mut faults);
    drop(shelf);
    let is_told = faults.bytes() == "prop:  is missing\n".as_bytes();
    Ok(status == Status::Missing && out.bytes().is_empty() && is_told)
}

#[test]
fn an_empty_word_is_a_file(rt: HostRuntime) {
    assert!(rt; matches!(is_empty_name_missing(rt.alloc()), Ok(true)));
}

/// Too many turns, pin 32, an option given twice, a call for help as an option, help on another word, a run by a crew, which is no command for one
/// thread, too great a seed and none, no words, too many clocks of a run that is traced, read and shown, short code of an image, pins and clocks that
/// there aren't, too few columns and too many, numbers of digits alone that are none of a refusal, words that these commands don't have, a cog and a
/// clock that there aren't, too many turns of a page, a cog of a page, and clocks that end before they begin.
static NO_COMMANDS: [&str; 35] = [
    "save a.binary 17 --turns 40001",
    "serial a.binary 1951 32 100",
    "raw a.binary 1 --turns 2 --turns=2",
    "--help",
    "run --help",
    "help halt",
    "run a.binary 1",
    "make 1",
    "make 4294967296 --alone",
    "make --alone",
    "",
    "raw a.binary 100000001",
    "serial a.binary 100000001 0 2",
    "wave a.binary 4000000001 --alone",
    "run none.binary 1 --short --alone",
    "code none.binary --short",
    "code main.spin 20000",
    "plot a.binary 8 0,3-1 --alone",
    "plot a.binary 8 32 --alone",
    "plot a.binary 8 0 5:9 --alone",
    "plot a.binary 8 0 --alone --width 19",
    "plot a.binary 8 0 --alone --width 401",
    "explain",
    "explain 0",
    "explain 32",
    "explain 026",
    "explain main.spin --short",
    "map main.spin 20000",
    "hint main.spin 20000",
    "view main.spin 20000 --short",
    "view main.spin 20000 --cog 8",
    "view main.spin 20000 --to 20001",
    "page main.spin 20000 --turns 20001",
    "page main.spin 20000 --cog 1",
    "page main.spin 20000 --from 20000 --to 19999",
];

#[test]
fn refuses_other_words(rt: HostRuntime) {
    for line in &NO_COMMANDS {
        let refusal = (*line, 0, 0, Status::Usage, USAGE);
        assert!(rt;
            matches!(is_refused(rt.alloc(), &refusal), Ok(true)),
            "{line}"
        );
    }
}

/// Whether a run's wave begins as such a file does.
fn shows_a_wave(alloc: Global) -> Result<bool, NoMemory> {
    let left = left(alloc, "wave a.binary 20000 --alone", 0, 0)?;
    let begin = b"$version Propeller P8X32A $end\n";
    Ok(left.status == Status::Ok && left.out.bytes().starts_with(begin))
}

#[test]
fn waves_have_a_version(rt: HostRuntime) {
    assert!(rt; matches!(shows_a_wave(rt.alloc()), Ok(true)));
}

/// Whether a run by a crew leaves the text.
fn is_run_by_a_crew<R: Threads + Wait + Clone + Send + Drop + 'static>(
    rt: &R,
    alloc: Global,
) -> Result<bool, NoMemory> {
    let words = words_in(alloc, "run main.spin 20000 --dump=0000:2")?;
    let mut out = sink_failing_at(alloc, 0)?;
    let mut faults = sink_failing_at(alloc, 0)?;
    let mut shelf = shelf_failing_at(alloc, MAIN, &FILES, 0)?;
    let mut starter = ThreadStarter::new();
    let status = prop(
        rt,
        alloc,
        &words,
        &mut shelf,
        &mut out,
        &mut faults,
        &mut starter,
    );
    drop(shelf);
    Ok(status == Status::Ok && out.bytes() == TEXT)
}

#[test]
fn runs_by_a_crew(rt: HostRuntime) {
    assert!(rt; matches!(is_run_by_a_crew(&rt, rt.alloc()), Ok(true)));
}
