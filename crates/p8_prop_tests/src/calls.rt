// Calls of the program, whose outside fails where it is told to.
use p8_io::{FailList, MemShelf, MemSink};
use p8_prop::{Status, prop_alone};
use p8_words::NoMemory;
use std::alloc::Global;

/// A source with an object, `blink.spin`.
pub const MAIN: &[u8] =
    b"CON\n  _clkmode = xtal1 + pll16x\n  _xinfreq = 5_000_000\nOBJ\n  led : \"blink\"\nPUB main\n  led.start(4)\n";

/// The object: an LED that a cog of its own turns on and off.
const BLINK: &[u8] =
    b"VAR\n  long stack[8]\nPUB start(pin) : ok\n  ok := cognew(run(pin), @stack) + 1\n\
    PRI run(pin)\n  dira[pin]~~\n  repeat\n    !outa[pin]\n    waitcnt(clkfreq / 1000 + cnt)\n";

/// A file of a shelf: its name and its bytes.
pub type File = (&'static str, &'static [u8]);

/// Other files: the object, a pin script, one that is none, a source without a method, a history without its head, and an image
/// without anything.
pub static FILES: [File; 6] = [
    ("blink.spin", BLINK),
    ("a.pins", b"100 00000001\n"),
    ("bad.pins", b"100 1\n"),
    ("bad.spin", b"CON\n  a = 1\n"),
    ("bad.history", b"P8H1"),
    ("bad.binary", b""),
];

/// How many bytes a text has at most.
const ROOM: usize = 4096;

/// The numbers of the read, of the write of the text, and of the write of a line that fail; 0 for none.
#[derive(Clone, Copy)]
pub struct Failing {
    pub read: u64,
    pub write: u64,
    pub told: u64,
}

/// Nothing fails.
pub const NOTHING: Failing = Failing {
    read: 0,
    write: 0,
    told: 0,
};

/// What a call left.
#[derive(Drop)]
pub struct Left {
    pub status: Status,
    pub out: MemSink,
    pub faults: MemSink,
}

impl Left {
    /// Whether no text was written, and this is the status with its line.
    pub fn is_refusal(&self, status: Status, line: &str) -> bool {
        let is_told = self.faults.bytes() == line.as_bytes();
        self.status == status && self.out.bytes().is_empty() && is_told
    }
}

/// The words of a line, as a command line has them.
pub fn words_in(alloc: Global, line: &str) -> Result<Vec<String>, NoMemory> {
    let mut words = Vec::new(alloc);
    for word in line.split_whitespace() {
        match words.push(String::from_str(alloc, word)?) {
            Ok(()) => {}
            Err(_) => return Err(NoMemory),
        }
    }
    Ok(words)
}

/// The list of one call that is to fail, or of none for 0.
fn failing_at(alloc: Global, call: u64) -> Result<FailList, NoMemory> {
    let mut fails = FailList::new(alloc);
    fails.at(call)?;
    Ok(fails)
}

/// A shelf of these files, with this one as `main.spin`, of which the read of this number fails.
pub fn shelf_failing_at(
    alloc: Global,
    main: &[u8],
    files: &[File],
    read: u64,
) -> Result<MemShelf, NoMemory> {
    let mut shelf = MemShelf::new(alloc).with(failing_at(alloc, read)?);
    shelf.add("main.spin", main)?;
    for (name, bytes) in files {
        shelf.add(name, bytes)?;
    }
    Ok(shelf)
}

/// A sink of which the write of this number fails.
pub fn sink_failing_at(alloc: Global, write: u64) -> Result<MemSink, NoMemory> {
    Ok(MemSink::new(alloc, ROOM)?.with(failing_at(alloc, write)?))
}

/// Makes a call of a line's words on a shelf of these files, with this one as `main.spin`.
pub fn left_by(
    alloc: Global,
    main: &[u8],
    files: &[File],
    line: &str,
    failing: Failing,
) -> Result<Left, NoMemory> {
    let words = words_in(alloc, line)?;
    let mut out = sink_failing_at(alloc, failing.write)?;
    let mut faults = sink_failing_at(alloc, failing.told)?;
    let mut shelf = shelf_failing_at(alloc, main, files, failing.read)?;
    let status = prop_alone(alloc, &words, &mut shelf, &mut out, &mut faults);
    drop(shelf);
    Ok(Left {
        status,
        out,
        faults,
    })
}
