// Files that can be run and files that can't, over a shelf in memory.
use crate::images::MAIN;
use p8_inputs::{Format, Program, read_inputs};
use p8_io::{FailList, MemShelf, MemSink};
use p8_words::NoMemory;
use std::alloc::Global;

/// A shelf with `a.binary` and a pin script, of which the read of this number fails; for 0 none does.
fn shelf_with(alloc: Global, bytes: &[u8], call: u64) -> Result<MemShelf, NoMemory> {
    let mut fails = FailList::new(alloc);
    fails.at(call)?;
    let mut shelf = MemShelf::new(alloc).with(fails);
    shelf.add("a.binary", bytes)?;
    shelf.add("a.pins", b"9000 00000001\n")?;
    Ok(shelf)
}

/// Whether this line tells why the file `a.binary` can't be run with the pin script; nothing where it can.
fn tells(
    alloc: Global,
    shelf: &mut MemShelf,
    format: Format,
    script: Option<&str>,
    line: &str,
) -> Result<bool, NoMemory> {
    let mut faults = MemSink::new(alloc, 256)?;
    let program = Program {
        file: "a.binary",
        format,
    };
    match read_inputs(alloc, program, script, shelf) {
        Ok(inputs) => drop(inputs),
        Err(stop) => {
            stop.tell(&mut faults);
            drop(stop);
        }
    }
    Ok(faults.bytes() == line.as_bytes())
}

/// Whether a file of a byte more than the hub has is too long.
fn is_too_long(alloc: Global, format: Format) -> Result<bool, NoMemory> {
    let long = vec![in alloc; 0; 32_769]?;
    let mut shelf = shelf_with(alloc, &long, 0)?;
    let is_told = tells(
        alloc,
        &mut shelf,
        format,
        None,
        "prop: a.binary: length 32769\n",
    );
    drop(shelf);
    is_told
}

/// The hub has 32,768 bytes.
#[test]
fn tells_what_is_too_long(rt: HostRuntime) {
    let is_long_image = matches!(is_too_long(rt.alloc(), Format::Image), Ok(true));
    assert!(rt; is_long_image && matches!(is_too_long(rt.alloc(), Format::Memory), Ok(true)));
}

/// Whether the first of two files that are missing is told.
fn tells_missing(alloc: Global) -> Result<bool, NoMemory> {
    let mut shelf = MemShelf::new(alloc);
    let line = "prop: a.binary is missing\n";
    let is_told = tells(alloc, &mut shelf, Format::Image, Some("a.pins"), line);
    drop(shelf);
    is_told
}

#[test]
fn tells_the_first_file_that_is_missing(rt: HostRuntime) {
    assert!(rt; matches!(tells_missing(rt.alloc()), Ok(true)));
}

/// The number of the read that fails, and the line that tells it.
static FAILING: [(u64, &str); 3] = [
    (1, "prop: cannot read a.binary\n"),
    (2, "prop: cannot read a.pins\n"),
    (3, ""),
];

/// Whether this line tells that the read of this number fails.
fn tells_failing(alloc: Global, call: u64, line: &str) -> Result<bool, NoMemory> {
    let mut shelf = shelf_with(alloc, &MAIN, call)?;
    let is_told = tells(alloc, &mut shelf, Format::Image, Some("a.pins"), line);
    drop(shelf);
    is_told
}

#[test]
fn tells_each_file_that_fails(rt: HostRuntime) {
    for (call, line) in &FAILING {
        assert!(rt;
            matches!(tells_failing(rt.alloc(), *call, line), Ok(true)),
            "{line}"
        );
    }
}
