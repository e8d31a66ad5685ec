// The legend of a small project, name for name.
use crate::shelves::shelf_of;
use p8_io::MemShelf;
use p8_legend::{Legend, project_legend};
use p8_objects::{discard, gather};
use p8_words::NoMemory;
use std::alloc::Global;

/// Two instances of one child, which has an object inside it.
const TOP: &[u8] = b"VAR
  byte flag
  long Count[2]
OBJ
  ser[2] : \"serial\"
PUB main
";

const SERIAL: &[u8] = b"VAR
  word width
OBJ
  buf : \"ring\"
DAT
entry long 5
PUB start
";

const RING: &[u8] = b"VAR
  long head
PUB init
";

/// Names, where their bytes begin and how many there are.
///
/// The top object begins at 0010, with 4 bytes, 4 for its method and 8 for the objects inside, and its code, a single RETURN, at 0020; the
/// next one at 0024, with its DAT at 0030 and its code at 0034; the last one at 0038, with its code at 0040. Variables begin at 0044:
/// those of the top object, in 12 bytes, and then twice 4 bytes of the child, the last 2 of them unused, and 4 of the object inside it.
static NAMES: [(&str, u16, u16); 10] = [
    ("main", 0x20, 1),
    ("ser[0].entry", 0x30, 4),
    ("ser[0].start", 0x34, 1),
    ("ser[0].buf.init", 0x40, 1),
    ("count", 0x44, 8),
    ("FLAG", 0x4C, 1),
    ("ser[0].width", 0x50, 2),
    ("Ser[0].Buf.Head", 0x54, 4),
    ("ser[1].width", 0x58, 2),
    ("ser[1].buf.head", 0x5C, 4),
];

/// The files of the project.
static FILES: [(&str, &[u8]); 3] = [
    ("top.spin", TOP),
    ("serial.spin", SERIAL),
    ("ring.spin", RING),
];

/// The legend of the project of `top.spin`.
fn legend_on(alloc: Global, shelf: &mut MemShelf) -> Option<Legend> {
    let Ok(gathered) = gather(alloc, shelf, "top.spin") else {
        return None;
    };
    let legend = project_legend(alloc, &gathered.project, gathered.sources.as_slice());
    discard(gathered);
    match legend {
        Ok(legend) => Some(legend),
        Err(_) => None,
    }
}

/// Whether a legend has these names, and none without its path.
fn has_all(legend: &Legend) -> bool {
    let mut all = legend.range_of(b"width").is_none();
    for (name, address, size) in &NAMES {
        all = all && legend.range_of(name.as_bytes()) == Some((*address, *size));
    }
    all
}

/// Whether an address inside an array is told with its offset.
fn tells_offset(alloc: Global, legend: &Legend) -> bool {
    let mut text = Vec::new(alloc);
    match legend.push_address(&mut text, 0x4A) {
        Ok(()) => text.as_slice() == b"Count+6".as_slice(),
        Err(_) => false,
    }
}

/// Whether the legend of the project has all names and tells that offset.
fn holds(alloc: Global) -> Result<bool, NoMemory> {
    let mut shelf = shelf_of(alloc, &FILES, 0)?;
    let legend = legend_on(alloc, &mut shelf);
    drop(shelf);
    match legend {
        Some(legend) => Ok(has_all(&legend) && tells_offset(alloc, &legend)),
        None => Ok(false),
    }
}

#[test]
fn tells_the_variables_of_two_instances(rt: HostRuntime) {
    assert!(rt; matches!(holds(rt.alloc()), Ok(true)));
}

/// A method with a parameter, a named result, an array and a local behind the first eight longs of its frame.
const FRAMES: &[u8] = b"PUB main
  foo(1)
  result := 0
PRI foo(p) : r | a[6], b
  r := b
  a := p
";

/// What the bytecodes at these addresses name in the frames of their methods.
///
/// The code of `main` is 01, 36, 05 02, 35, 61, 32, from 001C on, and that of `foo` is CC 20, 61, 64, 69, 32, from 0023 on: a read of the
/// local at 20, a write of the result, a read of the parameter at 4, and a write of the array at 8.
static LOCALS: [(u16, &str); 11] = [
    (0x1B, ""),
    (0x1C, ""),
    (0x20, ""),
    (0x21, "main.result"),
    (0x22, ""),
    (0x23, "foo.b"),
    (0x24, "foo.b"),
    (0x25, "foo.r"),
    (0x26, "foo.p"),
    (0x27, "foo.a"),
    (0x28, ""),
];

/// Whether a legend tells what each of these bytecodes names.
fn tells_locals(legend: &Legend) -> bool {
    let mut all = legend.local(None).is_empty();
    for (address, name) in &LOCALS {
        all = all && legend.local(Some(*address)) == name.as_bytes();
    }
    all
}

/// Whether the legend of that source does.
fn tells_frames(alloc: Global) -> Result<bool, NoMemory> {
    let mut shelf = shelf_of(alloc, &[("top.spin", FRAMES)], 0)?;
    let legend = legend_on(alloc, &mut shelf);
    drop(shelf);
    match legend {
        Some(legend) => Ok(tells_locals(&legend)),
        None => Ok(false),
    }
}

#[test]
fn tells_what_bytecodes_name_in_frames(rt: HostRuntime) {
    assert!(rt; matches!(tells_frames(rt.alloc()), Ok(true)));
}

/// A driver: its DAT begins at 0018, behind the object's table, with `org` that has no byte.
const DRIVER: &[u8] = b"PUB main
  cognew(@go, 0)
DAT
        org 0
go      mov dira, #1
        long 1, 2
:end    jmp #:end
last    byte 7
";

/// The lines of DAT that have these addresses.
static LINES: [(u16, &str); 7] = [
    (0x17, ""),
    (0x18, " top.spin:5"),
    (0x1B, " top.spin:5"),
    (0x1C, " top.spin:6"),
    (0x23, " top.spin:6"),
    (0x24, " top.spin:7"),
    (0x28, " top.spin:8"),
];

/// Whether a legend tells this line of an address.
fn tells_line(
    alloc: Global,
    legend: &Legend,
    address: Option<u16>,
    line: &str,
) -> Result<bool, NoMemory> {
    let mut text = Vec::new(alloc);
    legend.push_line(&mut text, address)?;
    Ok(text.as_slice() == line.as_bytes())
}

/// Whether the legend of that source tells those lines.
fn tells_lines(alloc: Global) -> Result<bool, NoMemory> {
    let mut shelf = shelf_of(alloc, &[("top.spin", DRIVER)], 0)?;
    let legend = legend_on(alloc, &mut shelf);
    drop(shelf);
    let Some(legend) = legend else {
        return Ok(false);
    };
    let mut all = tells_line(alloc, &legend, None, "")?;
    for (address, line) in &LINES {
        all = all && tells_line(alloc, &legend, Some(*address), line)?;
    }
    Ok(all)
}

#[test]
fn tells_the_lines_of_dat(rt: HostRuntime) {
    assert!(rt; matches!(tells_lines(rt.alloc()), Ok(true)));
}
