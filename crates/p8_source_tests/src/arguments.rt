// How many arguments a refused call is given, and how many are expected.
use crate::shelves::shelf_of;
use p8_build::{BuildFault, Size, build};
use p8_io::MemShelf;
use p8_objects::{discard, gather};
use p8_words::NoMemory;
use std::alloc::Global;

/// A source, the line and the column of its refusal by 17, how many arguments are expected there, and how many are given.
type Case = (&'static str, u32, u32, usize, usize);

/// The file of an object.
const KID: &str = "PUB start(pin)\nPUB none\nPRI hidden(a, b)\n";

#[rattlefmt::skip]
static ROWS: [Case; 22] = [
    // a method of the same file: a name alone as a statement and as a value, a call, a call by COGNEW, the first one of two of one name
    ("PUB main\n  f\nPRI f(n)\n", 2, 3, 1, 0),
    ("PUB main | x\n  x := f\nPRI f(n)\n", 2, 8, 1, 0),
    ("PUB main | x\n  x := 1 + f(2, 3)\nPRI f(n)\n", 2, 12, 1, 2),
    ("PUB main\n  \\f(1)\nPRI f\n", 2, 4, 0, 1),
    ("VAR\n  long s[9]\nPUB main\n  cognew(f(1, 2), @s)\nPRI f(n)\n", 4, 10, 1, 2),
    ("VAR\n  long s[9]\nPUB main\n  cognew(f, @s)\nPRI f(n)\n", 4, 10, 1, 0),
    ("PUB main\n  f(1)\nPRI f(a, b)\nPUB f(n)\n", 2, 3, 2, 1),
    // a method of an object
    ("OBJ\n  kid : \"kid\"\nPUB main\n  kid.start\n", 4, 7, 1, 0),
    ("OBJ\n  top : \"kid\"\n  kid[2] : \"kid\"\nPUB main\n  kid[1].start(1, 2)\nPRI start\n", 5, 10, 1, 2),
    ("OBJ\n  kid : \"kid\"\nPUB main | x\n  x := kid.none(7)\n", 4, 12, 0, 1),
    // built-ins
    ("PUB main\n  waitcnt(1, 2)\n", 2, 3, 1, 2),
    ("PUB main | x\n  x := strcomp(1)\n", 2, 8, 2, 1),
    ("PUB main\n  waitpeq(1, 1)\n", 2, 3, 3, 2),
    ("PUB main | x\n  x := locknew(1)\n", 2, 8, 0, 1),
    // wherever it stands: in an argument, an index, bits, a test, a loop, a CASE, a RETURN, behind a call that is right
    ("PUB main\n  g(f, 1)\nPRI f(n)\nPRI g(a, b)\n", 2, 5, 1, 0),
    ("VAR\n  long a[4]\nPUB main\n  a[f]++\nPRI f(n)\n", 4, 5, 1, 0),
    ("PUB main\n  outa[1..f]~~\nPRI f(n)\n", 2, 11, 1, 0),
    ("PUB main\n  if f(1, 2)\n    return\nPRI f(n)\n", 2, 6, 1, 2),
    ("PUB main | i\n  repeat i from 0 to 9 step f\n    main\nPRI f(n)\n", 2, 29, 1, 0),
    ("PUB main | x\n  case x\n    1, f..9: main\nPRI f(n)\n", 3, 8, 1, 0),
    ("PUB main\n  repeat\n    return f(1) + f\nPRI f(n)\n", 3, 19, 1, 0),
    ("PUB main | x\n  repeat\n    f(1)\n  until f\nPRI f(n)\n", 4, 9, 1, 0),
];

/// The fault of the project of `top.spin`.
fn fault_on(alloc: Global, shelf: &mut MemShelf) -> Option<BuildFault> {
    let Ok(gathered) = gather(alloc, shelf, "top.spin") else {
        return None;
    };
    let built = build(alloc, &gathered.project);
    discard(gathered);
    match built {
        Ok(image) => {
            drop(image);
            None
        }
        Err(fault) => Some(fault),
    }
}

/// Whether a source is refused by 17 at a place, with these numbers of arguments.
fn is_refused(alloc: Global, case: &Case) -> Result<bool, NoMemory> {
    let (source, line, column, wanted, given) = *case;
    let files = [
        ("top.spin", source.as_bytes()),
        ("kid.spin", KID.as_bytes()),
    ];
    let mut shelf = shelf_of(alloc, &files, 0)?;
    let fault = fault_on(alloc, &mut shelf);
    drop(shelf);
    match fault {
        Some(BuildFault::Source { file, fault, size }) => {
            drop(file);
            let is_there = fault.place.line == line && fault.place.column == column;
            Ok(fault.number == 17 && is_there && size == Some(Size::Arguments { wanted, given }))
        }
        _ => Ok(false),
    }
}

/// The number of the first row that isn't so; none is past the last one.
fn first_other(alloc: Global) -> Result<usize, NoMemory> {
    for (index, case) in ROWS.iter().enumerate() {
        if !is_refused(alloc, case)? {
            return Ok(index);
        }
    }
    Ok(ROWS.len())
}

#[test]
fn tells_how_many_arguments_there_are(rt: HostRuntime) {
    assert!(rt; matches!(first_other(rt.alloc()), Ok(22)));
}
