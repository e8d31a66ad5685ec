// The names of whole sources.
ghost use Rattle.p8_tree.specs.Proper.{IsProperFile};
ghost use Rattle.p8_tree.specs.Views.{source_of};

use crate::sources::tree_of;
use p8_kinds::{Child, ChildConst, ChildMethod, Children, Named};
use p8_names::resolve;
use p8_tree::{List, SourceFile, Text};
use p8_words::Fail;
use std::alloc::{AllocError, Global};

// What an object's file has: `LIMIT = 40` and `PUB set(value)`.
fn kid(alloc: Global) -> Result<Child, AllocError> {
    let mut methods = List::new(alloc);
    methods.push(ChildMethod {
        name: Text::copy_of(alloc, b"SET")?,
        params: 1,
    })?;
    let mut consts = List::new(alloc);
    consts.push(ChildConst {
        name: Text::copy_of(alloc, b"LIMIT")?,
        value: 40,
    })?;
    Ok(Child { methods, consts })
}

// What a file with so many items of `OBJ` sees of their files.
fn kids(alloc: Global, count: usize) -> Result<Children, AllocError> {
    let mut items = List::new(alloc);
    for _ in 0..count {
        items.push(kid(alloc)?)?;
    }
    Ok(Children { items })
}

// Writes what a name is in a method, or at 0 in the whole file.
fn write_kind(
    out: &mut String,
    named: &Named,
    method: u32,
    name: &str,
    alloc: Global,
) -> Result<(), AllocError> {
    let name = Text::copy_of(alloc, name.as_bytes())?;
    match named.kinds.find(method, &name) {
        Some(kind) => write!(out, "{kind:?}"),
        None => out.push_str("nothing"),
    }
}

// Writes what a name of a file is, or why the file is refused.
fn write_answer(
    out: &mut String,
    alloc: Global,
    file: &SourceFile,
    children: &Children,
    top: bool,
    asked: (u32, &str),
) -> Result<(), AllocError>
    requires { IsProperFile (source_of file.now) }
{
    match resolve(alloc, file, children, top) {
        Ok(named) => {
            let written = write_kind(out, &named, asked.0, asked.1, alloc);
            drop(named);
            written
        }
        Err(Fail::Refused(fault)) => write!(
            out,
            "{} {}:{}",
            fault.number, fault.place.line, fault.place.column
        ),
        Err(Fail::NoMemory) => out.push_str("out of memory"),
    }
}

// A source, how many items of `OBJ` it has, whether it is the top file, the name that is asked for in a method or at 0 in the
// whole file, and what it is, or why the source is refused.
type Case = (&'static str, usize, bool, u32, &'static str, &'static str);

// What a name of a file is, or why the file is refused.
fn answer_of(alloc: Global, file: &SourceFile, case: &Case) -> Result<String, AllocError>
    requires { IsProperFile (source_of file.now) }
{
    let (_, objects, top, method, name, _) = *case;
    let mut out = String::new(alloc);
    let children = kids(alloc, objects)?;
    let written = write_answer(&mut out, alloc, file, &children, top, (method, name));
    drop(children);
    written?;
    Ok(out)
}

// Whether what a name of a source is, or why the source is refused, is what a case says.
fn is_answered(alloc: Global, case: &Case) -> Result<bool, AllocError> {
    let Some(file) = tree_of(alloc, case.0.as_bytes()) else {
        return Ok(false);
    };
    let answer = answer_of(alloc, &file, case);
    drop(file);
    Ok(answer?.as_str() == case.5)
}

// Each by itself: the first fault, by place and then by number.
static REFUSALS: [Case; 15] = [
    ("CON\n  a = b\n  b = a", 0, false, 0, "A", "12 2:7"),
    // What uses itself counts as 0 where it is used.
    ("CON\n  a = 1 / q\n  q = q", 0, false, 0, "A", "13 2:9"),
    ("CON\n  a = 1 / 0", 0, false, 0, "A", "13 2:9"),
    ("CON\n  a = 1", 0, true, 0, "A", "18 1:1"),
    ("CON\n  x = main\nPUB main", 0, true, 0, "A", "12 2:7"),
    (
        "CON\n  a = 1\nVAR\n  long a\nPUB main",
        0,
        true,
        0,
        "A",
        "14 4:8",
    ),
    ("PUB main\n  x := 1", 0, true, 0, "A", "15 2:3"),
    ("PUB main : true", 0, true, 0, "A", "14 1:12"),
    ("PUB main\nDAT\n:a\n:a", 0, true, 0, "A", "14 4:1"),
    (
        "VAR\n  long v\nPUB main\n  return v#c",
        0,
        true,
        0,
        "A",
        "16 4:10",
    ),
    ("PUB main\n  f(1)", 0, true, 0, "A", "15 2:3"),
    ("PUB main(a)\nPUB g\n  main", 0, true, 0, "A", "17 3:3"),
    ("PUB main\nDAT\n  jmp #:x\n:y", 0, true, 0, "A", "15 3:8"),
    (
        "CON\n  k = 128\nPUB main\n  return string(\"a\", k + k)",
        0,
        true,
        0,
        "A",
        "31 4:24",
    ),
    (
        "PUB main(p)\n  return string(\"a\", 0, p)",
        0,
        true,
        0,
        "A",
        "31 2:22",
    ),
];

#[test]
fn refuses_sources(rt: HostRuntime) {
    for case in &REFUSALS {
        assert!(rt;
            matches!(is_answered(rt.alloc(), case), Ok(true)),
            "{}",
            case.0
        );
    }
}

// A `PRI` of an object's file and the constants of the language have no definition after its name.
static OBJECTS: [Case; 5] = [
    (
        "OBJ\n  kid : \"kid\"\nPUB main\n  kid.hidden",
        1,
        true,
        0,
        "A",
        "15 4:7",
    ),
    (
        "OBJ\n  kid : \"kid\"\nPUB main\n  return kid#true",
        1,
        true,
        0,
        "A",
        "15 4:14",
    ),
    (
        "OBJ\n  kid[0] : \"kid\"\nPUB main",
        1,
        true,
        0,
        "A",
        "20 2:3",
    ),
    (
        "OBJ\n  kid : \"kid\"\nPUB main\n  kid.set",
        1,
        true,
        0,
        "A",
        "17 4:7",
    ),
    (
        "CON\n  a = kid#limit + 2\nOBJ\n  kid : \"kid\"\nPUB main\n  kid.set(a)",
        1,
        true,
        0,
        "A",
        "Const(42)",
    ),
];

#[test]
fn knows_objects(rt: HostRuntime) {
    for case in &OBJECTS {
        assert!(rt;
            matches!(is_answered(rt.alloc(), case), Ok(true)),
            "{}",
            case.0
        );
    }
}

// A constant may stand before its line, and a counter begins at 0.
const CONSTANTS: &str =
    "CON\n  a = width * h\n  width = 6\n  h = 7\n  c\n  d\n  s = ($FFFFFFFF + 2) >> 1\nPUB main";

// Longs stand before bytes; a frame has its result, its parameters and its locals.
const KINDS: &str =
    "VAR\n  byte b\n  long l\nPRI hidden\nPUB main(p) : r | x, y[2], z\nDAT\nw word 1";

static NAMES: [Case; 14] = [
    (CONSTANTS, 0, true, 0, "A", "Const(42)"),
    (CONSTANTS, 0, true, 0, "C", "Const(0)"),
    (CONSTANTS, 0, true, 0, "D", "Const(1)"),
    (CONSTANTS, 0, true, 0, "S", "Const(0)"),
    (KINDS, 0, true, 0, "B", "Global { size: 1, offset: 4 }"),
    (KINDS, 0, true, 0, "L", "Global { size: 4, offset: 0 }"),
    (
        KINDS,
        0,
        true,
        0,
        "HIDDEN",
        "Method { number: 2, params: 0 }",
    ),
    (KINDS, 0, true, 0, "MAIN", "Method { number: 1, params: 1 }"),
    (KINDS, 0, true, 0, "W", "Label { size: 2 }"),
    (KINDS, 0, true, 0, "TRUE", "Const(4294967295)"),
    (KINDS, 0, true, 1, "P", "Local { offset: 4 }"),
    (KINDS, 0, true, 1, "R", "Local { offset: 0 }"),
    (KINDS, 0, true, 1, "Z", "Local { offset: 20 }"),
    (KINDS, 0, true, 2, "Z", "nothing"),
];

#[test]
fn finds_names(rt: HostRuntime) {
    for case in &NAMES {
        assert!(rt;
            matches!(is_answered(rt.alloc(), case), Ok(true)),
            "{} {}",
            case.3,
            case.4
        );
    }
}
