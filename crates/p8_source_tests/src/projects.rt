// Worked projects: their files in order, and why there is none.
use crate::shelves::shelf_of;
use p8_io::MemShelf;
use p8_objects::{GatherFault, Mention, ReadFile, discard, gather};
use p8_tree::{Project, Text};
use p8_words::NoMemory;
use std::alloc::{AllocError, Global};

// A file that mentions these, each on a line of its own; the string stands at column 7.
const MENTIONS_A: &[u8] = b"OBJ\n  x : \"a\"\nPUB f";

const MENTIONS_B: &[u8] = b"OBJ\n  x : \"b\"\nPUB f";

const MENTIONS_B_AND_C: &[u8] = b"OBJ\n  x : \"b\"\n  y : \"c\"\nPUB f";

const MENTIONS_C: &[u8] = b"OBJ\n  x : \"c\"\nPUB f";

const MENTIONS_D: &[u8] = b"OBJ\n  x : \"d\"\nPUB f";

const NO_MENTION: &[u8] = b"PUB f";

const FLOATING: &[u8] = b"CON\n  x = 1.5";

fn write_name(out: &mut String, name: &Text) -> Result<(), AllocError> {
    out.push_str(str::from_utf8(name.as_slice()).unwrap_or("?"))
}

fn write_files(out: &mut String, project: &Project) -> Result<(), AllocError> {
    for file in project.files.as_slice() {
        write_name(out, &file.name)?;
        out.push_str(" ")?;
    }
    Ok(())
}

// Where a file is mentioned, after its name.
fn write_mention(out: &mut String, mention: Option<&Mention>) -> Result<(), AllocError> {
    match mention {
        Some(Mention { file, place }) => {
            out.push_str(", at ")?;
            write_name(out, &file.name)?;
            write!(out, ":{}:{}", place.line, place.column)
        }
        None => Ok(()),
    }
}

fn write_fault(out: &mut String, fault: &GatherFault) -> Result<(), AllocError> {
    match fault {
        GatherFault::Source { file, fault } => {
            let place = fault.place;
            write_name(out, &file.name)?;
            write!(out, ":{}:{}: {}", place.line, place.column, fault.number)
        }
        GatherFault::Missing { file, mention } => {
            out.push_str("missing ")?;
            write_name(out, file)?;
            write_mention(out, mention.as_ref())
        }
        GatherFault::ShelfFault { file } => {
            out.push_str("not read ")?;
            write_name(out, file)
        }
        GatherFault::NoMemory => out.push_str("out of memory"),
    }
}

// Whether a file comes with the bytes that it has among these.
fn is_as_read(files: &[(&str, &[u8])], file: &ReadFile) -> bool {
    files.iter().any(|(name, bytes)| name.as_bytes() == file.name.as_slice()
        && *bytes == file.bytes.as_slice())
}

// Whether the file in which a fault shows comes with its bytes.
fn shows_bytes(files: &[(&str, &[u8])], fault: &GatherFault) -> bool {
    match fault {
        GatherFault::Source { file, .. } => is_as_read(files, file),
        GatherFault::Missing { mention, .. } => match mention {
            Some(mention) => is_as_read(files, &mention.file),
            None => true,
        },
        GatherFault::ShelfFault { .. } | GatherFault::NoMemory => true,
    }
}

// What gathering answers: the names of the files, each with a blank after it, or the fault.
fn answer(
    alloc: Global,
    files: &[(&str, &[u8])],
    shelf: &mut MemShelf,
) -> Result<String, AllocError> {
    let mut out = String::new(alloc);
    match gather(alloc, shelf, "a.spin") {
        Ok(gathered) => {
            let written = write_files(&mut out, &gathered.project);
            discard(gathered);
            written?;
        }
        Err(fault) if shows_bytes(files, &fault) => write_fault(&mut out, &fault)?,
        Err(_) => out.push_str("other bytes")?,
    }
    Ok(out)
}

// Whether gathering answers so where the read of this number fails; for 0 none does.
fn answers(
    alloc: Global,
    files: &[(&str, &[u8])],
    call: u64,
    wanted: &str,
) -> Result<bool, NoMemory> {
    let mut shelf = shelf_of(alloc, files, call)?;
    let found = answer(alloc, files, &mut shelf);
    drop(shelf);
    Ok(found?.as_str() == wanted)
}

// Files, the first of them the top file, the number of the read that fails, and what gathering answers.
type Case = (&'static [(&'static str, &'static [u8])], u64, &'static str);

static PROJECTS: [Case; 11] = [
    (
        &[("a.spin", MENTIONS_B), ("b.spin", MENTIONS_A)],
        0,
        "b.spin:2:7: 19",
    ),
    (&[("a.spin", MENTIONS_A)], 0, "a.spin:2:7: 19"),
    (
        &[
            ("a.spin", MENTIONS_B_AND_C),
            ("b.spin", MENTIONS_C),
            ("c.spin", NO_MENTION),
        ],
        0,
        "a.spin b.spin c.spin ",
    ),
    (
        &[
            ("a.spin", MENTIONS_B_AND_C),
            ("b.spin", MENTIONS_D),
            ("c.spin", NO_MENTION),
            ("d.spin", NO_MENTION),
        ],
        0,
        "a.spin b.spin d.spin c.spin ",
    ),
    (
        &[("a.spin", MENTIONS_B_AND_C), ("b.spin", NO_MENTION)],
        0,
        "missing c.spin, at a.spin:3:7",
    ),
    (
        &[("a.spin", MENTIONS_B_AND_C), ("b.spin", FLOATING)],
        0,
        "b.spin:2:7: 9",
    ),
    (
        &[
            ("a.spin", MENTIONS_B_AND_C),
            ("b.spin", MENTIONS_C),
            ("c.spin", MENTIONS_B),
        ],
        0,
        "c.spin:2:7: 19",
    ),
    // Each read fails in turn; there is no fourth one, since no file is read twice.
    (
        &[
            ("a.spin", MENTIONS_B_AND_C),
            ("b.spin", MENTIONS_C),
            ("c.spin", NO_MENTION),
        ],
        1,
        "not read a.spin",
    ),
    (
        &[
            ("a.spin", MENTIONS_B_AND_C),
            ("b.spin", MENTIONS_C),
            ("c.spin", NO_MENTION),
        ],
        2,
        "not read b.spin",
    ),
    (
        &[
            ("a.spin", MENTIONS_B_AND_C),
            ("b.spin", MENTIONS_C),
            ("c.spin", NO_MENTION),
        ],
        3,
        "not read c.spin",
    ),
    (
        &[
            ("a.spin", MENTIONS_B_AND_C),
            ("b.spin", MENTIONS_C),
            ("c.spin", NO_MENTION),
        ],
        4,
        "a.spin b.spin c.spin ",
    ),
];

#[test]
fn gathers_projects(rt: HostRuntime) {
    for (files, call, wanted) in &PROJECTS {
        assert!(rt;
            matches!(answers(rt.alloc(), files, *call, wanted), Ok(true)),
            "{wanted}"
        );
    }
}
