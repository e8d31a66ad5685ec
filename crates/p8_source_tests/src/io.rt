// Worked values: files and bytes in memory with calls that fail, and the system's adapters.
use crate::shelves::shelf_of;
use p8_io::{
    FailList, FileShelf, MemShelf, MemSink, Shelf, ShelfError, Sink, SinkFailed, StdSink,
    write_pieces,
};
use p8_words::NoMemory;
use std::alloc::Global;

/// What the reads of a shelf answer whose fourth one fails.
static READS: [(&str, Result<&str, ShelfError>); 5] = [
    ("a.spin", Ok("new text")),
    ("b.bin", Ok("")),
    ("c.spin", Err(ShelfError::Missing)),
    ("a.spin", Err(ShelfError::Failed)),
    ("a.spin", Ok("new text")),
];

/// Whether the read of a name answers so.
fn reads<S: Shelf>(
    alloc: Global,
    shelf: &mut S,
    name: &str,
    want: Result<&str, ShelfError>,
) -> bool {
    match (shelf.read(alloc, name), want) {
        (Ok(bytes), Ok(text)) => bytes.as_slice() == text.as_bytes(),
        (Err(error), Err(cause)) => error == cause,
        _ => false,
    }
}

/// What is put on the shelf, one file twice.
static FILES: [(&str, &[u8]); 3] = [("a.spin", b"old"), ("b.bin", b""), ("a.spin", b"new text")];

/// Whether the shelf tells the names that were read.
fn tells_names(shelf: &MemShelf) -> bool {
    match shelf.names_read() {
        Some(names) => names.len() == 5 && names[2].as_str() == "c.spin",
        None => false,
    }
}

/// Whether a shelf answers so, and tells the names that were read.
fn reads_its_files(alloc: Global) -> Result<bool, NoMemory> {
    let mut shelf = shelf_of(alloc, &FILES, 4)?;
    let mut all = true;
    for (name, want) in &READS {
        all = all && reads(alloc, &mut shelf, name, *want);
    }
    let is_told = tells_names(&shelf);
    drop(shelf);
    Ok(all && is_told)
}

#[test]
fn a_shelf_reads_its_files(rt: HostRuntime) {
    assert!(rt; matches!(reads_its_files(rt.alloc()), Ok(true)));
}

/// What the writes of a sink with room for eight bytes answer whose second one fails, and what it has then.
static WRITES: [(&str, Result<(), SinkFailed>, &str); 5] = [
    ("abc", Ok(()), "abc"),
    ("lost", Err(SinkFailed), "abc"),
    ("defg", Ok(()), "abcdefg"),
    ("hij", Err(SinkFailed), "abcdefgh"),
    ("", Ok(()), "abcdefgh"),
];

/// Whether a sink answers so, and has those bytes.
fn takes_what_fits(alloc: Global) -> Result<bool, NoMemory> {
    let mut fails = FailList::new(alloc);
    fails.at(2)?;
    let mut sink = MemSink::new(alloc, 8)?.with(fails);
    let mut all = true;
    for (bytes, want, taken) in &WRITES {
        let is_so = sink.write(bytes.as_bytes()) == *want;
        all = all && is_so && sink.bytes() == taken.as_bytes();
    }
    Ok(all)
}

/// Whether pieces go out in turn.
fn writes_pieces(alloc: Global) -> Result<bool, NoMemory> {
    let mut sink = MemSink::new(alloc, 12)?;
    let written = write_pieces(
        &mut sink,
        &["prop: ".as_bytes(), "a.bin".as_bytes(), "\n".as_bytes()],
    );
    Ok(written == Ok(()) && sink.bytes() == "prop: a.bin\n".as_bytes())
}

#[test]
fn a_sink_takes_what_fits(rt: HostRuntime) {
    assert!(rt; matches!(takes_what_fits(rt.alloc()), Ok(true)));
}

#[test]
fn pieces_go_out_in_turn(rt: HostRuntime) {
    assert!(rt; matches!(writes_pieces(rt.alloc()), Ok(true)));
}

/// Whether a stream that takes no more fails.
fn fails_when_full() -> bool {
    let mut room = [0; 4];
    let mut sink = StdSink::new(room.as_mut_slice());
    let is_taken = sink.write(b"abc") == Ok(()) && sink.write(b"de") == Err(SinkFailed);
    is_taken && room.as_slice() == "abcd".as_bytes()
}

#[test]
fn a_stream_that_takes_no_more_fails(rt: HostRuntime) {
    assert!(rt; fails_when_full());
}

#[test]
fn the_system_lacks_or_refuses_files(rt: HostRuntime) {
    let mut shelf = FileShelf::new(&rt, Vec::new(rt.alloc()));
    let is_lacking = reads(
        rt.alloc(),
        &mut shelf,
        "no such file.spin",
        Err(ShelfError::Missing),
    );
    assert!(rt; is_lacking && reads(rt.alloc(), &mut shelf, ".", Err(ShelfError::Failed)));
}
