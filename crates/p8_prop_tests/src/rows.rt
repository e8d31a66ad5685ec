// Worked calls on images of both kinds, on pins, with shorter code, and of pages, by one thread.
use crate::calls::{Left, NOTHING, shelf_failing_at, words_in};
use crate::commands::IMAGE;
use p8_io::MemSink;
use p8_prop::{Status, prop_alone};
use p8_words::NoMemory;
use std::alloc::Global;

/// How many bytes a text has at most: an `.eeprom` file or a page, and more.
const ROOM: usize = 60_000;

/// How many bytes an `.eeprom` file has.
const HUB_BYTES: usize = 32_768;

/// The words before the first frame.
const FRAME: &[u8] = b"\xFF\xFF\xF9\xFF\xFF\xFF\xF9\xFF";

/// The pin script that sends the byte $41 without its stop bit.
const CUT: &[u8] =
    b"0 00000001\n1000 00000000\n1100 00000001\n1200 00000000\n1700 00000001\n1800 00000000\n";

/// Files of the shelf beside those with whole memories: images, of which one has the name of the other kind, a file without bytes, a
/// script, and sources with a constant tree, with a part that is never done, with a string of it, and with a comment that would end a block of a page.
static FILES: [(&str, &[u8]); 7] = [
    ("a.binary", IMAGE),
    ("short.eeprom", IMAGE),
    ("empty.txt", b""),
    ("cut.pins", CUT),
    ("sum.spin", b"VAR\n  long a\nPUB main\n  a := 2 + 3 * 4\n"),
    (
        "never.spin",
        b"VAR\n  long a\nPUB main\n  if 0\n    a := 1\n",
    ),
    ("mark.spin", b"PUB main\n'</script>%\xE9\n"),
];

/// The trace of the image, with the first two bytes of the hub's memory.
const TEXT: &[u8] =
    b"16 0 begin 0018 0024\n8224 0 wrlong 0024 00000000\n8272 0 cogstop 0\nended clocks 3\n\
    locks ........\npins 00000000 00000000\ncog 0 stopped\ncog 1 stopped\ncog 2 stopped\n\
    cog 3 stopped\ncog 4 stopped\ncog 5 stopped\ncog 6 stopped\ncog 7 stopped\n0000: 00 1B\n";

/// Zeros for a whole memory behind these bytes, with this last byte.
fn memory(alloc: Global, bytes: &[u8], last: u8) -> Result<Vec<u8>, NoMemory> {
    let mut file = bytes.to_vec(alloc)?;
    file.resize(HUB_BYTES, 0)?;
    if let Some(end) = file.last_mut() {
        *end = last;
    }
    Ok(file)
}

/// The `.eeprom` file of the image.
fn eeprom(alloc: Global) -> Result<Vec<u8>, NoMemory> {
    let mut file = IMAGE.to_vec(alloc)?;
    file.extend_from_slice(FRAME)?;
    memory(alloc, &file, 0)
}

/// Makes a call of a line's words.
fn left(alloc: Global, line: &str) -> Result<Left, NoMemory> {
    let words = words_in(alloc, line)?;
    let mut out = MemSink::new(alloc, ROOM)?;
    let mut faults = MemSink::new(alloc, ROOM)?;
    let mut shelf = shelf_failing_at(alloc, b"PUB main\n", &FILES, NOTHING.read)?;
    shelf.add("b.eeprom", &eeprom(alloc)?)?;
    shelf.add("zeros.eeprom", &memory(alloc, &[], 0)?)?;
    shelf.add("one.eeprom", &memory(alloc, &[], 1)?)?;
    let status = prop_alone(alloc, &words, &mut shelf, &mut out, &mut faults);
    drop(shelf);
    Ok(Left {
        status,
        out,
        faults,
    })
}

/// Whether a line's words are carried out and leave this text, and no line of a fault.
fn leaves(alloc: Global, line: &str, text: &[u8]) -> Result<bool, NoMemory> {
    let left = left(alloc, line)?;
    let is_done = left.status == Status::Ok && left.faults.bytes().is_empty();
    Ok(is_done && left.out.bytes() == text)
}

/// Calls and what they write.
static ANSWERS: [(&str, &[u8]); 10] = [
    ("convert b.eeprom", IMAGE),
    ("run b.eeprom 20000 --alone --dump=0000:2", TEXT),
    (
        "list sum.spin --short",
        b"object sum.spin 0010\nmethod 1 0018\n0018 38 0E\n001A 41\n001B 32\n",
    ),
    (
        "code sum.spin --short",
        b"object sum.spin 0010\nmethod 1 0018 main\n  4:   a := 2 + 3 * 4\n\
        0018 38 0E              PUSH_BYTE_LIT 14\n001A 41                 POP_VARMEM_LONG a\n\
        \x20 3: PUB main\n001B 32                 RETURN\n",
    ),
    (
        "code b.eeprom",
        b"object 0010\nmethod 1 0018\n0018 32                 RETURN\n0019 string 0, 0, 0\n",
    ),
    (
        "list never.spin --short",
        b"object never.spin 0010\nmethod 1 0018\n0018 32\n",
    ),
    ("build main.spin --short", IMAGE),
    (
        "serial a.binary 3000 0 100 --raw --pins cut.pins",
        b"1000 framing\nbytes 0\n",
    ),
    ("type empty.txt 0 100 1000", b"0 00000001\n"),
    ("serial a.binary 1000 0 100 --raw", b"bytes 0\n"),
];

#[test]
fn carries_rows_out(rt: HostRuntime) {
    for (line, text) in &ANSWERS {
        assert!(rt;
            matches!(leaves(rt.alloc(), line, text), Ok(true)),
            "{line}"
        );
    }
}

/// Whether the image is converted to its `.eeprom` file.
fn is_converted(alloc: Global) -> Result<bool, NoMemory> {
    leaves(alloc, "convert a.binary", &eeprom(alloc)?)
}

#[test]
fn converts_to_a_whole_memory(rt: HostRuntime) {
    assert!(rt; matches!(is_converted(rt.alloc()), Ok(true)));
}

/// Calls on files that are no images of their kind, and the lines that tell it.
static FAULTS: [(&str, &str); 4] = [
    ("convert short.eeprom", "prop: short.eeprom: length 28\n"),
    ("convert zeros.eeprom", "prop: zeros.eeprom: header pbase\n"),
    ("convert one.eeprom", "prop: one.eeprom: sum 01\n"),
    ("run one.eeprom 1 --alone", "prop: one.eeprom: sum 01\n"),
];

/// Whether a call tells that its image is bad.
fn is_refused(alloc: Global, line: &str, told: &str) -> Result<bool, NoMemory> {
    let left = left(alloc, line)?;
    Ok(left.is_refusal(Status::BadImage, told))
}

#[test]
fn tells_bad_images(rt: HostRuntime) {
    for (line, told) in &FAULTS {
        assert!(rt;
            matches!(is_refused(rt.alloc(), line, told), Ok(true)),
            "{line}"
        );
    }
}

/// The blocks of a page of that source, of the clocks from 8225 on, behind the style and before the script.
const MARKED: &[u8] = b"</section>\n<script type=\"text/plain\" class=\"file\">mark.spin</script>\n\
    <script type=\"text/plain\" class=\"range\">8225\n20000\n</script>\n\
    <script type=\"text/plain\" class=\"windows\">8240\n8226\n8228\n8230\n8232\n8234\n8236\n8238\n</script>\n\
    <script type=\"text/plain\" class=\"view\">8272 689.333 us cog 0 cogstop 0 mark.spin:1 main\n\
    cog 0 is stopped at clock 8272\ncog 1 is idle\ncog 2 is idle\ncog 3 is idle\n\
    cog 4 is idle\ncog 5 is idle\ncog 6 is idle\ncog 7 is idle\n\
    3 turns are made, the last at clock 8272\nno cog makes another before clock 20000\n</script>\n\
    <script type=\"text/plain\" class=\"pins\"></script>\n\
    <script type=\"text/plain\" class=\"map\">0000 header clkfreq 00B71B00\n0004 header clkmode 00\n\
    0005 header checksum 6A\n0006 header pbase 0010\n0008 header vbase 001C\n000A header dbase 0024\n\
    000C header pcurr 0018\n000E header dcurr 0028\n0010 object mark.spin\n0018 method 1 main\n\
    +0000 result RESULT 1\n0024 stack\n0028 free 32728\n</script>\n\
    <script type=\"text/plain\" class=\"name\">mark.spin</script>\n\
    <script type=\"text/plain\" class=\"source\">PUB main\n'%3C/script>%25%E9\n</script>\n<script>\n";

/// Those of a page of hub memory, with the pins of the script up to clock 1050; the load of cog 0 is under way.
const LOADED: &[u8] = b"</section>\n<script type=\"text/plain\" class=\"file\">a.binary</script>\n\
    <script type=\"text/plain\" class=\"range\">0\n1050\n</script>\n\
    <script type=\"text/plain\" class=\"windows\">0\n2\n4\n6\n8\n10\n12\n14\n</script>\n\
    <script type=\"text/plain\" class=\"view\">16 cog 0 load of 0000, 496 longs\n\
    cog 0 runs since clock 16, its last turn is at clock 1040, asks nothing before clock 1050\n\
    cog 1 is idle\ncog 2 is idle\ncog 3 is idle\ncog 4 is idle\ncog 5 is idle\ncog 6 is idle\ncog 7 is idle\n\
    65 turns are made, the last at clock 1040\nno cog makes another before clock 1050\n</script>\n\
    <script type=\"text/plain\" class=\"pins\">0 00000001\n1000 00000000\n</script>\n<script>\n";

/// Calls and the blocks of the pages that they write.
static PAGES: [(&str, &[u8]); 2] = [
    ("page mark.spin 20000 --from 8225", MARKED),
    ("page a.binary 1050 --raw --pins cut.pins", LOADED),
];

/// Whether these bytes stand somewhere in a text.
fn stands_in(text: &[u8], part: &[u8]) -> bool {
    for at in 0..text.len() {
        if let Some(rest) = text.get(at..) {
            if rest.starts_with(part) {
                return true;
            }
        }
    }
    false
}

/// Whether a line's words are carried out and leave a page in HTML with these blocks.
fn shows(alloc: Global, line: &str, blocks: &[u8]) -> Result<bool, NoMemory> {
    let left = left(alloc, line)?;
    let is_done = left.status == Status::Ok && left.faults.bytes().is_empty();
    let page = left.out.bytes();
    Ok(is_done && page.starts_with(b"<!DOCTYPE html>\n") && stands_in(page, blocks))
}

#[test]
fn pages_have_their_blocks(rt: HostRuntime) {
    for (line, blocks) in &PAGES {
        assert!(rt;
            matches!(shows(rt.alloc(), line, blocks), Ok(true)),
            "{line}"
        );
    }
}
