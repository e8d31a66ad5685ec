// The maps of small projects, line for line.
use crate::shelves::shelf_of;
use p8_io::MemShelf;
use p8_map::project_map;
use p8_objects::{discard, gather};
use p8_words::NoMemory;
use std::alloc::Global;

/// It has no variables of its own, and so no line as an instance.
const TOP: &[u8] = b"OBJ
  led[2] : \"led\"
PUB main
";

/// Longs come first in the memory, then words, then bytes, whatever their order here.
const LED: &[u8] = b"VAR
  byte flag
  long count[2]
  word Width
DAT
entry long 5
Tail byte 1
PUB Start(pin) : Ok
";

/// Names stand as their file spells them where it defines them. Each object has 4 bytes, 4 for each method and for each object inside, its DAT in
/// whole longs, and its code, which is a single RETURN.
const MAP: &str = "0000 header clkfreq 00B71B00
0004 header clkmode 00
0005 header checksum 3A
0006 header pbase 0010
0008 header vbase 0038
000A header dbase 0058
000C header pcurr 0020
000E header dcurr 005C
0010 object top.spin
0018 child led[0] led.spin
001C child led[1] led.spin
0020 method 1 main
+0000 result RESULT 1
0024 object led.spin
002C label entry cog 000 long
0030 label Tail cog 001 byte
0034 method 1 Start
+0000 result Ok 1
+0004 parameter pin 1
0038 instance led[0].* led.spin 0024
0038 variable led[0].count long 2
0040 variable led[0].Width word 1
0042 variable led[0].flag byte 1
0044 instance led[1].* led.spin 0024
0044 variable led[1].count long 2
004C variable led[1].Width word 1
004E variable led[1].flag byte 1
0058 stack
005C free 32676
";

/// The files of the project.
static FILES: [(&str, &[u8]); 2] = [("top.spin", TOP), ("led.spin", LED)];

/// A text with a line's end, which is told by numbers. The code is 87 80 0D 65 32: the text stands at 0D from its object's begin.
static GREETING: [(&str, &[u8]); 1] = [(
    "top.spin",
    b"PUB main | p\n  p := string(\"Hello\", 13, 10)\n",
)];

const MAP_OF_GREETING: &str = "0000 header clkfreq 00B71B00
0004 header clkmode 00
0005 header checksum AE
0006 header pbase 0010
0008 header vbase 0028
000A header dbase 0030
000C header pcurr 0018
000E header dcurr 0038
0010 object top.spin
0018 method 1 main
+0000 result RESULT 1
+0004 local p 1
001D string \"Hello\", 13, 10
0030 stack
0038 free 32712
";

/// The map of the project of `top.spin`.
fn map_on(alloc: Global, shelf: &mut MemShelf) -> Option<Vec<u8>> {
    let Ok(gathered) = gather(alloc, shelf, "top.spin") else {
        return None;
    };
    let map = project_map(alloc, &gathered.project, gathered.sources.as_slice());
    discard(gathered);
    match map {
        Ok(text) => Some(text),
        Err(_) => None,
    }
}

/// Whether the map of some files is told so.
fn is_told(alloc: Global, files: &[(&str, &[u8])], expected: &str) -> Result<bool, NoMemory> {
    let mut shelf = shelf_of(alloc, files, 0)?;
    let map = map_on(alloc, &mut shelf);
    drop(shelf);
    match map {
        Some(text) => Ok(text.as_slice() == expected.as_bytes()),
        None => Ok(false),
    }
}

#[test]
fn tells_where_all_stands(rt: HostRuntime) {
    assert!(rt; matches!(is_told(rt.alloc(), &FILES, MAP), Ok(true)));
    assert!(rt; matches!(is_told(rt.alloc(), &GREETING, MAP_OF_GREETING), Ok(true)));
}
