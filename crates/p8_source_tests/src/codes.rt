// The code of a small project and of its image for reading, line for line.
use crate::shelves::shelf_of;
use p8_code::{image_code, project_code, project_short_code};
use p8_image::load;
use p8_io::MemShelf;
use p8_objects::{discard, gather};
use p8_words::NoMemory;
use std::alloc::Global;

/// A method with a loop that calls the other one, a text, and a DAT.
static FILES: [(&str, &[u8]); 1] = [(
    "ten.spin",
    b"VAR
  long count, size
PUB main | i
  repeat i from 1 to 9
    tally(i)
  size := strsize(string(\"done\"))
PRI tally(n)
  count += n * table[1]
DAT
table   long 7, $12345678
",
)];

/// The code of the project.
const CODE: &str = "object ten.spin 0010
  10: table   long 7, $12345678
001C 00000007 IF_NEVER WRBYTE $000, $007 ' table
0020 12345678 IF_C_OR_NZ MUL $02B, $078 WZ NR
method 1 0024 main
  4:   repeat i from 1 to 9
0024 36                 PUSH_1
0025 65                 POP_LOCALMEM_LONG main.i
  5:     tally(i)
0026 01                 FRAME_CALL_NORETURN
0027 64                 PUSH_LOCALMEM_LONG main.i
0028 05 02              CALL tally
  4:   repeat i from 1 to 9
002A 36                 PUSH_1
002B 38 09              PUSH_BYTE_LIT 9
002D 66 02 FF F5        EFFECT_LOCALMEM_LONG main.i REPEAT_COMPARE 0026
  6:   size := strsize(string(\"done\"))
0031 87 80 2F           REFERENCE_OBJECTMEM_BYTE \"done\"
0034 16                 STRSIZE
0035 45                 POP_VARMEM_LONG size
  3: PUB main | i
0036 32                 RETURN
method 2 0037 tally(n)
  8:   count += n * table[1]
0037 64                 PUSH_LOCALMEM_LONG tally.n
0038 36                 PUSH_1
0039 D4 0C              PUSH_INDEXED_OBJECTMEM_LONG table
003B F4                 MULTIPLY
003C 42 4C              EFFECT_VARMEM_LONG count ADD
  7: PRI tally(n)
003E 32                 RETURN
";

/// The code of the project with short code: the loop's jump has one byte, so all that stands behind it stands one byte before.
const SHORT_CODE: &str = "object ten.spin 0010
  10: table   long 7, $12345678
001C 00000007 IF_NEVER WRBYTE $000, $007 ' table
0020 12345678 IF_C_OR_NZ MUL $02B, $078 WZ NR
method 1 0024 main
  4:   repeat i from 1 to 9
0024 36                 PUSH_1
0025 65                 POP_LOCALMEM_LONG main.i
  5:     tally(i)
0026 01                 FRAME_CALL_NORETURN
0027 64                 PUSH_LOCALMEM_LONG main.i
0028 05 02              CALL tally
  4:   repeat i from 1 to 9
002A 36                 PUSH_1
002B 38 09              PUSH_BYTE_LIT 9
002D 66 02 76           EFFECT_LOCALMEM_LONG main.i REPEAT_COMPARE 0026
  6:   size := strsize(string(\"done\"))
0030 87 80 2E           REFERENCE_OBJECTMEM_BYTE \"done\"
0033 16                 STRSIZE
0034 45                 POP_VARMEM_LONG size
  3: PUB main | i
0035 32                 RETURN
method 2 0036 tally(n)
  8:   count += n * table[1]
0036 64                 PUSH_LOCALMEM_LONG tally.n
0037 36                 PUSH_1
0038 D4 0C              PUSH_INDEXED_OBJECTMEM_LONG table
003A F4                 MULTIPLY
003B 42 4C              EFFECT_VARMEM_LONG count ADD
  7: PRI tally(n)
003D 32                 RETURN
";

/// Its image: the header, the object's table, the DAT, the two methods and the text.
static IMAGE: [u8; 68] = [
    0x00, 0x1B, 0xB7, 0x00, 0x00, 0x18, 0x10, 0x00, 0x44, 0x00, 0x54, 0x00, 0x24, 0x00, 0x5C, 0x00,
    0x34, 0x00, 0x03, 0x00, 0x14, 0x00, 0x04, 0x00, 0x27, 0x00, 0x00, 0x00, 0x07, 0x00, 0x00, 0x00,
    0x78, 0x56, 0x34, 0x12, 0x36, 0x65, 0x01, 0x64, 0x05, 0x02, 0x36, 0x38, 0x09, 0x66, 0x02, 0xFF,
    0xF5, 0x87, 0x80, 0x2F, 0x16, 0x45, 0x32, 0x64, 0x36, 0xD4, 0x0C, 0xF4, 0x42, 0x4C, 0x32, 0x64,
    0x6F, 0x6E, 0x65, 0x00,
];

/// The code of the image.
const CODE_OF_IMAGE: &str = "object 0010
001C 00000007 IF_NEVER WRBYTE $000, $007
0020 12345678 IF_C_OR_NZ MUL $02B, $078 WZ NR
method 1 0024
0024 36                 PUSH_1
0025 65                 POP_LOCALMEM_LONG 0004
0026 01                 FRAME_CALL_NORETURN
0027 64                 PUSH_LOCALMEM_LONG 0004
0028 05 02              CALL 2
002A 36                 PUSH_1
002B 38 09              PUSH_BYTE_LIT 9
002D 66 02 FF F5        EFFECT_LOCALMEM_LONG 0004 REPEAT_COMPARE 0026
0031 87 80 2F           REFERENCE_OBJECTMEM_BYTE 002F
0034 16                 STRSIZE
0035 45                 POP_VARMEM_LONG 0004
0036 32                 RETURN
method 2 0037
0037 64                 PUSH_LOCALMEM_LONG 0004
0038 36                 PUSH_1
0039 D4 0C              PUSH_INDEXED_OBJECTMEM_LONG 000C
003B F4                 MULTIPLY
003C 42 4C              EFFECT_VARMEM_LONG 0000 ADD
003E 32                 RETURN
003F string \"done\", 0
";

/// The code of the project of `ten.spin`, with short code or without.
fn code_on(alloc: Global, shelf: &mut MemShelf, short: bool) -> Option<Vec<u8>> {
    let Ok(gathered) = gather(alloc, shelf, "ten.spin") else {
        return None;
    };
    let sources = gathered.sources.as_slice();
    let code = if short {
        project_short_code(alloc, &gathered.project, sources)
    } else {
        project_code(alloc, &gathered.project, sources)
    };
    discard(gathered);
    match code {
        Ok(text) => Some(text),
        Err(_) => None,
    }
}

/// Whether the code of the project is told so.
fn is_told(alloc: Global, short: bool, expected: &str) -> Result<bool, NoMemory> {
    let mut shelf = shelf_of(alloc, &FILES, 0)?;
    let code = code_on(alloc, &mut shelf, short);
    drop(shelf);
    match code {
        Some(text) => Ok(text.as_slice() == expected.as_bytes()),
        None => Ok(false),
    }
}

/// Whether the code of its image is told so.
fn is_told_of_image(alloc: Global) -> Result<bool, NoMemory> {
    let Ok(image) = load(alloc, &IMAGE) else {
        return Ok(false);
    };
    let code = image_code(alloc, &image)?;
    Ok(code.as_slice() == CODE_OF_IMAGE.as_bytes())
}

#[test]
fn tells_the_code_of_a_project(rt: HostRuntime) {
    assert!(rt; matches!(is_told(rt.alloc(), false, CODE), Ok(true)));
}

#[test]
fn tells_the_short_code_of_a_project(rt: HostRuntime) {
    assert!(rt; matches!(is_told(rt.alloc(), true, SHORT_CODE), Ok(true)));
}

#[test]
fn tells_the_code_of_an_image(rt: HostRuntime) {
    assert!(rt; matches!(is_told_of_image(rt.alloc()), Ok(true)));
}
