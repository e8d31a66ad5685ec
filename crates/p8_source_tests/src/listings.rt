// Listings of small projects, line by line.
use p8_image::{MethodPart, ObjectPart, listing};
use p8_tree::{List, Text};
use p8_words::NoMemory;
use std::alloc::Global;

/// A method without a frame and without texts.
fn method(alloc: Global, code: &[u8]) -> Result<MethodPart, NoMemory> {
    Ok(MethodPart {
        parameters: 0,
        locals: 0,
        code: Text::copy_of(alloc, code)?,
        uses: List::new(alloc),
    })
}

/// An object with these DAT bytes, these codes of methods and so many objects inside it.
fn object(
    alloc: Global,
    dat: &[u8],
    codes: &[&[u8]],
    instances: u8,
) -> Result<ObjectPart, NoMemory> {
    let mut methods = List::new(alloc);
    for code in codes {
        methods.push(method(alloc, code)?)?;
    }
    let mut inside = List::new(alloc);
    for number in 0..instances {
        inside.push(number + 1)?;
    }
    Ok(ObjectPart {
        variables: List::new(alloc),
        dat: Text::copy_of(alloc, dat)?,
        methods,
        texts: List::new(alloc),
        instances: inside,
    })
}

/// Whether the listing of objects of these names is this text.
fn is_listed(alloc: Global, names: &[Text], objects: &[ObjectPart], text: &str) -> bool {
    match listing(alloc, names, objects) {
        Ok(listed) => listed.as_slice() == text.as_bytes(),
        Err(_) => false,
    }
}

const ROW: &str = "object main.spin 0010
0018 A0FC0004 MOV $000, #$004 WR
method 1 001C
001C 32
";

const PADDED: &str = "object main.spin 0010
0018 00000420 IF_NEVER WRBYTE $002, $020
001C 00000084 IF_NEVER WRBYTE $000, $084
0020 00000000 NOP
0024 01010101 IF_NEVER WRBYTE $080, $101 WC
method 1 0028
0028 40
0029 36
002A 96 16 4C
002D 32
";

const BLINK: &str = "object main.spin 0010
method 1 001C
001C 01
001D 38 04
001F 06 02 01
0022 32
object blink.spin 0024
method 1 0030
0030 34
0031 64
0032 43
0033 15 02 01
0036 36
0037 EC
0038 61
0039 32
method 2 003A
003A 64
003B 3D D6 1C
003E 64
003F 3D D4 47
0042 35
0043 C0
0044 39 03 E8
0047 F6
0048 3F 91
004A EC
004B 23
004C 04 FF EF
004F 32
";

/// The DAT and the code of one object, and its listing.
static SINGLE: [(&[u8], &[u8], &str); 2] = [
    (b"\x04\0\xFC\xA0", b"\x32", ROW),
    (
        b"\x20\x04\0\0\x84\0\0\0\0\0\0\0\x01\x01\x01\x01",
        b"\x40\x36\x96\x16\x4C\x32",
        PADDED,
    ),
];

/// Whether the listing of one object is this text.
fn lists_one(alloc: Global, dat: &[u8], code: &[u8], text: &str) -> Result<bool, NoMemory> {
    let names = [Text::copy_of(alloc, b"main.spin")?];
    let objects = [object(alloc, dat, &[code], 0)?];
    Ok(is_listed(alloc, &names, &objects, text))
}

#[test]
fn lists_a_dat_and_a_method(rt: HostRuntime) {
    for (dat, code, text) in &SINGLE {
        assert!(rt;
            matches!(lists_one(rt.alloc(), dat, code, text), Ok(true)),
            "{text}"
        );
    }
}

/// The code of the method of the first object.
static MAIN: [&[u8]; 1] = [b"\x01\x38\x04\x06\x02\x01\x32"];

/// The codes of the methods of the object inside it.
static BLINKING: [&[u8]; 2] = [
    b"\x34\x64\x43\x15\x02\x01\x36\xEC\x61\x32",
    b"\x64\x3D\xD6\x1C\x64\x3D\xD4\x47\x35\xC0\x39\x03\xE8\xF6\x3F\x91\xEC\x23\x04\xFF\xEF\x32",
];

/// Whether the listing of two objects has one behind the other.
fn lists_two(alloc: Global) -> Result<bool, NoMemory> {
    let names = [
        Text::copy_of(alloc, b"main.spin")?,
        Text::copy_of(alloc, b"blink.spin")?,
    ];
    let objects = [
        object(alloc, b"", &MAIN, 1)?,
        object(alloc, b"", &BLINKING, 0)?,
    ];
    Ok(is_listed(alloc, &names, &objects, BLINK))
}

#[test]
fn lists_objects_one_behind_the_other(rt: HostRuntime) {
    assert!(rt; matches!(lists_two(rt.alloc()), Ok(true)));
}
