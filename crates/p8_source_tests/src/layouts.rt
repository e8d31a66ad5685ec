// The image of a small project of two files, byte for byte.
ghost use Rattle.std.specs.Prelude.{◌≡◌, ◌<◌, ◌%◌, length, IfOk};
ghost use Rattle.p8_image.specs.Projects.{IsMain, HasMain};

use p8_image::{Clock, MethodPart, ObjectPart, Variable, layout, load};
use p8_tree::{List, Text};
use p8_words::NoMemory;
use std::alloc::Global;

/// A method without texts.
fn method(alloc: Global, parameters: u16, code: &[u8]) -> Result<MethodPart, NoMemory>
    requires code { 0 < length code.now }
    requires parameters { parameters % 4 ≡ 0 }
    ensures { IfOk result IsMain }
{
    Ok(MethodPart {
        parameters,
        locals: 0,
        code: Text::copy_of(alloc, code)?,
        uses: List::new(alloc),
    })
}

/// The top object starts a method of the object inside it.
fn top(alloc: Global) -> Result<ObjectPart, NoMemory>
    ensures { IfOk result (λ object. HasMain object.methods) }
{
    let mut methods = List::new(alloc);
    methods.push(method(alloc, 0, &[0x01, 0x38, 0x04, 0x06, 0x02, 0x01, 0x32])?)?;
    let mut instances = List::new(alloc);
    instances.push(1)?;
    Ok(ObjectPart {
        variables: List::new(alloc),
        dat: Text::copy_of(alloc, &[])?,
        methods,
        texts: List::new(alloc),
        instances,
    })
}

/// The object inside starts a cog that makes a pin blink.
fn blink(alloc: Global) -> Result<ObjectPart, NoMemory> {
    let start = [0x34, 0x64, 0x43, 0x15, 0x02, 0x01, 0x36, 0xEC, 0x61, 0x32];
    let run = [
        0x64, 0x3D, 0xD6, 0x1C, 0x64, 0x3D, 0xD4, 0x47, 0x35, 0xC0, 0x39, 0x03, 0xE8, 0xF6, 0x3F,
        0x91, 0xEC, 0x23, 0x04, 0xFF, 0xEF, 0x32,
    ];
    let mut variables = List::new(alloc);
    variables.push(Variable { size: 4, count: 8 })?;
    let mut methods = List::new(alloc);
    methods.push(method(alloc, 4, &start)?)?;
    methods.push(method(alloc, 4, &run)?)?;
    Ok(ObjectPart {
        variables,
        dat: Text::copy_of(alloc, &[])?,
        methods,
        texts: List::new(alloc),
        instances: List::new(alloc),
    })
}

static IMAGE: [u8; 80] = [
    0x00, 0xB4, 0xC4, 0x04, 0x6F, 0xB0, 0x10, 0x00, 0x50, 0x00, 0x78, 0x00, 0x1C, 0x00, 0x7C, 0x00,
    0x14, 0x00, 0x02, 0x01, 0x0C, 0x00, 0x00, 0x00, 0x14, 0x00, 0x00, 0x00, 0x01, 0x38, 0x04, 0x06,
    0x02, 0x01, 0x32, 0x00, 0x2C, 0x00, 0x03, 0x00, 0x0C, 0x00, 0x00, 0x00, 0x16, 0x00, 0x00, 0x00,
    0x34, 0x64, 0x43, 0x15, 0x02, 0x01, 0x36, 0xEC, 0x61, 0x32, 0x64, 0x3D, 0xD6, 0x1C, 0x64, 0x3D,
    0xD4, 0x47, 0x35, 0xC0, 0x39, 0x03, 0xE8, 0xF6, 0x3F, 0x91, 0xEC, 0x23, 0x04, 0xFF, 0xEF, 0x32,
];

/// Whether the image of both files is this one, which can be loaded.
fn is_laid_out(alloc: Global) -> Option<bool> {
    let objects = [top(alloc).ok()?, blink(alloc).ok()?];
    let clock = Clock::told(Some(0x408), None, Some(5_000_000))?;
    match layout(alloc, clock, &objects) {
        Ok(image) => {
            let is_loaded = load(alloc, image.bytes()).is_ok();
            Some(is_loaded && image.bytes() == IMAGE.as_slice())
        }
        Err(_) => None,
    }
}

#[test]
fn lays_out_two_files(rt: HostRuntime) {
    assert!(rt; is_laid_out(rt.alloc()) == Some(true));
}
