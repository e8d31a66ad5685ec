// The image of a project.
ghost use Rattle.std.specs.Prelude.{◌≡◌, ◌<◌, ◌≤◌, ◌+◌, ◌^◌, ◌++◌, min, length, map, IfOk, OnOk, IfErr, IfSome, IfNone};
ghost use Rattle.p8_image.specs.Keeping.{kept};
ghost use Rattle.p8_image.specs.Loading.{IsImage, image_in};
ghost use Rattle.p8_image.specs.Layout.{word, variables_of, first_frame, header_by, frame_size, header_bytes, bytes_with, image_of};
ghost use Rattle.p8_image.specs.Projects.{BeginsWithMain, FitsHub, IsTooLarge};

use crate::bytes::{number_at, push_objects, push_word};
use crate::clocks::Clock;
use crate::faults::TooLarge;
use crate::header::Header;
use crate::image::{Image, finished};
use crate::parts::{MethodPart, ObjectPart};
use crate::plan::{FIRST_BASE, bases, variables, variables_base};
use crate::sizes::{LIMIT, add, codes_offset};
use p8_words::{Fail, NoMemory};
use std::alloc::Global;

/// The bytes of the first frame after its result.
fn frame_size(methods: &[MethodPart]) -> u32
    ensures { result ≡ frame_size methods.now }
{
    match methods {
        [main, ..] => u32::from(main.parameters) + u32::from(main.locals),
        [] => 0,
    }
}

/// The header of a project's image, where the hub has room for its first frame. `sizes` tells the bytes of variables of each object.
fn header(objects: &[ObjectPart], sizes: &[u32]) -> Option<Header>
    requires main { BeginsWithMain objects.now }
    requires sizes { sizes.now ≡ map kept (variables_of objects.now) }
    ensures header { IfSome result (λ header. header ≡ header_by objects.now) }
    ensures fits { IfSome result (λ header. FitsHub (header_by objects.now)) }
    ensures too_large { IfNone result (32768 < (header_by objects.now).dcurr) }
{
    let [top, ..] = objects else {
        return None;
    };
    let vbase = u64::from(variables_base(objects));
    let dbase = vbase + u64::from(number_at(sizes, 0)) + 8;
    let dcurr = dbase + 4 + u64::from(frame_size(top.methods.as_slice()));
    if dcurr > 32_768 {
        return None;
    }
    let pcurr = u64::from(FIRST_BASE) + u64::from(codes_offset(top));
    Some(Header {
        pbase: FIRST_BASE as u16,
        vbase: vbase as u16,
        dbase: dbase as u16,
        pcurr: pcurr as u16,
        dcurr: dcurr as u16,
    })
}

/// Appends a place in the hub.
fn push_place(out: &mut Vec<u8>, place: u16) -> Result<(), NoMemory>
    ensures { OnOk result (out.new.items ≡ out.old.items ++ word place) }
{
    push_word(out, u32::from(place))?;
    Ok(())
}

/// Appends the header of an image, with the checksum 0.
fn push_header(out: &mut Vec<u8>, clock: Clock, header: Header) -> Result<(), NoMemory>
    ensures { OnOk result (out.new.items ≡ out.old.items ++ header_bytes clock 0 header) }
{
    push_word(out, clock.frequency)?;
    push_word(out, clock.frequency / 65_536)?;
    out.extend_from_slice(&[clock.mode, 0])?;
    push_place(out, header.pbase)?;
    push_place(out, header.vbase)?;
    push_place(out, header.dbase)?;
    push_place(out, header.pcurr)?;
    push_place(out, header.dcurr)?;
    Ok(())
}

/// The image of a project, whose objects stand in the order of its files, the top file's first.
///
/// Each object stands in the hub once: its table, its DAT bytes, the codes of its methods and its texts. The checksum makes all bytes
/// add to $14. The run starts the first method of the top object, which has to have code, and parameters and locals in whole longs.
///
/// # Errors
///
/// `Refused` exactly where the first frame would end after the hub's 32,768 bytes; `NoMemory` where there is no memory for the image.
pub fn layout(alloc: Global, clock: Clock, objects: &[ObjectPart]) -> Result<Image, Fail<TooLarge>>
    requires { BeginsWithMain objects.now }
    ensures image { IfOk result (λ image. image ≡ image_in (image_of clock objects.now)) }
    ensures fits { OnOk result (FitsHub (header_by objects.now)) }
    ensures refused { IfErr result (IsTooLarge (header_by objects.now)) }
{
    let sizes = variables(alloc, objects)?;
    let Some(header) = header(objects, &sizes) else {
        return Err(Fail::Refused(TooLarge));
    };
    let bytes = unfinished(alloc, clock, header, &sizes, objects)?;
    Ok(Image::from_vec(finished(bytes)))
}

/// The bytes of the first frame of a project after its result.
fn first_frame_size(objects: &[ObjectPart]) -> u32
    ensures { (header_by objects.now).dcurr ≡ first_frame objects.now + 4 + result }
{
    match objects {
        [top, ..] => frame_size(top.methods.as_slice()),
        [] => 0,
    }
}

/// Where the first frame of a project's image would end, whether or not the hub has room for it: what [`layout`] compares with the
/// hub's 32,768 bytes. 2,147,483,648 stands for as many bytes or more. The only error is want of memory.
pub fn frame_end(alloc: Global, objects: &[ObjectPart]) -> Result<u32, NoMemory>
    ensures { IfOk result (λ end. end ≡ min (header_by objects.now).dcurr (2 ^ 31)) }
{
    let sizes = variables(alloc, objects)?;
    let frame = add(variables_base(objects), u64::from(number_at(&sizes, 0)));
    let end = add(frame, 12 + u64::from(first_frame_size(objects)));
    Ok(end.min(LIMIT))
}

/// An image with the checksum 0.
fn unfinished(
    alloc: Global,
    clock: Clock,
    header: Header,
    sizes: &[u32],
    objects: &[ObjectPart],
) -> Result<Vec<u8>, NoMemory>
    requires header { header ≡ header_by objects.now }
    requires sizes { sizes.now ≡ map kept (variables_of objects.now) }
    ensures { IfOk result (λ bytes. bytes.items ≡ bytes_with clock objects.now 0) }
{
    let bases = bases(alloc, objects)?;
    let mut bytes = Vec::new(alloc);
    push_header(&mut bytes, clock, header)?;
    push_objects(alloc, &mut bytes, &bases, sizes, FIRST_BASE, objects)?;
    Ok(bytes)
}
