// The lines of an object.
ghost use Rattle.std.specs.Prelude.{◌≡◌, ◌++◌, codes, slice_index, OnOk};
ghost use Rattle.std.specs.Fmt.{decimal};
ghost use Rattle.p8_instr.specs.Numerals.{hex};
ghost use Rattle.p8_image.specs.Layout.{codes_of, text_offsets};
ghost use Rattle.p8_image.specs.Listing.{method_line, method_lines, object_line, object_lines};
ghost use Rattle.p8_image.specs.Cutting.{cut_lines};

use crate::appending::{address_after, behind, push_place};
use crate::bytes::linked_codes;
use crate::code::push_code_lines;
use crate::dat::push_dat_lines;
use crate::parts::{MethodPart, ObjectPart};
use crate::sizes::Offsets;
use itoa::Buffer;
use p8_instr::push_text;
use p8_words::NoMemory;
use std::alloc::Global;

/// Appends the line of an object: the name of its file, and where it begins. The only error is want of memory.
pub fn push_object_line(out: &mut Vec<u8>, name: &[u8], base: u16) -> Result<(), NoMemory>
    ensures { OnOk result (out.new.items ≡ out.old.items ++ object_line name.now base) }
{
    push_text(out, b"object ")?;
    push_text(out, name)?;
    push_text(out, b" ")?;
    push_place(out, base)?;
    push_text(out, b"\n")
}

/// Appends the line of a method without its end: its number, and where its code begins. The only error is want of memory.
pub fn push_method_head(out: &mut Vec<u8>, number: u64, place: u16) -> Result<(), NoMemory>
    ensures { OnOk result (out.new.items ≡ out.old.items ++ (codes "method " ++ decimal number ++ codes " " ++ hex 4 place)) }
{
    push_text(out, b"method ")?;
    push_text(out, Buffer::new().format(number).as_bytes())?;
    push_text(out, b" ")?;
    push_place(out, place)
}

/// Appends the line of a method.
fn push_method_line(out: &mut Vec<u8>, number: u64, place: u16) -> Result<(), NoMemory>
    ensures { OnOk result (out.new.items ≡ out.old.items ++ method_line number place) }
{
    push_method_head(out, number, place)?;
    push_text(out, b"\n")
}

/// Appends the lines of methods, of which these are the codes, one after the other.
fn push_method_lines(
    out: &mut Vec<u8>,
    place: u16,
    codes: &[u8],
    methods: &[MethodPart],
) -> Result<(), NoMemory>
    ensures { OnOk result (out.new.items ≡ out.old.items ++ cut_lines 1 place codes.now methods.now) }
{
    let mut place = place;
    let mut rest = codes;
    for (index, method) in methods.iter().enumerate() {
        let size = method.code.len();
        let own = size.min(rest.len());
        push_method_line(out, index as u64 + 1, place)?;
        push_code_lines(out, place, &rest[..own])?;
        place = address_after(place, size);
        rest = behind(rest, own);
    }
    Ok(())
}

/// Appends the lines of an object that begins at an address.
pub fn push_object_lines(
    alloc: Global,
    out: &mut Vec<u8>,
    name: &[u8],
    base: u16,
    object: &ObjectPart,
) -> Result<(), NoMemory>
    ensures { OnOk result (out.new.items ≡ out.old.items ++ object_lines name.now base object.now) }
{
    let offsets = Offsets::of(object);
    let codes = linked_codes(alloc, object)?;
    push_object_line(out, name, base)?;
    push_dat_lines(
        alloc,
        out,
        address_after(base, usize::from(offsets.dat)),
        object.dat.as_slice(),
    )?;
    push_method_lines(
        out,
        address_after(base, usize::from(offsets.codes)),
        &codes,
        object.methods.as_slice(),
    )?;
    Ok(())
}
