// The code of an image.
ghost use Rattle.std.specs.Prelude.{◌≡◌, ◌<◌, ◌≤◌, ◌-◌, ◌==◌, ◌&&◌, ◌++◌, max, nat_lt, true, length, slice_index, IfNone, IfSome, OnOk, IfOk};
ghost use Rattle.p8_bytecode.specs.Reading.{op_at};
ghost use Rattle.p8_bytecode.specs.Table.{operands_of as operands_by};
ghost use Rattle.p8_image.specs.Listing.{pieces_of};
ghost use Rattle.p8_image.specs.Headers.{word_at as word_in};
ghost use Rattle.p8_code.specs.Images.{cut_method, entry as entry_of, image_code as code_of_image, image_method, image_methods, image_object};
ghost use Rattle.p8_code.specs.Images.{image_objects, is_no_object, longs_between};
ghost use Rattle.p8_code.specs.Images.{inner_count as inner_count_of, inner_line, inner_lines, method_bytes as method_bytes_of};
ghost use Rattle.p8_code.specs.Images.{method_count as method_count_of};
ghost use Rattle.p8_code.specs.Images.{code_size as size_of_code, jump_by as jump_of, reach as reach_of, rest_line, table_size as table_size_of};

use crate::codes::push_op_lines;
use crate::dat::push_longs;
use crate::slices::{behind, front};
use p8_bytecode::{Op, Operands, operands_of, take_op};
use p8_image::{Image, line_size, longs_of, push_method_head};
use p8_instr::push_text;
use p8_map::{address_after, push_number, push_place, push_text_line};
use p8_words::NoMemory;
use std::alloc::Global;

/// How many bytes the header of an image has.
const HEADER_BYTES: usize = 16;

/// Where the first object of an image stands.
const FIRST_BASE: u16 = 16;

/// The bytecode RETURN.
const RETURN: u8 = 0x32;

/// The least number that is below 0 in two's complement.
const NEGATIVE: u32 = 0x8000_0000;

/// How many bytes an object has at least: those before its entries.
const LEAST_SIZE: usize = 4;

/// The byte at a place; 0 behind the last one.
fn byte_at(bytes: &[u8], place: usize) -> u8
    ensures { result ≡ slice_index bytes.now place }
{
    bytes.get(place).copied().unwrap_or(0)
}

/// The word at a place, its low byte first.
fn word_at(bytes: &[u8], place: u32) -> u16
    ensures { result ≡ word_in bytes.now place }
{
    let place = place as usize;
    u16::from(byte_at(bytes, place)) + 256 * u16::from(byte_at(bytes, place + 1))
}

/// How many methods an object has.
fn method_count(object: &[u8]) -> u8
    ensures { result ≡ method_count_of object.now }
{
    byte_at(object, 2).saturating_sub(1)
}

/// How many objects are inside it.
fn inner_count(object: &[u8]) -> u8
    ensures { result ≡ inner_count_of object.now }
{
    byte_at(object, 3)
}

/// How many bytes its table has.
fn table_size(object: &[u8]) -> usize
    ensures { result ≡ table_size_of object.now }
{
    4 + 4 * (usize::from(method_count(object)) + usize::from(inner_count(object)))
}

/// Where in an object the code of a method begins; behind the last method the object ends.
fn entry(object: &[u8], number: u16) -> usize
    ensures { result ≡ entry_of object.now number }
{
    if number > u16::from(method_count(object)) {
        object.len()
    } else {
        usize::from(word_at(object, 4 * u32::from(number)))
    }
}

/// The bytes of a method, up to the next one.
fn method_bytes(object: &[u8], number: u16) -> &[u8]
    requires { number < 65535 }
    ensures { result.now ≡ method_bytes_of object.now number }
{
    let begin = entry(object, number);
    let end = entry(object, number + 1);
    front(behind(object, begin), end.saturating_sub(begin))
}

/// The offset of the jump that a bytecode has, 0 where it has none.
fn jump_by(op: &Op) -> u32
    ensures { result ≡ jump_of op.now (operands_by op.now.code) }
{
    match operands_of(op.code) {
        Some(Operands::Offset) => op.first,
        _ => match op.effect {
            0x02 | 0x06 => op.second,
            _ => 0,
        },
    }
}

/// How far a bytecode leads forward from where it ends; 0 where it leads back, or nowhere.
fn reach(piece: &[u8]) -> u32
    ensures { result ≡ reach_of (op_at piece.now 0) }
{
    let Some((op, _)) = take_op(piece, 0) else {
        return 0;
    };
    let offset = jump_by(&op);
    if offset < NEGATIVE { offset } else { 0 }
}

/// Whether a code ends with the bytecode of so many bytes at its begin, where those before lead so far ahead.
fn is_last(code: &[u8], size: usize, ahead: u64) -> bool
    ensures { result ≡ ((slice_index code.now 0 == 0x32) && nat_lt ahead size) }
{
    byte_at(code, 0) == RETURN && ahead < size as u64
}

/// How far ahead bytecodes lead behind one of so many bytes, which leads so far itself.
fn farther(ahead: u64, size: usize, own: u32) -> u64
    ensures { result ≡ max (ahead - size) own }
{
    ahead.saturating_sub(size as u64).max(u64::from(own))
}

/// How many bytes of a method are its code: those up to the first RETURN behind which no bytecode before it leads.
fn code_size(bytes: &[u8]) -> usize
    ensures { result ≡ size_of_code 0 (pieces_of bytes.now) }
{
    let mut ahead: u64 = 0;
    let mut before: usize = 0;
    let mut rest = bytes;
    while !rest.is_empty() {
        let size = line_size(rest);
        before += size;
        if is_last(rest, size, ahead) {
            return before;
        }
        ahead = farther(ahead, size, reach(&rest[..size]));
        rest = behind(rest, size);
    }
    before
}

/// Appends the line of an object inside, by its place in the table.
fn push_inner_line(out: &mut Vec<u8>, base: u16, object: &[u8], number: u16) -> Result<(), NoMemory>
    ensures { OnOk result (out.new.items ≡ out.old.items ++ inner_line base object.now number) }
{
    let place = 4 * u32::from(number);
    push_place(out, address_after(base, u64::from(place)))?;
    push_text(out, b" child ")?;
    push_number(out, u64::from(number))?;
    push_text(out, b" ")?;
    push_place(out, address_after(base, u64::from(word_at(object, place))))?;
    push_text(out, b" +")?;
    push_place(out, word_at(object, place + 2))?;
    push_text(out, b"\n")
}

/// Appends the lines of so many objects inside, from a place of the table on.
fn push_inner_lines(
    out: &mut Vec<u8>,
    base: u16,
    object: &[u8],
    first: u16,
    count: u8,
) -> Result<(), NoMemory>
    requires { first ≤ 256 }
    ensures { OnOk result (out.new.items ≡ out.old.items ++ inner_lines base object.now first count) }
{
    let mut number = first;
    let mut left = count;
    while left > 0 {
        push_inner_line(out, base, object, number)?;
        number += 1;
        left -= 1;
    }
    Ok(())
}

/// Appends what stands behind a code.
fn push_rest(out: &mut Vec<u8>, place: u16, bytes: &[u8]) -> Result<(), NoMemory>
    ensures { OnOk result (out.new.items ≡ out.old.items ++ rest_line place bytes.now) }
{
    match bytes {
        [] => Ok(()),
        _ => push_text_line(out, place, bytes),
    }
}

/// Appends the bytecodes of a method by the bytes up to the next one, the first so many of which are code.
fn push_cut_method(out: &mut Vec<u8>, place: u16, bytes: &[u8], size: usize) -> Result<(), NoMemory>
    ensures { OnOk result (out.new.items ≡ out.old.items ++ cut_method place bytes.now size) }
{
    push_op_lines(out, None, place, &[], front(bytes, size))?;
    push_rest(out, address_after(place, size as u64), behind(bytes, size))
}

/// Appends the lines of a method.
fn push_method(out: &mut Vec<u8>, base: u16, object: &[u8], number: u16) -> Result<(), NoMemory>
    requires { number < 65535 }
    ensures { OnOk result (out.new.items ≡ out.old.items ++ image_method base object.now number) }
{
    let place = address_after(base, entry(object, number) as u64);
    let bytes = method_bytes(object, number);
    push_method_head(out, u64::from(number), place)?;
    push_text(out, b"\n")?;
    push_cut_method(out, place, bytes, code_size(bytes))
}

/// Appends the lines of so many methods, the first ones.
fn push_methods(out: &mut Vec<u8>, base: u16, object: &[u8], count: u8) -> Result<(), NoMemory>
    ensures { OnOk result (out.new.items ≡ out.old.items ++ image_methods base object.now 1 count) }
{
    let mut number: u16 = 1;
    let mut left = count;
    while left > 0 {
        push_method(out, base, object, number)?;
        number += 1;
        left -= 1;
    }
    Ok(())
}

/// Appends the lines of longs between the table of an object and its first method.
fn push_dat(alloc: Global, out: &mut Vec<u8>, base: u16, object: &[u8]) -> Result<(), NoMemory>
    ensures { OnOk result (out.new.items ≡ out.old.items ++ longs_between base object.now) }
{
    let begin = table_size(object);
    let end = entry(object, 1);
    let longs = longs_of(
        alloc,
        front(behind(object, begin), end.saturating_sub(begin)),
    )?;
    push_longs(
        alloc,
        out,
        0,
        &[],
        address_after(base, begin as u64),
        &longs,
    )
}

/// Appends the lines of an object that begins at an address.
fn push_object(alloc: Global, out: &mut Vec<u8>, base: u16, object: &[u8]) -> Result<(), NoMemory>
    ensures { OnOk result (out.new.items ≡ out.old.items ++ image_object base object.now) }
{
    let methods = method_count(object);
    push_text(out, b"object ")?;
    push_place(out, base)?;
    push_text(out, b"\n")?;
    push_inner_lines(
        out,
        base,
        object,
        u16::from(methods) + 1,
        inner_count(object),
    )?;
    push_dat(alloc, out, base, object)?;
    push_methods(out, base, object, methods)
}

/// How many bytes the object has that begins with some bytes; none where no object begins.
fn object_size(bytes: &[u8]) -> Option<usize>
    ensures none { IfNone result (is_no_object bytes.now (word_in bytes.now 0) ≡ true) }
    ensures size { IfSome result (λ size. size ≡ word_in bytes.now 0) }
    ensures least { IfSome result (λ size. 4 ≤ size) }
    ensures within { IfSome result (λ size. size ≤ length bytes.now) }
{
    let size = usize::from(word_at(bytes, 0));
    if size < LEAST_SIZE || bytes.len() < size {
        None
    } else {
        Some(size)
    }
}

/// Appends the lines of objects from an address on; where none begins, longs.
fn push_objects(
    alloc: Global,
    out: &mut Vec<u8>,
    mut base: u16,
    bytes: &[u8],
) -> Result<(), NoMemory>
    ensures { OnOk result (out.new.items ≡ out.old.items ++ image_objects (length bytes.now) base bytes.now) }
{
    let mut rest = bytes;
    'objects: while let Some(size) = object_size(rest) {
        push_object(alloc, out, base, front(rest, size))?;
        base = address_after(base, size as u64);
        rest = behind(rest, size);
    }
    let longs = longs_of(alloc, rest)?;
    push_longs(alloc, out, 0, &[], base, &longs)
}

/// The code of an image for reading: what the tables of its objects say, and its bytecodes, as [`project_code`](crate::project_code) tells them, but
/// by their numbers and offsets alone.
///
/// A method's code ends with the first RETURN behind which no bytecode before it leads; what stands behind it is told as the items of a `STRING`.
/// Objects stand one behind the other from the header on, each as long as its table says; where none begins, the rest is longs. The only error is
/// want of memory.
pub fn image_code(alloc: Global, image: &Image) -> Result<Vec<u8>, NoMemory>
    ensures { IfOk result (λ text. text.items ≡ code_of_image image.now.file) }
{
    let mut out = Vec::new(alloc);
    let objects = behind(image.bytes(), HEADER_BYTES);
    push_objects(alloc, &mut out, FIRST_BASE, objects)?;
    Ok(out)
}
