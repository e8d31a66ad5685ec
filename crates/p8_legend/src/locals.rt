// What bytecodes read and write in the frames of their methods.
ghost use Rattle.std.specs.Prelude.{◌≡◌, ◌*◌, ◌++◌, [], slice_get, codes, unwrap_or, MatchOption, IfOk, OnOk};
ghost use Rattle.p8_bytecode.specs.Reading.{op_at};
ghost use Rattle.p8_legend.specs.Ranges.{with_range};
ghost use Rattle.p8_legend.specs.ProjectLegends.{and_one};
ghost use Rattle.p8_legend.specs.Frames.{frame_offset, frame_text, is_local, local_text, method_of as method_among, offset_in};
ghost use Rattle.p8_legend.specs.Frames.{own_text, parameter_text, row_local, with_locals};

use crate::legend::push_offset;
use crate::ranges::{Range, Ranges};
use crate::table::LineRow;
use p8_bytecode::{Op, take_op};
use p8_instr::push_text;
use p8_map::{FileNames, LocalName, MethodNames};
use p8_tree::Text;
use p8_words::NoMemory;
use std::alloc::Global;

/// Whether a bytecode with an offset of its own names a variable of the frame, without an index.
fn is_local(code: u8) -> bool
    ensures { result ≡ is_local code }
{
    (0x80..0xE0).contains(&code) && code / 4 % 4 == 3 && code / 16 % 2 == 0
}

/// How far behind the begin of the frame the variable stands that a bytecode names by itself, without an index.
fn frame_offset(op: &Op) -> Option<u32>
    ensures { result ≡ frame_offset op.now }
{
    if (0x60..0x80).contains(&op.code) {
        Some(u32::from(op.code / 4 % 8 * 4))
    } else if is_local(op.code) {
        Some(op.first)
    } else {
        None
    }
}

/// The same of the bytecode that stands at an address of an image; none where no bytecode stands there whole.
fn offset_at(image: &[u8], address: u16) -> Option<u32>
    ensures { result ≡ offset_in (op_at image.now address) }
{
    match take_op(image, usize::from(address)) {
        Some((op, _)) => frame_offset(&op),
        None => None,
    }
}

/// Appends a name of a method, with how many bytes of what it names come before.
fn push_own(out: &mut Vec<u8>, method: &[u8], name: &[u8], offset: u64) -> Result<(), NoMemory>
    ensures { OnOk result (out.new.items ≡ out.old.items ++ own_text method.now name.now offset) }
{
    push_text(out, method)?;
    push_text(out, b".")?;
    push_text(out, name)?;
    push_offset(out, offset)
}

/// How many bytes so many longs have.
fn bytes_in(longs: u32) -> u64
    ensures { result ≡ 4 * longs }
{
    4 * u64::from(longs)
}

/// Appends what stands so many bytes behind the begin of some locals; nothing behind their end.
fn push_local(
    out: &mut Vec<u8>,
    method: &[u8],
    mut offset: u64,
    mut locals: &[LocalName],
) -> Result<(), NoMemory>
    ensures { OnOk result (out.new.items ≡ out.old.items ++ local_text method.now offset locals.now) }
{
    while let [local, rest @ ..] = locals {
        let size = bytes_in(local.longs);
        if offset < size {
            return push_own(out, method, local.name.as_slice(), offset);
        }
        offset -= size;
        locals = rest;
    }
    Ok(())
}

/// Appends what stands so many bytes behind the begin of some parameters, which the locals follow.
fn push_parameter(
    out: &mut Vec<u8>,
    method: &[u8],
    mut offset: u64,
    mut names: &[Text],
    locals: &[LocalName],
) -> Result<(), NoMemory>
    ensures { OnOk result (out.new.items ≡ out.old.items ++ parameter_text method.now offset names.now locals.now) }
{
    while let [name, rest @ ..] = names {
        if offset < 4 {
            return push_own(out, method, name.as_slice(), offset);
        }
        offset -= 4;
        names = rest;
    }
    push_local(out, method, offset, locals)
}

/// The name of a method's result: `result` where the source gives it none.
fn result_name(names: &MethodNames) -> &[u8]
    ensures { result.now ≡ unwrap_or names.now.result (codes "result") }
{
    match &names.result {
        Some(name) => name.as_slice(),
        None => b"result",
    }
}

/// Appends what stands so many bytes behind the begin of a method's frame, `METHOD.NAME`; nothing where no name does. The only error is want of memory.
pub fn push_frame(out: &mut Vec<u8>, names: &MethodNames, offset: u64) -> Result<(), NoMemory>
    ensures { OnOk result (out.new.items ≡ out.old.items ++ frame_text names.now offset) }
{
    let method = names.name.as_slice();
    if offset < 4 {
        return push_own(out, method, result_name(names), offset);
    }
    let parameters = names.parameters.as_slice();
    push_parameter(out, method, offset - 4, parameters, names.locals.as_slice())
}

/// The names of the method of this number, counted from 1, of a file.
fn method_of<'a>(files: &'a [FileNames], row: &LineRow) -> Option<&'a MethodNames>
    ensures { MatchOption result (method_among (slice_get files.now row.now.file) row.now.method ≡ None)
        (λ m. method_among (slice_get files.now row.now.file) row.now.method ≡ Some m.now) }
{
    match files.get(usize::from(row.file)) {
        Some(names) => names
            .methods
            .as_slice()
            .get(usize::from(row.method.saturating_sub(1))),
        None => None,
    }
}

/// What the bytecode of a row names in the frame of its method.
fn local_name(
    alloc: Global,
    image: &[u8],
    files: &[FileNames],
    row: &LineRow,
) -> Result<Text, NoMemory>
    ensures { IfOk result (λ text. text ≡ row_local image.now (slice_get files.now row.now.file) row.now) }
{
    let mut text = Vec::new(alloc);
    if let Some(names) = method_of(files, row) {
        if let Some(offset) = offset_at(image, row.address) {
            push_frame(&mut text, names, u64::from(offset))?;
        }
    }
    Ok(Text::from_vec(text))
}

/// What the bytecodes of the rows of a line table name in the frames of their methods.
pub(crate) fn locals_of(
    alloc: Global,
    image: &[u8],
    files: &[FileNames],
    mut rows: &[LineRow],
) -> Result<Ranges, NoMemory>
    ensures { IfOk result (λ locals. (locals.ranges, locals.texts) ≡ with_locals ([], []) image.now files.now rows.now) }
{
    let mut locals = Ranges::new(alloc);
    while let [row, rest @ ..] = rows {
        let range = Range {
            address: row.address,
            end: row.end,
        };
        let text = local_name(alloc, image, files, row)?;
        locals.push(range, text)?;
        rows = rest;
    }
    Ok(locals)
}
