// The lines of methods, with their frames.
ghost use Rattle.std.specs.Prelude.{◌≡◌, ◌++◌, unwrap_or, codes, OnOk};
ghost use Rattle.p8_map.specs.Map.{frame_line, frame_lines, local_lines, method_line, method_lines, parameter_lines};

use crate::appending::{address_after, push_number, push_place};
use crate::names::{LocalName, MethodNames};
use p8_image::MethodPart;
use p8_instr::push_text;
use p8_tree::Text;
use p8_words::NoMemory;

/// How many bytes a long has.
const LONG: u64 = 4;

/// Appends the line of a name of a frame.
fn push_frame_line(
    out: &mut Vec<u8>,
    offset: u16,
    kind: &[u8],
    name: &[u8],
    longs: u32,
) -> Result<(), NoMemory>
    ensures { OnOk result (out.new.items ≡ out.old.items ++ frame_line offset kind.now name.now longs) }
{
    push_text(out, b"+")?;
    push_place(out, offset)?;
    push_text(out, kind)?;
    push_text(out, name)?;
    push_text(out, b" ")?;
    push_number(out, u64::from(longs))?;
    push_text(out, b"\n")
}

/// Appends the lines of parameters that stand in a frame from an offset on.
fn push_parameters(out: &mut Vec<u8>, mut offset: u16, parameters: &[Text]) -> Result<(), NoMemory>
    ensures { OnOk result (out.new.items ≡ out.old.items ++ parameter_lines offset parameters.now) }
{
    for name in parameters {
        push_frame_line(out, offset, b" parameter ", name.as_slice(), 1)?;
        offset = address_after(offset, LONG);
    }
    Ok(())
}

/// Appends the lines of locals that stand in a frame from an offset on.
fn push_locals(out: &mut Vec<u8>, mut offset: u16, locals: &[LocalName]) -> Result<(), NoMemory>
    ensures { OnOk result (out.new.items ≡ out.old.items ++ local_lines offset locals.now) }
{
    for local in locals {
        push_frame_line(out, offset, b" local ", local.name.as_slice(), local.longs)?;
        offset = address_after(offset, LONG * u64::from(local.longs));
    }
    Ok(())
}

/// The name of a method's result.
fn result_name(names: &MethodNames) -> &[u8]
    ensures { result.now ≡ unwrap_or names.now.result (codes "RESULT") }
{
    match &names.result {
        Some(name) => name.as_slice(),
        None => b"RESULT",
    }
}

/// Appends the lines of a method's frame.
fn push_frame(out: &mut Vec<u8>, names: &MethodNames) -> Result<(), NoMemory>
    ensures { OnOk result (out.new.items ≡ out.old.items ++ frame_lines names.now) }
{
    let parameters = names.parameters.as_slice();
    let locals = address_after(4, LONG * (parameters.len() as u64 % 16_384));
    push_frame_line(out, 0, b" result ", result_name(names), 1)?;
    push_parameters(out, 4, parameters)?;
    push_locals(out, locals, names.locals.as_slice())
}

/// Appends the line of a method.
fn push_method(out: &mut Vec<u8>, place: u16, number: u64, name: &[u8]) -> Result<(), NoMemory>
    ensures { OnOk result (out.new.items ≡ out.old.items ++ method_line place number name.now) }
{
    push_place(out, place)?;
    push_text(out, b" method ")?;
    push_number(out, number)?;
    push_text(out, b" ")?;
    push_text(out, name)?;
    push_text(out, b"\n")
}

/// Appends the lines of methods whose codes stand one after the other, counted from 1.
pub fn push_methods(
    out: &mut Vec<u8>,
    mut place: u16,
    names: &[MethodNames],
    methods: &[MethodPart],
) -> Result<(), NoMemory>
    ensures { OnOk result (out.new.items ≡ out.old.items ++ method_lines place 1 names.now methods.now) }
{
    let mut rest = names;
    for (index, method) in methods.iter().enumerate() {
        let [own, others @ ..] = rest else {
            return Ok(());
        };
        push_method(out, place, index as u64 + 1, own.name.as_slice())?;
        push_frame(out, own)?;
        place = address_after(place, method.code.len() as u64);
        rest = others;
    }
    Ok(())
}
