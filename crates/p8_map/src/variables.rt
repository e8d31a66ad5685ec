// The lines of the variables of an instance.
ghost use Rattle.std.specs.Prelude.{◌≡◌, ◌++◌, OnOk};
ghost use Rattle.p8_map.specs.Map.{after_size as after_variables, elements, sized_bytes as bytes_among, sized_line, sized_lines, variable_line, variable_lines};

use crate::appending::{address_after, push_number, push_place, size_word};
use crate::plan::variable_bytes;
use p8_image::Variable;
use p8_instr::push_text;
use p8_tree::Text;
use p8_words::NoMemory;

/// Appends what a variable has on its line after its name.
fn push_elements(out: &mut Vec<u8>, variable: Variable) -> Result<(), NoMemory>
    ensures { OnOk result (out.new.items ≡ out.old.items ++ elements variable) }
{
    push_text(out, b" ")?;
    push_text(out, size_word(variable.size))?;
    push_text(out, b" ")?;
    push_number(out, u64::from(variable.count))?;
    push_text(out, b"\n")
}

/// Appends the line of a variable.
fn push_variable(
    out: &mut Vec<u8>,
    place: u16,
    prefix: &[u8],
    name: &[u8],
    variable: Variable,
) -> Result<(), NoMemory>
    ensures { OnOk result (out.new.items ≡ out.old.items ++ variable_line place prefix.now name.now variable) }
{
    push_place(out, place)?;
    push_text(out, b" variable ")?;
    push_text(out, prefix)?;
    push_text(out, name)?;
    push_elements(out, variable)
}

/// Appends the line of a variable among those of one size.
fn push_sized(
    out: &mut Vec<u8>,
    size: u8,
    place: u16,
    prefix: &[u8],
    name: &[u8],
    variable: Variable,
) -> Result<(), NoMemory>
    ensures { OnOk result (out.new.items ≡ out.old.items ++ sized_line size place prefix.now name.now variable) }
{
    if variable.size == size {
        push_variable(out, place, prefix, name, variable)
    } else {
        Ok(())
    }
}

/// The bytes of a variable among those of one size.
pub fn sized_bytes(size: u8, variable: Variable) -> u64
    ensures { result ≡ bytes_among size variable }
{
    if variable.size == size {
        variable_bytes(variable)
    } else {
        0
    }
}

/// The place after the variables of one size.
pub fn after_size(size: u8, mut place: u16, variables: &[Variable]) -> u16
    ensures { result ≡ after_variables size place variables.now }
{
    for variable in variables {
        place = address_after(place, sized_bytes(size, *variable));
    }
    place
}

/// Appends the lines of the variables of one size, one after the other.
fn push_all_sized(
    out: &mut Vec<u8>,
    size: u8,
    mut place: u16,
    prefix: &[u8],
    names: &[Text],
    variables: &[Variable],
) -> Result<(), NoMemory>
    ensures { OnOk result (out.new.items ≡ out.old.items ++ sized_lines size place prefix.now names.now variables.now) }
{
    let mut rest = names;
    for variable in variables {
        let [name, others @ ..] = rest else {
            return Ok(());
        };
        push_sized(out, size, place, prefix, name.as_slice(), *variable)?;
        place = address_after(place, sized_bytes(size, *variable));
        rest = others;
    }
    Ok(())
}

/// Appends the lines of the variables of an instance, which begin at an address.
pub fn push_variables(
    out: &mut Vec<u8>,
    longs: u16,
    prefix: &[u8],
    names: &[Text],
    variables: &[Variable],
) -> Result<(), NoMemory>
    ensures { OnOk result (out.new.items ≡ out.old.items ++ variable_lines longs prefix.now names.now variables.now) }
{
    let words = after_size(4, longs, variables);
    let bytes = after_size(2, words, variables);
    push_all_sized(out, 4, longs, prefix, names, variables)?;
    push_all_sized(out, 2, words, prefix, names, variables)?;
    push_all_sized(out, 1, bytes, prefix, names, variables)
}
