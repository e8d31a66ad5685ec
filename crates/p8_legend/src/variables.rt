// The names of the variables of an instance.
ghost use Rattle.std.specs.Prelude.{◌≡◌, ◌++◌, [], IfOk, OnOk};
ghost use Rattle.p8_legend.specs.ProjectLegends.{and_if, with_sized, with_variables};

use crate::objects::named;
use crate::ranges::{Range, Ranges};
use p8_image::Variable;
use p8_map::{address_after, after_size, sized_bytes};
use p8_tree::Text;
use p8_words::NoMemory;
use std::alloc::Global;

/// Puts a variable that stands in a range behind the names so far, if it is asked for.
fn push_if(
    alloc: Global,
    names: &mut Ranges,
    is_asked: bool,
    range: Range,
    prefix: &[u8],
    text: &Text,
) -> Result<(), NoMemory>
    ensures { OnOk result ((names.new.ranges, names.new.texts) ≡
        and_if is_asked (names.old.ranges, names.old.texts) range.address range.end (prefix.now ++ text.now)) }
{
    if is_asked {
        let name = named(alloc, prefix, text.as_slice())?;
        names.push(range, name)?;
    }
    Ok(())
}

/// Puts the variables of one size, which stand one after the other, behind the names so far.
fn push_sized(
    alloc: Global,
    names: &mut Ranges,
    size: u8,
    mut place: u16,
    prefix: &[u8],
    mut texts: &[Text],
    mut variables: &[Variable],
) -> Result<(), NoMemory>
    ensures { OnOk result ((names.new.ranges, names.new.texts) ≡ with_sized (names.old.ranges, names.old.texts) size place prefix.now texts.now variables.now) }
{
    while let [text, others @ ..] = texts {
        let [variable, rest @ ..] = variables else {
            return Ok(());
        };
        let end = address_after(place, sized_bytes(size, *variable));
        let range = Range {
            address: place,
            end,
        };
        push_if(alloc, names, variable.size == size, range, prefix, text)?;
        place = end;
        texts = others;
        variables = rest;
    }
    Ok(())
}

/// Puts the variables of an instance, which begin at an address, behind the names so far; each name stands behind a prefix.
pub(crate) fn push_variables(
    alloc: Global,
    names: &mut Ranges,
    longs: u16,
    prefix: &[u8],
    texts: &[Text],
    variables: &[Variable],
) -> Result<(), NoMemory>
    ensures { OnOk result ((names.new.ranges, names.new.texts) ≡ with_variables (names.old.ranges, names.old.texts) longs prefix.now texts.now variables.now) }
{
    let words = after_size(4, longs, variables);
    let bytes = after_size(2, words, variables);
    push_sized(alloc, names, 4, longs, prefix, texts, variables)?;
    push_sized(alloc, names, 2, words, prefix, texts, variables)?;
    push_sized(alloc, names, 1, bytes, prefix, texts, variables)
}

/// The names of an object's variables, by how far they stand behind the begin of the object's variables. The only error is want of memory.
pub fn variable_names(
    alloc: Global,
    texts: &[Text],
    variables: &[Variable],
) -> Result<Ranges, NoMemory>
    ensures { IfOk result (λ names. (names.ranges, names.texts) ≡ with_variables ([], []) 0 [] texts.now variables.now) }
{
    let mut names = Ranges::new(alloc);
    push_variables(alloc, &mut names, 0, b"", texts, variables)?;
    Ok(names)
}
