// The names of what stands in a project's objects.
ghost use Rattle.std.specs.Prelude.{◌≡◌, ◌++◌, [], IfOk, OnOk};
ghost use Rattle.p8_image.specs.Layout.{codes_offset};
ghost use Rattle.p8_legend.specs.ProjectLegends.{and_one, label_end, with_labels, with_methods, with_object, with_objects};

use crate::paths::push_path;
use crate::ranges::{Range, Ranges};
use p8_image::{MethodPart, ObjectPart, Offsets};
use p8_instr::push_text;
use p8_kinds::Label;
use p8_map::{FileNames, MethodNames, address_after};
use p8_tree::Text;
use p8_words::NoMemory;
use std::alloc::Global;

/// Where the first object of an image stands: after the image's header.
pub(crate) const FIRST_BASE: u16 = 16;

/// A name behind a prefix.
pub(crate) fn named(alloc: Global, prefix: &[u8], name: &[u8]) -> Result<Text, NoMemory>
    ensures { IfOk result (λ text. text ≡ prefix.now ++ name.now) }
{
    let mut text = Vec::new(alloc);
    push_text(&mut text, prefix)?;
    push_text(&mut text, name)?;
    Ok(Text::from_vec(text))
}

/// Where a label ends that comes before these.
fn label_end(base: u16, codes: u16, rest: &[Label]) -> u16
    ensures { result ≡ label_end base codes rest.now }
{
    match rest {
        [] => codes,
        [next, ..] => address_after(base, u64::from(next.offset)),
    }
}

/// Puts the labels of an object behind the names so far.
fn push_labels(
    alloc: Global,
    names: &mut Ranges,
    prefix: &[u8],
    base: u16,
    codes: u16,
    mut labels: &[Label],
) -> Result<(), NoMemory>
    ensures { OnOk result ((names.new.ranges, names.new.texts) ≡ with_labels (names.old.ranges, names.old.texts) prefix.now base codes labels.now) }
{
    while let [label, rest @ ..] = labels {
        let range = Range {
            address: address_after(base, u64::from(label.offset)),
            end: label_end(base, codes, rest),
        };
        let text = named(alloc, prefix, label.name.as_slice())?;
        names.push(range, text)?;
        labels = rest;
    }
    Ok(())
}

/// The names of an object's labels, by where they stand in the object, in which its codes begin at an offset. The only error is want of memory.
pub fn label_names(alloc: Global, codes: u16, labels: &[Label]) -> Result<Ranges, NoMemory>
    ensures { IfOk result (λ names. (names.ranges, names.texts) ≡ with_labels ([], []) [] 0 codes labels.now) }
{
    let mut names = Ranges::new(alloc);
    push_labels(alloc, &mut names, b"", 0, codes, labels)?;
    Ok(names)
}

/// Puts the methods of an object, whose codes stand one after the other, behind the names so far.
fn push_methods(
    alloc: Global,
    names: &mut Ranges,
    prefix: &[u8],
    mut place: u16,
    mut methods: &[MethodNames],
    mut parts: &[MethodPart],
) -> Result<(), NoMemory>
    ensures { OnOk result ((names.new.ranges, names.new.texts) ≡ with_methods (names.old.ranges, names.old.texts) prefix.now place methods.now parts.now) }
{
    while let [method, others @ ..] = methods {
        let [part, rest @ ..] = parts else {
            return Ok(());
        };
        let end = address_after(place, part.code.len() as u64);
        let range = Range {
            address: place,
            end,
        };
        let text = named(alloc, prefix, method.name.as_slice())?;
        names.push(range, text)?;
        place = end;
        methods = others;
        parts = rest;
    }
    Ok(())
}

/// Puts the names of an object behind the names so far, each of them behind a prefix.
#[tactic(auto, using(crate::proofs::Addresses::address_after_low))]
fn push_object(
    alloc: Global,
    names: &mut Ranges,
    prefix: &[u8],
    base: u16,
    file: &FileNames,
    object: &ObjectPart,
) -> Result<(), NoMemory>
    ensures { OnOk result ((names.new.ranges, names.new.texts) ≡ with_object (names.old.ranges, names.old.texts) prefix.now base file.now object.now) }
{
    let codes = address_after(base, u64::from(Offsets::of(object).codes));
    push_labels(alloc, names, prefix, base, codes, file.labels.as_slice())?;
    let methods = file.methods.as_slice();
    push_methods(
        alloc,
        names,
        prefix,
        codes,
        methods,
        object.methods.as_slice(),
    )
}

/// The names of what stands in a project's objects, one after the other.
#[tactic(auto, using(crate::proofs::Addresses::address_after_low))]
pub(crate) fn names_of(
    alloc: Global,
    all: &[FileNames],
    parts: &[ObjectPart],
) -> Result<Ranges, NoMemory>
    ensures { IfOk result (λ names. (names.ranges, names.texts) ≡ with_objects ([], []) all.now parts.now 0 16 all.now parts.now) }
{
    let mut names = Ranges::new(alloc);
    let mut number: u64 = 0;
    let mut base = FIRST_BASE;
    let mut files = all;
    let mut objects = parts;
    while let [file, others @ ..] = files {
        let [object, rest @ ..] = objects else {
            return Ok(names);
        };
        let mut prefix = Vec::new(alloc);
        push_path(&mut prefix, all, parts, parts.len(), number)?;
        push_object(alloc, &mut names, &prefix, base, file, object)?;
        number = number.checked_add(1).ok_or(NoMemory)?;
        base = address_after(base, u64::from(Offsets::of(object).size));
        files = others;
        objects = rest;
    }
    Ok(names)
}
