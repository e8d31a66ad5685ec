// The lines of objects.
ghost use Rattle.std.specs.Prelude.{◌≡◌, ◌++◌, ◌+◌, ◌*◌, length, OnOk};
ghost use Rattle.std.specs.List.{flat_map};
ghost use Rattle.p8_image.specs.Layout.{codes_offset, text_size};
ghost use Rattle.p8_image.specs.Listing.{address_after as address_by};
ghost use Rattle.p8_map.specs.Map.{after_codes as after_codes_from, child_line, child_lines, file_name as name_of_file};
ghost use Rattle.p8_map.specs.Map.{label_line, object_line, object_lines, objects_lines, text_line, text_lines};

use crate::appending::{address_after, push_place, size_word};
use crate::methods::push_methods;
use crate::names::FileNames;
use crate::plan::FIRST_BASE;
use crate::strings::push_items;
use p8_image::{MethodPart, ObjectPart, Offsets};
use p8_instr::{push_text, register_digits};
use p8_kinds::Label;
use p8_tree::Text;
use p8_words::NoMemory;

/// How many bytes an entry of an object's table has, and how many stand before the first one.
const ENTRY: u64 = 4;

/// How many entries fit the hub's addresses.
const MOST_ENTRIES: u64 = 16_384;

/// The name of the file of this number.
fn file_name(files: &[FileNames], number: u8) -> &[u8]
    ensures { result.now ≡ name_of_file files.now number }
{
    match files.get(usize::from(number)) {
        Some(file) => file.file.as_slice(),
        None => &[],
    }
}

/// Where the entries of the objects inside an object stand.
fn children_place(base: u16, object: &ObjectPart) -> u16
    ensures { result ≡ address_by base (4 + 4 * length object.now.methods) }
{
    let methods = object.methods.len() as u64 % MOST_ENTRIES;
    address_after(base, ENTRY + ENTRY * methods)
}

/// Where the codes of an object's methods stand.
#[tactic(auto, using(crate::proofs::Places::address_after_low))]
fn codes_place(base: u16, object: &ObjectPart) -> u16
    ensures { result ≡ address_by base (codes_offset object.now) }
{
    address_after(base, u64::from(Offsets::of(object).codes))
}

/// The place after codes that stand one after the other.
fn after_codes(mut place: u16, methods: &[MethodPart]) -> u16
    ensures { result ≡ after_codes_from place methods.now }
{
    for method in methods {
        place = address_after(place, method.code.len() as u64);
    }
    place
}

/// Appends the line of an object.
fn push_object_line(out: &mut Vec<u8>, place: u16, file: &[u8]) -> Result<(), NoMemory>
    ensures { OnOk result (out.new.items ≡ out.old.items ++ object_line place file.now) }
{
    push_place(out, place)?;
    push_text(out, b" object ")?;
    push_text(out, file)?;
    push_text(out, b"\n")
}

/// Appends the line of an object inside another.
fn push_child(out: &mut Vec<u8>, place: u16, name: &[u8], file: &[u8]) -> Result<(), NoMemory>
    ensures { OnOk result (out.new.items ≡ out.old.items ++ child_line place name.now file.now) }
{
    push_place(out, place)?;
    push_text(out, b" child ")?;
    push_text(out, name)?;
    push_text(out, b" ")?;
    push_text(out, file)?;
    push_text(out, b"\n")
}

/// Appends the lines of the objects inside an object, whose entries stand one after the other.
fn push_children(
    out: &mut Vec<u8>,
    files: &[FileNames],
    mut place: u16,
    names: &[Text],
    instances: &[u8],
) -> Result<(), NoMemory>
    ensures { OnOk result (out.new.items ≡ out.old.items ++ child_lines files.now place names.now instances.now) }
{
    let mut rest = names;
    for file in instances {
        let [name, others @ ..] = rest else {
            return Ok(());
        };
        push_child(out, place, name.as_slice(), file_name(files, *file))?;
        place = address_after(place, ENTRY);
        rest = others;
    }
    Ok(())
}

/// Appends the line of a label of an object that begins at an address.
fn push_label(out: &mut Vec<u8>, base: u16, label: &Label) -> Result<(), NoMemory>
    ensures { OnOk result (out.new.items ≡ out.old.items ++ label_line base label.now) }
{
    push_place(out, address_after(base, u64::from(label.offset)))?;
    push_text(out, b" label ")?;
    push_text(out, label.name.as_slice())?;
    push_text(out, b" cog ")?;
    push_text(out, &register_digits(label.cog / 4))?;
    push_text(out, b" ")?;
    push_text(out, size_word(label.size))?;
    push_text(out, b"\n")
}

/// Appends the lines of an object's labels.
fn push_labels(out: &mut Vec<u8>, base: u16, labels: &[Label]) -> Result<(), NoMemory>
    ensures { OnOk result (out.new.items ≡ out.old.items ++ flat_map (label_line base) labels.now) }
{
    for label in labels {
        push_label(out, base, label)?;
    }
    Ok(())
}

/// Appends the line of a text that stands at an address: the address, `string`, and the items of a `STRING`. The only error is want of memory.
pub fn push_text_line(out: &mut Vec<u8>, place: u16, text: &[u8]) -> Result<(), NoMemory>
    ensures { OnOk result (out.new.items ≡ out.old.items ++ text_line place text.now) }
{
    push_place(out, place)?;
    push_text(out, b" string ")?;
    push_items(out, text)?;
    push_text(out, b"\n")
}

/// Appends the lines of texts that stand one after the other.
fn push_texts(out: &mut Vec<u8>, mut place: u16, texts: &[Text]) -> Result<(), NoMemory>
    ensures { OnOk result (out.new.items ≡ out.old.items ++ text_lines place texts.now) }
{
    for text in texts {
        push_text_line(out, place, text.as_slice())?;
        place = after_text(place, text);
    }
    Ok(())
}

/// The place after a text and the zero that ends it.
#[tactic(auto, using(crate::proofs::Places::address_after_twice))]
fn after_text(place: u16, text: &Text) -> u16
    ensures { result ≡ address_by place (text_size text.now) }
{
    address_after(address_after(place, text.len() as u64), 1)
}

/// Appends the lines of an object that begins at an address, with the names of its file.
fn push_object(
    out: &mut Vec<u8>,
    files: &[FileNames],
    base: u16,
    names: &FileNames,
    object: &ObjectPart,
) -> Result<(), NoMemory>
    ensures { OnOk result (out.new.items ≡ out.old.items ++ object_lines files.now base names.now object.now) }
{
    let children = children_place(base, object);
    let codes = codes_place(base, object);
    let texts = after_codes(codes, object.methods.as_slice());
    push_object_line(out, base, names.file.as_slice())?;
    push_children(
        out,
        files,
        children,
        names.instances.as_slice(),
        object.instances.as_slice(),
    )?;
    push_labels(out, base, names.labels.as_slice())?;
    push_methods(
        out,
        codes,
        names.methods.as_slice(),
        object.methods.as_slice(),
    )?;
    push_texts(out, texts, object.texts.as_slice())
}

/// Appends the lines of the objects of a project, which stand one after the other.
#[tactic(auto, using(crate::proofs::Places::address_after_low))]
pub fn push_objects(
    out: &mut Vec<u8>,
    files: &[FileNames],
    objects: &[ObjectPart],
) -> Result<(), NoMemory>
    ensures { OnOk result (out.new.items ≡ out.old.items ++ objects_lines files.now 16 files.now objects.now) }
{
    let mut base = FIRST_BASE;
    let mut rest = files;
    for object in objects {
        let [names, others @ ..] = rest else {
            return Ok(());
        };
        push_object(out, files, base, names, object)?;
        base = address_after(base, u64::from(Offsets::of(object).size));
        rest = others;
    }
    Ok(())
}
