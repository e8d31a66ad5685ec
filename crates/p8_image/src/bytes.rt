// The bytes of an image, part by part.
ghost use Rattle.std.specs.Prelude.{◌≡◌, ◌+◌, ◌-◌, ◌%◌, ◌++◌, length, map, slice_index, slice_set, OnOk, IfOk};
ghost use Rattle.p8_image.specs.Keeping.{kept};
ghost use Rattle.p8_image.specs.Layout.{word, padded, method_entries, inner_entries, linked, codes_of, texts_of, table_bytes, text_size, places_from};
ghost use Rattle.p8_image.specs.Layout.{text_offsets, object_bytes, objects_bytes};

use crate::parts::{MethodPart, ObjectPart, TextUse};
use crate::sizes::{
    add, add_object, add_text, codes_offset, object_size, own_variables, texts_offset,
};
use byteorder::{ByteOrder, LittleEndian};
use p8_tree::Text;
use p8_words::NoMemory;
use std::alloc::Global;

/// Appends the last 16 bits of a number, the low byte first.
pub fn push_word(out: &mut Vec<u8>, value: u32) -> Result<(), NoMemory>
    ensures { OnOk result (out.new.items ≡ out.old.items ++ word value) }
{
    let mut bytes = [0; 2];
    LittleEndian::write_u16(&mut bytes, (value % 65_536) as u16);
    out.extend_from_slice(&bytes)?;
    Ok(())
}

/// Appends these bytes, and zeros up to a whole number of longs.
pub fn push_padded(out: &mut Vec<u8>, bytes: &[u8]) -> Result<(), NoMemory>
    ensures { OnOk result (out.new.items ≡ out.old.items ++ padded bytes.now) }
{
    out.extend_from_slice(bytes)?;
    out.extend_from_slice(&[0; 3][..(4 - bytes.len() % 4) % 4])?;
    Ok(())
}

/// Appends texts, each with the zero that ends it.
pub fn push_texts(out: &mut Vec<u8>, texts: &[Text]) -> Result<(), NoMemory>
    ensures { OnOk result (out.new.items ≡ out.old.items ++ texts_of texts.now) }
{
    for text in texts {
        out.extend_from_slice(text.as_slice())?;
        out.extend_from_slice(&[0])?;
    }
    Ok(())
}

/// Appends the entries of methods whose codes stand one after the other from an offset on.
pub fn push_method_entries(
    out: &mut Vec<u8>,
    mut offset: u32,
    methods: &[MethodPart],
) -> Result<(), NoMemory>
    ensures { OnOk result (out.new.items ≡ out.old.items ++ method_entries offset methods.now) }
{
    for method in methods {
        push_word(out, offset)?;
        push_word(out, u32::from(method.locals))?;
        offset = add(offset, method.code.len() as u64);
    }
    Ok(())
}

/// Appends the entries of the objects inside one that stands at a base, from an offset of its variables on. `bases` and `variables`
/// tell where all objects stand, and how many bytes of variables each has.
pub fn push_inner_entries(
    out: &mut Vec<u8>,
    bases: &[u32],
    variables: &[u32],
    base: u32,
    mut offset: u32,
    instances: &[u8],
) -> Result<(), NoMemory>
    ensures { OnOk result (out.new.items ≡ out.old.items ++ inner_entries bases.now variables.now base offset instances.now) }
{
    for object in instances {
        push_word(out, way(base, number_at(bases, *object)))?;
        push_word(out, offset)?;
        offset = add(offset, u64::from(number_at(variables, *object)));
    }
    Ok(())
}

/// The number at a place of a list, or 0 after its end.
pub fn number_at(numbers: &[u32], place: u8) -> u32
    ensures { result ≡ slice_index numbers.now place }
{
    numbers.get(usize::from(place)).copied().unwrap_or(0)
}

/// The way from one place to another, as a number whose last 16 bits tell it.
fn way(from: u32, to: u32) -> u32
    ensures { word result ≡ word (to + 65536 - from % 65536) }
{
    to.wrapping_sub(from)
}

/// Puts the offsets of texts where a method's code uses them: in two bytes, the high part first, with bit 7 of the first byte set.
pub fn link(code: &mut [u8], offsets: &[u32], uses: &[TextUse])
    ensures { code.new ≡ linked (slice_index offsets.now) uses.now code.old }
{
    for place in uses {
        let offset = offsets.get(place.text as usize).copied().unwrap_or(0);
        let at = place.at as usize;
        put(code, at, 128 + (offset / 256 % 128) as u8);
        put(code, at + 1, (offset % 256) as u8);
    }
}

/// Puts a byte at a place of a code, if that has the place.
fn put(code: &mut [u8], at: usize, byte: u8)
    ensures { code.new ≡ slice_set code.old at byte }
{
    if at < code.len() {
        code[at] = byte;
    }
}

/// Appends the codes of methods, with the offsets of the texts that they use.
pub fn push_codes(
    alloc: Global,
    out: &mut Vec<u8>,
    offsets: &[u32],
    methods: &[MethodPart],
) -> Result<(), NoMemory>
    ensures { OnOk result (out.new.items ≡ out.old.items ++ codes_of (slice_index offsets.now) methods.now) }
{
    for method in methods {
        let mut code = method.code.as_slice().to_vec(alloc)?;
        link(&mut code, offsets, method.uses.as_slice());
        out.extend_from_slice(&code)?;
    }
    Ok(())
}

/// The last eight bits of a number.
fn low_byte(number: usize) -> u8
    ensures { result ≡ number % 256 }
{
    (number % 256) as u8
}

/// Appends the table of an object that stands at a base.
pub fn push_table(
    out: &mut Vec<u8>,
    bases: &[u32],
    variables: &[u32],
    base: u32,
    object: &ObjectPart,
) -> Result<(), NoMemory>
    ensures { OnOk result (out.new.items ≡ out.old.items ++ table_bytes bases.now variables.now base object.now) }
{
    let methods = object.methods.as_slice();
    let instances = object.instances.as_slice();
    let counts = [low_byte(methods.len() % 256 + 1), low_byte(instances.len())];
    push_word(out, object_size(object))?;
    out.extend_from_slice(&counts)?;
    push_method_entries(out, codes_offset(object), methods)?;
    push_inner_entries(
        out,
        bases,
        variables,
        base,
        own_variables(object),
        instances,
    )?;
    Ok(())
}

/// Where the texts of an object stand, from the place on at which the first one does.
pub fn text_offsets(alloc: Global, mut offset: u32, texts: &[Text]) -> Result<Vec<u32>, NoMemory>
    requires { kept offset ≡ offset }
    ensures { IfOk result (λ offsets. offsets.items ≡ map kept (places_from text_size offset texts.now)) }
{
    let mut offsets = Vec::new(alloc);
    for text in texts {
        offsets.extend_from_slice(&[offset])?;
        offset = add_text(offset, text);
    }
    Ok(offsets)
}

/// The codes of an object's methods, one after the other, with the offsets of the texts that they use.
pub fn linked_codes(alloc: Global, object: &ObjectPart) -> Result<Vec<u8>, NoMemory>
    ensures { IfOk result (λ codes. codes.items ≡ codes_of (slice_index (text_offsets object.now)) object.now.methods) }
{
    let offsets = text_offsets(alloc, texts_offset(object), object.texts.as_slice())?;
    let mut codes = Vec::new(alloc);
    push_codes(alloc, &mut codes, &offsets, object.methods.as_slice())?;
    Ok(codes)
}

/// The bytes of an object that stands at a base, without the zeros at its end.
fn object_parts(
    alloc: Global,
    bases: &[u32],
    variables: &[u32],
    base: u32,
    object: &ObjectPart,
) -> Result<Vec<u8>, NoMemory>
    ensures { IfOk result (λ bytes. padded bytes.items ≡ object_bytes bases.now variables.now base object.now) }
{
    let codes = linked_codes(alloc, object)?;
    let mut bytes = Vec::new(alloc);
    push_table(&mut bytes, bases, variables, base, object)?;
    push_padded(&mut bytes, object.dat.as_slice())?;
    bytes.extend_from_slice(&codes)?;
    push_texts(&mut bytes, object.texts.as_slice())?;
    Ok(bytes)
}

/// Appends objects, one after the other from a base on.
pub fn push_objects(
    alloc: Global,
    out: &mut Vec<u8>,
    bases: &[u32],
    variables: &[u32],
    mut base: u32,
    objects: &[ObjectPart],
) -> Result<(), NoMemory>
    ensures { OnOk result (out.new.items ≡ out.old.items ++ objects_bytes bases.now variables.now base objects.now) }
{
    for object in objects {
        let bytes = object_parts(alloc, bases, variables, base, object)?;
        push_padded(out, &bytes)?;
        base = add_object(base, object);
    }
    Ok(())
}
