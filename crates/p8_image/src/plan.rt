// Where objects stand, and how many bytes of variables each has.
ghost use Rattle.std.specs.Prelude.{◌≡◌, ◌+◌, map, slice_index, IfOk};
ghost use Rattle.p8_image.specs.Keeping.{kept, deepened};
ghost use Rattle.p8_image.specs.Layout.{total, size_of, own_variables, bases_of, variables_base, variables_of};

use crate::bytes::number_at;
use crate::parts::ObjectPart;
use crate::sizes::{add, add_object, own_variables};
use p8_words::NoMemory;
use std::alloc::Global;

/// Where the first object stands: after the header of the image.
pub const FIRST_BASE: u32 = 16;

/// Where the objects of a project stand, one after the other.
pub fn bases(alloc: Global, objects: &[ObjectPart]) -> Result<Vec<u32>, NoMemory>
    ensures { IfOk result (λ bases. bases.items ≡ map kept (bases_of objects.now)) }
{
    let mut bases = Vec::new(alloc);
    let mut base = FIRST_BASE;
    for object in objects {
        bases.extend_from_slice(&[base])?;
        base = add_object(base, object);
    }
    Ok(bases)
}

/// Where the objects of a project end, and its variables begin.
pub fn variables_base(objects: &[ObjectPart]) -> u32
    ensures { result ≡ kept (variables_base objects.now) }
{
    add(FIRST_BASE, u64::from(objects_size(objects)))
}

/// The bytes of some objects.
fn objects_size(objects: &[ObjectPart]) -> u32
    ensures { result ≡ kept (total size_of objects.now) }
{
    objects
        .iter()
        .fold(0, |size, object| add_object(size, object))
}

/// The bytes of variables of some objects inside another, as `sizes` tells them of each object of the project.
fn inner_variables(instances: &[u8], sizes: &[u32]) -> u32
    ensures { result ≡ kept (total (slice_index sizes.now) instances.now) }
{
    instances.iter().fold(0, |size, object| {
        add(size, u64::from(number_at(sizes, *object)))
    })
}

/// The bytes of variables of an object with those of the objects inside it, as `sizes` tells them.
fn all_variables(object: &ObjectPart, sizes: &[u32]) -> u32
    ensures { result ≡ kept (own_variables object.now + total (slice_index sizes.now) object.now.instances) }
{
    let inner = inner_variables(object.instances.as_slice(), sizes);
    add(own_variables(object), u64::from(inner))
}

/// The bytes of variables of each object with those of the objects inside it, as `sizes` tells them.
fn one_deeper(alloc: Global, objects: &[ObjectPart], sizes: &[u32]) -> Result<Vec<u32>, NoMemory>
    ensures { IfOk result (λ deeper. deeper.items ≡ deepened objects.now sizes.now) }
{
    let deeper: Vec<u32> = objects
        .iter()
        .map(|object| all_variables(object, sizes))
        .collect(alloc)?;
    Ok(deeper)
}

/// The bytes of variables of each object of a project, with those of the objects inside it.
///
/// Objects inside objects are added one depth at a time, until that changes nothing.
pub fn variables(alloc: Global, objects: &[ObjectPart]) -> Result<Vec<u32>, NoMemory>
    ensures { IfOk result (λ sizes. sizes.items ≡ map kept (variables_of objects.now)) }
{
    let mut sizes = Vec::new(alloc);
    sizes.resize(objects.len(), 0)?;
    for _depth in 0..objects.len() {
        let deeper = one_deeper(alloc, objects, &sizes)?;
        if deeper.as_slice() == sizes.as_slice() {
            break;
        }
        sizes = deeper;
    }
    Ok(sizes)
}
