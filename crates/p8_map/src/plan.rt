// Where objects stand, and how many bytes of variables each has, mod 65,536.
ghost use Rattle.std.specs.Prelude.{◌≡◌, ◌+◌, ◌%◌, map, slice_index, IfOk};
ghost use Rattle.p8_image.specs.Layout.{own_variables, total, variable_size, variables_of};
ghost use Rattle.p8_map.specs.Map.{bases_from, low};

use crate::appending::address_after;
use p8_image::{ObjectPart, Offsets, Variable};
use p8_words::NoMemory;
use std::alloc::Global;

/// Where the first object stands: after the header of the image.
pub const FIRST_BASE: u16 = 16;

/// Where the objects of a project stand, one after the other.
#[tactic(auto, using(crate::proofs::Places::address_after_low))]
pub fn bases(alloc: Global, objects: &[ObjectPart]) -> Result<Vec<u16>, NoMemory>
    ensures { IfOk result (λ bases. bases.items ≡ bases_from 16 objects.now) }
{
    let mut bases = Vec::new(alloc);
    let mut base = FIRST_BASE;
    for object in objects {
        bases.extend_from_slice(&[base])?;
        base = address_after(base, u64::from(Offsets::of(object).size));
    }
    Ok(bases)
}

/// The number at a place of a list, or 0 after its end.
pub fn number_at(numbers: &[u16], place: u8) -> u16
    ensures { result ≡ slice_index numbers.now place }
{
    numbers.get(usize::from(place)).copied().unwrap_or(0)
}

/// The bytes of some variables.
fn variables_size(variables: &[Variable]) -> u16
    ensures { result % 65536 ≡ total variable_size variables.now % 65536 }
{
    let mut bytes = 0;
    for variable in variables {
        bytes = address_after(bytes, variable_bytes(*variable));
    }
    bytes
}

/// The bytes of a variable.
pub fn variable_bytes(variable: Variable) -> u64
    ensures { result ≡ variable_size variable }
{
    u64::from(variable.size) * u64::from(variable.count)
}

/// The bytes of an object's own variables.
#[tactic(auto, using(crate::proofs::Places::low_whole))]
pub fn own_variables(object: &ObjectPart) -> u16
    ensures { result ≡ own_variables object.now % 65536 }
{
    let bytes = u32::from(variables_size(object.variables.as_slice()));
    ((bytes + 3) / 4 * 4 % 65_536) as u16
}

/// The bytes of variables of some objects inside another, as `sizes` tells them of each object of the project.
fn inner_variables(instances: &[u8], sizes: &[u16]) -> u16
    ensures { result % 65536 ≡ total (slice_index sizes.now) instances.now % 65536 }
{
    let mut bytes = 0;
    for file in instances {
        bytes = address_after(bytes, u64::from(number_at(sizes, *file)));
    }
    bytes
}

/// The bytes of variables of an object with those of the objects inside it, as `sizes` tells them.
fn all_variables(object: &ObjectPart, sizes: &[u16]) -> u16
    ensures { result ≡ (own_variables object.now + total (slice_index sizes.now) object.now.instances) % 65536 }
{
    let inner = inner_variables(object.instances.as_slice(), sizes);
    address_after(own_variables(object), u64::from(inner))
}

/// The bytes of variables of each object with those of the objects inside it, as `sizes` tells them.
fn one_deeper(alloc: Global, objects: &[ObjectPart], sizes: &[u16]) -> Result<Vec<u16>, NoMemory>
    ensures { IfOk result (λ deeper. deeper.items ≡ map
        (λ object. (own_variables object + total (slice_index sizes.now) object.instances) % 65536) objects.now) }
{
    let mut deeper = Vec::new(alloc);
    for object in objects {
        deeper.extend_from_slice(&[all_variables(object, sizes)])?;
    }
    Ok(deeper)
}

/// The bytes of variables of each object of a project, with those of the objects inside it. Objects inside objects are added one depth
/// at a time.
pub fn sizes(alloc: Global, objects: &[ObjectPart]) -> Result<Vec<u16>, NoMemory>
    ensures { IfOk result (λ sizes. sizes.items ≡ low (variables_of objects.now)) }
{
    let mut sizes = Vec::new(alloc);
    sizes.resize(objects.len(), 0)?;
    for _depth in 0..objects.len() {
        let deeper = one_deeper(alloc, objects, &sizes)?;
        sizes = deeper;
    }
    Ok(sizes)
}
