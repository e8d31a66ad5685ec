// The instances of objects.
ghost use Rattle.std.specs.Prelude.{◌≡◌, ◌++◌, codes, slice_get, slice_index, Some, None, MatchOption, OnOk, IfOk};
ghost use Rattle.p8_image.specs.Layout.{own_variables as own_variables_of};
ghost use Rattle.p8_image.specs.Listing.{address_after as address_by};
ghost use Rattle.p8_map.specs.Map.{all_inside, instances_from, instances_within, one_inside, own_instance};

use crate::appending::address_after;
use crate::names::FileNames;
use crate::plan::{number_at, own_variables, sizes};
use p8_image::{ObjectPart, Variable};
use p8_instr::push_text;
use p8_tree::{List, Text};
use p8_words::NoMemory;
use std::alloc::Global;

/// An instance of an object that has variables of its own.
#[derive(Drop)]
pub struct Instance {
    /// What the names of its variables begin with: the names of the objects on the way to it, each with `.` behind it; nothing for the top
    /// object.
    pub prefix: Text,
    /// The number of its file, counted from 0 in the order of the project's files.
    pub file: u8,
    /// Where its variables begin.
    pub place: u16,
}

/// What is known of a project: the names of its files, their objects, and how many bytes of variables each has with those of the objects
/// inside it.
#[derive(Clone, Copy)]
struct Plan<'a> {
    files: &'a [FileNames],
    objects: &'a [ObjectPart],
    sizes: &'a [u16],
}

/// The instances of a project's objects that have variables of their own, in the order of addresses. `variables_at` is where variables
/// begin; `files` are the names of the project's files and `objects` their objects, both in the order of the files, the top file's first.
/// Addresses are told mod 65,536, which is exact in an image that fits the hub. The only error is want of memory.
///
/// Instances without variables inside aren't walked into. So each depth of objects inside each other has at most as many instances
/// to be walked as there are longs of variables, however many instances the objects could make.
pub fn instances_of(
    alloc: Global,
    variables_at: u16,
    files: &[FileNames],
    objects: &[ObjectPart],
) -> Result<List<Instance>, NoMemory>
    ensures { IfOk result (λ all. all ≡ instances_from variables_at files.now objects.now) }
{
    let sizes = sizes(alloc, objects)?;
    let plan = Plan {
        files,
        objects,
        sizes: &sizes,
    };
    let mut all = List::new(alloc);
    push_instance(alloc, &mut all, &plan, objects.len(), b"", 0, variables_at)?;
    Ok(all)
}

/// Puts an instance of the object of this number, where it has variables of its own.
fn push_own(
    alloc: Global,
    all: &mut List<Instance>,
    prefix: &[u8],
    number: u8,
    place: u16,
    variables: &[Variable],
) -> Result<(), NoMemory>
    ensures { OnOk result (all.new ≡ all.old ++ own_instance prefix.now number place variables.now) }
{
    match variables {
        [] => Ok(()),
        [_, ..] => {
            all.push(Instance {
                prefix: Text::copy_of(alloc, prefix)?,
                file: number,
                place,
            })?;
            Ok(())
        }
    }
}

/// The names of the file of this number.
fn names_at(files: &[FileNames], number: u8) -> Option<&FileNames>
    ensures { MatchOption result (slice_get files.now number ≡ None) (λ names. slice_get files.now number ≡ Some names.now) }
{
    files.get(usize::from(number))
}

/// The object of the file of this number.
fn object_at(objects: &[ObjectPart], number: u8) -> Option<&ObjectPart>
    ensures { MatchOption result (slice_get objects.now number ≡ None) (λ object. slice_get objects.now number ≡ Some object.now) }
{
    objects.get(usize::from(number))
}

/// The place after an object's own variables.
#[tactic(auto, using(crate::proofs::Places::address_after_low))]
fn after_own(place: u16, object: &ObjectPart) -> u16
    ensures { result ≡ address_by place (own_variables_of object.now) }
{
    address_after(place, u64::from(own_variables(object)))
}

/// What the names of an instance inside another begin with.
fn inner_prefix(alloc: Global, prefix: &[u8], name: &Text) -> Result<Vec<u8>, NoMemory>
    ensures { IfOk result (λ inner. inner.items ≡ prefix.now ++ name.now ++ codes ".") }
{
    let mut inner = Vec::new(alloc);
    push_text(&mut inner, prefix)?;
    push_text(&mut inner, name.as_slice())?;
    push_text(&mut inner, b".")?;
    Ok(inner)
}

/// Puts an instance of the object of this number, whose variables begin at an address, and those inside it.
#[cycle(instances)]
fn push_instance(
    alloc: Global,
    all: &mut List<Instance>,
    plan: &Plan<'_>,
    depth: usize,
    prefix: &[u8],
    number: u8,
    place: u16,
) -> Result<(), NoMemory>
    ensures { OnOk result (all.new ≡ all.old ++ instances_within plan.now.files.now plan.now.objects.now plan.now.sizes.now depth prefix.now number place) }
{
    if depth == 0 {
        return Ok(());
    }
    let Some(names) = names_at(plan.files, number) else {
        return Ok(());
    };
    let Some(object) = object_at(plan.objects, number) else {
        return Ok(());
    };
    let inside = after_own(place, object);
    push_own(
        alloc,
        all,
        prefix,
        number,
        place,
        object.variables.as_slice(),
    )?;
    push_inner(
        alloc,
        all,
        plan,
        depth - 1,
        prefix,
        inside,
        names.instances.as_slice(),
        object.instances.as_slice(),
    )
}

/// Puts the instances inside one, whose variables stand one after the other.
#[cycle(instances)]
fn push_inner(
    alloc: Global,
    all: &mut List<Instance>,
    plan: &Plan<'_>,
    depth: usize,
    prefix: &[u8],
    mut place: u16,
    names: &[Text],
    instances: &[u8],
) -> Result<(), NoMemory>
    ensures { OnOk result (all.new ≡ all.old ++ all_inside
        (instances_within plan.now.files.now plan.now.objects.now plan.now.sizes.now depth) plan.now.sizes.now place prefix.now names.now instances.now) }
{
    let mut rest = names;
    for file in instances {
        let [name, others @ ..] = rest else {
            return Ok(());
        };
        push_one(alloc, all, plan, depth, prefix, *file, place, name)?;
        place = address_after(place, u64::from(number_at(plan.sizes, *file)));
        rest = others;
    }
    Ok(())
}

/// Puts an instance inside another with those inside it, where it has variables or one inside it has some.
#[cycle(instances)]
fn push_one(
    alloc: Global,
    all: &mut List<Instance>,
    plan: &Plan<'_>,
    depth: usize,
    prefix: &[u8],
    file: u8,
    place: u16,
    name: &Text,
) -> Result<(), NoMemory>
    ensures { OnOk result (all.new ≡ all.old ++ one_inside (instances_within plan.now.files.now plan.now.objects.now plan.now.sizes.now depth)
        (slice_index plan.now.sizes.now file) place prefix.now name.now file) }
{
    if number_at(plan.sizes, file) == 0 {
        return Ok(());
    }
    let inner = inner_prefix(alloc, prefix, name)?;
    push_instance(alloc, all, plan, depth, &inner, file, place)
}
