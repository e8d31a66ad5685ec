// The names of the variables of a project's instances.
ghost use Rattle.std.specs.Prelude.{◌≡◌, OnOk, slice_get};
ghost use Rattle.p8_legend.specs.ProjectLegends.{and_one, with_instance, with_instances};

use crate::ranges::Ranges;
use crate::variables::push_variables;
use p8_image::ObjectPart;
use p8_map::{FileNames, Instance};
use p8_words::NoMemory;
use std::alloc::Global;

/// Puts the variables of an instance behind the names so far.
fn push_instance(
    alloc: Global,
    names: &mut Ranges,
    files: &[FileNames],
    objects: &[ObjectPart],
    instance: &Instance,
) -> Result<(), NoMemory>
    ensures { OnOk result ((names.new.ranges, names.new.texts) ≡
        with_instance (names.old.ranges, names.old.texts) instance.now (slice_get files.now instance.now.file) (slice_get objects.now instance.now.file)) }
{
    let number = usize::from(instance.file);
    let Some(file) = files.get(number) else {
        return Ok(());
    };
    let Some(object) = objects.get(number) else {
        return Ok(());
    };
    push_variables(
        alloc,
        names,
        instance.place,
        instance.prefix.as_slice(),
        file.variables.as_slice(),
        object.variables.as_slice(),
    )
}

/// Puts the variables of instances, which stand one after the other, behind the names so far.
pub(crate) fn push_instances(
    alloc: Global,
    names: &mut Ranges,
    files: &[FileNames],
    objects: &[ObjectPart],
    mut instances: &[Instance],
) -> Result<(), NoMemory>
    ensures { OnOk result ((names.new.ranges, names.new.texts) ≡ with_instances (names.old.ranges, names.old.texts) files.now objects.now instances.now) }
{
    while let [instance, rest @ ..] = instances {
        push_instance(alloc, names, files, objects, instance)?;
        instances = rest;
    }
    Ok(())
}
