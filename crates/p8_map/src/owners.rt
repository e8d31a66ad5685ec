// The lines of the instances of objects.
ghost use Rattle.std.specs.Prelude.{◌≡◌, ◌++◌, OnOk};
ghost use Rattle.std.specs.List.{flat_map};
ghost use Rattle.p8_map.specs.Map.{instance_file, instance_line, instance_lines};

use crate::appending::push_place;
use crate::instances::Instance;
use crate::names::FileNames;
use crate::plan::number_at;
use crate::variables::push_variables;
use p8_image::ObjectPart;
use p8_instr::push_text;
use p8_words::NoMemory;

/// Appends what the line of an instance has after what its names begin with: its file, and where its object stands.
fn push_file(out: &mut Vec<u8>, file: &[u8], base: u16) -> Result<(), NoMemory>
    ensures { OnOk result (out.new.items ≡ out.old.items ++ instance_file file.now base) }
{
    push_text(out, b"* ")?;
    push_text(out, file)?;
    push_text(out, b" ")?;
    push_place(out, base)?;
    push_text(out, b"\n")
}

/// Appends the line of an instance.
fn push_instance_line(
    out: &mut Vec<u8>,
    place: u16,
    prefix: &[u8],
    file: &[u8],
    base: u16,
) -> Result<(), NoMemory>
    ensures { OnOk result (out.new.items ≡ out.old.items ++ instance_line place prefix.now file.now base) }
{
    push_place(out, place)?;
    push_text(out, b" instance ")?;
    push_text(out, prefix)?;
    push_file(out, file, base)
}

/// Appends the lines of an instance and of its own variables.
fn push_owner(
    out: &mut Vec<u8>,
    files: &[FileNames],
    objects: &[ObjectPart],
    bases: &[u16],
    instance: &Instance,
) -> Result<(), NoMemory>
    ensures { OnOk result (out.new.items ≡ out.old.items ++ instance_lines files.now objects.now bases.now instance.now) }
{
    let number = usize::from(instance.file);
    let Some(names) = files.get(number) else {
        return Ok(());
    };
    let Some(object) = objects.get(number) else {
        return Ok(());
    };
    let base = number_at(bases, instance.file);
    let prefix = instance.prefix.as_slice();
    push_instance_line(out, instance.place, prefix, names.file.as_slice(), base)?;
    push_variables(
        out,
        instance.place,
        prefix,
        names.variables.as_slice(),
        object.variables.as_slice(),
    )
}

/// Appends the lines of instances and of their variables. Their objects stand at these bases.
pub fn push_owners(
    out: &mut Vec<u8>,
    files: &[FileNames],
    objects: &[ObjectPart],
    bases: &[u16],
    instances: &[Instance],
) -> Result<(), NoMemory>
    ensures { OnOk result (out.new.items ≡ out.old.items ++ flat_map (instance_lines files.now objects.now bases.now) instances.now) }
{
    for instance in instances {
        push_owner(out, files, objects, bases, instance)?;
    }
    Ok(())
}
