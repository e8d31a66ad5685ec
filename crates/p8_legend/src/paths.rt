// What the names of an object begin with.
ghost use Rattle.std.specs.Prelude.{◌≡◌, ◌++◌, None, Some, MatchOption, OnOk};
ghost use Rattle.p8_legend.specs.ProjectLegends.{first_inside, name_inside as name_among, path_behind, path_of};

use p8_image::ObjectPart;
use p8_instr::push_text;
use p8_map::FileNames;
use p8_tree::Text;
use p8_words::NoMemory;

/// The name of the first object of this number among those inside an object.
fn name_inside<'a>(number: u64, mut names: &'a [Text], mut instances: &[u8]) -> Option<&'a [u8]>
    ensures { MatchOption result (name_among number names.now instances.now ≡ None) (λ name. name_among number names.now instances.now ≡ Some name.now) }
{
    while let [name, others @ ..] = names {
        let [file, rest @ ..] = instances else {
            return None;
        };
        if u64::from(*file) == number {
            return Some(name.as_slice());
        }
        names = others;
        instances = rest;
    }
    None
}

/// Appends the path of the first instance of the object of this number, with `.` behind each name: nothing for the top object, and where
/// objects stand inside each other deeper than this.
#[cycle(paths)]
pub(crate) fn push_path(
    out: &mut Vec<u8>,
    files: &[FileNames],
    objects: &[ObjectPart],
    depth: usize,
    number: u64,
) -> Result<(), NoMemory>
    ensures { OnOk result (out.new.items ≡ out.old.items ++ path_of files.now objects.now depth number) }
{
    if depth == 0 {
        return Ok(());
    }
    if number == 0 {
        return Ok(());
    }
    push_behind(out, files, objects, depth - 1, number)
}

/// Appends the path of the first instance of the object of this number, which isn't the top object.
#[cycle(paths)]
fn push_behind(
    out: &mut Vec<u8>,
    files: &[FileNames],
    objects: &[ObjectPart],
    depth: usize,
    number: u64,
) -> Result<(), NoMemory>
    ensures { OnOk result (out.new.items ≡ out.old.items ++ path_behind (path_of files.now objects.now depth) (first_inside number 0 files.now objects.now)) }
{
    let mut file: u64 = 0;
    let mut others = files;
    let mut rest = objects;
    while let [names, more @ ..] = others {
        let [object, left @ ..] = rest else {
            return Ok(());
        };
        let found = name_inside(
            number,
            names.instances.as_slice(),
            object.instances.as_slice(),
        );
        if let Some(name) = found {
            push_path(out, files, objects, depth, file)?;
            push_text(out, name)?;
            return push_text(out, b".");
        }
        file = file.checked_add(1).ok_or(NoMemory)?;
        others = more;
        rest = left;
    }
    Ok(())
}
