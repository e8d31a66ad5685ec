// The codes and the objects of a project with short code.
ghost use Rattle.std.specs.Prelude.{◌≡◌, ◌≤◌, length, map, IfOk};
ghost use Rattle.p8_tree.specs.Views.{named_source_of};
ghost use Rattle.p8_tree.specs.Projects.{most_files};
ghost use Rattle.p8_opt.specs.Steps.{IsAcceptedFile, IsItsShort, AreAcceptedFiles, AreAllShort, objects_in};

use crate::coding::short_codes;
use p8_build::{AcceptedFile, object_of_codes};
use p8_image::ObjectPart;
use p8_stmt::MethodCode;
use p8_tree::{List, ProjectFile};
use p8_words::NoMemory;
use std::alloc::Global;

/// The short codes of the methods of each file of an accepted project.
pub(crate) fn codes_of_all(
    alloc: Global,
    accepted: &[AcceptedFile<'_>],
) -> Result<List<List<MethodCode>>, NoMemory>
    requires { AreAcceptedFiles accepted.now }
    ensures count { IfOk result (λ codes. length codes ≡ length accepted.now) }
    ensures codes { IfOk result (AreAllShort accepted.now) }
{
    let mut codes = List::new(alloc);
    for (index, file) in accepted.iter().enumerate() {
        let own = codes_of_file(alloc, file)?;
        codes.push(own)?;
    }
    Ok(codes)
}

/// The short codes of a file's methods.
fn codes_of_file(alloc: Global, file: &AcceptedFile<'_>) -> Result<List<MethodCode>, NoMemory>
    requires { IsAcceptedFile file.now }
    ensures { IfOk result (IsItsShort file.now) }
{
    let codes = short_codes(alloc, &file.kinds, &file.tables, file.methods.as_slice())?;
    Ok(codes)
}

/// The objects of the files of a project, with these codes for the methods of each.
pub(crate) fn objects_with(
    alloc: Global,
    files: &[ProjectFile],
    accepted: &[AcceptedFile<'_>],
    codes: &[List<MethodCode>],
) -> Result<List<ObjectPart>, NoMemory>
    requires few { length files.now ≤ most_files }
    requires beside { length codes.now ≡ length accepted.now }
    ensures { IfOk result (λ objects. objects ≡ objects_in (map named_source_of files.now) accepted.now codes.now) }
{
    let mut objects = List::new(alloc);
    for (index, file) in accepted.iter().enumerate() {
        let own = codes[index].as_slice();
        let object = object_of_codes(alloc, files, file, own)?;
        objects.push(object)?;
    }
    Ok(objects)
}
