// Which file is read next.
ghost use Rattle.std.specs.Prelude.{◌≡◌, ◌<◌, ◌≤◌, ℕ, List as list, length, Some, IfOk, IfErr, MatchResult};
ghost use Rattle.p8_tree.specs.Views.{child_of};
ghost use Rattle.p8_tree.specs.Projects.{most_files};
ghost use Rattle.p8_io.specs.Shelves.{Files};
ghost use Rattle.p8_objects.specs.declared.fault.GatherFault.{GatherFault};
ghost use Rattle.p8_objects.specs.Projects.{IsIn};
ghost use Rattle.p8_objects.specs.Outcomes.{mention_in, read_as};
ghost use Rattle.p8_objects.specs.Whole.{AreSources};
ghost use Rattle.p8_objects.specs.Mentioned.{sources_of, IsMentionFault, IsSourceFault};
ghost use Rattle.p8_objects.specs.Standing.{Stands};
ghost use Rattle.p8_objects.specs.Goings.{CallsFor, IsRefusedCall};

use crate::fault::{GatherFault, Mention, copy_of};
use crate::mentions::{first_left, number_of};
use p8_tree::{Fault, List, ObjItem, ProjectFile, Refusal, Text};
use std::alloc::Global;

/// A file that is read next.
#[derive(Drop)]
pub(crate) struct Wanted {
    pub(crate) name: Text,
    /// Where it is mentioned. The top file is mentioned nowhere.
    pub(crate) mention: Option<Mention>,
}

/// How many files a project may have.
const MOST_FILES: usize = 255;

/// The refusal of a file with this name and these bytes.
fn refused(alloc: Global, name: &Text, bytes: &Text, fault: Fault) -> GatherFault
    ensures { IsSourceFault (read_as name.now bytes.now) fault result }
{
    match copy_of(alloc, name, bytes) {
        Ok(file) => GatherFault::Source { file, fault },
        Err(_) => GatherFault::NoMemory,
    }
}

/// A file that is mentioned in the file of the name `from` with these bytes and isn't finished, if it is a new one and there is room for it.
fn asked(
    alloc: Global,
    files: &[ProjectFile],
    from: &Text,
    bytes: &Text,
    item: &ObjItem,
) -> Result<Wanted, GatherFault>
    ensures name { IfOk result (λ asked. asked.name ≡ item.now.file) }
    ensures mention { IfOk result (λ asked. asked.mention ≡ Some (mention_in (read_as from.now bytes.now) (child_of item.now))) }
    ensures new { IfOk result (λ _. ¬ IsIn (sources_of files.now) item.now.file) }
    ensures room { IfOk result (λ _. length (sources_of files.now) < most_files) }
    ensures refused { IfErr result (IsMentionFault (sources_of files.now) (read_as from.now bytes.now) (child_of item.now)) }
{
    if number_of(files, &item.file).is_some() {
        let fault = Refusal::Cycle.at(item.file_place);
        return Err(refused(alloc, from, bytes, fault));
    }
    if files.len() >= MOST_FILES {
        let fault = Refusal::TooManyObjects.at(item.place);
        return Err(refused(alloc, from, bytes, fault));
    }
    let name = Text::copy_of(alloc, item.file.as_slice())?;
    let file = copy_of(alloc, from, bytes)?;
    let mention = Mention {
        file,
        place: item.file_place,
    };
    Ok(Wanted {
        name,
        mention: Some(mention),
    })
}

/// The file that is read next after these, whose bytes stand beside them, if there is one. Those whose mentions are all finished are finished too,
/// from the last one back.
pub(crate) fn next_file(
    alloc: Global,
    files: &[ProjectFile],
    sources: &[Text],
    done: &mut List<usize>,
) -> Result<Option<Wanted>, GatherFault>
    requires stands { Stands (sources_of files.now) done.old }
    requires some { 0 < length (sources_of files.now) }
    requires beside { length sources.now ≡ length files.now }
    ensures stands { IfOk result (λ _. Stands (sources_of files.now) done.new) }
    ensures next { IfOk result
        (λ next. (shelf : Files) (top : list ℕ) → AreSources shelf (sources_of files.now) sources.now → CallsFor shelf top (sources_of files.now) done.new next) }
    ensures refused { IfErr result
        (λ f. (shelf : Files) (top : list ℕ) → AreSources shelf (sources_of files.now) sources.now → IsRefusedCall shelf top (sources_of files.now) f) }
{
    'files: for at in (0..files.len()).rev() {
        if done.as_slice().contains(&at) {
            continue;
        }
        let file = &files[at];
        match first_left(files, done.as_slice(), &file.tree) {
            Some(item) => return Ok(Some(asked(alloc, files, &file.name, &sources[at], item)?)),
            None => done.push(at)?,
        }
    }
    Ok(None)
}
