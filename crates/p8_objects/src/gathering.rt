// Gathering a project.
ghost use Rattle.std.specs.Prelude.{◌≡◌, ◌≤◌, length, IfOk};
ghost use Rattle.p8_tree.specs.Proper.{IsProperFile};
ghost use Rattle.p8_tree.specs.Views.{named_sources_of};
ghost use Rattle.p8_tree.specs.Projects.{most_files};
ghost use Rattle.p8_objects.specs.Orders.{AreAllRead, ReadsInOrder};
ghost use Rattle.p8_objects.specs.Outcomes.{shelved, Answers};
ghost use Rattle.p8_objects.specs.Whole.{IsFirstFile, AreDistinct, HaveMentioned, HaveNoRing, AreReadFrom, AreSources, EachTree};

use crate::fault::GatherFault;
use crate::gathered::Gathered;
use crate::next::{Wanted, next_file};
use crate::source::read_file;
use p8_io::Shelf;
use p8_tree::{List, Project, Text};
use std::alloc::Global;

/// Gathers the files of the project whose top file has this name, each with its tree and its bytes, from a shelf.
///
/// The top file is the first. A file that an item of `OBJ` mentions comes before the next item is looked at, unless it
/// is among the files already: so the files come depth first, in the order of their first mention, and none is read
/// twice. Names of files are compared byte by byte. Where the shelf tells what is read of it, those are the files of the project, each once
/// and in their order; at an error a beginning of them.
///
/// # Errors
///
/// What comes first in that order:
///
/// - `Missing` where the shelf lacks a file, or where a file's name isn't UTF-8, with the place where the file is mentioned; of a shelf that doesn't
///   tell its files the count of faults rose then. `ShelfFault` where a file could not be read: the shelf's count of faults rose.
/// - `Source` with 30 for a file of more than 1,048,576 bytes, else with 1 to 5, else with 6 to 11, each where `lex`
///   and `parse` have it; else with 20 at the 256th item of `OBJ` of a file.
/// - `Source`, in the file with the mention, with 20 at the item whose file would be the project's 256th, and with 19
///   at the string of a file that is being gathered, that is, of one whose mentions lead back to that item.
///
/// The file that is refused, and the one that mentions a missing one, come with their bytes as they were read.
///
/// `NoMemory` may come at any point. A shelf that tells its files has one outcome, but for its faults
/// ([`one_outcome`](crate::one_outcome)).
pub fn gather<S: Shelf>(alloc: Global, shelf: &mut S, top: &str) -> Result<Gathered, GatherFault>
    ensures answers { Answers (shelved (S.files shelf.old) (S.faults shelf.old) (S.faults shelf.new)) top.now result }
    ensures first { IfOk result (λ gathered. IsFirstFile top.now (named_sources_of gathered.project)) }
    ensures distinct { IfOk result (λ gathered. AreDistinct (named_sources_of gathered.project)) }
    ensures mentioned { IfOk result (λ gathered. HaveMentioned (named_sources_of gathered.project)) }
    ensures no_ring { IfOk result (λ gathered. HaveNoRing (named_sources_of gathered.project)) }
    ensures few { IfOk result (λ gathered. length (named_sources_of gathered.project) ≤ most_files) }
    ensures read { IfOk result (λ gathered. AreReadFrom (S.files shelf.old) (named_sources_of gathered.project)) }
    ensures proper { IfOk result (λ gathered. EachTree IsProperFile (named_sources_of gathered.project)) }
    ensures sources { IfOk result (λ gathered. AreSources (S.files shelf.old) (named_sources_of gathered.project) gathered.sources) }
    ensures all_read { IfOk result (λ gathered. AreAllRead (named_sources_of gathered.project) (S.log shelf.old) (S.log shelf.new)) }
    ensures in_order { ReadsInOrder (S.files shelf.old) top.now (S.log shelf.old) (S.log shelf.new) }
    ensures later { S.faults shelf.old ≤ S.faults shelf.new }
    ensures kept { S.files shelf.new ≡ S.files shelf.old }
{
    let mut files = List::new(alloc);
    let mut sources = List::new(alloc);
    let mut done = List::new(alloc);
    let mut asked = Some(Wanted {
        name: Text::copy_of(alloc, top.as_bytes())?,
        mention: None,
    });
    'files: while let Some(next) = asked {
        files.push(read_file(alloc, shelf, next, &mut sources)?)?;
        asked = next_file(alloc, files.as_slice(), sources.as_slice(), &mut done)?;
    }
    Ok(Gathered {
        project: Project { files },
        sources,
    })
}
