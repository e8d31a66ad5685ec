// The mentions of a file: its items of `OBJ`.
ghost use Rattle.std.specs.Prelude.{◌≡◌, ℕ, ◌≤◌, ◌↔◌, IsTrue, map, length, MatchOption, Some, None};
ghost use Rattle.p8_tree.specs.Views.{child_of, block_of, source_of};
ghost use Rattle.p8_objects.specs.Sources.{mentions_in, mentions, most_objects};
ghost use Rattle.p8_objects.specs.Projects.{IsIn};
ghost use Rattle.p8_objects.specs.Mentioned.{sources_of, HasName, HasTooMany};
ghost use Rattle.p8_objects.specs.Standing.{IsFinished, IsFirstLeft, AreFinished, Stands};

use p8_tree::{Block, ObjItem, Place, ProjectFile, SourceFile, Text};

/// How many items of `OBJ` a file may have.
const MOST_OBJECTS: usize = 255;

/// The number of the file of this name, where it's among these.
pub(crate) fn number_of(files: &[ProjectFile], name: &Text) -> Option<usize>
    ensures { MatchOption result (¬ IsIn (sources_of files.now) name.now) (λ i. HasName (sources_of files.now) i name.now) }
{
    for (at, file) in files.iter().enumerate() {
        if file.name.is_same(name) {
            return Some(at);
        }
    }
    None
}

/// Whether the file of this name is finished.
fn is_finished(files: &[ProjectFile], done: &[usize], name: &Text) -> bool
    requires { Stands (sources_of files.now) done.now }
    ensures { IsTrue result ↔ IsFinished (sources_of files.now) done.now name.now }
{
    match number_of(files, name) {
        Some(at) => done.contains(&at),
        None => false,
    }
}

/// The first of some items whose file isn't finished.
fn first_left_of<'a>(
    files: &[ProjectFile],
    done: &[usize],
    items: &'a [ObjItem],
) -> Option<&'a ObjItem>
    requires { Stands (sources_of files.now) done.now }
    ensures { MatchOption result (AreFinished (sources_of files.now) done.now (map child_of items.now))
        (λ item. IsFirstLeft (sources_of files.now) done.now (map child_of items.now) (child_of item.now)) }
{
    for item in items {
        if !is_finished(files, done, &item.file) {
            return Some(item);
        }
    }
    None
}

/// The items of `OBJ` in a block.
fn objects_of(block: &Block) -> &[ObjItem]
    ensures { map child_of result.now ≡ mentions_in (block_of block.now) }
{
    match block {
        Block::Obj(items) => items.as_slice(),
        Block::Con(_) | Block::Var(_) | Block::Method(_) | Block::Dat(_) => &[],
    }
}

/// The first item of a file whose file isn't finished.
pub(crate) fn first_left<'a>(
    files: &[ProjectFile],
    done: &[usize],
    source: &'a SourceFile,
) -> Option<&'a ObjItem>
    requires { Stands (sources_of files.now) done.now }
    ensures { MatchOption result (AreFinished (sources_of files.now) done.now (mentions (source_of source.now)))
        (λ item. IsFirstLeft (sources_of files.now) done.now (mentions (source_of source.now)) (child_of item.now)) }
{
    for block in source.blocks.as_slice() {
        if let Some(item) = first_left_of(files, done, objects_of(block)) {
            return Some(item);
        }
    }
    None
}

/// Where the first item of `OBJ` too many stands, if there is one.
pub(crate) fn item_too_many(source: &SourceFile) -> Option<Place>
    ensures { MatchOption result (length (mentions (source_of source.now)) ≤ most_objects) (HasTooMany (source_of source.now)) }
{
    let mut left = MOST_OBJECTS;
    for block in source.blocks.as_slice() {
        let items = objects_of(block);
        match items.get(left) {
            Some(item) => return Some(item.place),
            None => left -= items.len(),
        }
    }
    None
}
