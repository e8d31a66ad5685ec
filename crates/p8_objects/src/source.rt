// Reading one file of a shelf.
ghost use Rattle.std.specs.Prelude.{◌≡◌, ◌≤◌, ◌∷◌, [], IfOk, IfErr};
ghost use Rattle.p8_io.specs.Shelves.{WereRead};
ghost use Rattle.p8_tree.specs.Views.{source_of};
ghost use Rattle.p8_tree.specs.Proper.{IsProperFile};
ghost use Rattle.p8_tree.specs.Faults.{IfRefused};
ghost use Rattle.p8_objects.specs.Sources.{IsSource, IsRefused};
ghost use Rattle.p8_objects.specs.Outcomes.{shelved};
ghost use Rattle.p8_objects.specs.Reading.{AreKept, IsRead, IsFileOf, IsFileFault, MayBeRead};

use crate::fault::{GatherFault, ReadFile};
use crate::mentions::item_too_many;
use crate::next::Wanted;
use p8_blocks::{parse, tokens_are_proper};
use p8_io::{Shelf, ShelfError};
use p8_lexer::lex;
use p8_tree::{Fault, List, ProjectFile, Refusal, SourceFile, Text};
use p8_words::Fail;
use std::alloc::Global;

/// The bytes of the file of this name. A name that isn't UTF-8 is that of no file.
fn read_bytes<S: Shelf>(alloc: Global, shelf: &mut S, name: &Text) -> Result<Vec<u8>, ShelfError>
    ensures bytes { IsRead (shelved (S.files shelf.old) (S.faults shelf.old) (S.faults shelf.new)) name.now result }
    ensures one { MayBeRead name.now (S.log shelf.old) (S.log shelf.new) }
    ensures logged { IfOk result (λ _. WereRead (S.log shelf.old) (S.log shelf.new) (name.now ∷ [])) }
    ensures later { S.faults shelf.old ≤ S.faults shelf.new }
    ensures kept { S.files shelf.new ≡ S.files shelf.old }
{
    match str::from_utf8(name.as_slice()) {
        Ok(name) => shelf.read(alloc, name),
        Err(_) => Err(ShelfError::Missing),
    }
}

/// The tree of a source, or its first refusal by itself.
fn read_source(alloc: Global, bytes: &[u8]) -> Result<SourceFile, Fail<Fault>>
    ensures source { IfOk result (λ file. IsSource bytes.now (source_of file)) }
    ensures proper { IfOk result (λ file. IsProperFile (source_of file)) }
    ensures refused { IfErr result (IfRefused (IsRefused bytes.now)) }
{
    let tokens = lex(alloc, bytes)?;
    tokens_are_proper();
    let file = parse(alloc, bytes, &tokens)?;
    match item_too_many(&file) {
        Some(place) => {
            drop(file);
            Err(Fail::Refused(Refusal::TooManyObjects.at(place)))
        }
        None => Ok(file),
    }
}

/// The file that is asked for, with its tree. Its bytes are put behind those of other files.
pub(crate) fn read_file<S: Shelf>(
    alloc: Global,
    shelf: &mut S,
    asked: Wanted,
    sources: &mut List<Text>,
) -> Result<ProjectFile, GatherFault>
    ensures file { IfOk result (IsFileOf (shelved (S.files shelf.old) (S.faults shelf.old) (S.faults shelf.new)) asked.name) }
    ensures source { IfOk result (λ file. AreKept (S.files shelf.old) asked.name (source_of file.tree) sources.old sources.new) }
    ensures fault { IfErr result (IsFileFault (shelved (S.files shelf.old) (S.faults shelf.old) (S.faults shelf.new)) asked) }
    ensures one { MayBeRead asked.name (S.log shelf.old) (S.log shelf.new) }
    ensures logged { IfOk result (λ _. WereRead (S.log shelf.old) (S.log shelf.new) (asked.name ∷ [])) }
    ensures later { S.faults shelf.old ≤ S.faults shelf.new }
    ensures kept { S.files shelf.new ≡ S.files shelf.old }
{
    let Wanted { name, mention } = asked;
    let bytes = match read_bytes(alloc, shelf, &name) {
        Ok(bytes) => bytes,
        Err(ShelfError::Missing) => {
            return Err(GatherFault::Missing {
                file: name,
                mention,
            });
        }
        Err(ShelfError::Failed) => return Err(GatherFault::ShelfFault { file: name }),
        Err(ShelfError::NoMemory) => return Err(GatherFault::NoMemory),
    };
    match read_source(alloc, &bytes) {
        Ok(tree) => {
            sources.push(Text::from_vec(bytes))?;
            Ok(ProjectFile { name, tree })
        }
        Err(Fail::Refused(fault)) => {
            let bytes = Text::from_vec(bytes);
            let file = ReadFile { name, bytes };
            Err(GatherFault::Source { file, fault })
        }
        Err(Fail::NoMemory) => Err(GatherFault::NoMemory),
    }
}
