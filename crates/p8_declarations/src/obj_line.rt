// The lines of OBJ.
ghost use Rattle.std.specs.Prelude.{◌≡◌, ◌==◌, ◌∷◌, [], ◌++◌, codes, IfOk, map, option_map};
ghost use Rattle.std.specs.List.{list_any};
ghost use Rattle.p8_tree.specs.Views.{tree_of, child_of};
ghost use Rattle.p8_lexer.specs.Pieces.{pieces_of};
ghost use Rattle.p8_declarations.specs.Parts.{left_bracket};
ghost use Rattle.p8_declarations.specs.Objects.{file_of, in_file, object_named, object, alone, objects_of_row};
ghost use Rattle.p8_declarations.specs.Views.{parts_in, child_in};

use crate::declaration_pieces::DeclarationPieces;
use crate::part::{Part, is_line_end};
use p8_lexer::{Piece, discarding};
use p8_tree::{Expr, List, ObjItem, Place, Text};
use p8_words::NoMemory;
use std::alloc::{AllocError, Global};

/// The item of a line of `OBJ`, or of what stands after `OBJ` in its line: `name : "file"` or `name[e] : "file"`, up to
/// the end of the line. The end of the line alone has no item. The file's name is as the string has it, with `.spin`
/// where it has no dot.
///
/// None where the pieces are no such line. Want of memory may come at any point. Source: Propeller Manual v1.2, "OBJ".
pub fn object(alloc: Global, pieces: Vec<Piece>) -> Result<Option<List<ObjItem>>, NoMemory>
    ensures { IfOk result (λ items. option_map (λ xs. map child_of xs) items ≡ objects_of_row (pieces_of pieces.items)) }
{
    if is_line_end(&pieces) {
        return Ok(Some(List::new(alloc)));
    }
    let mut row = DeclarationPieces::new(pieces);
    match row.object() {
        Some(item) => Ok(Some(alone(alloc, with_file_name(alloc, item)?)?)),
        None => Ok(None),
    }
}

// One item.
fn alone(alloc: Global, item: ObjItem) -> Result<List<ObjItem>, AllocError>
    ensures { IfOk result (λ xs. map child_of xs ≡ child_of item ∷ []) }
{
    let mut items = List::new(alloc);
    items.push(item)?;
    Ok(items)
}

// The item with the name of its file, where it had the string.
fn with_file_name(alloc: Global, item: ObjItem) -> Result<ObjItem, AllocError>
    ensures { IfOk result (λ x. child_of x ≡ child_in item) }
{
    let mut item = item;
    match file_name(alloc, &item.file) {
        Ok(file) => {
            item.file = file;
            Ok(item)
        }
        Err(failed) => discarding(item, Err(failed)),
    }
}

// The name of a file, by the string for it.
#[tactic(auto, unfolding(crate::specs::Objects::file_of))]
fn file_name(alloc: Global, string: &Text) -> Result<Text, AllocError>
    ensures { IfOk result (λ name. name ≡ file_of string.now) }
{
    if has_dot(string.as_slice()) {
        Ok(Text::copy_of(alloc, string.as_slice())?)
    } else {
        Ok(extended(alloc, string)?)
    }
}

// Whether there is a dot.
fn has_dot(name: &[u8]) -> bool
    ensures { result ≡ list_any (λ c. c == 46) name.now }
{
    name.iter().any(|c| *c == b'.')
}

// The name with `.spin` after it.
fn extended(alloc: Global, name: &Text) -> Result<Text, AllocError>
    ensures { IfOk result (λ t. t ≡ name.now ++ codes ".spin") }
{
    let mut bytes = name.as_slice().to_vec(alloc)?;
    bytes.extend_from_slice(b".spin")?;
    Ok(Text::from_vec(bytes))
}

impl DeclarationPieces {
    // Takes an item, with the string for its file's name.
    fn object(&mut self) -> Option<ObjItem>
        ensures { option_map child_in result ≡ object (parts_in self.old) }
    {
        match self.next()? {
            Part::Name(name, place) => self.object_named(name, place),
            other => discarding(other, None),
        }
    }

    // Takes what stands after the name.
    fn object_named(&mut self, name: Text, place: Place) -> Option<ObjItem>
        ensures { option_map child_in result ≡ object_named name place (parts_in self.old) }
    {
        match self.next()? {
            Part::Colon => self.in_file(name, place, None),
            Part::LeftBracket => self.object_counted(name, place),
            other => discarding(other, None),
        }
    }

    // Takes what stands after the bracket.
    #[tactic(auto, using(crate::proofs::Rows::no_objects, crate::proofs::Rows::no_colon))]
    fn object_counted(&mut self, name: Text, place: Place) -> Option<ObjItem>
        ensures { option_map child_in result ≡ object_named name place (left_bracket ∷ parts_in self.old) }
    {
        let count = self.count()?;
        if self.colon() {
            self.in_file(name, place, Some(count))
        } else {
            drop(count);
            None
        }
    }

    // Takes the file and the end of the line.
    #[tactic(auto, using(crate::proofs::Rows::no_file))]
    fn in_file(&mut self, name: Text, place: Place, count: Option<Expr>) -> Option<ObjItem>
        ensures { option_map child_in result ≡ in_file name place (option_map tree_of count) (parts_in self.old) }
    {
        match self.file() {
            Some((file, file_place)) => Some(ObjItem {
                place,
                name,
                count,
                file,
                file_place,
            }),
            None => discarding(count, None),
        }
    }
}
