// The items of a line of data.
ghost use Rattle.std.specs.Prelude.{◌≡◌, [], ◌∷◌, ◌++◌, List, OnOk, IfOk, map, option_map};
ghost use Rattle.p8_tree.specs.Sources.{Datum};
ghost use Rattle.p8_tree.specs.Views.{datum_of, tree_of};
ghost use Rattle.p8_tree.specs.Expressions.{node, Str};
ghost use Rattle.p8_declarations.specs.Lines.{before, behind, open_bracket, counted, over, datum, all_items, items};
ghost use Rattle.p8_declarations.specs.DataViews.{part_of, rest, stage_of, Steps};

use crate::data_part::Part;
use crate::data_pieces::DataPieces;
use p8_lexer::discarding;
use p8_tree::{DatItem, Expr, ExprKind, List, Place, Text};
use p8_words::NoMemory;
use std::alloc::Global;

// How far an item of data is read.
#[derive(Drop)]
pub enum DataItemStage {
    // Its size, where it has one of its own.
    Before(Option<u8>),
    // Its value.
    Behind(Option<u8>, Expr),
    // The bracket before its count.
    OpenBracket(Option<u8>, Expr),
    // Its count.
    Counted(Option<u8>, Expr, Expr),
    // Its end: the bracket after its count, or a string, which has none.
    Over(Option<u8>, Expr, Option<Expr>),
}

// A string as a value.
fn string(text: Text, place: Place) -> Expr
    ensures { tree_of result ≡ node place (Str text) }
{
    Expr {
        place,
        kind: ExprKind::Str(text),
    }
}

// Where an item goes on from its size.
fn from_size(size: Option<u8>, part: Part) -> Option<DataItemStage>
    ensures { (read : List Datum) → Steps read (before size) (part_of part) read (option_map stage_of result) }
{
    match part {
        Part::Size(own, _) => match size {
            None => Some(DataItemStage::Before(Some(own))),
            Some(_) => None,
        },
        Part::Tree(value, _) => Some(DataItemStage::Behind(size, value)),
        Part::Text(text, place) => Some(DataItemStage::Over(size, string(text, place), None)),
        other => discarding(other, None),
    }
}

// Puts an item after those that are read.
fn put(
    read: &mut List<DatItem>,
    size: Option<u8>,
    value: Expr,
    count: Option<Expr>,
) -> Result<(), NoMemory>
    ensures { OnOk result (map datum_of read.new ≡ map datum_of read.old ++ datum size (tree_of value) (option_map tree_of count) ∷ []) }
{
    read.push(DatItem { size, value, count })?;
    Ok(())
}

// Where an item goes on from its value.
fn from_value(
    read: &mut List<DatItem>,
    size: Option<u8>,
    value: Expr,
    part: Part,
) -> Result<Option<DataItemStage>, NoMemory>
    ensures { IfOk result (λ s. Steps (map datum_of read.old) (behind size (tree_of value)) (part_of part) (map datum_of read.new) (option_map stage_of s)) }
{
    match part {
        Part::LeftBracket => Ok(Some(DataItemStage::OpenBracket(size, value))),
        other => from_end(read, size, value, None, other),
    }
}

// Where an item goes on from the bracket before its count.
fn from_open_bracket(size: Option<u8>, value: Expr, part: Part) -> Option<DataItemStage>
    ensures { (read : List Datum) → Steps read (open_bracket size (tree_of value)) (part_of part) read (option_map stage_of result) }
{
    match part {
        Part::Tree(count, _) => Some(DataItemStage::Counted(size, value, count)),
        other => discarding(other, discarding(value, None)),
    }
}

// Where an item goes on from its count.
fn from_count(size: Option<u8>, value: Expr, count: Expr, part: Part) -> Option<DataItemStage>
    ensures { (read : List Datum) → Steps read (counted size (tree_of value) (tree_of count)) (part_of part) read (option_map stage_of result) }
{
    match part {
        Part::RightBracket => Some(DataItemStage::Over(size, value, Some(count))),
        other => discarding(other, discarding(value, discarding(count, None))),
    }
}

// What stands after an item.
fn from_end(
    read: &mut List<DatItem>,
    size: Option<u8>,
    value: Expr,
    count: Option<Expr>,
    part: Part,
) -> Result<Option<DataItemStage>, NoMemory>
    ensures { IfOk result (λ s. Steps (map datum_of read.old) (over size (tree_of value) (option_map tree_of count)) (part_of part)
        (map datum_of read.new) (option_map stage_of s)) }
{
    match part {
        Part::Comma => {
            put(read, size, value, count)?;
            Ok(Some(DataItemStage::Before(None)))
        }
        other => discarding(other, discarding(value, discarding(count, Ok(None)))),
    }
}

impl DataItemStage {
    // Goes on by a part; a comma puts the item that it ends after those that are read.
    fn step(self, read: &mut List<DatItem>, part: Part) -> Result<Option<DataItemStage>, NoMemory>
        ensures { IfOk result (λ s. Steps (map datum_of read.old) (stage_of self) (part_of part) (map datum_of read.new) (option_map stage_of s)) }
    {
        match self {
            DataItemStage::Before(size) => Ok(from_size(size, part)),
            DataItemStage::Behind(size, value) => from_value(read, size, value, part),
            DataItemStage::OpenBracket(size, value) => Ok(from_open_bracket(size, value, part)),
            DataItemStage::Counted(size, value, count) => Ok(from_count(size, value, count, part)),
            DataItemStage::Over(size, value, count) => from_end(read, size, value, count, part),
        }
    }

    // The items of a line that ends here.
    fn end(self, mut read: List<DatItem>) -> Result<Option<List<DatItem>>, NoMemory>
        ensures { IfOk result (λ r. option_map (map datum_of) r ≡ items (map datum_of read) (stage_of self) []) }
    {
        match self {
            DataItemStage::Behind(size, value) => {
                put(&mut read, size, value, None)?;
                Ok(Some(read))
            }
            DataItemStage::Over(size, value, count) => {
                put(&mut read, size, value, count)?;
                Ok(Some(read))
            }
            other => discarding(other, Ok(None)),
        }
    }
}

// The items from this part on.
fn items_from(
    alloc: Global,
    first: Part,
    mut row: DataPieces,
) -> Result<Option<List<DatItem>>, NoMemory>
    ensures { IfOk result (λ r. option_map (map datum_of) r ≡ items [] (before None) (part_of first ∷ rest row)) }
{
    let mut read = List::new(alloc);
    let mut stage = DataItemStage::Before(None);
    let mut next = Some(first);
    'parts: while let Some(part) = next {
        let Some(further) = stage.step(&mut read, part)? else {
            return Ok(None);
        };
        stage = further;
        next = row.next();
    }
    stage.end(read)
}

// The items of a line of data, which may have none.
pub fn all_items(alloc: Global, mut row: DataPieces) -> Result<Option<List<DatItem>>, NoMemory>
    ensures { IfOk result (λ r. option_map (map datum_of) r ≡ all_items (rest row)) }
{
    match row.next() {
        None => Ok(Some(List::new(alloc))),
        Some(first) => items_from(alloc, first, row),
    }
}
