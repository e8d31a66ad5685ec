// Lines of DAT.
ghost use Rattle.std.specs.Prelude.{◌≡◌, ◌∷◌, None, IfOk, option_map};
ghost use Rattle.p8_tree.specs.Views.{tree_of, contents_of, line_of};
ghost use Rattle.p8_lexer.specs.Pieces.{pieces_of};
ghost use Rattle.p8_declarations.specs.Lines.{value, filled, instruction, body, blank, line, line_of_row};
ghost use Rattle.p8_declarations.specs.Rows.{outcome_of};
ghost use Rattle.p8_declarations.specs.DataViews.{part_of, rest, begun};

use crate::data_part::{Part, place_of};
use crate::data_pieces::DataPieces;
use crate::instructions::{bare, local, operands, source};
use crate::items::all_items;
use p8_lexer::{Piece, Word, discarding};
use p8_tree::{DatBody, DatLine, Expr, Place, Text};
use p8_words::NoMemory;
use std::alloc::Global;

/// What a row of pieces is to `DAT`.
#[derive(Drop)]
pub enum DatRow {
    /// The line's end alone: no line.
    Empty,
    /// A line.
    Line(DatLine),
    /// No row of `DAT`.
    Unknown,
}

// The value of ORG, RES or FIT, which may have none.
fn value(mut row: DataPieces) -> Option<Option<Expr>>
    ensures { option_map (option_map tree_of) result ≡ value (rest row) }
{
    let Some(part) = row.next() else {
        return Some(None);
    };
    match part {
        Part::Tree(tree, _) => match row.next() {
            None => Some(Some(tree)),
            Some(other) => discarding(other, discarding(tree, None)),
        },
        other => discarding(other, None),
    }
}

// Where a line begins, and its label.
#[derive(Drop)]
pub struct DataLineHead {
    place: Place,
    label: Option<Text>,
}

impl DataLineHead {
    fn new(place: Place, label: Option<Text>) -> DataLineHead
        ensures { begun result ≡ blank place label }
    {
        DataLineHead { place, label }
    }

    // The line with nothing after its label.
    fn alone(self) -> DatLine
        ensures { line_of result ≡ begun self }
    {
        let place = self.place;
        self.with(place, DatBody::Nothing)
    }

    // The line with these contents, whose word stands here.
    fn with(self, word_place: Place, body: DatBody) -> DatLine
        ensures { line_of result ≡ filled (begun self) word_place (contents_of body) }
    {
        DatLine {
            place: self.place,
            label: self.label,
            word_place,
            body,
        }
    }
}

// The line as one of data.
fn with_data(
    alloc: Global,
    head: DataLineHead,
    size: u8,
    place: Place,
    row: DataPieces,
) -> Result<Option<DatLine>, NoMemory>
    ensures { IfOk result (λ r. option_map line_of r ≡ body (begun head) (part_of (Part.Size size place) ∷ rest row)) }
{
    let Some(items) = all_items(alloc, row)? else {
        return Ok(None);
    };
    Ok(Some(head.with(place, DatBody::Data(size, items))))
}

// The line as one of JMP.
fn with_jump(
    alloc: Global,
    head: DataLineHead,
    cond: u8,
    place: Place,
    row: DataPieces,
) -> Result<Option<DatLine>, NoMemory>
    ensures { IfOk result (λ r. option_map line_of r ≡ instruction cond (begun head) (part_of (Part.Jump place) ∷ rest row)) }
{
    let jump = bare(alloc, cond, Word::Jmp, place)?;
    let Some(instr) = source(alloc, jump, row)? else {
        return Ok(None);
    };
    Ok(Some(head.with(place, DatBody::Instr(instr))))
}

// The line as one of another instruction.
fn with_word(
    alloc: Global,
    head: DataLineHead,
    cond: u8,
    word: Word,
    place: Place,
    row: DataPieces,
) -> Result<Option<DatLine>, NoMemory>
    ensures { IfOk result (λ r. option_map line_of r ≡ instruction cond (begun head) (part_of (Part.Other word place) ∷ rest row)) }
{
    let begun = bare(alloc, cond, word, place)?;
    let Some(instr) = operands(alloc, begun, row)? else {
        return Ok(None);
    };
    Ok(Some(head.with(place, DatBody::Instr(instr))))
}

// The line as an instruction under a condition, from the instruction's word on.
fn with_instruction(
    alloc: Global,
    head: DataLineHead,
    cond: u8,
    first: Part,
    row: DataPieces,
) -> Result<Option<DatLine>, NoMemory>
    ensures { IfOk result (λ r. option_map line_of r ≡ instruction cond (begun head) (part_of first ∷ rest row)) }
{
    match first {
        Part::Jump(place) => with_jump(alloc, head, cond, place, row),
        Part::Other(word, place) => with_word(alloc, head, cond, word, place, row),
        other => discarding(other, discarding(head, Ok(None))),
    }
}

// The line as an instruction, from after its condition on.
fn with_condition(
    alloc: Global,
    head: DataLineHead,
    cond: u8,
    mut row: DataPieces,
) -> Result<Option<DatLine>, NoMemory>
    ensures { IfOk result (λ r. option_map line_of r ≡ instruction cond (begun head) (rest row)) }
{
    match row.next() {
        None => discarding(head, Ok(None)),
        Some(first) => with_instruction(alloc, head, cond, first, row),
    }
}

// The line with what stands after its label, from this part on.
fn body_from(
    alloc: Global,
    head: DataLineHead,
    first: Part,
    row: DataPieces,
) -> Result<Option<DatLine>, NoMemory>
    ensures { IfOk result (λ r. option_map line_of r ≡ body (begun head) (part_of first ∷ rest row)) }
{
    match first {
        Part::Size(size, place) => with_data(alloc, head, size, place, row),
        Part::Org(place) => Ok(value(row).map(|v| head.with(place, DatBody::Org(v)))),
        Part::Res(place) => Ok(value(row).map(|v| head.with(place, DatBody::Res(v)))),
        Part::Fit(place) => Ok(value(row).map(|v| head.with(place, DatBody::Fit(v)))),
        Part::Condition(cond) => with_condition(alloc, head, cond, row),
        other => with_instruction(alloc, head, 15, other, row),
    }
}

// The line with what stands after its label.
fn body(alloc: Global, head: DataLineHead, mut row: DataPieces) -> Result<Option<DatLine>, NoMemory>
    ensures { IfOk result (λ r. option_map line_of r ≡ body (begun head) (rest row)) }
{
    match row.next() {
        None => Ok(Some(head.alone())),
        Some(first) => body_from(alloc, head, first, row),
    }
}

// The line that begins with a local label, from after its colon on.
fn local_line(
    alloc: Global,
    place: Place,
    colon: Place,
    mut row: DataPieces,
) -> Result<Option<DatLine>, NoMemory>
    ensures { IfOk result (λ r. option_map line_of r ≡ line place (part_of (Part.Colon colon) ∷ rest row)) }
{
    let Some(part) = row.next() else {
        return Ok(None);
    };
    match part {
        Part::Label(name, _) => {
            let label = local(alloc, &name)?;
            body(alloc, DataLineHead::new(place, Some(label)), row)
        }
        other => discarding(other, Ok(None)),
    }
}

// The line that begins with this part.
fn line_from(
    alloc: Global,
    place: Place,
    first: Part,
    row: DataPieces,
) -> Result<Option<DatLine>, NoMemory>
    ensures { IfOk result (λ r. option_map line_of r ≡ line place (part_of first ∷ rest row)) }
{
    match first {
        Part::Name(name, _) => body(alloc, DataLineHead::new(place, Some(name)), row),
        Part::Colon(colon) => local_line(alloc, place, colon, row),
        other => body_from(alloc, DataLineHead::new(place, None), other, row),
    }
}

/// Turns a row of pieces, which ends with its line's end, into the line of `DAT` that it is.
pub fn dat_line(alloc: Global, pieces: Vec<Piece>) -> Result<DatRow, NoMemory>
    ensures { IfOk result (λ r. outcome_of r ≡ line_of_row (pieces_of pieces.items)) }
{
    let Some(first) = pieces.first() else {
        return Ok(DatRow::Unknown);
    };
    let place = place_of(first);
    let mut row = DataPieces::new(pieces);
    let Some(part) = row.next() else {
        return Ok(DatRow::Empty);
    };
    match line_from(alloc, place, part, row)? {
        Some(line) => Ok(DatRow::Line(line)),
        None => Ok(DatRow::Unknown),
    }
}
