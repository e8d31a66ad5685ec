// Instructions.
ghost use Rattle.std.specs.Prelude.{◌≡◌, ◌∷◌, IfOk, option_map};
ghost use Rattle.p8_tree.specs.Views.{tree_of, instruction_of};
ghost use Rattle.p8_declarations.specs.Lines.{local, label, bare, direct, immediate, effects, behind_hash, source, behind_destination, operands};
ghost use Rattle.p8_declarations.specs.DataViews.{part_of, rest, from, Affects};

use crate::data_part::Part;
use crate::data_pieces::DataPieces;
use p8_lexer::{Word, discarding};
use p8_tree::{Expr, ExprKind, InstrLine, Place, Target, Text};
use p8_words::NoMemory;
use std::alloc::Global;

// The name of a local label, `:` and its letters.
pub fn local(alloc: Global, name: &Text) -> Result<Text, NoMemory>
    ensures { IfOk result (λ t. t ≡ local name.now) }
{
    let mut bytes = Vec::new(alloc);
    bytes.extend_from_slice(b":")?;
    bytes.extend_from_slice(name.as_slice())?;
    Ok(Text::from_vec(bytes))
}

// A label as an expression.
fn label(name: Text, place: Place) -> Expr
    ensures { tree_of result ≡ label name place }
{
    Expr {
        place,
        kind: ExprKind::Var(Target::Named(name, None, place)),
    }
}

// An instruction with no operand and no effect.
#[tactic(auto, unfolding(crate::specs::Lines::bare))]
pub fn bare(alloc: Global, cond: u8, word: Word, place: Place) -> Result<InstrLine, NoMemory>
    ensures { IfOk result (λ i. instruction_of i ≡ bare cond word place) }
{
    Ok(InstrLine {
        cond,
        word: Text::copy_of(alloc, word.spelling().as_bytes())?,
        dest: None,
        dest_place: place,
        immediate: false,
        source: None,
        source_place: place,
        effects: 0,
    })
}

// The instruction with one effect more.
fn with_effect(mut instr: InstrLine, part: Part) -> Option<InstrLine>
    ensures { Affects (instruction_of instr) (part_of part) (option_map instruction_of result) }
{
    match part {
        Part::Effect(bit) => {
            instr.effects |= bit;
            Some(instr)
        }
        Part::Comma => Some(instr),
        other => discarding(other, discarding(instr, None)),
    }
}

// The instruction with the effects from this part on.
fn with_effects(mut instr: InstrLine, first: Option<Part>, mut row: DataPieces) -> Option<InstrLine>
    ensures { option_map instruction_of result ≡ effects (instruction_of instr) (from first row) }
{
    let mut next = first;
    'parts: while let Some(part) = next {
        instr = with_effect(instr, part)?;
        next = row.next();
    }
    Some(instr)
}

// The instruction with a source after `#`, and the effects after that.
fn with_immediate(
    mut instr: InstrLine,
    value: Expr,
    place: Place,
    mut row: DataPieces,
) -> Option<InstrLine>
    ensures { option_map instruction_of result ≡ effects (immediate (instruction_of instr) (tree_of value) place) (rest row) }
{
    instr.immediate = true;
    drop(instr.source.replace(value));
    instr.source_place = place;
    let next = row.next();
    with_effects(instr, next, row)
}

// The instruction with the local label of this name after `#`.
fn with_local_name(
    alloc: Global,
    instr: InstrLine,
    name: &Text,
    place: Place,
    row: DataPieces,
) -> Result<Option<InstrLine>, NoMemory>
    ensures { IfOk result (λ r. option_map instruction_of r ≡ effects (immediate (instruction_of instr) (label (local name.now) place) place) (rest row)) }
{
    match local(alloc, name) {
        Ok(name) => Ok(with_immediate(instr, label(name, place), place, row)),
        Err(failed) => discarding(instr, Err(failed)),
    }
}

// The instruction with a local label after `#:`.
fn with_local_label(
    alloc: Global,
    instr: InstrLine,
    place: Place,
    mut row: DataPieces,
) -> Result<Option<InstrLine>, NoMemory>
    ensures { IfOk result (λ r. option_map instruction_of r ≡ behind_hash (instruction_of instr) (part_of (Part.Colon place) ∷ rest row)) }
{
    let Some(part) = row.next() else {
        drop(instr);
        return Ok(None);
    };
    match part {
        Part::Label(name, _) => with_local_name(alloc, instr, &name, place, row),
        other => discarding(other, discarding(instr, Ok(None))),
    }
}

// The instruction with what stands after `#`.
fn behind_hash(
    alloc: Global,
    instr: InstrLine,
    mut row: DataPieces,
) -> Result<Option<InstrLine>, NoMemory>
    ensures { IfOk result (λ r. option_map instruction_of r ≡ behind_hash (instruction_of instr) (rest row)) }
{
    let Some(part) = row.next() else {
        drop(instr);
        return Ok(None);
    };
    match part {
        Part::Tree(value, place) => Ok(with_immediate(instr, value, place, row)),
        Part::Name(name, place) => Ok(with_immediate(instr, label(name, place), place, row)),
        Part::Colon(place) => with_local_label(alloc, instr, place, row),
        other => discarding(other, discarding(instr, Ok(None))),
    }
}

// The instruction with a source that has no `#`, and the effects after it.
fn with_direct(
    mut instr: InstrLine,
    value: Expr,
    place: Place,
    mut row: DataPieces,
) -> Option<InstrLine>
    ensures { option_map instruction_of result ≡ effects (direct (instruction_of instr) (tree_of value) place) (rest row) }
{
    drop(instr.source.replace(value));
    instr.source_place = place;
    let next = row.next();
    with_effects(instr, next, row)
}

// The instruction with a source, if this part begins one, and with effects.
fn source_from(
    alloc: Global,
    instr: InstrLine,
    first: Part,
    row: DataPieces,
) -> Result<Option<InstrLine>, NoMemory>
    ensures { IfOk result (λ r. option_map instruction_of r ≡ source (instruction_of instr) (part_of first ∷ rest row)) }
{
    match first {
        Part::Hash => behind_hash(alloc, instr, row),
        Part::Tree(value, place) => Ok(with_direct(instr, value, place, row)),
        other => Ok(with_effects(instr, Some(other), row)),
    }
}

// The instruction with a source, if there is one, and with effects.
pub fn source(
    alloc: Global,
    instr: InstrLine,
    mut row: DataPieces,
) -> Result<Option<InstrLine>, NoMemory>
    ensures { IfOk result (λ r. option_map instruction_of r ≡ source (instruction_of instr) (rest row)) }
{
    match row.next() {
        None => Ok(Some(instr)),
        Some(first) => source_from(alloc, instr, first, row),
    }
}

// The instruction, whose destination is read, with the rest.
fn behind_destination(
    alloc: Global,
    instr: InstrLine,
    mut row: DataPieces,
) -> Result<Option<InstrLine>, NoMemory>
    ensures { IfOk result (λ r. option_map instruction_of r ≡ behind_destination (instruction_of instr) (rest row)) }
{
    let Some(first) = row.next() else {
        return Ok(Some(instr));
    };
    match first {
        Part::Comma => source(alloc, instr, row),
        other => Ok(with_effects(instr, Some(other), row)),
    }
}

// The instruction with all of its operands, if this part begins one, and with effects.
fn operands_from(
    alloc: Global,
    mut instr: InstrLine,
    first: Part,
    row: DataPieces,
) -> Result<Option<InstrLine>, NoMemory>
    ensures { IfOk result (λ r. option_map instruction_of r ≡ operands (instruction_of instr) (part_of first ∷ rest row)) }
{
    match first {
        Part::Tree(value, place) => {
            drop(instr.dest.replace(value));
            instr.dest_place = place;
            behind_destination(alloc, instr, row)
        }
        other => source_from(alloc, instr, other, row),
    }
}

// The instruction, any but JMP, with its operands and effects.
pub fn operands(
    alloc: Global,
    instr: InstrLine,
    mut row: DataPieces,
) -> Result<Option<InstrLine>, NoMemory>
    ensures { IfOk result (λ r. option_map instruction_of r ≡ operands (instruction_of instr) (rest row)) }
{
    match row.next() {
        None => Ok(Some(instr)),
        Some(first) => operands_from(alloc, instr, first, row),
    }
}
