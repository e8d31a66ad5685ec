// What is told of the items of a file.
ghost use Rattle.std.specs.Prelude.{◌≡◌, ◌++◌, option_map, OnOk, IfOk};
ghost use Rattle.p8_tree.specs.Views.{contents_of, declared_of, tree_of};
ghost use Rattle.p8_constants.specs.Standing.{item_of, items_of as item_trees};
ghost use Rattle.p8_hint.specs.Rules.{hints_in, is_jump, is_one, is_return, of_contents, of_item, of_label, of_operand, of_source, of_variable};
ghost use Rattle.p8_hint.specs.Tables.{facts_of, text_now};

use crate::facts::FileFacts;
use crate::hint::{Hint, Slip};
use crate::methods::put_method;
use crate::rules::{lone_name, put_told};
use p8_constants::Item;
use p8_tree::{DatBody, Expr, ExprKind, InstrLine, Place, Text, VarItem};
use std::alloc::{AllocError, Global};

fn put_variable(
    hints: &mut Vec<Hint>,
    facts: &FileFacts,
    variable: &VarItem,
) -> Result<(), AllocError>
    ensures { OnOk result (hints.new.items ≡ hints.old.items ++ of_variable (facts_of facts.now) (declared_of variable.now)) }
{
    let used = facts.exposed || facts.times.has(variable.name.as_slice());
    put_told(hints, !used, variable.place, Slip::UnusedVariable)
}

// Whether an instruction jumps to its source operand.
fn is_jump(word: &Text) -> bool
    ensures { result ≡ is_jump word.now }
{
    let word = word.as_slice();
    word == b"JMP".as_slice()
        || word == b"DJNZ".as_slice()
        || word == b"TJNZ".as_slice()
        || word == b"TJZ".as_slice()
        || word == b"JMPRET".as_slice()
}

// Whether a label is that of a routine's return.
fn is_return(label: &Text) -> bool
    ensures { result ≡ is_return label.now }
{
    let name = label.as_slice();
    let end = name.len().saturating_sub(4);
    name.split_at(end).1 == b"_RET".as_slice()
}

fn is_one(number: Option<u64>) -> bool
    ensures { result ≡ is_one number }
{
    match number {
        None => false,
        Some(number) => number == 1,
    }
}

// A label in the place of a source operand.
fn put_label(
    hints: &mut Vec<Hint>,
    facts: &FileFacts,
    word: &Text,
    place: Place,
    label: Option<&Text>,
) -> Result<(), AllocError>
    ensures { OnOk result (hints.new.items ≡ hints.old.items ++ of_label (facts_of facts.now) word.now place (text_now label.entry)) }
{
    match label {
        None => Ok(()),
        Some(label) => {
            let on_code = is_one(facts.on_code.get(label.as_slice()));
            let told = is_jump(word) && on_code && !is_return(label);
            put_told(hints, told, place, Slip::NoNumberSignInJump)
        }
    }
}

// A source operand without `#`.
fn put_source(
    hints: &mut Vec<Hint>,
    facts: &FileFacts,
    word: &Text,
    place: Place,
    source: &Expr,
) -> Result<(), AllocError>
    ensures { OnOk result (hints.new.items ≡ hints.old.items ++ of_source (facts_of facts.now) word.now place (tree_of source.now)) }
{
    match &source.kind {
        ExprKind::Number(number) => put_told(
            hints,
            15 < *number && *number < 496,
            place,
            Slip::NoNumberSign,
        ),
        ExprKind::Var(variable) => put_label(hints, facts, word, place, lone_name(variable)),
        _ => Ok(()),
    }
}

// The source operand of an instruction.
fn put_operand(hints: &mut Vec<Hint>, facts: &FileFacts, line: &InstrLine) -> Result<(), AllocError>
    ensures { OnOk result (hints.new.items ≡ hints.old.items ++
        of_operand (facts_of facts.now) line.now.word line.now.immediate line.now.source_place (option_map tree_of line.now.source)) }
{
    if line.immediate {
        return Ok(());
    }
    match &line.source {
        None => Ok(()),
        Some(source) => put_source(hints, facts, &line.word, line.source_place, source),
    }
}

fn put_contents(hints: &mut Vec<Hint>, facts: &FileFacts, body: &DatBody) -> Result<(), AllocError>
    ensures { OnOk result (hints.new.items ≡ hints.old.items ++ of_contents (facts_of facts.now) (contents_of body.now)) }
{
    match body {
        DatBody::Instr(line) => put_operand(hints, facts, line),
        _ => Ok(()),
    }
}

fn put_item(
    alloc: Global,
    hints: &mut Vec<Hint>,
    facts: &FileFacts,
    item: Item<'_>,
) -> Result<(), AllocError>
    ensures { OnOk result (hints.new.items ≡ hints.old.items ++ of_item (facts_of facts.now) (item_of item.entry)) }
{
    match item {
        Item::Constant(_) => Ok(()),
        Item::Variable(variable) => put_variable(hints, facts, variable),
        Item::Object(_) => Ok(()),
        Item::Method(method) => put_method(alloc, hints, facts, method),
        Item::Line(line) => put_contents(hints, facts, &line.body),
    }
}

/// The hints of a file with these items, in the order of the source.
pub(crate) fn hints_in(
    alloc: Global,
    facts: &FileFacts,
    items: &[Item<'_>],
) -> Result<Vec<Hint>, AllocError>
    ensures { IfOk result (λ hints. hints.items ≡ hints_in (facts_of facts.now) (item_trees items.now)) }
{
    let mut hints = Vec::new(alloc);
    for item in items {
        put_item(alloc, &mut hints, facts, *item)?;
    }
    Ok(hints)
}
