// The labels of a file's DAT: at which of them instructions stand.
ghost use Rattle.std.specs.Prelude.{◌≡◌, ℕ, List, OnOk, IfOk};
ghost use Rattle.p8_tree.specs.Views.{contents_of};
ghost use Rattle.p8_constants.specs.Standing.{item_of, items_of as item_trees};
ghost use Rattle.p8_hint.specs.Rules.{after};
ghost use Rattle.p8_hint.specs.FileFacts.{and_code, code_at, has_code, has_label, on_code_in, or_behind};
ghost use Rattle.p8_hint.specs.Tables.{number_in};

use crate::table::Table;
use p8_constants::Item;
use p8_tree::DatBody;
use std::alloc::{AllocError, Global};

// Whether a line has an instruction; nothing is known of one that has nothing.
fn has_code(body: &DatBody) -> Option<bool>
    ensures { result ≡ has_code (contents_of body.now) }
{
    match body {
        DatBody::Nothing => None,
        DatBody::Instr(_) => Some(true),
        DatBody::Data(_, _) => Some(false),
        DatBody::Org(_) => Some(false),
        DatBody::Res(_) => Some(false),
        DatBody::Fit(_) => Some(false),
    }
}

fn code_at(item: Item<'_>) -> Option<bool>
    ensures { result ≡ code_at (item_of item.entry) }
{
    match item {
        Item::Line(line) => has_code(&line.body),
        _ => None,
    }
}

fn or_behind(own: Option<bool>, behind: bool) -> bool
    ensures { result ≡ or_behind own behind }
{
    match own {
        Some(own) => own,
        None => behind,
    }
}

// Marks the label of an item, where it has one.
fn mark_label(table: &mut Table, item: Item<'_>, is_code: bool) -> Result<(), AllocError>
    ensures { OnOk result ((name : List ℕ) → number_in table.new name ≡
        after (has_label name (item_of item.entry)) (and_code is_code) (number_in table.old name)) }
{
    match item {
        Item::Line(line) => match &line.label {
            None => Ok(()),
            Some(label) => table.mark(label.as_slice(), is_code),
        },
        _ => Ok(()),
    }
}

/// Each label with 1 where an instruction stands at all labels of its name, and else with 0.
pub(crate) fn labels_of(alloc: Global, items: &[Item<'_>]) -> Result<Table, AllocError>
    ensures { IfOk result (λ table. (name : List ℕ) → number_in table name ≡ on_code_in (item_trees items.now) name) }
{
    let mut table = Table::new(alloc);
    let mut is_code = false;
    for at in (0..items.len()).rev() {
        let item = items[at];
        is_code = or_behind(code_at(item), is_code);
        mark_label(&mut table, item, is_code)?;
    }
    Ok(table)
}
