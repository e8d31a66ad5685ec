// Where lines stand: a walk that needs no values but those of ORG and RES and of counts.
ghost use Rattle.std.specs.Prelude.{◌≡◌, ◌++◌, map, option_map, OnOk, IfOk};
ghost use Rattle.p8_tree.specs.Views.{tree_of, line_of, contents_of, datum_of};
ghost use Rattle.p8_fold.specs.ConstantEntries.{setting_of};
ghost use Rattle.p8_dat.specs.Spots.{elements, string, size_of, behind_item, behind_items, begun, ended, placed, behind_lines};
ghost use Rattle.p8_dat.specs.Placing.{placed_of};

use crate::spots::{Spot, stopped};
use crate::values::{number, string_of};
use p8_fold::Consts;
use p8_tree::{DatBody, DatItem, DatLine};
use std::alloc::AllocError;

// A line, where the line before it ends, and where its own contents begin.
#[derive(Clone, Copy)]
pub(crate) struct Placed<'a> {
    pub(crate) line: &'a DatLine,
    pub(crate) from: Spot,
    pub(crate) at: Spot,
}

// How many elements an item has.
fn elements(item: &DatItem, counts: &Consts) -> u64
    ensures { result ≡ elements (setting_of counts.now) (string (tree_of item.now.value)) (option_map tree_of item.now.count) }
{
    match string_of(&item.value) {
        Some(text) => text.len() as u64,
        None => u64::from(number(&item.count, 1, counts).value),
    }
}

// The size of an item's elements.
pub(crate) fn size_of(item: &DatItem, size: u8) -> u8
    ensures { result ≡ size_of size (datum_of item.now) }
{
    item.size.unwrap_or(size)
}

pub(crate) fn behind_item(item: &DatItem, size: u8, at: Spot, counts: &Consts) -> Spot
    ensures { result ≡ behind_item (setting_of counts.now) size (datum_of item.now) at }
{
    at.behind(elements(item, counts), size_of(item, size))
}

fn behind_items(mut items: &[DatItem], size: u8, mut at: Spot, counts: &Consts) -> Spot
    ensures { result ≡ behind_items (setting_of counts.now) size (map datum_of items.entry.now) at }
{
    while let [item, rest @ ..] = items {
        at = behind_item(item, size, at, counts);
        items = rest;
    }
    at
}

// Where the contents of a line begin.
fn begun(body: &DatBody, from: Spot, counts: &Consts) -> Spot
    ensures { result ≡ begun (setting_of counts.now) (contents_of body.now) from }
{
    match body {
        DatBody::Data(size, _) => from.aligned(*size),
        DatBody::Instr(_) => from.aligned(4),
        DatBody::Org(value) => Spot {
            offset: from.aligned(4).offset,
            cog: stopped(4 * u64::from(number(value, 0, counts).value)),
        },
        DatBody::Nothing | DatBody::Res(_) | DatBody::Fit(_) => from.aligned(1),
    }
}

// Where the contents of a line end.
fn ended(body: &DatBody, at: Spot, counts: &Consts) -> Spot
    ensures { result ≡ ended (setting_of counts.now) (contents_of body.now) at }
{
    match body {
        DatBody::Data(size, items) => behind_items(items.as_slice(), *size, at, counts),
        DatBody::Instr(_) => at.next(4),
        DatBody::Res(value) => Spot {
            offset: at.offset,
            cog: stopped(u64::from(at.cog) + 4 * u64::from(number(value, 1, counts).value)),
        },
        DatBody::Nothing | DatBody::Org(_) | DatBody::Fit(_) => at,
    }
}

// Places lines from a spot on, and gives the spot after them.
pub(crate) fn place_lines<'a>(
    mut lines: &'a [DatLine],
    mut from: Spot,
    counts: &Consts,
    places: &mut Vec<Placed<'a>>,
) -> Result<Spot, AllocError>
    ensures placed { OnOk result (map placed_of places.new.items ≡
        map placed_of places.old.items ++ placed (setting_of counts.now) (map line_of lines.entry.now) from) }
    ensures behind { IfOk result (λ p. p ≡ behind_lines (setting_of counts.now) (map line_of lines.entry.now) from) }
{
    while let [line, rest @ ..] = lines {
        let at = begun(&line.body, from, counts);
        places.push(Placed { line, from, at })?;
        from = ended(&line.body, at, counts);
        lines = rest;
    }
    Ok(from)
}
