// The sizes of labels.
ghost use Rattle.std.specs.Prelude.{◌≡◌, ℕ, ◌<◌, length, slice_index, drop, map, IfOk};
ghost use Rattle.p8_tree.specs.Views.{contents_of, datum_of};
ghost use Rattle.p8_tree.specs.Sources.{Data};
ghost use Rattle.p8_constants.specs.Standing.{item_of, items_of};
ghost use Rattle.p8_names.specs.Kinds.{element_size, element_in, or_size, label_size};

use p8_constants::Item;
use p8_tree::{DatBody, DatItem};
use std::alloc::{AllocError, Global};

/// The size of a label without an element after it.
const LONG: u8 = 4;

// The size of the first datum of a line.
fn data_size(size: u8, items: &[DatItem]) -> Option<u8>
    ensures { result ≡ element_size (Data size (map datum_of items.now)) }
{
    match items {
        [] => None,
        [first, ..] => match first.size {
            Some(own) => Some(own),
            None => Some(size),
        },
    }
}

// The size of the first element of a line.
fn element_size(body: &DatBody) -> Option<u8>
    ensures { result ≡ element_size (contents_of body.now) }
{
    match body {
        DatBody::Data(size, items) => data_size(*size, items.as_slice()),
        DatBody::Res(_) | DatBody::Instr(_) => Some(LONG),
        DatBody::Nothing | DatBody::Org(_) | DatBody::Fit(_) => None,
    }
}

fn element_in(item: Item<'_>) -> Option<u8>
    ensures { result ≡ element_in (item_of item.entry) }
{
    match item {
        Item::Line(line) => element_size(&line.body),
        _ => None,
    }
}

fn or_size(own: Option<u8>, size: u8) -> u8
    ensures { result ≡ or_size own size }
{
    match own {
        Some(own) => own,
        None => size,
    }
}

/// The size that a label at each item would have: that of the first element from there on.
pub(crate) fn label_sizes(alloc: Global, items: &[Item<'_>]) -> Result<Vec<u8>, AllocError>
    ensures all { IfOk result (λ sizes. length sizes.items ≡ length items.now) }
    ensures each { IfOk result (λ sizes. (k : ℕ) → k < length items.now → slice_index sizes.items k ≡ label_size (items_of (drop k items.now))) }
{
    let mut sizes = vec![in alloc; LONG; items.len()]?;
    let mut size = LONG;
    for at in (0..items.len()).rev() {
        size = or_size(element_in(items[at]), size);
        sizes[at] = size;
    }
    Ok(sizes)
}
