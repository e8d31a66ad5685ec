// The bytes of data.
ghost use Rattle.std.specs.Prelude.{◌≡◌, ◌++◌, None, OnOk, map};
ghost use Rattle.p8_tree.specs.Views.{datum_of};
ghost use Rattle.p8_fold.specs.ConstantEntries.{setting_of};
ghost use Rattle.p8_dat.specs.Bytes.{in_data, spots, value_bytes, text_bytes, elements_bytes, item_bytes, items_bytes};
ghost use Rattle.p8_dat.specs.First.{told_in_elements, told_in_item, told_in_items};
ghost use Rattle.p8_dat.specs.Placing.{unplaced};

use crate::output::Output;
use crate::placing::{behind_item, size_of};
use crate::spots::{LIMIT, Spot};
use crate::values::{evaluate, number, string_of};
use p8_fold::Consts;
use p8_tree::{DatItem, first_of_two};
use std::alloc::AllocError;

// Says where data stands whose value is looked for.
fn stand_at(values: &mut Consts, at: Spot)
    ensures { setting_of values.new ≡ in_data (setting_of values.old) at }
{
    values.here(Some(at.long()));
}

// Puts elements with this value, one for each spot of a row.
fn put_values(
    out: &mut Output,
    size: u8,
    value: u32,
    count: u32,
    mut at: Spot,
) -> Result<(), AllocError>
    ensures bytes { OnOk result (out.new.bytes.items ≡ out.old.bytes.items ++ value_bytes size value (spots size count at)) }
    ensures fault { out.new.fault ≡ out.old.fault }
{
    let mut left = count;
    while left > 0 && at.offset < LIMIT {
        out.put(size, value, at)?;
        at = at.next(size);
        left -= 1;
    }
    Ok(())
}

// Puts the characters of a string, each as an element.
fn put_text(out: &mut Output, mut text: &[u8], size: u8, mut at: Spot) -> Result<(), AllocError>
    ensures bytes { OnOk result (out.new.bytes.items ≡ out.old.bytes.items ++ text_bytes size text.entry.now at) }
    ensures fault { out.new.fault ≡ out.old.fault }
{
    while let [character, rest @ ..] = text {
        out.put(size, u32::from(*character), at)?;
        at = at.next(size);
        text = rest;
    }
    Ok(())
}

// Puts an item whose value stands there as often as it is counted.
fn put_counted(
    out: &mut Output,
    item: &DatItem,
    size: u8,
    at: Spot,
    counts: &Consts,
    values: &mut Consts,
) -> Result<(), AllocError>
    ensures bytes { OnOk result (out.new.bytes.items ≡
        out.old.bytes.items ++ elements_bytes (setting_of counts.now) (unplaced (setting_of values.old)) size None (datum_of item.now).value
        (datum_of item.now).count at) }
    ensures fault { OnOk result (out.new.fault ≡ told_in_elements out.old.fault (setting_of counts.now) (unplaced (setting_of values.old)) None
        (datum_of item.now).value (datum_of item.now).count at) }
    ensures names { OnOk result (unplaced (setting_of values.new) ≡ unplaced (setting_of values.old)) }
{
    let count = number(&item.count, 1, counts);
    stand_at(values, at);
    let found = evaluate(&item.value, values);
    out.tell(first_of_two(count.fault, found.fault));
    put_values(out, size, found.value, count.value, at)
}

fn put_item(
    out: &mut Output,
    item: &DatItem,
    size: u8,
    at: Spot,
    counts: &Consts,
    values: &mut Consts,
) -> Result<(), AllocError>
    ensures bytes { OnOk result (out.new.bytes.items ≡
        out.old.bytes.items ++ item_bytes (setting_of counts.now) (unplaced (setting_of values.old)) size (datum_of item.now) at) }
    ensures fault { OnOk result (out.new.fault ≡ told_in_item out.old.fault (setting_of counts.now) (unplaced (setting_of values.old)) (datum_of item.now) at) }
    ensures names { OnOk result (unplaced (setting_of values.new) ≡ unplaced (setting_of values.old)) }
{
    let size = size_of(item, size);
    match string_of(&item.value) {
        Some(text) => put_text(out, text.as_slice(), size, at),
        None => put_counted(out, item, size, at, counts, values),
    }
}

// Puts the items of a line of data.
pub(crate) fn put_items(
    out: &mut Output,
    mut items: &[DatItem],
    size: u8,
    mut at: Spot,
    counts: &Consts,
    values: &mut Consts,
) -> Result<(), AllocError>
    ensures bytes { OnOk result (out.new.bytes.items ≡
        out.old.bytes.items ++ items_bytes (setting_of counts.now) (unplaced (setting_of values.old)) size (map datum_of items.entry.now) at) }
    ensures fault { OnOk result (out.new.fault ≡ told_in_items out.old.fault (setting_of counts.now) (unplaced (setting_of values.old)) size
        (map datum_of items.entry.now) at) }
    ensures names { OnOk result (unplaced (setting_of values.new) ≡ unplaced (setting_of values.old)) }
{
    while let [item, rest @ ..] = items {
        put_item(out, item, size, at, counts, values)?;
        at = behind_item(item, size, at, counts);
        items = rest;
    }
    Ok(())
}
