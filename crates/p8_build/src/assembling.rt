// Where the data of a file begin.
ghost use Rattle.std.specs.Prelude.{◌≡◌, ◌+◌, ◌*◌, IfOk};
ghost use Rattle.p8_fold.specs.ConstantEntries.{setting_of};
ghost use Rattle.p8_constants.specs.Standing.{item_of as item_tree, items_of as item_trees};
ghost use Rattle.p8_names.specs.Kinds.{object_in, objects, instances};

use p8_constants::{Item, count_value};
use p8_fold::Consts;
use p8_words::NoMemory;

/// Where a table of so many methods and instances ends: there is no memory for one that is longer than a number tells.
pub(crate) fn behind_table(methods: usize, instances: u32) -> Result<u32, NoMemory>
    ensures { IfOk result (λ start. start ≡ 4 + 4 * methods + 4 * instances) }
{
    let Ok(methods) = u32::try_from(methods) else {
        return Err(NoMemory);
    };
    match u32::try_from(4 + 4 * u64::from(methods) + 4 * u64::from(instances)) {
        Ok(start) => Ok(start),
        Err(_) => Err(NoMemory),
    }
}

/// How many instances of objects items stand for. A file has no more than 255 where nothing is wrong with its names.
pub(crate) fn instances(consts: &Consts, items: &[Item<'_>]) -> Result<u32, NoMemory>
    ensures { IfOk result (λ n. n ≡ instances (setting_of consts.now) (objects (item_trees items.now))) }
{
    let mut all: u32 = 0;
    for item in items {
        all = all
            .checked_add(instances_in(consts, *item))
            .ok_or(NoMemory)?;
    }
    Ok(all)
}

fn instances_in(consts: &Consts, item: Item<'_>) -> u32
    ensures { result ≡ instances (setting_of consts.now) (object_in (item_tree item.entry)) }
{
    match item {
        Item::Object(object) => count_value(consts, object.count.as_ref()),
        _ => 0,
    }
}
