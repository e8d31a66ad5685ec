// How many instances of objects a file has.
ghost use Rattle.std.specs.Prelude.{◌≡◌, ℕ, ◌≤◌, option_map};
ghost use Rattle.p8_tree.specs.Views.{child_of};
ghost use Rattle.p8_fold.specs.ConstantEntries.{setting_of};
ghost use Rattle.p8_constants.specs.FileItems.{object};
ghost use Rattle.p8_constants.specs.Rules.{has_no_instance, HasWrongInstances, instances_behind, WrongInstancesIn};
ghost use Rattle.p8_constants.specs.Standing.{item_of, items_of, IsFirstOf, IsCapped};
ghost use Rattle.p8_tree.specs.Views.{tree_of};

use crate::first_faults::where_so;
use crate::items::Item;
use crate::rules::count_value;
use p8_fold::{Consts, value_of};
use p8_tree::{Expr, Fault, ObjItem, Refusal, first_of_two};

/// How many instances of objects a file may have.
const MOST_INSTANCES: u32 = 255;

/// What more instances are counted as.
const TOO_MANY: u32 = 256;

// Whether a count has the value 0.
fn has_no_instance(consts: &Consts, count: Option<&Expr>) -> bool
    ensures { result ≡ has_no_instance (setting_of consts.now) (option_map (λ e. tree_of e.now) count.entry) }
{
    match count {
        None => false,
        Some(count) => match value_of(count, consts) {
            Ok(value) => value == 0,
            Err(_) => false,
        },
    }
}

// 20 at an item without an instance, or with the first one too many.
fn wrong_instances(consts: &Consts, before: u32, item: &ObjItem) -> Option<Fault>
    requires { before ≤ 256 }
    ensures { (all : ℕ) → IsCapped before all → IsFirstOf result (HasWrongInstances (setting_of consts.now) all (object (child_of item.now))) }
{
    let fault = Refusal::TooManyObjects.at(item.place);
    let count = item.count.as_ref();
    let none = has_no_instance(consts, count);
    let passes = before <= MOST_INSTANCES
        && before.saturating_add(count_value(consts, count)) > MOST_INSTANCES;
    where_so(none || passes, fault)
}

fn instance_fault(consts: &Consts, before: u32, item: Item<'_>) -> Option<Fault>
    requires { before ≤ 256 }
    ensures { (all : ℕ) → IsCapped before all → IsFirstOf result (HasWrongInstances (setting_of consts.now) all (item_of item.entry)) }
{
    match item {
        Item::Object(item) => wrong_instances(consts, before, item),
        _ => None,
    }
}

// The instances after an item, as far as 256.
fn behind(consts: &Consts, before: u32, item: Item<'_>) -> u32
    requires { before ≤ 256 }
    ensures bound { result ≤ 256 }
    ensures counted { (all : ℕ) → IsCapped before all → IsCapped result (instances_behind (setting_of consts.now) all (item_of item.entry)) }
{
    match item {
        Item::Object(item) => {
            let count = count_value(consts, item.count.as_ref());
            before.saturating_add(count).min(TOO_MANY)
        }
        _ => before,
    }
}

/// The first item of `OBJ` without an instance, or with the 256th of the file, 20 at it.
pub fn first_instance_fault(consts: &Consts, items: &[Item<'_>]) -> Option<Fault>
    ensures { IsFirstOf result (WrongInstancesIn (setting_of consts.now) 0 (items_of items.now)) }
{
    let mut first = None;
    let mut before = 0;
    for item in items {
        first = first_of_two(first, instance_fault(consts, before, *item));
        before = behind(consts, before, *item);
    }
    first
}
