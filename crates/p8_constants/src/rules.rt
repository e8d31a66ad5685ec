// Faults of items, each looked at by itself.
ghost use Rattle.std.specs.Prelude.{◌≡◌, option_map};
ghost use Rattle.p8_tree.specs.Views.{tree_of, method_of};
ghost use Rattle.p8_fold.specs.ConstantEntries.{setting_of};
ghost use Rattle.p8_constants.specs.FileItems.{method as method_tree};
ghost use Rattle.p8_constants.specs.Rules.{InAny, HasTooManyParams, is_public, has_public, LacksPub, count_in, count_of, FaultInCount, HasFaultInCount};
ghost use Rattle.p8_constants.specs.Standing.{item_of, items_of, IsFirstOf};

use crate::first_faults::where_so;
use crate::items::Item;
use p8_fold::{Consts, value_of};
use p8_tree::{Expr, Fault, Method, Place, Refusal, first_of_two};

/// How many parameters a method may have.
const MOST_PARAMS: usize = 15;

// 17 at a method with too many parameters.
fn params_fault(item: Item<'_>) -> Option<Fault>
    ensures { IsFirstOf result (HasTooManyParams (item_of item.entry)) }
{
    match item {
        Item::Method(method) => too_many_params(method),
        _ => None,
    }
}

fn too_many_params(method: &Method) -> Option<Fault>
    ensures { IsFirstOf result (HasTooManyParams (method_tree (method_of method.now))) }
{
    let fault = Refusal::WrongArity.at(method.place);
    where_so(method.params.len() > MOST_PARAMS, fault)
}

/// The first method with too many parameters, 17 at its name.
pub fn first_params_fault(items: &[Item<'_>]) -> Option<Fault>
    ensures { IsFirstOf result (InAny HasTooManyParams (items_of items.now)) }
{
    let mut first = None;
    for item in items {
        first = first_of_two(first, params_fault(*item));
    }
    first
}

/// Whether one of the items is a `PUB`.
fn has_public(items: &[Item<'_>]) -> bool
    ensures { result ≡ has_public (items_of items.now) }
{
    for item in items {
        if is_public(*item) {
            return true;
        }
    }
    false
}

fn is_public(item: Item<'_>) -> bool
    ensures { result ≡ is_public (item_of item.entry) }
{
    match item {
        Item::Method(method) => method.public,
        _ => false,
    }
}

/// 18 where the top file has no `PUB`.
pub fn lacks_pub(top: bool, items: &[Item<'_>]) -> Option<Fault>
    ensures { IsFirstOf result (LacksPub top (items_of items.now)) }
{
    let fault = Refusal::NoPub.at(Place { line: 1, column: 1 });
    where_so(top && !has_public(items), fault)
}

impl<'a> Item<'a> {
    /// The count of a variable of `VAR` or of an object.
    pub fn count(self) -> Option<&'a Expr>
        ensures { option_map (λ e. tree_of e.now) result ≡ count_of (item_of self.entry) }
    {
        match self {
            Item::Variable(item) => item.count.as_ref(),
            Item::Object(item) => item.count.as_ref(),
            _ => None,
        }
    }
}

/// The value of a count: 1 where there is none, 0 where it is refused.
pub fn count_value(consts: &Consts, count: Option<&Expr>) -> u32
    ensures { result ≡ count_in (setting_of consts.now) (option_map (λ e. tree_of e.now) count.entry) }
{
    match count {
        None => 1,
        Some(count) => value_of(count, consts).unwrap_or(0),
    }
}

/// The first fault of a count.
pub fn count_fault(consts: &Consts, count: Option<&Expr>) -> Option<Fault>
    ensures { IsFirstOf result (FaultInCount (setting_of consts.now) (option_map (λ e. tree_of e.now) count.entry)) }
{
    match count {
        None => None,
        Some(count) => value_of(count, consts).err(),
    }
}

/// The first fault of the counts of variables and objects.
pub fn first_count_fault(consts: &Consts, items: &[Item<'_>]) -> Option<Fault>
    ensures { IsFirstOf result (InAny (HasFaultInCount (setting_of consts.now)) (items_of items.now)) }
{
    let mut first = None;
    for item in items {
        first = first_of_two(first, count_fault(consts, item.count()));
    }
    first
}
