// The first call of an expression with another number of arguments than is expected. The calls go as deep as the tree is high.
ghost use Rattle.std.specs.Prelude.{◌≡◌};
ghost use Rattle.p8_tree.specs.Views.{call_of, form_of, item_of, items_of, tree_of, trees_of, variable_of};
ghost use Rattle.p8_tree.specs.Bridges.{boxed_index};
ghost use Rattle.p8_fold.specs.Verdicts.{boxed_bits};
ghost use Rattle.p8_build.specs.Arguments.{in_bits, in_index, in_item, in_items, in_trees, in_variable, told_in, told_inside};
ghost use Rattle.p8_build.specs.Searching.{search_of};

use crate::arguments::{Sought, own_told};
use crate::sizes::Size;
use p8_tree::{Call, Expr, ExprKind, Item, Target};

/// What is told of the first such call of an expression.
#[cycle(calls)]
pub(crate) fn told_in(sought: &Sought<'_>, expr: &Expr) -> Option<Size>
    ensures { result ≡ told_in (search_of sought.now) (tree_of expr.now) }
{
    own_told(sought, expr).or(told_inside(sought, &expr.kind))
}

#[cycle(calls)]
fn told_inside(sought: &Sought<'_>, kind: &ExprKind) -> Option<Size>
    ensures { result ≡ told_inside (search_of sought.now) (form_of kind.now) }
{
    match kind {
        ExprKind::Number(_) => None,
        ExprKind::Str(_) => None,
        ExprKind::Strings(_) => None,
        ExprKind::Here => None,
        ExprKind::Var(variable) => in_variable(sought, variable),
        ExprKind::Call(call) => in_call(sought, call),
        ExprKind::Unary(_, operand) => told_in(sought, operand),
        ExprKind::Binary(_, left, right) => told_in(sought, left).or(told_in(sought, right)),
        ExprKind::Assign(variable, _, value) => {
            in_variable(sought, variable).or(told_in(sought, value))
        }
        ExprKind::Change(variable, _) => in_variable(sought, variable),
        ExprKind::Address(variable) => in_variable(sought, variable),
        ExprKind::ObjectAddress(offset) => told_in(sought, offset),
        ExprKind::ObjConst(..) => None,
        ExprKind::Built(_, arguments) => in_trees(sought, arguments),
        ExprKind::Look(_, value, items) => told_in(sought, value).or(in_items(sought, items)),
    }
}

#[cycle(calls)]
fn in_call(sought: &Sought<'_>, call: &Call) -> Option<Size>
    ensures { result ≡ told_inside (search_of sought.now) (call_of call.now) }
{
    in_index(sought, &call.index).or(in_trees(sought, &call.args))
}

#[cycle(calls)]
fn in_variable(sought: &Sought<'_>, variable: &Target) -> Option<Size>
    ensures { result ≡ in_variable (search_of sought.now) (variable_of variable.now) }
{
    match variable {
        Target::Named(_, index, _) => in_index(sought, index),
        Target::Part(_, _, index, _) => in_index(sought, index),
        Target::Memory(_, address, index, _) => {
            told_in(sought, address).or(in_index(sought, index))
        }
        Target::Register(_, bits, _) => in_bits(sought, bits),
    }
}

#[cycle(calls)]
fn in_index(sought: &Sought<'_>, index: &Option<Box<Expr>>) -> Option<Size>
    ensures { result ≡ in_index (search_of sought.now) (boxed_index index.now) }
{
    match index {
        None => None,
        Some(index) => told_in(sought, index),
    }
}

#[cycle(calls)]
fn in_bits(sought: &Sought<'_>, bits: &Option<Box<Item>>) -> Option<Size>
    ensures { result ≡ in_bits (search_of sought.now) (boxed_bits bits.now) }
{
    match bits {
        None => None,
        Some(item) => in_item(sought, item),
    }
}

#[cycle(calls)]
fn in_item(sought: &Sought<'_>, item: &Item) -> Option<Size>
    ensures { result ≡ in_item (search_of sought.now) (item_of item.now) }
{
    match &item.high {
        None => told_in(sought, &item.low),
        Some(high) => told_in(sought, &item.low).or(told_in(sought, high)),
    }
}

#[cycle(calls)]
fn in_trees(sought: &Sought<'_>, trees: &[Expr]) -> Option<Size>
    ensures { result ≡ in_trees (search_of sought.now) (trees_of trees.now) }
{
    let mut first = None;
    for tree in trees {
        first = first.or(told_in(sought, tree));
    }
    first
}

/// What is told of the first such call of items.
#[cycle(calls)]
pub(crate) fn in_items(sought: &Sought<'_>, items: &[Item]) -> Option<Size>
    ensures { result ≡ in_items (search_of sought.now) (items_of items.now) }
{
    let mut first = None;
    for item in items {
        first = first.or(in_item(sought, item));
    }
    first
}
