// What the rules look at in an expression. The calls go as deep as the tree is high.
ghost use Rattle.std.specs.Prelude.{◌≡◌, ◌++◌, map, OnOk, option_map};
ghost use Rattle.p8_tree.specs.Views.{tree_of, variable_of, call_of, trees_of, items_of, item_of};
ghost use Rattle.p8_tree.specs.Bridges.{boxed_index};
ghost use Rattle.p8_fold.specs.Verdicts.{boxed_bits};
ghost use Rattle.p8_hint.specs.Spots.{addressed, built, called, in_bits, in_condition, in_form, in_index, in_item, in_items, in_option, in_tree};
ghost use Rattle.p8_hint.specs.Spots.{in_trees, in_variable, in_test, named, of_single};
ghost use Rattle.p8_hint.specs.SpotViews.{spots_of};

use crate::spot::Spot;
use p8_bytecode::{COGINIT, COGINIT_RETURNS, WAITPEQ, WAITPNE};
use p8_tree::{Call, Expr, ExprKind, Item, Target, Text};
use std::alloc::AllocError;

/// Puts what the rules look at in an expression after what is there.
#[cycle(expressions)]
pub(crate) fn put_tree<'a>(expr: &'a Expr, spots: &mut Vec<Spot<'a>>) -> Result<(), AllocError>
    ensures { OnOk result (spots_of spots.new.items ≡ spots_of spots.old.items ++ in_tree (tree_of expr.now)) }
{
    match &expr.kind {
        ExprKind::Number(_) => Ok(()),
        ExprKind::Str(_) => Ok(()),
        ExprKind::Strings(items) => put_trees(items, spots),
        ExprKind::Here => Ok(()),
        ExprKind::ObjConst(_, _, _) => Ok(()),
        ExprKind::Var(variable) => put_variable(variable, spots),
        ExprKind::Change(variable, _) => put_variable(variable, spots),
        ExprKind::Address(variable) => {
            put_addressed(variable, spots)?;
            put_variable(variable, spots)
        }
        ExprKind::Call(call) => put_call(call, spots),
        ExprKind::Unary(_, operand) => put_tree(operand, spots),
        ExprKind::ObjectAddress(offset) => put_tree(offset, spots),
        ExprKind::Binary(_, left, right) => {
            put_tree(left, spots)?;
            put_tree(right, spots)
        }
        ExprKind::Assign(variable, _, value) => {
            put_variable(variable, spots)?;
            put_tree(value, spots)
        }
        ExprKind::Built(code, arguments) => {
            put_trees(arguments, spots)?;
            put_built(*code, arguments, spots)
        }
        ExprKind::Look(_, value, items) => {
            put_tree(value, spots)?;
            put_items(items, spots)
        }
    }
}

#[cycle(expressions)]
fn put_call<'a>(call: &'a Call, spots: &mut Vec<Spot<'a>>) -> Result<(), AllocError>
    ensures { OnOk result (spots_of spots.new.items ≡ spots_of spots.old.items ++ in_form (call_of call.now)) }
{
    put_called(&call.object, &call.method, spots)?;
    put_index(&call.index, spots)?;
    put_trees(&call.args, spots)
}

#[cycle(expressions)]
fn put_variable<'a>(variable: &'a Target, spots: &mut Vec<Spot<'a>>) -> Result<(), AllocError>
    ensures { OnOk result (spots_of spots.new.items ≡ spots_of spots.old.items ++ in_variable (variable_of variable.now)) }
{
    match variable {
        Target::Named(name, index, _) => put_named(name, index, spots),
        Target::Part(name, _, index, _) => put_named(name, index, spots),
        Target::Memory(_, address, index, _) => {
            put_tree(address, spots)?;
            put_index(index, spots)
        }
        Target::Register(_, bits, _) => put_bits(bits, spots),
    }
}

// A name, with its index where it has one.
#[cycle(expressions)]
fn put_named<'a>(
    name: &'a Text,
    index: &'a Option<Box<Expr>>,
    spots: &mut Vec<Spot<'a>>,
) -> Result<(), AllocError>
    ensures { OnOk result (spots_of spots.new.items ≡ spots_of spots.old.items ++ named name.now (boxed_index index.now)) }
{
    spots.push(Spot::Name(name))?;
    match index {
        None => Ok(()),
        Some(index) => {
            spots.push(Spot::Reach(name))?;
            put_tree(index, spots)
        }
    }
}

#[cycle(expressions)]
fn put_index<'a>(index: &'a Option<Box<Expr>>, spots: &mut Vec<Spot<'a>>) -> Result<(), AllocError>
    ensures { OnOk result (spots_of spots.new.items ≡ spots_of spots.old.items ++ in_index (boxed_index index.now)) }
{
    match index {
        None => Ok(()),
        Some(index) => put_tree(index, spots),
    }
}

#[cycle(expressions)]
fn put_bits<'a>(bits: &'a Option<Box<Item>>, spots: &mut Vec<Spot<'a>>) -> Result<(), AllocError>
    ensures { OnOk result (spots_of spots.new.items ≡ spots_of spots.old.items ++ in_bits (boxed_bits bits.now)) }
{
    match bits {
        None => Ok(()),
        Some(item) => put_item(item, spots),
    }
}

#[cycle(expressions)]
fn put_item<'a>(item: &'a Item, spots: &mut Vec<Spot<'a>>) -> Result<(), AllocError>
    ensures { OnOk result (spots_of spots.new.items ≡ spots_of spots.old.items ++ in_item (item_of item.now)) }
{
    put_tree(&item.low, spots)?;
    match &item.high {
        None => Ok(()),
        Some(high) => put_tree(high, spots),
    }
}

#[cycle(expressions)]
fn put_trees<'a>(trees: &'a [Expr], spots: &mut Vec<Spot<'a>>) -> Result<(), AllocError>
    ensures { OnOk result (spots_of spots.new.items ≡ spots_of spots.old.items ++ in_trees (trees_of trees.now)) }
{
    for tree in trees {
        put_tree(tree, spots)?;
    }
    Ok(())
}

/// Puts what the rules look at in items.
#[cycle(expressions)]
pub(crate) fn put_items<'a>(items: &'a [Item], spots: &mut Vec<Spot<'a>>) -> Result<(), AllocError>
    ensures { OnOk result (spots_of spots.new.items ≡ spots_of spots.old.items ++ in_items (items_of items.now)) }
{
    for item in items {
        put_item(item, spots)?;
    }
    Ok(())
}

// A method that is called, where it is one of the same object.
fn put_called<'a>(
    object: &Option<Text>,
    method: &'a Text,
    spots: &mut Vec<Spot<'a>>,
) -> Result<(), AllocError>
    ensures { OnOk result (spots_of spots.new.items ≡ spots_of spots.old.items ++ called object.now method.now) }
{
    match object {
        None => {
            spots.push(Spot::Name(method))?;
            Ok(())
        }
        Some(_) => Ok(()),
    }
}

// A name whose address is taken.
fn put_addressed<'a>(variable: &'a Target, spots: &mut Vec<Spot<'a>>) -> Result<(), AllocError>
    ensures { OnOk result (spots_of spots.new.items ≡ spots_of spots.old.items ++ addressed (variable_of variable.now)) }
{
    match variable {
        Target::Named(name, _, _) => {
            spots.push(Spot::Reach(name))?;
            Ok(())
        }
        Target::Part(name, _, _, _) => {
            spots.push(Spot::Reach(name))?;
            Ok(())
        }
        Target::Memory(_, _, _, _) => Ok(()),
        Target::Register(_, _, _) => Ok(()),
    }
}

// A built-in with these arguments, where the rules look at it.
fn put_built<'a>(
    code: u8,
    arguments: &'a [Expr],
    spots: &mut Vec<Spot<'a>>,
) -> Result<(), AllocError>
    ensures { OnOk result (spots_of spots.new.items ≡ spots_of spots.old.items ++ built code (map tree_of arguments.now)) }
{
    match arguments {
        [begun, stack] => {
            if code == COGINIT {
                spots.push(Spot::Start(begun, stack))?;
            }
            Ok(())
        }
        [_, second, third] => {
            if code == COGINIT_RETURNS {
                spots.push(Spot::Start(second, third))?;
            } else if code == WAITPEQ || code == WAITPNE {
                spots.push(Spot::Port(third))?;
            }
            Ok(())
        }
        _ => Ok(()),
    }
}

/// Puts what the rules look at in an expression that may be there.
pub(crate) fn put_option<'a>(
    expr: &'a Option<Expr>,
    spots: &mut Vec<Spot<'a>>,
) -> Result<(), AllocError>
    ensures { OnOk result (spots_of spots.new.items ≡ spots_of spots.old.items ++ in_option (option_map tree_of expr.now)) }
{
    match expr {
        None => Ok(()),
        Some(expr) => put_tree(expr, spots),
    }
}

/// Puts a whole test.
pub(crate) fn put_test<'a>(expr: &'a Expr, spots: &mut Vec<Spot<'a>>) -> Result<(), AllocError>
    ensures { OnOk result (spots_of spots.new.items ≡ spots_of spots.old.items ++ in_test (tree_of expr.now)) }
{
    spots.push(Spot::Test(expr))?;
    put_tree(expr, spots)
}

/// Puts the condition of an arm of `IF`.
pub(crate) fn put_condition<'a>(
    items: &'a [Item],
    spots: &mut Vec<Spot<'a>>,
) -> Result<(), AllocError>
    ensures { OnOk result (spots_of spots.new.items ≡ spots_of spots.old.items ++ in_condition (map item_of items.now)) }
{
    match items {
        [item] => put_single(item, spots),
        _ => Ok(()),
    }
}

// A condition that is one value.
fn put_single<'a>(item: &'a Item, spots: &mut Vec<Spot<'a>>) -> Result<(), AllocError>
    ensures { OnOk result (spots_of spots.new.items ≡ spots_of spots.old.items ++ of_single (item_of item.now)) }
{
    match &item.high {
        None => {
            spots.push(Spot::Test(&item.low))?;
            Ok(())
        }
        Some(_) => Ok(()),
    }
}
