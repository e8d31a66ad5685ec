// The texts of an expression. The calls go as deep as the tree is high.
ghost use Rattle.std.specs.Prelude.{◌≡◌, [], ◌∷◌, ◌++◌, OnOk, option_map};
ghost use Rattle.p8_tree.specs.declared.places.Place.{Place};
ghost use Rattle.p8_tree.specs.Views.{tree_of, form_of, variable_of, call_of, trees_of, items_of, item_of};
ghost use Rattle.p8_tree.specs.Bridges.{boxed_index};
ghost use Rattle.p8_fold.specs.Verdicts.{boxed_bits};
ghost use Rattle.p8_build.specs.Strings.{in_tree, in_form, in_variable, in_index, in_bits, in_item, in_trees, in_items, in_option};
ghost use Rattle.p8_build.specs.Views.{texts_of};

use crate::string_texts::StringText;
use p8_tree::{Call, Expr, ExprKind, Item, Target};
use std::alloc::AllocError;

/// Puts the texts of an expression after those before it.
#[cycle(expressions)]
pub(crate) fn put_tree<'a>(
    expr: &'a Expr,
    texts: &mut Vec<StringText<'a>>,
) -> Result<(), AllocError>
    ensures { OnOk result (texts_of texts.new.items ≡ texts_of texts.old.items ++ in_tree (tree_of expr.now)) }
{
    match &expr.kind {
        ExprKind::Number(_) | ExprKind::Here => Ok(()),
        ExprKind::ObjConst(_, _, _) => Ok(()),
        ExprKind::Str(_) => put_string(expr, texts),
        ExprKind::Strings(_) => put_string(expr, texts),
        ExprKind::Var(variable) => put_variable(variable, texts),
        ExprKind::Address(variable) => put_variable(variable, texts),
        ExprKind::Change(variable, _) => put_variable(variable, texts),
        ExprKind::Call(call) => put_call(call, texts),
        ExprKind::Unary(_, operand) => put_tree(operand, texts),
        ExprKind::ObjectAddress(offset) => put_tree(offset, texts),
        ExprKind::Binary(_, left, right) => {
            put_tree(left, texts)?;
            put_tree(right, texts)
        }
        ExprKind::Assign(variable, _, value) => {
            put_variable(variable, texts)?;
            put_tree(value, texts)
        }
        ExprKind::Built(_, arguments) => put_trees(arguments, texts),
        ExprKind::Look(_, value, items) => {
            put_tree(value, texts)?;
            put_items(items, texts)
        }
    }
}

// Puts a STRING.
fn put_string<'a>(expr: &'a Expr, texts: &mut Vec<StringText<'a>>) -> Result<(), AllocError>
    ensures { OnOk result (texts_of texts.new.items ≡ texts_of texts.old.items ++ (expr.now.place, form_of expr.now.kind) ∷ []) }
{
    texts.push(StringText {
        place: expr.place,
        form: &expr.kind,
    })?;
    Ok(())
}

#[cycle(expressions)]
fn put_call<'a>(call: &'a Call, texts: &mut Vec<StringText<'a>>) -> Result<(), AllocError>
    ensures { (place : Place) → OnOk result (texts_of texts.new.items ≡ texts_of texts.old.items ++ in_form place (call_of call.now)) }
{
    put_index(&call.index, texts)?;
    put_trees(&call.args, texts)
}

#[cycle(expressions)]
fn put_variable<'a>(variable: &'a Target, texts: &mut Vec<StringText<'a>>) -> Result<(), AllocError>
    ensures { OnOk result (texts_of texts.new.items ≡ texts_of texts.old.items ++ in_variable (variable_of variable.now)) }
{
    match variable {
        Target::Named(_, index, _) => put_index(index, texts),
        Target::Part(_, _, index, _) => put_index(index, texts),
        Target::Memory(_, address, index, _) => {
            put_tree(address, texts)?;
            put_index(index, texts)
        }
        Target::Register(_, bits, _) => put_bits(bits, texts),
    }
}

#[cycle(expressions)]
fn put_index<'a>(
    index: &'a Option<Box<Expr>>,
    texts: &mut Vec<StringText<'a>>,
) -> Result<(), AllocError>
    ensures { OnOk result (texts_of texts.new.items ≡ texts_of texts.old.items ++ in_index (boxed_index index.now)) }
{
    match index {
        None => Ok(()),
        Some(index) => put_tree(index, texts),
    }
}

#[cycle(expressions)]
fn put_bits<'a>(
    bits: &'a Option<Box<Item>>,
    texts: &mut Vec<StringText<'a>>,
) -> Result<(), AllocError>
    ensures { OnOk result (texts_of texts.new.items ≡ texts_of texts.old.items ++ in_bits (boxed_bits bits.now)) }
{
    match bits {
        None => Ok(()),
        Some(item) => put_item(item, texts),
    }
}

#[cycle(expressions)]
fn put_item<'a>(item: &'a Item, texts: &mut Vec<StringText<'a>>) -> Result<(), AllocError>
    ensures { OnOk result (texts_of texts.new.items ≡ texts_of texts.old.items ++ in_item (item_of item.now)) }
{
    put_tree(&item.low, texts)?;
    match &item.high {
        None => Ok(()),
        Some(high) => put_tree(high, texts),
    }
}

#[cycle(expressions)]
fn put_trees<'a>(trees: &'a [Expr], texts: &mut Vec<StringText<'a>>) -> Result<(), AllocError>
    ensures { OnOk result (texts_of texts.new.items ≡ texts_of texts.old.items ++ in_trees (trees_of trees.now)) }
{
    for tree in trees {
        put_tree(tree, texts)?;
    }
    Ok(())
}

/// Puts the texts of items after those before them.
#[cycle(expressions)]
pub(crate) fn put_items<'a>(
    items: &'a [Item],
    texts: &mut Vec<StringText<'a>>,
) -> Result<(), AllocError>
    ensures { OnOk result (texts_of texts.new.items ≡ texts_of texts.old.items ++ in_items (items_of items.now)) }
{
    for item in items {
        put_item(item, texts)?;
    }
    Ok(())
}

/// Puts the texts of an expression that may be there.
pub(crate) fn put_option<'a>(
    expr: &'a Option<Expr>,
    texts: &mut Vec<StringText<'a>>,
) -> Result<(), AllocError>
    ensures { OnOk result (texts_of texts.new.items ≡ texts_of texts.old.items ++ in_option (option_map tree_of expr.now)) }
{
    match expr {
        None => Ok(()),
        Some(expr) => put_tree(expr, texts),
    }
}
