// The names that stand in an expression.
ghost use Rattle.std.specs.Prelude.{◌≡◌, ◌↔◌, ℕ, List, Contains, ◌++◌, [], ◌∷◌, OnOk, IfOk, map};
ghost use Rattle.p8_tree.specs.Views.{tree_of, variable_of, call_of, trees_of, items_of, item_of};
ghost use Rattle.p8_tree.specs.Bridges.{boxed_index};
ghost use Rattle.p8_fold.specs.Verdicts.{boxed_bits};
ghost use Rattle.p8_constants.specs.Mentions.{Mentions, called_name, mentioned, form_mentioned, variable_mentioned, index_mentioned, bits_mentioned};
ghost use Rattle.p8_constants.specs.Mentions.{item_mentioned, trees_mentioned, items_mentioned};

use p8_tree::{Call, Expr, ExprKind, Item, Target, Text};
use p8_words::NoMemory;
use std::alloc::{AllocError, Global};
use std::marker::Model;

/// Names, by reference. Contracts see the list of them.
#[derive(Drop)]
pub struct Names<'a> {
    names: Vec<&'a Text>,
}

impl<'a> Model for Names<'a> {
    ghost use Rattle.std.specs.Prelude.{ℕ, List, map};

    ghost Value = { List (List ℕ) };

    ghost view = { λ n. map (λ t. t.now) n.names.items };
}

impl<'a> Names<'a> {
    /// The names as a slice.
    pub fn as_slice(&self) -> &[&'a Text]
        ensures { map (λ t. t.now) result.now ≡ self.now }
    {
        self.names.as_slice()
    }

    fn push(&mut self, name: &'a Text) -> Result<(), AllocError>
        ensures { OnOk result (self.new ≡ self.old ++ name.now ∷ []) }
    {
        self.names.push(name)?;
        Ok(())
    }
}

/// The names that stand alone in an expression, from left to right, each as often as it stands there: those whose meanings
/// decide its value, but for names after `#`.
pub fn names_in<'a>(alloc: Global, expr: &'a Expr) -> Result<Names<'a>, NoMemory>
    ensures in_order { IfOk result (λ names. names ≡ mentioned (tree_of expr.now)) }
    ensures each { IfOk result (λ names. (n : List ℕ) → Contains names n ↔ Mentions (tree_of expr.now) n) }
{
    let mut names = Names {
        names: Vec::new(alloc),
    };
    in_expr(expr, &mut names)?;
    Ok(names)
}

#[cycle(mentioning)]
fn in_expr<'a>(expr: &'a Expr, names: &mut Names<'a>) -> Result<(), AllocError>
    ensures { OnOk result (names.new ≡ names.old ++ mentioned (tree_of expr.now)) }
{
    match &expr.kind {
        ExprKind::Number(_) | ExprKind::Str(_) | ExprKind::Here => Ok(()),
        ExprKind::Var(variable) => in_variable(variable, names),
        ExprKind::Address(variable) => in_variable(variable, names),
        ExprKind::Change(variable, _) => in_variable(variable, names),
        ExprKind::Call(call) => in_call(call, names),
        ExprKind::Unary(_, operand) => in_expr(operand, names),
        ExprKind::ObjectAddress(offset) => in_expr(offset, names),
        ExprKind::Binary(_, left, right) => {
            in_expr(left, names)?;
            in_expr(right, names)
        }
        ExprKind::Assign(variable, _, value) => {
            in_variable(variable, names)?;
            in_expr(value, names)
        }
        ExprKind::ObjConst(object, _, _) => names.push(object),
        ExprKind::Built(_, arguments) => in_trees(arguments, names),
        ExprKind::Strings(items) => in_trees(items, names),
        ExprKind::Look(_, value, items) => {
            in_expr(value, names)?;
            in_items(items, names)
        }
    }
}

#[cycle(mentioning)]
fn in_call<'a>(call: &'a Call, names: &mut Names<'a>) -> Result<(), AllocError>
    ensures { OnOk result (names.new ≡ names.old ++ form_mentioned (call_of call.now)) }
{
    push_called(&call.object, &call.method, names)?;
    in_index(&call.index, names)?;
    in_trees(&call.args, names)
}

fn push_called<'a>(
    object: &'a Option<Text>,
    method: &'a Text,
    names: &mut Names<'a>,
) -> Result<(), AllocError>
    ensures { OnOk result (names.new ≡ names.old ++ called_name object.now method.now ∷ []) }
{
    match object {
        Some(object) => names.push(object),
        None => names.push(method),
    }
}

#[cycle(mentioning)]
fn in_variable<'a>(variable: &'a Target, names: &mut Names<'a>) -> Result<(), AllocError>
    ensures { OnOk result (names.new ≡ names.old ++ variable_mentioned (variable_of variable.now)) }
{
    match variable {
        Target::Named(name, index, _) => {
            names.push(name)?;
            in_index(index, names)
        }
        Target::Part(name, _, index, _) => {
            names.push(name)?;
            in_index(index, names)
        }
        Target::Memory(_, address, index, _) => {
            in_expr(address, names)?;
            in_index(index, names)
        }
        Target::Register(_, bits, _) => in_bits(bits, names),
    }
}

#[cycle(mentioning)]
fn in_index<'a>(index: &'a Option<Box<Expr>>, names: &mut Names<'a>) -> Result<(), AllocError>
    ensures { OnOk result (names.new ≡ names.old ++ index_mentioned (boxed_index index.now)) }
{
    match index {
        None => Ok(()),
        Some(index) => in_expr(index, names),
    }
}

#[cycle(mentioning)]
fn in_bits<'a>(bits: &'a Option<Box<Item>>, names: &mut Names<'a>) -> Result<(), AllocError>
    ensures { OnOk result (names.new ≡ names.old ++ bits_mentioned (boxed_bits bits.now)) }
{
    match bits {
        None => Ok(()),
        Some(item) => in_item(item, names),
    }
}

#[cycle(mentioning)]
fn in_item<'a>(item: &'a Item, names: &mut Names<'a>) -> Result<(), AllocError>
    ensures { OnOk result (names.new ≡ names.old ++ item_mentioned (item_of item.now)) }
{
    in_expr(&item.low, names)?;
    match &item.high {
        None => Ok(()),
        Some(high) => in_expr(high, names),
    }
}

#[cycle(mentioning)]
fn in_trees<'a>(trees: &'a [Expr], names: &mut Names<'a>) -> Result<(), AllocError>
    ensures { OnOk result (names.new ≡ names.old ++ trees_mentioned (trees_of trees.now)) }
{
    for tree in trees {
        in_expr(tree, names)?;
    }
    Ok(())
}

#[cycle(mentioning)]
fn in_items<'a>(items: &'a [Item], names: &mut Names<'a>) -> Result<(), AllocError>
    ensures { OnOk result (names.new ≡ names.old ++ items_mentioned (items_of items.now)) }
{
    for item in items {
        in_item(item, names)?;
    }
    Ok(())
}
