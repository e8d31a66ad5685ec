// The first fault of an expression. The calls go as deep as the tree is high.
ghost use Rattle.std.specs.Prelude.{◌≡◌};
ghost use Rattle.std.specs.Result.{result_err};
ghost use Rattle.p8_tree.specs.Views.{tree_of, form_of, variable_of, call_of, trees_of, items_of, item_of};
ghost use Rattle.p8_tree.specs.Bridges.{boxed_index};
ghost use Rattle.p8_fold.specs.ConstantEntries.{setting_of};
ghost use Rattle.p8_fold.specs.Verdicts as verdicts;
ghost use Rattle.p8_fold.specs.Verdicts.{verdict, boxed_bits};
ghost use Rattle.p8_kinds.specs.Environments.{environment_of};
ghost use Rattle.p8_kinds.specs.FirstMisuses.{rule_of, first_in, first_inside, first_in_variable, first_in_index, first_in_bits, first_in_item};
ghost use Rattle.p8_kinds.specs.FirstMisuses.{first_in_trees, first_in_items, first_in_built, first_in_strings};

use crate::rules::Rules;
use crate::scope::Scope;
use crate::single::{is_constant, own_fault};
use p8_fold::{Consts, first_in_text, value_of};
use p8_tree::{Call, Expr, ExprKind, Fault, Item, Target, first_of_two};

// The first fault of an expression that has to be constant.
fn first_in_constant(consts: &Consts, expr: &Expr) -> Option<Fault>
    ensures { result ≡ result_err (verdict (setting_of consts.now) (tree_of expr.now)) }
{
    value_of(expr, consts).err()
}

// The same of several.
fn first_in_constants(consts: &Consts, trees: &[Expr]) -> Option<Fault>
    ensures { result ≡ verdicts.first_in_trees (setting_of consts.now) (trees_of trees.now) }
{
    let mut first = None;
    for tree in trees {
        first = first_of_two(first, first_in_constant(consts, tree));
    }
    first
}

// The first fault of an expression.
#[cycle(expressions)]
pub(crate) fn first_in(scope: &Scope, rules: Rules, expr: &Expr) -> Option<Fault>
    ensures { result ≡ first_in (rule_of rules (environment_of scope.now)) (tree_of expr.now) }
{
    first_of_two(
        own_fault(scope, rules, expr),
        first_inside(scope, rules, &expr.kind),
    )
}

// The first fault inside an expression.
#[cycle(expressions)]
fn first_inside(scope: &Scope, rules: Rules, kind: &ExprKind) -> Option<Fault>
    ensures { result ≡ first_inside (rule_of rules (environment_of scope.now)) (form_of kind.now) }
{
    match kind {
        ExprKind::Number(_) => None,
        ExprKind::Str(_) => None,
        ExprKind::Strings(items) => first_in_strings(scope, rules, items),
        ExprKind::Here => None,
        ExprKind::Var(variable) => first_in_variable(scope, rules, variable),
        ExprKind::Call(call) => first_in_call(scope, rules, call),
        ExprKind::Unary(_, operand) => first_in(scope, rules, operand),
        ExprKind::Binary(_, left, right) => first_of_two(
            first_in(scope, rules, left),
            first_in(scope, rules, right),
        ),
        ExprKind::Assign(variable, _, value) => first_of_two(
            first_in_variable(scope, rules, variable),
            first_in(scope, rules, value),
        ),
        ExprKind::Change(variable, _) => first_in_variable(scope, rules, variable),
        ExprKind::Address(variable) => first_in_variable(scope, rules, variable),
        ExprKind::ObjectAddress(offset) => first_in(scope, rules, offset),
        ExprKind::ObjConst(..) => None,
        ExprKind::Built(code, arguments) => first_in_built(scope, rules, *code, arguments),
        ExprKind::Look(_, value, items) => first_of_two(
            first_in(scope, rules, value),
            first_in_items(scope, rules, items),
        ),
    }
}

#[cycle(expressions)]
fn first_in_call(scope: &Scope, rules: Rules, call: &Call) -> Option<Fault>
    ensures { result ≡ first_inside (rule_of rules (environment_of scope.now)) (call_of call.now) }
{
    first_of_two(
        first_in_index(scope, rules, &call.index),
        first_in_trees(scope, rules, &call.args),
    )
}

// The arguments of a built-in.
#[cycle(expressions)]
fn first_in_built(scope: &Scope, rules: Rules, code: u8, arguments: &[Expr]) -> Option<Fault>
    ensures { result ≡ first_in_built (rule_of rules (environment_of scope.now)) code (trees_of arguments.now) }
{
    if is_constant(rules, code) {
        first_in_constants(&scope.consts, arguments)
    } else {
        first_in_trees(scope, rules, arguments)
    }
}

// The items of STRING.
#[cycle(expressions)]
fn first_in_strings(scope: &Scope, rules: Rules, items: &[Expr]) -> Option<Fault>
    ensures { result ≡ first_in_strings (rule_of rules (environment_of scope.now)) (trees_of items.now) }
{
    if is_constant(rules, 0) {
        first_in_text(&scope.consts, items)
    } else {
        first_in_trees(scope, rules, items)
    }
}

#[cycle(expressions)]
fn first_in_variable(scope: &Scope, rules: Rules, variable: &Target) -> Option<Fault>
    ensures { result ≡ first_in_variable (rule_of rules (environment_of scope.now)) (variable_of variable.now) }
{
    match variable {
        Target::Named(_, index, _) => first_in_index(scope, rules, index),
        Target::Part(_, _, index, _) => first_in_index(scope, rules, index),
        Target::Memory(_, address, index, _) => first_of_two(
            first_in(scope, rules, address),
            first_in_index(scope, rules, index),
        ),
        Target::Register(_, bits, _) => first_in_bits(scope, rules, bits),
    }
}

#[cycle(expressions)]
fn first_in_index(scope: &Scope, rules: Rules, index: &Option<Box<Expr>>) -> Option<Fault>
    ensures { result ≡ first_in_index (rule_of rules (environment_of scope.now)) (boxed_index index.now) }
{
    match index {
        None => None,
        Some(index) => first_in(scope, rules, index),
    }
}

#[cycle(expressions)]
fn first_in_bits(scope: &Scope, rules: Rules, bits: &Option<Box<Item>>) -> Option<Fault>
    ensures { result ≡ first_in_bits (rule_of rules (environment_of scope.now)) (boxed_bits bits.now) }
{
    match bits {
        None => None,
        Some(item) => first_in_item(scope, rules, item),
    }
}

#[cycle(expressions)]
fn first_in_item(scope: &Scope, rules: Rules, item: &Item) -> Option<Fault>
    ensures { result ≡ first_in_item (rule_of rules (environment_of scope.now)) (item_of item.now) }
{
    match &item.high {
        None => first_in(scope, rules, &item.low),
        Some(high) => first_of_two(
            first_in(scope, rules, &item.low),
            first_in(scope, rules, high),
        ),
    }
}

#[cycle(expressions)]
fn first_in_trees(scope: &Scope, rules: Rules, trees: &[Expr]) -> Option<Fault>
    ensures { result ≡ first_in_trees (rule_of rules (environment_of scope.now)) (trees_of trees.now) }
{
    let mut first = None;
    for tree in trees {
        first = first_of_two(first, first_in(scope, rules, tree));
    }
    first
}

#[cycle(expressions)]
pub(crate) fn first_in_items(scope: &Scope, rules: Rules, items: &[Item]) -> Option<Fault>
    ensures { result ≡ first_in_items (rule_of rules (environment_of scope.now)) (items_of items.now) }
{
    let mut first = None;
    for item in items {
        first = first_of_two(first, first_in_item(scope, rules, item));
    }
    first
}
