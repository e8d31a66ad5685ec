// How many longs the code of an expression holds at once on the operand stack. The calls go as deep as the tree is high.
ghost use Rattle.std.specs.Prelude.{◌≡◌, ℕ, ◌+◌, max};
ghost use Rattle.p8_tree.specs.Views.{tree_of, variable_of, call_of, trees_of, items_of, item_of};
ghost use Rattle.p8_tree.specs.Bridges.{boxed_index};
ghost use Rattle.p8_tree.specs.Expressions.{no_items, ◌▸◌};
ghost use Rattle.p8_fold.specs.Verdicts.{boxed_bits};
ghost use Rattle.p8_gen.specs.Depths.{over, held, held_by_naming, held_by_index, held_by_bits, held_by_trees, held_by_items, held_by_built};
ghost use Rattle.p8_gen.specs.Depths.{held_by_arguments, arguments_of, held_alone};
ghost use Rattle.p8_gen.specs.Scopes.{names_of};
ghost use Rattle.p8_stmt.specs.Cutting.{cut, held_by_call, held_by_start};

use p8_bytecode::LOCKNEW_RETURNS;
use p8_gen::{BuiltForm, Coder, form_of_built};
use p8_tree::{Call, Expr, ExprKind, Item, Target};

/// A length, or the greatest number of 16 bits where it is more.
fn short(length: usize) -> u16
    ensures { result ≡ cut length }
{
    u16::try_from(length).unwrap_or(u16::MAX)
}

/// What is held after so many longs, where anything is held at all.
fn over(below: u16, above: u16) -> u16
    ensures { (n : ℕ) → above ≡ cut n → result ≡ cut (over below n) }
{
    if above == 0 {
        0
    } else {
        below.saturating_add(above)
    }
}

/// What an expression holds whose value is left.
#[cycle(depths)]
pub(crate) fn held(coder: &Coder<'_>, expr: &Expr) -> u16
    ensures { result ≡ cut (held (names_of coder.now) (tree_of expr.now)) }
{
    match &expr.kind {
        ExprKind::Number(_) => 1,
        ExprKind::Str(_) => 1,
        ExprKind::Strings(_) => 1,
        ExprKind::Here => 1,
        ExprKind::Var(variable) => held_by_naming(coder, variable).max(1),
        ExprKind::Call(call) => held_by_call(coder, call).max(1),
        ExprKind::Unary(_, operand) => held(coder, operand),
        ExprKind::Binary(_, left, right) => {
            held(coder, left).max(held(coder, right).saturating_add(1))
        }
        ExprKind::Assign(variable, _, value) => {
            held(coder, value).max(held_by_naming(coder, variable).saturating_add(1))
        }
        ExprKind::Change(variable, _) => held_by_naming(coder, variable).max(1),
        ExprKind::Address(variable) => held_by_naming(coder, variable).max(1),
        ExprKind::ObjectAddress(offset) => held(coder, offset),
        ExprKind::ObjConst(..) => 1,
        ExprKind::Built(code, arguments) => held_by_built(coder, *code, arguments).max(1),
        ExprKind::Look(_, sought, items) => {
            held(coder, sought).max(2).max(held_by_items(coder, items))
        }
    }
}

// What a call holds: its arguments, and then the index of its object.
#[cycle(depths)]
fn held_by_call(coder: &Coder<'_>, call: &Call) -> u16
    ensures { result ≡ cut (held_by_call (names_of coder.now) (call_of call.now)) }
{
    let count = short(call.args.as_slice().len());
    held_by_trees(coder, &call.args).max(over(count, held_by_index(coder, &call.index)))
}

// What names a variable: its address and its index, or its pins.
#[cycle(depths)]
fn held_by_naming(coder: &Coder<'_>, variable: &Target) -> u16
    ensures { result ≡ cut (held_by_naming (names_of coder.now) (variable_of variable.now)) }
{
    match variable {
        Target::Named(_, index, _) => held_by_index(coder, index),
        Target::Part(_, _, index, _) => held_by_index(coder, index),
        Target::Memory(_, address, index, _) => {
            held(coder, address).max(over(1, held_by_index(coder, index)))
        }
        Target::Register(_, bits, _) => held_by_bits(coder, bits),
    }
}

#[cycle(depths)]
fn held_by_index(coder: &Coder<'_>, index: &Option<Box<Expr>>) -> u16
    ensures { result ≡ cut (held_by_index (names_of coder.now) (boxed_index index.now)) }
{
    match index {
        None => 0,
        Some(index) => held(coder, index),
    }
}

#[cycle(depths)]
fn held_by_bits(coder: &Coder<'_>, bits: &Option<Box<Item>>) -> u16
    ensures { result ≡ cut (held_by_bits (names_of coder.now) (boxed_bits bits.now)) }
{
    match bits {
        None => 0,
        Some(item) => match &item.high {
            None => held(coder, &item.low),
            Some(high) => held(coder, &item.low).max(held(coder, high).saturating_add(1)),
        },
    }
}

// Arguments, each after those before it.
#[cycle(depths)]
fn held_by_trees(coder: &Coder<'_>, arguments: &[Expr]) -> u16
    ensures { result ≡ cut (held_by_trees (names_of coder.now) (trees_of arguments.now)) }
{
    let mut most: u16 = 0;
    for (index, argument) in arguments.iter().enumerate() {
        most = most.max(short(index).saturating_add(held(coder, argument)));
    }
    most
}

// The items of a LOOK function, after its value and its count.
#[cycle(depths)]
fn held_by_items(coder: &Coder<'_>, items: &[Item]) -> u16
    ensures { result ≡ cut (held_by_items (names_of coder.now) (items_of items.now)) }
{
    let mut most: u16 = 0;
    for item in items {
        most = most.max(held_by_item(coder, item));
    }
    most
}

#[cycle(depths)]
fn held_by_item(coder: &Coder<'_>, item: &Item) -> u16
    ensures { result ≡ cut (held_by_items (names_of coder.now) (no_items ▸ item_of item.now)) }
{
    let low = held(coder, &item.low).saturating_add(2);
    match &item.high {
        None => low,
        Some(high) => low.max(held(coder, high).saturating_add(3)),
    }
}

// A built-in with its arguments.
#[cycle(depths)]
fn held_by_built(coder: &Coder<'_>, code: u8, arguments: &[Expr]) -> u16
    ensures { result ≡ cut (held_by_built (names_of coder.now) code (trees_of arguments.now)) }
{
    match form_of_built(code, arguments.len()) {
        BuiltForm::Word => u16::from(code != LOCKNEW_RETURNS),
        BuiltForm::Constant => 1,
        BuiltForm::NewCog => held_by_start(coder, &arguments[0], held(coder, &arguments[1])),
        BuiltForm::ToldCog => {
            let given = held(coder, &arguments[2]);
            held(coder, &arguments[0]).max(held_by_start(coder, &arguments[1], given))
        }
        BuiltForm::Plain => held_by_trees(coder, arguments),
    }
}

// A method or PASM that is started, and what it is given, which holds so many, after the number of the cog.
#[cycle(depths)]
fn held_by_start(coder: &Coder<'_>, begun: &Expr, given: u16) -> u16
    ensures { (k : ℕ) → given ≡ cut k → result ≡ cut (held_by_start (names_of coder.now) (tree_of begun.now) k) }
{
    if coder.starts_method(begun) {
        let below = arguments_of(begun).saturating_add(1);
        let arguments = held_by_arguments(coder, begun).saturating_add(1);
        arguments.max(below.saturating_add(given))
    } else {
        let address = held(coder, begun).saturating_add(1);
        address.max(given.saturating_add(2))
    }
}

// How many arguments a method is started with.
fn arguments_of(begun: &Expr) -> u16
    ensures { result ≡ cut (arguments_of (tree_of begun.now)) }
{
    match &begun.kind {
        ExprKind::Call(call) => short(call.args.as_slice().len()),
        _ => 0,
    }
}

// The arguments of a method that is started.
#[cycle(depths)]
fn held_by_arguments(coder: &Coder<'_>, begun: &Expr) -> u16
    ensures { result ≡ cut (held_by_arguments (names_of coder.now) (tree_of begun.now)) }
{
    match &begun.kind {
        ExprKind::Call(call) => held_by_trees(coder, &call.args),
        _ => 0,
    }
}

/// What an expression holds that stands alone as a statement.
pub(crate) fn held_alone(coder: &Coder<'_>, expr: &Expr) -> u16
    ensures { result ≡ cut (held_alone (names_of coder.now) (tree_of expr.now)) }
{
    match &expr.kind {
        ExprKind::Call(call) => held_by_call(coder, call),
        ExprKind::Assign(variable, _, value) => {
            held(coder, value).max(held_by_naming(coder, variable).saturating_add(1))
        }
        ExprKind::Change(variable, _) => held_by_naming(coder, variable),
        ExprKind::Built(code, arguments) => held_by_built(coder, *code, arguments),
        _ => 0,
    }
}
