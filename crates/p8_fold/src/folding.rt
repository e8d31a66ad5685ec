// The value of a tree, or the first of its faults. The calls go as deep as the tree is high.
ghost use Rattle.std.specs.Prelude.{◌≡◌, Some, None, Err};
ghost use Rattle.std.specs.Result.{result_err};
ghost use Rattle.p8_tree.specs.Views.{tree_of, variable_of, call_of, trees_of, items_of, item_of};
ghost use Rattle.p8_tree.specs.Bridges.{boxed_index};
ghost use Rattle.p8_tree.specs.Faults.{fault, with_further};
ghost use Rattle.p8_tree.specs.declared.refusal.Refusal.TheVariants.{NotConstant};
ghost use Rattle.p8_fold.specs.Meanings.{meaning_of, value_of_meaning, address_of_meaning, given};
ghost use Rattle.p8_fold.specs.ConstantEntries.{setting_of};
ghost use Rattle.p8_fold.specs.Values.{value_of_variable, address_of, fault_of_name, fault_of_call, fault_before, fault_between};
ghost use Rattle.p8_fold.specs.Verdicts.{or_fault, verdict_before, verdict_of_values, verdict_between, verdict_of_constant, verdict, verdict_of_form};
ghost use Rattle.p8_fold.specs.Verdicts.{verdict_of_built, built, fault_at, first_in_index, first_in_bits, first_in_item, first_in_trees};
ghost use Rattle.p8_fold.specs.Verdicts.{first_in_items, boxed_bits};

use crate::consts::Consts;
use crate::meanings::Meaning;
use p8_tree::{Call, Expr, ExprKind, Fault, Item, Place, Refusal, Target, Text, first_of_two};
use p8_words::{binary_result, divides, unary_result};

// What isn't constant, at its place.
fn not_constant(place: Place) -> Fault
    ensures { result ≡ fault NotConstant place }
{
    Refusal::NotConstant.at(place)
}

// A name that is no constant, by what it means.
fn fault_of_name(meaning: Option<Meaning>, place: Place) -> Fault
    ensures { result ≡ fault_of_name meaning place }
{
    match meaning {
        None => Refusal::Unknown.at(place),
        Some(_) => not_constant(place),
    }
}

// The value, or else the fault.
fn or_fault(value: Option<u32>, fault: Fault) -> Result<u32, Fault>
    ensures { result ≡ or_fault value fault }
{
    match value {
        Some(value) => Ok(value),
        None => Err(fault),
    }
}

// The fault of an operator before its operand, whatever the operand is.
fn fault_before(operator: u8, place: Place) -> Option<Fault>
    ensures { result ≡ fault_before operator place }
{
    match unary_result(operator, 0) {
        Some(_) => None,
        None => Some(not_constant(place)),
    }
}

fn verdict_before(operator: u8, place: Place, operand: Result<u32, Fault>) -> Result<u32, Fault>
    ensures { result ≡ verdict_before operator place operand }
{
    match operand {
        Ok(a) => or_fault(unary_result(operator, a), not_constant(place)),
        Err(fault) => Err(fault.with_further(fault_before(operator, place))),
    }
}

// The fault of an operator between its operands, by the value of the right one, if it has one.
fn fault_between(operator: u8, place: Place, right: Option<u32>) -> Option<Fault>
    ensures { result ≡ fault_between operator place right }
{
    if divides(operator) {
        match right {
            Some(0) => Some(Refusal::ZeroDivisor.at(place)),
            _ => None,
        }
    } else {
        match binary_result(operator, 0, 0) {
            Some(_) => None,
            None => Some(not_constant(place)),
        }
    }
}

fn verdict_of_values(operator: u8, place: Place, a: u32, b: u32) -> Result<u32, Fault>
    ensures { result ≡ verdict_of_values operator place a b (fault_between operator place (Some b)) }
{
    match fault_between(operator, place, Some(b)) {
        None => or_fault(binary_result(operator, a, b), not_constant(place)),
        Some(fault) => Err(fault),
    }
}

fn verdict_between(
    operator: u8,
    place: Place,
    left: Result<u32, Fault>,
    right: Result<u32, Fault>,
) -> Result<u32, Fault>
    ensures { result ≡ verdict_between operator place left right }
{
    match left {
        Ok(a) => match right {
            Ok(b) => verdict_of_values(operator, place, a, b),
            Err(other) => Err(other.with_further(fault_between(operator, place, None))),
        },
        Err(fault) => match right {
            Ok(b) => Err(fault.with_further(fault_between(operator, place, Some(b)))),
            Err(other) => {
                let first = fault.earlier(other);
                Err(first.with_further(fault_between(operator, place, None)))
            }
        },
    }
}

// `object#name`.
fn verdict_of_constant(
    consts: &Consts,
    object: &Text,
    name: &Text,
    first: Place,
    second: Place,
) -> Result<u32, Fault>
    ensures { result ≡ verdict_of_constant (setting_of consts.now) (meaning_of (setting_of consts.now) object.now) object.now name.now first second }
{
    match consts.meaning(object) {
        None => Err(Refusal::Unknown.at(first)),
        Some(Meaning::Object) => {
            let meaning = consts.constant(object, name);
            or_fault(value_of(meaning), fault_of_name(meaning, second))
        }
        Some(_) => Err(Refusal::WrongKind.at(first)),
    }
}

// The value of what a name means.
fn value_of(meaning: Option<Meaning>) -> Option<u32>
    ensures { result ≡ given value_of_meaning meaning }
{
    match meaning {
        Some(Meaning::Value(value)) => Some(value),
        Some(Meaning::Label { cog, .. }) => Some(cog),
        _ => None,
    }
}

// The value of `@` before a name.
fn address_of(meaning: Option<Meaning>) -> Option<u32>
    ensures { result ≡ given address_of_meaning meaning }
{
    match meaning {
        Some(Meaning::Label { offset, .. }) => Some(offset),
        _ => None,
    }
}

// The value of a name alone, or of a register.
fn value_of_variable(consts: &Consts, variable: &Target) -> Option<u32>
    ensures { result ≡ value_of_variable (setting_of consts.now) (variable_of variable.now) }
{
    match variable {
        Target::Named(name, None, _) => value_of(consts.meaning(name)),
        Target::Register(address, None, _) => consts.register(*address),
        _ => None,
    }
}

// The value of `@` and a name alone.
fn address_of_variable(consts: &Consts, variable: &Target) -> Option<u32>
    ensures { result ≡ address_of (setting_of consts.now) (variable_of variable.now) }
{
    match variable {
        Target::Named(name, None, _) => address_of(consts.meaning(name)),
        _ => None,
    }
}

// A call, at the object's name where there is one, else at the method's.
fn fault_of_call(
    consts: &Consts,
    object: &Option<Text>,
    method: &Text,
    first: Place,
    second: Place,
) -> Fault
    ensures { result ≡ fault_of_call (setting_of consts.now) object.now method.now first second }
{
    match object {
        Some(object) => fault_of_name(consts.meaning(object), first),
        None => fault_of_name(consts.meaning(method), second),
    }
}

// A built-in of one argument.
fn verdict_of_one(code: u8, place: Place, argument: Result<u32, Fault>) -> Result<u32, Fault>
    ensures { result ≡ built code (Some argument) (Err (with_further (fault NotConstant place) (result_err argument))) }
{
    if code == 0 {
        argument
    } else {
        Err(not_constant(place).with_further(argument.err()))
    }
}

// The value of a tree, or the first of its faults.
#[cycle(folding)]
pub(crate) fn verdict(consts: &Consts, expr: &Expr) -> Result<u32, Fault>
    ensures { result ≡ verdict (setting_of consts.now) (tree_of expr.now) }
{
    match &expr.kind {
        ExprKind::Number(value) => Ok(*value),
        ExprKind::Str(_) => Err(not_constant(expr.place)),
        ExprKind::Strings(items) => {
            let own = not_constant(expr.place);
            Err(own.with_further(first_in_trees(consts, items)))
        }
        ExprKind::Here => or_fault(consts.place(), not_constant(expr.place)),
        ExprKind::Var(variable) => {
            value_or_fault(consts, variable, value_of_variable(consts, variable))
        }
        ExprKind::Address(variable) => {
            value_or_fault(consts, variable, address_of_variable(consts, variable))
        }
        ExprKind::Call(call) => Err(first_in_call(consts, call, expr.place)),
        ExprKind::Unary(operator, operand) => {
            verdict_before(*operator, expr.place, verdict(consts, operand))
        }
        ExprKind::Binary(operator, left, right) => verdict_between(
            *operator,
            expr.place,
            verdict(consts, left),
            verdict(consts, right),
        ),
        ExprKind::Assign(variable, _, value) => {
            let own = fault_at(consts, variable);
            Err(own.with_further(verdict(consts, value).err()))
        }
        ExprKind::Change(variable, _) => Err(fault_at(consts, variable)),
        ExprKind::ObjectAddress(offset) => {
            let own = not_constant(expr.place);
            Err(own.with_further(verdict(consts, offset).err()))
        }
        ExprKind::ObjConst(object, name, place) => {
            verdict_of_constant(consts, object, name, expr.place, *place)
        }
        ExprKind::Built(code, arguments) => {
            verdict_of_built(consts, *code, expr.place, arguments)
        }
        ExprKind::Look(_, value, items) => {
            let own = not_constant(expr.place).with_further(verdict(consts, value).err());
            Err(own.with_further(first_in_items(consts, items)))
        }
    }
}

// The value of a variable, or else its fault, which takes a further look-up of its name.
#[cycle(folding)]
fn value_or_fault(consts: &Consts, variable: &Target, value: Option<u32>) -> Result<u32, Fault>
    ensures { result ≡ or_fault value (fault_at (setting_of consts.now) (variable_of variable.now)) }
{
    match value {
        Some(value) => Ok(value),
        None => Err(fault_at(consts, variable)),
    }
}

// The first fault of a call.
#[cycle(folding)]
fn first_in_call(consts: &Consts, call: &Call, place: Place) -> Fault
    ensures { Err result ≡ verdict_of_form (setting_of consts.now) place (call_of call.now) }
{
    let own = fault_of_call(consts, &call.object, &call.method, place, call.method_place);
    let own = own.with_further(first_in_index(consts, &call.index));
    own.with_further(first_in_trees(consts, &call.args))
}

// `CONSTANT` and its argument, or another built-in.
#[cycle(folding)]
fn verdict_of_built(
    consts: &Consts,
    code: u8,
    place: Place,
    arguments: &[Expr],
) -> Result<u32, Fault>
    ensures { result ≡ verdict_of_built (setting_of consts.now) place code (trees_of arguments.now) }
{
    if arguments.len() == 1 {
        verdict_of_one(code, place, verdict(consts, &arguments[0]))
    } else {
        Err(not_constant(place).with_further(first_in_trees(consts, arguments)))
    }
}

// The first fault of a variable that is no constant.
#[cycle(folding)]
fn fault_at(consts: &Consts, variable: &Target) -> Fault
    ensures { result ≡ fault_at (setting_of consts.now) (variable_of variable.now) }
{
    match variable {
        Target::Named(name, index, place) => {
            let own = fault_of_name(consts.meaning(name), *place);
            own.with_further(first_in_index(consts, index))
        }
        Target::Part(name, _, index, place) => {
            let own = fault_of_name(consts.meaning(name), *place);
            own.with_further(first_in_index(consts, index))
        }
        Target::Memory(_, address, index, place) => {
            let own = not_constant(*place).with_further(verdict(consts, address).err());
            own.with_further(first_in_index(consts, index))
        }
        Target::Register(_, bits, place) => {
            not_constant(*place).with_further(first_in_bits(consts, bits))
        }
    }
}

#[cycle(folding)]
fn first_in_index(consts: &Consts, index: &Option<Box<Expr>>) -> Option<Fault>
    ensures { result ≡ first_in_index (setting_of consts.now) (boxed_index index.now) }
{
    match index {
        None => None,
        Some(index) => verdict(consts, index).err(),
    }
}

#[cycle(folding)]
fn first_in_bits(consts: &Consts, bits: &Option<Box<Item>>) -> Option<Fault>
    ensures { result ≡ first_in_bits (setting_of consts.now) (boxed_bits bits.now) }
{
    match bits {
        None => None,
        Some(item) => first_in_item(consts, item),
    }
}

#[cycle(folding)]
fn first_in_item(consts: &Consts, item: &Item) -> Option<Fault>
    ensures { result ≡ first_in_item (setting_of consts.now) (item_of item.now) }
{
    match &item.high {
        None => verdict(consts, &item.low).err(),
        Some(high) => first_of_two(
            verdict(consts, &item.low).err(),
            verdict(consts, high).err(),
        ),
    }
}

#[cycle(folding)]
fn first_in_trees(consts: &Consts, trees: &[Expr]) -> Option<Fault>
    ensures { result ≡ first_in_trees (setting_of consts.now) (trees_of trees.now) }
{
    let mut first = None;
    for tree in trees {
        first = first_of_two(first, verdict(consts, tree).err());
    }
    first
}

#[cycle(folding)]
fn first_in_items(consts: &Consts, items: &[Item]) -> Option<Fault>
    ensures { result ≡ first_in_items (setting_of consts.now) (items_of items.now) }
{
    let mut first = None;
    for item in items {
        first = first_of_two(first, first_in_item(consts, item));
    }
    first
}
