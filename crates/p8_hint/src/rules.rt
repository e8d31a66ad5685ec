// The rules on what stands in a method's body.
ghost use Rattle.std.specs.Prelude.{◌≡◌, ◌++◌, OnOk};
ghost use Rattle.std.specs.List.{flat_map};
ghost use Rattle.p8_tree.specs.Views.{tree_of, variable_of};
ghost use Rattle.p8_hint.specs.Rules.{assigned, begun_name, compared, in_port, in_spot, in_start, in_test, is_plain, is_short, is_value, lone_name};
ghost use Rattle.p8_hint.specs.Rules.{needed_by, own_method, of_address, of_stack, of_value, short, told};
ghost use Rattle.p8_hint.specs.SpotViews.{spot_of, spots_of};
ghost use Rattle.p8_hint.specs.Tables.{facts_of, text_now};

use crate::facts::FileFacts;
use crate::hint::{Hint, Slip};
use crate::spot::Spot;
use p8_tree::{Expr, ExprKind, Place, Target, Text};
use p8_words::{EQUAL, GREATER, LESS};
use std::alloc::AllocError;

/// Puts a hint, if it is told.
pub(crate) fn put_told(
    hints: &mut Vec<Hint>,
    is_told: bool,
    place: Place,
    slip: Slip,
) -> Result<(), AllocError>
    ensures { OnOk result (hints.new.items ≡ hints.old.items ++ told is_told place slip) }
{
    if is_told {
        hints.push(Hint { place, slip })?;
    }
    Ok(())
}

/// A name that stands alone.
pub(crate) fn lone_name(variable: &Target) -> Option<&Text>
    ensures { text_now result ≡ lone_name (variable_of variable.now) }
{
    match variable {
        Target::Named(name, index, _) => match index {
            None => Some(name),
            Some(_) => None,
        },
        Target::Part(..) => None,
        Target::Memory(..) => None,
        Target::Register(..) => None,
    }
}

// Whether a name that stands alone isn't a method's.
fn is_value(facts: &FileFacts, name: Option<&Text>) -> bool
    ensures { result ≡ is_value (facts_of facts.now) (text_now name.entry) }
{
    match name {
        None => false,
        Some(name) => !facts.needed.has(name.as_slice()),
    }
}

// Whether an expression could be compared as well, and has no effect of its own.
fn is_plain(facts: &FileFacts, expr: &Expr) -> bool
    ensures { result ≡ is_plain (facts_of facts.now) (tree_of expr.now) }
{
    match &expr.kind {
        ExprKind::Number(_) => true,
        ExprKind::ObjConst(..) => true,
        ExprKind::Var(variable) => is_value(facts, lone_name(variable)),
        _ => false,
    }
}

// An assignment by an operator, as a whole test.
fn put_compared(hints: &mut Vec<Hint>, place: Place, operator: u8) -> Result<(), AllocError>
    ensures { OnOk result (hints.new.items ≡ hints.old.items ++ compared place operator) }
{
    if operator == LESS {
        put_told(hints, true, place, Slip::AssignsLessInTest)
    } else if operator == GREATER {
        put_told(hints, true, place, Slip::AssignsGreaterInTest)
    } else if operator == EQUAL {
        put_told(hints, true, place, Slip::AssignsEqualInTest)
    } else {
        Ok(())
    }
}

fn put_assigned(
    hints: &mut Vec<Hint>,
    facts: &FileFacts,
    place: Place,
    operator: Option<u8>,
    value: &Expr,
) -> Result<(), AllocError>
    ensures { OnOk result (hints.new.items ≡ hints.old.items ++ assigned (facts_of facts.now) place operator (tree_of value.now)) }
{
    match operator {
        None => put_told(hints, is_plain(facts, value), place, Slip::AssignsInTest),
        Some(operator) => put_compared(hints, place, operator),
    }
}

// A whole test.
fn put_test(hints: &mut Vec<Hint>, facts: &FileFacts, test: &Expr) -> Result<(), AllocError>
    ensures { OnOk result (hints.new.items ≡ hints.old.items ++ in_test (facts_of facts.now) (tree_of test.now)) }
{
    match &test.kind {
        ExprKind::Assign(_, operator, value) => {
            put_assigned(hints, facts, test.place, *operator, value)
        }
        ExprKind::Number(_) => Ok(()),
        ExprKind::Str(_) => Ok(()),
        ExprKind::Strings(_) => Ok(()),
        ExprKind::Here => Ok(()),
        ExprKind::Var(_) => Ok(()),
        ExprKind::Call(_) => Ok(()),
        ExprKind::Unary(..) => Ok(()),
        ExprKind::Binary(..) => Ok(()),
        ExprKind::Change(..) => Ok(()),
        ExprKind::Address(_) => Ok(()),
        ExprKind::ObjectAddress(_) => Ok(()),
        ExprKind::ObjConst(..) => Ok(()),
        ExprKind::Built(..) => Ok(()),
        ExprKind::Look(..) => Ok(()),
    }
}

// A method of the same object.
fn own_method<'a>(object: &Option<Text>, method: &'a Text) -> Option<&'a Text>
    ensures { text_now result ≡ own_method object.now method.now }
{
    match object {
        None => Some(method),
        Some(_) => None,
    }
}

// The method that is started, where it is one of the file.
fn begun_name(begun: &Expr) -> Option<&Text>
    ensures { text_now result ≡ begun_name (tree_of begun.now) }
{
    match &begun.kind {
        ExprKind::Call(call) => own_method(&call.object, &call.method),
        ExprKind::Var(variable) => lone_name(variable),
        _ => None,
    }
}

// How many bytes a method takes.
fn needed_by(facts: &FileFacts, name: Option<&Text>) -> Option<u64>
    ensures { result ≡ needed_by (facts_of facts.now) (text_now name.entry) }
{
    match name {
        None => None,
        Some(name) => facts.needed.get(name.as_slice()),
    }
}

fn is_short(times: Option<u64>, bytes: u64, needed: u64) -> bool
    ensures { result ≡ is_short times bytes needed }
{
    match times {
        Some(times) => times == 1 && bytes < needed,
        None => false,
    }
}

fn put_short(
    hints: &mut Vec<Hint>,
    place: Place,
    array: Option<u64>,
    times: Option<u64>,
    needed: u64,
) -> Result<(), AllocError>
    ensures { OnOk result (hints.new.items ≡ hints.old.items ++ short place array times needed) }
{
    match array {
        None => Ok(()),
        Some(bytes) => put_told(
            hints,
            is_short(times, bytes, needed),
            place,
            Slip::ShortStack { bytes, needed },
        ),
    }
}

// A variable's value as a stack.
fn put_value(
    hints: &mut Vec<Hint>,
    facts: &FileFacts,
    place: Place,
    name: Option<&Text>,
) -> Result<(), AllocError>
    ensures { OnOk result (hints.new.items ≡ hints.old.items ++ of_value (facts_of facts.now) place (text_now name.entry)) }
{
    match name {
        None => Ok(()),
        Some(name) => put_told(
            hints,
            facts.array.has(name.as_slice()),
            place,
            Slip::NoAddress,
        ),
    }
}

// A variable's address as the stack of a method that takes so many bytes.
fn put_address(
    hints: &mut Vec<Hint>,
    facts: &FileFacts,
    needed: u64,
    place: Place,
    name: Option<&Text>,
) -> Result<(), AllocError>
    ensures { OnOk result (hints.new.items ≡ hints.old.items ++ of_address (facts_of facts.now) needed place (text_now name.entry)) }
{
    match name {
        None => Ok(()),
        Some(name) => put_short(
            hints,
            place,
            facts.array.get(name.as_slice()),
            facts.times.get(name.as_slice()),
            needed,
        ),
    }
}

// The stack of a method that takes so many bytes.
fn put_stack(
    hints: &mut Vec<Hint>,
    facts: &FileFacts,
    needed: u64,
    stack: &Expr,
) -> Result<(), AllocError>
    ensures { OnOk result (hints.new.items ≡ hints.old.items ++ of_stack (facts_of facts.now) needed (tree_of stack.now)) }
{
    match &stack.kind {
        ExprKind::Number(number) => {
            put_told(hints, *number == 0, stack.place, Slip::NoAddressAtAll)
        }
        ExprKind::Var(variable) => put_value(hints, facts, stack.place, lone_name(variable)),
        ExprKind::Address(variable) => {
            put_address(hints, facts, needed, stack.place, lone_name(variable))
        }
        _ => Ok(()),
    }
}

fn put_start(
    hints: &mut Vec<Hint>,
    facts: &FileFacts,
    needed: Option<u64>,
    stack: &Expr,
) -> Result<(), AllocError>
    ensures { OnOk result (hints.new.items ≡ hints.old.items ++ in_start (facts_of facts.now) needed (tree_of stack.now)) }
{
    match needed {
        None => Ok(()),
        Some(needed) => put_stack(hints, facts, needed, stack),
    }
}

// The port of a wait for pins.
fn put_port(hints: &mut Vec<Hint>, port: &Expr) -> Result<(), AllocError>
    ensures { OnOk result (hints.new.items ≡ hints.old.items ++ in_port (tree_of port.now)) }
{
    match &port.kind {
        ExprKind::Number(number) => put_told(hints, *number != 0, port.place, Slip::NotPortA),
        _ => Ok(()),
    }
}

fn put_spot(hints: &mut Vec<Hint>, facts: &FileFacts, spot: Spot<'_>) -> Result<(), AllocError>
    ensures { OnOk result (hints.new.items ≡ hints.old.items ++ in_spot (facts_of facts.now) (spot_of spot.entry)) }
{
    match spot {
        Spot::Name(_) => Ok(()),
        Spot::Reach(_) => Ok(()),
        Spot::Start(begun, stack) => {
            put_start(hints, facts, needed_by(facts, begun_name(begun)), stack)
        }
        Spot::Port(port) => put_port(hints, port),
        Spot::Test(test) => put_test(hints, facts, test),
        Spot::Bare(place) => put_told(hints, true, place, Slip::NoBody),
        Spot::Behind(place) => put_told(hints, true, place, Slip::NeverEnds),
    }
}

/// Puts what is told of a method's body.
pub(crate) fn put_spots(
    hints: &mut Vec<Hint>,
    facts: &FileFacts,
    spots: &[Spot<'_>],
) -> Result<(), AllocError>
    ensures { OnOk result (hints.new.items ≡ hints.old.items ++ flat_map (in_spot (facts_of facts.now)) (spots_of spots.now)) }
{
    for spot in spots {
        put_spot(hints, facts, *spot)?;
    }
    Ok(())
}
