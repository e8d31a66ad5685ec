// What is wrong with an expression's own name or word.
ghost use Rattle.std.specs.Prelude.{◌≡◌, length};
ghost use Rattle.p8_tree.specs.Views.{form_of, variable_of, call_of, trees_of};
ghost use Rattle.p8_tree.specs.Lists.{count_of_trees};
ghost use Rattle.p8_kinds.specs.declared.scope.Scope as scopes;
ghost use Rattle.p8_kinds.specs.Environments.{environment_of, kind_in};
ghost use Rattle.p8_kinds.specs.Misuses.{misuse, misuse_behind, misuse_of_constant, misuse_of_variable, misuse_of_value, misuse_of_call};
ghost use Rattle.p8_kinds.specs.Misuses.{misuse_of_arguments, own_misuse, unknown, unknown_variable, unknown_behind, unknown_call, own_unknown};
ghost use Rattle.p8_kinds.specs.FirstMisuses.{rule_of};

use crate::name_kinds::NameKind;
use crate::rules::Rules;
use crate::scope::Scope;
use crate::uses::{Use, argument_count};
use p8_tree::{Call, Expr, ExprKind, Fault, Place, Refusal, Target, Text};

// The fault of a name at its place.
pub(crate) fn misuse(way: Use, kind: Option<NameKind>, place: Place) -> Option<Fault>
    ensures { result ≡ misuse way kind place }
{
    match way.refusal(kind) {
        Some(refusal) => Some(refusal.at(place)),
        None => None,
    }
}

// `object.method`.
fn misuse_behind(
    scope: &Scope,
    kind: Option<NameKind>,
    method: &Text,
    arguments: usize,
    first: Place,
    second: Place,
) -> Option<Fault>
    ensures { result ≡ misuse_behind (environment_of scope.now) kind method.now arguments first second }
{
    match kind {
        Some(NameKind::Object { item, .. }) => misuse(
            Use::Method(arguments),
            scope.publics.own(item, method),
            second,
        ),
        _ => misuse(Use::Object, kind, first),
    }
}

// `object#name`.
fn misuse_of_constant(
    scope: &Scope,
    object: &Text,
    name: &Text,
    first: Place,
    second: Place,
) -> Option<Fault>
    ensures { result ≡ misuse_of_constant (environment_of scope.now) (kind_in (environment_of scope.now) object.now) object.now name.now first second }
{
    let kind = scope.kind(object);
    match kind {
        Some(NameKind::Object { .. }) => {
            if scope.consts.constant(object, name).is_some() {
                None
            } else {
                Some(Refusal::Unknown.at(second))
            }
        }
        _ => misuse(Use::Object, kind, first),
    }
}

// A variable that is written, or whose address is taken.
fn misuse_of_variable(scope: &Scope, variable: &Target) -> Option<Fault>
    ensures { result ≡ misuse_of_variable (environment_of scope.now) (variable_of variable.now) }
{
    match variable {
        Target::Named(name, _, place) | Target::Part(name, _, _, place) => {
            misuse(Use::Variable, scope.kind(name), *place)
        }
        Target::Memory(..) | Target::Register(..) => None,
    }
}

// A variable that is read.
fn misuse_of_value(scope: &Scope, variable: &Target) -> Option<Fault>
    ensures { result ≡ misuse_of_value (environment_of scope.now) (variable_of variable.now) }
{
    match variable {
        Target::Named(name, None, place) => misuse(Use::Value, scope.kind(name), *place),
        _ => misuse_of_variable(scope, variable),
    }
}

// A call with so many arguments.
fn misuse_of_call(
    scope: &Scope,
    object: &Option<Text>,
    method: &Text,
    arguments: usize,
    first: Place,
    second: Place,
) -> Option<Fault>
    ensures { result ≡ misuse_of_call (environment_of scope.now) object.now method.now arguments first second }
{
    match object {
        None => misuse(Use::Method(arguments), scope.kind(method), second),
        Some(object) => misuse_behind(scope, scope.kind(object), method, arguments, first, second),
    }
}

// A built-in with another number of arguments than it has.
fn misuse_of_arguments(code: u8, arguments: &[Expr], place: Place) -> Option<Fault>
    ensures { result ≡ misuse_of_arguments code (length arguments.now) place }
{
    if arguments.len() == argument_count(code) {
        None
    } else {
        Some(Refusal::WrongArity.at(place))
    }
}

fn own_misuse_of_call(scope: &Scope, call: &Call, place: Place) -> Option<Fault>
    ensures { result ≡ own_misuse (environment_of scope.now) place (call_of call.now) }
{
    misuse_of_call(
        scope,
        &call.object,
        &call.method,
        call.args.as_slice().len(),
        place,
        call.method_place,
    )
}

// What is wrong with an expression's own name or word in a method.
fn own_misuse(scope: &Scope, expr: &Expr) -> Option<Fault>
    ensures { result ≡ own_misuse (environment_of scope.now) expr.now.place (form_of expr.now.kind) }
{
    match &expr.kind {
        ExprKind::Var(variable) => misuse_of_value(scope, variable),
        ExprKind::Address(variable) => misuse_of_variable(scope, variable),
        ExprKind::Assign(variable, _, _) => misuse_of_variable(scope, variable),
        ExprKind::Change(variable, _) => misuse_of_variable(scope, variable),
        ExprKind::Call(call) => own_misuse_of_call(scope, call, expr.place),
        ExprKind::ObjConst(object, name, place) => {
            misuse_of_constant(scope, object, name, expr.place, *place)
        }
        ExprKind::Built(code, arguments) => misuse_of_arguments(*code, arguments, expr.place),
        _ => None,
    }
}

// A name without a definition.
fn unknown(kind: Option<NameKind>, place: Place) -> Option<Fault>
    ensures { result ≡ unknown kind place }
{
    if kind.is_some() {
        None
    } else {
        Some(Refusal::Unknown.at(place))
    }
}

fn unknown_variable(scope: &Scope, variable: &Target) -> Option<Fault>
    ensures { result ≡ unknown_variable (environment_of scope.now) (variable_of variable.now) }
{
    match variable {
        Target::Named(name, _, place) | Target::Part(name, _, _, place) => {
            unknown(scope.kind(name), *place)
        }
        Target::Memory(..) | Target::Register(..) => None,
    }
}

fn unknown_behind(
    scope: &Scope,
    kind: Option<NameKind>,
    method: &Text,
    first: Place,
    second: Place,
) -> Option<Fault>
    ensures { result ≡ unknown_behind (environment_of scope.now) kind method.now first second }
{
    match kind {
        Some(NameKind::Object { item, .. }) => unknown(scope.publics.own(item, method), second),
        _ => unknown(kind, first),
    }
}

fn unknown_call(
    scope: &Scope,
    object: &Option<Text>,
    method: &Text,
    first: Place,
    second: Place,
) -> Option<Fault>
    ensures { result ≡ unknown_call (environment_of scope.now) object.now method.now first second }
{
    match object {
        None => unknown(scope.kind(method), second),
        Some(object) => unknown_behind(scope, scope.kind(object), method, first, second),
    }
}

fn own_unknown_of_call(scope: &Scope, call: &Call, place: Place) -> Option<Fault>
    ensures { result ≡ own_unknown (environment_of scope.now) place (call_of call.now) }
{
    unknown_call(scope, &call.object, &call.method, place, call.method_place)
}

// What is wrong with an expression's own name in DAT.
fn own_unknown(scope: &Scope, expr: &Expr) -> Option<Fault>
    ensures { result ≡ own_unknown (environment_of scope.now) expr.now.place (form_of expr.now.kind) }
{
    match &expr.kind {
        ExprKind::Var(variable) => unknown_variable(scope, variable),
        ExprKind::Address(variable) => unknown_variable(scope, variable),
        ExprKind::Assign(variable, _, _) => unknown_variable(scope, variable),
        ExprKind::Change(variable, _) => unknown_variable(scope, variable),
        ExprKind::Call(call) => own_unknown_of_call(scope, call, expr.place),
        ExprKind::ObjConst(object, name, place) => {
            misuse_of_constant(scope, object, name, expr.place, *place)
        }
        _ => None,
    }
}

// What is wrong with an expression's own name or word.
pub(crate) fn own_fault(scope: &Scope, rules: Rules, expr: &Expr) -> Option<Fault>
    ensures { result ≡ (rule_of rules (environment_of scope.now)).own expr.now.place (form_of expr.now.kind) }
{
    match rules {
        Rules::Method => own_misuse(scope, expr),
        Rules::Data => own_unknown(scope, expr),
    }
}

// Whether the arguments of a built-in have to be constant there and then.
pub(crate) fn is_constant(rules: Rules, code: u8) -> bool
    ensures { (scope : scopes.Scope) → result ≡ (rule_of rules (environment_of scope)).is_constant code }
{
    match rules {
        Rules::Method => code == 0,
        Rules::Data => false,
    }
}
