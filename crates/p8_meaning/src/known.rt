// What is known of constant trees: their values, and how long their code is.
ghost use Rattle.std.specs.Prelude.{◌≡◌};
ghost use Rattle.p8_tree.specs.Views.{tree_of, variable_of};
ghost use Rattle.p8_fold.specs.ConstantEntries.{setting_of};
ghost use Rattle.p8_meaning.specs.Constants.{value_meant, value_of_name, constants_in, both, constant_value, number_length, unary_length};
ghost use Rattle.p8_words.specs.Operators.{binary_value};
ghost use Rattle.p8_meaning.specs.Known.{longer, known_number, known_before, known_between, shorter_known, for_arguments};

use p8_fold::{Consts, Meaning};
use p8_tree::{Expr, ExprKind, Target, Text};
use p8_words::{ADD, binary, unary};

/// Which constant trees become numbers in a copy: those whose number isn't longer, or none.
#[derive(Clone, Copy)]
pub(crate) enum Numbers {
    Shorter,
    Kept,
}

/// A constant tree's value, and the length of its code in bytes, or 5 where it is longer. No number's code is longer
/// than that.
#[derive(Clone, Copy)]
pub(crate) struct Known {
    pub value: u32,
    pub length: u8,
}

// The length of the longest number's code, in bytes.
const LONGEST: u8 = 5;

impl Numbers {
    /// What is known of a tree that is a number or a name, by its value.
    pub fn of(self, value: Option<u32>) -> Option<Known>
        ensures { result ≡ known_number self value }
    {
        match self {
            Numbers::Shorter => known_number(value),
            Numbers::Kept => None,
        }
    }

    /// Which trees become numbers among so many arguments of a built-in: what stands in CONSTANT, which is 00, is kept.
    pub fn for_arguments(self, code: u8, count: usize) -> Numbers
        ensures { result ≡ for_arguments self code count }
    {
        if code == 0 && count == 1 {
            Numbers::Kept
        } else {
            self
        }
    }
}

// A number with the length of its code.
fn known_number(value: Option<u32>) -> Option<Known>
    ensures { result ≡ known_number Numbers.Shorter value }
{
    match value {
        None => None,
        Some(value) => Some(Known {
            value,
            length: number_length(value),
        }),
    }
}

// The length of a number's code.
fn number_length(number: u32) -> u8
    ensures { result ≡ number_length number }
{
    if number == 0 || number == 1 || number == u32::MAX {
        1
    } else if number < 1 << 8 {
        2
    } else if number < 1 << 16 {
        3
    } else if number < 1 << 24 {
        4
    } else {
        5
    }
}

/// An operator before what is known of its operand. The sign `+`, which is EC, has no byte.
pub(crate) fn before(operator: u8, operand: Option<Known>) -> Option<Known>
    ensures { result ≡ known_before operator operand }
{
    match operand {
        None => None,
        Some(a) => Some(Known {
            value: unary(operator, a.value),
            length: longer(a.length, unary_length(operator)),
        }),
    }
}

// The length of an operator before its operand.
fn unary_length(operator: u8) -> u8
    ensures { result ≡ unary_length operator }
{
    if operator == ADD { 0 } else { 1 }
}

/// An operator between what is known of its operands.
pub(crate) fn between(operator: u8, left: Option<Known>, right: Option<Known>) -> Option<Known>
    ensures { result ≡ known_between operator left right }
{
    match left {
        None => None,
        Some(a) => match right {
            None => None,
            Some(b) => Some(Known {
                value: binary(operator, a.value, b.value),
                length: longer(longer(a.length, b.length), 1),
            }),
        },
    }
}

// Two lengths together, up to the longest.
fn longer(length: u8, more: u8) -> u8
    ensures { result ≡ longer length more }
{
    length.saturating_add(more).min(LONGEST)
}

/// The value, where the number isn't longer than the tree.
pub(crate) fn shorter(known: Option<Known>) -> Option<u32>
    ensures { result ≡ shorter_known known }
{
    match known {
        None => None,
        Some(known) => {
            if number_length(known.value) <= known.length {
                Some(known.value)
            } else {
                None
            }
        }
    }
}

// The value of a constant, among what names mean.
fn value_meant(meaning: Option<Meaning>) -> Option<u32>
    ensures { result ≡ value_meant meaning }
{
    match meaning {
        Some(Meaning::Value(value)) => Some(value),
        _ => None,
    }
}

/// The value of a variable that is the name of a constant alone.
pub(crate) fn value_of_name(consts: &Consts, variable: &Target) -> Option<u32>
    ensures { result ≡ value_of_name (constants_in (setting_of consts.now)) (variable_of variable.now) }
{
    match variable {
        Target::Named(name, None, _) => value_meant(consts.meaning(name)),
        _ => None,
    }
}

/// The value of an object's constant.
pub(crate) fn value_behind(consts: &Consts, object: &Text, name: &Text) -> Option<u32>
    ensures { result ≡ (constants_in (setting_of consts.now)).behind object.now name.now }
{
    match consts.meaning(object) {
        Some(Meaning::Object) => value_meant(consts.constant(object, name)),
        _ => None,
    }
}

// The value of an operator between two values.
fn value_between(operator: u8, left: Option<u32>, right: Option<u32>) -> Option<u32>
    ensures { result ≡ both left right (binary_value operator) }
{
    match left {
        None => None,
        Some(a) => match right {
            None => None,
            Some(b) => Some(binary(operator, a, b)),
        },
    }
}

/// The value of a constant tree. The calls go as deep as the tree is high.
pub(crate) fn constant_value(consts: &Consts, expr: &Expr) -> Option<u32>
    ensures { result ≡ constant_value (constants_in (setting_of consts.now)) (tree_of expr.now) }
{
    match &expr.kind {
        ExprKind::Number(value) => Some(*value),
        ExprKind::Str(_) => None,
        ExprKind::Strings(_) => None,
        ExprKind::Here => None,
        ExprKind::Var(variable) => value_of_name(consts, variable),
        ExprKind::Call(_) => None,
        ExprKind::Unary(operator, operand) => match constant_value(consts, operand) {
            None => None,
            Some(value) => Some(unary(*operator, value)),
        },
        ExprKind::Binary(operator, left, right) => value_between(
            *operator,
            constant_value(consts, left),
            constant_value(consts, right),
        ),
        ExprKind::Assign(..) => None,
        ExprKind::Change(..) => None,
        ExprKind::Address(_) => None,
        ExprKind::ObjectAddress(_) => None,
        ExprKind::ObjConst(object, name, _) => value_behind(consts, object, name),
        ExprKind::Built(..) => None,
        ExprKind::Look(..) => None,
    }
}
