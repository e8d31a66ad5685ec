// The operands of an instruction.
ghost use Rattle.std.specs.Prelude.{◌≡◌, ◌<◌, ◌||◌, not, Some, option_map};
ghost use Rattle.p8_tree.specs.Views.{tree_of, variable_of};
ghost use Rattle.p8_fold.specs.ConstantEntries.{setting_of};
ghost use Rattle.p8_fold.specs.Values.{where_so};
ghost use Rattle.p8_tree.specs.Faults.{fault};
ghost use Rattle.p8_tree.specs.declared.refusal.Refusal.TheVariants.{OperandRange};
ghost use Rattle.p8_dat.specs.Encoding.{is_address, field, field_of, name_of, name_alone, is_off_long, is_label_off_long};
ghost use Rattle.p8_dat.specs.FirstOfLine.{first_in_operand};

use p8_fold::{Consts, Meaning, value_of};
use p8_tree::{Expr, ExprKind, Fault, Place, Refusal, Target, Text};

// An operand's field, 0 where it is refused or isn't there, and why it is refused.
#[derive(Clone, Copy)]
pub(crate) struct Operand {
    pub(crate) field: u16,
    pub(crate) fault: Option<Fault>,
}

// The field of a value.
pub(crate) fn field(value: u32) -> u16
    ensures value { result ≡ field (Some value) }
    ensures in_range { result < 512 }
{
    if value < 512 { value as u16 } else { 0 }
}

// Whether a meaning is that of a label that doesn't stand on a long.
fn is_off_long(meaning: Option<Meaning>) -> bool
    ensures { result ≡ is_off_long meaning }
{
    match meaning {
        Some(Meaning::Label { offset, .. }) => offset % 4 != 0,
        _ => false,
    }
}

// The name of a variable that is a name alone.
fn name_of(variable: &Target) -> Option<&Text>
    ensures { option_map (λ t. t.now) result ≡ name_of (variable_of variable.now) }
{
    match variable {
        Target::Named(name, None, _) => Some(name),
        _ => None,
    }
}

// The name of an expression that is a name alone.
pub(crate) fn name_alone(expr: &Expr) -> Option<&Text>
    ensures { option_map (λ t. t.now) result ≡ name_alone (tree_of expr.now) }
{
    match &expr.kind {
        ExprKind::Var(variable) => name_of(variable),
        ExprKind::Number(_) | ExprKind::Str(_) | ExprKind::Here => None,
        ExprKind::Call(_) => None,
        ExprKind::Strings(_) => None,
        ExprKind::Unary(_, _) | ExprKind::Binary(_, _, _) => None,
        ExprKind::Assign(_, _, _) | ExprKind::Change(_, _) | ExprKind::Address(_) => None,
        ExprKind::ObjectAddress(_) | ExprKind::ObjConst(_, _, _) => None,
        ExprKind::Built(_, _) | ExprKind::Look(_, _, _) => None,
    }
}

// Whether an expression is the name of such a label alone.
fn is_label_off_long(expr: &Expr, consts: &Consts) -> bool
    ensures { result ≡ is_label_off_long (setting_of consts.now) (name_alone (tree_of expr.now)) }
{
    match name_alone(expr) {
        None => false,
        Some(name) => is_off_long(consts.meaning(name)),
    }
}

// An operand that is written, whose first token stands at this place.
fn written_operand(expr: &Expr, place: Place, consts: &Consts) -> Operand
    ensures field { result.field ≡ field_of (setting_of consts.now) (Some (tree_of expr.now)) }
    ensures in_range { result.field < 512 }
    ensures fault { result.fault ≡ first_in_operand (setting_of consts.now) (Some (tree_of expr.now)) place }
{
    match value_of(expr, consts) {
        Ok(value) => Operand {
            field: field(value),
            fault: range_fault(value, is_label_off_long(expr, consts), place),
        },
        Err(fault) => Operand {
            field: 0,
            fault: Some(fault),
        },
    }
}

// 21 where a value is no operand's.
fn range_fault(value: u32, off_long: bool, place: Place) -> Option<Fault>
    ensures { result ≡ where_so (not (is_address value) || off_long) (fault OperandRange place) }
{
    if value >= 512 || off_long {
        Some(Refusal::OperandRange.at(place))
    } else {
        None
    }
}

// An operand, if it is written.
pub(crate) fn operand_of(expr: &Option<Expr>, place: Place, consts: &Consts) -> Operand
    ensures field { result.field ≡ field_of (setting_of consts.now) (option_map tree_of expr.now) }
    ensures in_range { result.field < 512 }
    ensures fault { result.fault ≡ first_in_operand (setting_of consts.now) (option_map tree_of expr.now) place }
{
    match expr {
        None => Operand {
            field: 0,
            fault: None,
        },
        Some(expr) => written_operand(expr, place, consts),
    }
}
