// Values of expressions, with what is wrong with them.
ghost use Rattle.std.specs.Prelude.{◌≡◌, Some, None, option_map, unwrap_or};
ghost use Rattle.p8_tree.specs.Views.{tree_of};
ghost use Rattle.p8_fold.specs.ConstantEntries.{setting_of};
ghost use Rattle.p8_fold.specs.Values.{value};
ghost use Rattle.p8_dat.specs.Spots.{number, string};
ghost use Rattle.p8_dat.specs.First.{first_in, first_in_number};

use p8_fold::{Consts, value_of};
use p8_tree::{Expr, ExprKind, Fault, Text};

// A value, 0 where it is refused, and the first reason for that.
#[derive(Clone, Copy)]
pub(crate) struct Evaluated {
    pub(crate) value: u32,
    pub(crate) fault: Option<Fault>,
}

pub(crate) fn evaluate(expr: &Expr, consts: &Consts) -> Evaluated
    ensures value { result.value ≡ unwrap_or (value (setting_of consts.now) (tree_of expr.now)) 0 }
    ensures fault { result.fault ≡ first_in (setting_of consts.now) (tree_of expr.now) }
{
    match value_of(expr, consts) {
        Ok(value) => Evaluated { value, fault: None },
        Err(fault) => Evaluated {
            value: 0,
            fault: Some(fault),
        },
    }
}

// A value of ORG or RES or a count, or this one where none is written.
pub(crate) fn number(expr: &Option<Expr>, default: u32, counts: &Consts) -> Evaluated
    ensures value { result.value ≡ number (setting_of counts.now) default (option_map tree_of expr.now) }
    ensures fault { result.fault ≡ first_in_number (setting_of counts.now) (option_map tree_of expr.now) }
{
    match expr {
        None => Evaluated {
            value: default,
            fault: None,
        },
        Some(expr) => evaluate(expr, counts),
    }
}

// The characters of a string.
pub(crate) fn string_of(expr: &Expr) -> Option<&Text>
    ensures { option_map (λ t. t.now) result ≡ string (tree_of expr.now) }
{
    match &expr.kind {
        ExprKind::Str(text) => Some(text),
        ExprKind::Call(_) => None,
        ExprKind::Strings(_) => None,
        ExprKind::Number(_) | ExprKind::Here | ExprKind::Var(_) => None,
        ExprKind::Unary(_, _) | ExprKind::Binary(_, _, _) => None,
        ExprKind::Assign(_, _, _) | ExprKind::Change(_, _) | ExprKind::Address(_) => None,
        ExprKind::ObjectAddress(_) | ExprKind::ObjConst(_, _, _) => None,
        ExprKind::Built(_, _) | ExprKind::Look(_, _, _) => None,
    }
}
