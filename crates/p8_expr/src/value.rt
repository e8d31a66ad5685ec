// A whole operand.
ghost use Rattle.std.specs.Prelude.{◌≡◌, ◌<◌, ◌≤◌, ◌+◌, min, IfOk, MatchOption, IsTrue, ◌↔◌, ◌⊎◌, true, None, ℕ, suc, List};
ghost use Rattle.p8_tree.specs.declared.places.Place.{Place};
ghost use Rattle.p8_tree.specs.Views.{tree_of, items_of, variable_of};
ghost use Rattle.p8_grammar.specs.Grammar.{quoted, with_characters};
ghost use Rattle.p8_grammar.specs.Machine as machine;
ghost use Rattle.p8_grammar.specs.Machine.{tree_in, left_tree, left_variable};
ghost use Rattle.p8_grammar.specs.Heights.{height, height_in_variable};
ghost use Rattle.p8_expr.specs.Views.{left_of, IsHigh, target_in, is_alone, lone, Alone};

use crate::closing::extended;
use crate::parts::{Use, used};
use p8_tree::{Expr, ExprKind, Item, Place, Target, Text};
use std::alloc::{AllocError, Global};

/// The height from which on heights aren't told apart.
pub const TOO_HIGH: u8 = 65;

/// A height and 1, counted up to 65.
pub fn over(high: u8) -> u8
    ensures { result ≡ min 65 (high + 1) }
{
    if high < TOO_HIGH { high + 1 } else { TOO_HIGH }
}

/// A whole operand. Heights are counted up to 65.
#[derive(Drop)]
pub enum Value {
    /// A variable that is read and may be written, with the height of the highest expression in it; and whether it's a name
    /// alone.
    Variable {
        variable: Target,
        high: u8,
        alone: bool,
    },
    /// Another one, with its height. It lies in a box, so that what holds it stays small.
    Tree {
        tree: Box<Expr>,
        high: u8,
    },
}

impl Value {
    /// A form at its place, where the highest expression in it has this height.
    pub fn form(
        alloc: Global,
        place: Place,
        kind: ExprKind,
        highest: u8,
    ) -> Result<Value, AllocError>
        ensures { IfOk result (λ v. (left_of v ≡ left_tree (tree_of (record { place = place; kind = kind }))) ×
            ((n : ℕ) → highest ≡ min 65 n → height (tree_in (left_of v)) ≡ suc n → IsHigh v)) }
    {
        let tree = Box::new(alloc, Expr { place, kind })?;
        Ok(Value::Tree {
            tree,
            high: over(highest),
        })
    }

    /// Its height.
    pub fn high(&self) -> u8
        ensures { IsHigh self.now → result ≡ min 65 (height (tree_in (left_of self.now))) }
    {
        match self {
            Value::Variable { high, .. } => over(*high),
            Value::Tree { high, .. } => *high,
        }
    }

    /// The least height of an assignment of it, where it may be written.
    pub fn least_assigned(&self) -> Option<u8>
        ensures { IsHigh self.now → (r c : ℕ) (p : Place) (k : List machine.Frame) → Alone result (machine.infix_frame r c p (left_of self.now)) k }
    {
        match self {
            Value::Variable { high, .. } => Some(over((*high).max(1))),
            Value::Tree { .. } => None,
        }
    }

    /// A variable that may be written, with the height of the highest expression in it.
    pub fn into_variable(self) -> Option<(Target, u8)>
        ensures { MatchOption result (target_in self ≡ None) (λ x. (left_of self ≡ left_variable (variable_of x.0)) ×
            (IsHigh self → x.1 ≡ min 65 (height_in_variable (variable_of x.0)))) }
    {
        match self {
            Value::Variable { variable, high, .. } => Some((variable, high)),
            other => {
                drop(other);
                None
            }
        }
    }

    /// Its tree.
    pub fn into_tree(self, alloc: Global) -> Result<Box<Expr>, AllocError>
        ensures { IfOk result (λ e. tree_of e.value ≡ tree_in (left_of self)) }
    {
        match self {
            Value::Variable { variable, .. } => used(alloc, Use::Reading, variable),
            Value::Tree { tree, .. } => Ok(tree),
        }
    }

    /// Whether it is whole as an action: a variable that may be written is none, but for a name alone.
    pub fn is_action(&self) -> bool
        ensures { IsTrue result ↔ ((target_in self.now ≡ None) ⊎ (is_alone self.now ≡ true)) }
    {
        match self {
            Value::Variable { alone, .. } => *alone,
            Value::Tree { .. } => true,
        }
    }
}

/// A string as an item of `STRING`: one of one character is its code.
pub fn quoted(place: Place, string: Text) -> Expr
    ensures { tree_of result ≡ quoted place string }
{
    let [character] = string.as_slice() else {
        let kind = ExprKind::Str(string);
        return Expr { place, kind };
    };
    let kind = ExprKind::Number(u32::from(*character));
    Expr { place, kind }
}

/// More items, the characters of a string at its place.
pub fn with_characters(place: Place, text: &[u8], items: Vec<Item>) -> Result<Vec<Item>, AllocError>
    ensures { IfOk result (λ xs. items_of xs.items ≡ with_characters place text.now (items_of items.items)) }
{
    let mut items = items;
    let mut text = text;
    while let [character, rest @ ..] = text {
        let kind = ExprKind::Number(u32::from(*character));
        let more = Item {
            low: Expr { place, kind },
            high: None,
        };
        items = extended(items, more)?;
        text = rest;
    }
    Ok(items)
}

/// The rank below this one, where an operator between operands may have it.
pub fn rank_below(rank: u8) -> Option<u8>
    ensures { MatchOption result (¬ ((0 < rank) × (rank ≤ 10))) (λ lower. (rank ≡ suc lower) × (lower < 10)) }
{
    if rank == 0 {
        return None;
    }
    if rank > 10 {
        return None;
    }
    Some(rank - 1)
}

/// The only character of a string.
pub fn lone(string: &Text) -> Option<u8>
    ensures { result ≡ lone string.now }
{
    match string.as_slice() {
        [character] => Some(*character),
        _ => None,
    }
}
