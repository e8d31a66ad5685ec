// The text of STRING with a list of items, and what is wrong with its items.
ghost use Rattle.std.specs.Prelude.{◌≡◌, ◌++◌, ◌%◌, ◌^◌, OnOk, option_map};
ghost use Rattle.p8_tree.specs.Views.{tree_of, trees_of};
ghost use Rattle.p8_words.specs.Operators.{or_zero};
ghost use Rattle.p8_fold.specs.ConstantEntries.{setting_of};
ghost use Rattle.p8_fold.specs.Values.{string_of, is_character, fault_of_character, characters, value, text_of_items};
ghost use Rattle.p8_fold.specs.Verdicts.{verdict, first_of_character, first_of_item, first_in_text};

use crate::consts::Consts;
use crate::values::{FoldFault, value_of};
use p8_tree::{Expr, ExprKind, Fault, Place, Refusal, Text, first_of_two};
use std::alloc::AllocError;

// The characters of an item that is a string.
fn string_of(item: &Expr) -> Option<&Text>
    ensures { option_map (λ t. t.now) result ≡ string_of (tree_of item.now) }
{
    match &item.kind {
        ExprKind::Str(text) => Some(text),
        ExprKind::Call(_) => None,
        ExprKind::Strings(_) => None,
        ExprKind::Number(_) | ExprKind::Here | ExprKind::Var(_) => None,
        ExprKind::Unary(_, _) | ExprKind::Binary(_, _, _) => None,
        ExprKind::Assign(_, _, _) | ExprKind::Change(_, _) | ExprKind::Address(_) => None,
        ExprKind::ObjectAddress(_) | ExprKind::ObjConst(_, _, _) => None,
        ExprKind::Built(_, _) | ExprKind::Look(_, _, _) => None,
    }
}

// Whether a value is a character's code.
fn is_character(code: u32) -> bool
    ensures { result ≡ is_character code }
{
    1 <= code && code <= 255
}

// The fault of an item that is no string, by its value.
fn first_of_character(value: Result<u32, FoldFault>, place: Place) -> Option<Fault>
    ensures { result ≡ first_of_character value place }
{
    match value {
        Ok(code) => {
            if is_character(code) {
                None
            } else {
                Some(Refusal::NotCharacter.at(place))
            }
        }
        Err(fault) => Some(fault),
    }
}

// The first fault of an item.
fn first_of_item(consts: &Consts, item: &Expr) -> Option<Fault>
    ensures { result ≡ first_of_item (setting_of consts.now) (string_of (tree_of item.now)) (tree_of item.now) }
{
    match string_of(item) {
        Some(_) => None,
        None => first_of_character(value_of(item, consts), item.place),
    }
}

/// The first fault of the items of `STRING`, where its text stands: an item that is no string has to be a constant from 1 to 255.
pub fn first_in_text(consts: &Consts, items: &[Expr]) -> Option<Fault>
    ensures { result ≡ first_in_text (setting_of consts.now) (trees_of items.now) }
{
    let mut first = None;
    for item in items {
        first = first_of_two(first, first_of_item(consts, item));
    }
    first
}

// The byte of a character, by its code.
fn character(code: Option<u32>) -> u8
    ensures { result ≡ or_zero code % 2 ^ 8 }
{
    match code {
        Some(code) => (code % 256) as u8,
        None => 0,
    }
}

// Puts what an item adds.
fn put_item(item: &Expr, consts: &Consts, text: &mut Vec<u8>) -> Result<(), AllocError>
    ensures { OnOk result (text.new.items ≡ text.old.items ++ characters (string_of (tree_of item.now)) (value (setting_of consts.now) (tree_of item.now))) }
{
    match string_of(item) {
        Some(string) => {
            text.extend_from_slice(string.as_slice())?;
            Ok(())
        }
        None => {
            text.push(character(value_of(item, consts).ok()))?;
            Ok(())
        }
    }
}

/// Puts the text of `STRING` with these items behind other characters: those of its strings and of its constants, in their
/// order, without the 0 behind the last one. Where there is no memory, a part of the text may stand there.
pub fn put_text(items: &[Expr], consts: &Consts, text: &mut Vec<u8>) -> Result<(), AllocError>
    ensures { OnOk result (text.new.items ≡ text.old.items ++ text_of_items (setting_of consts.now) (trees_of items.now)) }
{
    for item in items {
        put_item(item, consts, text)?;
    }
    Ok(())
}
