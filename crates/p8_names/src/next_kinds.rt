// The kinds of items, one after the other.
ghost use Rattle.std.specs.Prelude.{◌≡◌, ℕ, ◌<◌, ◌≤◌, ◌*◌, ◌+◌, ◌^◌, min, nat_lt, if◌then◌else◌, length, List, [], ◌∷◌, ◌++◌, All, IfOk, OnOk, option_map};
ghost use Rattle.p8_tree.specs.Proper.{IsSize};
ghost use Rattle.p8_tree.specs.Views.{tree_of, declared_of, child_of, method_of};
ghost use Rattle.p8_fold.specs.ConstantEntries.{setting_of};
ghost use Rattle.p8_constants.specs.FileItems.{Item as item_tree, variable, object as object_tree, method as method_tree};
ghost use Rattle.p8_constants.specs.Rules.{count_in};
ghost use Rattle.p8_constants.specs.Standing.{item_of, items_of};
ghost use Rattle.p8_names.specs.Kinds.{greatest_offset, greatest_number, bytes_in, room, method_in, public_in, methods, publics};
ghost use Rattle.p8_names.specs.Counting.{IsNext, HasSize, HasNoPart};

use p8_constants::{Item, count_value};
use p8_fold::{Consts, Meaning};
use p8_kinds::NameKind;
use p8_tree::{Expr, Method, ObjItem, Text, VarItem};
use p8_words::NoMemory;

/// Where offsets stop.
const GREATEST_OFFSET: u64 = 0x10_0000;

/// Where numbers stop.
const GREATEST_NUMBER: u64 = 255;

/// What the next item gets.
#[derive(Clone, Copy)]
pub(crate) struct Next {
    /// The offset of the next long.
    pub(crate) long: u32,
    /// The offset of the next word.
    pub(crate) word: u32,
    /// The offset of the next byte.
    pub(crate) byte: u32,
    /// The number of the next `PUB`.
    pub(crate) public: u8,
    /// The number of the next `PRI`.
    pub(crate) private: u8,
    /// The number of the next item of `OBJ`.
    pub(crate) item: u32,
    /// The place of the next object's first instance.
    pub(crate) position: u8,
}

// The bytes of a variable.
fn bytes_of(consts: &Consts, item: &VarItem) -> u64
    requires { IsSize item.now.size }
    ensures exact { result ≡ item.now.size * count_in (setting_of consts.now) (option_map tree_of item.now.count) }
    ensures bound { result < 2 ^ 35 }
{
    let count = u64::from(count_value(consts, item.count.as_ref()));
    match item.size {
        1 => count,
        2 => 2 * count,
        _ => 4 * count,
    }
}

// An offset so many bytes on, as far as offsets go.
pub(crate) fn advanced(offset: u32, bytes: u64) -> u32
    requires { bytes < 2 ^ 35 }
    ensures { result ≡ min (offset + bytes) greatest_offset }
{
    (u64::from(offset) + bytes).min(GREATEST_OFFSET) as u32
}

// A number of bytes, where it is so.
fn bytes_where(so: bool, bytes: u64) -> u64
    requires { bytes < 2 ^ 35 }
    ensures exact { result ≡ (if so then bytes else 0) }
    ensures bound { result < 2 ^ 35 }
{
    if so { bytes } else { 0 }
}

// The bytes of a variable of a greater size.
fn bytes_above(consts: &Consts, item: Item<'_>, size: u8) -> u64
    requires { HasSize (item_of item) }
    ensures exact { result ≡ bytes_in (setting_of consts.now) (nat_lt size) (item_of item.entry) }
    ensures bound { result < 2 ^ 35 }
{
    match item {
        Item::Variable(item) => bytes_where(size < item.size, bytes_of(consts, item)),
        _ => 0,
    }
}

// The bytes of all variables of greater sizes, as far as offsets go.
fn room_above(consts: &Consts, items: &[Item<'_>], size: u8) -> u32
    requires { All HasSize (items_of items.now) }
    ensures { result ≡ min (room (setting_of consts.now) (nat_lt size) (items_of items.now)) greatest_offset }
{
    let mut room = 0;
    for item in items {
        room = advanced(room, bytes_above(consts, *item, size));
    }
    room
}

fn is_method(item: Item<'_>) -> bool
    ensures { (if result then 1 else 0) ≡ length (method_in (item_of item.entry)) }
{
    match item {
        Item::Method(_) => true,
        _ => false,
    }
}

fn is_public(item: Item<'_>) -> bool
    ensures { (if result then 1 else 0) ≡ length (public_in (item_of item.entry)) }
{
    match item {
        Item::Method(method) => method.public,
        _ => false,
    }
}

// One more where it is so, as far as numbers go.
fn counted(number: u8, so: bool) -> u8
    ensures { result ≡ min (number + (if so then 1 else 0)) greatest_number }
{
    number.saturating_add(u8::from(so))
}

// After a variable.
fn behind_variable(next: &mut Next, consts: &Consts, item: &VarItem)
    requires { IsSize item.now.size }
    ensures { (all before : List item_tree) → IsNext (setting_of consts.now) all before next.old →
        IsNext (setting_of consts.now) all (before ++ variable (declared_of item.now) ∷ []) next.new }
{
    let bytes = bytes_of(consts, item);
    next.long = advanced(next.long, bytes_where(item.size == 4, bytes));
    next.word = advanced(next.word, bytes_where(item.size == 2, bytes));
    next.byte = advanced(next.byte, bytes_where(item.size == 1, bytes));
}

// After a method.
fn behind_method(next: &mut Next, consts: &Consts, method: &Method)
    ensures { (all before : List item_tree) → IsNext (setting_of consts.now) all before next.old →
        IsNext (setting_of consts.now) all (before ++ method_tree (method_of method.now) ∷ []) next.new }
{
    next.public = counted(next.public, method.public);
    next.private = counted(next.private, !method.public);
}

// The instances of an object.
pub(crate) fn instances_of(consts: &Consts, object: &ObjItem) -> u32
    ensures { result ≡ count_in (setting_of consts.now) (option_map tree_of object.now.count) }
{
    count_value(consts, object.count.as_ref())
}

// The place so many instances on, as far as places go.
fn behind_instances(position: u8, count: u32) -> u8
    ensures { result ≡ min (position + count) greatest_number }
{
    (u64::from(position) + u64::from(count)).min(GREATEST_NUMBER) as u8
}

// The number of the item after: there is no memory for more than a number tells.
pub(crate) fn one_more(item: u32) -> Result<u32, NoMemory>
    ensures { IfOk result (λ n. n ≡ item + 1) }
{
    item.checked_add(1).ok_or(NoMemory)
}

// After an object.
fn behind_object(next: &mut Next, consts: &Consts, object: &ObjItem) -> Result<(), NoMemory>
    ensures { OnOk result ((all before : List item_tree) → IsNext (setting_of consts.now) all before next.old →
        IsNext (setting_of consts.now) all (before ++ object_tree (child_of object.now) ∷ []) next.new) }
{
    next.position = behind_instances(next.position, instances_of(consts, object));
    next.item = one_more(next.item)?;
    Ok(())
}

// After any other item.
fn behind_nothing(next: &Next, consts: &Consts, item: Item<'_>)
    requires { HasNoPart (item_of item) }
    ensures { (all before : List item_tree) → IsNext (setting_of consts.now) all before next.now →
        IsNext (setting_of consts.now) all (before ++ item_of item.entry ∷ []) next.now }
{}

// After an item.
pub(crate) fn go_behind(next: &mut Next, consts: &Consts, item: Item<'_>) -> Result<(), NoMemory>
    requires { HasSize (item_of item) }
    ensures { OnOk result ((all before : List item_tree) → IsNext (setting_of consts.now) all before next.old →
        IsNext (setting_of consts.now) all (before ++ item_of item.entry ∷ []) next.new) }
{
    match item {
        Item::Variable(item) => {
            behind_variable(next, consts, item);
            Ok(())
        }
        Item::Method(method) => {
            behind_method(next, consts, method);
            Ok(())
        }
        Item::Object(object) => behind_object(next, consts, object),
        Item::Constant(_) | Item::Line(_) => {
            behind_nothing(next, consts, item);
            Ok(())
        }
    }
}

// The number of methods, and that of PUBs, as far as numbers go.
fn count_of_methods(items: &[Item<'_>]) -> u8
    ensures { result ≡ min (length (methods (items_of items.now))) greatest_number }
{
    let mut count = 0;
    for item in items {
        count = counted(count, is_method(*item));
    }
    count
}

fn count_of_publics(items: &[Item<'_>]) -> u8
    ensures { result ≡ min (length (publics (items_of items.now))) greatest_number }
{
    let mut count = 0;
    for item in items {
        count = counted(count, is_public(*item));
    }
    count
}

// What the first item gets.
pub(crate) fn first_next(consts: &Consts, items: &[Item<'_>]) -> Next
    requires { All HasSize (items_of items.now) }
    ensures { IsNext (setting_of consts.now) (items_of items.now) [] result }
{
    Next {
        long: room_above(consts, items, 4),
        word: room_above(consts, items, 2),
        byte: room_above(consts, items, 1),
        public: 1,
        private: count_of_publics(items).saturating_add(1),
        item: 0,
        position: count_of_methods(items).saturating_add(1),
    }
}
