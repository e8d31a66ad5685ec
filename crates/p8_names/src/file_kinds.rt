// The kinds of the names of a whole file.
ghost use Rattle.std.specs.Prelude.{◌≡◌, ℕ, ◌<◌, List, ◌∷◌, Some, None, All, IfOk, OnOk, option_map};
ghost use Rattle.p8_tree.specs.Proper.{IsSize};
ghost use Rattle.p8_tree.specs.Views.{child_of, method_of};
ghost use Rattle.p8_fold.specs.ConstantEntries.{setting_of};
ghost use Rattle.p8_constants.specs.FileItems.{Item as item_tree, object as object_tree, method as method_tree};
ghost use Rattle.p8_constants.specs.Names.{predefined as table};
ghost use Rattle.p8_constants.specs.Standing.{item_of, items_of, valued};
ghost use Rattle.p8_kinds.specs.Kinds.{own};
ghost use Rattle.p8_names.specs.Kinds.{value_in, offset_in, item_kind, label_size, file_kind};
ghost use Rattle.p8_names.specs.Counting.{IsNext, HasSize, IsEntered, AreEntered};
ghost use Rattle.p8_fold.specs.declared.consts.Consts.{Consts as declared_consts};

use crate::labels::label_sizes;
use crate::next_kinds::{Next, first_next, go_behind, instances_of};
use p8_constants::{Item, NamedConstant};
use p8_fold::{Consts, Meaning};
use p8_kinds::{Kinds, NameKind};
use p8_tree::{Method, ObjItem, Text};
use p8_words::NoMemory;
use std::alloc::Global;

/// Where numbers stop.
const GREATEST_NUMBER: u8 = 255;

// The value of a constant.
fn value_in(consts: &Consts, name: &Option<Text>) -> u32
    ensures { result ≡ value_in (setting_of consts.now) name.now }
{
    match name {
        None => 0,
        Some(name) => value_of_name(consts, name),
    }
}

fn value_of_name(consts: &Consts, name: &Text) -> u32
    ensures { result ≡ value_in (setting_of consts.now) (Some name.now) }
{
    match consts.meaning(name) {
        Some(Meaning::Value(value)) => value,
        Some(Meaning::Label { cog, .. }) => cog,
        _ => 0,
    }
}

// Where a variable stands.
fn offset_of(next: &Next, size: u8) -> u32
    requires { IsSize size }
    ensures { (consts : declared_consts) (all before : List item_tree) → IsNext (setting_of consts) all before next.now →
        result ≡ offset_in (setting_of consts) all before size }
{
    match size {
        1 => next.byte,
        2 => next.word,
        _ => next.long,
    }
}

fn object_kind(next: &Next, consts: &Consts, object: &ObjItem) -> NameKind
    ensures { (all before behind : List item_tree) → IsNext (setting_of consts.now) all before next.now →
        result ≡ item_kind (setting_of consts.now) all before (object_tree (child_of object.now)) behind }
{
    NameKind::Object {
        item: next.item,
        position: next.position,
        count: instances_of(consts, object).min(u32::from(GREATEST_NUMBER)) as u8,
    }
}

fn method_kind(next: &Next, consts: &Consts, method: &Method) -> NameKind
    ensures { (all before behind : List item_tree) → IsNext (setting_of consts.now) all before next.now →
        result ≡ item_kind (setting_of consts.now) all before (method_tree (method_of method.now)) behind }
{
    NameKind::Method {
        number: if method.public {
            next.public
        } else {
            next.private
        },
        params: method.params.len().min(usize::from(GREATEST_NUMBER)) as u8,
    }
}

// The kind of what an item defines.
fn item_kind(next: &Next, consts: &Consts, item: Item<'_>, label: u8) -> NameKind
    requires { HasSize (item_of item) }
    ensures { (all before behind : List item_tree) → IsNext (setting_of consts.now) all before next.now →
        label ≡ label_size (item_of item.entry ∷ behind) → result ≡ item_kind (setting_of consts.now) all before (item_of item.entry) behind }
{
    match item {
        Item::Constant(item) => NameKind::Const(value_in(consts, &item.name)),
        Item::Variable(item) => NameKind::Global {
            size: item.size,
            offset: offset_of(next, item.size),
        },
        Item::Object(object) => object_kind(next, consts, object),
        Item::Method(method) => method_kind(next, consts, method),
        Item::Line(_) => NameKind::Label { size: label },
    }
}

// Enters the kind of a name of the whole file, unless it has one.
fn enter(kinds: &mut Kinds, name: Option<&Text>, kind: NameKind) -> Result<(), NoMemory>
    ensures { OnOk result (IsEntered kinds.old kinds.new (option_map (λ n. n.now) name.entry) kind) }
{
    match name {
        None => Ok(()),
        Some(name) => enter_name(kinds, name, kind),
    }
}

fn enter_name(kinds: &mut Kinds, name: &Text, kind: NameKind) -> Result<(), NoMemory>
    ensures { OnOk result (IsEntered kinds.old kinds.new (Some name.now) kind) }
{
    match kinds.own(0, name) {
        Some(_) => Ok(()),
        None => kinds.set(0, name, kind),
    }
}

// Enters the constants that the language defines.
fn enter_predefined(kinds: &mut Kinds, constants: &[NamedConstant]) -> Result<(), NoMemory>
    ensures { OnOk result (AreEntered kinds.old kinds.new (valued constants.now)) }
{
    for constant in constants {
        enter_name(kinds, &constant.name, NameKind::Const(constant.value))?;
    }
    Ok(())
}

/// The kinds of the names of a whole file.
pub(crate) fn file_kinds(
    alloc: Global,
    consts: &Consts,
    items: &[Item<'_>],
    predefined: &[NamedConstant],
) -> Result<Kinds, NoMemory>
    requires sizes { All HasSize (items_of items.now) }
    requires table { valued predefined.now ≡ table }
    ensures file { IfOk result (λ kinds. (n : List ℕ) → own kinds 0 n ≡ file_kind (setting_of consts.now) (items_of items.now) n) }
    ensures methods { IfOk result (λ kinds. (m : ℕ) (n : List ℕ) → 0 < m → own kinds m n ≡ None) }
{
    let mut kinds = Kinds::new(alloc);
    enter_predefined(&mut kinds, predefined)?;
    let labels = label_sizes(alloc, items)?;
    let mut next = first_next(consts, items);
    for (index, item) in items.iter().enumerate() {
        let kind = item_kind(&next, consts, *item, labels[index]);
        enter(&mut kinds, item.name(), kind)?;
        go_behind(&mut next, consts, *item)?;
    }
    Ok(kinds)
}
