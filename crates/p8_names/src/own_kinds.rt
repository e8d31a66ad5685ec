// The methods of a file in the order of their numbers, and the kinds of their own names.
ghost use Rattle.std.specs.Prelude.{◌≡◌, ℕ, ◌*◌, ◌+◌, min, map, ◌++◌, ◌∷◌, [], if◌then◌else◌, IfOk, OnOk};
ghost use Rattle.p8_tree.specs.Views.{declared_of, method_of};
ghost use Rattle.p8_fold.specs.ConstantEntries.{setting_of};
ghost use Rattle.p8_constants.specs.Rules.{count_in};
ghost use Rattle.p8_constants.specs.Standing.{item_of, items_of};
ghost use Rattle.p8_names.specs.Kinds.{greatest_offset, public_in, private_in, publics, privates, numbered, param_kinds, result_kind, local_kinds};
ghost use Rattle.p8_names.specs.Kinds.{behind_longs, frame_kinds};
ghost use Rattle.p8_names.specs.Counting.{IsEnteredAt, AreEnteredAt};

use crate::next_kinds::advanced;
use p8_constants::{Item, count_value};
use p8_fold::Consts;
use p8_kinds::{Kinds, NameKind};
use p8_tree::{Method, Text, VarItem};
use p8_words::NoMemory;
use std::alloc::{AllocError, Global};

/// A number of longs at which offsets have stopped.
const GREATEST_COUNT: usize = 0x10_0000;

/// The methods of a file, in the order of their numbers.
pub fn numbered<'a>(alloc: Global, items: &[Item<'a>]) -> Result<Vec<&'a Method>, AllocError>
    ensures { IfOk result (λ v. map (λ m. method_of m.now) v.items ≡ numbered (items_of items.now)) }
{
    let mut methods = Vec::new(alloc);
    put_publics(items, &mut methods)?;
    put_privates(items, &mut methods)?;
    Ok(methods)
}

fn put_publics<'a>(items: &[Item<'a>], methods: &mut Vec<&'a Method>) -> Result<(), AllocError>
    ensures { OnOk result (map (λ m. method_of m.now) methods.new.items ≡ map (λ m. method_of m.now) methods.old.items ++ publics (items_of items.now)) }
{
    for item in items {
        put_public(*item, methods)?;
    }
    Ok(())
}

fn put_public<'a>(item: Item<'a>, methods: &mut Vec<&'a Method>) -> Result<(), AllocError>
    ensures { OnOk result (map (λ m. method_of m.now) methods.new.items ≡ map (λ m. method_of m.now) methods.old.items ++ public_in (item_of item.entry)) }
{
    match item {
        Item::Method(method) => put_where(method.public, method, methods),
        _ => Ok(()),
    }
}

fn put_privates<'a>(items: &[Item<'a>], methods: &mut Vec<&'a Method>) -> Result<(), AllocError>
    ensures { OnOk result (map (λ m. method_of m.now) methods.new.items ≡ map (λ m. method_of m.now) methods.old.items ++ privates (items_of items.now)) }
{
    for item in items {
        put_private(*item, methods)?;
    }
    Ok(())
}

fn put_private<'a>(item: Item<'a>, methods: &mut Vec<&'a Method>) -> Result<(), AllocError>
    ensures { OnOk result (map (λ m. method_of m.now) methods.new.items ≡ map (λ m. method_of m.now) methods.old.items ++ private_in (item_of item.entry)) }
{
    match item {
        Item::Method(method) => put_where(!method.public, method, methods),
        _ => Ok(()),
    }
}

// Puts a method after those before it, where it is so.
fn put_where<'a>(
    so: bool,
    method: &'a Method,
    methods: &mut Vec<&'a Method>,
) -> Result<(), AllocError>
    ensures { OnOk result (map (λ m. method_of m.now) methods.new.items ≡
        map (λ m. method_of m.now) methods.old.items ++ (if so then method_of method.now ∷ [] else [])) }
{
    if so {
        methods.push(method)?;
        Ok(())
    } else {
        Ok(())
    }
}

// Enters the kind of a method's own name, unless it has one.
pub(crate) fn enter(
    kinds: &mut Kinds,
    number: u32,
    name: &Text,
    kind: NameKind,
) -> Result<(), NoMemory>
    ensures { OnOk result (IsEnteredAt kinds.old kinds.new number name.now kind) }
{
    match kinds.own(number, name) {
        Some(_) => Ok(()),
        None => kinds.set(number, name, kind),
    }
}

// Enters the parameters.
fn enter_params(kinds: &mut Kinds, number: u32, params: &[Text]) -> Result<(), NoMemory>
    ensures { OnOk result (AreEnteredAt kinds.old kinds.new number (param_kinds 1 params.now)) }
{
    let mut offset = 4;
    for name in params {
        enter(kinds, number, name, NameKind::Local { offset })?;
        offset = advanced(offset, 4);
    }
    Ok(())
}

// How many longs a local has.
fn count_of_local(consts: &Consts, local: &VarItem) -> u32
    ensures { result ≡ count_in (setting_of consts.now) (declared_of local.now).count }
{
    count_value(consts, local.count.as_ref())
}

// Enters the locals, the first of which stands at an offset.
fn enter_locals(
    kinds: &mut Kinds,
    number: u32,
    consts: &Consts,
    first: u32,
    locals: &[VarItem],
) -> Result<(), NoMemory>
    ensures { OnOk result ((longs : ℕ) → first ≡ min (4 * longs) greatest_offset →
        AreEnteredAt kinds.old kinds.new number (local_kinds (setting_of consts.now) longs (map declared_of locals.now))) }
{
    let mut offset = first;
    for local in locals {
        enter(kinds, number, &local.name, NameKind::Local { offset })?;
        offset = advanced(offset, 4 * u64::from(count_of_local(consts, local)));
    }
    Ok(())
}

// Enters the result, which begins the frame.
fn enter_result(kinds: &mut Kinds, number: u32, name: &Option<Text>) -> Result<(), NoMemory>
    ensures { OnOk result (AreEnteredAt kinds.old kinds.new number (result_kind name.now)) }
{
    match name {
        None => Ok(()),
        Some(name) => enter_at_0(kinds, number, name),
    }
}

fn enter_at_0(kinds: &mut Kinds, number: u32, name: &Text) -> Result<(), NoMemory>
    ensures { OnOk result (AreEnteredAt kinds.old kinds.new number ((name.now, behind_longs 0) ∷ [])) }
{
    enter(kinds, number, name, NameKind::Local { offset: 0 })
}

// Where the first local stands, after the result and so many parameters.
fn first_local(params: usize) -> u32
    ensures { result ≡ min (4 * (params + 1)) greatest_offset }
{
    advanced(4, 4 * params.min(GREATEST_COUNT) as u64)
}

/// Enters the own names of a method at its number, where constants are told by a table that hides these names.
pub(crate) fn enter_own_names(
    kinds: &mut Kinds,
    number: u32,
    consts: &Consts,
    method: &Method,
) -> Result<(), NoMemory>
    ensures { OnOk result (AreEnteredAt kinds.old kinds.new number (frame_kinds (setting_of consts.now) (method_of method.now))) }
{
    enter_params(kinds, number, method.params.as_slice())?;
    enter_result(kinds, number, &method.result)?;
    let first = first_local(method.params.len());
    enter_locals(kinds, number, consts, first, method.locals.as_slice())?;
    Ok(())
}
