// What the rules know of a file.
ghost use Rattle.std.specs.Prelude.{◌≡◌, ◌++◌, ◌<◌, ◌^◌, ◌+◌, ◌*◌, ℕ, List as list, length, map, OnOk, IfOk};
ghost use Rattle.std.specs.Str.{bytes_eq};
ghost use Rattle.p8_tree.specs.Views.{declared_of, method_of};
ghost use Rattle.p8_fold.specs.ConstantEntries.{setting_of};
ghost use Rattle.p8_constants.specs.Standing.{item_of, items_of as item_trees};
ghost use Rattle.p8_names.specs.Kinds.{numbered};
ghost use Rattle.p8_hint.specs.Rules.{after, is_open, mentions, once_more, reached_in, reaches, times_in};
ghost use Rattle.p8_hint.specs.FileFacts.{array_in, bytes_in, bytes_of, exposed_in, facts_by, is_array, item_open, needed_in, spots_of_item, spots_of_items};
ghost use Rattle.p8_hint.specs.SpotViews.{spot_of, spots_of};
ghost use Rattle.p8_hint.specs.Tables.{facts_of, number_in};

use crate::labels::labels_of;
use crate::spot::Spot;
use crate::statements::put_method;
use crate::table::Table;
use p8_constants::{Item, count_value};
use p8_fold::Consts;
use p8_stmt::MethodCode;
use p8_tree::{Method, VarItem};
use p8_words::NoMemory;
use std::alloc::{AllocError, Global};

/// What the rules know of a file.
#[derive(Drop)]
pub struct FileFacts {
    /// How many bytes a method's result, parameters, locals and operands take.
    pub needed: Table,
    /// How many bytes a variable of `VAR` with a count has.
    pub array: Table,
    /// 1 for a name that methods mention once, 2 for one that they mention more often.
    pub times: Table,
    /// 1 for a label at which an instruction stands, 0 for one at which something else may.
    pub on_code: Table,
    /// Whether a variable of `VAR` without a count may stand for those behind it.
    pub exposed: bool,
}

/// What is known of a file with these items, methods in the order of their numbers, and codes of them. `consts` are the constants that
/// the file sees.
pub(crate) fn facts_of_items(
    alloc: Global,
    consts: &Consts,
    items: &[Item<'_>],
    methods: &[&Method],
    codes: &[MethodCode],
) -> Result<FileFacts, NoMemory>
    requires codes { length codes.now ≡ length methods.now }
    requires methods { map (λ m. method_of m.now) methods.now ≡ numbered (item_trees items.now) }
    ensures { IfOk result (λ facts. facts_of facts ≡ facts_by codes.now (setting_of consts.now) (item_trees items.now)) }
{
    let spots = spots_of_items(alloc, items)?;
    let reached = reached_in(alloc, &spots)?;
    Ok(FileFacts {
        needed: needed_in(alloc, methods, codes)?,
        array: arrays_of(alloc, consts, items)?,
        times: times_in(alloc, &spots)?,
        on_code: labels_of(alloc, items)?,
        exposed: exposed_in(&reached, items),
    })
}

// What the rules look at in all methods.
fn spots_of_items<'a>(alloc: Global, items: &[Item<'a>]) -> Result<Vec<Spot<'a>>, AllocError>
    ensures { IfOk result (λ spots. spots_of spots.items ≡ spots_of_items (item_trees items.now)) }
{
    let mut spots = Vec::new(alloc);
    for item in items {
        put_item(*item, &mut spots)?;
    }
    Ok(spots)
}

fn put_item<'a>(item: Item<'a>, spots: &mut Vec<Spot<'a>>) -> Result<(), AllocError>
    ensures { OnOk result (spots_of spots.new.items ≡ spots_of spots.old.items ++ spots_of_item (item_of item.entry)) }
{
    match item {
        Item::Method(method) => put_method(method, spots),
        _ => Ok(()),
    }
}

/// How often names are mentioned.
pub(crate) fn times_in(alloc: Global, spots: &[Spot<'_>]) -> Result<Table, AllocError>
    ensures { IfOk result (λ table. (name : list ℕ) → number_in table name ≡ times_in (spots_of spots.now) name) }
{
    let mut table = Table::new(alloc);
    for at in (0..spots.len()).rev() {
        count_mention(&mut table, spots[at])?;
    }
    Ok(table)
}

fn count_mention(table: &mut Table, spot: Spot<'_>) -> Result<(), AllocError>
    ensures { OnOk result ((name : list ℕ) → number_in table.new name ≡ after (mentions name (spot_of spot.entry)) once_more (number_in table.old name)) }
{
    match spot {
        Spot::Name(name) => table.count(name.as_slice()),
        _ => Ok(()),
    }
}

/// How often the addresses of names are taken, or they have an index.
pub(crate) fn reached_in(alloc: Global, spots: &[Spot<'_>]) -> Result<Table, AllocError>
    ensures { IfOk result (λ table. (name : list ℕ) → number_in table name ≡ reached_in (spots_of spots.now) name) }
{
    let mut table = Table::new(alloc);
    for at in (0..spots.len()).rev() {
        count_reach(&mut table, spots[at])?;
    }
    Ok(table)
}

fn count_reach(table: &mut Table, spot: Spot<'_>) -> Result<(), AllocError>
    ensures { OnOk result ((name : list ℕ) → number_in table.new name ≡ after (reaches name (spot_of spot.entry)) once_more (number_in table.old name)) }
{
    match spot {
        Spot::Reach(name) => table.count(name.as_slice()),
        _ => Ok(()),
    }
}

// How many parameters a method has: there is no memory for more than a number tells.
fn parameters_of(method: &Method) -> Result<u64, NoMemory>
    ensures known { IfOk result (λ count. count ≡ length method.now.params) }
    ensures few { IfOk result (λ count. count < 2 ^ 32) }
{
    match u32::try_from(method.params.len()) {
        Ok(count) => Ok(u64::from(count)),
        Err(_) => Err(NoMemory),
    }
}

// How many bytes a method with this code takes, without those that it calls.
fn bytes_of(method: &Method, code: &MethodCode) -> Result<u64, NoMemory>
    ensures { IfOk result (λ bytes. bytes ≡ bytes_of (method_of method.now) code.now) }
{
    let count = parameters_of(method)?;
    Ok(sum_of(count, code.locals, code.depth))
}

// The bytes of a result, so many parameters, locals, and longs on the operand stack.
fn sum_of(count: u64, locals: u16, depth: u16) -> u64
    requires { count < 2 ^ 32 }
    ensures { result ≡ 4 * (1 + count) + locals + 4 * depth }
{
    4 * (1 + count) + u64::from(locals) + 4 * u64::from(depth)
}

// How many bytes methods with these codes take, by their names.
fn needed_in(alloc: Global, methods: &[&Method], codes: &[MethodCode]) -> Result<Table, NoMemory>
    requires { length codes.now ≡ length methods.now }
    ensures { IfOk result (λ table. (name : list ℕ) → number_in table name ≡ needed_in (map (λ m. method_of m.now) methods.now) codes.now name) }
{
    let mut table = Table::new(alloc);
    for at in (0..methods.len()).rev() {
        put_needed(&mut table, methods[at], &codes[at])?;
    }
    Ok(table)
}

fn put_needed(table: &mut Table, method: &Method, code: &MethodCode) -> Result<(), NoMemory>
    ensures { OnOk result ((name : list ℕ) → number_in table.new name ≡
        after (bytes_eq name method.now.name) (λ before. bytes_of (method_of method.now) code.now) (number_in table.old name)) }
{
    let bytes = bytes_of(method, code)?;
    table.put(method.name.as_slice(), bytes)?;
    Ok(())
}

// How many bytes the variables with a count have, by their names.
fn arrays_of(alloc: Global, consts: &Consts, items: &[Item<'_>]) -> Result<Table, AllocError>
    ensures { IfOk result (λ table. (name : list ℕ) → number_in table name ≡ array_in (setting_of consts.now) (item_trees items.now) name) }
{
    let mut table = Table::new(alloc);
    for at in (0..items.len()).rev() {
        put_array(&mut table, consts, items[at])?;
    }
    Ok(table)
}

fn put_array(table: &mut Table, consts: &Consts, item: Item<'_>) -> Result<(), AllocError>
    ensures { OnOk result ((name : list ℕ) → number_in table.new name ≡
        after (is_array name (item_of item.entry)) (λ before. bytes_in (setting_of consts.now) (item_of item.entry)) (number_in table.old name)) }
{
    match item {
        Item::Variable(variable) => match variable.count {
            None => Ok(()),
            Some(_) => {
                let count = count_value(consts, variable.count.as_ref());
                let bytes = u64::from(variable.size) * u64::from(count);
                table.put(variable.name.as_slice(), bytes)
            }
        },
        _ => Ok(()),
    }
}

/// Whether a variable without a count may stand for what is behind it.
pub(crate) fn is_open(reached: &Table, variable: &VarItem) -> bool
    ensures { result ≡ is_open (number_in reached.now) (declared_of variable.now) }
{
    variable.count.is_none() && reached.has(variable.name.as_slice())
}

fn item_open(reached: &Table, item: Item<'_>) -> bool
    ensures { result ≡ item_open (number_in reached.now) (item_of item.entry) }
{
    match item {
        Item::Variable(variable) => is_open(reached, variable),
        _ => false,
    }
}

fn exposed_in(reached: &Table, items: &[Item<'_>]) -> bool
    ensures { result ≡ exposed_in (number_in reached.now) (item_trees items.now) }
{
    for item in items {
        if item_open(reached, *item) {
            return true;
        }
    }
    false
}
