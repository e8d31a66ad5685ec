// What is seen of a file.
ghost use Rattle.std.specs.Prelude.{◌≡◌, ℕ, List, ◌++◌, Some, IfOk, OnOk};
ghost use Rattle.p8_tree.specs.Views.{method_of, source_of};
ghost use Rattle.p8_fold.specs.ConstantEntries.{setting_of};
ghost use Rattle.p8_constants.specs.FileItems.{method as method_tree};
ghost use Rattle.p8_constants.specs.Names.{predefined_names};
ghost use Rattle.p8_constants.specs.Standing.{item_of, items_of, Holds};
ghost use Rattle.p8_names.specs.Settings.{is_one_of};
ghost use Rattle.p8_names.specs.Kinds.{value_in};
ghost use Rattle.p8_names.specs.Children.{shown_name, method_at, methods_from, named_constant, constant_at, constants_from, behind, IsChildOf};

use crate::beginning::constants_in;
use p8_constants::{Item, NameSet, items_of, predefined_names};
use p8_fold::{Consts, Meaning};
use p8_kinds::{Child, ChildConst, ChildMethod, Children};
use p8_tree::{List, Method, SourceFile, Text};
use p8_words::NoMemory;
use std::alloc::{AllocError, Global};

/// Where numbers of parameters stop.
const GREATEST_NUMBER: u8 = 255;

/// What is seen of a file, by what it sees itself of the files of its objects.
pub(crate) fn child_of(
    alloc: Global,
    file: &SourceFile,
    children: &Children,
) -> Result<Child, NoMemory>
    ensures { IfOk result (λ child. IsChildOf (source_of file.now) children.now.items child) }
{
    let items = items_of(alloc, file)?;
    let consts = constants_in(alloc, file, children)?;
    let child = shown(alloc, &items, &consts)?;
    Ok(child)
}

// What is seen of items. The names of the language come before theirs.
fn shown(alloc: Global, items: &[Item<'_>], consts: &Consts) -> Result<Child, AllocError>
    ensures methods { IfOk result (λ child. child.methods ≡ methods_from predefined_names (items_of items.now)) }
    ensures constants { IfOk result (λ child. child.consts ≡ constants_from (setting_of consts.now) predefined_names (items_of items.now)) }
{
    let mut before = predefined_names(alloc)?;
    let mut methods = List::new(alloc);
    let mut constants = List::new(alloc);
    for item in items {
        put_method(alloc, &mut methods, &before, *item)?;
        put_constant(alloc, &mut constants, &before, consts, *item)?;
        go_behind(&mut before, *item)?;
    }
    Ok(Child {
        methods,
        consts: constants,
    })
}

// Puts the name of an item to those before it.
fn go_behind(before: &mut NameSet, item: Item<'_>) -> Result<(), AllocError>
    ensures { OnOk result ((names : List (List ℕ)) → Holds before.old names → Holds before.new (behind names (item_of item.entry))) }
{
    match item.name() {
        None => Ok(()),
        Some(name) => before.put(name.as_slice()),
    }
}

fn is_one_of(before: &NameSet, name: &Text) -> bool
    ensures { (names : List (List ℕ)) → Holds before.now names → result ≡ is_one_of names name.now }
{
    before.has(name.as_slice())
}

// Puts an item, if it is a PUB.
fn put_method(
    alloc: Global,
    methods: &mut List<ChildMethod>,
    before: &NameSet,
    item: Item<'_>,
) -> Result<(), AllocError>
    ensures { OnOk result ((names : List (List ℕ)) → Holds before.now names → methods.new ≡ methods.old ++ method_at names (item_of item.entry)) }
{
    match item {
        Item::Method(method) => put_public(alloc, methods, before, method),
        _ => Ok(()),
    }
}

fn put_public(
    alloc: Global,
    methods: &mut List<ChildMethod>,
    before: &NameSet,
    method: &Method,
) -> Result<(), AllocError>
    ensures { OnOk result ((names : List (List ℕ)) → Holds before.now names →
        methods.new ≡ methods.old ++ method_at names (method_tree (method_of method.now))) }
{
    if !method.public {
        return Ok(());
    }
    let name = shown_name(alloc, before, &method.name)?;
    methods.push(ChildMethod {
        name,
        params: method.params.len().min(usize::from(GREATEST_NUMBER)) as u8,
    })
}

// The name of a PUB, unless it is defined before.
fn shown_name(alloc: Global, before: &NameSet, name: &Text) -> Result<Text, AllocError>
    ensures { IfOk result (λ shown. (names : List (List ℕ)) → Holds before.now names → shown ≡ shown_name names name.now) }
{
    if is_one_of(before, name) {
        return Ok(Text::from_vec(Vec::new(alloc)));
    }
    Text::copy_of(alloc, name.as_slice())
}

// Puts an item, if it is a constant whose name isn't defined before.
fn put_constant(
    alloc: Global,
    constants: &mut List<ChildConst>,
    before: &NameSet,
    consts: &Consts,
    item: Item<'_>,
) -> Result<(), AllocError>
    ensures { OnOk result ((names : List (List ℕ)) → Holds before.now names →
        constants.new ≡ constants.old ++ constant_at (setting_of consts.now) names (item_of item.entry)) }
{
    match item {
        Item::Constant(constant) => put_named(alloc, constants, before, consts, &constant.name),
        _ => Ok(()),
    }
}

fn put_named(
    alloc: Global,
    constants: &mut List<ChildConst>,
    before: &NameSet,
    consts: &Consts,
    name: &Option<Text>,
) -> Result<(), AllocError>
    ensures { OnOk result ((names : List (List ℕ)) → Holds before.now names →
        constants.new ≡ constants.old ++ named_constant (setting_of consts.now) names name.now) }
{
    match name {
        None => Ok(()),
        Some(name) => put_first(alloc, constants, before, consts, name),
    }
}

fn put_first(
    alloc: Global,
    constants: &mut List<ChildConst>,
    before: &NameSet,
    consts: &Consts,
    name: &Text,
) -> Result<(), AllocError>
    ensures { OnOk result ((names : List (List ℕ)) → Holds before.now names →
        constants.new ≡ constants.old ++ named_constant (setting_of consts.now) names (Some name.now)) }
{
    if is_one_of(before, name) {
        return Ok(());
    }
    constants.push(ChildConst {
        name: Text::copy_of(alloc, name.as_slice())?,
        value: value_of(consts, name),
    })
}

// The value of a constant.
fn value_of(consts: &Consts, name: &Text) -> u32
    ensures { result ≡ value_in (setting_of consts.now) (Some name.now) }
{
    match consts.meaning(name) {
        Some(Meaning::Value(value)) => value,
        Some(Meaning::Label { cog, .. }) => cog,
        _ => 0,
    }
}
