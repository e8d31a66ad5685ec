// The names of a file.
ghost use Rattle.std.specs.Prelude.{◌≡◌, ◌++◌, ◌+◌, ◌^◌, ◌<◌, codes, map, option_map, OnOk, IfOk};
ghost use Rattle.std.specs.List.{flat_map};
ghost use Rattle.std.specs.Fmt.{decimal};
ghost use Rattle.p8_tree.specs.Views.{declared_of, method_of, tree_of};
ghost use Rattle.p8_fold.specs.ConstantEntries.{setting_of};
ghost use Rattle.p8_constants.specs.Standing.{item_of, items_of as item_trees};
ghost use Rattle.p8_names.specs.Kinds.{object_in, objects};
ghost use Rattle.p8_map.specs.Accepting.{names_by};
ghost use Rattle.p8_map.specs.Names.{element_name, element_names, instance_names, local_name, method_names};
ghost use Rattle.p8_map.specs.Names.{names_by_count, spelled_all, spelled_by, variable_name};

use crate::labels::{label_places, labels_of};
use crate::spelled::{behind, first, spelled_by};
use itoa::Buffer;
use p8_build::AcceptedFile;
use p8_constants::{Item, count_value};
use p8_fold::Consts;
use p8_instr::push_text;
use p8_kinds::Label;
use p8_lexer::Spellings;
use p8_tree::{Expr, List, Method, Place, Text, VarItem};
use p8_words::NoMemory;
use std::alloc::Global;

/// A local of a method.
#[derive(Drop)]
pub struct LocalName {
    pub name: Text,
    /// How many longs it has.
    pub longs: u32,
}

/// The names of a method.
#[derive(Drop)]
pub struct MethodNames {
    pub name: Text,
    /// The name of its result, where it has one beside `RESULT`.
    pub result: Option<Text>,
    pub parameters: List<Text>,
    pub locals: List<LocalName>,
}

/// The names of a file, in the order in which its object has what they name.
#[derive(Drop)]
pub struct FileNames {
    /// The name of the file.
    pub file: Text,
    /// Those of its variables, in the order of the source.
    pub variables: List<Text>,
    /// The labels of its DAT, with their places.
    pub labels: List<Label>,
    /// Those of its methods, by their numbers.
    pub methods: List<MethodNames>,
    /// Those of the objects inside it; the elements of an array have their index in brackets.
    pub instances: List<Text>,
}

impl FileNames {
    /// The names of a file of this name, each as its text spells it where it is defined. `source` is the file's text, and `found` what was worked out of the
    /// file. The only error is want of memory.
    pub(crate) fn of(
        alloc: Global,
        name: &[u8],
        source: &Spellings<'_>,
        found: &AcceptedFile<'_>,
    ) -> Result<FileNames, NoMemory>
        ensures { IfOk result (λ names. names ≡ names_by source.now name.now found.now) }
    {
        let items = found.items.as_slice();
        let consts = &found.tables.consts;
        let places = label_places(alloc, items)?;
        Ok(FileNames {
            file: Text::copy_of(alloc, name)?,
            variables: variables_of(alloc, source, items)?,
            labels: labels_of(alloc, source, &places, found.dat.labels.as_slice())?,
            methods: methods_of(alloc, source, consts, found.methods.as_slice())?,
            instances: instances_of(alloc, source, consts, items)?,
        })
    }
}

/// The names of the variables among items.
fn variables_of(
    alloc: Global,
    source: &Spellings<'_>,
    items: &[Item<'_>],
) -> Result<List<Text>, NoMemory>
    ensures { IfOk result (λ names. names ≡ flat_map (variable_name source.now) (item_trees items.now)) }
{
    let mut names = List::new(alloc);
    for item in items {
        put_variable(alloc, &mut names, source, *item)?;
    }
    Ok(names)
}

fn put_variable(
    alloc: Global,
    names: &mut List<Text>,
    source: &Spellings<'_>,
    item: Item<'_>,
) -> Result<(), NoMemory>
    ensures { OnOk result (names.new ≡ names.old ++ variable_name source.now (item_of item.entry)) }
{
    match item {
        Item::Variable(variable) => {
            names.push(source.spelled(alloc, variable.place, variable.name.as_slice())?)?;
            Ok(())
        }
        _ => Ok(()),
    }
}

/// The names of some methods.
fn methods_of(
    alloc: Global,
    source: &Spellings<'_>,
    consts: &Consts,
    methods: &[&Method],
) -> Result<List<MethodNames>, NoMemory>
    ensures { IfOk result (λ names. names ≡ map (method_names source.now (setting_of consts.now)) (map (λ m. method_of m.now) methods.now)) }
{
    let mut names = List::new(alloc);
    for method in methods {
        names.push(names_of_method(alloc, source, consts, method)?)?;
    }
    Ok(names)
}

fn names_of_method(
    alloc: Global,
    source: &Spellings<'_>,
    consts: &Consts,
    method: &Method,
) -> Result<MethodNames, NoMemory>
    ensures { IfOk result (λ names. names ≡ method_names source.now (setting_of consts.now) (method_of method.now)) }
{
    Ok(MethodNames {
        name: source.spelled(alloc, method.place, method.name.as_slice())?,
        result: result_of(alloc, source, method.result_place, &method.result)?,
        parameters: parameters_of(
            alloc,
            source,
            method.param_places.as_slice(),
            method.params.as_slice(),
        )?,
        locals: locals_of(alloc, source, consts, method.locals.as_slice())?,
    })
}

/// The name of a method's result, where it has one.
fn result_of(
    alloc: Global,
    source: &Spellings<'_>,
    place: Option<Place>,
    name: &Option<Text>,
) -> Result<Option<Text>, NoMemory>
    ensures { IfOk result (λ spelled. spelled ≡ option_map (spelled_by source.now place) name.now) }
{
    match name {
        Some(name) => Ok(Some(spelled_by(alloc, source, place, name)?)),
        None => Ok(None),
    }
}

/// The names of parameters, which stand at these places.
fn parameters_of(
    alloc: Global,
    source: &Spellings<'_>,
    places: &[Place],
    parameters: &[Text],
) -> Result<List<Text>, NoMemory>
    ensures { IfOk result (λ names. names ≡ spelled_all source.now places.now parameters.now) }
{
    let mut names = List::new(alloc);
    let mut rest = places;
    for name in parameters {
        names.push(spelled_by(alloc, source, first(rest), name)?)?;
        rest = behind(rest);
    }
    Ok(names)
}

/// The names of locals.
fn locals_of(
    alloc: Global,
    source: &Spellings<'_>,
    consts: &Consts,
    locals: &[VarItem],
) -> Result<List<LocalName>, NoMemory>
    ensures { IfOk result (λ names. names ≡ map (local_name source.now (setting_of consts.now)) (map declared_of locals.now)) }
{
    let mut names = List::new(alloc);
    for local in locals {
        names.push(LocalName {
            name: source.spelled(alloc, local.place, local.name.as_slice())?,
            longs: count_value(consts, local.count.as_ref()),
        })?;
    }
    Ok(names)
}

/// The names of the instances of objects that items stand for.
fn instances_of(
    alloc: Global,
    source: &Spellings<'_>,
    consts: &Consts,
    items: &[Item<'_>],
) -> Result<List<Text>, NoMemory>
    ensures { IfOk result (λ names. names ≡ flat_map (instance_names source.now (setting_of consts.now)) (objects (item_trees items.now))) }
{
    let mut names = List::new(alloc);
    for item in items {
        put_item(alloc, &mut names, source, consts, *item)?;
    }
    Ok(names)
}

fn put_item(
    alloc: Global,
    names: &mut List<Text>,
    source: &Spellings<'_>,
    consts: &Consts,
    item: Item<'_>,
) -> Result<(), NoMemory>
    ensures { OnOk result (names.new ≡ names.old ++ flat_map (instance_names source.now (setting_of consts.now)) (object_in (item_of item.entry))) }
{
    match item {
        Item::Object(object) => {
            let name = source.spelled(alloc, object.place, object.name.as_slice())?;
            put_instances(alloc, names, consts, &name, object.count.as_ref())
        }
        _ => Ok(()),
    }
}

/// Puts the names of the instances that an item of `OBJ` stands for.
fn put_instances(
    alloc: Global,
    names: &mut List<Text>,
    consts: &Consts,
    name: &Text,
    count: Option<&Expr>,
) -> Result<(), NoMemory>
    ensures { OnOk result (names.new ≡ names.old ++ names_by_count (setting_of consts.now) name.now (option_map (λ e. tree_of e.now) count.entry)) }
{
    match count {
        None => {
            names.push(Text::copy_of(alloc, name.as_slice())?)?;
            Ok(())
        }
        Some(_) => put_elements(alloc, names, name, count_value(consts, count)),
    }
}

/// Puts the names of so many elements of an array of objects.
fn put_elements(
    alloc: Global,
    names: &mut List<Text>,
    name: &Text,
    count: u32,
) -> Result<(), NoMemory>
    ensures { OnOk result (names.new ≡ names.old ++ element_names name.now 0 count) }
{
    for index in 0..count {
        names.push(element(alloc, name, index)?)?;
    }
    Ok(())
}

/// The name of an element of an array of objects.
fn element(alloc: Global, name: &Text, index: u32) -> Result<Text, NoMemory>
    ensures { IfOk result (λ element. element ≡ element_name name.now index) }
{
    let mut bytes = Vec::new(alloc);
    push_text(&mut bytes, name.as_slice())?;
    push_text(&mut bytes, b"[")?;
    push_text(
        &mut bytes,
        Buffer::new().format(u64::from(index)).as_bytes(),
    )?;
    push_text(&mut bytes, b"]")?;
    Ok(Text::from_vec(bytes))
}
