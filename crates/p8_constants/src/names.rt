// The names that items define.
ghost use Rattle.std.specs.Prelude.{◌≡◌, ◌++◌, [], IfOk, OnOk, map, option_map};
ghost use Rattle.p8_constants.specs.Names.{name_of, place_of, names_of, label_name, defined_before, params_of, result_of, local_of, own_names};
ghost use Rattle.p8_tree.specs.Views.{method_of, declared_of};
ghost use Rattle.p8_constants.specs.Standing.{item_of, items_of, all_defined_of};

use crate::items::Item;
use p8_tree::{Method, Place, Text, VarItem};
use std::alloc::{AllocError, Global};

/// A name, and where it is defined.
#[derive(Clone, Copy)]
pub struct Defined<'a> {
    pub name: &'a Text,
    pub place: Place,
}

// A label that is a name of the file.
fn label_name(label: &Option<Text>) -> Option<&Text>
    ensures { option_map (λ n. n.now) result ≡ label_name label.now }
{
    match label {
        Some(name) if !name.is_local() => Some(name),
        _ => None,
    }
}

impl<'a> Item<'a> {
    /// The name that the item defines in the space of its file.
    pub fn name(self) -> Option<&'a Text>
        ensures { option_map (λ n. n.now) result ≡ name_of (item_of self.entry) }
    {
        match self {
            Item::Constant(item) => item.name.as_ref(),
            Item::Variable(item) => Some(&item.name),
            Item::Object(item) => Some(&item.name),
            Item::Method(method) => Some(&method.name),
            Item::Line(line) => label_name(&line.label),
        }
    }

    /// Where the item begins; of a method, where its name stands.
    pub fn place(self) -> Place
        ensures { result ≡ place_of (item_of self.entry) }
    {
        match self {
            Item::Constant(item) => item.place,
            Item::Variable(item) => item.place,
            Item::Object(item) => item.place,
            Item::Method(method) => method.place,
            Item::Line(line) => line.place,
        }
    }
}

/// The names that items define, in their order.
pub fn names_of<'a>(alloc: Global, items: &[Item<'a>]) -> Result<Vec<Defined<'a>>, AllocError>
    ensures { IfOk result (λ names. all_defined_of names.items ≡ names_of (items_of items.now)) }
{
    let mut names = Vec::new(alloc);
    for item in items {
        put_name(*item, &mut names)?;
    }
    Ok(names)
}

// Puts the name that an item defines after those before it, if it defines one.
fn put_name<'a>(item: Item<'a>, names: &mut Vec<Defined<'a>>) -> Result<(), AllocError>
    ensures { OnOk result (all_defined_of names.new.items ≡
        all_defined_of names.old.items ++ defined_before (name_of (item_of item.entry)) (place_of (item_of item.entry)) []) }
{
    match item.name() {
        Some(name) => {
            names.push(Defined {
                name,
                place: item.place(),
            })?;
            Ok(())
        }
        None => Ok(()),
    }
}

/// The names of a method's parameters, its result and its locals.
pub fn own_names<'a>(alloc: Global, method: &'a Method) -> Result<Vec<Defined<'a>>, AllocError>
    ensures { IfOk result (λ names. all_defined_of names.items ≡ own_names (method_of method.now)) }
{
    let mut names = Vec::new(alloc);
    put_params(
        method.params.as_slice(),
        method.param_places.as_slice(),
        &mut names,
    )?;
    put_result(&method.result, &method.result_place, &mut names)?;
    put_locals(method.locals.as_slice(), &mut names)?;
    Ok(names)
}

fn put_params<'a>(
    params: &'a [Text],
    places: &[Place],
    names: &mut Vec<Defined<'a>>,
) -> Result<(), AllocError>
    ensures { OnOk result (all_defined_of names.new.items ≡ all_defined_of names.old.items ++ params_of params.now places.now) }
{
    for (index, name) in params.iter().enumerate() {
        match places.get(index) {
            Some(place) => names.push(Defined {
                name,
                place: *place,
            })?,
            None => return Ok(()),
        }
    }
    Ok(())
}

fn put_result<'a>(
    name: &'a Option<Text>,
    place: &Option<Place>,
    names: &mut Vec<Defined<'a>>,
) -> Result<(), AllocError>
    ensures { OnOk result (all_defined_of names.new.items ≡ all_defined_of names.old.items ++ result_of name.now place.now) }
{
    match name {
        None => Ok(()),
        Some(name) => match place {
            None => Ok(()),
            Some(place) => {
                names.push(Defined {
                    name,
                    place: *place,
                })?;
                Ok(())
            }
        },
    }
}

fn put_locals<'a>(locals: &'a [VarItem], names: &mut Vec<Defined<'a>>) -> Result<(), AllocError>
    ensures { OnOk result (all_defined_of names.new.items ≡ all_defined_of names.old.items ++ map local_of (map declared_of locals.now)) }
{
    for local in locals {
        names.push(Defined {
            name: &local.name,
            place: local.place,
        })?;
    }
    Ok(())
}
