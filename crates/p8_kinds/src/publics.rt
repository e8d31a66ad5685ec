// The methods of objects by their names.
ghost use Rattle.std.specs.Prelude.{◌≡◌, ℕ, ◌+◌, List, None, OnOk, IfOk, min};
ghost use Rattle.p8_kinds.specs.Kinds.{own, or_else};
ghost use Rattle.p8_kinds.specs.Publics.{named_method, method_among, public_of};

use crate::children::{ChildMethod, Children};
use crate::kinds::Kinds;
use crate::name_kinds::NameKind;
use p8_words::NoMemory;
use std::alloc::Global;

/// The `PUB`s of each object's file, by the object's number among the items of `OBJ`: methods with their numbers, from 1, and
/// how many parameters they have. Of two with one name the first counts.
pub fn publics_of(alloc: Global, children: &Children) -> Result<Kinds, NoMemory>
    ensures { IfOk result (λ kinds. (item : ℕ) → (name : List ℕ) → own kinds item name ≡ public_of children.now item name) }
{
    let mut kinds = Kinds::new(alloc);
    for (index, child) in children.items.as_slice().iter().enumerate() {
        let item = match u32::try_from(index) {
            Ok(item) => item,
            Err(_) => return Err(NoMemory),
        };
        enter_methods(&mut kinds, item, child.methods.as_slice())?;
    }
    Ok(kinds)
}

// Enters the methods of one object.
fn enter_methods(kinds: &mut Kinds, item: u32, methods: &[ChildMethod]) -> Result<(), NoMemory>
    requires { (name : List ℕ) → own kinds.old item name ≡ None }
    ensures entered { OnOk result ((name : List ℕ) → own kinds.new item name ≡ method_among 1 methods.now name) }
    ensures others { (other : ℕ) → (name : List ℕ) → ¬ (other ≡ item) → own kinds.new other name ≡ own kinds.old other name }
{
    for (index, method) in methods.iter().enumerate() {
        enter_method(kinds, item, number_of(index), method)?;
    }
    Ok(())
}

// A method's number by its place in the list.
fn number_of(index: usize) -> u8
    ensures { result ≡ min (index + 1) 255 }
{
    if index < 255 { index as u8 + 1 } else { 255 }
}

// Enters a method, where its name isn't there yet.
fn enter_method(
    kinds: &mut Kinds,
    item: u32,
    number: u8,
    method: &ChildMethod,
) -> Result<(), NoMemory>
    ensures entered { OnOk result ((name : List ℕ) → own kinds.new item name ≡ or_else (own kinds.old item name) (named_method number method.now name)) }
    ensures others { (other : ℕ) → (name : List ℕ) → ¬ (other ≡ item) → own kinds.new other name ≡ own kinds.old other name }
{
    if kinds.own(item, &method.name).is_some() {
        return Ok(());
    }
    let kind = NameKind::Method {
        number,
        params: method.params,
    };
    kinds.set(item, &method.name, kind)
}
