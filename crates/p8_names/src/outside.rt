// What the names of a file mean, but for its constants.
ghost use Rattle.std.specs.Prelude.{◌≡◌, ℕ, List, [], ◌∷◌, ◌++◌, map, Some, None, OnOk, IfOk, option_map};
ghost use Rattle.std.specs.Map.{lookup};
ghost use Rattle.std.specs.Str.{bytes_eq};
ghost use Rattle.p8_fold.specs.ConstantEntries.{setting_of};
ghost use Rattle.p8_constants.specs.Names.{name_of, predefined as table};
ghost use Rattle.p8_constants.specs.Standing.{item_of, items_of, valued};
ghost use Rattle.p8_names.specs.Settings.{definition, meaning_of_item, meaning_outside, children_behind, object_with, constant_behind, outside_of};
ghost use Rattle.p8_names.specs.Changes.{IsPut, HasNames, over, HasConstants, HasConstantsOf, HasObjects, IsSameOutside, IsOutside};
ghost use Rattle.p8_kinds.specs.declared.children.Child.{Child as declared_child};
ghost use Rattle.p8_fold.specs.declared.meanings.Meaning.TheVariants.{Value};

use p8_constants::{Item, NameSet, NamedConstant};
use p8_fold::{Consts, Meaning};
use p8_kinds::{Child, ChildConst};
use p8_tree::Text;
use p8_words::NoMemory;
use std::alloc::Global;

// The meaning of a name by its first definition.
fn meaning_of(item: Item<'_>) -> Option<Meaning>
    ensures { result ≡ meaning_of_item (item_of item.entry) }
{
    match item {
        Item::Constant(_) => None,
        Item::Object(_) => Some(Meaning::Object),
        Item::Variable(_) | Item::Method(_) | Item::Line(_) => Some(Meaning::Other),
    }
}

// Puts a meaning at a name, or takes its entry away.
pub(crate) fn put_meaning(
    consts: &mut Consts,
    name: &Text,
    meaning: Option<Meaning>,
) -> Result<(), NoMemory>
    ensures { OnOk result (IsPut (setting_of consts.old) (setting_of consts.new) (Some name.now) meaning) }
{
    match meaning {
        Some(meaning) => consts.set(None, name, meaning),
        None => {
            consts.forget(name);
            Ok(())
        }
    }
}

fn put_item(consts: &mut Consts, item: Item<'_>) -> Result<(), NoMemory>
    ensures { OnOk result (IsPut (setting_of consts.old) (setting_of consts.new) (name_of (item_of item.entry)) (meaning_of_item (item_of item.entry))) }
{
    match item.name() {
        Some(name) => put_meaning(consts, name, meaning_of(item)),
        None => Ok(()),
    }
}

// Puts the meanings of items: from the last one on, so that the first definition counts.
fn put_items(consts: &mut Consts, items: &[Item<'_>]) -> Result<(), NoMemory>
    requires { (n : List ℕ) → (setting_of consts.old).name n ≡ None }
    ensures { OnOk result (HasNames (setting_of consts.old) (setting_of consts.new) (λ n. meaning_outside None (definition (items_of items.now) n))) }
{
    for at in (0..items.len()).rev() {
        put_item(consts, items[at])?;
    }
    Ok(())
}

// Puts the constants that the language defines over all else.
fn put_predefined(consts: &mut Consts, constants: &[NamedConstant]) -> Result<(), NoMemory>
    ensures { OnOk result (HasNames (setting_of consts.old) (setting_of consts.new)
        (λ n. over (lookup (bytes_eq n) (valued constants.now)) ((setting_of consts.old).name n))) }
{
    for at in (0..constants.len()).rev() {
        let constant = &constants[at];
        put_meaning(consts, &constant.name, Some(Meaning::Value(constant.value)))?;
    }
    Ok(())
}

// Puts the constants of an object's file after the object's name.
fn put_constants(
    consts: &mut Consts,
    owner: &Text,
    constants: &[ChildConst],
) -> Result<(), NoMemory>
    ensures { OnOk result (HasConstants (setting_of consts.old) (setting_of consts.new) owner.now
        (λ n. lookup (bytes_eq n) (map (λ x. (x.name, x.value)) constants.now))) }
{
    for at in (0..constants.len()).rev() {
        let constant = &constants[at];
        consts.set(Some(owner), &constant.name, Meaning::Value(constant.value))?;
    }
    Ok(())
}

// Puts those of an object, unless an object of its name stands before it.
fn put_unless_seen(
    consts: &mut Consts,
    seen: &NameSet,
    owner: &Text,
    child: &Child,
) -> Result<(), NoMemory>
    ensures constants { OnOk result ((done : List (List ℕ × declared_child)) → HasObjects (setting_of consts.old) seen.now done →
        HasConstantsOf (setting_of consts.new) (done ++ (owner.now, child.now) ∷ [])) }
    ensures same { OnOk result (IsSameOutside (setting_of consts.old) (setting_of consts.new)) }
{
    if seen.has(owner.as_slice()) {
        Ok(())
    } else {
        put_constants(consts, owner, child.consts.as_slice())
    }
}

// Puts those of an object, if it is the first one of its name.
fn put_object(
    consts: &mut Consts,
    seen: &mut NameSet,
    owner: &Text,
    child: &Child,
) -> Result<(), NoMemory>
    ensures objects { OnOk result ((done : List (List ℕ × declared_child)) → HasObjects (setting_of consts.old) seen.old done →
        HasObjects (setting_of consts.new) seen.new (done ++ (owner.now, child.now) ∷ [])) }
    ensures same { OnOk result (IsSameOutside (setting_of consts.old) (setting_of consts.new)) }
{
    put_unless_seen(consts, seen, owner, child)?;
    seen.put(owner.as_slice())?;
    Ok(())
}

// Goes after an item: an object takes the first child.
fn put_next<'a>(
    consts: &mut Consts,
    seen: &mut NameSet,
    item: Item<'_>,
    left: &'a [Child],
) -> Result<&'a [Child], NoMemory>
    ensures rest { IfOk result (λ rest. rest.now ≡ children_behind (item_of item.entry) left.now) }
    ensures objects { IfOk result (λ _. (done : List (List ℕ × declared_child)) → HasObjects (setting_of consts.old) seen.old done →
        HasObjects (setting_of consts.new) seen.new (done ++ object_with (item_of item.entry) left.now)) }
    ensures same { IfOk result (λ _. IsSameOutside (setting_of consts.old) (setting_of consts.new)) }
{
    match item {
        Item::Object(object) => match left {
            [child, rest @ ..] => {
                put_object(consts, seen, &object.name, child)?;
                Ok(rest)
            }
            [] => Ok(left),
        },
        _ => Ok(left),
    }
}

// Puts the constants of all objects.
fn put_objects(
    alloc: Global,
    consts: &mut Consts,
    items: &[Item<'_>],
    children: &[Child],
) -> Result<(), NoMemory>
    requires { (owner n : List ℕ) → (setting_of consts.old).constant owner n ≡ None }
    ensures constants { OnOk result ((owner n : List ℕ) →
        (setting_of consts.new).constant owner n ≡ option_map Value (constant_behind (items_of items.now) children.now owner n)) }
    ensures same { OnOk result (IsSameOutside (setting_of consts.old) (setting_of consts.new)) }
{
    let mut seen = NameSet::new(alloc);
    let mut left = children;
    for item in items {
        left = put_next(consts, &mut seen, *item, left)?;
    }
    Ok(())
}

/// What the names of a file mean, but for its constants.
pub(crate) fn outside(
    alloc: Global,
    items: &[Item<'_>],
    predefined: &[NamedConstant],
    children: &[Child],
) -> Result<Consts, NoMemory>
    requires { valued predefined.now ≡ table }
    ensures { IfOk result (λ consts. IsOutside (setting_of consts) (outside_of (items_of items.now) children.now)) }
{
    let mut consts = Consts::new(alloc);
    put_items(&mut consts, items)?;
    put_predefined(&mut consts, predefined)?;
    put_objects(alloc, &mut consts, items, children)?;
    Ok(consts)
}
