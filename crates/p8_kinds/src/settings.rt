// What the names of a whole file mean where a constant is needed.
ghost use Rattle.std.specs.Prelude.{◌≡◌, ℕ, List, None, OnOk, IfOk};
ghost use Rattle.p8_fold.specs.ConstantEntries.{setting_of};
ghost use Rattle.p8_kinds.specs.FileSettings.{meaning_of_kind, named_constant, constant_among, constant_in, file_setting, HasEntered, HasMeaning, IsSettingOf};
ghost use Rattle.std.specs.Prelude.{slice_get};

use crate::children::{ChildConst, Children};
use crate::kinds::{Kinds, Names};
use crate::name_kinds::NameKind;
use p8_fold::{Consts, Meaning};
use p8_tree::Text;
use p8_words::NoMemory;
use std::alloc::Global;

/// What the names of a whole file mean where a constant is needed: constants have their values, after an object's name and `#`
/// stand the constants of its file, and all other names are no constants. `$` has no value.
pub fn consts_of(alloc: Global, kinds: &Kinds, children: &Children) -> Result<Consts, NoMemory>
    ensures { IfOk result (λ consts. setting_of consts ≡ file_setting kinds.now children.now) }
{
    let mut consts = Consts::new(alloc);
    match kinds.of_file() {
        None => Ok(consts),
        Some(names) => {
            enter_meanings(alloc, &mut consts, names, children)?;
            Ok(consts)
        }
    }
}

// Enters what each name means, where there is no entry yet. From the last name on: each then comes before all that are there, and
// the search for its place looks at one name a level.
fn enter_meanings(
    alloc: Global,
    consts: &mut Consts,
    names: &Names,
    children: &Children,
) -> Result<(), NoMemory>
    requires no_name { (name : List ℕ) → (setting_of consts.old).name name ≡ None }
    requires no_constant { (object name : List ℕ) → (setting_of consts.old).constant object name ≡ None }
    ensures entered { OnOk result (IsSettingOf names.now children.now (setting_of consts.new)) }
    ensures here { OnOk result ((setting_of consts.new).here ≡ (setting_of consts.old).here) }
{
    let mut left = names.iter();
    'entries: while let Some((name, kind)) = left.next_back() {
        let name = Text::copy_of(alloc, name.as_slice())?;
        enter_meaning(consts, &name, *kind, children)?;
    }
    Ok(())
}

// What a name of this kind means where a constant is needed.
fn meaning_of(kind: NameKind) -> Meaning
    ensures { result ≡ meaning_of_kind kind }
{
    match kind {
        NameKind::Const(value) => Meaning::Value(value),
        NameKind::Object { .. } => Meaning::Object,
        _ => Meaning::Other,
    }
}

// Enters what a name means, and what stands after it.
fn enter_meaning(
    consts: &mut Consts,
    name: &Text,
    kind: NameKind,
    children: &Children,
) -> Result<(), NoMemory>
    ensures { OnOk result (HasMeaning (setting_of consts.old) (setting_of consts.new) name.now kind children.now) }
{
    consts.set(None, name, meaning_of(kind))?;
    match kind {
        NameKind::Object { item, .. } => enter_child(consts, name, item, children),
        _ => Ok(()),
    }
}

// Enters the constants of the file of an item of OBJ.
fn enter_child(
    consts: &mut Consts,
    object: &Text,
    item: u32,
    children: &Children,
) -> Result<(), NoMemory>
    ensures { OnOk result (HasEntered (setting_of consts.old) (setting_of consts.new) object.now (constant_in (slice_get children.now.items item))) }
{
    match children.items.as_slice().get(item as usize) {
        None => Ok(()),
        Some(child) => enter_constants(consts, object, child.consts.as_slice()),
    }
}

// Enters the constants of an object, each where it has no entry yet.
fn enter_constants(
    consts: &mut Consts,
    object: &Text,
    constants: &[ChildConst],
) -> Result<(), NoMemory>
    ensures { OnOk result (HasEntered (setting_of consts.old) (setting_of consts.new) object.now (constant_among constants.now)) }
{
    for constant in constants {
        enter_constant(consts, object, constant)?;
    }
    Ok(())
}

// Enters a constant of an object, where it has no entry yet.
fn enter_constant(consts: &mut Consts, object: &Text, constant: &ChildConst) -> Result<(), NoMemory>
    ensures { OnOk result (HasEntered (setting_of consts.old) (setting_of consts.new) object.now (named_constant constant.now)) }
{
    if consts.constant(object, &constant.name).is_some() {
        return Ok(());
    }
    consts.set(Some(object), &constant.name, Meaning::Value(constant.value))
}
