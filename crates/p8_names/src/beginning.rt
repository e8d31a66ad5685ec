// What is known of a file's names before their uses are looked at.
ghost use Rattle.std.specs.Prelude.{◌≡◌, IfOk};
ghost use Rattle.p8_tree.specs.Proper.{IsProperFile};
ghost use Rattle.p8_tree.specs.Views.{source_of};
ghost use Rattle.p8_fold.specs.ConstantEntries.{setting_of};
ghost use Rattle.p8_constants.specs.Constants.{IsConstantFault};
ghost use Rattle.p8_constants.specs.FileItems.{items as all_items};
ghost use Rattle.p8_constants.specs.Names.{predefined as table};
ghost use Rattle.p8_constants.specs.Standing.{items_of, valued, IsFirstOf};
ghost use Rattle.p8_names.specs.Settings.{IsSetting, outside as outside_file};
ghost use Rattle.p8_names.specs.Beginning.{IsBegun};

use crate::file_kinds::file_kinds;
use crate::outside::outside;
use p8_constants::{FileConstants, Item, NamedConstant, constants_of, items_of, predefined};
use p8_fold::Consts;
use p8_kinds::{Children, Scope, publics_of};
use p8_tree::{Fault, SourceFile};
use p8_words::NoMemory;
use std::alloc::Global;

/// A file's items, and what is known of its names.
#[derive(Drop)]
pub(crate) struct Begun<'a> {
    pub(crate) items: Vec<Item<'a>>,
    /// The constants that the language defines.
    pub(crate) predefined: Vec<NamedConstant>,
    /// The kinds of the names of the whole file, and what they mean where a constant is needed.
    pub(crate) scope: Scope,
    /// The first fault of the expressions of `CON`.
    pub(crate) fault: Option<Fault>,
}

// What the names of a file mean where a constant is needed, and the first fault of its constants.
fn meanings(
    alloc: Global,
    file: &SourceFile,
    children: &Children,
    items: &[Item<'_>],
    predefined: &[NamedConstant],
) -> Result<FileConstants, NoMemory>
    requires all { items_of items.now ≡ all_items (source_of file.now) }
    requires table { valued predefined.now ≡ table }
    ensures setting { IfOk result (λ found. IsSetting (source_of file.now) children.now.items (setting_of found.consts)) }
    ensures fault { IfOk result (λ found. IsFirstOf found.fault (IsConstantFault (outside_file (source_of file.now) children.now.items) (source_of file.now))) }
{
    let outside = outside(alloc, items, predefined, children.items.as_slice())?;
    Ok(constants_of(alloc, file, outside)?)
}

/// What the names of a file mean where a constant is needed: the constants of `CON` with their values, those that the language
/// defines, and after an object's name and `#` the constants of its file; all other names are no constants. A refused
/// expression counts as 0.
///
/// `children` has what is seen of the file of each item of `OBJ`, in order. It takes time and memory in proportion to the file
/// and to what is seen, but for look-ups of names, which take the logarithm of their number.
pub fn constants_in(
    alloc: Global,
    file: &SourceFile,
    children: &Children,
) -> Result<Consts, NoMemory>
    ensures { IfOk result (λ consts. IsSetting (source_of file.now) children.now.items (setting_of consts)) }
{
    let items = items_of(alloc, file)?;
    let predefined = predefined(alloc)?;
    let found = meanings(alloc, file, children, &items, &predefined)?;
    Ok(found.consts)
}

/// The items of a file, the kinds of its names and what they mean.
pub(crate) fn begin<'a>(
    alloc: Global,
    file: &'a SourceFile,
    children: &Children,
) -> Result<Begun<'a>, NoMemory>
    requires { IsProperFile (source_of file.now) }
    ensures { IfOk result (IsBegun (source_of file.now) children.now) }
{
    let items = items_of(alloc, file)?;
    let predefined = predefined(alloc)?;
    let FileConstants { consts, fault } = meanings(alloc, file, children, &items, &predefined)?;
    let kinds = file_kinds(alloc, &consts, &items, &predefined)?;
    let publics = publics_of(alloc, children)?;
    let scope = Scope {
        kinds,
        number: 0,
        publics,
        consts,
    };
    Ok(Begun {
        items,
        predefined,
        scope,
        fault,
    })
}
