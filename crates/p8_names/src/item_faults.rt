// What is wrong with the items of a file, but for the uses of names.
ghost use Rattle.std.specs.Prelude.{◌≡◌, IfOk};
ghost use Rattle.p8_fold.specs.ConstantEntries.{setting_of};
ghost use Rattle.p8_constants.specs.Names.{predefined as table};
ghost use Rattle.p8_constants.specs.Standing.{items_of, valued, IsFirstOf};
ghost use Rattle.p8_names.specs.Resolving.{RepeatInFile, BrokenByItems};

use p8_constants::{
    Item, NamedConstant, file_names, first_count_fault, first_instance_fault, first_label_repeat,
    first_own_repeat, first_params_fault, lacks_pub,
};
use p8_fold::Consts;
use p8_tree::{Fault, first_of_two};
use std::alloc::{AllocError, Global};

/// The first name that is defined twice: one of the file, one of a method's own, or a local label.
pub(crate) fn first_repeat(
    alloc: Global,
    items: &[Item<'_>],
    predefined: &[NamedConstant],
) -> Result<Option<Fault>, AllocError>
    requires { valued predefined.now ≡ table }
    ensures { IfOk result (λ first. IsFirstOf first (RepeatInFile (items_of items.now))) }
{
    let found = file_names(alloc, items, predefined)?;
    let own = first_own_repeat(alloc, &found.names, items)?;
    let label = first_label_repeat(alloc, items)?;
    let other = first_of_two(own, label);
    Ok(first_of_two(found.repeated, other))
}

/// The first fault of methods' heads, of counts and of instances.
pub(crate) fn first_broken(consts: &Consts, items: &[Item<'_>], top: bool) -> Option<Fault>
    ensures { IsFirstOf result (BrokenByItems (setting_of consts.now) (items_of items.now) top) }
{
    let params = first_params_fault(items);
    let no_pub = lacks_pub(top, items);
    let head = first_of_two(params, no_pub);
    let count = first_count_fault(consts, items);
    let instances = first_instance_fault(consts, items);
    let counted = first_of_two(count, instances);
    first_of_two(head, counted)
}
