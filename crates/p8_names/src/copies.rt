// Copies of what is seen of a file.
ghost use Rattle.std.specs.Prelude.{◌≡◌, ◌++◌, OnOk, IfOk, slice_get};
ghost use Rattle.std.specs.List.{filter_map};
ghost use Rattle.std.specs.Option.{option_to_list};

use p8_kinds::{Child, ChildConst, ChildMethod, Children};
use p8_tree::{List, Text};
use std::alloc::{AllocError, Global};

/// What is seen of the files of these numbers, in this order.
pub(crate) fn children_at(
    alloc: Global,
    targets: &[usize],
    seen: &[Child],
) -> Result<Children, AllocError>
    ensures { IfOk result (λ children. children.items ≡ filter_map (slice_get seen.now) targets.now) }
{
    let mut items = List::new(alloc);
    for target in targets {
        put_copy(alloc, &mut items, seen, *target)?;
    }
    Ok(Children { items })
}

fn put_copy(
    alloc: Global,
    items: &mut List<Child>,
    seen: &[Child],
    target: usize,
) -> Result<(), AllocError>
    ensures { OnOk result (items.new ≡ items.old ++ option_to_list (slice_get seen.now target)) }
{
    match seen.get(target) {
        None => Ok(()),
        Some(child) => items.push(copy_of(alloc, child)?),
    }
}

fn copy_of(alloc: Global, child: &Child) -> Result<Child, AllocError>
    ensures { IfOk result (λ copy. copy ≡ child.now) }
{
    let methods = methods_of(alloc, child.methods.as_slice())?;
    let consts = consts_of(alloc, child.consts.as_slice())?;
    Ok(Child { methods, consts })
}

fn methods_of(alloc: Global, methods: &[ChildMethod]) -> Result<List<ChildMethod>, AllocError>
    ensures { IfOk result (λ copies. copies ≡ methods.now) }
{
    let mut copies = List::new(alloc);
    for method in methods {
        copies.push(ChildMethod {
            name: Text::copy_of(alloc, method.name.as_slice())?,
            params: method.params,
        })?;
    }
    Ok(copies)
}

fn consts_of(alloc: Global, consts: &[ChildConst]) -> Result<List<ChildConst>, AllocError>
    ensures { IfOk result (λ copies. copies ≡ consts.now) }
{
    let mut copies = List::new(alloc);
    for constant in consts {
        copies.push(ChildConst {
            name: Text::copy_of(alloc, constant.name.as_slice())?,
            value: constant.value,
        })?;
    }
    Ok(copies)
}
