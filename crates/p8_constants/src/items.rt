// The items of a file.
ghost use Rattle.std.specs.Prelude.{◌≡◌, ◌++◌, map, IfOk, OnOk};
ghost use Rattle.p8_tree.specs.Views.{block_of, source_of, constant_of, declared_of, child_of, line_of};
ghost use Rattle.p8_constants.specs.FileItems.{items, block_items, constant, variable, object, line};
ghost use Rattle.p8_constants.specs.Standing.{item_of};

use p8_tree::{Block, ConItem, DatLine, List, Method, ObjItem, SourceFile, VarItem};
use std::alloc::{AllocError, Global};

/// An item of a block.
#[derive(Clone, Copy)]
pub enum Item<'a> {
    /// An item of `CON`.
    Constant(&'a ConItem),
    /// A variable of `VAR`.
    Variable(&'a VarItem),
    /// An item of `OBJ`.
    Object(&'a ObjItem),
    /// A `PUB` or a `PRI`.
    Method(&'a Method),
    /// A line of `DAT`.
    Line(&'a DatLine),
}

/// The items of a file, in the order of the source.
pub fn items_of<'a>(alloc: Global, file: &'a SourceFile) -> Result<Vec<Item<'a>>, AllocError>
    ensures { IfOk result (λ v. map item_of v.items ≡ items (source_of file.now)) }
{
    let mut items = Vec::new(alloc);
    for block in file.blocks.as_slice() {
        put_items(block, &mut items)?;
    }
    Ok(items)
}

// Puts the items of a block after those before it.
fn put_items<'a>(block: &'a Block, items: &mut Vec<Item<'a>>) -> Result<(), AllocError>
    ensures { OnOk result (map item_of items.new.items ≡ map item_of items.old.items ++ block_items (block_of block.now)) }
{
    match block {
        Block::Con(xs) => put_constants(xs, items),
        Block::Var(xs) => put_variables(xs, items),
        Block::Obj(xs) => put_objects(xs, items),
        Block::Method(x) => {
            items.push(Item::Method(x))?;
            Ok(())
        }
        Block::Dat(xs) => put_lines(xs, items),
    }
}

fn put_constants<'a>(xs: &'a List<ConItem>, items: &mut Vec<Item<'a>>) -> Result<(), AllocError>
    ensures { OnOk result (map item_of items.new.items ≡ map item_of items.old.items ++ map constant (map constant_of xs.now)) }
{
    for x in xs.as_slice() {
        items.push(Item::Constant(x))?;
    }
    Ok(())
}

fn put_variables<'a>(xs: &'a List<VarItem>, items: &mut Vec<Item<'a>>) -> Result<(), AllocError>
    ensures { OnOk result (map item_of items.new.items ≡ map item_of items.old.items ++ map variable (map declared_of xs.now)) }
{
    for x in xs.as_slice() {
        items.push(Item::Variable(x))?;
    }
    Ok(())
}

fn put_objects<'a>(xs: &'a List<ObjItem>, items: &mut Vec<Item<'a>>) -> Result<(), AllocError>
    ensures { OnOk result (map item_of items.new.items ≡ map item_of items.old.items ++ map object (map child_of xs.now)) }
{
    for x in xs.as_slice() {
        items.push(Item::Object(x))?;
    }
    Ok(())
}

fn put_lines<'a>(xs: &'a List<DatLine>, items: &mut Vec<Item<'a>>) -> Result<(), AllocError>
    ensures { OnOk result (map item_of items.new.items ≡ map item_of items.old.items ++ map line (map line_of xs.now)) }
{
    for x in xs.as_slice() {
        items.push(Item::Line(x))?;
    }
    Ok(())
}
