// Copies of expressions, from copies of their parts.
ghost use Rattle.std.specs.Prelude.{◌≡◌, IfOk, OnOk, None};
ghost use Rattle.p8_tree.specs.Expressions.{node, Number, Str, Strings, Var, Unary, Binary, Assign, ObjConst, Built, Look, Named, Part, Memory};
ghost use Rattle.p8_tree.specs.Expressions.{Register, single, range, bits};
ghost use Rattle.p8_tree.specs.Views.{tree_of, form_of, variable_of, trees_of, items_of, item_of};
ghost use Rattle.p8_tree.specs.Bridges.{boxed_index};
ghost use Rattle.p8_fold.specs.Verdicts.{boxed_bits};
ghost use Rattle.p8_meaning.specs.Known.{known_before, known_between, shorter_known};
ghost use Rattle.p8_meaning.specs.Copies.{with_number};

use crate::known::{Known, before, between, shorter};
use p8_tree::{Expr, ExprKind, Item, Place, Target, Text};
use std::alloc::{AllocError, Global};
use std::mem;

/// A copy of an expression, and what is known of the expression.
#[derive(Drop)]
pub(crate) struct Copied {
    pub tree: Box<Expr>,
    pub known: Option<Known>,
}

impl Copied {
    /// A form at its place.
    pub fn new(
        alloc: Global,
        place: Place,
        kind: ExprKind,
        known: Option<Known>,
    ) -> Result<Copied, AllocError>
        ensures tree { IfOk result (λ x. tree_of x.tree.value ≡ node place (form_of kind)) }
        ensures known { IfOk result (λ x. x.known ≡ known) }
    {
        let tree = Box::new(alloc, Expr { place, kind })?;
        Ok(Copied { tree, known })
    }

    /// The expression, or the number that is known of it.
    pub fn reduced(self) -> Copied
        ensures tree { tree_of result.tree.value ≡ with_number (shorter_known self.known) (tree_of self.tree.value) }
        ensures known { result.known ≡ self.known }
    {
        let Copied { tree, known } = self;
        match shorter(known) {
            None => Copied { tree, known },
            Some(value) => {
                let mut tree = tree;
                become_number(&mut tree, value);
                Copied { tree, known }
            }
        }
    }

    /// The copy alone.
    pub fn into_tree(self) -> Expr
        ensures { tree_of result ≡ tree_of self.tree.value }
    {
        let Copied { tree, .. } = self;
        Box::into_inner(tree)
    }
}

// Puts a number in place of an expression.
fn become_number(expr: &mut Expr, value: u32)
    ensures { tree_of expr.new ≡ node expr.old.place (Number value) }
{
    drop(mem::replace(&mut expr.kind, ExprKind::Number(value)));
}

/// An operator before its operand.
pub(crate) fn unary(
    alloc: Global,
    place: Place,
    operator: u8,
    operand: Copied,
) -> Result<Copied, AllocError>
    ensures tree { IfOk result (λ x. tree_of x.tree.value ≡ node place (Unary operator (tree_of operand.tree.value))) }
    ensures known { IfOk result (λ x. x.known ≡ known_before operator operand.known) }
{
    let Copied { tree, known } = operand;
    Copied::new(
        alloc,
        place,
        ExprKind::Unary(operator, tree),
        before(operator, known),
    )
}

/// An operator between its operands.
pub(crate) fn binary(
    alloc: Global,
    place: Place,
    operator: u8,
    left: Copied,
    right: Copied,
) -> Result<Copied, AllocError>
    ensures tree { IfOk result (λ x. tree_of x.tree.value ≡ node place (Binary operator (tree_of left.tree.value) (tree_of right.tree.value))) }
    ensures known { IfOk result (λ x. x.known ≡ known_between operator left.known right.known) }
{
    let known = between(operator, left.known, right.known);
    Copied::new(
        alloc,
        place,
        ExprKind::Binary(operator, left.tree, right.tree),
        known,
    )
}

/// A string.
pub(crate) fn string(alloc: Global, place: Place, text: &Text) -> Result<Copied, AllocError>
    ensures tree { IfOk result (λ x. tree_of x.tree.value ≡ node place (Str text.now)) }
    ensures known { IfOk result (λ x. x.known ≡ None) }
{
    let text = Text::copy_of(alloc, text.as_slice())?;
    Copied::new(alloc, place, ExprKind::Str(text), None)
}

/// A list of strings and values, as `STRING` has it.
pub(crate) fn strings(alloc: Global, place: Place, items: Vec<Expr>) -> Result<Copied, AllocError>
    ensures tree { IfOk result (λ x. tree_of x.tree.value ≡ node place (Strings (trees_of items.items))) }
    ensures known { IfOk result (λ x. x.known ≡ None) }
{
    Copied::new(alloc, place, ExprKind::Strings(items), None)
}

/// A constant of an object.
pub(crate) fn object_constant(
    alloc: Global,
    place: Place,
    object: &Text,
    name: &Text,
    at: Place,
    known: Option<Known>,
) -> Result<Copied, AllocError>
    ensures tree { IfOk result (λ x. tree_of x.tree.value ≡ node place (ObjConst object.now name.now at)) }
    ensures known { IfOk result (λ x. x.known ≡ known) }
{
    let object = Text::copy_of(alloc, object.as_slice())?;
    let name = Text::copy_of(alloc, name.as_slice())?;
    Copied::new(alloc, place, ExprKind::ObjConst(object, name, at), known)
}

/// A built-in with its arguments.
pub(crate) fn built(
    alloc: Global,
    place: Place,
    code: u8,
    arguments: Vec<Expr>,
) -> Result<Copied, AllocError>
    ensures tree { IfOk result (λ x. tree_of x.tree.value ≡ node place (Built code (trees_of arguments.items))) }
    ensures known { IfOk result (λ x. x.known ≡ None) }
{
    Copied::new(alloc, place, ExprKind::Built(code, arguments), None)
}

/// A `LOOK` function.
pub(crate) fn look(
    alloc: Global,
    place: Place,
    code: u8,
    value: Copied,
    items: Vec<Item>,
) -> Result<Copied, AllocError>
    ensures tree { IfOk result (λ x. tree_of x.tree.value ≡ node place (Look code (tree_of value.tree.value) (items_of items.items))) }
    ensures known { IfOk result (λ x. x.known ≡ None) }
{
    Copied::new(alloc, place, ExprKind::Look(code, value.tree, items), None)
}

/// A variable by its name, with an index or without.
pub(crate) fn named(
    alloc: Global,
    name: &Text,
    index: Option<Box<Expr>>,
    place: Place,
) -> Result<Target, AllocError>
    ensures { IfOk result (λ v. variable_of v ≡ Named name.now (boxed_index index) place) }
{
    let name = Text::copy_of(alloc, name.as_slice())?;
    Ok(Target::Named(name, index, place))
}

/// A part of a variable, with an index or without.
pub(crate) fn part(
    alloc: Global,
    name: &Text,
    size: u8,
    index: Option<Box<Expr>>,
    place: Place,
) -> Result<Target, AllocError>
    ensures { IfOk result (λ v. variable_of v ≡ Part name.now size (boxed_index index) place) }
{
    let name = Text::copy_of(alloc, name.as_slice())?;
    Ok(Target::Part(name, size, index, place))
}

/// Main memory, with an index or without.
pub(crate) fn memory(size: u8, address: Copied, index: Option<Box<Expr>>, place: Place) -> Target
    ensures { variable_of result ≡ Memory size (tree_of address.tree.value) (boxed_index index) place }
{
    Target::Memory(size, address.tree, index, place)
}

/// A register, whole or some of its bits.
pub(crate) fn register(address: u16, bits: Option<Box<Item>>, place: Place) -> Target
    ensures { variable_of result ≡ Register address (boxed_bits bits) place }
{
    Target::Register(address, bits, place)
}

/// A value as an item.
pub(crate) fn value(tree: Copied) -> Item
    ensures { item_of result ≡ single (tree_of tree.tree.value) }
{
    Item {
        low: tree.into_tree(),
        high: None,
    }
}

/// A range as an item.
pub(crate) fn span(low: Copied, high: Copied) -> Item
    ensures { item_of result ≡ range (tree_of low.tree.value) (tree_of high.tree.value) }
{
    Item {
        low: low.into_tree(),
        high: Some(high.into_tree()),
    }
}
