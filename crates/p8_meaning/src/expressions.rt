// Copies of expressions in which constant trees are numbers. The calls go as deep as the tree is high.
ghost use Rattle.std.specs.Prelude.{◌≡◌, IfOk};
ghost use Rattle.p8_tree.specs.Expressions.{node};
ghost use Rattle.p8_tree.specs.Views.{tree_of, form_of, variable_of, call_of, trees_of, items_of, item_of};
ghost use Rattle.p8_tree.specs.Bridges.{boxed_index};
ghost use Rattle.p8_fold.specs.Verdicts.{boxed_bits};
ghost use Rattle.p8_meaning.specs.Folding.{tree_with, form_with, variable_with, index_with, bits_with, item_with, trees_with, items_with};
ghost use Rattle.p8_meaning.specs.Known.{number_by, known_of};
ghost use Rattle.p8_meaning.specs.Copies.{constants_of};

use crate::building::{
    Copied, binary, built, look, memory, named, object_constant, part, register, span, string,
    strings, unary, value,
};
use crate::folder::Folder;
use crate::known::{Numbers, value_behind, value_of_name};
use p8_tree::{Call, Expr, ExprKind, Item, Place, Target, Text};
use std::alloc::{AllocError, Global};

// A copy of an object's name, where there is one.
fn name_copied(alloc: Global, name: &Option<Text>) -> Result<Option<Text>, AllocError>
    ensures { IfOk result (λ o. o ≡ name.now) }
{
    match name {
        None => Ok(None),
        Some(name) => Ok(Some(Text::copy_of(alloc, name.as_slice())?)),
    }
}

impl Folder<'_> {
    /// A copy of an expression.
    #[cycle(expressions)]
    pub fn expression(&self, numbers: Numbers, expr: &Expr) -> Result<Copied, AllocError>
        ensures tree { IfOk result (λ x. tree_of x.tree.value ≡ tree_with (number_by numbers (constants_of self.now)) (tree_of expr.now)) }
        ensures known { IfOk result (λ x. x.known ≡ known_of numbers (constants_of self.now) (tree_of expr.now)) }
    {
        let copy = self.form(numbers, expr.place, &expr.kind)?;
        Ok(copy.reduced())
    }

    /// A copy of an expression of this form, which doesn't become a number itself.
    #[cycle(expressions)]
    pub fn form(
        &self,
        numbers: Numbers,
        place: Place,
        kind: &ExprKind,
    ) -> Result<Copied, AllocError>
        ensures tree { IfOk result (λ x. tree_of x.tree.value ≡ node place (form_with (number_by numbers (constants_of self.now)) (form_of kind.now))) }
        ensures known { IfOk result (λ x. x.known ≡ known_of numbers (constants_of self.now) (node place (form_of kind.now))) }
    {
        let alloc = self.alloc;
        match kind {
            ExprKind::Number(value) => {
                let known = numbers.of(Some(*value));
                Copied::new(alloc, place, ExprKind::Number(*value), known)
            }
            ExprKind::Str(text) => string(alloc, place, text),
            ExprKind::Strings(items) => {
                let items = self.expressions(Numbers::Kept, items)?;
                strings(alloc, place, items)
            }
            ExprKind::Here => Copied::new(alloc, place, ExprKind::Here, None),
            ExprKind::Var(variable) => {
                let known = numbers.of(value_of_name(self.consts, variable));
                let variable = self.variable(numbers, variable)?;
                Copied::new(alloc, place, ExprKind::Var(variable), known)
            }
            ExprKind::Call(call) => {
                let call = self.call(numbers, call)?;
                Copied::new(alloc, place, ExprKind::Call(call), None)
            }
            ExprKind::Unary(operator, operand) => {
                let operand = self.expression(numbers, operand)?;
                unary(alloc, place, *operator, operand)
            }
            ExprKind::Binary(operator, left, right) => {
                let left = self.expression(numbers, left)?;
                let right = self.expression(numbers, right)?;
                binary(alloc, place, *operator, left, right)
            }
            ExprKind::Assign(variable, operator, value) => {
                let value = self.expression(numbers, value)?.tree;
                let variable = self.variable(numbers, variable)?;
                let kind = ExprKind::Assign(variable, *operator, value);
                Copied::new(alloc, place, kind, None)
            }
            ExprKind::Change(variable, effect) => {
                let variable = self.variable(numbers, variable)?;
                Copied::new(alloc, place, ExprKind::Change(variable, *effect), None)
            }
            ExprKind::Address(variable) => {
                let variable = self.variable(numbers, variable)?;
                Copied::new(alloc, place, ExprKind::Address(variable), None)
            }
            ExprKind::ObjectAddress(offset) => {
                let offset = self.expression(numbers, offset)?.tree;
                Copied::new(alloc, place, ExprKind::ObjectAddress(offset), None)
            }
            ExprKind::ObjConst(object, name, at) => {
                let known = numbers.of(value_behind(self.consts, object, name));
                object_constant(alloc, place, object, name, *at, known)
            }
            ExprKind::Built(code, arguments) => {
                let inside = numbers.for_arguments(*code, arguments.as_slice().len());
                let arguments = self.expressions(inside, arguments)?;
                built(alloc, place, *code, arguments)
            }
            ExprKind::Look(code, value, items) => {
                let value = self.expression(numbers, value)?;
                let items = self.items(numbers, items)?;
                look(alloc, place, *code, value, items)
            }
        }
    }

    // A copy of a call.
    #[cycle(expressions)]
    fn call(&self, numbers: Numbers, call: &Call) -> Result<Call, AllocError>
        ensures { IfOk result (λ x. call_of x ≡ form_with (number_by numbers (constants_of self.now)) (call_of call.now)) }
    {
        let index = self.index(numbers, &call.index)?;
        let args = self.expressions(numbers, &call.args)?;
        let object = name_copied(self.alloc, &call.object)?;
        let method = Text::copy_of(self.alloc, call.method.as_slice())?;
        Ok(Call {
            trap: call.trap,
            object,
            index,
            method,
            method_place: call.method_place,
            args,
        })
    }

    // A copy of a variable.
    #[cycle(expressions)]
    fn variable(&self, numbers: Numbers, variable: &Target) -> Result<Target, AllocError>
        ensures { IfOk result (λ v. variable_of v ≡ variable_with (number_by numbers (constants_of self.now)) (variable_of variable.now)) }
    {
        match variable {
            Target::Named(name, index, place) => {
                let index = self.index(numbers, index)?;
                named(self.alloc, name, index, *place)
            }
            Target::Part(name, size, index, place) => {
                let index = self.index(numbers, index)?;
                part(self.alloc, name, *size, index, *place)
            }
            Target::Memory(size, address, index, place) => {
                let address = self.expression(numbers, address)?;
                let index = self.index(numbers, index)?;
                Ok(memory(*size, address, index, *place))
            }
            Target::Register(address, bits, place) => {
                let bits = self.bits(numbers, bits)?;
                Ok(register(*address, bits, *place))
            }
        }
    }

    #[cycle(expressions)]
    fn index(
        &self,
        numbers: Numbers,
        index: &Option<Box<Expr>>,
    ) -> Result<Option<Box<Expr>>, AllocError>
        ensures { IfOk result (λ i. boxed_index i ≡ index_with (number_by numbers (constants_of self.now)) (boxed_index index.now)) }
    {
        match index {
            None => Ok(None),
            Some(index) => {
                let copy = self.expression(numbers, index)?;
                Ok(Some(copy.tree))
            }
        }
    }

    #[cycle(expressions)]
    fn bits(
        &self,
        numbers: Numbers,
        bits: &Option<Box<Item>>,
    ) -> Result<Option<Box<Item>>, AllocError>
        ensures { IfOk result (λ x. boxed_bits x ≡ bits_with (number_by numbers (constants_of self.now)) (boxed_bits bits.now)) }
    {
        match bits {
            None => Ok(None),
            Some(item) => {
                let copy = self.item(numbers, item)?;
                Ok(Some(Box::new(self.alloc, copy)?))
            }
        }
    }

    // A copy of a value or a range.
    #[cycle(expressions)]
    fn item(&self, numbers: Numbers, item: &Item) -> Result<Item, AllocError>
        ensures { IfOk result (λ x. item_of x ≡ item_with (number_by numbers (constants_of self.now)) (item_of item.now)) }
    {
        match &item.high {
            None => {
                let low = self.expression(numbers, &item.low)?;
                Ok(value(low))
            }
            Some(high) => {
                let low = self.expression(numbers, &item.low)?;
                let high = self.expression(numbers, high)?;
                Ok(span(low, high))
            }
        }
    }

    // Copies of arguments.
    #[cycle(expressions)]
    fn expressions(&self, numbers: Numbers, trees: &[Expr]) -> Result<Vec<Expr>, AllocError>
        ensures { IfOk result (λ v. trees_of v.items ≡ trees_with (number_by numbers (constants_of self.now)) (trees_of trees.now)) }
    {
        let mut copies = Vec::new(self.alloc);
        for tree in trees {
            let copy = self.expression(numbers, tree)?;
            copies.push(copy.into_tree())?;
        }
        Ok(copies)
    }

    /// Copies of items.
    #[cycle(expressions)]
    pub fn items(&self, numbers: Numbers, items: &[Item]) -> Result<Vec<Item>, AllocError>
        ensures { IfOk result (λ v. items_of v.items ≡ items_with (number_by numbers (constants_of self.now)) (items_of items.now)) }
    {
        let mut copies = Vec::new(self.alloc);
        for item in items {
            copies.push(self.item(numbers, item)?)?;
        }
        Ok(copies)
    }
}
