// How loops go on, with folded expressions.
ghost use Rattle.std.specs.Prelude.{◌≡◌, IfOk, option_map};
ghost use Rattle.p8_tree.specs.Views.{tree_of, course_of};
ghost use Rattle.p8_meaning.specs.Folding.{folded, folded_course, holds, number_in, kept_count, kept_before, kept};
ghost use Rattle.p8_meaning.specs.Copies.{constants_of};

use crate::folder::Folder;
use crate::known::Numbers;
use p8_tree::{Expr, ExprKind, Loop, Text};
use std::alloc::AllocError;

/// Whether a condition of `IF` or `WHILE`, or else of `IFNOT` or `UNTIL`, holds for a number.
pub(crate) fn holds(negated: bool, number: u32) -> bool
    ensures { result ≡ holds negated number }
{
    if negated { number == 0 } else { number != 0 }
}

// The number that an expression is.
fn number_in(expr: &Expr) -> Option<u32>
    ensures { result ≡ number_in (tree_of expr.now) }
{
    match &expr.kind {
        ExprKind::Number(number) => Some(*number),
        _ => None,
    }
}

// A loop of so many passes: none where there are none.
fn counted(count: Box<Expr>) -> Option<Loop>
    ensures { option_map course_of result ≡ kept_count (number_in (tree_of count.value)) (tree_of count.value) }
{
    match number_in(&count) {
        None => Some(Loop::Count(Box::into_inner(count))),
        Some(number) => {
            if number == 0 {
                drop(count);
                None
            } else {
                Some(Loop::Count(Box::into_inner(count)))
            }
        }
    }
}

// A loop with its test before the body: none where no pass is made.
fn tested(until: bool, test: Box<Expr>) -> Option<Loop>
    ensures { option_map course_of result ≡ kept_before until (number_in (tree_of test.value)) (tree_of test.value) }
{
    match number_in(&test) {
        None => Some(Loop::Before(until, Box::into_inner(test))),
        Some(number) => {
            drop(test);
            if holds(until, number) {
                Some(Loop::Forever)
            } else {
                None
            }
        }
    }
}

impl Folder<'_> {
    /// A folded expression.
    pub fn value(&self, expr: &Expr) -> Result<Box<Expr>, AllocError>
        ensures { IfOk result (λ copy. tree_of copy.value ≡ folded (constants_of self.now) (tree_of expr.now)) }
    {
        let copy = self.expression(Numbers::Shorter, expr)?;
        Ok(copy.tree)
    }

    /// A folded expression, where there is one.
    pub fn value_in(&self, expr: &Option<Expr>) -> Result<Option<Expr>, AllocError>
        ensures { IfOk result (λ copy. option_map tree_of copy ≡ option_map (folded (constants_of self.now)) (option_map tree_of expr.now)) }
    {
        match expr {
            None => Ok(None),
            Some(expr) => {
                let copy = self.value(expr)?;
                Ok(Some(Box::into_inner(copy)))
            }
        }
    }

    /// How a loop goes on, or nothing where it makes no pass.
    pub fn course(&self, course: &Loop) -> Result<Option<Loop>, AllocError>
        ensures { IfOk result (λ left. option_map course_of left ≡ kept (folded_course (constants_of self.now) (course_of course.now))) }
    {
        match course {
            Loop::Forever => Ok(Some(Loop::Forever)),
            Loop::Count(count) => {
                let count = self.value(count)?;
                Ok(counted(count))
            }
            Loop::Before(until, test) => {
                let test = self.value(test)?;
                Ok(tested(*until, test))
            }
            Loop::After(until, test) => {
                let test = self.value(test)?;
                Ok(Some(Loop::After(*until, Box::into_inner(test))))
            }
            Loop::From(name, from, to, step, place) => {
                let name = Text::copy_of(self.alloc, name.as_slice())?;
                let from = self.value(from)?;
                let to = self.value(to)?;
                let step = self.value_in(step)?;
                let (from, to) = (Box::into_inner(from), Box::into_inner(to));
                Ok(Some(Loop::From(name, from, to, step, *place)))
            }
        }
    }
}
