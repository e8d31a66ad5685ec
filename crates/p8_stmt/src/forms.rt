// The parts of statements beside the statements inside them.
ghost use Rattle.std.specs.Prelude.{◌≡◌, ◌+◌, ◌<◌, ◌||◌, nat_lt, OnOk, if◌then◌else◌, option_map};
ghost use Rattle.p8_tree.specs.Expressions.{no_items, ◌▸◌};
ghost use Rattle.p8_tree.specs.Views.{tree_of, item_of, items_of, course_of, arms_of};
ghost use Rattle.p8_gen.specs.Pieces.{Written, jump};
ghost use Rattle.p8_gen.specs.Statements.{goes_on, leaves, with_value, test_of, tests, zero_jump, step_of, step_effect};
ghost use Rattle.p8_gen.specs.Writing.{Stands};
ghost use Rattle.p8_stmt.specs.Walking.{names_at, loop_at, head, first_test, pass_end, step_piece, leaving, leap, tests_of_arms, goes_to_begin, keeps_count};

use crate::context::Context;
use p8_bytecode::{
    BRANCH, COMPARE_CASE, COMPARE_CASE_RANGE, JUMP_IF_FALSE, JUMP_IF_TRUE, LOOP_CONTINUE,
    LOOP_START, QUIT,
};
use p8_gen::{Operation, Writer};
use p8_tree::{Arm, Expr, Item, Loop, Text};
use std::alloc::AllocError;

/// The bytecode of a jump where a value is 0, or, negated, where it isn't.
pub(crate) fn zero_jump(negated: bool) -> u8
    ensures { result ≡ zero_jump negated }
{
    if negated { JUMP_IF_TRUE } else { JUMP_IF_FALSE }
}

/// Whether `NEXT` goes to where a pass begins, and not to what ends one.
pub(crate) fn goes_to_begin(course: &Loop) -> bool
    ensures { result ≡ goes_to_begin (course_of course.now) }
{
    matches!(course, Loop::Forever | Loop::Before(..))
}

/// Whether a loop keeps a count on the operand stack.
pub(crate) fn keeps_count(course: &Loop) -> bool
    ensures { result ≡ keeps_count (course_of course.now) }
{
    matches!(course, Loop::Count(_))
}

/// Whether an arm of `IF` jumps to the end: each but the last does, and the last one where it is told to.
pub(crate) fn jumps_away(last_jumps: bool, index: usize, count: usize) -> bool
    requires { index < count }
    ensures { result ≡ (last_jumps || nat_lt (index + 1) count) }
{
    last_jumps || index + 1 < count
}

// The effect of a loop's step, which is 1 where none is given.
fn step_effect(step: &Option<Expr>) -> u8
    ensures { result ≡ step_effect (option_map tree_of step.now) }
{
    match step {
        None => 0x02,
        Some(_) => 0x06,
    }
}

impl Context<'_> {
    /// Appends a jump of the statement to a place.
    pub fn jump(&self, code: u8, to: u32, out: &mut Writer) -> Result<(), AllocError>
        ensures { (w : Written) → Stands out.old w → OnOk result (Stands out.new (jump (names_at self.now).wide (names_at self.now).statement code to w)) }
    {
        out.jump(self.coder.widths, self.coder.statement, code, to)
    }

    /// Appends `NEXT`. Outside a loop it appends nothing.
    pub fn next(&self, out: &mut Writer) -> Result<(), AllocError>
        ensures { (w : Written) → Stands out.old w → OnOk result (Stands out.new (goes_on (names_at self.now) (loop_at self.now) w)) }
    {
        match self.enclosing {
            None => Ok(()),
            Some(places) => self.jump(BRANCH, places.next, out),
        }
    }

    /// Appends `QUIT`, which drops a count. Outside a loop it appends nothing.
    pub fn quit(&self, out: &mut Writer) -> Result<(), AllocError>
        ensures { (w : Written) → Stands out.old w → OnOk result (Stands out.new (leaves (names_at self.now) (loop_at self.now) w)) }
    {
        match self.enclosing {
            None => Ok(()),
            Some(places) => self.leave(places.counted, places.quit, out),
        }
    }

    // Appends the jump that leaves a loop, after what drops its count.
    fn leave(&self, counted: bool, quit: u32, out: &mut Writer) -> Result<(), AllocError>
        ensures { (w : Written) → Stands out.old w → OnOk result (Stands out.new (leaving (names_at self.now) counted quit w)) }
    {
        if counted {
            out.byte(QUIT)?;
            self.jump(BRANCH, quit, out)
        } else {
            self.jump(BRANCH, quit, out)
        }
    }

    /// Appends a bytecode, alone or after its value.
    pub fn with_value(
        &self,
        value: &Option<Expr>,
        alone: u8,
        behind_value: u8,
        out: &mut Writer,
    ) -> Result<(), AllocError>
        ensures { (w : Written) → Stands out.old w →
            OnOk result (Stands out.new (with_value (names_at self.now) (option_map tree_of value.now) alone behind_value w)) }
    {
        match value {
            None => out.byte(alone),
            Some(value) => {
                self.coder.value(value, out)?;
                out.byte(behind_value)
            }
        }
    }

    /// Appends the one test of an arm of `IF`.
    pub fn test_of(&self, tests: &[Item], out: &mut Writer) -> Result<(), AllocError>
        ensures { (w : Written) → Stands out.old w → OnOk result (Stands out.new (test_of (names_at self.now) (items_of tests.now) w)) }
    {
        match tests {
            [test] => self.condition(test, out),
            _ => Ok(()),
        }
    }

    // Appends a test that is one value.
    fn condition(&self, test: &Item, out: &mut Writer) -> Result<(), AllocError>
        ensures { (w : Written) → Stands out.old w → OnOk result (Stands out.new (test_of (names_at self.now) (no_items ▸ item_of test.now) w)) }
    {
        match &test.high {
            None => self.coder.value(&test.low, out),
            Some(_) => Ok(()),
        }
    }

    /// Appends the tests of an arm of `CASE`, each with a jump to the arm.
    pub fn tests(&self, to: u32, items: &[Item], out: &mut Writer) -> Result<(), AllocError>
        ensures { (w : Written) → Stands out.old w → OnOk result (Stands out.new (tests (names_at self.now) to (items_of items.now) w)) }
    {
        for test in items {
            self.test(to, test, out)?;
        }
        Ok(())
    }

    // Appends one test of an arm of CASE with its jump.
    fn test(&self, to: u32, test: &Item, out: &mut Writer) -> Result<(), AllocError>
        ensures { (w : Written) → Stands out.old w → OnOk result (Stands out.new (tests (names_at self.now) to (no_items ▸ item_of test.now) w)) }
    {
        self.coder.value(&test.low, out)?;
        match &test.high {
            None => self.jump(COMPARE_CASE, to, out),
            Some(high) => {
                self.coder.value(high, out)?;
                self.jump(COMPARE_CASE_RANGE, to, out)
            }
        }
    }

    /// Appends the tests of all arms of `CASE`, with jumps that go nowhere: it tells how long they are.
    pub fn tests_of_arms(&self, arms: &[Arm], out: &mut Writer) -> Result<(), AllocError>
        ensures { (w : Written) → Stands out.old w → OnOk result (Stands out.new (tests_of_arms (names_at self.now) (arms_of arms.now) w)) }
    {
        for arm in arms {
            self.tests(0, arm.tests.as_slice(), out)?;
        }
        Ok(())
    }

    /// Appends a jump to the end of a chain, where there is one.
    pub fn leap(&self, jumps: bool, end: u32, out: &mut Writer) -> Result<(), AllocError>
        ensures { (w : Written) → Stands out.old w → OnOk result (Stands out.new (leap (names_at self.now) jumps end w)) }
    {
        if jumps {
            self.jump(BRANCH, end, out)
        } else {
            Ok(())
        }
    }

    /// Appends what stands before the passes of a loop: its count, or its counter's first value.
    pub fn head(&self, course: &Loop, end: u32, out: &mut Writer) -> Result<(), AllocError>
        ensures { (w : Written) → Stands out.old w → OnOk result (Stands out.new (head (names_at self.now) (course_of course.now) end w)) }
    {
        match course {
            Loop::Forever => Ok(()),
            Loop::Count(count) => {
                self.coder.value(count, out)?;
                self.jump(LOOP_START, end, out)
            }
            Loop::Before(..) => Ok(()),
            Loop::After(..) => Ok(()),
            Loop::From(name, first, _, _, _) => {
                self.coder.value(first, out)?;
                out.one(self.coder.home(name).plain_op(Operation::Pop))
            }
        }
    }

    /// Appends the test with which a pass begins, where it does.
    pub fn first_test(&self, course: &Loop, end: u32, out: &mut Writer) -> Result<(), AllocError>
        ensures { (w : Written) → Stands out.old w → OnOk result (Stands out.new (first_test (names_at self.now) (course_of course.now) end w)) }
    {
        match course {
            Loop::Forever => Ok(()),
            Loop::Count(_) => Ok(()),
            Loop::Before(until, test) => {
                self.coder.value(test, out)?;
                self.jump(zero_jump(*until), end, out)
            }
            Loop::After(..) => Ok(()),
            Loop::From(..) => Ok(()),
        }
    }

    /// Appends what ends a pass of a loop that begins at a place.
    pub fn pass_end(&self, course: &Loop, start: u32, out: &mut Writer) -> Result<(), AllocError>
        ensures { (w : Written) → Stands out.old w → OnOk result (Stands out.new (pass_end (names_at self.now) (course_of course.now) start w)) }
    {
        match course {
            Loop::Forever => self.jump(BRANCH, start, out),
            Loop::Count(_) => self.jump(LOOP_CONTINUE, start, out),
            Loop::Before(..) => self.jump(BRANCH, start, out),
            Loop::After(until, test) => {
                self.coder.value(test, out)?;
                self.jump(zero_jump(!*until), start, out)
            }
            Loop::From(name, first, last, step, _) => self.step(
                name, first, last, step, start, out,
            ),
        }
    }

    // Appends what ends a pass of REPEAT FROM: its step where one is given, both ends, and the change of the counter that goes
    // on while it is between them.
    fn step(
        &self,
        name: &Text,
        first: &Expr,
        last: &Expr,
        step: &Option<Expr>,
        start: u32,
        out: &mut Writer,
    ) -> Result<(), AllocError>
        ensures { (w : Written) → Stands out.old w →
            OnOk result (Stands out.new (step_piece (names_at self.now) name.now (tree_of first.now) (tree_of last.now)
            (option_map tree_of step.now) start w)) }
    {
        self.step_value(step, out)?;
        self.coder.value(first, out)?;
        self.coder.value(last, out)?;
        let change = Operation::Using(step_effect(step));
        out.jumping(
            self.coder.widths,
            self.coder.statement,
            start,
            self.coder.home(name).plain_op(change),
        )
    }

    // Appends the value of a loop's step, where one is given.
    fn step_value(&self, step: &Option<Expr>, out: &mut Writer) -> Result<(), AllocError>
        ensures { (w : Written) → Stands out.old w → OnOk result (Stands out.new (step_of (names_at self.now) (option_map tree_of step.now) w)) }
    {
        match step {
            None => Ok(()),
            Some(step) => self.coder.value(step, out),
        }
    }
}
