// Jumps, and the tests of loops, of CASE and of the LOOK functions.
ghost use Rattle.std.specs.Prelude.{◌≡◌};
ghost use Rattle.p8_bcog.specs.Control.{jump, loop_begins, loop_ends, jump_if_zero, jump_unless_zero, drops, case_value, case_range, look_fails};
ghost use Rattle.p8_bcog.specs.Control.{lookup_value, lookdown_value, toward, lookup_range, lookdown_range};
ghost use Rattle.p8_bcog.specs.Laters.{comes};
ghost use Rattle.p8_bcog.specs.Ready.{IsGood};
ghost use Rattle.p8_bcog.specs.Quick.{finishes};

use crate::operands::{difference, distance, is_at_most, is_between, sum_of};
use crate::state::SpinState;
use crate::step::Step;
use p8_access::Reason;

/// The value that lies so far from one toward another.
fn toward(a: u32, b: u32, far: u32) -> u32
    ensures { result ≡ toward a b far }
{
    if is_at_most(a, b) {
        sum_of(a, far)
    } else {
        difference(a, far)
    }
}

impl SpinState {
    /// The begin of a loop by count, which is left where the count is 0.
    #[inline]
    #[tactic(auto, unfolding(crate::specs::Control::loop_begins))]
    pub fn loop_begins(&mut self, offset: u32) -> Result<(), Reason>
        ensures does { finishes result self.new ≡ loop_begins offset self.old }
    {
        self.test(1, 1)?;
        if self.operand(0) == 0 {
            self.take(1);
            self.jump(offset);
        }
        Ok(())
    }

    /// The end of a pass of a loop by count.
    #[inline]
    #[tactic(auto, unfolding(crate::specs::Control::loop_ends))]
    pub fn loop_ends(&mut self, offset: u32) -> Result<(), Reason>
        ensures does { finishes result self.new ≡ loop_ends offset self.old }
    {
        self.test(1, 1)?;
        let left = difference(self.operand(0), 1);
        if left == 0 {
            self.take(1);
        } else {
            self.replace(1, left);
            self.jump(offset);
        }
        Ok(())
    }

    /// A jump where a value is 0.
    #[inline]
    #[tactic(auto, unfolding(crate::specs::Control::jump_if_zero))]
    pub fn jump_if_zero(&mut self, offset: u32) -> Result<(), Reason>
        ensures does { finishes result self.new ≡ jump_if_zero offset self.old }
    {
        self.test(1, 0)?;
        let jumps = self.operand(0) == 0;
        self.take(1);
        self.jump_if(jumps, offset);
        Ok(())
    }

    /// A jump where a value isn't 0.
    #[inline]
    #[tactic(auto, unfolding(crate::specs::Control::jump_unless_zero))]
    pub fn jump_unless_zero(&mut self, offset: u32) -> Result<(), Reason>
        ensures does { finishes result self.new ≡ jump_unless_zero offset self.old }
    {
        self.test(1, 0)?;
        let jumps = self.operand(0) != 0;
        self.take(1);
        self.jump_if(jumps, offset);
        Ok(())
    }

    /// A value is let go.
    #[tactic(auto, unfolding(crate::specs::Control::drops))]
    pub fn drops(&mut self) -> Result<(), Reason>
        ensures does { finishes result self.new ≡ drops self.old }
    {
        self.test(1, 0)?;
        self.take(1);
        Ok(())
    }

    /// The test of a value of CASE.
    #[tactic(auto, unfolding(crate::specs::Control::case_value))]
    pub fn case_value(&mut self, offset: u32) -> Result<(), Reason>
        ensures does { finishes result self.new ≡ case_value offset self.old }
    {
        self.test(2, 1)?;
        let jumps = self.operand(1) == self.operand(0);
        self.take(1);
        self.jump_if(jumps, offset);
        Ok(())
    }

    /// The test of a range of CASE.
    #[tactic(auto, unfolding(crate::specs::Control::case_range))]
    pub fn case_range(&mut self, offset: u32) -> Result<(), Reason>
        ensures does { finishes result self.new ≡ case_range offset self.old }
    {
        self.test(3, 1)?;
        let jumps = is_between(self.operand(2), self.operand(1), self.operand(0));
        self.take(2);
        self.jump_if(jumps, offset);
        Ok(())
    }

    /// A LOOK function without a match.
    #[tactic(auto, unfolding(crate::specs::Control::look_fails))]
    pub fn look_fails(&mut self) -> Result<(), Reason>
        ensures does { finishes result self.new ≡ look_fails self.old }
    {
        self.test(2, 1)?;
        self.replace(2, 0);
        Ok(())
    }

    /// A value of LOOKUP.
    #[tactic(auto, unfolding(crate::specs::Control::lookup_value))]
    pub fn lookup_value(&mut self, offset: u32) -> Result<Step, Reason>
        ensures does { comes result self.new ≡ lookup_value offset self.old }
        ensures good { IsGood result self.new }
    {
        self.test(3, 2)?;
        let count = self.operand(1);
        if self.operand(2) == count {
            let item = self.operand(0);
            self.replace(3, item);
            self.jump(offset);
        } else {
            self.replace(2, sum_of(count, 1));
        }
        Ok(Step::Done)
    }

    /// A value of LOOKDOWN.
    #[tactic(auto, unfolding(crate::specs::Control::lookdown_value))]
    pub fn lookdown_value(&mut self, offset: u32) -> Result<Step, Reason>
        ensures does { comes result self.new ≡ lookdown_value offset self.old }
        ensures good { IsGood result self.new }
    {
        self.test(3, 2)?;
        let count = self.operand(1);
        if self.operand(2) == self.operand(0) {
            self.replace(3, count);
            self.jump(offset);
        } else {
            self.replace(2, sum_of(count, 1));
        }
        Ok(Step::Done)
    }

    /// A range of LOOKUP.
    #[tactic(auto, unfolding(crate::specs::Control::lookup_range))]
    pub fn lookup_range(&mut self, offset: u32) -> Result<Step, Reason>
        ensures does { comes result self.new ≡ lookup_range offset self.old }
        ensures good { IsGood result self.new }
    {
        self.test(4, 2)?;
        let from = self.operand(1);
        let to = self.operand(0);
        let count = self.operand(2);
        let far = difference(self.operand(3), count);
        let width = distance(from, to);
        if far <= width {
            self.replace(4, toward(from, to, far));
            self.jump(offset);
        } else {
            self.replace(3, sum_of(sum_of(count, width), 1));
        }
        Ok(Step::Done)
    }

    /// A range of LOOKDOWN.
    #[tactic(auto, unfolding(crate::specs::Control::lookdown_range))]
    pub fn lookdown_range(&mut self, offset: u32) -> Result<Step, Reason>
        ensures does { comes result self.new ≡ lookdown_range offset self.old }
        ensures good { IsGood result self.new }
    {
        self.test(4, 2)?;
        let from = self.operand(1);
        let to = self.operand(0);
        let count = self.operand(2);
        let value = self.operand(3);
        if is_between(value, from, to) {
            self.replace(4, sum_of(count, distance(value, from)));
            self.jump(offset);
        } else {
            self.replace(3, sum_of(sum_of(count, distance(from, to)), 1));
        }
        Ok(Step::Done)
    }
}
