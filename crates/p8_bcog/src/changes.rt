// What a bytecode does with a variable.
ghost use Rattle.std.specs.Prelude.{◌≡◌, ◌+◌, ◌<◌, ◌≤◌, ◌%◌, ◌^◌, true};
ghost use Rattle.p8_bcog.specs.Changes.{pushes, pops, leaves, stores, sets, steps_by_one, steps, changes_alone, changes_by, is_binary_effect, changes};
ghost use Rattle.p8_access.specs.declared.kinds.Width.TheVariants.{Long};
ghost use Rattle.p8_bcog.specs.declared.variable_place.VariablePlace.TheVariants.{Memory};
ghost use Rattle.p8_bcog.specs.Laters.{comes};
ghost use Rattle.p8_bcog.specs.Ready.{IsGood, IsPlace};
ghost use Rattle.p8_bcog.specs.Standing.{is_under};
ghost use Rattle.p8_bcog.specs.Stops.{at_stage, IsSound};

use crate::stage::SpinStage;
use crate::state::SpinState;
use crate::step::{Step, Wanted};
use crate::variable_access::left_of;
use crate::variable_place::VariablePlace;
use p8_access::{Reason, Width};
use p8_bytecode::Op;
use p8_words::is_unary;

/// How many longs an effect leaves.
fn leaves(effect: u8) -> usize
    ensures leaves { result ≡ leaves effect }
    ensures most { result ≤ 1 }
{
    usize::from(effect >= 128)
}

/// Whether an effect, without its bit 7, has a right side.
fn is_binary_effect(effect: u8) -> bool
    requires { effect < 0x60 }
    ensures { result ≡ is_binary_effect effect }
{
    effect >= 0x40 && !is_unary(effect + 0xA0)
}

impl SpinState {
    /// Pushes the value of a place that so many operands name.
    #[tactic(auto, unfolding(crate::specs::Changes::pushes))]
    pub fn push_place(&mut self, named: usize, place: VariablePlace) -> Result<Step, Reason>
        requires named { named ≤ 2 }
        requires place { IsPlace place }
        ensures does { comes result self.new ≡ pushes named place self.old }
        ensures good { IsGood result self.new }
    {
        self.test(named, 1)?;
        self.take(named);
        self.read_place(Wanted::Pushed, place)
    }

    /// Pops a value into a place.
    #[tactic(auto, unfolding(crate::specs::Changes::pops))]
    pub fn pop_place(&mut self, named: usize, place: VariablePlace) -> Result<Step, Reason>
        requires named { named ≤ 2 }
        requires place { IsPlace place }
        ensures does { comes result self.new ≡ pops named place self.old }
        ensures good { IsGood result self.new }
    {
        self.test(named + 1, 0)?;
        let value = self.operand(named);
        self.take(named + 1);
        self.write_place(place, value, None)
    }

    /// Writes a popped value, which may be left.
    #[tactic(auto, unfolding(crate::specs::Changes::stores))]
    fn store_place(
        &mut self,
        named: usize,
        effect: u8,
        place: VariablePlace,
    ) -> Result<Step, Reason>
        requires named { named ≤ 2 }
        requires place { IsPlace place }
        ensures does { comes result self.new ≡ stores named effect place self.old }
        ensures good { IsGood result self.new }
    {
        self.test(named + 1, leaves(effect))?;
        let value = self.operand(named);
        self.take(named + 1);
        self.write_place(place, value, left_of(effect, value))
    }

    /// Writes 0 or -1, and may leave the old value.
    #[tactic(auto, unfolding(crate::specs::Changes::sets))]
    fn set_place(
        &mut self,
        named: usize,
        effect: u8,
        value: u32,
        place: VariablePlace,
    ) -> Result<Step, Reason>
        requires named { named ≤ 2 }
        requires place { IsPlace place }
        ensures does { comes result self.new ≡ sets named effect value place self.old }
        ensures good { IsGood result self.new }
    {
        self.test(named, leaves(effect))?;
        self.take(named);
        if effect >= 128 {
            self.read_place(Wanted::Replaced { value }, place)
        } else {
            self.write_place(place, value, None)
        }
    }

    /// Where the effect of REPEAT jumps.
    fn jump_of(&self, op: Op) -> u16
        ensures { result ≡ (self.now.at + op.second) % 2 ^ 16 }
    {
        (u32::from(self.at).wrapping_add(op.second) & 0xFFFF) as u16
    }

    /// The end of a pass of REPEAT with the step 1.
    #[tactic(auto, unfolding(crate::specs::Changes::steps_by_one))]
    fn step_place_by_one(
        &mut self,
        named: usize,
        op: Op,
        place: VariablePlace,
    ) -> Result<Step, Reason>
        requires named { named ≤ 2 }
        requires place { IsPlace place }
        ensures does { comes result self.new ≡ steps_by_one named op place self.old }
        ensures good { IsGood result self.new }
    {
        self.test(named + 2, 0)?;
        let wanted = Wanted::Stepped {
            by: 1,
            from: self.operand(named + 1),
            to: self.operand(named),
            target: self.jump_of(op),
        };
        self.take(named + 2);
        self.read_place(wanted, place)
    }

    /// The end of a pass of REPEAT with a step.
    #[tactic(auto, unfolding(crate::specs::Changes::steps))]
    fn step_place(&mut self, named: usize, op: Op, place: VariablePlace) -> Result<Step, Reason>
        requires named { named ≤ 2 }
        requires place { IsPlace place }
        ensures does { comes result self.new ≡ steps named op place self.old }
        ensures good { IsGood result self.new }
    {
        self.test(named + 3, 0)?;
        let wanted = Wanted::Stepped {
            by: self.operand(named + 2),
            from: self.operand(named + 1),
            to: self.operand(named),
            target: self.jump_of(op),
        };
        self.take(named + 3);
        self.read_place(wanted, place)
    }

    /// Changes a place by an effect without a right side.
    #[tactic(auto, unfolding(crate::specs::Changes::changes_alone))]
    fn change_place_alone(
        &mut self,
        named: usize,
        effect: u8,
        place: VariablePlace,
    ) -> Result<Step, Reason>
        requires named { named ≤ 2 }
        requires place { IsPlace place }
        requires effect { effect % 128 < 0x60 }
        ensures does { comes result self.new ≡ changes_alone named effect place self.old }
        ensures good { IsGood result self.new }
    {
        self.test(named, leaves(effect))?;
        self.take(named);
        self.read_place(Wanted::Changed { effect, right: 0 }, place)
    }

    /// Changes a place by an effect with a right side.
    #[tactic(auto, unfolding(crate::specs::Changes::changes_by))]
    fn change_place_by(
        &mut self,
        named: usize,
        effect: u8,
        place: VariablePlace,
    ) -> Result<Step, Reason>
        requires named { named ≤ 2 }
        requires place { IsPlace place }
        requires effect { effect % 128 < 0x60 }
        ensures does { comes result self.new ≡ changes_by named effect place self.old }
        ensures good { IsGood result self.new }
    {
        self.test(named + 1, leaves(effect))?;
        let right = self.operand(named);
        self.take(named + 1);
        self.read_place(Wanted::Changed { effect, right }, place)
    }

    /// Changes a place by the effect of a bytecode.
    #[tactic(auto, unfolding(crate::specs::Changes::changes))]
    pub fn change(&mut self, named: usize, op: Op, place: VariablePlace) -> Result<Step, Reason>
        requires named { named ≤ 2 }
        requires place { IsPlace place }
        requires effect { op.effect % 128 < 0x60 }
        ensures does { comes result self.new ≡ changes named op place self.old }
        ensures good { IsGood result self.new }
    {
        let effect = op.effect % 128;
        if effect == 0x00 {
            self.store_place(named, op.effect, place)
        } else if op.effect == 0x02 {
            self.step_place_by_one(named, op, place)
        } else if op.effect == 0x06 {
            self.step_place(named, op, place)
        } else if effect == 0x18 {
            self.set_place(named, op.effect, 0, place)
        } else if effect == 0x1C {
            self.set_place(named, op.effect, u32::MAX, place)
        } else if is_binary_effect(effect) {
            self.change_place_by(named, op.effect, place)
        } else {
            self.change_place_alone(named, op.effect, place)
        }
    }

    /// Pushes a long of memory, and tells how far the life is then.
    #[inline]
    #[tactic(auto, unfolding(crate::specs::Changes::pushes))]
    pub fn push_long(&mut self, address: u16, stage: &mut SpinStage)
        ensures does { at_stage stage.new self.new ≡ pushes 0 (Memory Long address) self.old }
        ensures under { is_under stage.new ≡ true }
        ensures sound { IsSound stage.new self.new }
    {
        match self.test(0, 1) {
            Ok(()) => {
                self.take(0);
                self.read_memory(Wanted::Pushed, Width::Long, address, stage);
            }
            Err(reason) => *stage = SpinStage::Halted { reason },
        }
    }

    /// Pops a value into a long of memory, and tells how far the life is then.
    #[inline]
    #[tactic(auto, unfolding(crate::specs::Changes::pops))]
    pub fn pop_long(&mut self, address: u16, stage: &mut SpinStage)
        ensures does { at_stage stage.new self.new ≡ pops 0 (Memory Long address) self.old }
        ensures under { is_under stage.new ≡ true }
        ensures sound { IsSound stage.new self.new }
    {
        match self.test(1, 0) {
            Ok(()) => {
                let value = self.operand(0);
                self.take(1);
                self.write_memory(Width::Long, address, value, None, stage);
            }
            Err(reason) => *stage = SpinStage::Halted { reason },
        }
    }

    /// Changes a long of memory by an effect without a right side, and tells how far the life is then.
    #[inline]
    #[tactic(auto, unfolding(crate::specs::Changes::changes_alone))]
    pub fn change_long(&mut self, effect: u8, address: u16, stage: &mut SpinStage)
        requires effect { effect % 128 < 0x60 }
        ensures does { at_stage stage.new self.new ≡ changes_alone 0 effect (Memory Long address) self.old }
        ensures under { is_under stage.new ≡ true }
        ensures sound { IsSound stage.new self.new }
    {
        match self.test(0, leaves(effect)) {
            Ok(()) => {
                self.take(0);
                let wanted = Wanted::Changed { effect, right: 0 };
                self.read_memory(wanted, Width::Long, address, stage);
            }
            Err(reason) => *stage = SpinStage::Halted { reason },
        }
    }
}
