// How a bytecode goes on by an answer.
ghost use Rattle.std.specs.Prelude.{◌≡◌};
ghost use Rattle.p8_bcog.specs.Accesses.{word_in};
ghost use Rattle.p8_bcog.specs.Laters.{comes, later_on};
ghost use Rattle.p8_bcog.specs.Ready.{IsGood, IsReady};
ghost use Rattle.p8_bcog.specs.Standing.{is_under};
ghost use Rattle.p8_bcog.specs.Stops.{at_stage, resumed, IsSound};

use crate::accesses::word_in;
use crate::running::stage_of;
use crate::stage::SpinStage;
use crate::state::SpinState;
use crate::step::{Later, Step, Wanted};
use crate::variable_place::VariablePlace;
use p8_access::{Answer, Reason};

impl SpinState {
    /// Goes on by an answer, and tells how far the life is then. What most answers are for is done here, and the word of one is looked at
    /// only where it is needed.
    #[inline(always)]
    #[tactic(auto, unfolding(crate::specs::Places::uses))]
    pub fn resume(&mut self, answer: Answer, stage: &mut SpinStage)
        requires { IsSound stage.old self.old }
        ensures does { at_stage stage.new self.new ≡ resumed stage.old self.old (word_in answer) }
        ensures under { is_under stage.new ≡ is_under stage.old }
        ensures sound { IsSound stage.new self.new }
    {
        match *stage {
            SpinStage::Asked {
                later: Later::Left { value },
                ..
            } => {
                self.leave(value);
                *stage = SpinStage::Ready;
            }
            SpinStage::Asked {
                later: Later::Value {
                    place: VariablePlace::Memory { width, address },
                    wanted: Wanted::Changed { effect, right },
                },
                ..
            } => self.change_memory(effect, right, width, address, word_in(answer), stage),
            SpinStage::Asked {
                later: Later::Value {
                    place: VariablePlace::Memory { .. },
                    wanted: Wanted::Pushed,
                },
                ..
            } => {
                self.push(word_in(answer));
                *stage = SpinStage::Ready;
            }
            _ => self.resume_any(answer, stage),
        }
    }

    /// Goes on as `resume` does, whatever an answer is for. It is not inlined: the compiler clears the memory for the result of a
    /// call where the function begins that makes the call.
    #[inline(never)]
    fn resume_any(&mut self, answer: Answer, stage: &mut SpinStage)
        requires { IsSound stage.old self.old }
        ensures does { at_stage stage.new self.new ≡ resumed stage.old self.old (word_in answer) }
        ensures under { is_under stage.new ≡ is_under stage.old }
        ensures sound { IsSound stage.new self.new }
    {
        match *stage {
            SpinStage::Asked { later, .. } => *stage = stage_of(self.go_on(later, word_in(answer))),
            SpinStage::Entering => {}
            SpinStage::Ready => {}
            SpinStage::Halted { .. } => {}
            SpinStage::Over => {}
        }
    }

    /// Goes on by the word of an answer.
    fn go_on(&mut self, later: Later, word: u32) -> Result<Step, Reason>
        requires { IsReady later self.old }
        ensures does { comes result self.new ≡ later_on later self.old word }
        ensures good { IsGood result self.new }
    {
        match later {
            Later::Left { value } => {
                self.leave(value);
                Ok(Step::Done)
            }
            Later::Push => {
                self.push(word);
                Ok(Step::Done)
            }
            Later::Value { place, wanted } => self.use_value(wanted, place, place.value_in(word)),
            Later::Arguments {
                address,
                next,
                end,
                given,
            } => self.give_on(address, next, end, given),
            Later::Counted { address, count } => self.count_byte(address, count, word),
            Later::Compared { first, second } => self.compare_first(first, second, word),
            Later::ComparedWith {
                first,
                second,
                byte,
            } => self.compare_second(first, second, byte, word),
            Later::Filled {
                width,
                address,
                value,
                left,
            } => self.fill_on(width, address, value, left),
            Later::Fetched {
                width,
                to,
                from,
                left,
            } => self.store_on(width, to, from, left, word),
            Later::Moved {
                width,
                to,
                from,
                left,
            } => self.move_on(width, to, from, left),
        }
    }
}
