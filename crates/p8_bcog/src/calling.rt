// Marks, calls, returns and aborts, and starts of methods in a cog.
ghost use Rattle.std.specs.Prelude.{◌≡◌, ◌<◌, ◌≤◌, ◌-◌, length, take, drop};
ghost use Rattle.p8_bcog.specs.Accesses.{stops};
ghost use Rattle.p8_bcog.specs.Newest.{trapping};
ghost use Rattle.p8_bcog.specs.Calls.{opens, marks_below, has_mark, frame_end, entered, given_to, gives, calls, calls_method, call_own, calls_object};
ghost use Rattle.p8_bcog.specs.Calls.{call_object, call_indexed, returned, goes_back, returns, return_result, return_value, aborts, abort_result};
ghost use Rattle.p8_bcog.specs.Calls.{abort_value};
ghost use Rattle.p8_bcog.specs.Cogs.{start_method};
ghost use Rattle.p8_bcog.specs.Laters.{comes};
ghost use Rattle.p8_bcog.specs.Ready.{IsGood, CanGive};

use crate::accesses::{next_address, read_of, write_of};
use crate::calls::{ACTIVE_CALLS, Call};
use crate::cogs::{long_address, target_of};
use crate::marks::{CallMark, OPEN_MARKS};
use crate::stack::STACK_LONGS;
use crate::state::SpinState;
use crate::step::{Callee, Given, Later, Step};
use crate::tables::{is_method, is_object, method_at, object_base, object_variables};
use crate::variable_access::ending;
use p8_access::{Access, Origin, Reason, Width};

impl SpinState {
    /// Opens a mark.
    #[tactic(auto, unfolding(crate::specs::Calls::opens))]
    pub fn open_mark(&mut self, code: u8) -> Result<Step, Reason>
        ensures does { comes result self.new ≡ opens code self.old }
        ensures good { IsGood result self.new }
    {
        if self.marks.len() >= OPEN_MARKS {
            return Err(Reason::Stack);
        }
        self.marks.push(CallMark {
            outer: self.base,
            unused: code % 2 == 1,
            traps: code / 2 % 2 == 1,
        });
        self.base = self.stack.len() as u16;
        Ok(Step::Done)
    }

    /// How many marks are open besides those of the method at hand.
    fn marks_below(&self) -> usize
        ensures { result ≡ marks_below self.now.calls }
    {
        match self.calls.newest() {
            Some(call) => usize::from(call.marks),
            None => 0,
        }
    }

    /// Whether the method at hand has an open mark.
    fn has_mark(&self) -> bool
        ensures { result ≡ has_mark self.now }
    {
        self.marks_below() < self.marks.len()
    }

    /// Where the frame at hand ends.
    fn frame_end(&self) -> u16
        ensures { result ≡ frame_end self.now }
    {
        self.frame.wrapping_add(4).wrapping_add(self.size)
    }

    /// Enters a called method; its mark is closed.
    fn enter(&mut self, callee: Callee)
        requires { length self.old.calls < 127 }
        ensures { self.new ≡ entered callee self.old.marks self.old }
    {
        let Some(mark) = self.marks.pop() else {
            return;
        };
        let parameters = self.stack.len().saturating_sub(usize::from(self.base));
        let frame = self.frame_end();
        self.calls.push(Call {
            at: self.at,
            pbase: self.pbase,
            vbase: self.vbase,
            frame: self.frame,
            size: self.size,
            base: mark.outer,
            height: self.base,
            marks: self.marks.len() as u16,
            unused: mark.unused,
            traps: mark.traps,
        });
        self.stack.lower(usize::from(self.base));
        self.at = callee.entry;
        self.pbase = callee.pbase;
        self.vbase = callee.vbase;
        self.frame = frame;
        self.size = ((4 * parameters + usize::from(callee.locals)) & 0xFFFF) as u16;
    }

    /// What longs are written for comes after the last of them.
    fn give(&mut self, given: Given) -> Result<Step, Reason>
        requires { CanGive given self.old }
        ensures does { comes result self.new ≡ given_to given self.old }
        ensures good { IsGood result self.new }
    {
        match given {
            Given::Called { callee } => {
                self.enter(callee);
                Ok(Step::Done)
            }
            Given::Started {
                target,
                origin,
                taken,
            } => {
                self.take(taken);
                Ok(Step::Asking {
                    access: Access::CogInit { target, origin },
                    later: Later::Push,
                })
            }
        }
    }

    /// Writes the next of some operands, if there is one.
    pub fn give_on(
        &mut self,
        address: u16,
        next: usize,
        end: usize,
        given: Given,
    ) -> Result<Step, Reason>
        requires end { end ≤ length self.old.stack }
        requires given { CanGive given self.old }
        ensures does { comes result self.new ≡ gives address (take (end - next) (drop next self.old.stack)) given self.old }
        ensures good { IsGood result self.new }
    {
        if next >= end {
            return self.give(given);
        }
        Ok(Step::Asking {
            access: write_of(Width::Long, address, self.stack.at(next)),
            later: Later::Arguments {
                address: next_address(Width::Long, address),
                next: next + 1,
                end,
                given,
            },
        })
    }

    /// Calls a method: 0 is written to its result, and then the arguments are.
    #[tactic(auto, unfolding(crate::specs::Calls::calls))]
    fn call(&mut self, callee: Callee) -> Result<Step, Reason>
        requires { length self.old.calls < 127 }
        ensures does { comes result self.new ≡ calls callee self.old }
        ensures good { IsGood result self.new }
    {
        let result = self.frame_end();
        Ok(Step::Asking {
            access: write_of(Width::Long, result, 0),
            later: Later::Arguments {
                address: next_address(Width::Long, result),
                next: usize::from(self.base),
                end: self.stack.len(),
                given: Given::Called { callee },
            },
        })
    }

    /// Calls a method of an object, if there is one with this number.
    #[tactic(auto, unfolding(crate::specs::Calls::calls_method))]
    fn call_method(&mut self, memory: &[u8], pbase: u16, vbase: u16, m: u32) -> Result<Step, Reason>
        requires { m < 256 }
        ensures does { comes result self.new ≡ calls_method memory.now pbase vbase m self.old }
        ensures good { IsGood result self.new }
    {
        if !is_method(memory, pbase, m) {
            return Err(Reason::Table);
        }
        if self.calls.len() >= ACTIVE_CALLS {
            return Err(Reason::Deep);
        }
        self.call(method_at(memory, pbase, vbase, m))
    }

    /// Calls a method of the same object.
    #[tactic(auto, unfolding(crate::specs::Calls::call_own))]
    pub fn call_own(&mut self, memory: &[u8], m: u32) -> Result<Step, Reason>
        requires { m < 256 }
        ensures does { comes result self.new ≡ call_own memory.now m self.old }
        ensures good { IsGood result self.new }
    {
        if !self.has_mark() {
            return Err(Reason::Under);
        }
        self.call_method(memory, self.pbase, self.vbase, m)
    }

    /// Calls a method of another object that stands in the table.
    #[tactic(auto, unfolding(crate::specs::Calls::calls_object))]
    fn call_in(&mut self, memory: &[u8], o: u32, m: u32) -> Result<Step, Reason>
        requires o { o < 512 }
        requires m { m < 256 }
        ensures does { comes result self.new ≡ calls_object memory.now o m self.old }
        ensures good { IsGood result self.new }
    {
        let pbase = object_base(memory, self.pbase, o);
        let vbase = object_variables(memory, self.pbase, self.vbase, o);
        self.call_method(memory, pbase, vbase, m)
    }

    /// Calls a method of another object.
    #[tactic(auto, unfolding(crate::specs::Calls::call_object))]
    pub fn call_object(&mut self, memory: &[u8], o: u32, m: u32) -> Result<Step, Reason>
        requires o { o < 256 }
        requires m { m < 256 }
        ensures does { comes result self.new ≡ call_object memory.now o m self.old }
        ensures good { IsGood result self.new }
    {
        if !self.has_mark() {
            return Err(Reason::Under);
        }
        if !is_object(memory, self.pbase, o) {
            return Err(Reason::Table);
        }
        self.call_in(memory, o, m)
    }

    /// Calls a method of an object in an array.
    #[tactic(auto, unfolding(crate::specs::Calls::call_indexed))]
    pub fn call_indexed(&mut self, memory: &[u8], o: u32, n: u32, m: u32) -> Result<Step, Reason>
        requires o { o < 256 }
        requires n { n < 256 }
        requires m { m < 256 }
        ensures does { comes result self.new ≡ call_indexed memory.now o n m self.old }
        ensures good { IsGood result self.new }
    {
        if !self.has_mark() {
            return Err(Reason::Under);
        }
        self.test(1, 0)?;
        let index = self.operand(0);
        if !(is_object(memory, self.pbase, o)
            && index < n
            && is_object(memory, self.pbase, o + index))
        {
            return Err(Reason::Table);
        }
        self.take(1);
        self.call_in(memory, o + index, m)
    }

    /// Starts a method in a cog.
    #[tactic(auto, unfolding(crate::specs::Cogs::start_method))]
    pub fn start_method(&mut self, memory: &[u8], m: u32, count: u32) -> Result<Step, Reason>
        requires m { m < 256 }
        requires count { count < 256 }
        ensures does { comes result self.new ≡ start_method memory.now m count self.old }
        ensures good { IsGood result self.new }
    {
        let count = count as usize;
        self.test(count + 2, 1)?;
        if !is_method(memory, self.pbase, m) {
            return Err(Reason::Table);
        }
        let callee = method_at(memory, self.pbase, self.vbase, m);
        let frame = long_address(self.operand(0));
        let origin = Origin::Spin {
            entry: callee.entry,
            pbase: callee.pbase,
            vbase: callee.vbase,
            frame,
            size: ((4 * count + usize::from(callee.locals)) & 0xFFFF) as u16,
        };
        let given = Given::Started {
            target: target_of(self.operand(count + 1)),
            origin,
            taken: count + 2,
        };
        let end = self.stack.len() - 1;
        self.give_on(frame.wrapping_add(4), end - count, end, given)
    }

    /// The cog stops itself.
    fn stop(&mut self, cog: u8) -> Result<Step, Reason>
        requires { cog < 8 }
        ensures does { comes result self.new ≡ stops cog self.old }
        ensures good { IsGood result self.new }
    {
        self.calls.clear();
        Ok(ending(Access::CogStop { cog }, None))
    }

    /// Goes back to a caller.
    fn return_to(&mut self, call: Call)
        ensures { self.new ≡ returned call self.old.calls self.old }
    {
        self.at = call.at;
        self.pbase = call.pbase;
        self.vbase = call.vbase;
        self.frame = call.frame;
        self.size = call.size;
        self.base = call.base;
        self.stack.lower(usize::from(call.height));
        self.marks.lower(usize::from(call.marks));
    }

    /// Goes back to a caller with a value, or with that of the result in the frame.
    #[tactic(auto, unfolding(crate::specs::Calls::goes_back))]
    fn go_back(&mut self, value: Option<u32>, call: Call) -> Result<Step, Reason>
        ensures does { comes result self.new ≡ goes_back value call self.old.calls self.old }
        ensures good { IsGood result self.new }
    {
        let frame = self.frame;
        if call.unused {
            self.return_to(call);
            return Ok(Step::Done);
        }
        if usize::from(call.height) >= STACK_LONGS {
            return Err(Reason::Stack);
        }
        self.return_to(call);
        match value {
            Some(value) => {
                self.push(value);
                Ok(Step::Done)
            }
            None => Ok(Step::Asking {
                access: read_of(Width::Long, frame)?,
                later: Later::Push,
            }),
        }
    }

    /// Ends the method at hand with a value, or with that of its result.
    #[tactic(auto, unfolding(crate::specs::Calls::returns))]
    fn return_with(&mut self, cog: u8, value: Option<u32>) -> Result<Step, Reason>
        requires { cog < 8 }
        ensures does { comes result self.new ≡ returns cog value self.old.calls self.old }
        ensures good { IsGood result self.new }
    {
        match self.calls.pop() {
            None => self.stop(cog),
            Some(call) => self.go_back(value, call),
        }
    }

    /// RETURN.
    #[tactic(auto, unfolding(crate::specs::Calls::return_result))]
    pub fn return_result(&mut self, cog: u8) -> Result<Step, Reason>
        requires { cog < 8 }
        ensures does { comes result self.new ≡ return_result cog self.old }
        ensures good { IsGood result self.new }
    {
        self.return_with(cog, None)
    }

    /// RETURN with a value.
    #[tactic(auto, unfolding(crate::specs::Calls::return_value))]
    pub fn return_value(&mut self, cog: u8) -> Result<Step, Reason>
        requires { cog < 8 }
        ensures does { comes result self.new ≡ return_value cog self.old }
        ensures good { IsGood result self.new }
    {
        self.test(1, 0)?;
        let value = self.operand(0);
        self.return_with(cog, Some(value))
    }

    /// Ends methods up to the nearest call that stops aborts.
    #[tactic(auto, unfolding(crate::specs::Calls::aborts))]
    fn abort_with(&mut self, cog: u8, value: Option<u32>) -> Result<Step, Reason>
        requires { cog < 8 }
        ensures does { comes result self.new ≡ aborts cog value (trapping self.old.calls) self.old }
        ensures good { IsGood result self.new }
    {
        match self.calls.pop_trapping() {
            None => self.stop(cog),
            Some(call) => self.go_back(value, call),
        }
    }

    /// ABORT.
    #[tactic(auto, unfolding(crate::specs::Calls::abort_result))]
    pub fn abort_result(&mut self, cog: u8) -> Result<Step, Reason>
        requires { cog < 8 }
        ensures does { comes result self.new ≡ abort_result cog self.old }
        ensures good { IsGood result self.new }
    {
        self.abort_with(cog, None)
    }

    /// ABORT with a value.
    #[tactic(auto, unfolding(crate::specs::Calls::abort_value))]
    pub fn abort_value(&mut self, cog: u8) -> Result<Step, Reason>
        requires { cog < 8 }
        ensures does { comes result self.new ≡ abort_value cog self.old }
        ensures good { IsGood result self.new }
    {
        self.test(1, 0)?;
        let value = self.operand(0);
        self.abort_with(cog, Some(value))
    }
}
