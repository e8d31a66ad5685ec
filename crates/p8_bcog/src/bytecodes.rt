// The table of Spin's bytecodes.
ghost use Rattle.std.specs.Prelude.{ℕ, ◌≡◌, ◌<◌, ◌≤◌, ◌%◌, true, length, IfSome, if◌then◌else◌};
ghost use Rattle.p8_bcog.specs.Code.{code_of, fetched_in};
ghost use Rattle.p8_bcog.specs.Bytecodes.{call_row, test_row, look_row, wait_row, move_row, cog_row, less_one_if, inverted_if, packed, constant};
ghost use Rattle.p8_bcog.specs.Bytecodes.{return_row, operator_row, row, bytecode, is_slow, clocks};
ghost use Rattle.p8_bcog.specs.Control.{jump};
ghost use Rattle.p8_bcog.specs.Cogs.{pasm_start};
ghost use Rattle.p8_bcog.specs.Laters.{comes};
ghost use Rattle.p8_bcog.specs.Ready.{IsGood};
ghost use Rattle.p8_access.specs.Lives.{IsMade};
ghost use Rattle.p8_bytecode.specs.Spelling.{IsOp};
ghost use Rattle.p8_bytecode.specs.Reading.{bare};
ghost use Rattle.p8_access.specs.Courses.{Finish};
ghost use Rattle.p8_bcog.specs.declared.stage.SpinStage.TheVariants.{Ready};
ghost use Rattle.p8_bcog.specs.Operands.{tested, pushed};
ghost use Rattle.p8_bcog.specs.declared.state.SpinState.{SpinState};
ghost use Rattle.p8_bcog.specs.Quick.{finishes};
ghost use Rattle.p8_bcog.specs.Standing.{is_under};
ghost use Rattle.p8_bcog.specs.Stops.{at_stage, IsSound};

use crate::cogs::{long_address, number_in, target_of};
use crate::operands::difference;
use crate::running::stage_of;
use crate::stage::SpinStage;
use crate::state::SpinState;
use crate::step::Step;
use p8_access::{Access, Origin, Reason, Test, Width};
use p8_bytecode::{
    ABORT, ABORT_WITH_RETURN, BRANCH, BYTEFILL, BYTEMOVE, CALL, COGINIT, COGINIT_RETURNS, COGSTOP,
    COMPARE_CASE, COMPARE_CASE_RANGE, INDEXED_MEM_OP, INDEXED_RANGE_MEM_OP, JUMP_FROM_STACK,
    JUMP_IF_FALSE, JUMP_IF_TRUE, LOCKCLR_RETURNS, LOCKNEW, LOCKNEW_RETURNS, LOCKRET, LOCKSET,
    LOCKSET_RETURNS, LONGFILL, LONGMOVE, LOOKDOWN_COMPARE, LOOKDOWNRANGE_COMPARE, LOOKUP_COMPARE,
    LOOKUPRANGE_COMPARE, LOOP_CONTINUE, LOOP_START, MARK_INTERPRETED, OBJCALL, OBJCALL_INDEXED, Op,
    POP_RETURN, PUSH_0, PUSH_1, PUSH_NEG1, PUSH_PACKED_LIT, QUIT, RETURN, STRCOMP, STRSIZE,
    WAITCNT, WAITPEQ, WORDFILL, WORDMOVE, take_op,
};
use p8_words::{binary, is_unary, rotated_left, unary};

/// A value less 1, where the flag is set.
fn less_one_if(flag: bool, value: u32) -> u32
    ensures { result ≡ less_one_if flag value }
{
    if flag { difference(value, 1) } else { value }
}

/// A value inverted, where the flag is set.
fn inverted_if(flag: bool, value: u32) -> u32
    ensures { result ≡ inverted_if flag value }
{
    if flag { !value } else { value }
}

/// The constant that a byte packs.
pub fn packed(byte: u32) -> u32
    ensures { result ≡ packed byte }
{
    let power = rotated_left(2, byte % 32);
    inverted_if(byte / 64 % 2 == 1, less_one_if(byte / 32 % 2 == 1, power))
}

/// The constant that a bytecode pushes.
fn constant(op: Op) -> u32
    ensures { result ≡ constant op }
{
    match op.code {
        PUSH_NEG1 => u32::MAX,
        PUSH_0 => 0,
        PUSH_1 => 1,
        PUSH_PACKED_LIT => packed(op.first),
        _ => op.first,
    }
}

/// Whether a bytecode takes 544 clocks.
fn is_slow(op: Op) -> bool
    ensures { result ≡ is_slow op }
{
    if op.code < 0xE0 {
        let effect = op.effect % 128;
        effect >= 0x54 && effect <= 0x58
    } else {
        op.code >= 0xF4 && op.code <= 0xF8
    }
}

/// The clocks from the begin of a bytecode up to where its first access counts.
#[inline]
fn clocks_of(op: Op) -> u64
    ensures clocks { result ≡ (if is_slow op then 544 else 32) }
    ensures least { 32 ≤ result }
    ensures most { result ≤ 544 }
{
    if is_slow(op) { 544 } else { 32 }
}

/// The bytecode at an address and the address after it.
#[inline]
fn fetch(code: &[u8], at: u16) -> Option<(Op, u16)>
    requires { length code.now ≤ 32768 }
    ensures fetched { result ≡ fetched_in code.now at }
    ensures taken { IfSome result (λ found. IsOp found.0) }
{
    if at < 16 {
        return None;
    }
    match take_op(code, usize::from(at)) {
        Some((op, next)) => Some((op, next as u16)),
        None => None,
    }
}

/// How far a life is after a bytecode that asks nothing.
#[inline]
fn settle(stage: &mut SpinStage, finished: Result<(), Reason>)
    requires ready { stage.old ≡ Ready }
    ensures does { (s : SpinState) → at_stage stage.new s ≡ finishes finished s }
    ensures under { is_under stage.new ≡ true }
    ensures sound { (s : SpinState) → IsSound stage.new s }
{
    if let Err(reason) = finished {
        *stage = SpinStage::Halted { reason };
    }
}

impl SpinState {
    /// The bytecodes 00 to 07.
    #[tactic(auto, unfolding(crate::specs::Bytecodes::call_row))]
    fn call_row(&mut self, memory: &[u8], op: Op) -> Result<Step, Reason>
        requires taken { IsOp op }
        requires range { op.code < 0x08 }
        ensures does { comes result self.new ≡ call_row memory.now op self.old }
        ensures good { IsGood result self.new }
    {
        match op.code {
            0x00..=0x03 => self.open_mark(op.code),
            BRANCH => {
                self.jump(op.first);
                Ok(Step::Done)
            }
            CALL => self.call_own(memory, op.first),
            OBJCALL => self.call_object(memory, op.first, op.second),
            OBJCALL_INDEXED => self.call_indexed(memory, op.first, op.second, op.third),
            _ => unreachable!(),
        }
    }

    /// The bytecodes 08 to 0F.
    #[tactic(auto, unfolding(crate::specs::Bytecodes::test_row))]
    fn test_row(&mut self, op: Op) -> Result<(), Reason>
        ensures does { finishes result self.new ≡ test_row op self.old }
    {
        match op.code {
            LOOP_START => self.loop_begins(op.first),
            LOOP_CONTINUE => self.loop_ends(op.first),
            JUMP_IF_FALSE => self.jump_if_zero(op.first),
            JUMP_IF_TRUE => self.jump_unless_zero(op.first),
            JUMP_FROM_STACK => self.drops(),
            COMPARE_CASE => self.case_value(op.first),
            COMPARE_CASE_RANGE => self.case_range(op.first),
            _ => self.look_fails(),
        }
    }

    /// The bytecodes 10 to 15.
    #[tactic(auto, unfolding(crate::specs::Bytecodes::look_row))]
    fn look_row(&mut self, memory: &[u8], op: Op) -> Result<Step, Reason>
        requires taken { IsOp op }
        requires range { op.code < 0x16 }
        requires from { 0x10 ≤ op.code }
        ensures does { comes result self.new ≡ look_row memory.now op self.old }
        ensures good { IsGood result self.new }
    {
        match op.code {
            LOOKUP_COMPARE => self.lookup_value(op.first),
            LOOKDOWN_COMPARE => self.lookdown_value(op.first),
            LOOKUPRANGE_COMPARE => self.lookup_range(op.first),
            LOOKDOWNRANGE_COMPARE => self.lookdown_range(op.first),
            QUIT => {
                self.drops()?;
                Ok(Step::Done)
            }
            MARK_INTERPRETED => self.start_method(memory, op.first, op.second),
            _ => unreachable!(),
        }
    }

    /// Waits for pins that equal a state, or differ from it.
    #[tactic(auto, unfolding(crate::specs::Bytecodes::wait_row))]
    fn wait_row(&mut self, equal: bool) -> Result<Step, Reason>
        ensures does { comes result self.new ≡ wait_row equal self.old }
        ensures good { IsGood result self.new }
    {
        let state = self.peek(2);
        let mask = self.peek(1);
        if equal {
            self.wait_for_pins(Test::PinsEqual { state, mask })
        } else {
            self.wait_for_pins(Test::PinsDiffer { state, mask })
        }
    }

    /// The bytecodes 16 to 1F.
    #[tactic(auto, unfolding(crate::specs::Bytecodes::move_row))]
    fn move_row(&mut self, op: Op) -> Result<Step, Reason>
        ensures does { comes result self.new ≡ move_row op self.old }
        ensures good { IsGood result self.new }
    {
        match op.code {
            STRSIZE => self.text_size(),
            STRCOMP => self.text_compare(),
            BYTEFILL => self.fill(Width::Byte),
            WORDFILL => self.fill(Width::Word),
            LONGFILL => self.fill(Width::Long),
            WAITPEQ => self.wait_row(true),
            BYTEMOVE => self.move_elements(Width::Byte),
            WORDMOVE => self.move_elements(Width::Word),
            LONGMOVE => self.move_elements(Width::Long),
            _ => self.wait_row(false),
        }
    }

    /// The start of PASM in a cog.
    fn pasm_start(&self) -> Access
        ensures access { result ≡ pasm_start self.now }
        ensures made { IsMade result }
    {
        Access::CogInit {
            target: target_of(self.peek(2)),
            origin: Origin::Pasm {
                code: long_address(self.peek(1)),
                par: long_address(self.peek(0)),
            },
        }
    }

    /// The bytecodes 21 to 2F.
    #[tactic(auto, unfolding(crate::specs::Bytecodes::cog_row))]
    fn cog_row(&mut self, op: Op) -> Result<Step, Reason>
        ensures does { comes result self.new ≡ cog_row op self.old }
        ensures good { IsGood result self.new }
    {
        let value = self.peek(0);
        let number = number_in(value);
        match op.code {
            COGSTOP => self.tell(1, Access::CogStop { cog: number }),
            LOCKRET => self.tell(1, Access::LockRet { lock: number }),
            WAITCNT => self.tell(
                1,
                Access::Wait {
                    test: Test::Count { target: value },
                },
            ),
            COGINIT_RETURNS => self.ask_word(3, self.pasm_start()),
            LOCKNEW_RETURNS => self.ask_word(0, Access::LockNew),
            LOCKSET_RETURNS => self.ask_word(1, Access::LockSet { lock: number }),
            LOCKCLR_RETURNS => self.ask_word(1, Access::LockClr { lock: number }),
            COGINIT => self.tell(3, self.pasm_start()),
            LOCKNEW => self.tell(0, Access::LockNew),
            LOCKSET => self.tell(1, Access::LockSet { lock: number }),
            _ => self.tell(1, Access::LockClr { lock: number }),
        }
    }

    /// The bytecodes 34 to 3B leave a constant.
    #[inline]
    pub fn leave_constant(&mut self, value: u32) -> Result<(), Reason>
        ensures does { finishes result self.new ≡ tested 0 1 self.old (Finish (pushed value self.old)) }
    {
        self.test(0, 1)?;
        self.push(value);
        Ok(())
    }

    /// The bytecodes 30 to 3F.
    #[tactic(auto, unfolding(crate::specs::Bytecodes::return_row, crate::specs::Bytecodes::constant_row))]
    fn return_row(&mut self, cog: u8, op: Op) -> Result<Step, Reason>
        requires cog { cog < 8 }
        requires taken { IsOp op }
        requires from { 0x30 ≤ op.code }
        requires range { op.code < 0x40 }
        ensures does { comes result self.new ≡ return_row cog op self.old }
        ensures good { IsGood result self.new }
    {
        match op.code {
            ABORT => self.abort_result(cog),
            ABORT_WITH_RETURN => self.abort_value(cog),
            RETURN => self.return_result(cog),
            POP_RETURN => self.return_value(cog),
            0x34..=0x3B => {
                self.leave_constant(constant(op))?;
                Ok(Step::Done)
            }
            INDEXED_MEM_OP => self.one_pin(op),
            INDEXED_RANGE_MEM_OP => self.some_pins(op),
            _ => self.whole_register(op),
        }
    }

    /// The bytecodes E0 to FF are operators.
    #[inline(always)]
    #[tactic(auto, unfolding(crate::specs::Bytecodes::operator_row))]
    pub fn operate(&mut self, code: u8) -> Result<(), Reason>
        ensures does { finishes result self.new ≡ operator_row (bare code) self.old }
    {
        if is_unary(code) {
            self.test(1, 1)?;
            let value = unary(code, self.operand(0));
            self.replace(1, value);
        } else {
            self.test(2, 1)?;
            let value = binary(code, self.operand(1), self.operand(0));
            self.replace(2, value);
        }
        Ok(())
    }

    /// Does a bytecode whose successor is at hand.
    #[tactic(auto, unfolding(crate::specs::Bytecodes::row, crate::specs::Bytecodes::operator_row))]
    fn row(&mut self, memory: &[u8], cog: u8, op: Op) -> Result<Step, Reason>
        requires cog { cog < 8 }
        requires taken { IsOp op }
        ensures does { comes result self.new ≡ row memory.now cog op self.old }
        ensures good { IsGood result self.new }
    {
        match op.code {
            0x00..=0x07 => self.call_row(memory, op),
            0x08..=0x0F => {
                self.test_row(op)?;
                Ok(Step::Done)
            }
            0x10..=0x15 => self.look_row(memory, op),
            0x16..=0x1F => self.move_row(op),
            0x20..=0x2F => self.cog_row(op),
            0x30..=0x3F => self.return_row(cog, op),
            0x40..=0x7F => self.short_variable(op),
            0x80..=0xDF => self.variable(op),
            _ => {
                self.operate(op.code)?;
                Ok(Step::Done)
            }
        }
    }

    /// Does the bytecode that stands where the cog is, in code that begins at address 0, and tells how far it is
    /// then. It answers the clocks up to where its first access counts.
    #[inline]
    pub fn bytecode(&mut self, memory: &[u8], code: &[u8], cog: u8, stage: &mut SpinStage) -> u64
        requires ready { stage.old ≡ Ready }
        requires code { code.now ≡ code_of memory.now }
        requires room { length code.now ≤ 32768 }
        requires cog { cog < 8 }
        ensures clocks { result ≡ clocks memory.now self.old }
        ensures least { 32 ≤ result }
        ensures most { result ≤ 544 }
        ensures does { at_stage stage.new self.new ≡ bytecode memory.now cog self.old }
        ensures sound { IsSound stage.new self.new }
        ensures under { is_under stage.new ≡ true }
    {
        match self.quick(code) {
            Some(finished) => {
                settle(stage, finished);
                32
            }
            None => self.asking_bytecode(memory, code, cog, stage),
        }
    }

    /// Does a bytecode as `bytecode` does, the most frequent that ask first.
    #[inline]
    fn asking_bytecode(&mut self, memory: &[u8], code: &[u8], cog: u8, stage: &mut SpinStage) -> u64
        requires code { code.now ≡ code_of memory.now }
        requires room { length code.now ≤ 32768 }
        requires cog { cog < 8 }
        ensures clocks { result ≡ clocks memory.now self.old }
        ensures least { 32 ≤ result }
        ensures most { result ≤ 544 }
        ensures does { at_stage stage.new self.new ≡ bytecode memory.now cog self.old }
        ensures sound { IsSound stage.new self.new }
        ensures under { is_under stage.new ≡ true }
    {
        match self.quick_variable(code, stage) {
            Some(()) => 32,
            None => self.any_bytecode(memory, code, cog, stage),
        }
    }

    /// Does any bytecode as `bytecode` does. It is not inlined, so that no value of it takes a register of the processor from the frequent
    /// ones.
    #[inline(never)]
    fn any_bytecode(&mut self, memory: &[u8], code: &[u8], cog: u8, stage: &mut SpinStage) -> u64
        requires code { code.now ≡ code_of memory.now }
        requires room { length code.now ≤ 32768 }
        requires cog { cog < 8 }
        ensures clocks { result ≡ clocks memory.now self.old }
        ensures least { 32 ≤ result }
        ensures most { result ≤ 544 }
        ensures does { at_stage stage.new self.new ≡ bytecode memory.now cog self.old }
        ensures sound { IsSound stage.new self.new }
        ensures under { is_under stage.new ≡ true }
    {
        match fetch(code, self.at) {
            None => {
                *stage = SpinStage::Halted {
                    reason: Reason::Byte(self.at),
                };
                32
            }
            Some((op, next)) => {
                self.at = next;
                *stage = stage_of(self.row(memory, cog, op));
                clocks_of(op)
            }
        }
    }
}
