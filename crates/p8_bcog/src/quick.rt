// The most frequent bytecodes, done straight on their bytes.
ghost use Rattle.std.specs.Prelude.{ℕ, ◌≡◌, ◌<◌, ◌≤◌, ◌+◌, ◌*◌, ◌%◌, ◌^◌, ◌∷◌, true, List, length, slice_index, IfSome, MatchOption};
ghost use Rattle.p8_bytecode.specs.Reading.{sign_extended};
ghost use Rattle.p8_bcog.specs.Code.{code_of};
ghost use Rattle.p8_bcog.specs.Bytecodes.{bytecode, clocks};
ghost use Rattle.p8_bcog.specs.Quick.{finishes, passed, offset_of, jump_size, IsQuick, is_fast_operator, names_long, counts};
ghost use Rattle.p8_bcog.specs.Standing.{is_under};
ghost use Rattle.p8_bcog.specs.Stops.{at_stage, IsSound};

use crate::bytecodes::packed;
use crate::stage::SpinStage;
use crate::state::SpinState;
use p8_access::Reason;
use p8_bytecode::{
    BRANCH, JUMP_IF_FALSE, JUMP_IF_TRUE, LOOP_CONTINUE, LOOP_START, PUSH_0, PUSH_1, PUSH_BYTE_LIT,
    PUSH_NEG1, PUSH_PACKED_LIT,
};

/// The offset of a jump by its only byte, a word in two's complement.
#[inline]
fn short_offset(byte: u8) -> u32
    requires { byte < 128 }
    ensures { result ≡ sign_extended 7 byte }
{
    if byte < 64 {
        u32::from(byte)
    } else {
        u32::from(byte) + 0xFFFF_FF80
    }
}

/// A number of 15 bits with a sign as a word in two's complement.
#[inline]
fn extended(number: u32) -> u32
    requires { number < 2 ^ 15 }
    ensures { result ≡ sign_extended 15 number }
{
    if number < 0x4000 {
        number
    } else {
        number + 0xFFFF_8000
    }
}

/// The offset of a jump by its two bytes, a word in two's complement. Bit 7 of the first says that there are two.
#[inline]
fn long_offset(high: u8, low: u8) -> u32
    ensures { result ≡ sign_extended 15 (high % 128 * 256 + low) }
{
    extended(u32::from(high % 128) * 256 + u32::from(low))
}

/// The offset of a jump by the two bytes after its own, of which it may have one alone.
#[inline]
fn offset_of(high: u8, low: u8) -> u32
    ensures { result ≡ offset_of high low }
{
    if high < 128 {
        short_offset(high)
    } else {
        long_offset(high, low)
    }
}

/// Whether a bytecode is an operator that takes 32 clocks.
#[inline]
fn is_fast_operator(code: u8) -> bool
    ensures { result ≡ is_fast_operator code }
{
    code >= 0xE0 && !(code >= 0xF4 && code <= 0xF8)
}

/// Whether a bytecode names a long variable.
#[inline]
fn names_long(code: u8) -> bool
    ensures { result ≡ names_long code }
{
    code >= 0x40 && code < 0x80
}

/// Whether an effect adds 1 or subtracts 1.
#[inline]
fn counts(effect: u8) -> bool
    ensures { result ≡ counts effect }
{
    effect % 128 >= 0x20 && effect % 128 < 0x40
}

/// A byte of the code.
#[inline]
fn byte_of(code: &[u8], place: usize) -> u8
    requires { place < length code.now }
    ensures { result ≡ slice_index code.now place }
{
    code[place]
}

impl SpinState {
    /// Goes on after so many bytes.
    #[inline]
    fn pass(&mut self, bytes: u16)
        requires { self.old.at + bytes < 2 ^ 16 }
        ensures { self.new ≡ passed bytes self.old }
    {
        self.at += bytes;
    }

    /// Goes on after a jump, by the first byte of its offset.
    #[inline]
    fn pass_jump(&mut self, high: u8)
        requires { self.old.at + 3 < 2 ^ 16 }
        ensures { self.new ≡ passed (jump_size high) self.old }
    {
        if high < 128 {
            self.pass(2);
        } else {
            self.pass(3);
        }
    }

    /// Does the bytecode that these three bytes begin, if it is one of the most frequent that ask nothing and take 32 clocks.
    #[inline]
    fn quick_on(&mut self, byte: u8, operand: u8, low: u8) -> Option<Result<(), Reason>>
        requires { self.old.at + 3 < 2 ^ 16 }
        ensures { MatchOption result (self.new ≡ self.old)
            (λ finished. (rest : List ℕ) → IsQuick (byte ∷ operand ∷ low ∷ rest) self.old (finishes finished self.new)) }
    {
        match byte {
            BRANCH => {
                self.pass_jump(operand);
                self.jump(offset_of(operand, low));
                Some(Ok(()))
            }
            LOOP_START => {
                self.pass_jump(operand);
                Some(self.loop_begins(offset_of(operand, low)))
            }
            LOOP_CONTINUE => {
                self.pass_jump(operand);
                Some(self.loop_ends(offset_of(operand, low)))
            }
            JUMP_IF_FALSE => {
                self.pass_jump(operand);
                Some(self.jump_if_zero(offset_of(operand, low)))
            }
            JUMP_IF_TRUE => {
                self.pass_jump(operand);
                Some(self.jump_unless_zero(offset_of(operand, low)))
            }
            PUSH_NEG1 => {
                self.pass(1);
                Some(self.leave_constant(u32::MAX))
            }
            PUSH_0 => {
                self.pass(1);
                Some(self.leave_constant(0))
            }
            PUSH_1 => {
                self.pass(1);
                Some(self.leave_constant(1))
            }
            PUSH_PACKED_LIT if operand < 128 => {
                self.pass(2);
                Some(self.leave_constant(packed(u32::from(operand))))
            }
            PUSH_BYTE_LIT => {
                self.pass(2);
                Some(self.leave_constant(u32::from(operand)))
            }
            _ if is_fast_operator(byte) => {
                self.pass(1);
                Some(self.operate(byte))
            }
            _ => None,
        }
    }

    /// Does the bytecode that these two bytes begin, if it pushes or pops a long variable that it names, or adds 1 to it or
    /// subtracts 1, and tells how far it is then.
    #[inline]
    fn quick_variable_on(&mut self, byte: u8, operand: u8, stage: &mut SpinStage) -> Option<()>
        requires { self.old.at + 2 < 2 ^ 16 }
        ensures does { MatchOption result (self.new ≡ self.old)
            (λ done. (rest : List ℕ) → IsQuick (byte ∷ operand ∷ rest) self.old (at_stage stage.new self.new)) }
        ensures under { IfSome result (λ done. is_under stage.new ≡ true) }
        ensures sound { IfSome result (λ done. IsSound stage.new self.new) }
    {
        if !names_long(byte) {
            return None;
        }
        let address = self.short_address(byte);
        match byte % 4 {
            0 => {
                self.pass(1);
                self.push_long(address, stage);
                Some(())
            }
            1 => {
                self.pass(1);
                self.pop_long(address, stage);
                Some(())
            }
            2 if counts(operand) => {
                self.pass(2);
                self.change_long(operand, address, stage);
                Some(())
            }
            _ => None,
        }
    }

    /// Does the bytecode that stands where the cog is, if it is one of the most frequent that ask nothing and take 32 clocks, and if
    /// three bytes stand there.
    #[inline]
    pub fn quick(&mut self, code: &[u8]) -> Option<Result<(), Reason>>
        requires room { length code.now ≤ 32768 }
        ensures { MatchOption result (self.new ≡ self.old)
            (λ finished. (memory : List ℕ) (cog : ℕ) → code.now ≡ code_of memory →
            (finishes finished self.new ≡ bytecode memory cog self.old) × (clocks memory self.old ≡ 32)) }
    {
        let at = usize::from(self.at);
        if at < 16 {
            return None;
        }
        if at + 2 >= code.len() {
            return None;
        }
        self.quick_on(
            byte_of(code, at),
            byte_of(code, at + 1),
            byte_of(code, at + 2),
        )
    }

    /// Does the bytecode that stands where the cog is, if it pushes or pops a long variable that it names, or adds 1 to it or
    /// subtracts 1, and tells how far it is then. It asks for three bytes, as `quick` does, so that one test serves both.
    #[inline]
    pub fn quick_variable(&mut self, code: &[u8], stage: &mut SpinStage) -> Option<()>
        requires room { length code.now ≤ 32768 }
        ensures does { MatchOption result (self.new ≡ self.old)
            (λ done. (memory : List ℕ) (cog : ℕ) → code.now ≡ code_of memory →
            (at_stage stage.new self.new ≡ bytecode memory cog self.old) × (clocks memory self.old ≡ 32)) }
        ensures under { IfSome result (λ done. is_under stage.new ≡ true) }
        ensures sound { IfSome result (λ done. IsSound stage.new self.new) }
    {
        let at = usize::from(self.at);
        if at < 16 {
            return None;
        }
        if at + 2 >= code.len() {
            return None;
        }
        self.quick_variable_on(byte_of(code, at), byte_of(code, at + 1), stage)
    }
}
