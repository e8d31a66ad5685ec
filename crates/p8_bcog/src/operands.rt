// The operands of a bytecode.
ghost use Rattle.std.specs.Prelude.{ℕ, Bool, ◌≡◌, ◌<◌, ◌≤◌, ◌+◌, ◌-◌, ◌%◌, ◌^◌, length, IfOk, IfErr, Some, None, if◌then◌else◌};
ghost use Rattle.p8_bcog.specs.Ready.{HasRoomFor};
ghost use Rattle.p8_bcog.specs.Operands.{left_by, operand, taken, pushed, replaced, refusal, jumped, jumped_if, is_at_most, is_between, sum_of};
ghost use Rattle.p8_bcog.specs.Operands.{difference, distance};

use crate::stack::STACK_LONGS;
use crate::state::SpinState;
use p8_access::Reason;
use p8_words::signed;

impl SpinState {
    /// Whether a bytecode that takes and leaves so many longs may be done; the error is why not.
    #[inline]
    pub fn test(&self, takes: usize, leaves: usize) -> Result<(), Reason>
        requires takes { takes ≤ 1000 }
        requires leaves { leaves ≤ 1000 }
        ensures ok { IfOk result (λ _. refusal takes leaves self.now ≡ None) }
        ensures enough { IfOk result (λ _. takes ≤ length self.now.stack) }
        ensures room { IfOk result (λ _. length self.now.stack - takes + leaves ≤ 16384) }
        ensures err { IfErr result (λ reason. refusal takes leaves self.now ≡ Some reason) }
    {
        let height = self.stack.len();
        if height.saturating_sub(usize::from(self.base)) < takes {
            Err(Reason::Under)
        } else if height - takes + leaves > STACK_LONGS {
            Err(Reason::Stack)
        } else {
            Ok(())
        }
    }

    /// The operand so many places below the top.
    #[inline]
    pub fn operand(&self, below: usize) -> u32
        requires { below < length self.now.stack }
        ensures { result ≡ operand self.now below }
    {
        self.stack.top(below)
    }

    /// What stands so many places below the top, where that isn't tested yet.
    #[inline]
    pub fn peek(&self, below: usize) -> u32
        requires { below ≤ 1000 }
        ensures { result ≡ operand self.now below }
    {
        self.stack.peek(below)
    }

    /// Takes so many operands.
    #[inline]
    pub fn take(&mut self, count: usize)
        requires { count ≤ length self.old.stack }
        ensures taken { self.new ≡ taken count self.old }
        ensures length { length self.new.stack ≡ length self.old.stack - count }
    {
        self.stack.drop_top(count);
    }

    /// Leaves a value, if there is one.
    #[inline(always)]
    pub fn leave(&mut self, left: Option<u32>)
        requires { HasRoomFor left self.old }
        ensures { self.new ≡ left_by left self.old }
    {
        if let Some(value) = left {
            self.stack.push(value);
        }
    }

    /// Leaves a value.
    #[inline]
    pub fn push(&mut self, value: u32)
        requires { length self.old.stack < 16384 }
        ensures { self.new ≡ pushed value self.old }
    {
        self.stack.push(value);
    }

    /// Takes so many operands, and leaves a value in their place.
    #[inline]
    pub fn replace(&mut self, count: usize, value: u32)
        requires count { count ≤ length self.old.stack }
        requires room { length self.old.stack - count < 16384 }
        ensures { self.new ≡ replaced count value self.old }
    {
        self.stack.drop_top(count);
        self.stack.push(value);
    }

    /// Jumps by an offset, a word in two's complement.
    #[inline]
    pub fn jump(&mut self, offset: u32)
        ensures { self.new ≡ jumped offset self.old }
    {
        self.at = (u32::from(self.at).wrapping_add(offset) & 0xFFFF) as u16;
    }

    /// Jumps where the flag is set.
    #[inline]
    pub fn jump_if(&mut self, jumps: bool, offset: u32)
        ensures { self.new ≡ jumped_if jumps offset self.old }
    {
        if jumps {
            self.jump(offset);
        }
    }
}

/// Whether a signed value isn't greater than another.
#[inline]
pub fn is_at_most(a: u32, b: u32) -> bool
    ensures { result ≡ is_at_most a b }
{
    signed(a) <= signed(b)
}

/// Whether a signed value lies between two ends, in either order.
#[inline]
pub fn is_between(value: u32, one: u32, other: u32) -> bool
    ensures { result ≡ is_between value one other }
{
    (is_at_most(one, value) && is_at_most(value, other))
        || (is_at_most(other, value) && is_at_most(value, one))
}

/// The sum, mod 2^32.
#[inline]
pub fn sum_of(a: u32, b: u32) -> u32
    ensures { result ≡ sum_of a b }
{
    a.wrapping_add(b)
}

/// The difference, mod 2^32.
#[inline]
pub fn difference(a: u32, b: u32) -> u32
    ensures { result ≡ difference a b }
{
    a.wrapping_sub(b)
}

/// How far two signed values are apart.
#[inline]
pub fn distance(a: u32, b: u32) -> u32
    ensures { result ≡ distance a b }
{
    if is_at_most(a, b) {
        difference(b, a)
    } else {
        difference(a, b)
    }
}
