// Signed sums and differences, with the signed overflow as C.
ghost use Rattle.std.specs.Prelude.{◌≡◌, ◌+◌, ◌+ℤ◌, ◌-ℤ◌, pos, int_lt, if◌then◌else◌};
ghost use Rattle.std.specs.Int.{from_bool};
ghost use Rattle.p8_words.specs.Words.{signed_value};
ghost use Rattle.p8_alu.specs.Effects.{difference, signed_effect, extended_comparison_effect};

use crate::effect::{Effect, low_word};
use p8_words::signed;

#[inline]
pub fn signed_sum(a: u32, b: u32) -> Effect
    ensures { result ≡ signed_effect (signed_value a +ℤ signed_value b) }
{
    Effect::of_signed(signed(a) + signed(b))
}

#[inline]
pub fn signed_difference(a: u32, b: u32) -> Effect
    ensures { result ≡ signed_effect (signed_value a -ℤ signed_value b) }
{
    Effect::of_signed(signed(a) - signed(b))
}

/// The sum with the old C added.
#[inline]
pub fn signed_sum_with(a: u32, b: u32, c: bool) -> Effect
    ensures { result ≡ signed_effect (signed_value a +ℤ signed_value b +ℤ pos (from_bool c)) }
{
    Effect::of_signed(signed(a) + signed(b) + c as i64)
}

/// The difference with the old C taken off too.
#[inline]
pub fn signed_difference_with(a: u32, b: u32, c: bool) -> Effect
    ensures { result ≡ signed_effect (signed_value a -ℤ signed_value b -ℤ pos (from_bool c)) }
{
    Effect::of_signed(signed(a) - signed(b) - c as i64)
}

/// The difference where the flag is set, else the sum.
///
/// It is always inlined: a call would keep the effect of each instruction in memory.
#[inline(always)]
pub fn difference_or_sum(flag: bool, a: u32, b: u32) -> Effect
    ensures { result
        ≡ signed_effect (if flag then signed_value a -ℤ signed_value b else signed_value a +ℤ signed_value b) }
{
    if flag {
        signed_difference(a, b)
    } else {
        signed_sum(a, b)
    }
}

/// The difference with the old C taken off too, and as C whether it is below 0 by the signed
/// readings.
#[inline]
pub fn signed_comparison_with(a: u32, b: u32, c: bool) -> Effect
    ensures { result ≡ extended_comparison_effect a b c }
{
    Effect::of(difference_with(a, b, c), is_below_signed_with(a, b, c))
}

#[inline]
fn difference_with(a: u32, b: u32, c: bool) -> u32
    ensures { result ≡ difference a (b + from_bool c) }
{
    low_word(i64::from(a) - (i64::from(b) + c as i64))
}

#[inline]
fn is_below_signed_with(a: u32, b: u32, c: bool) -> bool
    ensures { result ≡ int_lt (signed_value a) (signed_value b +ℤ pos (from_bool c)) }
{
    signed(a) < signed(b) + c as i64
}
