// The values of operators on words.
ghost use Rattle.std.specs.Prelude.{◌≡◌, ◌<◌, ◌-◌, ◌^◌, pos, neg_ℤ, ◌-ℤ◌, unsigned_abs};
ghost use Rattle.p8_words.specs.Words.{word_of, signed_value, shifted_right_signed, rotated_left, rotated_right};
ghost use Rattle.p8_words.specs.Operators.{truth, is_below, unary_result, binary_result, is_unary, unary_value, binary_value, divides};

use crate::codes::{
    ABSOLUTE_VALUE, ADD, ARITH_SHIFT_RIGHT, BIT_AND, BIT_OR, BIT_REVERSE, BIT_XOR, COMPLEMENT,
    DECODE, DIVIDE, ENCODE, EQUAL, GREATER, GREATER_EQUAL, LESS, LESS_EQUAL, LIMIT_MAX, LIMIT_MIN,
    LOGICAL_AND, LOGICAL_NOT, LOGICAL_OR, MODULO, MULTIPLY, MULTIPLY_HI, NEGATE, NOT_EQUAL,
    ROTATE_LEFT, ROTATE_RIGHT, SHIFT_LEFT, SHIFT_RIGHT, SQUARE_ROOT, SUBTRACT,
};
use crate::words::{
    add_wrap, decode, divide, encode, high_signed, remainder, reverse, root, signed,
};

// -1 for true, 0 for false.
fn truth(is_so: bool) -> u32
    ensures { result ≡ truth is_so }
{
    if is_so { u32::MAX } else { 0 }
}

// Whether a word is below another one, both signed.
fn is_below(a: u32, b: u32) -> bool
    ensures { result ≡ is_below a b }
{
    signed(a) < signed(b)
}

fn negated(a: u32) -> u32
    ensures { result ≡ word_of (neg_ℤ (pos a)) }
{
    a.wrapping_neg()
}

fn difference(a: u32, b: u32) -> u32
    ensures { result ≡ word_of (pos a -ℤ pos b) }
{
    a.wrapping_sub(b)
}

// The absolute value of a signed word; -2^31 gives 2^31.
fn absolute(a: u32) -> u32
    ensures { result ≡ unsigned_abs (signed_value a) }
{
    a.cast_signed().unsigned_abs()
}

fn rotated_right(a: u32, n: u32) -> u32
    requires { n < 32 }
    ensures { result ≡ rotated_right a n }
{
    a.rotate_right(n)
}

/// A word rotated left by fewer than 32 bits.
#[inline]
pub fn rotated_left(a: u32, n: u32) -> u32
    requires { n < 32 }
    ensures { result ≡ rotated_left a n }
{
    a.rotate_left(n)
}

// The word shifted right, with its bit 31 in every freed bit.
fn shifted_right_signed(a: u32, n: u32) -> u32
    requires { n < 32 }
    ensures { result ≡ shifted_right_signed a n }
{
    (a.cast_signed() >> n).cast_unsigned()
}

/// The value of an operator before its operand: none for a number that is no such operator.
#[inline]
#[tactic(auto, unfolding(crate::specs::Operators::unary_values))]
pub fn unary_result(operator: u8, a: u32) -> Option<u32>
    ensures { result ≡ unary_result operator a }
{
    let value = match operator {
        // `-`, `!`, `||`, the sign `+`
        NEGATE => negated(a),
        COMPLEMENT => !a,
        ABSOLUTE_VALUE => absolute(a),
        ADD => a,
        // `>|`, `|<`, `^^`, NOT
        ENCODE => encode(a),
        DECODE => decode(a),
        SQUARE_ROOT => root(a),
        LOGICAL_NOT => truth(a == 0),
        _ => return None,
    };
    Some(value)
}

/// The value of an operator between its operands: none for a number that is no such operator.
#[inline]
#[tactic(auto, unfolding(crate::specs::Operators::binary_values))]
pub fn binary_result(operator: u8, a: u32, b: u32) -> Option<u32>
    ensures { result ≡ binary_result operator a b }
{
    let n = b % 32;
    match operator {
        // `->`, `<-`, `>>`, `<<`
        ROTATE_RIGHT => Some(rotated_right(a, n)),
        ROTATE_LEFT => Some(rotated_left(a, n)),
        SHIFT_RIGHT => Some(a >> n),
        SHIFT_LEFT => Some(a << n),
        // `#>`, `<#`
        LIMIT_MIN => Some(if is_below(a, b) { b } else { a }),
        LIMIT_MAX => Some(if is_below(b, a) { b } else { a }),
        // `&`, `|`, `^`, `+`, `-`
        BIT_AND => Some(a & b),
        BIT_OR => Some(a | b),
        BIT_XOR => Some(a ^ b),
        ADD => Some(add_wrap(a, b)),
        SUBTRACT => Some(difference(a, b)),
        // `~>`, `><`
        ARITH_SHIFT_RIGHT => Some(shifted_right_signed(a, n)),
        BIT_REVERSE => Some(reverse(a) >> ((32 - n) % 32)),
        // AND, OR
        LOGICAL_AND => Some(truth(a != 0 && b != 0)),
        LOGICAL_OR => Some(truth(a != 0 || b != 0)),
        // `*`, `**`, `/`, `//`
        MULTIPLY => Some(a.wrapping_mul(b)),
        MULTIPLY_HI => Some(high_signed(a, b)),
        DIVIDE => Some(divide(a, b)),
        MODULO => Some(remainder(a, b)),
        // `<`, `>`, `<>`, `==`, `=<`, `=>`
        LESS => Some(truth(is_below(a, b))),
        GREATER => Some(truth(is_below(b, a))),
        NOT_EQUAL => Some(truth(a != b)),
        EQUAL => Some(truth(a == b)),
        LESS_EQUAL => Some(truth(!is_below(b, a))),
        GREATER_EQUAL => Some(truth(!is_below(a, b))),
        _ => None,
    }
}

/// Whether an operator is `/` or `//`.
pub fn divides(operator: u8) -> bool
    ensures { result ≡ divides operator }
{
    operator == DIVIDE || operator == MODULO
}

/// Whether an operator among the bytecodes has one operand; the sign `+` has no bytecode.
#[inline]
pub fn is_unary(operator: u8) -> bool
    ensures { result ≡ is_unary operator }
{
    matches!(
        operator,
        NEGATE | COMPLEMENT | ABSOLUTE_VALUE | ENCODE | DECODE | SQUARE_ROOT | LOGICAL_NOT
    )
}

/// The value of an operator with one operand, and 0 where it is none.
#[inline]
pub fn unary(operator: u8, a: u32) -> u32
    ensures { result ≡ unary_value operator a }
{
    match unary_result(operator, a) {
        None => 0,
        Some(value) => value,
    }
}

/// The value of an operator with two operands, and 0 where it is none.
#[inline]
pub fn binary(operator: u8, a: u32, b: u32) -> u32
    ensures { result ≡ binary_value operator a b }
{
    match binary_result(operator, a, b) {
        None => 0,
        Some(value) => value,
    }
}
