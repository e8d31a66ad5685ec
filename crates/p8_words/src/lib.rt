//! 32-bit words, the answers that every crate's fallible calls share, and the values of Spin's operators.
#![tactic(auto)]

mod codes;
mod failure;
mod operators;
mod words;

pub use codes::{
    ABSOLUTE_VALUE, ADD, ARITH_SHIFT_RIGHT, BIT_AND, BIT_OR, BIT_REVERSE, BIT_XOR, COMPLEMENT,
    DECODE, DIVIDE, ENCODE, EQUAL, GREATER, GREATER_EQUAL, LESS, LESS_EQUAL, LIMIT_MAX, LIMIT_MIN,
    LOGICAL_AND, LOGICAL_NOT, LOGICAL_OR, MODULO, MULTIPLY, MULTIPLY_HI, NEGATE, NOT_EQUAL,
    ROTATE_LEFT, ROTATE_RIGHT, SHIFT_LEFT, SHIFT_RIGHT, SQUARE_ROOT, SUBTRACT,
};
pub use failure::{Fail, NoMemory};
pub use operators::{binary, binary_result, divides, is_unary, rotated_left, unary, unary_result};
pub use words::{
    add_wrap, decode, divide, encode, high_signed, parity, remainder, reverse, root, signed,
};
