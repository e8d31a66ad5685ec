// The operators of Spin by their bytecodes, with the names of the public bytecode listing.

/// The operator `->`.
pub const ROTATE_RIGHT: u8 = 0xE0;
/// The operator `<-`.
pub const ROTATE_LEFT: u8 = 0xE1;
/// The operator `>>`.
pub const SHIFT_RIGHT: u8 = 0xE2;
/// The operator `<<`.
pub const SHIFT_LEFT: u8 = 0xE3;
/// The operator `#>`.
pub const LIMIT_MIN: u8 = 0xE4;
/// The operator `<#`.
pub const LIMIT_MAX: u8 = 0xE5;
/// The operator `-` before its operand.
pub const NEGATE: u8 = 0xE6;
/// The operator `!`.
pub const COMPLEMENT: u8 = 0xE7;
/// The operator `&`.
pub const BIT_AND: u8 = 0xE8;
/// The operator `||`.
pub const ABSOLUTE_VALUE: u8 = 0xE9;
/// The operator `|`.
pub const BIT_OR: u8 = 0xEA;
/// The operator `^`.
pub const BIT_XOR: u8 = 0xEB;
/// The operator `+`.
pub const ADD: u8 = 0xEC;
/// The operator `-`.
pub const SUBTRACT: u8 = 0xED;
/// The operator `~>`.
pub const ARITH_SHIFT_RIGHT: u8 = 0xEE;
/// The operator `><`.
pub const BIT_REVERSE: u8 = 0xEF;
/// The operator `AND`.
pub const LOGICAL_AND: u8 = 0xF0;
/// The operator `>|`.
pub const ENCODE: u8 = 0xF1;
/// The operator `OR`.
pub const LOGICAL_OR: u8 = 0xF2;
/// The operator `|<`.
pub const DECODE: u8 = 0xF3;
/// The operator `*`.
pub const MULTIPLY: u8 = 0xF4;
/// The operator `**`.
pub const MULTIPLY_HI: u8 = 0xF5;
/// The operator `/`.
pub const DIVIDE: u8 = 0xF6;
/// The operator `//`.
pub const MODULO: u8 = 0xF7;
/// The operator `^^`.
pub const SQUARE_ROOT: u8 = 0xF8;
/// The operator `<`.
pub const LESS: u8 = 0xF9;
/// The operator `>`.
pub const GREATER: u8 = 0xFA;
/// The operator `<>`.
pub const NOT_EQUAL: u8 = 0xFB;
/// The operator `==`.
pub const EQUAL: u8 = 0xFC;
/// The operator `=<`.
pub const LESS_EQUAL: u8 = 0xFD;
/// The operator `=>`.
pub const GREATER_EQUAL: u8 = 0xFE;
/// The operator `NOT`.
pub const LOGICAL_NOT: u8 = 0xFF;
