// Worked values of operators.
use p8_words::{binary, is_unary, unary};

#[test]
fn worked_values(rt: HostRuntime) {
    let is_unary_worked = unary(0xE6, 1) == 0xFFFF_FFFF && unary(0xF3, 4) == 16;
    let is_binary_worked = binary(0xE0, 1, 33) == 0x8000_0000
        && binary(0xEE, 0x8000_0000, 31) == 0xFFFF_FFFF
        && binary(0xEF, 0b1011, 3) == 0b110
        && binary(0xF6, 0xFFFF_FFF9, 2) == 0xFFFF_FFFD
        && binary(0xF9, 0xFFFF_FFFF, 0) == 0xFFFF_FFFF;
    let has_kinds = is_unary(0xFF) && !is_unary(0xEC);
    assert!(rt; is_unary_worked && is_binary_worked && has_kinds);
}
