// Worked values of words.
use p8_words::{
    add_wrap, decode, divide, encode, high_signed, parity, remainder, reverse, root, signed,
};

/// Two words, their sum, the upper word of their signed product, their quotient, and what is left of the first.
static PAIRS: [[u32; 6]; 6] = [
    [
        0x0000_0001,
        0x8000_0000,
        0x8000_0001,
        0xFFFF_FFFF,
        0x0000_0000,
        0x0000_0001,
    ],
    [
        0xA555_62D8,
        0x0000_0021,
        0xA555_62F9,
        0xFFFF_FFF4,
        0xFD40_A5E8,
        0xFFFF_FFF0,
    ],
    [
        0x7FFF_FFFF,
        0x8000_0001,
        0x0000_0000,
        0xC000_0000,
        0xFFFF_FFFF,
        0x0000_0000,
    ],
    [
        0x8000_0000,
        0xFFFF_FFFF,
        0x7FFF_FFFF,
        0x0000_0000,
        0x8000_0000,
        0x0000_0000,
    ],
    [
        0xFFFF_FFFF,
        0x0000_0000,
        0xFFFF_FFFF,
        0x0000_0000,
        0x0000_0000,
        0x0000_0000,
    ],
    [
        0xFBF2_3B9E,
        0x0000_0001,
        0xFBF2_3B9F,
        0xFFFF_FFFF,
        0xFBF2_3B9E,
        0x0000_0000,
    ],
];

/// Whether the operators give what a row says.
fn is_pair(row: &[u32; 6]) -> bool {
    let [a, b, sum, high, quotient, rest] = *row;
    add_wrap(a, b) == sum
        && high_signed(a, b) == high
        && divide(a, b) == quotient
        && remainder(a, b) == rest
}

#[test]
fn pairs_of_words(rt: HostRuntime) {
    for row in &PAIRS {
        assert!(rt; is_pair(row), "{} and {}", row[0], row[1]);
    }
}

/// A word, its square root, its bits in reverse, whether it has an odd number of ones, the place of its highest one,
/// and the power of two by its lowest five bits.
type Single = (u32, u32, u32, bool, u32, u32);

static SINGLES: [Single; 5] = [
    (0x0000_0000, 0x0000_0000, 0x0000_0000, false, 0, 0x0000_0001),
    (0x0000_0021, 0x0000_0005, 0x8400_0000, false, 6, 0x0000_0002),
    (0xA555_62D8, 0x0000_CDBB, 0x1B46_AAA5, true, 32, 0x0100_0000),
    (0x14D8_3FD0, 0x0000_490C, 0x0BFC_1B28, true, 29, 0x0001_0000),
    (0xFFFF_FFFE, 0x0000_FFFF, 0x7FFF_FFFF, true, 32, 0x4000_0000),
];

/// Whether the operators give what a row says.
fn is_single(row: &Single) -> bool {
    let (a, square_root, reversed, odd_ones, place, power) = *row;
    root(a) == square_root
        && reverse(a) == reversed
        && parity(a) == odd_ones
        && encode(a) == place
        && decode(a) == power
}

#[test]
fn single_words(rt: HostRuntime) {
    for row in &SINGLES {
        assert!(rt; is_single(row), "{}", row.0);
    }
    assert!(rt; signed(0x7FFF_FFFF) == 0x7FFF_FFFF && signed(0xFFFF_FFFE) == -2);
}
