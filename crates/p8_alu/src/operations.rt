// Operations on words that have no name in std.
ghost use Rattle.std.specs.Prelude.{◌≡◌, ◌-◌, ◌<◌, nat_le, if◌then◌else◌, bit_and, bit_or};
ghost use Rattle.p8_words.specs.Words.{shifted_right_signed, rotated_left, rotated_right};
ghost use Rattle.p8_alu.specs.Effects.{is_set, shifted_right_filling, shifted_left_filling, with_bits, inverted, absolute, negated, difference};
ghost use Rattle.p8_words.specs.Operators.{is_below};

#[inline]
pub fn rotated_right(a: u32, n: u32) -> u32
    requires { n < 32 }
    ensures { result ≡ rotated_right a n }
{
    a.rotate_right(n)
}

#[inline]
pub fn rotated_left(a: u32, n: u32) -> u32
    requires { n < 32 }
    ensures { result ≡ rotated_left a n }
{
    a.rotate_left(n)
}

/// `a` shifted right, with the flag in every freed bit.
#[inline]
pub fn shifted_right_filling(a: u32, n: u32, flag: bool) -> u32
    requires { n < 32 }
    ensures { result ≡ shifted_right_filling a n flag }
{
    if flag {
        a >> n | !(u32::MAX >> n)
    } else {
        a >> n
    }
}

/// `a` shifted left, with the flag in every freed bit.
#[inline]
pub fn shifted_left_filling(a: u32, n: u32, flag: bool) -> u32
    requires { n < 32 }
    ensures { result ≡ shifted_left_filling a n flag }
{
    if flag {
        a << n | ((1 << n) - 1)
    } else {
        a << n
    }
}

/// `a` shifted right, with its bit 31 in every freed bit.
#[inline]
pub fn shifted_right_signed(a: u32, n: u32) -> u32
    requires { n < 32 }
    ensures { result ≡ shifted_right_signed a n }
{
    (a.cast_signed() >> n).cast_unsigned()
}

/// `a` with its bits 8 to 0 replaced by those of `b`.
#[inline]
pub fn with_source(a: u32, b: u32) -> u32
    ensures { result ≡ with_bits a 8 0 b }
{
    a >> 9 << 9 | b & 0x1FF
}

/// `a` with its bits 17 to 9 replaced by the lowest of `b`.
#[inline]
pub fn with_destination(a: u32, b: u32) -> u32
    ensures { result ≡ with_bits a 17 9 b }
{
    a >> 18 << 18 | (b & 0x1FF) << 9 | a & 0x1FF
}

/// `a` with its bits 31 to 23 replaced by the lowest of `b`.
#[inline]
pub fn with_instruction(a: u32, b: u32) -> u32
    ensures { result ≡ with_bits a 31 23 b }
{
    (b & 0x1FF) << 23 | a & 0x7F_FFFF
}

/// The absolute value of the signed reading.
#[inline]
pub fn absolute(a: u32) -> u32
    ensures { result ≡ absolute a }
{
    a.cast_signed().unsigned_abs()
}

#[inline]
pub fn negated(a: u32) -> u32
    ensures { result ≡ negated a }
{
    a.wrapping_neg()
}

/// `a`, or its negation where the flag is set.
#[inline]
pub fn negated_where(flag: bool, a: u32) -> u32
    ensures { result ≡ (if flag then negated a else a) }
{
    if flag { negated(a) } else { a }
}

#[inline]
pub fn is_below_signed(a: u32, b: u32) -> bool
    ensures { result ≡ is_below a b }
{
    a.cast_signed() < b.cast_signed()
}

/// `a` with the bits of `b` set where the flag is set, else cleared.
#[inline]
pub fn with_mask(flag: bool, a: u32, b: u32) -> u32
    ensures { result ≡ (if flag then bit_or a b else bit_and a (inverted b)) }
{
    if flag { a | b } else { a & !b }
}

/// The one of two words whose signed reading is the greater.
#[inline]
pub fn greater_signed(a: u32, b: u32) -> u32
    ensures { result ≡ (if is_below a b then b else a) }
{
    if is_below_signed(a, b) { b } else { a }
}

/// The one of two words whose signed reading is the lesser.
#[inline]
pub fn lesser_signed(a: u32, b: u32) -> u32
    ensures { result ≡ (if is_below a b then a else b) }
{
    if is_below_signed(a, b) { a } else { b }
}

/// The difference of two words as a word.
#[inline]
pub fn difference(a: u32, b: u32) -> u32
    ensures { result ≡ difference a b }
{
    a.wrapping_sub(b)
}

/// `a` less `b` where `b` is not above it, else `a`.
#[inline]
pub fn reduced(a: u32, b: u32) -> u32
    ensures { result ≡ (if nat_le b a then a - b else a) }
{
    if b <= a { a - b } else { a }
}

/// Bit 0.
#[inline]
pub fn lowest_bit(a: u32) -> bool
    ensures { result ≡ is_set a 0 }
{
    a & 1 == 1
}

/// Bit 31.
#[inline]
pub fn highest_bit(a: u32) -> bool
    ensures { result ≡ is_set a 31 }
{
    a >> 31 == 1
}
