// Functions on 32-bit words, as Spin's operators and the cog's instructions use them.
ghost use Rattle.std.specs.Prelude.{◌≡◌, ◌+◌, ◌-◌, ◌*◌, ◌^◌, ◌<◌, ◌≤◌, ◌↔◌, IsTrue};
ghost use Rattle.p8_words.specs.Words.{signed_value, wrapped_sum, high_product, signed_quotient, signed_remainder, square_root, reversed};
ghost use Rattle.p8_words.specs.Words.{has_odd_ones, highest_one, power_of_two};

/// The sum of two words, reduced mod 2^32.
#[inline]
pub fn add_wrap(a: u32, b: u32) -> u32
    ensures { result ≡ wrapped_sum a b }
{
    a.wrapping_add(b)
}

/// The two's complement reading of a word: from -2^31 to 2^31 - 1.
#[inline]
pub fn signed(a: u32) -> i64
    ensures { result ≡ signed_value a }
{
    i64::from(a.cast_signed())
}

/// The upper 32 bits of the signed product of two words, as Spin's `**` gives them.
#[inline]
pub fn high_signed(a: u32, b: u32) -> u32
    ensures { result ≡ high_product a b }
{
    let product = signed(a) * signed(b);
    (product.cast_unsigned() >> 32) as u32
}

/// The signed quotient, rounded toward zero, as Spin's `/` gives it; 0 where `b` is 0.
///
/// The quotient 2^31 of -2^31 and -1 is no signed word: the answer is the word 2^31.
#[inline]
pub fn divide(a: u32, b: u32) -> u32
    ensures { result ≡ signed_quotient a b }
{
    if b == 0 {
        0
    } else {
        a.cast_signed()
            .wrapping_div(b.cast_signed())
            .cast_unsigned()
    }
}

/// The remainder of that quotient, which has the dividend's sign, as Spin's `//` gives it; 0 where
/// `b` is 0.
#[inline]
pub fn remainder(a: u32, b: u32) -> u32
    ensures { result ≡ signed_remainder a b }
{
    if b == 0 {
        0
    } else {
        a.cast_signed()
            .wrapping_rem(b.cast_signed())
            .cast_unsigned()
    }
}

/// The square root of an unsigned word, rounded down, as Spin's `^^` gives it.
pub fn root(a: u32) -> u32
    ensures value { result ≡ square_root a }
    ensures square_fits { result * result ≤ a }
    ensures greatest { a < (result + 1) * (result + 1) }
{
    a.isqrt()
}

/// The word with its 32 bits in the opposite order.
#[inline]
pub fn reverse(a: u32) -> u32
    ensures { result ≡ reversed a }
{
    a.reverse_bits()
}

/// Whether an odd number of the word's bits are 1.
#[inline]
pub fn parity(a: u32) -> bool
    ensures { result ≡ has_odd_ones a }
{
    a.count_ones() % 2 == 1
}

/// The place of the highest bit that is 1, from 1 to 32 with the lowest bit's place as 1, or 0 where
/// no bit is 1. Spin's `>|` gives it.
#[inline]
pub fn encode(a: u32) -> u32
    ensures value { result ≡ highest_one a }
    ensures none { (result ≡ 0) ↔ (a ≡ 0) }
    ensures above { a < 2 ^ result }
    ensures below { 0 < a → 2 ^ (result - 1) ≤ a }
{
    32 - a.leading_zeros()
}

/// The word with the bit `a` mod 32 alone, as Spin's `|<` gives it.
#[inline]
pub fn decode(a: u32) -> u32
    ensures { result ≡ power_of_two a }
{
    1 << (a % 32)
}
