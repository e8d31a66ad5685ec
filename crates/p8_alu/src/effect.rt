// What an instruction gives.
ghost use Rattle.std.specs.Prelude.{◌≡◌, ◌<◌, ◌≤◌, ◌^◌, ◌≤ℤ◌, pos, neg_ℤ};

/// What an instruction gives, before its own bits say what of it is written.
#[derive(Clone, Copy, Debug, PartialEq, Eq)]
pub struct Effect {
    /// The long for the destination.
    pub result: u32,
    /// The flag C.
    pub c: bool,
    /// The flag Z.
    pub z: bool,
}

impl Effect {
    ghost use Rattle.p8_alu.specs.Effects.{plain_effect, comparison_effect, bits_effect, sum_effect, difference_effect, signed_effect, z_kept};

    /// A result and C, with Z where the result is 0.
    #[inline]
    pub(crate) fn of(word: u32, c: bool) -> Effect
        ensures { result ≡ plain_effect word c }
    {
        Effect {
            result: word,
            c,
            z: word == 0,
        }
    }

    /// One of two words that were compared, with C where the first is below and Z where they are
    /// equal.
    #[inline]
    pub(crate) fn of_comparison(word: u32, below: bool, equal: bool) -> Effect
        ensures { result ≡ comparison_effect word below equal }
    {
        Effect {
            result: word,
            c: below,
            z: equal,
        }
    }

    /// The bits of a result, with their parity as C.
    #[inline]
    pub(crate) fn of_bits(word: u32) -> Effect
        ensures { result ≡ bits_effect word }
    {
        Effect::of(word, parity(word))
    }

    /// A whole sum as a word, with C as the carry.
    #[inline]
    pub(crate) fn of_sum(whole: u64) -> Effect
        ensures { result ≡ sum_effect whole }
    {
        Effect::of((whole & 0xFFFF_FFFF) as u32, whole >> 32 != 0)
    }

    /// The difference of two whole numbers as a word, with C as the borrow.
    #[inline]
    pub(crate) fn of_difference(a: u32, b: u64) -> Effect
        requires { b ≤ 2 ^ 32 }
        ensures { result ≡ difference_effect a b }
    {
        Effect::of(low_word(i64::from(a) - b as i64), u64::from(a) < b)
    }

    /// A whole signed number as a word, with C as the signed overflow.
    #[inline]
    pub(crate) fn of_signed(whole: i64) -> Effect
        ensures { result ≡ signed_effect whole }
    {
        Effect::of(
            low_word(whole),
            whole < i64::from(i32::MIN) || i64::from(i32::MAX) < whole,
        )
    }

    /// The same with Z only where the old Z is set too.
    #[inline]
    pub(crate) fn keeping(self, z: bool) -> Effect
        ensures { result ≡ z_kept z self }
    {
        Effect {
            z: z && self.z,
            ..self
        }
    }
}

ghost use Rattle.p8_words.specs.Words.{word_of};

use p8_words::parity;

/// The lowest 32 bits of a whole number.
#[inline]
pub(crate) fn low_word(whole: i64) -> u32
    ensures { result ≡ word_of whole }
{
    (whole.cast_unsigned() & 0xFFFF_FFFF) as u32
}
