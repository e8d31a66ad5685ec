// Numbers in print.
ghost use Rattle.std.specs.Prelude.{◌≡◌, ◌∷◌, []};
ghost use Rattle.p8_instr.specs.Numerals.{hex};

/// The bytes from 0 to 255, in two hexadecimal digits each.
static PAIRS: [u8; 512] = *b"000102030405060708090A0B0C0D0E0F101112131415161718191A1B1C1D1E1F\
      202122232425262728292A2B2C2D2E2F303132333435363738393A3B3C3D3E3F\
      404142434445464748494A4B4C4D4E4F505152535455565758595A5B5C5D5E5F\
      606162636465666768696A6B6C6D6E6F707172737475767778797A7B7C7D7E7F\
      808182838485868788898A8B8C8D8E8F909192939495969798999A9B9C9D9E9F\
      A0A1A2A3A4A5A6A7A8A9AAABACADAEAFB0B1B2B3B4B5B6B7B8B9BABBBCBDBEBF\
      C0C1C2C3C4C5C6C7C8C9CACBCCCDCECFD0D1D2D3D4D5D6D7D8D9DADBDCDDDEDF\
      E0E1E2E3E4E5E6E7E8E9EAEBECEDEEEFF0F1F2F3F4F5F6F7F8F9FAFBFCFDFEFF";

/// The last two hexadecimal digits of a number, in capitals.
#[inline(always)]
fn pair(value: u32) -> (u8, u8)
    ensures { result.0 ∷ result.1 ∷ [] ≡ hex 2 value }
{
    let from = 2 * (value % 256) as usize;
    (PAIRS[from], PAIRS[from + 1])
}

/// The last two hexadecimal digits of a number.
#[inline(always)]
pub fn byte_digits(value: u32) -> [u8; 2]
    ensures { result ≡ hex 2 value }
{
    let (high, low) = pair(value);
    [high, low]
}

/// The last four hexadecimal digits of a number.
#[inline(always)]
pub fn word_digits(value: u32) -> [u8; 4]
    ensures { result ≡ hex 4 value }
{
    let (a, b) = pair(value / 0x100);
    let (c, d) = pair(value);
    [a, b, c, d]
}

/// The last three hexadecimal digits of a number.
#[inline(always)]
pub fn register_digits(value: u32) -> [u8; 3]
    ensures { result ≡ hex 3 value }
{
    let (_, b) = pair(value / 0x100);
    let (c, d) = pair(value);
    [b, c, d]
}

/// The eight hexadecimal digits of a long.
#[inline(always)]
pub fn long_digits(value: u32) -> [u8; 8]
    ensures { result ≡ hex 8 value }
{
    let (a, b) = pair(value / 0x100_0000);
    let (c, d) = pair(value / 0x1_0000);
    let (e, f) = pair(value / 0x100);
    let (g, h) = pair(value);
    [a, b, c, d, e, f, g, h]
}
