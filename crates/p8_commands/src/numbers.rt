// Numbers and ranges in the words of the command line.
ghost use Rattle.std.specs.Prelude.{◌≡◌, ◌<◌, ◌≤◌, Some, None, ℕ, length, IfSome};
ghost use Rattle.std.specs.List.{list_all};
ghost use Rattle.std.specs.Option.{ForSome};
ghost use Rattle.p8_commands.specs.Numbers.{number_of, number_from as number_from_of, count_of, range_of, range_by, cog_of, refusal_of};
ghost use Rattle.p8_commands.specs.Numbers.{address_by, hexadecimal_digit as hexadecimal_digit_of, is_digit, value_within, last_cog, last_refusal, most_seed};
ghost use Rattle.p8_commands.specs.Ranges.{IsInRam};

/// The number of the last refusal of a source.
const LAST_REFUSAL: u64 = 31;

/// The number of some decimal digits, or None where it is above a limit or another byte is among them.
fn value_of(digits: &[u8], limit: u64) -> Option<u64>
    requires { limit ≤ most_seed }
    ensures value { result ≡ value_within limit digits.now }
    ensures within { ForSome result (λ value. value ≤ limit) }
{
    let mut value = 0u64;
    for digit in digits {
        if *digit < b'0' || *digit > b'9' {
            return None;
        }
        value = 10 * value + (*digit - b'0') as u64;
        if value > limit {
            return None;
        }
    }
    Some(value)
}

/// The number of one to ten decimal digits that is at most a limit, or None for any other text.
pub fn number_in(text: &[u8], limit: u64) -> Option<u64>
    requires { limit ≤ most_seed }
    ensures number { result ≡ number_of limit text.now }
    ensures within { ForSome result (λ number. number ≤ limit) }
{
    if text.is_empty() || text.len() > 10 {
        return None;
    }
    value_of(text, limit)
}

/// The number of one to ten decimal digits that is at least a number and at most a limit, or None for any other text.
pub fn number_from(text: &[u8], least: u64, limit: u64) -> Option<u64>
    requires { limit ≤ most_seed }
    ensures number { result ≡ number_from_of least limit text.now }
    ensures least { ForSome result (λ number. least ≤ number) }
    ensures within { ForSome result (λ number. number ≤ limit) }
{
    let number = number_in(text, limit)?;
    if number < least { None } else { Some(number) }
}

/// The number of a cog, which is one digit from 0 to 7, or None for any other text.
pub fn cog_in(text: &[u8]) -> Option<u8>
    ensures cog { result ≡ cog_of text.now }
    ensures within { ForSome result (λ cog. cog ≤ last_cog) }
{
    match text {
        [code] => match *code {
            b'0'..=b'7' => Some(*code - b'0'),
            _ => None,
        },
        _ => None,
    }
}

/// Whether the text is of decimal digits alone.
pub fn is_of_digits(text: &[u8]) -> bool
    ensures { result ≡ list_all is_digit text.now }
{
    text.iter().all(|code| *code >= b'0' && *code <= b'9')
}

/// The number of a refusal of sources, which has one or two decimal digits, or None for any other text.
pub fn refusal_in(text: &[u8]) -> Option<u8>
    ensures number { result ≡ refusal_of text.now }
    ensures least { ForSome result (λ number. 1 ≤ number) }
    ensures within { ForSome result (λ number. number ≤ last_refusal) }
{
    if text.len() > 2 {
        return None;
    }
    let number = number_from(text, 1, LAST_REFUSAL)?;
    Some(number as u8)
}

/// The value of a hexadecimal digit of either case, or None for any other byte.
fn hexadecimal_digit(code: u8) -> Option<u16>
    ensures digit { result ≡ hexadecimal_digit_of code }
    ensures below { IfSome result (λ value. value < 16) }
{
    match code {
        b'0'..=b'9' => Some((code - b'0') as u16),
        b'A'..=b'F' => Some((code - b'A' + 10) as u16),
        b'a'..=b'f' => Some((code - b'a' + 10) as u16),
        _ => None,
    }
}

/// The number of four hexadecimal digits, or None where one of them is none.
fn address_in(a: u8, b: u8, c: u8, d: u8) -> Option<u16>
    ensures { result ≡ address_by (hexadecimal_digit_of a) (hexadecimal_digit_of b) (hexadecimal_digit_of c) (hexadecimal_digit_of d) }
{
    let a = hexadecimal_digit(a)?;
    let b = hexadecimal_digit(b)?;
    let c = hexadecimal_digit(c)?;
    let d = hexadecimal_digit(d)?;
    Some(4096 * a + 256 * b + 16 * c + d)
}

/// The number of one to five decimal digits, or None for any other text.
fn count_in(text: &[u8]) -> Option<u64>
    ensures count { result ≡ count_of text.now }
    ensures within { ForSome result (λ count. count ≤ 99999) }
{
    if text.is_empty() || text.len() > 5 {
        return None;
    }
    value_of(text, 99_999)
}

/// A range of hub RAM that isn't empty, or None.
fn range_of_both(address: Option<u16>, count: Option<u64>) -> Option<(u16, u16)>
    requires { ForSome count (λ n. n ≤ 99999) }
    ensures range { result ≡ range_by address count }
    ensures in_ram { IsInRam result }
{
    match (address, count) {
        (Some(address), Some(count)) => {
            if count >= 1 && address as u64 + count <= 0x8000 {
                Some((address, count as u16))
            } else {
                None
            }
        }
        _ => None,
    }
}

/// The range that `A:N` says, or None for any other text.
pub fn range_in(text: &[u8]) -> Option<(u16, u16)>
    ensures range { result ≡ range_of text.now }
    ensures in_ram { IsInRam result }
{
    match text {
        [a, b, c, d, colon, count @ ..] => {
            if *colon != b':' {
                return None;
            }
            range_of_both(address_in(*a, *b, *c, *d), count_in(count))
        }
        _ => None,
    }
}
