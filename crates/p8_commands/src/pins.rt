// Which pins and which clocks of a run are shown, in the words of the command line.
ghost use Rattle.std.specs.Prelude.{◌≡◌, ◌≤◌, ◌==◌, ◌^◌, ℕ, position};
ghost use Rattle.std.specs.Option.{ForSome};
ghost use Rattle.p8_commands.specs.Naming.{name_of};
ghost use Rattle.p8_commands.specs.Numbers.{last_pin, most_seed};
ghost use Rattle.p8_commands.specs.Pins.{cut_at, mask_between as mask_between_of, mask_by as mask_by_of, mask_of_part, mask_of, span_by as span_by_of, span_of};

use crate::numbers::number_in;

/// The number of the last pin.
pub const LAST_PIN: u64 = 31;

/// The first place of this byte.
fn place_of(text: &[u8], byte: u8) -> Option<usize>
    ensures { result ≡ position (λ code. code == byte) text.now }
{
    text.iter().position(|code| *code == byte)
}

/// What stands before the first byte of this value, and what stands after it, if there is one.
fn cut(text: &[u8], byte: u8) -> (&[u8], Option<&[u8]>)
    ensures before { result.0.now ≡ (cut_at byte text.now).0 }
    ensures after { name_of result.1 ≡ (cut_at byte text.now).1 }
{
    match place_of(text, byte) {
        Some(place) => (&text[..place], Some(&text[place + 1..])),
        None => (text, None),
    }
}

/// A bit alone.
fn bit(number: u64) -> u64
    requires { number ≤ 32 }
    ensures value { result ≡ 2 ^ number }
    ensures some { 1 ≤ result }
    ensures within { result ≤ 4294967296 }
{
    1u64 << number
}

/// The mask of the pins from one to another.
fn mask_between(first: u64, last: u64) -> u32
    requires first { first ≤ last }
    requires last { last ≤ last_pin }
    ensures { result ≡ mask_between_of first last }
{
    (bit(last + 1) - bit(first)) as u32
}

/// The mask of the pins that `N` or `N-M` says, or None for any other text.
fn mask_of_range(text: &[u8]) -> Option<u32>
    ensures { result ≡ mask_of_part text.now }
{
    let (first, last) = cut(text, b'-');
    let last = number_in(last.unwrap_or(first), LAST_PIN);
    let first = number_in(first, LAST_PIN)?;
    let last = last?;
    if first > last {
        return None;
    }
    Some(mask_between(first, last))
}

/// The mask of the pins that the text says, which are pins and ranges of pins, divided by commas, or None for any other text.
pub fn mask_in(text: &[u8]) -> Option<u32>
    ensures { result ≡ mask_of text.now }
{
    let mut mask = 0;
    let mut left = Some(text);
    'parts: while let Some(text) = left {
        let (part, rest) = cut(text, b',');
        mask |= mask_of_range(part)?;
        left = rest;
    }
    Some(mask)
}

/// The clocks from one on and before another one, or None where one of them isn't told, or the other one comes first.
pub fn span_by(from: Option<u64>, to: Option<u64>) -> Option<(u64, u64)>
    ensures span { result ≡ span_by_of from to }
    ensures first { (most : ℕ) → ForSome from (λ clock. clock ≤ most) → ForSome result (λ span. span.0 ≤ most) }
{
    let from = from?;
    let to = to?;
    if from > to {
        return None;
    }
    Some((from, to))
}

/// The clocks that `FROM:TO` says of a run with so many, or all of them where nothing is said, or None for any other text.
pub fn span_in(text: Option<&str>, clocks: u64) -> Option<(u64, u64)>
    requires { clocks ≤ most_seed }
    ensures { result ≡ span_of clocks (name_of text.entry) }
{
    let Some(text) = text else {
        return Some((0, clocks));
    };
    let (from, to) = cut(text.as_bytes(), b':');
    span_by(number_in(from, clocks), number_in(to?, clocks))
}
