// The lines of a pin script's text.
ghost use Rattle.std.specs.Prelude.{◌≡◌, ◌==◌, ◌<◌, ◌≤◌, ◌^◌, ◌∷◌, ℕ, length, MatchOption, IsTrue, true, ◌↔◌};
ghost use Rattle.std.specs.List.{position};
ghost use Rattle.std.specs.Option.{SomeIff};
ghost use Rattle.std.specs.Str.Lines.{lines, strip_carriage_return};
ghost use Rattle.std.specs.Str.Parse.{AllDigits, digits_value};
ghost use Rattle.p8_access.specs.Worlds.{Line};
ghost use Rattle.p8_pins.specs.Scripts.{Carries, is_skipped as is_skipped_text};
ghost use Rattle.p8_pins.specs.Changes.{line_of};

/// From the clock on the input pins have these levels.
#[derive(Clone, Copy)]
pub struct Change {
    pub clock: u64,
    pub levels: u32,
}

/// The most digits of a clock.
const CLOCK_DIGITS: usize = 10;

/// The digits of levels.
const LEVEL_DIGITS: usize = 8;

/// The first line of a text without its end, and what follows the line.
pub fn first_line(text: &[u8]) -> (&[u8], &[u8])
    requires { 0 < length text.now }
    ensures lines { lines text.now ≡ result.0.now ∷ lines result.1.now }
    ensures shorter { length result.1.now < length text.now }
{
    match line_end(text) {
        None => (text, &text[text.len()..]),
        Some(end) => (without_return(&text[..end]), &text[end + 1..]),
    }
}

/// The place of a text's first line feed.
fn line_end(text: &[u8]) -> Option<usize>
    ensures { result ≡ position (λ byte. byte == 10) text.now }
{
    text.iter().position(|byte| *byte == b'\n')
}

/// A line without the one carriage return at its end, where it has one.
fn without_return(line: &[u8]) -> &[u8]
    ensures { result.now ≡ strip_carriage_return line.now }
{
    match line {
        [rest @ .., b'\r'] => rest,
        _ => line,
    }
}

/// Whether a line is empty or a comment.
pub fn is_skipped(text: &[u8]) -> bool
    ensures { result ≡ is_skipped_text text.now }
{
    text.is_empty() || text[0] == b'#'
}

/// What a line carries, or None where its form is another.
pub fn change_of(text: &[u8]) -> Option<Change>
    ensures { MatchOption result ((line : Line) → Carries text.now line → ⊥) (λ change. Carries text.now (line_of change)) }
{
    let digits = text.len().checked_sub(LEVEL_DIGITS + 1)?;
    if digits == 0 || digits > CLOCK_DIGITS || text[digits] != b' ' {
        return None;
    }
    let clock = number(&text[..digits], 10)?;
    let levels = number(&text[digits + 1..], 16)?;
    Some(Change {
        clock,
        levels: levels as u32,
    })
}

/// The number that digits write in a base, or None where one of them is no digit of it.
fn number(digits: &[u8], base: u32) -> Option<u64>
    requires base { 2 ≤ base }
    requires small { base ≤ 16 }
    requires few { length digits.now ≤ 10 }
    ensures { SomeIff result (AllDigits base digits.now) (digits_value base digits.now) }
{
    let mut value = 0;
    for byte in digits {
        let digit = char::from(*byte).to_digit(base)?;
        value = value * u64::from(base) + u64::from(digit);
    }
    Some(value)
}
