// When a wait's test holds.
ghost use Rattle.std.specs.Prelude.{◌≡◌, ◌<◌, ◌≤◌, ◌+◌, ◌%◌, ◌^◌, ℕ, ◌↔◌, IsTrue, IfSome, IfNone};
ghost use Rattle.p8_access.specs.Pins.{pins_with, Holds};

use p8_access::Test;

/// No clock of a run is this late.
pub const CLOCK_END: u64 = 1 << 62;

/// The pins: an output as the cogs make it, an input with these levels.
#[inline]
pub fn pins(dira: u32, outputs: u32, levels: u32) -> u32
    ensures { result ≡ pins_with dira outputs levels }
{
    outputs | (levels & (dira ^ u32::MAX))
}

/// Whether a test holds at a clock with these pins.
#[inline]
pub fn holds(test: &Test, pins: u32, clock: u64) -> bool
    ensures { IsTrue result ↔ Holds test.now pins clock }
{
    match *test {
        Test::Count { target } => clock % 0x1_0000_0000 == u64::from(target),
        Test::PinsEqual { state, mask } => pins & mask == state,
        Test::PinsDiffer { state, mask } => pins & mask != state,
    }
}

/// The least clock from a clock on at which the system counter has this value.
#[inline]
pub fn next_count(from: u64, target: u32) -> u64
    requires { from < 2 ^ 62 }
    ensures not_before { from ≤ result }
    ensures soon { result < from + 2 ^ 32 }
    ensures holds { result % 2 ^ 32 ≡ target }
    ensures least { (u : ℕ) → from ≤ u → u % 2 ^ 32 ≡ target → result ≤ u }
{
    let count = (from % 0x1_0000_0000) as u32;
    from + u64::from(target.wrapping_sub(count))
}

/// The least clock from a clock on at which a test holds, while the pins stay so.
#[inline]
pub fn first_with(from: u64, pins: u32, test: &Test) -> Option<u64>
    ensures below { IfSome result (λ clock. clock < 2 ^ 62) }
    ensures not_before { IfSome result (λ clock. from ≤ clock) }
    ensures holds { IfSome result (λ clock. Holds test.now pins clock) }
    ensures least { IfSome result (λ clock. (u : ℕ) → from ≤ u → Holds test.now pins u → clock ≤ u) }
    ensures none { IfNone result ((u : ℕ) → from ≤ u → u < 2 ^ 62 → Holds test.now pins u → ⊥) }
{
    if from >= CLOCK_END {
        return None;
    }
    let clock = match *test {
        Test::Count { target } => next_count(from, target),
        _ => from,
    };
    (clock < CLOCK_END && holds(test, pins, clock)).then_some(clock)
}
