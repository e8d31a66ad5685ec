// The clocks at which waits may end.
ghost use Rattle.std.specs.Prelude.{◌≡◌, ◌<◌, ◌≤◌, ◌^◌, ℕ, List, Some, None, false, MatchOption, IfSome, IsTrue, ◌↔◌};
ghost use Rattle.p8_access.specs.declared.order.Turn.{Turn};
ghost use Rattle.p8_access.specs.Worlds.{World};
ghost use Rattle.p8_hub.specs.Standing.{IsHub};
ghost use Rattle.p8_ledger.specs.Waiting.{test_in, newest_key, IsBehind, IsTimely, IsSpanFrom, IsFirstWake, IsDecided};

use p8_access::{Access, Key, Test};
use p8_hub::Hub;
use p8_pins::Span;

/// What an access waits for, if it is a wait.
#[inline]
pub fn test_of(access: Access) -> Option<Test>
    ensures { result ≡ test_in access }
{
    match access {
        Access::Wait { test } => Some(test),
        _ => None,
    }
}

/// Whether an access is a wait.
#[inline]
pub fn is_wait(access: &Access) -> bool
    ensures { (result ≡ false) ↔ (test_in access.now ≡ None) }
{
    match access {
        Access::Wait { .. } => true,
        _ => false,
    }
}

/// Whether an access that is asked from a clock on may have its turn at another: a wait may have it later.
#[inline]
pub fn is_timely(access: Access, earliest: u64, clock: u64) -> bool
    ensures { IsTrue result ↔ IsTimely (test_in access) earliest clock }
{
    if earliest == clock {
        return true;
    }
    match test_of(access) {
        None => false,
        Some(_) => earliest < clock,
    }
}

/// The least clock at which a turn of a cog comes after the last turn.
#[inline]
pub fn first_clock(last: Option<Key>, cog: u8) -> u64
    requires { IfSome last (λ key. key.clock < 2 ^ 61) }
    ensures { (u : ℕ) → (result ≤ u) ↔ IsBehind last (record { clock = u; cog = cog }) }
{
    match last {
        None => 0,
        Some(key) => {
            if key.cog < cog {
                key.clock
            } else {
                key.clock + 1
            }
        }
    }
}

/// The least clock at which a wait of a cog may end: from `from` on, before the end of the span of the
/// script, which begins at `from` or before, and below 2^62. None where there is none.
///
/// The wait may end from its clock `earliest` on, with a key after that of the `last` turn, for the pins as
/// the hub has them.
///
/// Not inlined, so that a step in which no cog waits doesn't gather the outputs.
#[inline(never)]
pub fn wake_clock(
    hub: &Hub,
    last: Option<Key>,
    cog: u8,
    test: &Test,
    earliest: u64,
    from: u64,
    span: &Span,
) -> Option<u64>
    requires { IfSome last (λ key. key.clock < 2 ^ 61) }
    ensures first { (w : World) (past : List Turn) → IsHub w past hub.now → last ≡ newest_key past → IsSpanFrom w.script from span.now →
        IsFirstWake w past cog test.now earliest from span.now.end result }
    ensures below { IfSome result (λ clock. clock < 2 ^ 62) }
{
    let first = first_clock(last, cog).max(earliest).max(from);
    span.first_match(first, hub.dira(), hub.outputs(), test)
}

/// The clock of the next line of a script, where a turn that comes there or later may come before the
/// first that was found so far.
#[inline]
pub fn next_line(first: u64, end: Option<u64>, limit: u64) -> Option<u64>
    ensures { MatchOption result (IsDecided first end limit) (λ clock. (end ≡ Some clock) × (clock ≤ first) × (clock < limit)) }
{
    match end {
        None => None,
        Some(clock) => (clock <= first && clock < limit).then_some(clock),
    }
}
