// Turns and the order of their keys.
ghost use Rattle.std.specs.Prelude.{◌≡◌, ◌<◌, ◌≤◌, ◌+◌, ◌^◌, ℕ, IsTrue, ◌↔◌};
ghost use Rattle.p8_access.specs.Windows.{IsWindow, window_of, Before};

use crate::kinds::{Access, Answer};

/// The place of a turn in a history: its clock, then its cog, which is below 8.
#[derive(Clone, Copy, Debug, PartialEq, Eq)]
pub struct Key {
    pub clock: u64,
    pub cog: u8,
}

/// One event of a history: an access with its key and its answer.
#[derive(Clone, Copy, Debug, PartialEq, Eq)]
pub struct Turn {
    pub key: Key,
    pub access: Access,
    pub answer: Answer,
}

/// The least window of a cog that isn't before a clock.
///
/// The hub serves each cog once in 16 clocks; which clocks are whose is this project's profile.
#[inline]
pub fn window(cog: u8, from: u64) -> u64
    requires cog { cog < 8 }
    requires from { from < 2 ^ 62 }
    ensures exact { result ≡ window_of cog from }
    ensures window { IsWindow cog result }
    ensures not_before { from ≤ result }
    ensures soon { result < from + 16 }
{
    from + (2 * cog as u64 + 16 - from % 16) % 16
}

/// Whether one key comes before another: by clock, then by cog.
#[inline]
pub fn key_before(a: Key, b: Key) -> bool
    ensures { IsTrue result ↔ Before a b }
{
    a.clock < b.clock || (a.clock == b.clock && a.cog < b.cog)
}
