// The turn that a cog has next.
ghost use Rattle.std.specs.Prelude.{◌≡◌, ◌<◌, ◌^◌};
ghost use Rattle.p8_access.specs.Proper.{IsProper};
ghost use Rattle.p8_access.specs.Histories.{first_access as first_access_of};
ghost use Rattle.p8_ledger.specs.Fronts.{IsStartClock};

use p8_access::{Access, Origin, Reason, window};

/// What stands at the front of a cog, but for its answer.
#[derive(Clone, Copy)]
pub struct Due {
    pub access: Access,
    /// Whether the cog is running; else it is starting.
    pub running: bool,
}

/// The greatest address at which the 496 longs of a cog stand below $8000.
pub const LAST_CODE: u16 = 0x8000 - 4 * 496;

/// The first access of a cog that was started: a Load for PASM whose 496 longs stand below $8000.
#[inline]
pub fn first_access(origin: Origin) -> Access
    ensures access { result ≡ first_access_of origin }
    ensures proper { IsProper result }
{
    match origin {
        Origin::Pasm { code, .. } => {
            if code <= LAST_CODE {
                Access::Load
            } else {
                Access::Halt {
                    reason: Reason::Rom(0x8000),
                }
            }
        }
        Origin::Spin { .. } => Access::Begin,
    }
}

/// The clock of the first turn of a cog that is starting, where that is below a limit.
#[inline]
pub fn start_clock(cog: u8, since: u64, until: u64) -> Option<u64>
    requires cog { cog < 8 }
    requires until { until < 2 ^ 61 }
    ensures { IsStartClock cog since until result }
{
    if since >= until {
        return None;
    }
    let clock = window(cog, since + 1);
    if clock >= until {
        return None;
    }
    Some(clock)
}
