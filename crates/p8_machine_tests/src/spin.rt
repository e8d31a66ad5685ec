// Lives of a few bytecodes, worked by hand.
ghost use Rattle.std.specs.Prelude.{◌≡◌};

use crate::turns::{takes, writes};
use p8_access::{Access, Life, Next, Origin, Ram, Reason};
use p8_bcog::SpinCog;
use p8_words::NoMemory;
use std::alloc::Global;

/// The image of a program whose only method, at $0018, returns at once. Its frame is at $0024.
const RETURNS: [u8; 28] = [
    0x00, 0x1B, 0xB7, 0x00, 0x00, 0x6A, 0x10, 0x00, 0x1C, 0x00, 0x24, 0x00, 0x18, 0x00, 0x28, 0x00,
    0x0C, 0x00, 0x02, 0x00, 0x08, 0x00, 0x00, 0x00, 0x32, 0x00, 0x00, 0x00,
];

/// What begins that method.
const METHOD: Origin = Origin::Spin {
    entry: 0x0018,
    pbase: 0x0010,
    vbase: 0x001C,
    frame: 0x0024,
    size: 0,
};

/// Whether the method writes 0 to its result, and then asks this access.
fn writes_and_asks(life: &mut SpinCog, clock: u64, access: Access) -> bool
    requires { ⟦<SpinCog as Life>⟧.cog life.old ≡ 0 }
    ensures { ⟦<SpinCog as Life>⟧.cog life.new ≡ 0 }
{
    writes(life, 8224, 0x0024, 0) && takes(life, clock, access, 0)
}

/// Whether the method stops its cog when it returns. With an addition in its place the cog, which has no operands,
/// halts; this is a second life in the same memory.
fn stops_and_halts(alloc: Global) -> Result<bool, NoMemory> {
    let code = Ram::new(alloc, &RETURNS)?;
    let mut life = SpinCog::start(alloc, code, METHOD, 0, 16)?;
    let stops = writes_and_asks(&mut life, 8272, Access::CogStop { cog: 0 })
        && life.run_to_access(1 << 40, 1000) == Next::Quiet;

    let mut adds = RETURNS;
    adds[0x18] = 0xEC;
    life.restart(Ram::new(alloc, &adds)?, METHOD, 0, 16);
    let reason = Reason::Under;
    let halts = writes_and_asks(&mut life, 8263, Access::Halt { reason });
    Ok(stops && halts)
}

#[test]
fn returns_and_lacks_operands(rt: HostRuntime) {
    assert!(rt; matches!(stops_and_halts(rt.alloc()), Ok(true)));
}
