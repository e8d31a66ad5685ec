// Lives of a few instructions, worked by hand.
ghost use Rattle.std.specs.Prelude.{◌≡◌};

use crate::turns::{takes, writes};
use p8_access::{Access, Life, Next, Width};
use p8_cog::Cog;

/// Whether a load from $0100 on after the clock 16 reads its longs in order: these, and 0 after them.
fn loads(life: &mut Cog, code: &[u32]) -> bool
    requires { ⟦<Cog as Life>⟧.cog life.old ≡ 0 }
    ensures { ⟦<Cog as Life>⟧.cog life.new ≡ 0 }
{
    for k in 0..496u16 {
        let access = Access::Read {
            width: Width::Long,
            address: 0x0100 + 4 * k,
        };
        let long = code.get(usize::from(k)).copied().unwrap_or(0);
        if !takes(life, 32 + 16 * u64::from(k), access, long) {
            return false;
        }
    }
    true
}

/// Whether a program writes $2A to $0100, has its cog's number, and stops its cog.
fn writes_and_stops(life: &mut Cog) -> bool
    requires { ⟦<Cog as Life>⟧.cog life.old ≡ 0 }
    ensures { ⟦<Cog as Life>⟧.cog life.new ≡ 0 }
{
    let code = [0x083C0604, 0x0CFC0A01, 0x0C7C0A03, 0x0000002A, 0x00000100];
    loads(life, &code)
        && writes(life, 8224, 0x0100, 0x2A)
        && takes(life, 8240, Access::CogId, 0)
        && takes(life, 8256, Access::CogStop { cog: 0 }, 0)
        && life.run_to_access(1 << 40, 1) == Next::Quiet
}

/// Whether a program whose first instruction changes the second too late writes what stood there.
fn writes_the_old(life: &mut Cog) -> bool
    requires { ⟦<Cog as Life>⟧.cog life.old ≡ 0 }
{
    let code = [
        0x50FC0205, 0xA0BC0C04, 0x083C0C07, 0x0C7C1003, 0x00000011, 0x00000022, 0, 0x00000100,
    ];
    loads(life, &code) && writes(life, 8224, 0x0100, 0x11)
}

/// Two lives in the same memory, one after the other.
#[test]
fn loads_and_runs(rt: HostRuntime) {
    let Ok(mut life) = Cog::start(rt.alloc(), 0x0100, 0, 0, 16) else {
        panic!(rt; "memory for a cog")
    };
    let is_stopped = writes_and_stops(&mut life);
    life.restart(0x0100, 0, 0, 16);
    assert!(rt; is_stopped && writes_the_old(&mut life));
}

/// A jump to itself is done as often as the budget says, and the next one begins at the bound.
#[test]
fn keeps_its_budget(rt: HostRuntime) {
    let Ok(mut life) = Cog::start(rt.alloc(), 0x0100, 0, 0, 16) else {
        panic!(rt; "memory for a cog")
    };
    let is_spent = loads(&mut life, &[0x5C7C0000])
        && life.run_to_access(1 << 40, 1000) == (Next::More { bound: 12208 });
    assert!(rt; is_spent && life.run_to_access(12212, 1000) == Next::Quiet);
}
