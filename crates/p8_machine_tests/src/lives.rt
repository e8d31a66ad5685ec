// A life that begins anew, and one that crosses threads.
use p8_access::{Access, Life, Next, Origin, Ram, Width};
use p8_bcog::STACK_LONGS;
use p8_cog::CogLife;
use p8_region::{Region, words_of};
use p8_words::NoMemory;
use std::alloc::Global;

/// What crosses threads is given back as it was.
fn crossed<T: Send>(value: T) -> T {
    value
}

/// A place for the lives of cog 3.
fn life_in(alloc: Global, memory: &Ram) -> Result<CogLife, NoMemory> {
    let mut region = Region::new(alloc, words_of::<u32>(STACK_LONGS))?;
    match region.cut(STACK_LONGS) {
        Ok(stack) => CogLife::new(alloc, memory, stack, 3),
        Err(_) => unreachable!(),
    }
}

/// What a life of cog 3 asks first that begins at the clock 22, with a load from $0100.
fn first_asked(alloc: Global) -> Result<Next, NoMemory> {
    let memory = Ram::new(alloc, &[])?;
    let mut life = crossed(life_in(alloc, &memory)?);
    life.restart(
        &memory,
        Origin::Pasm {
            code: 0x0100,
            par: 0,
        },
        3,
        22,
    );
    Ok(life.run_to_access(1 << 20, 1))
}

/// The first read of a load from $0100, after a Load at cog 3's window of clock 22.
#[test]
fn begins_with_a_read(rt: HostRuntime) {
    let first = Next::At {
        clock: 38,
        access: Access::Read {
            width: Width::Long,
            address: 0x0100,
        },
    };
    assert!(rt; matches!(first_asked(rt.alloc()), Ok(next) if next == first));
}
