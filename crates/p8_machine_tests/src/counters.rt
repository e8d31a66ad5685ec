// The counters of a run that was worked by hand.
use p8_access::{Boot, Origin, Ram};
use p8_ledger::Limits;
use p8_machine::run_counted;
use p8_pins::PinScript;
use std::test::Fail;

/// The image of two methods, of which the first calls the second and keeps what it returns in a local:
///
/// ```text
/// $001C  00      a mark
/// $001D  05 02   the second method is called
/// $001F  65      its value is put into the local
/// $0020  32      return
/// $0021  38 05   5
/// $0023  61      is put into the result
/// $0024  32      return, with the result
/// ```
const CALLS: [u8; 40] = [
    0x00, 0x1B, 0xB7, 0x00, 0x00, 0x00, 0x10, 0x00, 0x28, 0x00, 0x30, 0x00, 0x1C, 0x00, 0x38, 0x00,
    0x18, 0x00, 0x03, 0x00, 0x0C, 0x00, 0x04, 0x00, 0x11, 0x00, 0x00, 0x00, 0x00, 0x05, 0x02, 0x65,
    0x32, 0x38, 0x05, 0x61, 0x32, 0x00, 0x00, 0x00,
];

/// What begins the first method.
const FIRST: Origin = Origin::Spin {
    entry: 0x001C,
    pbase: 0x0010,
    vbase: 0x0028,
    frame: 0x0030,
    size: 4,
};

/// The start, the entry, the call's new result, the second method's result and its reading by that method's return,
/// the local, and the stop of the cog by the first method's return.
#[test]
fn counters_of_a_call(rt: HostRuntime) -> Result<(), Fail> {
    let boot = Boot {
        ram: Ram::new(rt.alloc(), &CALLS)?,
        first: FIRST,
    };
    let limits = Limits {
        clocks: 20000,
        turns: 100,
    };
    let script = PinScript::empty(rt.alloc());
    let counted = run_counted(rt.alloc(), boot, script, limits)?;
    let counters: [Option<u16>; 7] = [
        None,
        None,
        Some(0x001D),
        Some(0x0023),
        Some(0x0024),
        Some(0x001F),
        Some(0x0020),
    ];
    assert_eq!(rt; counted.counters.as_slice(), &counters[..]);
    assert_eq!(rt; counted.ended.history.turns.len(), 7);
    Ok(())
}
