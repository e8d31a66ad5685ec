// Keys in order.
use p8_access::{Key, key_before};

/// The earlier clock comes first, whatever the cogs, and at one clock the lower cog.
#[test]
fn keys_in_order(rt: HostRuntime) {
    let early = Key { clock: 16, cog: 7 };
    let late = Key { clock: 17, cog: 0 };
    let beside = Key { clock: 17, cog: 1 };
    let rises = key_before(early, late) && key_before(late, beside);
    let falls = key_before(beside, late) || key_before(late, late);
    assert!(rt; rises && !falls);
}
