// Strips of one region: at their limits, side by side, and after the region.
use p8_region::{NoRoom, Region, Strip, change_one, words_of};
use p8_words::NoMemory;
use std::alloc::Global;
use std::marker::Send;

/// Compiles only where a strip may be sent to another thread.
fn may_cross<T: Send>(_strip: &Strip<T>) -> bool
where
    Strip<T>: Send,
{
    true
}

/// Whether a cut of this many pairs of longs is refused so.
fn refuses(region: &mut Region, n: usize, refusal: NoRoom) -> bool {
    match region.cut::<u64>(n) {
        Ok(_) => false,
        Err(found) => found == refusal,
    }
}

/// Takes two longs and two pairs of longs, and no third pair; then the first pair and the second long are changed at
/// once, and no third long is.
fn fill(longs: &mut Strip<u32>, pairs: &mut Strip<u64>) -> bool {
    longs.push(5) == Ok(())
        && longs.push(6) == Ok(())
        && pairs.push(u64::MAX) == Ok(())
        && pairs.push(8) == Ok(())
        && pairs.push(9) == Err(9)
        && change_one(pairs, 0, 7, longs)
        && !longs.set(2, 1)
}

/// Whether the longs are 5 and 6, with room for one more.
fn has_longs(longs: &Strip<u32>) -> bool {
    longs.as_slice() == [5, 6].as_slice()
        && longs.len() == 2
        && longs.left() == 1
        && !longs.is_empty()
}

/// Whether the pairs are 7 and 8, and are gone when they are cleared.
fn has_pairs(pairs: &mut Strip<u64>) -> bool {
    let is_full = pairs.get(0) == Some(7) && pairs.get(1) == Some(8) && pairs.get(2).is_none();
    pairs.clear();
    is_full && pairs.len() == 0 && pairs.left() == 2 && pairs.is_empty()
}

/// Whether room for three longs takes 4 of 8 words, three pairs of longs then find no room, and two fill it; None where
/// there is no memory.
fn fills_a_region(alloc: Global) -> Option<bool> {
    let mut region = Region::new(alloc, 8).ok()?;
    let mut longs = region.cut::<u32>(3).ok()?;
    let is_kept = region.left() == 4
        && refuses(&mut region, 3, NoRoom { asked: 6, left: 4 })
        && region.left() == 4;
    let mut pairs = region.cut::<u64>(2).ok()?;
    let is_full = region.left() == 0;
    drop(region);
    let is_filled = fill(&mut longs, &mut pairs) && has_longs(&longs) && has_pairs(&mut pairs);
    Some(is_kept && is_full && is_filled && may_cross(&pairs))
}

#[test]
fn two_strips_of_one_region(rt: HostRuntime) {
    assert!(rt; fills_a_region(rt.alloc()) == Some(true));
}

/// Whether a region of one word holds a value of no bytes, and refuses the greatest number of pairs of longs.
fn holds_nothing(alloc: Global) -> Option<bool> {
    let mut region = Region::new(alloc, 1).ok()?;
    let mut nothing = region.cut::<()>(usize::MAX).ok()?;
    let is_held = nothing.push(()) == Ok(())
        && nothing.len() == 1
        && nothing.left() == usize::MAX - 1;
    let refusal = NoRoom {
        asked: usize::MAX,
        left: 1,
    };
    Some(is_held && refuses(&mut region, usize::MAX, refusal))
}

/// Values of no bytes take no words, and what no region holds asks for the greatest number or is out of memory.
#[test]
fn the_least_and_the_greatest(rt: HostRuntime) {
    let is_greatest = words_of::<u8>(usize::MAX) == 1 << 62
        && words_of::<u64>(usize::MAX) == usize::MAX
        && words_of::<()>(usize::MAX) == 0
        && matches!(Region::new(rt.alloc(), usize::MAX), Err(NoMemory));
    assert!(rt; is_greatest && holds_nothing(rt.alloc()) == Some(true));
}
