// The whole text of a history.
ghost use Rattle.std.specs.Prelude.{◌≡◌, ◌≤◌, ◌+◌, reverse, IfOk};
ghost use Rattle.std.specs.Option.{ForSome};
ghost use Rattle.p8_access.specs.Worlds.{World};
ghost use Rattle.p8_hub.specs.Standing.{IsHub};
ghost use Rattle.p8_report.specs.Text.{text_of};

use crate::dump::push_dump;
use crate::lines::lines;
use crate::tail::push_tail;
use p8_access::{Origin, Turn};
use p8_hub::Hub;
use p8_ledger::Ended;
use p8_words::NoMemory;
use std::alloc::Global;

/// The text of these turns, which leave this hub. Cog 0 was started with `first`, and there were to be
/// at most `limit` turns.
fn text(
    alloc: Global,
    first: Origin,
    turns: &[Turn],
    limit: u64,
    hub: &Hub,
    dump: Option<(u16, u16)>,
) -> Result<Vec<u8>, NoMemory>
    requires { ForSome dump (λ range. range.0 + range.1 ≤ 32768) }
    ensures { (w : World)
        → w.first ≡ first
        → w.turns ≡ limit
        → IsHub w (reverse turns.now) hub.now
        → IfOk result (λ text. text.items ≡ text_of w (reverse turns.now) dump) }
{
    let mut out = lines(alloc, first, turns)?;
    push_tail(&mut out, turns.len() as u64, limit, hub)?;
    push_dump(&mut out, hub, dump)?;
    Ok(out)
}

/// The text of a history that has ended: a line for each turn, why the history ended and how many turns
/// it has, the locks, the pins, the cogs, and the dump where one is asked for.
///
/// A dump is an address and how many bytes from there on, of the memory that the history leaves: at
/// least one, and none after RAM, which has 32,768. Every line ends with a line feed. The only error is
/// want of memory.
pub fn trace(alloc: Global, ended: &Ended, dump: Option<(u16, u16)>) -> Result<Vec<u8>, NoMemory>
    requires some { ForSome dump (λ range. 1 ≤ range.1) }
    requires in_ram { ForSome dump (λ range. range.0 + range.1 ≤ 32768) }
    ensures { (w : World)
        → w.memory ≡ ended.now.history.boot.ram
        → w.first ≡ ended.now.history.boot.first
        → w.turns ≡ ended.now.history.limits.turns
        → IsHub w (reverse ended.now.history.turns.list) ended.now.hub
        → IfOk result (λ text. text.items ≡ text_of w (reverse ended.now.history.turns.list) dump) }
{
    let history = &ended.history;
    text(
        alloc,
        history.boot.first,
        history.turns.as_slice(),
        history.limits.turns,
        &ended.hub,
        dump,
    )
}
