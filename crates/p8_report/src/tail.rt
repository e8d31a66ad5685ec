// What the hub is in the end.
ghost use Rattle.std.specs.Prelude.{◌≡◌, ◌++◌, ◌<◌, List, length, nat_eq, codes, if◌then◌else◌, map, flat_map, OnOk};
ghost use Rattle.p8_access.specs.declared.order.Turn.{Turn};
ghost use Rattle.p8_access.specs.Worlds.{World};
ghost use Rattle.p8_access.specs.Hub.{cog_state, cogs, is_taken, is_set, locks};
ghost use Rattle.p8_hub.specs.Standing.{IsHub};
ghost use Rattle.p8_report.specs.Text.{ended_text, lock_glyph, locks_text, pins_text, state_text, cog_text};

use crate::phrases::{push_longs, push_numbered};
use crate::words::kind_name;
use p8_access::CogState;
use p8_hub::Hub;
use p8_instr::push_text;
use p8_words::NoMemory;

/// Why a history of `count` turns ended, where there were to be at most `limit`.
fn cause(count: u64, limit: u64) -> &'static [u8]
    ensures { result.now ≡ (if nat_eq count limit then codes "ended turns " else codes "ended clocks ") }
{
    if count == limit {
        b"ended turns "
    } else {
        b"ended clocks "
    }
}

/// Appends why the history ended, and how many turns it has.
fn push_ended(out: &mut Vec<u8>, count: u64, limit: u64) -> Result<(), NoMemory>
    ensures { OnOk result ((w : World) (past : List Turn) → w.turns ≡ limit → length past ≡ count → out.new.items ≡ out.old.items ++ ended_text w past) }
{
    push_numbered(out, cause(count, limit), count)?;
    push_text(out, b"\n")
}

/// The letter of a lock: free or taken, clear or set.
fn lock_letter(taken: bool, set: bool) -> u8
    ensures { result ≡ lock_glyph taken set }
{
    match (taken, set) {
        (false, false) => b'.',
        (false, true) => b's',
        (true, false) => b'N',
        (true, true) => b'S',
    }
}

/// Appends the letters of the eight locks.
fn push_lock_letters(out: &mut Vec<u8>, hub: &Hub) -> Result<(), NoMemory>
    ensures { OnOk result ((w : World) (past : List Turn) → IsHub w past hub.now →
        out.new.items ≡ out.old.items ++ map (λ lock. lock_glyph (is_taken past lock) (is_set past lock)) locks) }
{
    for lock in 0..8 {
        let (taken, set) = hub.lock(lock);
        push_text(out, &[lock_letter(taken, set)])?;
    }
    Ok(())
}

/// Appends the line of the locks.
fn push_locks(out: &mut Vec<u8>, hub: &Hub) -> Result<(), NoMemory>
    ensures { OnOk result ((w : World) (past : List Turn) → IsHub w past hub.now → out.new.items ≡ out.old.items ++ locks_text past) }
{
    push_text(out, b"locks ")?;
    push_lock_letters(out, hub)?;
    push_text(out, b"\n")
}

/// Appends which pins are outputs, and which outputs are high.
fn push_pins(out: &mut Vec<u8>, hub: &Hub) -> Result<(), NoMemory>
    ensures { OnOk result ((w : World) (past : List Turn) → IsHub w past hub.now → out.new.items ≡ out.old.items ++ pins_text past) }
{
    push_longs(out, b"pins ", hub.dira(), hub.outputs())?;
    push_text(out, b"\n")
}

/// Appends what a cog is doing.
fn push_state(out: &mut Vec<u8>, state: &CogState) -> Result<(), NoMemory>
    ensures { OnOk result (out.new.items ≡ out.old.items ++ state_text state.now) }
{
    match state {
        CogState::Stopped => push_text(out, b"stopped"),
        CogState::Starting { origin, .. } => {
            push_text(out, b"starting ")?;
            push_text(out, kind_name(origin))
        }
        CogState::Running { origin } => {
            push_text(out, b"running ")?;
            push_text(out, kind_name(origin))
        }
    }
}

/// Appends the line of a cog.
fn push_cog(out: &mut Vec<u8>, cog: u8, hub: &Hub) -> Result<(), NoMemory>
    requires { cog < 8 }
    ensures { OnOk result ((w : World) (past : List Turn) → IsHub w past hub.now → out.new.items ≡ out.old.items ++ cog_text w past cog) }
{
    push_numbered(out, b"cog ", cog as u64)?;
    push_text(out, b" ")?;
    push_state(out, &hub.state(cog))?;
    push_text(out, b"\n")
}

/// Appends the lines of the eight cogs.
fn push_cogs(out: &mut Vec<u8>, hub: &Hub) -> Result<(), NoMemory>
    ensures { OnOk result ((w : World) (past : List Turn) → IsHub w past hub.now → out.new.items ≡ out.old.items ++ flat_map (cog_text w past) cogs) }
{
    for cog in 0..8 {
        push_cog(out, cog, hub)?;
    }
    Ok(())
}

/// Appends what comes after the lines of `count` turns, where there were to be at most `limit`: why the
/// history ended, the locks, the pins and the cogs.
pub fn push_tail(out: &mut Vec<u8>, count: u64, limit: u64, hub: &Hub) -> Result<(), NoMemory>
    ensures { OnOk result ((w : World) (past : List Turn) → w.turns ≡ limit → length past ≡ count → IsHub w past hub.now →
        out.new.items ≡ out.old.items ++ ended_text w past ++ locks_text past ++ pins_text past ++ flat_map (cog_text w past) cogs) }
{
    push_ended(out, count, limit)?;
    push_locks(out, hub)?;
    push_pins(out, hub)?;
    push_cogs(out, hub)
}
