// The file of a history.
ghost use Rattle.std.specs.Prelude.{◌≡◌, ◌<◌, ◌≤◌, ◌^◌, ◌++◌, List, OnOk, IfOk, reverse};
ghost use Rattle.std.specs.List.{All};
ghost use Rattle.p8_access.specs.declared.order.Turn.{Turn};
ghost use Rattle.p8_access.specs.Worlds.{Line};
ghost use Rattle.p8_access.specs.Histories.{Ended};
ghost use Rattle.p8_cog.specs.Lives.{asks};
ghost use Rattle.p8_ledger.specs.Worlds.{world_of};
ghost use Rattle.p8_verify.specs.Table.{turn_bytes};
ghost use Rattle.p8_verify.specs.Fitting.{Fits};
ghost use Rattle.p8_verify.specs.Files.{records, file_of, IsFile};

use crate::halt_laws::halts_name_registers;
use crate::head::{HEAD, HistoryHead};
use crate::records::{RECORD, turn_bytes};
use p8_access::Turn;
use p8_ledger::History;
use p8_words::NoMemory;
use std::alloc::Global;

/// Appends the record of a turn.
fn push_record(out: &mut Vec<u8>, turn: &Turn) -> Result<(), NoMemory>
    requires { turn.now.key.clock < 2 ^ 32 }
    ensures bytes { OnOk result (out.new.items ≡ out.old.items ++ turn_bytes turn.now) }
    ensures within { OnOk result (Fits turn.now) }
{
    out.extend_from_slice(&turn_bytes(*turn))?;
    Ok(())
}

/// Appends the records of turns.
fn push_records(out: &mut Vec<u8>, turns: &[Turn]) -> Result<(), NoMemory>
    requires { All (λ (turn : Turn). turn.key.clock < 2 ^ 32) turns.now }
    ensures bytes { OnOk result (out.new.items ≡ out.old.items ++ records turns.now) }
    ensures within { OnOk result (All Fits turns.now) }
{
    for turn in turns {
        push_record(out, turn)?;
    }
    Ok(())
}

/// The head of a history, and the record of each turn.
fn head_and_records(alloc: Global, history: &History) -> Result<Vec<u8>, NoMemory>
    requires clocks { history.now.limits.clocks ≤ 100000000 }
    requires turns { history.now.limits.turns ≤ 40000 }
    requires ended { (script : List Line) × Ended asks (world_of history.now.boot script history.now.limits) (reverse history.now.turns.list) }
    ensures bytes { (script : List Line) → IfOk result
        (λ bytes. bytes.items ≡ file_of (world_of history.now.boot script history.now.limits) (reverse history.now.turns.list)) }
    ensures within { OnOk result (All Fits history.now.turns.list) }
{
    let turns = history.turns.as_slice();
    let head = HistoryHead {
        clocks: history.limits.clocks as u32,
        turns: history.limits.turns as u32,
        count: turns.len() as u32,
    };
    let mut out = Vec::with_capacity(alloc, HEAD + RECORD * turns.len())?;
    out.extend_from_slice(&head.bytes())?;
    push_records(&mut out, turns)?;
    Ok(out)
}

/// The bytes of a history's file: a head of 16 bytes with the limits and the number of turns, and 24 bytes for each
/// turn.
///
/// The history has ended, and its limits are at most 100,000,000 clocks and 40,000 turns: so each of its turns has a
/// record. The only error is want of memory.
pub fn history_bytes(alloc: Global, history: &History) -> Result<Vec<u8>, NoMemory>
    requires clocks { history.now.limits.clocks ≤ 100000000 }
    requires turns { history.now.limits.turns ≤ 40000 }
    requires ended { (script : List Line) × Ended asks (world_of history.now.boot script history.now.limits) (reverse history.now.turns.list) }
    ensures { (script : List Line) → IfOk result (λ bytes. IsFile (world_of history.now.boot script history.now.limits)
        (reverse history.now.turns.list) bytes.items) }
{
    halts_name_registers();
    let bytes = head_and_records(alloc, history)?;
    Ok(bytes)
}
