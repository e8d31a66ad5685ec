// All changes of the pins of a run.
ghost use Rattle.std.specs.Prelude.{◌≡◌, ℕ, List, reverse, IfOk, OnOk, ◌++◌, ◌∷◌, []};
ghost use Rattle.p8_access.specs.declared.order.Turn.{Turn as TurnValue};
ghost use Rattle.p8_access.specs.Worlds.{World};
ghost use Rattle.p8_access.specs.Histories.{Rises};
ghost use Rattle.p8_pins.specs.LevelChanges.{lines_of, Tells};

use crate::change::Change;
use crate::pin_script::PinScript;
use crate::walk::Walk;
use p8_access::Turn;
use p8_words::NoMemory;
use std::alloc::Global;

/// Adds a change at the end.
fn push(changes: &mut Vec<Change>, clock: u64, pins: u32) -> Result<(), NoMemory>
    ensures { OnOk result (changes.new.items ≡ changes.old.items ++ (record { clock = clock; pins = pins }) ∷ []) }
{
    changes.extend_from_slice(&[Change { clock, pins }])?;
    Ok(())
}

/// The 32 pins of a run at each clock: each change has a clock and the pins from that clock on, the first one at clock 0.
///
/// `turns` are the turns of a run, the oldest first, with rising keys. A turn's effect is seen at its own clock, and so is a
/// line of the script. There is a change at most for each clock of a line and of a turn that writes OUTA or DIRA or that
/// starts, stops or halts a cog; two in a row may have the same pins. The only error is want of memory.
pub fn pin_changes(
    alloc: Global,
    turns: &[Turn],
    script: &PinScript,
) -> Result<Vec<Change>, NoMemory>
    requires { Rises (reverse turns.now) }
    ensures { (w : World) → w.script ≡ script.now → IfOk result (λ changes. Tells w (reverse turns.now) (lines_of changes.items)) }
{
    let mut changes = Vec::new(alloc);
    let mut walk = Walk::open(script, turns);
    let mut clock = 0;
    push(&mut changes, clock, walk.pins())?;
    while let Some(next) = walk.next() {
        clock = next;
        push(&mut changes, clock, walk.pins())?;
    }
    Ok(changes)
}
