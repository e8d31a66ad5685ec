// The whole text of a wave.
ghost use Rattle.std.specs.Prelude.{◌≡◌, List, map, reverse, IfOk};
ghost use Rattle.p8_access.specs.declared.order.Turn.{Turn};
ghost use Rattle.p8_access.specs.Worlds.{World};
ghost use Rattle.p8_access.specs.Histories.{Rises};
ghost use Rattle.p8_ledger.specs.Worlds.{world_of};
ghost use Rattle.p8_wave.specs.Variables.{variables};
ghost use Rattle.p8_wave.specs.Scale.{frequency, period_of};
ghost use Rattle.p8_wave.specs.Wave.{signals_of, wave_of};
ghost use Rattle.p8_wave.specs.Sections.{IsWalked};

use crate::ending::push_end;
use crate::entries::shown;
use crate::heads::{push_first, push_head};
use crate::parts::joined;
use crate::scale::Scale;
use crate::variables::Selection;
use crate::walks::{Walk, walk_along};
use p8_instr::push_text;
use p8_ledger::History;
use p8_pins::{PinScript, run_end};
use p8_words::NoMemory;
use std::alloc::Global;

/// All that is told of the variables, where a walk has been made.
fn text(
    alloc: Global,
    scale: &Scale,
    walk: &Walk,
    selection: Selection,
) -> Result<Vec<u8>, NoMemory>
    ensures { (w : World) (past : List Turn)
        → scale.now.frequency ≡ frequency w
        → scale.now.period ≡ period_of scale.now.frequency
        → IsWalked w past (variables selection.pins_only) walk.now
        → IfOk result (λ text. text.items ≡ signals_of w past selection) }
{
    let entries = joined(alloc, &walk.sections.parts)?;
    let shown = shown(alloc, &entries, selection.all)?;
    let mut out = Vec::new(alloc);
    push_head(alloc, &mut out, scale, &shown)?;
    push_first(&mut out, &shown, &walk.first)?;
    push_text(&mut out, &walk.sections.text)?;
    Ok(out)
}

/// A history that has ended, as a Value Change Dump (IEEE 1364-2005, section 18): the 32 pins, what each cog
/// does and drives, and the locks, at each clock at which one of them changes; or the pins and the locks alone.
///
/// `script` is the pin script of the run. A variable stands in the text where it changes in the run, or always
/// where `selection.all` is true; where `selection.pins_only` is true, the pins and the locks alone may stand,
/// so that each variable has one bit. A comment at the end tells how many turns were made, the last one's clock, and
/// why there are no more. The keys of the turns rise, as in each history of a run. The only error is want of memory.
pub fn wave(
    alloc: Global,
    history: &History,
    script: &PinScript,
    selection: Selection,
) -> Result<Vec<u8>, NoMemory>
    ensures { (w : World)
        → w ≡ world_of history.now.boot script.now history.now.limits
        → Rises (reverse history.now.turns.list)
        → IfOk result (λ text. text.items ≡ wave_of w (reverse history.now.turns.list) selection) }
{
    let turns = history.turns.as_slice();
    let end = run_end(turns, history.limits.clocks, history.limits.turns);
    let scale = Scale::of_boot(&history.boot);
    let walk = walk_along(
        alloc,
        turns,
        script,
        end,
        scale.ticks(),
        selection.pins_only,
    )?;
    let mut text = text(alloc, &scale, &walk, selection)?;
    let limits = history.limits;
    push_end(
        &mut text,
        b"$comment ",
        turns,
        limits.turns,
        limits.clocks,
        b" $end\n",
    )?;
    Ok(text)
}
