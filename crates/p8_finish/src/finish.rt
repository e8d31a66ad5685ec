// What is told of a history that has ended.
ghost use Rattle.std.specs.Prelude.{◌≡◌, ◌≤◌, reverse, IfOk};
ghost use Rattle.p8_access.specs.Histories.{Ended as HasEnded, Rises};
ghost use Rattle.p8_hub.specs.Standing.{IsHub};
ghost use Rattle.p8_ledger.specs.Worlds.{world_of};
ghost use Rattle.p8_cog.specs.Lives.{asks};
ghost use Rattle.p8_wave.specs.Plot.{plot_of};
ghost use Rattle.p8_finish.specs.Finishes.{told_by, CanBeTold, IsWhole};

use crate::summary_text::summary;
use p8_ledger::{Ended, History};
use p8_pins::PinScript;
use p8_report::trace;
use p8_serial::serial_text;
use p8_verify::history_bytes;
use p8_wave::{Selection, View, plot, wave};
use p8_words::NoMemory;
use std::alloc::Global;

/// What is told of a run in the end.
#[derive(Clone, Copy)]
pub enum Finish {
    /// Its trace, with a dump of a range of hub RAM: an address, and how many bytes from there on.
    Trace { dump: Option<(u16, u16)> },
    /// The summary of the made program of a seed.
    Summary { seed: u32 },
    /// The bytes of its file.
    Saved,
    /// The bytes that stand on a pin, with so many clocks a bit.
    Serial { pin: u8, bits: u32 },
    /// The wave, of these of its variables.
    Wave { selection: Selection },
    /// The picture of some of its pins.
    Plot { view: View },
}

/// The picture of some pins of a run, with the pin script that it was made with.
fn picture(
    alloc: Global,
    history: &History,
    script: &PinScript,
    view: &View,
) -> Result<Vec<u8>, NoMemory>
    requires { Rises (reverse history.now.turns.list) }
    ensures { IfOk result (λ text. text.items
        ≡ plot_of (world_of history.now.boot script.now history.now.limits) (reverse history.now.turns.list) view.now) }
{
    let turns = history.turns.as_slice();
    plot(alloc, &history.boot, script, turns, history.limits, view)
}

/// What is told of a history that has ended, with the pin script that it was made with.
///
/// A dump isn't empty, and is in hub RAM. A history that is saved has at most 100,000,000 clocks and 40,000 turns by its limits. A pin is at most 31,
/// and a bit has 2 to 10,000 clocks. The only error is want of memory.
pub fn told(
    alloc: Global,
    ended: &Ended,
    script: &PinScript,
    finish: Finish,
) -> Result<Vec<u8>, NoMemory>
    requires can { CanBeTold finish ended.now.history.limits.clocks ended.now.history.limits.turns }
    requires ended { HasEnded asks (world_of ended.now.history.boot script.now ended.now.history.limits) (reverse ended.now.history.turns.list) }
    requires hub { IsHub (world_of ended.now.history.boot script.now ended.now.history.limits) (reverse ended.now.history.turns.list) ended.now.hub }
    ensures text { IfOk result (λ text. text.items
        ≡ told_by finish (world_of ended.now.history.boot script.now ended.now.history.limits) (reverse ended.now.history.turns.list)) }
    ensures whole { IfOk result (λ _. IsWhole finish (world_of ended.now.history.boot script.now ended.now.history.limits)
        (reverse ended.now.history.turns.list)) }
{
    match finish {
        Finish::Trace { dump } => trace(alloc, ended, dump),
        Finish::Summary { seed } => summary(alloc, seed, ended),
        Finish::Saved => history_bytes(alloc, &ended.history),
        Finish::Wave { selection } => wave(alloc, &ended.history, script, selection),
        Finish::Plot { view } => picture(alloc, &ended.history, script, &view),
        Finish::Serial { pin, bits } => serial_text(alloc, &ended.history, script, pin, bits),
    }
}
