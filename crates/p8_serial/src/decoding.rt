// The serial bytes on a pin of a run.
ghost use Rattle.std.specs.Prelude.{◌≡◌, ◌<◌, reverse, IfOk};
ghost use Rattle.p8_cog.specs.Lives.{asks};
ghost use Rattle.p8_access.specs.Histories.{Ended};
ghost use Rattle.p8_ledger.specs.Worlds.{world_of};
ghost use Rattle.p8_serial.specs.Laws.{IsRate};
ghost use Rattle.p8_serial.specs.Serial.{serial_of};

use crate::frames::frames_text;
use p8_access::keys_rise;
use p8_cog::CogLife;
use p8_ledger::History;
use p8_pins::{PinScript, pin_changes, run_end};
use p8_words::NoMemory;
use std::alloc::Global;

/// The serial bytes that stand on a pin in a run, as text.
///
/// The history has ended, with this script. `pin` is 0 to 31, and `bits` the length of a bit, 2 to 10,000 clocks. A frame
/// begins at a falling edge, that is, where the pin is low and was high one clock before. Each of its ten bits is looked at in
/// its middle, and the next frame begins after the look at the stop bit. For each frame with all looks before the run's end
/// there is a line: `CLOCK HH` with the clock of the edge and the byte where the stop bit is high, else `CLOCK framing`. The last
/// line is `bytes N` with the number of bytes. The run's end is its limit of clocks, or the last turn's clock where it has
/// as many turns as it may have. The only error is want of memory.
pub fn serial_text(
    alloc: Global,
    history: &History,
    script: &PinScript,
    pin: u8,
    bits: u32,
) -> Result<Vec<u8>, NoMemory>
    requires ended { Ended asks (world_of history.now.boot script.now history.now.limits) (reverse history.now.turns.list) }
    requires pin { pin < 32 }
    requires rate { IsRate bits }
    ensures { IfOk result (λ text. text.items ≡ serial_of (world_of history.now.boot script.now history.now.limits) (reverse history.now.turns.list) pin bits) }
{
    keys_rise::<CogLife>();
    let turns = history.turns.as_slice();
    let changes = pin_changes(alloc, turns, script)?;
    let end = run_end(turns, history.limits.clocks, history.limits.turns);
    frames_text(alloc, changes.as_slice(), pin, bits, end)
}
