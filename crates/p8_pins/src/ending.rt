// Where a run ends.
ghost use Rattle.std.specs.Prelude.{◌≡◌, reverse};
ghost use Rattle.p8_access.specs.Worlds.{World};
ghost use Rattle.p8_pins.specs.Levels.{end_of};

use p8_access::Turn;

/// Where a run with these turns ends: at the clock `clocks`, or where it has `limit` turns at the last one's clock, 0 where
/// that is none.
pub fn run_end(turns: &[Turn], clocks: u64, limit: u64) -> u64
    ensures { (w : World) → w.clocks ≡ clocks → w.turns ≡ limit → result ≡ end_of w (reverse turns.now) }
{
    if turns.len() as u64 != limit {
        return clocks;
    }
    match turns.split_last() {
        Some((turn, _)) => turn.key.clock,
        None => 0,
    }
}
