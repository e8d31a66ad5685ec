// The passes of a desk in threads, one for each.
ghost use Rattle.std.specs.Prelude.{◌≡◌, ◌<◌, ℕ, All, Option, Some, None, length, slice_get, slice_index_or, slice_set};
ghost use Rattle.p8_desk.specs.PassSets.{AllThere, IsOut};
ghost use Rattle.p8_desk.specs.Passes.{Owns, PassValue};
ghost use Rattle.p8_desk_runs.specs.Places.{IsOwned, IsKept};

use crate::calls::{put, take};
use p8_desk::{CogPass, Desk, Passes};
use std::sync::Wait;
use std::thread::{self, Threads};

/// Makes turns with a pass until none comes any more.
fn turn_to_the_end<R: Wait>(rt: &R, desk: &Desk, pass: &mut CogPass)
    requires { Owns desk.now pass.old }
    ensures owns { Owns desk.now pass.new }
    ensures cog { pass.new.cog ≡ pass.old.cog }
{
    for _ in rt.forever() {
        if desk.turn(rt, pass).is_none() {
            return;
        }
    }
}

/// The same with the pass at a place.
fn turn_at<R: Wait>(rt: &R, desk: &Desk, place: &mut Option<CogPass>)
    requires { IsOwned desk.now place.old }
    ensures { IsKept desk.now place.old place.new }
{
    match place {
        Some(pass) => turn_to_the_end(rt, desk, pass),
        None => unreachable!(),
    }
}

/// Has the passes make turns to the end, each in a thread of its own.
fn turn_all<R: Threads + Wait + Sync>(rt: &R, desk: &Desk, places: &mut [Option<CogPass>])
    requires { All (IsOwned desk.now) places.old }
    ensures { (n : ℕ) (d : Option PassValue) → n < length places.old → IsKept desk.now (slice_index_or places.old n d) (slice_index_or places.new n d) }
{
    thread::for_each_mut(rt, places, 8, &|_, place| turn_at(rt, desk, place));
}

/// Takes all passes out of their set.
fn take_all(passes: &mut Passes, places: &mut [Option<CogPass>])
    requires there { (n : ℕ) → n < 8 → (pass : PassValue) × (slice_get passes.old n ≡ Some (Some pass)) }
    requires room { length places.old ≡ 8 }
    ensures same { (n : ℕ) → n < 8 → slice_get places.new n ≡ slice_get passes.old n }
    ensures out { (n : ℕ) → n < 8 → IsOut n passes.new }
    ensures eight { length places.new ≡ 8 }
{
    for cog in 0..8u8 {
        places[cog as usize] = Some(take(passes, cog));
    }
}

/// Puts a pass back that is at its cog's place.
fn put_back(passes: &mut Passes, places: &mut [Option<CogPass>], cog: u8)
    requires there { (cog < 8) × (pass : PassValue) × (slice_get places.old cog ≡ Some (Some pass)) × (pass.cog ≡ cog) × IsOut cog passes.old }
    ensures put { (pass : PassValue) → slice_get places.old cog ≡ Some (Some pass) → passes.new ≡ slice_set passes.old cog (Some pass) }
    ensures left { places.new ≡ slice_set places.old cog None }
{
    match places[cog as usize].take() {
        Some(pass) => put(passes, pass),
        None => unreachable!(),
    }
}

/// Puts all passes back into their set.
fn put_all(passes: &mut Passes, places: &mut [Option<CogPass>])
    requires there { (n : ℕ) → n < 8 → (pass : PassValue) × (slice_get places.old n ≡ Some (Some pass)) × (pass.cog ≡ n) }
    requires out { (n : ℕ) → n < 8 → IsOut n passes.old }
    ensures same { (n : ℕ) → n < 8 → slice_get passes.new n ≡ slice_get places.old n }
{
    for cog in 0..8u8 {
        put_back(passes, places, cog);
    }
}

/// Makes turns with all passes, each in a thread of its own, until the history has ended. They are at the eight places
/// meanwhile.
pub fn turn_in_threads<R: Threads + Wait + Sync>(
    rt: &R,
    desk: &Desk,
    passes: &mut Passes,
    places: &mut [Option<CogPass>],
)
    requires there { AllThere desk.now passes.old }
    requires room { length places.old ≡ 8 }
    ensures { AllThere desk.now passes.new }
{
    take_all(passes, places);
    turn_all(rt, desk, places);
    put_all(passes, places);
}
