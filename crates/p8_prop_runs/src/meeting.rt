// A starter two of whose workers meet between two turns.
ghost use Rattle.std.specs.Prelude.{◌≡◌, true};
ghost use Rattle.p8_desk.specs.Passes.{Owns};

use p8_access::{Key, Turn};
use p8_crew::{CogJob, Starter, Worker};
use p8_desk::{CogPass, Desk, Turned};
use std::alloc::Global;
use std::sync::atomic::{AtomicU64, Ordering};
use std::sync::{Arc, Wait};
use std::thread::yield_now;

/// The turns after which the two workers meet: a cog starts another one, and the other begins. The first cog makes no
/// other turn before that, and the second one needs a promise of the first before it begins.
const STARTED: Key = Key {
    clock: 8528,
    cog: 0,
};

const BEGUN: Key = Key {
    clock: 8530,
    cog: 1,
};

/// How often a worker looks for the other's flag at most.
const LOOKS: u64 = 100_000_000;

/// The flags of the two workers, 1 where one is up, and how many of the two saw the other's.
#[derive(Drop)]
pub struct Flags {
    started: AtomicU64,
    begun: AtomicU64,
    met: AtomicU64,
}

impl Flags {
    /// Both flags are down.
    pub fn new() -> Flags {
        Flags {
            started: AtomicU64::new(0),
            begun: AtomicU64::new(0),
            met: AtomicU64::new(0),
        }
    }

    /// Whether each of the two saw the other's flag, so that both are up.
    pub fn have_met(&self) -> bool {
        self.met.load(Ordering::SeqCst) == 2
    }

    /// Raises one flag and looks for the other.
    fn meet(&self, own: &AtomicU64, other: &AtomicU64) {
        own.store(1, Ordering::SeqCst);
        for _ in 0..LOOKS {
            if other.load(Ordering::SeqCst) == 1 {
                self.met.fetch_add(1, Ordering::SeqCst);
                return;
            }
        }
    }

    /// After the turn of one of the two: raises its flag and looks for the other's.
    fn meet_after(&self, key: Key) {
        if key == STARTED {
            self.meet(&self.started, &self.begun);
        } else if key == BEGUN {
            self.meet(&self.begun, &self.started);
        }
    }
}

/// A worker that makes its cog's turns by calls of `Desk::turn` of its own, and meets another one between two of them.
#[derive(Drop)]
pub struct Meeter {
    flags: Arc<Flags, Global>,
}

/// Tries with a pass until it isn't held up: what its cog has found is said then.
fn say<R: Wait>(rt: &R, desk: &Desk, pass: &mut CogPass)
    requires { Owns desk.now pass.old }
    ensures owns { Owns desk.now pass.new }
    ensures cog { pass.new.cog ≡ pass.old.cog }
{
    for _ in rt.forever() {
        match desk.try_turn(pass) {
            Turned::Held { .. } => yield_now(),
            Turned::Done(_) => return,
            Turned::After { .. } => return,
            Turned::Ahead { .. } => return,
            Turned::Over => return,
        }
    }
    unreachable!()
}

/// What a worker does after a turn.
fn stop_after<R: Wait>(rt: &R, flags: &Flags, desk: &Desk, pass: &mut CogPass, turn: &Turn)
    requires { Owns desk.now pass.old }
    ensures owns { Owns desk.now pass.new }
    ensures cog { pass.new.cog ≡ pass.old.cog }
{
    if turn.key == STARTED {
        say(rt, desk, pass);
    }
    flags.meet_after(turn.key);
}

/// Makes the turns of a pass until no turn comes any more.
fn make_turns<R: Wait>(rt: &R, flags: &Flags, desk: &Desk, pass: &mut CogPass)
    requires { Owns desk.now pass.old }
    ensures owns { Owns desk.now pass.new }
    ensures cog { pass.new.cog ≡ pass.old.cog }
    ensures over { pass.new.over ≡ true }
{
    for _ in rt.forever() {
        match desk.turn(rt, pass) {
            Some(turn) => stop_after(rt, flags, desk, pass, &turn),
            None => return,
        }
    }
    unreachable!()
}

impl Worker for Meeter {
    fn work<R: Wait>(self, rt: &R, job: CogJob) -> CogPass {
        let CogJob {
            desk,
            mut pass,
            gate,
        } = job;
        if gate.wait(rt) {
            make_turns(rt, &self.flags, &desk, &mut pass);
        }
        pass
    }
}

/// A starter that gives such workers.
#[derive(Drop)]
pub struct MeetingStarter {
    flags: Arc<Flags, Global>,
    refused: u64,
}

impl MeetingStarter {
    /// A starter whose workers raise these flags.
    pub fn new(flags: Arc<Flags, Global>) -> MeetingStarter {
        MeetingStarter { flags, refused: 0 }
    }
}

impl Starter for MeetingStarter {
    type Worker = Meeter;

    ghost refused = { λ starter. starter.refused };

    // The count of those that share the flags may have come to its end.
    ghost may_refuse = { λ starter. Unit {0} };

    fn worker(&mut self, _cog: u8) -> Option<Meeter> {
        match Arc::try_clone(&self.flags) {
            Ok(flags) => Some(Meeter { flags }),
            Err(_) => {
                self.refused = self.refused.saturating_add(1);
                None
            }
        }
    }

    fn refuse(&mut self) {
        self.refused = self.refused.saturating_add(1);
    }
}
