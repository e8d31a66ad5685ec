// A starter one of whose workers is held back, while another one looks how far the others come.
ghost use Rattle.std.specs.Prelude.{◌≡◌, true};
ghost use Rattle.std.specs.Arc.{arc_value};
ghost use Rattle.p8_crew.specs.Jobs.{ComesBack};
ghost use Rattle.p8_desk.specs.Passes.{Owns};

use anyhow::anyhow;
use p8_crew::{CogJob, Gate, Starter, Worker};
use p8_desk::{CogPass, Desk, Turned};
use std::alloc::Global;
use std::sync::atomic::{AtomicU64, Ordering};
use std::sync::{Arc, Wait};
use std::thread::yield_now;

/// The cog whose worker looks. It isn't started before those that are held back, and so its tries say nothing, make no turn and tell
/// whose turn comes next.
const LOOKER: u8 = 7;

/// How often it looks at most for what is to come.
const LOOKS: u64 = 100_000_000;

/// How often it looks whether any more comes, where none may.
const AGAIN: u64 = 100_000;

/// The worker that is held back, and where the first turn of its cog stands.
#[derive(Clone, Copy)]
pub struct Hold {
    cog: u8,
    /// The turn's clock.
    clock: u64,
    /// How many turns come before it.
    before: u64,
}

impl Hold {
    /// The hold of a line `COG CLOCK BEFORE`.
    ///
    /// # Errors
    ///
    /// A line that lacks a word, and words that are no numbers or too great.
    pub fn of_line(line: &str) -> anyhow::Result<Hold> {
        let mut words = line.split(' ');
        let mut word = || words.next().ok_or_else(|| anyhow!("a hold lacks a word"));
        Ok(Hold {
            cog: word()?.parse()?,
            clock: word()?.parse()?,
            before: word()?.parse()?,
        })
    }

    /// Whether a look tells that just the turns before that one are made, and that it comes next.
    fn is_next(&self, answer: Turned, seen: u64) -> bool {
        match answer {
            Turned::After { cog, bound } => {
                cog == self.cog && bound == self.clock && seen == self.before
            }
            Turned::Done(_) => false,
            Turned::Held { .. } => false,
            Turned::Ahead { .. } => false,
            Turned::Over => false,
        }
    }
}

/// One look at the desk, by the pass of a cog: what a try answers, once no other pass has the desk.
fn look<R: Wait>(rt: &R, desk: &Desk, pass: &mut CogPass) -> Turned
    requires { Owns desk.now pass.old }
    ensures owns { Owns desk.now pass.new }
    ensures cog { pass.new.cog ≡ pass.old.cog }
{
    for _ in rt.forever() {
        let answer = desk.try_turn(pass);
        if !is_held(answer) {
            return answer;
        }
    }
    unreachable!()
}

/// Whether another pass had the desk.
fn is_held(answer: Turned) -> bool {
    match answer {
        Turned::Held { .. } => true,
        Turned::Done(_) => false,
        Turned::After { .. } => false,
        Turned::Ahead { .. } => false,
        Turned::Over => false,
    }
}

/// What the workers of a crew share, one of which is held back.
#[derive(Drop)]
pub struct Held {
    hold: Hold,
    /// It is opened to let the worker go.
    go: Gate,
    /// 1 once the looker has seen all that it looks for.
    seen: AtomicU64,
}

impl Held {
    /// Nothing is seen yet.
    pub fn new(hold: Hold) -> Held {
        Held {
            hold,
            go: Gate::new(),
            seen: AtomicU64::new(0),
        }
    }

    /// Whether the looker saw this: while the worker was held back the others made all turns before its cog's first one, and no other
    /// turn was made; and that one was made once the worker was let go.
    pub fn was_seen(&self) -> bool {
        self.seen.load(Ordering::SeqCst) == 1
    }

    /// Looks until the others have made all turns before the one of the worker that is held back.
    fn comes<R: Wait>(&self, rt: &R, desk: &Desk, pass: &mut CogPass) -> bool
        requires { Owns desk.now pass.old }
        ensures owns { Owns desk.now pass.new }
        ensures cog { pass.new.cog ≡ pass.old.cog }
    {
        for _ in 0..LOOKS {
            let answer = look(rt, desk, pass);
            if self.hold.is_next(answer, pass.seen()) {
                return true;
            }
        }
        false
    }

    /// Looks whether it stays so.
    fn stays<R: Wait>(&self, rt: &R, desk: &Desk, pass: &mut CogPass) -> bool
        requires { Owns desk.now pass.old }
        ensures owns { Owns desk.now pass.new }
        ensures cog { pass.new.cog ≡ pass.old.cog }
    {
        for _ in 0..AGAIN {
            let answer = look(rt, desk, pass);
            if !self.hold.is_next(answer, pass.seen()) {
                return false;
            }
        }
        true
    }

    /// Looks until more turns are made.
    fn goes_on<R: Wait>(&self, rt: &R, desk: &Desk, pass: &mut CogPass) -> bool
        requires { Owns desk.now pass.old }
        ensures owns { Owns desk.now pass.new }
        ensures cog { pass.new.cog ≡ pass.old.cog }
    {
        for _ in 0..LOOKS {
            look(rt, desk, pass);
            if pass.seen() > self.hold.before {
                return true;
            }
        }
        false
    }

    /// All looks, between which the worker is let go.
    fn watch<R: Wait>(&self, rt: &R, desk: &Desk, pass: &mut CogPass)
        requires { Owns desk.now pass.old }
        ensures owns { Owns desk.now pass.new }
        ensures cog { pass.new.cog ≡ pass.old.cog }
    {
        let waits = self.comes(rt, desk, pass) && self.stays(rt, desk, pass);
        self.go.open(rt);
        if waits && self.goes_on(rt, desk, pass) {
            self.seen.store(1, Ordering::SeqCst);
        }
    }

    /// The looker's job: it looks, where its gate is opened, and does its job then.
    fn look_and_run<R: Wait>(&self, rt: &R, job: CogJob) -> CogPass
        requires { Owns (arc_value job.desk) job.pass }
        ensures { ComesBack job.pass result }
    {
        let CogJob {
            desk,
            mut pass,
            gate,
        } = job;
        if !gate.wait(rt) {
            self.go.open(rt);
            return CogJob { desk, pass, gate }.run(rt);
        }
        self.watch(rt, &desk, &mut pass);
        run_to_the_end(rt, CogJob { desk, pass, gate })
    }
}

/// Does a job whose gate was opened. Its pass is over afterwards.
fn run_to_the_end<R: Wait>(rt: &R, job: CogJob) -> CogPass
    requires { Owns (arc_value job.desk) job.pass }
    ensures same { (result.world ≡ job.pass.world) × (result.table ≡ job.pass.table) × (result.cog ≡ job.pass.cog) }
    ensures over { result.over ≡ true }
{
    let pass = job.run(rt);
    for _ in rt.forever() {
        if pass.over() {
            return pass;
        }
        yield_now();
    }
    unreachable!()
}

/// A worker that does its job by `CogJob::run`, but waits or looks before that where it is one of the two.
#[derive(Drop)]
pub struct HeldWorker {
    held: Arc<Held, Global>,
}

impl Worker for HeldWorker {
    fn work<R: Wait>(self, rt: &R, job: CogJob) -> CogPass {
        let cog = job.pass.cog();
        if cog == LOOKER {
            return self.held.look_and_run(rt, job);
        }
        if cog == self.held.hold.cog {
            self.held.go.wait(rt);
        }
        job.run(rt)
    }
}

/// A starter that gives such workers.
#[derive(Drop)]
pub struct HoldingStarter {
    held: Arc<Held, Global>,
    refused: u64,
}

impl HoldingStarter {
    /// A starter whose workers share this.
    pub fn new(held: Arc<Held, Global>) -> HoldingStarter {
        HoldingStarter { held, refused: 0 }
    }
}

impl Starter for HoldingStarter {
    type Worker = HeldWorker;

    ghost refused = { λ starter. starter.refused };

    // The count of those that share what is held may have come to its end.
    ghost may_refuse = { λ starter. Unit {0} };

    fn worker(&mut self, _cog: u8) -> Option<HeldWorker> {
        match Arc::try_clone(&self.held) {
            Ok(held) => Some(HeldWorker { held }),
            Err(_) => {
                self.refused = self.refused.saturating_add(1);
                None
            }
        }
    }

    fn refuse(&mut self) {
        self.refused = self.refused.saturating_add(1);
    }
}
