// Starters.
ghost use Rattle.std.specs.Prelude.{◌≡◌, ◌≢◌, ◌⊎◌, ◌-◌, ◌^◌, Some, OnSome, IfSome, IfNone};
ghost use Rattle.p8_crew.specs.Starts.{starts_before, after_start};
ghost use Rattle.std.specs.Arc.{arc_value};
ghost use Rattle.p8_crew.specs.Jobs.{ComesBack};
ghost use Rattle.p8_desk.specs.Passes.{Owns};
ghost use Rattle.p8_io.specs.Counts.{raised};

use crate::job::CogJob;
use crate::starter::{Starter, Worker};
use p8_desk::CogPass;
use std::sync::Wait;

/// A worker that does its job by `CogJob::run`.
#[derive(Clone, Copy, Debug)]
pub struct PlainWorker;

impl Worker for PlainWorker {
    fn work<R: Wait>(self, rt: &R, job: CogJob) -> CogPass {
        job.run(rt)
    }
}

/// The starter of the program: each job is done by `CogJob::run`, and a start is refused where no thread can be made.
#[derive(Drop)]
pub struct ThreadStarter {
    refused: u64,
}

impl ThreadStarter {
    /// A starter that has refused nothing.
    pub fn new() -> ThreadStarter
        ensures { result.refused ≡ 0 }
    {
        ThreadStarter { refused: 0 }
    }
}

impl Starter for ThreadStarter {
    type Worker = PlainWorker;

    ghost refused = { λ starter. starter.refused };

    ghost may_refuse = { λ starter. ⊥ };

    fn worker(&mut self, _cog: u8) -> Option<PlainWorker> {
        Some(PlainWorker)
    }

    fn refuse(&mut self) {
        self.refused = self.refused.saturating_add(1);
    }
}

/// A starter that refuses one start of another starter's, and passes on all others.
#[derive(Drop)]
pub struct FailStarter<F> {
    pub inner: F,
    /// How many starts there are before the one to be refused; none where that was refused already, or never comes.
    pub before: Option<u64>,
}

impl<F: Starter> FailStarter<F> {
    /// Refuses the start with the number `call`, counted from 1. It takes no memory.
    pub fn new(inner: F, call: u64) -> FailStarter<F>
        ensures inner { result.inner ≡ inner }
        ensures before { result.before ≡ starts_before call }
    {
        FailStarter {
            inner,
            before: call.checked_sub(1),
        }
    }
}

impl<F: Starter> Starter for FailStarter<F> {
    type Worker = F::Worker;

    ghost use Rattle.std.specs.Prelude.{◌≡◌, ◌⊎◌, Some};

    ghost refused = { λ starter. F.refused starter.inner };

    ghost may_refuse = { λ starter. (starter.before ≡ Some 0) ⊎ F.may_refuse starter.inner };

    /// None where the start is the one to be refused, and else what the other starter gives.
    fn worker(&mut self, cog: u8) -> Option<F::Worker>
        ensures given { OnSome result (F.refused self.new.inner ≡ F.refused self.old.inner) }
        ensures none { IfNone result (F.refused self.new.inner ≡ raised (F.refused self.old.inner)) }
        ensures may { IfNone result ((self.old.before ≡ Some 0) ⊎ F.may_refuse self.old.inner) }
        ensures refuses { IfSome result (λ worker. self.old.before ≢ Some 0) }
        ensures before { self.new.before ≡ after_start self.old.before }
    {
        match self.before {
            Some(0) => {
                self.before = None;
                self.inner.refuse();
                None
            }
            Some(before) => {
                self.before = Some(before - 1);
                self.inner.worker(cog)
            }
            None => self.inner.worker(cog),
        }
    }

    fn refuse(&mut self) {
        self.inner.refuse();
    }
}
