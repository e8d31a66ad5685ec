// A starter whose workers tell what they saw.
use p8_crew::{CogJob, Starter, Worker};
use p8_desk::CogPass;
use std::alloc::Global;
use std::sync::atomic::{AtomicU64, Ordering};
use std::sync::{Arc, Wait};

/// What the workers of a crew have seen.
#[derive(Drop)]
pub struct Seen {
    /// How many of them began with a pass that wasn't over and had made no turn.
    begun: AtomicU64,
    /// How many of them ended with a pass that was over.
    ended: AtomicU64,
}

impl Seen {
    /// Nothing yet.
    pub fn new() -> Seen {
        Seen {
            begun: AtomicU64::new(0),
            ended: AtomicU64::new(0),
        }
    }

    /// Whether so many began with an untouched pass, and so many ended with one that was over.
    pub fn has_counted(&self, begun: u64, ended: u64) -> bool {
        self.begun.load(Ordering::SeqCst) == begun && self.ended.load(Ordering::SeqCst) == ended
    }
}

/// A worker that does its job by `CogJob::run` and looks at the pass before and after it.
#[derive(Drop)]
pub struct Watcher {
    seen: Arc<Seen, Global>,
}

impl Worker for Watcher {
    fn work<R: Wait>(self, rt: &R, job: CogJob) -> CogPass {
        if job.pass.count() == 0 && !job.pass.over() {
            self.seen.begun.fetch_add(1, Ordering::SeqCst);
        }
        let pass = job.run(rt);
        if pass.over() {
            self.seen.ended.fetch_add(1, Ordering::SeqCst);
        }
        pass
    }
}

/// A starter that gives such workers.
#[derive(Drop)]
pub struct WatchingStarter {
    seen: Arc<Seen, Global>,
    refused: u64,
}

impl WatchingStarter {
    /// A starter whose workers tell these what they see.
    pub fn new(seen: Arc<Seen, Global>) -> WatchingStarter {
        WatchingStarter { seen, refused: 0 }
    }
}

impl Starter for WatchingStarter {
    type Worker = Watcher;

    ghost refused = { λ starter. starter.refused };

    // The count of those that share what is seen may have come to its end.
    ghost may_refuse = { λ starter. Unit {0} };

    fn worker(&mut self, _cog: u8) -> Option<Watcher> {
        match Arc::try_clone(&self.seen) {
            Ok(seen) => Some(Watcher { seen }),
            Err(_) => {
                self.refused = self.refused.saturating_add(1);
                None
            }
        }
    }

    fn refuse(&mut self) {
        self.refused = self.refused.saturating_add(1);
    }
}
