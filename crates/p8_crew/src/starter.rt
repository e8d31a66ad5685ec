// Who does the jobs of a crew.
ghost use Rattle.std.specs.Prelude.{◌≡◌, OnSome, IfNone};
ghost use Rattle.std.specs.Arc.{arc_value};
ghost use Rattle.p8_crew.specs.Jobs.{ComesBack};
ghost use Rattle.p8_desk.specs.Passes.{Owns};
ghost use Rattle.p8_io.specs.Counts.{raised};

use crate::job::CogJob;
use p8_desk::CogPass;
use std::sync::Wait;

/// What does one job, in a thread that was started for it.
pub trait Worker {
    /// Does the job, as `CogJob::run` or in a way of its own. It may wait. The pass that it gives is of the job's cog and
    /// desk, and is over or as it was.
    fn work<R: Wait>(self, rt: &R, job: CogJob) -> CogPass
        requires { Owns (arc_value job.desk) job.pass }
        ensures { ComesBack job.pass result };
}

/// What gives the jobs of a crew their workers, and counts the starts that were refused.
///
/// The count goes up by one at a time, and stands still at 2^64 - 1.
pub trait Starter {
    ghost use Rattle.std.specs.Prelude.{ℕ};

    type Worker: Worker + Send + Drop + 'static;

    ghost refused: { Self → ℕ };

    // Whether the next start may be refused for want of a worker.
    ghost may_refuse: { Self → Type 0 };

    /// The worker for the job of a cog; none where its start is refused, which is counted then.
    fn worker(&mut self, cog: u8) -> Option<Self::Worker>
        ensures given { OnSome result (refused self.new ≡ refused self.old) }
        ensures none { IfNone result (refused self.new ≡ raised (refused self.old)) }
        ensures may { IfNone result (may_refuse self.old) };

    /// Counts a start for which no thread could be made.
    fn refuse(&mut self)
        ensures { refused self.new ≡ raised (refused self.old) };
}
