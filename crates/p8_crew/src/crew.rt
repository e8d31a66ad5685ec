// A run by a crew.
ghost use Rattle.std.specs.Prelude.{◌≡◌, ◌≤◌, if◌then◌else◌, List, Option, length, reverse, ◌++◌, IfOk, OnErr, MatchBool};
ghost use Rattle.std.specs.Arc.{arc_value};
ghost use Rattle.p8_access.specs.declared.order.Turn.{Turn};
ghost use Rattle.p8_crew.specs.Crews.{AreJobs, AreThere};
ghost use Rattle.p8_crew.specs.Ends.{IsCrew};
ghost use Rattle.p8_desk.specs.Closing.{Closed};
ghost use Rattle.p8_desk.specs.PassSets.{AllThere};
ghost use Rattle.p8_desk.specs.Passes.{PassValue};
ghost use Rattle.p8_access.specs.Histories.{Legal, Rises, Ended as HasEnded};
ghost use Rattle.p8_hub.specs.Standing.{IsHub};
ghost use Rattle.p8_io.specs.Counts.{raised};
ghost use Rattle.p8_cog.specs.Lives.{asks};
ghost use Rattle.p8_ledger.specs.Worlds.{world_of};

use crate::job::CogJob;
use crate::jobs::Crew;
use crate::starter::Starter;
use crate::ticket::start;
use p8_desk::{Desk, Passes, drive_all};
use p8_ledger::Ended;
use p8_words::NoMemory;
use std::alloc::Global;
use std::sync::Wait;
use std::thread::Threads;

impl Crew {
    /// Starts the jobs, the last one first, and opens the gate once all are started; where a start is refused no job
    /// goes through the gate. Then it joins what was started. Answers whether all were.
    ///
    /// Each call starts one job, lets a call for the others start and join those, and joins its own.
    fn run<R: Threads + Wait + Clone + Send + Drop + 'static, F: Starter>(
        &mut self,
        rt: &R,
        starter: &mut F,
        jobs: Vec<CogJob>,
    ) -> bool
        requires jobs { AreJobs (arc_value self.old.desk) 0 jobs.items × (length jobs.items ≤ 8) }
        requires out { AreThere (arc_value self.old.desk) 0 0 self.old.passes }
        ensures desk { arc_value self.new.desk ≡ arc_value self.old.desk }
        ensures there { AreThere (arc_value self.old.desk) 0 (length jobs.items) self.new.passes }
        ensures count { MatchBool result (F.refused starter.new ≡ F.refused starter.old) (F.refused starter.new ≡ raised (F.refused starter.old)) }
    {
        let mut jobs = jobs;
        let Some(job) = jobs.pop() else {
            self.gate.open(rt);
            return true;
        };
        match start(rt, starter, job) {
            Ok(ticket) => {
                let all = self.run(rt, starter, jobs);
                self.put(ticket.join(rt));
                all
            }
            Err(pass) => {
                self.put_all(jobs);
                self.put(pass);
                false
            }
        }
    }

    /// Ends what is left of the run, and closes the desk.
    fn end(self) -> Ended
        requires { AllThere (arc_value self.desk) self.passes }
        ensures { (places : List (Option PassValue)) × Closed (arc_value self.desk).world places result }
    {
        let Crew {
            desk,
            gate: _,
            mut passes,
        } = self;
        drive_all(&desk, &mut passes);
        desk.close(passes)
    }
}

/// How many made the turns: eight where all were started, and else the caller.
fn crew_of(all_started: bool) -> u8
    ensures { result ≡ (if all_started then 8 else 1) }
{
    if all_started { 8 } else { 1 }
}

/// The whole history of a desk, made by eight threads. All passes are there, and none of them is used elsewhere. It may
/// wait for the threads.
///
/// All memory is taken before the gate opens, at which the started jobs wait. Where a start is refused the gate is called
/// off before any turn, and this thread drives all eight cogs. In each case the started jobs are joined, what is left of
/// the run is ended by `drive_all`, and the desk is closed. `crew` is 8, or 1 where a start was refused.
///
/// # Errors
///
/// `NoMemory` comes before any job is given away, and no turn was made then.
pub fn run_crew<R: Threads + Wait + Clone + Send + Drop + 'static, F: Starter>(
    rt: &R,
    alloc: Global,
    starter: &mut F,
    desk: Desk,
    passes: Passes,
) -> Result<Ended, NoMemory>
    requires { AllThere desk passes }
    ensures world { IfOk result (λ ended. world_of ended.history.boot desk.world.script ended.history.limits ≡ desk.world) }
    ensures ended { IfOk result (λ ended. HasEnded asks desk.world (reverse ended.history.turns.list)) }
    ensures hub { IfOk result (λ ended. IsHub desk.world (reverse ended.history.turns.list) ended.hub) }

    // The world has no other ended history, each legal past is a part of it, and its keys rise.
    ensures only { IfOk result (λ ended. (past : List Turn) → HasEnded asks desk.world past → past ≡ reverse ended.history.turns.list) }
    ensures begins_each { IfOk result (λ ended. (past : List Turn) → Legal asks desk.world past →
        (more : List Turn) × (more ++ past ≡ reverse ended.history.turns.list)) }
    ensures rises { IfOk result (λ ended. Rises (reverse ended.history.turns.list)) }

    ensures crew { IfOk result (λ ended. IsCrew (F.refused starter.old) (F.refused starter.new) ended.crew) }
    ensures memory { OnErr result (starter.new ≡ starter.old) }
{
    let mut crew = Crew::new(alloc, desk, passes)?;
    let jobs = crew.jobs(alloc)?;
    let all_started = crew.run(rt, starter, jobs);
    let mut ended = crew.end();
    ended.crew = crew_of(all_started);
    Ok(ended)
}
