// The passes of a crew, and its jobs.
ghost use Rattle.std.specs.Prelude.{◌≡◌, ◌+◌, ◌<◌, ◌≤◌, Some, None, length, slice_get, slice_set, IfOk, OnOk};
ghost use Rattle.std.specs.Arc.{arc_value};
ghost use Rattle.p8_crew.specs.Crews.{AreJobs, IsJob, AreThere};
ghost use Rattle.p8_desk.specs.PassSets.{AllThere, IsOut};
ghost use Rattle.p8_desk.specs.Passes.{Owns, PassValue};

use crate::gate::Gate;
use crate::job::CogJob;
use p8_desk::{CogPass, Desk, Passes};
use p8_words::NoMemory;
use std::alloc::Global;
use std::sync::Arc;

/// A desk with its passes, and the gate of their jobs.
#[derive(Drop)]
pub struct Crew {
    pub desk: Arc<Desk, Global>,
    pub gate: Arc<Gate, Global>,
    pub passes: Passes,
}

/// The pass of a cog, which is there.
fn take(passes: &mut Passes, cog: u8) -> CogPass
    requires { (cog < 8) × (pass : PassValue) × (slice_get passes.old cog ≡ Some (Some pass)) }
    ensures taken { slice_get passes.old cog ≡ Some (Some result) }
    ensures left { passes.new ≡ slice_set passes.old cog None }
{
    match passes.take(cog) {
        Some(pass) => pass,
        None => unreachable!(),
    }
}

/// Puts a pass back into its place, which is empty.
fn put(passes: &mut Passes, pass: CogPass)
    requires { IsOut pass.cog passes.old }
    ensures { passes.new ≡ slice_set passes.old pass.cog (Some pass) }
{
    match passes.put(pass) {
        Ok(()) => {}
        Err(_) => unreachable!(),
    }
}

impl Crew {
    /// A crew of a desk. Its gate isn't decided.
    pub fn new(alloc: Global, desk: Desk, passes: Passes) -> Result<Crew, NoMemory>
        ensures desk { IfOk result (λ crew. arc_value crew.desk ≡ desk) }
        ensures passes { IfOk result (λ crew. crew.passes ≡ passes) }
    {
        let Ok(desk) = Arc::new(alloc, desk) else {
            return Err(NoMemory);
        };
        let Ok(gate) = Arc::new(alloc, Gate::new()) else {
            return Err(NoMemory);
        };
        Ok(Crew { desk, gate, passes })
    }

    /// The job of a cog, whose pass is there.
    fn job(&mut self, cog: u8) -> Result<CogJob, NoMemory>
        requires there { AreThere (arc_value self.old.desk) cog 8 self.old.passes }
        requires near { cog < 8 }
        ensures desk { arc_value self.new.desk ≡ arc_value self.old.desk }
        ensures job { IfOk result (IsJob (arc_value self.old.desk) cog) }
        ensures left { OnOk result (AreThere (arc_value self.old.desk) (cog + 1) 8 self.new.passes) }
    {
        let desk = Arc::try_clone(&self.desk)?;
        let gate = Arc::try_clone(&self.gate)?;
        let pass = take(&mut self.passes, cog);
        Ok(CogJob { desk, pass, gate })
    }

    /// The jobs of all cogs. All memory that they need is taken here.
    pub fn jobs(&mut self, alloc: Global) -> Result<Vec<CogJob>, NoMemory>
        requires { AllThere (arc_value self.old.desk) self.old.passes }
        ensures desk { arc_value self.new.desk ≡ arc_value self.old.desk }
        ensures jobs { IfOk result (λ jobs. AreJobs (arc_value self.old.desk) 0 jobs.items × (length jobs.items ≡ 8)) }
        ensures left { OnOk result (AreThere (arc_value self.old.desk) 0 0 self.new.passes) }
    {
        let mut jobs = Vec::with_capacity(alloc, 8)?;
        for cog in 0..8u8 {
            let job = self.job(cog)?;
            match jobs.push(job) {
                Ok(()) => {}
                Err(_) => return Err(NoMemory),
            }
        }
        Ok(jobs)
    }

    /// Puts the pass of the cog `cog` back, where those of the cogs below are there and no others.
    pub fn put(&mut self, pass: CogPass)
        requires there { AreThere (arc_value self.old.desk) 0 pass.cog self.old.passes }
        requires pass { Owns (arc_value self.old.desk) pass × (pass.cog < 8) }
        ensures desk { arc_value self.new.desk ≡ arc_value self.old.desk }
        ensures there { AreThere (arc_value self.old.desk) 0 (pass.cog + 1) self.new.passes }
    {
        put(&mut self.passes, pass);
    }

    /// Puts the passes of jobs back that weren't started.
    pub fn put_all(&mut self, jobs: Vec<CogJob>)
        requires jobs { AreJobs (arc_value self.old.desk) 0 jobs.items × (length jobs.items ≤ 8) }
        requires out { AreThere (arc_value self.old.desk) 0 0 self.old.passes }
        ensures desk { arc_value self.new.desk ≡ arc_value self.old.desk }
        ensures there { AreThere (arc_value self.old.desk) 0 (length jobs.items) self.new.passes }
    {
        let mut jobs = jobs;
        let Some(job) = jobs.pop() else {
            return;
        };
        self.put_all(jobs);
        self.put(job.pass);
    }
}
