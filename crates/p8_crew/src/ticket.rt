// The start of one job.
ghost use Rattle.std.specs.Prelude.{◌≡◌, IfOk, IfErr, OnOk, OnErr};
ghost use Rattle.std.specs.Arc.{arc_value};
ghost use Rattle.p8_crew.specs.Jobs.{ComesBack};
ghost use Rattle.p8_desk.specs.Passes.{Owns};
ghost use Rattle.p8_io.specs.Counts.{raised};

use crate::gate::Gate;
use crate::job::CogJob;
use crate::starter::{Starter, Worker};
use p8_desk::CogPass;
use std::marker::Model;
use std::snapshot::Snapshot;
use std::sync::{Arc, Wait};
use std::thread::{Promise, PromisedHandle, Threads, spawn_with};

/// The pass with which a job was started, which the pass that comes back is compared with.
#[derive(Drop)]
struct Given(Snapshot<CogPass>);

impl Promise<CogPass> for Given {
    ghost kept_by = { λ given back. ComesBack given.0.value back };
}

/// A job that was started. Contracts see it as the pass that the job had.
#[derive(Drop)]
pub struct Ticket {
    thread: PromisedHandle<CogPass, Given>,
}

impl Model for Ticket {
    ghost use Rattle.p8_desk.specs.Passes.{PassValue};

    ghost Value = { PassValue };

    ghost view = { λ t. t.thread.promise.0.value };
}

impl Ticket {
    /// The pass that the job gives, once it is done: of the same cog and desk, and over or as it was.
    pub fn join<R: Threads>(self, rt: &R) -> CogPass
        ensures { ComesBack self result }
    {
        self.thread.join(rt)
    }
}

/// The pass of a job that isn't started. Its gate is called off.
fn give_up<R: Wait>(rt: &R, job: CogJob) -> CogPass
    ensures { result ≡ job.pass }
{
    job.gate.call_off(rt);
    job.pass
}

/// Lets a worker do a job, with a handle of its own.
fn work<R: Wait + Drop, W: Worker>(own: R, worker: W, job: CogJob) -> CogPass
    requires { Owns (arc_value job.desk) job.pass }
    ensures { ComesBack job.pass result }
{
    worker.work(&own, job)
}

/// Starts a worker on a job, with a handle of its own. Where no thread can be made the gate, which is the job's, is
/// called off, and the worker is called here: a closure that no thread took can be called and not taken apart.
fn start_worker<
    R: Threads + Wait + Clone + Send + Drop + 'static,
    W: Worker + Send + Drop + 'static,
>(rt: &R, own: R, worker: W, gate: &Gate, job: CogJob) -> Result<Ticket, CogPass>
    requires { Owns (arc_value job.desk) job.pass }
    ensures started { IfOk result (λ ticket. ticket ≡ job.pass) }
    ensures back { IfErr result (λ pass. ComesBack job.pass pass) }
{
    let given = Given(Snapshot::of(&job.pass));
    let working = move || -> CogPass
        requires { Owns (arc_value job.desk) job.pass }
        ensures { ComesBack job.pass result }
    { work(own, worker, job) };
    match spawn_with(rt, given, working) {
        Ok(thread) => Ok(Ticket { thread }),
        Err(refused) => {
            gate.call_off(rt);
            Err((refused.value)())
        }
    }
}

/// Starts a job: its worker does it in a thread of its own.
///
/// # Errors
///
/// Where the start is refused the job's gate is called off and its pass given back, of the same cog and desk, and over or
/// as it was. The starter's count of refused starts is one step on then.
pub fn start<R: Threads + Wait + Clone + Send + Drop + 'static, F: Starter>(
    rt: &R,
    starter: &mut F,
    job: CogJob,
) -> Result<Ticket, CogPass>
    requires { Owns (arc_value job.desk) job.pass }
    ensures started { IfOk result (λ ticket. ticket ≡ job.pass) }
    ensures back { IfErr result (λ pass. ComesBack job.pass pass) }
    ensures counted { OnOk result (F.refused starter.new ≡ F.refused starter.old) }
    ensures refused { OnErr result (F.refused starter.new ≡ raised (F.refused starter.old)) }
{
    let Some(worker) = starter.worker(job.pass.cog()) else {
        return Err(give_up(rt, job));
    };
    let Ok(own) = rt.clone() else {
        starter.refuse();
        return Err(give_up(rt, job));
    };
    let Ok(gate) = Arc::try_clone(&job.gate) else {
        starter.refuse();
        return Err(give_up(rt, job));
    };
    match start_worker(rt, own, worker, &gate, job) {
        Ok(ticket) => Ok(ticket),
        Err(pass) => {
            starter.refuse();
            Err(pass)
        }
    }
}
