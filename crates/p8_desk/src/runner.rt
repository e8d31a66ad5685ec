// The life of a cog, with what it has found of its next access.
ghost use Rattle.std.specs.Prelude.{◌≡◌, ◌<◌, ◌^◌, ◌∷◌, ◌++◌, [], ℕ, List, true, false, IfOk};
ghost use Rattle.p8_access.specs.declared.kinds.Origin.{Origin};
ghost use Rattle.p8_access.specs.declared.order.Turn.{Turn};
ghost use Rattle.p8_access.specs.Lives.{Begun, IsAnnounced};
ghost use Rattle.p8_access.specs.Proper.{Fits};
ghost use Rattle.p8_access.specs.Windows.{IsWindow};
ghost use Rattle.p8_access.specs.declared.states.CogState.TheVariants.{Running};
ghost use Rattle.p8_access.specs.Worlds.{World};
ghost use Rattle.p8_cog.specs.Lives.{begun_by, IsStartable};
ghost use Rattle.p8_ledger.specs.declared.steps.Step.TheVariants.{Took, Said};
ghost use Rattle.p8_ledger.specs.Records.{Record};
ghost use Rattle.p8_desk.specs.Runners.{Rides, Comes, HasFound, HasTaken};

use p8_access::{CogState, Life, Next, Ram, Turn};
use p8_cog::CogLife;
use p8_region::Strip;
use p8_words::NoMemory;
use std::alloc::Global;

/// How many instructions or bytecodes a life does at most before its cog says how far it has come.
const BUDGET: u32 = 1024;

/// The life of a cog, and what it has found last of its next access.
#[derive(Drop)]
pub struct Runner {
    pub life: CogLife,
    pub next: Next,
    /// Whether `next` is what the cog has said last.
    pub said: bool,
}

/// A life takes a turn of its cog, which was running before it; or a new life begins with it, where the cog was
/// starting and runs since.
fn take_turn(life: &mut CogLife, memory: &Ram, state: CogState, turn: &Turn, running: bool)
    requires announced { running ≡ true → IsAnnounced (⟦<CogLife as Life>⟧.announced life.old) turn.now }
    requires own { ⟦<CogLife as Life>⟧.cog life.old ≡ turn.now.key.cog }
    requires near { turn.now.key.cog < 8 }
    requires clock { turn.now.key.clock < 2 ^ 61 }
    requires fits { Fits turn.now.access turn.now.answer }
    requires startable { (origin : Origin) → running ≡ false → state ≡ Running origin → IsStartable origin × IsWindow turn.now.key.cog turn.now.key.clock }
    ensures cog { ⟦<CogLife as Life>⟧.cog life.new ≡ turn.now.key.cog }
    ensures takes { (b : Begun) (ts : List Turn) → running ≡ true → ⟦<CogLife as Life>⟧.stands life.old b ts →
        ⟦<CogLife as Life>⟧.stands life.new b (ts ++ turn.now ∷ []) }
    ensures begins { (origin : Origin) → running ≡ false → state ≡ Running origin →
        ⟦<CogLife as Life>⟧.stands life.new (begun_by memory.now origin turn.now.key.cog turn.now.key.clock) [] }
    ensures answered { running ≡ true → HasTaken (⟦<CogLife as Life>⟧.announced life.new) (⟦<CogLife as Life>⟧.reached life.new)
        (⟦<CogLife as Life>⟧.lead life.old) turn.now }
    ensures anew { (origin : Origin) → running ≡ false → state ≡ Running origin →
        HasTaken (⟦<CogLife as Life>⟧.announced life.new) (⟦<CogLife as Life>⟧.reached life.new) (⟦<CogLife as Life>⟧.lead life.new) turn.now }
{
    if running {
        life.take_answer(turn);
        return;
    }
    if let CogState::Running { origin } = state {
        life.restart(memory, origin, turn.key.cog, turn.key.clock);
    }
}

impl Runner {
    /// The runner of a cog in which nothing has begun. `stack` is to be its operand stack, with room for 16,384
    /// longs; `memory` is the boot's.
    pub fn new(alloc: Global, memory: &Ram, stack: Strip<u32>, cog: u8) -> Result<Runner, NoMemory>
        requires cog { cog < 8 }
        requires stack { stack.room ≡ 16384 }
        ensures { IfOk result (λ runner. (w : World) → Rides w cog [] runner) }
    {
        Ok(Runner {
            life: CogLife::new(alloc, memory, stack, cog)?,
            next: Next::More { bound: 0 },
            said: true,
        })
    }

    /// Runs the life on, up to its next access below the clock `until` or for as long as its budget lasts. It doesn't
    /// run while there is something unsaid, or where the cog has said its next access or that none comes.
    pub fn find(&mut self, until: u64)
        requires { until < 2 ^ 62 }
        ensures rides { (w : World) (n : ℕ) (r : Record) → w.clocks ≡ until → Rides w n r self.old → Rides w n r self.new }
        ensures found { HasFound self.new }
    {
        if !self.said {
            return;
        }
        let Next::More { .. } = self.next else {
            return;
        };
        self.next = self.life.run_to_access(until, BUDGET);
        self.said = false;
    }

    /// Whether the life can run on: what it has found is a promise, which its cog has said.
    pub fn can_run_on(&self) -> bool {
        match self.next {
            Next::More { .. } => self.said,
            _ => false,
        }
    }

    /// What the life has found, which its cog says now.
    pub fn say(&mut self) -> Next
        ensures next { result ≡ self.old.next }
        ensures rides { (w : World) (n : ℕ) (r : Record) → Rides w n r self.old → Rides w n (Said n self.old.next ∷ r) self.new }
    {
        self.said = true;
        self.next
    }

    /// The life takes a turn of its cog, which has this state after it. Where the cog was starting a new life begins
    /// with it; the code of Spin stands in `memory`, the boot's.
    pub fn take(&mut self, memory: &Ram, state: CogState, turn: &Turn, running: bool)
        requires comes { (w : World) × (r : Record) × Comes w r self.old memory.now state turn.now running }
        requires near { turn.now.key.cog < 8 }
        requires clock { turn.now.key.clock < 2 ^ 61 }
        requires fits { Fits turn.now.access turn.now.answer }
        ensures { (w : World) (r : Record) → Comes w r self.old memory.now state turn.now running → Rides w turn.now.key.cog (Took turn.now ∷ r) self.new }
    {
        take_turn(&mut self.life, memory, state, turn, running);
        self.next = Next::More {
            bound: turn.key.clock + 1,
        };
        self.said = true;
    }
}
