// The fronts of the eight cogs: before its front no turn of a cog comes, by its state and by what it has said.
ghost use Rattle.std.specs.Prelude.{◌≡◌, ◌<◌, ◌∷◌, [], ◌^◌, ℕ, List, Option, Some, replicate, slice_get, slice_index};
ghost use Rattle.p8_access.specs.declared.kinds.Origin.{Origin};
ghost use Rattle.p8_access.specs.declared.lives.Next.{Next};
ghost use Rattle.p8_access.specs.declared.order.Turn.{Turn};
ghost use Rattle.p8_access.specs.Proper.{IsProper, Fits};
ghost use Rattle.p8_access.specs.declared.states.CogState.TheVariants.{Starting};
ghost use Rattle.p8_access.specs.Worlds.{World};
ghost use Rattle.p8_access.specs.Hub.{cog_state};
ghost use Rattle.p8_hub.specs.Standing.{IsHub};
ghost use Rattle.p8_ledger.specs.Fronts.{IsFirstOf, IsFront, IsSaidFront, IsFrontIn};

use crate::changes::changed_cog;
use crate::due::start_clock;
use crate::waits::test_of;
use p8_access::{CogState, Key, Next, Test, Turn};
use p8_hub::Hub;

/// The front of a cog of which no turn comes.
pub const NEVER: u64 = u64::MAX;

/// The least of the eight cogs' clocks, and whose it is: the lowest cog's, where several have it.
#[inline]
pub fn first_front(clocks: &[u64; 8]) -> Key
    ensures { IsFirstOf clocks.now result }
{
    let mut clock = clocks[0];
    let mut cog = 0;
    for other in 1..8 {
        let front = clocks[other as usize];
        if front < clock {
            clock = front;
            cog = other;
        }
    }
    Key { clock, cog }
}

/// A cog's front, or where it waits for a test the clock from which the wait may end.
#[derive(Clone, Copy)]
pub struct Front {
    pub clock: u64,
    pub test: Option<Test>,
}

/// No turn comes.
const SILENT: Front = Front {
    clock: NEVER,
    test: None,
};

/// The front of a cog that is starting.
#[inline]
fn starting_front(cog: u8, since: u64, until: u64) -> Front
    requires cog { cog < 8 }
    requires until { until < 2 ^ 61 }
    ensures { (origin : Origin) (said : Next) → IsFront cog until (Starting since origin) said result.clock result.test }
{
    match start_clock(cog, since, until) {
        None => SILENT,
        Some(clock) => Front { clock, test: None },
    }
}

/// The front of a running cog that has said this last.
#[inline]
fn said_front(said: Next, until: u64) -> Front
    requires { until < 2 ^ 61 }
    ensures { IsSaidFront until said result.clock result.test }
{
    match said {
        Next::At { clock, access } => Front {
            clock,
            test: test_of(access),
        },
        Next::Quiet => SILENT,
        Next::More { bound } => Front {
            clock: bound,
            test: None,
        },
    }
}

/// The front of a cog.
#[inline]
pub fn front_of(cog: u8, state: CogState, said: Next, until: u64) -> Front
    requires cog { cog < 8 }
    requires until { until < 2 ^ 61 }
    ensures { IsFront cog until state said result.clock result.test }
{
    match state {
        CogState::Stopped => SILENT,
        CogState::Starting { since, .. } => starting_front(cog, since, until),
        CogState::Running { .. } => said_front(said, until),
    }
}

/// The clocks of the eight cogs' fronts, each renewed where its cog has changed or says something.
#[derive(Clone, Copy)]
pub struct Fronts {
    pub clocks: [u64; 8],
}

impl Fronts {
    /// No turn comes of any cog.
    fn silent() -> Fronts
        ensures { result.clocks ≡ replicate 8 NEVER }
    {
        Fronts { clocks: [NEVER; 8] }
    }

    /// The fronts before the first turn, when the cogs have said this.
    pub fn open(hub: &Hub, sayings: &[Next; 8], until: u64) -> Fronts
        requires { until < 2 ^ 61 }
        ensures { (w : World) (n : ℕ) (said : Next) → IsHub w [] hub.now → n < 8 → slice_get sayings.now n ≡ Some said →
            IsFrontIn result n until (cog_state w [] n) said }
    {
        let mut fronts = Fronts::silent();
        fronts.renew(hub, sayings, 0, until);
        fronts
    }

    /// Renews the front of a cog.
    #[inline]
    pub fn renew(&mut self, hub: &Hub, sayings: &[Next; 8], cog: u8, until: u64)
        requires cog { cog < 8 }
        requires until { until < 2 ^ 61 }
        ensures own { (w : World) (past : List Turn) (said : Next) → IsHub w past hub.now → slice_get sayings.now cog ≡ Some said →
            IsFrontIn self.new cog until (cog_state w past cog) said }
        ensures others { (n : ℕ) → (n ≡ cog → ⊥) → slice_index self.new.clocks n ≡ slice_index self.old.clocks n }
    {
        let front = front_of(cog, hub.state(cog), sayings[cog as usize], until);
        self.put(cog, front.clock);
    }

    /// Notes the front of a running cog that says this.
    #[inline]
    pub fn say(&mut self, cog: u8, said: Next, until: u64)
        requires cog { cog < 8 }
        requires until { until < 2 ^ 61 }
        ensures own { (test : Option Test) × IsSaidFront until said (slice_index self.new.clocks cog) test }
        ensures others { (n : ℕ) → (n ≡ cog → ⊥) → slice_index self.new.clocks n ≡ slice_index self.old.clocks n }
    {
        let front = said_front(said, until);
        self.put(cog, front.clock);
    }

    /// Notes the front of a cog.
    #[inline(always)]
    pub fn put(&mut self, cog: u8, clock: u64)
        requires { cog < 8 }
        ensures own { slice_index self.new.clocks cog ≡ clock }
        ensures others { (n : ℕ) → (n ≡ cog → ⊥) → slice_index self.new.clocks n ≡ slice_index self.old.clocks n }
    {
        self.clocks[cog as usize] = clock;
    }

    /// Renews the fronts of the cogs that a turn has changed. The hub has answered the turn, and its own cog's
    /// saying is taken back.
    #[inline]
    pub fn settle(&mut self, hub: &Hub, sayings: &[Next; 8], turn: &Turn, until: u64)
        requires cog { turn.now.key.cog < 8 }
        requires proper { IsProper turn.now.access }
        requires fits { Fits turn.now.access turn.now.answer }
        requires until { until < 2 ^ 61 }
        ensures fronts { (w : World) (past : List Turn) (n : ℕ) (said : Next) → IsHub w (turn.now ∷ past) hub.now →
            slice_get sayings.now n ≡ Some said → ((n ≡ turn.now.key.cog → ⊥) → IsFrontIn self.old n until (cog_state w past n) said) →
            IsFrontIn self.new n until (cog_state w (turn.now ∷ past) n) said }
    {
        self.renew(hub, sayings, turn.key.cog, until);
        if let Some(other) = changed_cog(turn) {
            self.renew(hub, sayings, other, until);
        }
    }
}
