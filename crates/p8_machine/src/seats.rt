// The lives of the eight cogs.
ghost use Rattle.std.specs.Prelude.{◌≡◌, ◌<◌, ◌≤◌, ◌+◌, ◌*◌, ◌^◌, ◌++◌, ◌∷◌, [], OnOk, ℕ, List, true, false, None, Some, length, IsTrue, ◌↔◌, IfOk, slice_get};
ghost use Rattle.p8_access.specs.declared.order.Turn.{Turn};
ghost use Rattle.p8_access.specs.Lives.{Begun, Tells, IsAnnounced, IsMadeNext, announced_by};
ghost use Rattle.p8_access.specs.Proper.{Fits};
ghost use Rattle.p8_access.specs.Windows.{IsWindow};
ghost use Rattle.p8_cog.specs.declared.cog_life.CogLife.{CogLife};
ghost use Rattle.p8_cog.specs.Lives.{asks, begun_by, IsStartable};
ghost use Rattle.p8_cog.specs.WholeLives.{cog_of};
ghost use Rattle.p8_machine.specs.Places.{IsSpoken, SameBut, HasAnnounced, Begins, Counts, Takes};
ghost use Rattle.p8_cog.specs.WholeLives.{announced_in};

use p8_access::{Key, Life, Next, Origin, Ram, Turn};
use p8_cog::CogLife;
use p8_ledger::{LAST_CODE, stack_in};
use p8_region::Region;
use p8_words::NoMemory;
use std::alloc::Global;

/// A life for each cog, in the order of their numbers. Its memory is taken before the run and serves one life after
/// another.
#[derive(Drop)]
pub struct Seats {
    pub lives: Vec<CogLife>,
    ghost eight: { length lives.items ≡ 8 },
    ghost own: { (n : ℕ) (life : CogLife) → slice_get lives.items n ≡ Some life → cog_of life ≡ n },
}

/// Places that nothing has begun in, one for each cog. Their operand stacks are cut from the region.
fn empty_seats(alloc: Global, memory: &Ram, region: &mut Region) -> Result<Vec<CogLife>, NoMemory>
    requires room { 8 * 16384 ≤ region.old }
    ensures left { OnOk result (region.new + 8 * 16384 ≡ region.old) }
    ensures length { IfOk result (λ lives. length lives.items ≡ 8) }
    ensures own { IfOk result (λ lives. (n : ℕ) (life : CogLife) → slice_get lives.items n ≡ Some life → cog_of life ≡ n) }
{
    let mut lives = Vec::with_capacity(alloc, 8)?;
    for cog in 0..8 {
        let stack = stack_in(region);
        match lives.push(CogLife::new(alloc, memory, stack, cog)?) {
            Ok(()) => {}
            Err(_) => return Err(NoMemory),
        }
    }
    Ok(lives)
}

/// Whether a life can begin with this origin, with a first turn that has this key.
fn may_begin(origin: Origin, key: Key) -> bool
    requires { key.cog < 8 }
    ensures { IsTrue result ↔ (IsStartable origin × IsWindow key.cog key.clock) }
{
    match origin {
        Origin::Pasm { code, .. } => {
            code % 4 == 0 && code <= LAST_CODE && key.clock % 16 == 2 * u64::from(key.cog)
        }
        Origin::Spin { frame, .. } => frame % 4 == 0 && key.clock % 16 == 2 * u64::from(key.cog),
    }
}

/// The next access of a life below a clock, or that there is none. It is never inlined, since most lives tell at once.
#[inline(never)]
fn later_of<L: Life>(life: &mut L, until: u64) -> Next
    requires { until < 2 ^ 61 }
    ensures keeps { (b : Begun) (ts : List Turn) → L.stands life.old b ts → L.stands life.new b ts }
    ensures tells { (b : Begun) (ts : List Turn) → L.stands life.old b ts → Tells (L.asked b ts) until result }
    ensures announced { L.announced life.new ≡ announced_by result }
    ensures made { IsMadeNext result }
    ensures spoken { IsSpoken result }
    ensures cog { L.cog life.new ≡ L.cog life.old }
{
    'asks: loop {
        let next = life.run_to_access(until, u32::MAX);
        match next {
            Next::At { .. } | Next::Quiet => return next,
            Next::More { .. } => {}
        }
    }
}

/// The same. A result that a call writes is cleared where the function begins that makes the call.
#[inline(always)]
fn told_later<L: Life>(life: &mut L, until: u64) -> Next
    requires { until < 2 ^ 61 }
    ensures keeps { (b : Begun) (ts : List Turn) → L.stands life.old b ts → L.stands life.new b ts }
    ensures tells { (b : Begun) (ts : List Turn) → L.stands life.old b ts → Tells (L.asked b ts) until result }
    ensures announced { L.announced life.new ≡ announced_by result }
    ensures made { IsMadeNext result }
    ensures spoken { IsSpoken result }
    ensures cog { L.cog life.new ≡ L.cog life.old }
{
    let next = later_of(life, until);
    next
}

/// The same.
#[inline(always)]
fn next_of<L: Life>(life: &mut L, until: u64) -> Next
    requires { until < 2 ^ 61 }
    ensures keeps { (b : Begun) (ts : List Turn) → L.stands life.old b ts → L.stands life.new b ts }
    ensures tells { (b : Begun) (ts : List Turn) → L.stands life.old b ts → Tells (L.asked b ts) until result }
    ensures announced { L.announced life.new ≡ announced_by result }
    ensures made { IsMadeNext result }
    ensures spoken { IsSpoken result }
    ensures cog { L.cog life.new ≡ L.cog life.old }
{
    let next = life.run_to_access(until, u32::MAX);
    match next {
        Next::At { .. } | Next::Quiet => next,
        Next::More { .. } => told_later(life, until),
    }
}

impl Seats {
    /// A life for each cog. All memory of the lives is taken here, the operand stacks of Spin from the region; `memory`
    /// is the boot's.
    pub fn new(alloc: Global, memory: &Ram, region: &mut Region) -> Result<Seats, NoMemory>
        requires room { 8 * 16384 ≤ region.old }
        ensures left { OnOk result (region.new + 8 * 16384 ≡ region.old) }
    {
        Ok(Seats {
            lives: empty_seats(alloc, memory, region)?,
        })
    }

    /// The counter of the access that a cog asks next, as [`CogLife::counter`] tells it, in a run that begins with `memory`. `None` where it asks
    /// none as a cog that runs, as before the turn with which a life begins.
    #[inline(always)]
    pub fn counter(&self, memory: &Ram, cog: u8, asking: bool) -> Option<u16>
        requires { cog < 8 }
        ensures counts { (life : CogLife) → asking ≡ true → slice_get self.now.lives.items cog ≡ Some life → Counts memory.now life result }
        ensures none { asking ≡ false → result ≡ None }
    {
        if asking {
            self.lives[usize::from(cog)].counter(memory)
        } else {
            None
        }
    }

    /// A life begins in a cog with its first turn, where one can begin with this origin, and tells its first access
    /// below the clock `until`.
    #[inline(always)]
    fn begin(&mut self, memory: &Ram, origin: Origin, key: Key, until: u64) -> Next
        requires cog { key.cog < 8 }
        requires clock { key.clock < 2 ^ 62 }
        requires until { until < 2 ^ 61 }
        ensures begins { (life : CogLife) → IsStartable origin → IsWindow key.cog key.clock → slice_get self.new.lives.items key.cog ≡ Some life →
            Begins asks life (begun_by memory.now origin key.cog key.clock) until result }
        ensures others { SameBut key.cog self.old.lives.items self.new.lives.items }
        ensures announced { (life : CogLife) → slice_get self.new.lives.items key.cog ≡ Some life → HasAnnounced life result }
        ensures made { IsMadeNext result }
    {
        if !may_begin(origin, key) {
            return Next::More { bound: 0 };
        }
        let life = &mut self.lives[key.cog as usize];
        life.restart(memory, origin, key.cog, key.clock);
        next_of(life, until)
    }

    /// The life of the turn's cog takes it, and tells its next access below the clock `until`.
    #[inline(always)]
    fn take(&mut self, turn: &Turn, until: u64) -> Next
        requires cog { turn.now.key.cog < 8 }
        requires next { (life : CogLife) → slice_get self.old.lives.items turn.now.key.cog ≡ Some life → IsAnnounced (announced_in life) turn.now }
        requires clock { turn.now.key.clock < 2 ^ 62 }
        requires fits { Fits turn.now.access turn.now.answer }
        requires until { until < 2 ^ 61 }
        ensures takes { (before after : CogLife) → slice_get self.old.lives.items turn.now.key.cog ≡ Some before →
            slice_get self.new.lives.items turn.now.key.cog ≡ Some after → Takes asks before after turn.now until result }
        ensures others { SameBut turn.now.key.cog self.old.lives.items self.new.lives.items }
        ensures announced { (life : CogLife) → slice_get self.new.lives.items turn.now.key.cog ≡ Some life → HasAnnounced life result }
        ensures made { IsMadeNext result }
    {
        let life = &mut self.lives[turn.key.cog as usize];
        life.take_answer(turn);
        next_of(life, until)
    }

    /// The life of the turn's cog, which runs after it, takes the turn; or where the cog was starting a life begins
    /// with it and this origin. It tells its next access below the clock `until`. The code of Spin stands in `memory`,
    /// the boot's.
    #[inline(always)]
    pub fn settle(
        &mut self,
        memory: &Ram,
        origin: Origin,
        turn: &Turn,
        running: bool,
        until: u64,
    ) -> Next
        requires cog { turn.now.key.cog < 8 }
        requires next { (life : CogLife) → running ≡ true → slice_get self.old.lives.items turn.now.key.cog ≡ Some life →
            IsAnnounced (announced_in life) turn.now }
        requires clock { turn.now.key.clock < 2 ^ 62 }
        requires fits { Fits turn.now.access turn.now.answer }
        requires until { until < 2 ^ 61 }
        ensures takes { (before after : CogLife) → running ≡ true → slice_get self.old.lives.items turn.now.key.cog ≡ Some before →
            slice_get self.new.lives.items turn.now.key.cog ≡ Some after → Takes asks before after turn.now until result }
        ensures begins { (life : CogLife) → running ≡ false → IsStartable origin → IsWindow turn.now.key.cog turn.now.key.clock →
            slice_get self.new.lives.items turn.now.key.cog ≡ Some life →
            Begins asks life (begun_by memory.now origin turn.now.key.cog turn.now.key.clock) until result }
        ensures others { SameBut turn.now.key.cog self.old.lives.items self.new.lives.items }
        ensures announced { (life : CogLife) → slice_get self.new.lives.items turn.now.key.cog ≡ Some life → HasAnnounced life result }
        ensures made { IsMadeNext result }
    {
        if running {
            self.take(turn, until)
        } else {
            self.begin(memory, origin, turn.key, until)
        }
    }
}
