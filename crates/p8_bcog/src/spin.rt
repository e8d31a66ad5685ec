// A Spin cog as a life.
ghost use Rattle.std.specs.Prelude.{ℕ, List, ◌≡◌, ◌⊎◌, ◌<◌, ◌≤◌, ◌+◌, ◌^◌, [], None, IfOk};
ghost use Rattle.p8_access.specs.declared.lives.Next.TheVariants.{Quiet};
ghost use Rattle.p8_access.specs.declared.order.Turn.{Turn};
ghost use Rattle.p8_access.specs.Lives.{Begun, SpinBegun, IsMade, IsMadeNext, is_last};
ghost use Rattle.p8_access.specs.Timing.{Asks, earliest};
ghost use Rattle.p8_bcog.specs.declared.stage.SpinStage.TheVariants.{Ready, Over};
ghost use Rattle.p8_bcog.specs.Origins.{IsSpin};
ghost use Rattle.p8_bcog.specs.Counters.{IsAnnouncing, IsCounter};
ghost use Rattle.p8_bcog.specs.Replay.{IsAsked, Begins};
ghost use Rattle.p8_bcog.specs.Standing.{standing, StandsFor};
ghost use Rattle.p8_bcog.specs.Stops.{IsSound, Stops, Announces, announced_at, is_access};
ghost use Rattle.p8_bcog.specs.Single.{is_prop-IsSound};
ghost use Rattle.p8_bcog.specs.Laws.{one-asked, asked-first, asked-later, pace_holds};

use crate::accesses::write_of;
use crate::running::{behind, done_by, earliest, is_ready, run};
use crate::stack::{OperandStack, own_strip};
use crate::stage::SpinStage;
use crate::state::SpinState;
use crate::tables::code_end;
use p8_access::{Access, Life, Next, Origin, Ram, Turn, Width};
use p8_region::Strip;
use p8_words::NoMemory;
use std::alloc::Global;

/// How many clocks after its Begin a cog begins its first bytecode.
const START_CLOCKS: u64 = 8192;

/// A cog that runs Spin, from a start on.
///
/// It keeps its stack, marks, calls and registers, how far it is in the bytecode at hand, and whether it has announced
/// the access that is asked there.
#[derive(Drop)]
pub struct SpinCog {
    /// The memory that its code and tables stand in.
    code: Ram,
    /// Its own number.
    cog: u8,
    state: SpinState,
    stage: SpinStage,
    /// The clock at which the next bytecode begins, or from which the access at hand counts.
    clock: u64,
    /// The clock that it has come to: where the bytecode at hand began, or is after its last turn.
    reached: u64,
    /// How many bytecodes it has done since its start.
    done: u64,
    /// Whether the access that it asks next is announced and has had no turn yet.
    asking: bool,
    /// The hub address of the bytecode that is under way.
    counter: u16,
    ghost cog_below: { cog < 8 },
    ghost early: { reached ≤ clock },
    ghost late: { clock ≤ reached + 544 },
    ghost below: { reached < 2 ^ 62 + 2 ^ 14 },
    ghost counts: { done ≤ reached },
    ghost ready: { stage ≡ Ready → reached ≡ clock },
    ghost sound: { IsSound stage state } by { is_prop-IsSound stage state },
    ghost announces: { Announces cog stage state clock reached (announced_at asking cog stage state clock) },
}

/// Whether an answer announces an access.
#[inline(always)]
pub fn is_access(next: Next) -> bool
    ensures { result ≡ is_access next }
{
    match next {
        Next::At { .. } => true,
        Next::Quiet | Next::More { .. } => false,
    }
}

/// Whether a life is over by the turn of an access.
fn is_last(cog: u8, access: Access) -> bool
    ensures { result ≡ is_last cog access }
{
    match access {
        Access::Halt { .. } => true,
        Access::CogStop { cog: target } => target == cog,
        _ => false,
    }
}

/// An access that counts from a clock on, if it comes below `until`.
#[inline(always)]
fn below(cog: u8, clock: u64, access: Access, until: u64) -> Next
    requires cog { cog < 8 }
    requires until { until < 2 ^ 62 }
    requires made { IsMade access }
    ensures stops { (reached : ℕ) → reached ≤ clock → clock ≤ reached + 544 → Stops (Asks (earliest cog clock access) access) reached until result }
    ensures made { IsMadeNext result }
    ensures near { result ≡ Quiet → until ≤ clock + 16 }
{
    if clock >= until {
        return Next::Quiet;
    }
    let earliest = earliest(cog, clock, access);
    if earliest < until {
        Next::At {
            clock: earliest,
            access,
        }
    } else {
        Next::Quiet
    }
}

/// What a life tells that stands so. It is always inlined, so that its answer is written where that of the life goes.
#[inline(always)]
fn told(stage: &SpinStage, state: &SpinState, cog: u8, clock: u64, until: u64) -> Next
    requires cog { cog < 8 }
    requires until { until < 2 ^ 62 }
    requires sound { IsSound stage.now state.now }
    ensures stops { (reached : ℕ) → reached ≤ clock → clock ≤ reached + 544 → (stage.now ≡ Ready → reached ≡ clock) →
        Stops (standing cog stage.now state.now clock []) reached until result }
    ensures made { IsMadeNext result }
    ensures near { result ≡ Quiet → (stage.now ≡ Over) ⊎ (until ≤ clock + 16) }
{
    match stage {
        SpinStage::Entering => below(cog, clock, write_of(Width::Long, state.frame, 0), until),
        SpinStage::Ready => {
            if clock < until {
                Next::More { bound: clock }
            } else {
                Next::Quiet
            }
        }
        SpinStage::Asked { access, .. } => below(cog, clock, *access, until),
        SpinStage::Halted { reason } => below(cog, clock, Access::Halt { reason: *reason }, until),
        SpinStage::Over => Next::Quiet,
    }
}

impl SpinCog {
    /// A cog whose Begin had its turn at the clock `begin`: it runs the method that a Spin origin names, whose
    /// code stands in this memory, from the write of its entry on. `cog` is its own number. Its
    /// operand stack has a region of its own.
    pub fn start(
        alloc: Global,
        code: Ram,
        origin: Origin,
        cog: u8,
        begin: u64,
    ) -> Result<SpinCog, NoMemory>
        requires spin { IsSpin origin }
        requires cog { cog < 8 }
        requires begin { begin < 2 ^ 62 }

        ensures stands { IfOk result (λ life. ⟦<SpinCog as Life>⟧.stands life
            (SpinBegun (record { memory = code; origin = origin; cog = cog; begin = begin })) []) }
        ensures place { IfOk result (λ life. ⟦<SpinCog as Life>⟧.place life ≡ 0) }
        ensures reached { IfOk result (λ life. ⟦<SpinCog as Life>⟧.reached life ≡ begin + 8192) }
        ensures pace { IfOk result (λ life. ⟦<SpinCog as Life>⟧.pace life ≡ 32) }
        ensures stride { IfOk result (λ life. ⟦<SpinCog as Life>⟧.stride life ≡ 544) }
        ensures lead { IfOk result (λ life. ⟦<SpinCog as Life>⟧.lead life ≡ 8192) }
        ensures reach { IfOk result (λ life. ⟦<SpinCog as Life>⟧.reach life ≡ 560) }
        ensures announced { IfOk result (λ life. ⟦<SpinCog as Life>⟧.announced life ≡ None) }
        ensures cog { IfOk result (λ life. ⟦<SpinCog as Life>⟧.cog life ≡ cog) }
    {
        SpinCog::start_in(alloc, code, own_strip(alloc)?, origin, cog, begin)
    }

    /// A cog whose Begin had its turn at the clock `begin`: it runs the method that a Spin origin names, whose
    /// code stands in this memory, from the write of its entry on. `cog` is its own number. Its
    /// operand stack stands in the strip, which has room for 16,384 longs.
    pub fn start_in(
        alloc: Global,
        code: Ram,
        stack: Strip<u32>,
        origin: Origin,
        cog: u8,
        begin: u64,
    ) -> Result<SpinCog, NoMemory>
        requires stack { stack.room ≡ 16384 }
        requires spin { IsSpin origin }
        requires cog { cog < 8 }
        requires begin { begin < 2 ^ 62 }

        ensures stands { IfOk result (λ life. ⟦<SpinCog as Life>⟧.stands life
            (SpinBegun (record { memory = code; origin = origin; cog = cog; begin = begin })) []) }
        ensures place { IfOk result (λ life. ⟦<SpinCog as Life>⟧.place life ≡ 0) }
        ensures reached { IfOk result (λ life. ⟦<SpinCog as Life>⟧.reached life ≡ begin + 8192) }
        ensures pace { IfOk result (λ life. ⟦<SpinCog as Life>⟧.pace life ≡ 32) }
        ensures stride { IfOk result (λ life. ⟦<SpinCog as Life>⟧.stride life ≡ 544) }
        ensures lead { IfOk result (λ life. ⟦<SpinCog as Life>⟧.lead life ≡ 8192) }
        ensures reach { IfOk result (λ life. ⟦<SpinCog as Life>⟧.reach life ≡ 560) }
        ensures announced { IfOk result (λ life. ⟦<SpinCog as Life>⟧.announced life ≡ None) }
        ensures cog { IfOk result (λ life. ⟦<SpinCog as Life>⟧.cog life ≡ cog) }
    {
        let mut state = SpinState::new(alloc, OperandStack::in_strip(stack))?;
        state.begin(origin);
        Ok(SpinCog {
            code,
            cog,
            state,
            stage: SpinStage::Entering,
            clock: begin + START_CLOCKS,
            reached: begin + START_CLOCKS,
            done: 0,
            asking: false,
            counter: 0,
        })
    }

    /// Starts it anew, as `start` would, in the memory that it has: nothing of the old life is left.
    pub fn restart(&mut self, code: Ram, origin: Origin, cog: u8, begin: u64)
        requires spin { IsSpin origin }
        requires cog { cog < 8 }
        requires begin { begin < 2 ^ 62 }

        ensures stands { ⟦<SpinCog as Life>⟧.stands self.new (SpinBegun (record { memory = code; origin = origin; cog = cog; begin = begin })) [] }
        ensures place { ⟦<SpinCog as Life>⟧.place self.new ≡ 0 }
        ensures reached { ⟦<SpinCog as Life>⟧.reached self.new ≡ begin + 8192 }
        ensures pace { ⟦<SpinCog as Life>⟧.pace self.new ≡ 32 }
        ensures stride { ⟦<SpinCog as Life>⟧.stride self.new ≡ 544 }
        ensures lead { ⟦<SpinCog as Life>⟧.lead self.new ≡ 8192 }
        ensures reach { ⟦<SpinCog as Life>⟧.reach self.new ≡ 560 }
        ensures announced { ⟦<SpinCog as Life>⟧.announced self.new ≡ None }
        ensures cog { ⟦<SpinCog as Life>⟧.cog self.new ≡ cog }
    {
        self.asking = false;
        self.code = code;
        self.state.begin(origin);
        self.cog = cog;
        self.stage = SpinStage::Entering;
        self.clock = begin + START_CLOCKS;
        self.reached = begin + START_CLOCKS;
        self.done = 0;
    }

    /// The program counter of the access that is announced: the hub address, in bytes, of the first byte of the
    /// bytecode that asks it. `None` where nothing is announced, and for the write with which a life enters its
    /// method, which no bytecode asks.
    pub fn counter(&self) -> Option<u16>
        ensures counts { (b : Begun) (ts : List Turn) → ⟦<SpinCog as Life>⟧.stands self.now b ts →
            IsAnnouncing (⟦<SpinCog as Life>⟧.announced self.now) → IsCounter b ts result }
        ensures none { ⟦<SpinCog as Life>⟧.announced self.now ≡ None → result ≡ None }
    {
        if !self.asking {
            return None;
        }
        match self.stage {
            SpinStage::Asked { .. } | SpinStage::Halted { .. } => Some(self.counter),
            SpinStage::Entering | SpinStage::Ready | SpinStage::Over => None,
        }
    }
}

impl Life for SpinCog {
    ghost stands = { λ life began turns. StandsFor life.counter life.code life.done life.cog life.stage life.state life.clock began turns };

    ghost asked = { IsAsked };

    ghost begins = { Begins };

    ghost place = { λ life. life.done };

    ghost reached = { λ life. life.reached };

    ghost pace = { λ life. 32 };

    ghost stride = { λ life. 544 };

    ghost lead = { λ life. 8192 };

    ghost reach = { λ life. 560 };

    ghost announced = { λ life. announced_at life.asking life.cog life.stage life.state life.clock };

    ghost cog = { λ life. life.cog };

    fn run_to_access(&mut self, until: u64, budget: u32) -> Next {
        self.asking = false;
        if is_ready(&self.stage) {
            let memory = self.code.bytes();
            let code = &memory[..code_end(memory)];
            let ran = run(
                &mut self.state,
                &mut self.stage,
                memory,
                code,
                self.cog,
                self.clock,
                until,
                budget,
            );
            self.done += u64::from(ran.done);
            self.reached = ran.begun;
            self.clock = ran.clock;
            self.counter = ran.counter;
            let next = told(&self.stage, &self.state, self.cog, ran.clock, until);
            self.asking = is_access(next);
            next
        } else {
            let next = told(&self.stage, &self.state, self.cog, self.clock, until);
            self.asking = is_access(next);
            next
        }
    }

    fn take_answer(&mut self, turn: &Turn) {
        self.asking = false;
        match self.stage {
            SpinStage::Entering => {
                self.clock = turn.key.clock + 7;
                self.reached = turn.key.clock + 7;
                self.stage = SpinStage::Ready;
            }
            SpinStage::Asked { access, .. } => {
                let clock = behind(self.clock, access, turn.key.clock);
                self.clock = clock;
                self.reached = clock;
                if is_last(self.cog, access) {
                    self.stage = SpinStage::Over;
                    self.done += 1;
                } else {
                    self.state.resume(turn.answer, &mut self.stage);
                    self.done += done_by(&self.stage);
                }
            }
            SpinStage::Halted { .. } => {
                self.clock = turn.key.clock + 1;
                self.reached = turn.key.clock + 1;
                self.stage = SpinStage::Over;
                self.done += 1;
            }
            SpinStage::Ready | SpinStage::Over => unreachable!(),
        }
    }

    ghost paced = { λ life. pace_holds };

    ghost one_asked = { one-asked };

    ghost asked_first = { asked-first };

    ghost asked_later = { asked-later };
}
