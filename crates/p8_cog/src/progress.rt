// How far a cog is in the instruction at hand.
ghost use Rattle.std.specs.Prelude.{ℕ, nat_lt, if◌then◌else◌, ◌≡◌, ◌<◌, ◌≤◌, ◌+◌, ◌-◌, ◌*◌, ◌%◌, ◌^◌, ◌++◌, ◌∷◌, [], true, Some, IfSome};
ghost use Rattle.p8_access.specs.declared.lives.Next.TheVariants.{At, Quiet};
ghost use Rattle.p8_access.specs.Lives.{IsMadeNext};
ghost use Rattle.p8_cog.specs.declared.progress.Had.TheVariants.{Nothing, One, Two};
ghost use Rattle.p8_cog.specs.declared.stage.PasmStage.TheVariants.{Loading};
ghost use Rattle.p8_cog.specs.Replay.{Goes, instruction, played, step};
ghost use Rattle.p8_cog.specs.Standing.{turns_of, running_at, standing_at, clock_in, clock_of};
ghost use Rattle.p8_cog.specs.Stops.{latest, is_asking, is_half, IsAtHub, IsHalf, IsInLoad, IsTold, Comes, Stops, Leads, IsSpent, Loads, Takes};

use crate::ending::Ending;
use crate::registers::LOADED_LONGS;
use crate::stage::PasmStage;
use crate::state::PasmState;
use p8_access::{Access, Next, Turn, Width, window};

/// The turns that the instruction at hand has had, the oldest first.
///
/// An instruction has at most three accesses: the read of its source, the access of the hub or the wait,
/// and that of its result. With the last turn it is done.
#[derive(Clone, Copy)]
pub enum Had {
    Nothing,
    One(Turn),
    Two(Turn, Turn),
}

/// What stands in a cog where the instruction at hand began, and the turns that this instruction has had.
#[derive(Drop)]
pub struct Progress {
    pub begun: PasmState,
    /// There are some only where the instruction has a further access.
    pub had: Had,
}

/// What an instruction tells where it begins.
#[derive(Clone, Copy)]
struct InstructionStart {
    next: Next,
    /// As in `Ran`.
    kept: Option<u32>,
}

/// What a run has done, and why it stopped.
#[derive(Clone, Copy)]
pub struct Ran {
    /// How many instructions were done.
    pub done: u32,
    pub next: Next,
    /// Where the instruction at hand is the hub's and no access reads its source, the result that it has if
    /// its answer holds no number.
    pub kept: Option<u32>,
}

/// An access that comes at a clock, if that is below `until`.
#[inline(always)]
fn below(clock: u64, access: Access, until: u64) -> Next
    ensures { result ≡ (if nat_lt clock until then At clock access else Quiet) }
{
    if clock < until {
        Next::At { clock, access }
    } else {
        Next::Quiet
    }
}

/// Tells the first access below a clock of an instruction that asks where it begins.
#[inline(never)]
fn other_below(state: &mut PasmState, cog: u8, until: u64) -> Next
    requires at { state.old.at < 512 }
    requires cog { cog < 8 }
    requires clock { state.old.clock + 1 < 2 ^ 62 }
    requires asks { is_asking (played (instruction cog state.old) []) ≡ true }
    ensures stops { Stops cog (Goes state.old []) state.old.clock until result }
    ensures told { IsTold result }
    ensures made { IsMadeNext result }
    ensures same { state.new ≡ state.old }
{
    match state.advance(cog, &[]) {
        Ending::Half { clock, access } => below(clock, access, until),
        Ending::Whole | Ending::Ended => unreachable!(),
    }
}

/// Tells the first access below a clock of an instruction of the hub whose source no access reads, and the result that is
/// known by then.
#[inline(always)]
fn request_below(state: &PasmState, cog: u8, until: u64) -> Option<InstructionStart>
    requires cog { cog < 8 }
    requires clock { state.now.clock + 1 < 2 ^ 62 }
    ensures stops { IfSome result (λ told. Stops cog (Goes state.now []) state.now.clock until told.next) }
    ensures told { IfSome result (λ told. IsTold told.next) }
    ensures made { IfSome result (λ told. IsMadeNext told.next) }
    ensures kept { IfSome result (λ told. (k : ℕ) → told.kept ≡ Some k → IsAtHub state.now k) }
{
    match state.request() {
        None => None,
        Some(request) => Some(InstructionStart {
            next: below(window(cog, state.clock + 1), request.access, until),
            kept: Some(request.kept),
        }),
    }
}

/// Tells the first access below a clock of an instruction that asks where it begins, and the result that is known by then.
#[inline(always)]
fn first_below(state: &mut PasmState, cog: u8, until: u64) -> InstructionStart
    requires at { state.old.at < 512 }
    requires cog { cog < 8 }
    requires clock { state.old.clock + 1 < 2 ^ 62 }
    requires asks { is_asking (played (instruction cog state.old) []) ≡ true }
    ensures stops { Stops cog (Goes state.old []) state.old.clock until result.next }
    ensures told { IsTold result.next }
    ensures made { IsMadeNext result.next }
    ensures kept { (k : ℕ) → result.kept ≡ Some k → IsAtHub state.new k }
    ensures same { state.new ≡ state.old }
{
    match request_below(state, cog, until) {
        Some(told) => told,
        None => InstructionStart {
            next: other_below(state, cog, until),
            kept: None,
        },
    }
}

/// Does instructions up to one that asks, within a budget and below a clock, and tells how much of the budget is left.
///
/// This loop is where a cog that computes spends its time. It is never inlined, so that no value of its caller
/// takes a register of the processor from it. What is left is what it counts: to count one thing and give back
/// another takes a step more of each instruction.
#[inline(never)]
fn compute_below(state: &mut PasmState, until: u64, budget: u32) -> u32
    requires at { state.old.at < 512 }
    requires clock { state.old.clock < 2 ^ 62 + 2 ^ 10 }
    requires until { until < 2 ^ 62 }
    ensures budget { result ≤ budget }
    ensures leads { (cog : ℕ) → Leads cog (budget - result) (Goes state.old []) (Goes state.new []) }
    ensures asks { 0 < result → state.new.clock < until → (cog : ℕ) → is_asking (played (instruction cog state.new) []) ≡ true }
    ensures counts { state.old.clock + 4 * (budget - result) ≤ state.new.clock }
    ensures stride { state.new.clock ≤ state.old.clock + 8 * (budget - result) }
    ensures at { state.new.at < 512 }
    ensures clock { state.new.clock < 2 ^ 62 + 2 ^ 10 }
{
    let mut left = budget;
    while left > 0 {
        if state.clock >= until {
            return left;
        }
        if !state.run_apart() {
            return left;
        }
        left -= 1;
    }
    left
}

/// Does the instruction at hand where it is a jump, within a budget and below a clock, and tells how many it did: one or none.
///
/// A jump is what most often stands behind an access. The compiler knows it here, so it takes a tenth of what a call of
/// `compute_below` does.
#[inline(always)]
fn jump_below(state: &mut PasmState, until: u64, budget: u32) -> u32
    requires at { state.old.at < 512 }
    requires clock { state.old.clock < 2 ^ 62 + 2 ^ 10 }
    requires until { until < 2 ^ 62 }
    ensures budget { result ≤ budget }
    ensures leads { (cog : ℕ) → Leads cog result (Goes state.old []) (Goes state.new []) }
    ensures counts { state.old.clock + 4 * result ≤ state.new.clock }
    ensures stride { state.new.clock ≤ state.old.clock + 8 * result }
    ensures at { state.new.at < 512 }
    ensures clock { state.new.clock < 2 ^ 62 + 2 ^ 10 }
{
    if budget == 0 || state.clock >= until || !state.is_jump() {
        return 0;
    }
    if !state.run_apart() {
        return 0;
    }
    1
}

/// Does instructions up to one that asks, within a budget and below a clock, and tells why it stopped.
#[inline(always)]
fn run_on(state: &mut PasmState, cog: u8, until: u64, budget: u32) -> Ran
    requires at { state.old.at < 512 }
    requires cog { cog < 8 }
    requires clock { state.old.clock < 2 ^ 62 + 2 ^ 10 }
    requires until { until < 2 ^ 62 }
    ensures budget { result.done ≤ budget }
    ensures leads { Leads cog result.done (Goes state.old []) (Goes state.new []) }
    ensures stops { Stops cog (Goes state.new []) state.new.clock until result.next }
    ensures made { IsMadeNext result.next }
    ensures kept { (k : ℕ) → result.kept ≡ Some k → IsAtHub state.new k }
    ensures spent { IsSpent result.done budget state.new.clock until result.next }
    ensures counts { state.old.clock + 4 * result.done ≤ state.new.clock }
    ensures stride { state.new.clock ≤ state.old.clock + 8 * result.done }
    ensures at { state.new.at < 512 }
    ensures clock { state.new.clock < 2 ^ 62 + 2 ^ 10 }
{
    let left = compute_below(state, until, budget);
    let done = budget - left;
    if state.clock >= until {
        let next = Next::Quiet;
        let kept = None;
        return Ran { done, next, kept };
    }
    if left > 0 {
        let InstructionStart { next, kept } = first_below(state, cog, until);
        return Ran { done, next, kept };
    }
    Ran {
        done,
        next: Next::More { bound: state.clock },
        kept: None,
    }
}

/// The same. Where the instruction at hand is a jump, or asks the hub, or does so behind that jump, no loop is entered for it.
#[inline(always)]
fn run(state: &mut PasmState, cog: u8, until: u64, budget: u32) -> Ran
    requires at { state.old.at < 512 }
    requires cog { cog < 8 }
    requires clock { state.old.clock < 2 ^ 62 + 2 ^ 10 }
    requires until { until < 2 ^ 62 }
    ensures budget { result.done ≤ budget }
    ensures leads { Leads cog result.done (Goes state.old []) (Goes state.new []) }
    ensures stops { Stops cog (Goes state.new []) state.new.clock until result.next }
    ensures made { IsMadeNext result.next }
    ensures kept { (k : ℕ) → result.kept ≡ Some k → IsAtHub state.new k }
    ensures spent { IsSpent result.done budget state.new.clock until result.next }
    ensures counts { state.old.clock + 4 * result.done ≤ state.new.clock }
    ensures stride { state.new.clock ≤ state.old.clock + 8 * result.done }
    ensures at { state.new.at < 512 }
    ensures clock { state.new.clock < 2 ^ 62 + 2 ^ 10 }
{
    let jumped = jump_below(state, until, budget);
    if state.clock < until {
        if let Some(told) = request_below(state, cog, until) {
            return Ran {
                done: jumped,
                next: told.next,
                kept: told.kept,
            };
        }
    }
    let ran = run_on(state, cog, until, budget - jumped);
    Ran {
        done: jumped + ran.done,
        next: ran.next,
        kept: ran.kept,
    }
}

impl Progress {
    /// Tells the next access below a clock of an instruction that has had turns.
    fn further_below(&mut self, cog: u8, until: u64, had: &[Turn]) -> Next
        requires at { self.old.begun.at < 512 }
        requires cog { cog < 8 }
        requires until { until < 2 ^ 62 }
        requires had { had.now ≡ turns_of self.old.had }
        requires is_half { is_half self.old.had ≡ true }
        requires half { IsHalf cog self.old }
        ensures stops { Stops cog (running_at self.new) (clock_of self.new) until result }
        ensures told { IsTold result }
        ensures made { IsMadeNext result }
        ensures same { self.new ≡ self.old }
    {
        match self.begun.advance(cog, had) {
            Ending::Half { clock, access } => below(clock, access, until),
            Ending::Whole | Ending::Ended => unreachable!(),
        }
    }

    /// Tells the next read of the load from an address, below a clock.
    #[inline(always)]
    pub fn next_read(&self, code: u16, until: u64) -> Next
        requires aligned { code % 4 ≡ 0 }
        requires room { code ≤ 30784 }
        requires loads { IsInLoad self.now }
        requires clock { clock_of self.now < 2 ^ 62 + 2 ^ 10 }
        ensures stops { (cog : ℕ) → Stops cog (standing_at Loading code self.now) (clock_of self.now) until result }
        ensures told { IsTold result }
        ensures made { IsMadeNext result }
    {
        let access = Access::Read {
            width: Width::Long,
            address: code + 4 * self.begun.at,
        };
        below(self.begun.clock + 16, access, until)
    }

    /// Takes the next long of the load, and tells how far the life is then.
    pub fn take_long(&mut self, long: u32) -> PasmStage
        requires at { self.old.begun.at < 496 }
        requires clock { self.old.begun.clock < 2 ^ 62 }
        ensures { Loads self.old.begun long self.new result }
    {
        self.had = Had::Nothing;
        self.begun.load(long);
        if self.begun.at < LOADED_LONGS {
            return PasmStage::Loading;
        }
        self.begun.begin();
        PasmStage::Running
    }

    /// Tells the next access below a clock of an instruction that has had turns.
    ///
    /// It is never inlined, so that where an instruction has had none no room is kept for its turns.
    #[inline(never)]
    fn further_access(&mut self, cog: u8, until: u64) -> Next
        requires at { self.old.begun.at < 512 }
        requires cog { cog < 8 }
        requires until { until < 2 ^ 62 }
        requires is_half { is_half self.old.had ≡ true }
        requires half { IsHalf cog self.old }
        ensures stops { Stops cog (running_at self.new) (clock_of self.new) until result }
        ensures told { IsTold result }
        ensures made { IsMadeNext result }
        ensures same { self.new ≡ self.old }
    {
        match self.had {
            Had::Nothing => unreachable!(),
            Had::One(first) => self.further_below(cog, until, &[first]),
            Had::Two(first, second) => self.further_below(cog, until, &[first, second]),
        }
    }

    /// Tells the next access below a clock, and does instructions within a budget on the way there.
    #[inline(always)]
    pub fn next_below(&mut self, cog: u8, until: u64, budget: u32) -> Ran
        requires at { self.old.begun.at < 512 }
        requires cog { cog < 8 }
        requires clock { clock_of self.old < 2 ^ 62 + 2 ^ 10 }
        requires until { until < 2 ^ 62 }
        requires half { IsHalf cog self.old }
        ensures budget { result.done ≤ budget }
        ensures leads { Leads cog result.done (running_at self.old) (running_at self.new) }
        ensures stops { Stops cog (running_at self.new) (clock_of self.new) until result.next }
        ensures made { IsMadeNext result.next }
        ensures kept { (k : ℕ) → result.kept ≡ Some k → IsAtHub self.new.begun k }
        ensures spent { IsSpent result.done budget (clock_of self.new) until result.next }
        ensures counts { clock_of self.old + 4 * result.done ≤ clock_of self.new }
        ensures stride { clock_of self.new ≤ clock_of self.old + 8 * result.done }
        ensures at { self.new.begun.at < 512 }
        ensures clock { clock_of self.new < 2 ^ 62 + 2 ^ 10 }
        ensures half { IsHalf cog self.new }
    {
        match self.had {
            Had::Nothing => run(&mut self.begun, cog, until, budget),
            Had::One(_) => Ran {
                done: 0,
                next: self.further_access(cog, until),
                kept: None,
            },
            Had::Two(_, _) => Ran {
                done: 0,
                next: self.further_access(cog, until),
                kept: None,
            },
        }
    }

    /// The life is over; after its end nothing looks at the instruction.
    #[inline(always)]
    fn close(&mut self, clock: u64)
        requires { clock < 2 ^ 62 }
        ensures had { self.new.had ≡ Nothing }
        ensures at { self.new.begun.at ≡ self.old.begun.at }
        ensures clock { self.new.begun.clock ≡ clock + 1 }
    {
        self.had = Had::Nothing;
        self.begun.clock = clock + 1;
    }

    /// Goes on with the instruction at hand by its first turn.
    #[inline(always)]
    fn take_first(&mut self, cog: u8, kept: Option<u32>, turn: &Turn) -> Ending
        requires at { self.old.begun.at < 512 }
        requires cog { cog < 8 }
        requires kept { (k : ℕ) → kept ≡ Some k → IsAtHub self.old.begun k }
        requires begun { self.old.begun.clock + 1 < 2 ^ 62 }
        requires had { self.old.had ≡ Nothing }
        requires below { turn.now.key.clock < 2 ^ 62 }
        requires comes { Comes (step cog (running_at self.old)) turn.now }
        ensures takes { Takes cog self.old turn.now self.new result }
        ensures at { self.new.begun.at < 512 }
        ensures clock { clock_of self.new < 2 ^ 62 + 2 ^ 10 }
        ensures half { IsHalf cog self.new }
    {
        match self.begun.first_turn(cog, kept, turn) {
            Ending::Ended => {
                self.close(turn.key.clock);
                Ending::Ended
            }
            Ending::Whole => Ending::Whole,
            Ending::Half { clock, access } => {
                self.had = Had::One(*turn);
                Ending::Half { clock, access }
            }
        }
    }

    /// Goes on with the instruction at hand by its second turn.
    fn take_second(&mut self, cog: u8, first: Turn, turn: &Turn) -> Ending
        requires at { self.old.begun.at < 512 }
        requires cog { cog < 8 }
        requires begun { self.old.begun.clock + 1 < 2 ^ 62 }
        requires had { self.old.had ≡ One first }
        requires first { first.key.clock < 2 ^ 62 }
        requires below { turn.now.key.clock < 2 ^ 62 }
        requires comes { Comes (step cog (running_at self.old)) turn.now }
        ensures takes { Takes cog self.old turn.now self.new result }
        ensures at { self.new.begun.at < 512 }
        ensures clock { clock_of self.new < 2 ^ 62 + 2 ^ 10 }
        ensures half { IsHalf cog self.new }
    {
        match self.begun.advance(cog, &[first, *turn]) {
            Ending::Ended => {
                self.close(turn.key.clock);
                Ending::Ended
            }
            Ending::Whole => {
                self.had = Had::Nothing;
                Ending::Whole
            }
            Ending::Half { clock, access } => {
                self.had = Had::Two(first, *turn);
                Ending::Half { clock, access }
            }
        }
    }

    /// Ends the instruction at hand by its third turn.
    fn end_by(&mut self, cog: u8, first: Turn, second: Turn, turn: &Turn) -> Ending
        requires at { self.old.begun.at < 512 }
        requires cog { cog < 8 }
        requires had { self.old.had ≡ Two first second }
        requires half { IsHalf cog self.old }
        requires below { turn.now.key.clock < 2 ^ 62 }
        requires comes { Comes (step cog (running_at self.old)) turn.now }
        ensures takes { Takes cog self.old turn.now self.new result }
        ensures at { self.new.begun.at < 512 }
        ensures clock { clock_of self.new < 2 ^ 62 + 2 ^ 10 }
        ensures half { IsHalf cog self.new }
    {
        match self.begun.advance(cog, &[first, second, *turn]) {
            Ending::Ended => {
                self.close(turn.key.clock);
                Ending::Ended
            }
            Ending::Whole => {
                self.had = Had::Nothing;
                Ending::Whole
            }
            Ending::Half { .. } => unreachable!(),
        }
    }

    /// Takes a turn of the instruction at hand that isn't its first. It is never inlined, since few instructions have more than one.
    #[inline(never)]
    fn take_further(&mut self, cog: u8, turn: &Turn) -> Ending
        requires at { self.old.begun.at < 512 }
        requires cog { cog < 8 }
        requires is_half { is_half self.old.had ≡ true }
        requires half { IsHalf cog self.old }
        requires below { turn.now.key.clock < 2 ^ 62 }
        requires comes { Comes (step cog (running_at self.old)) turn.now }
        ensures takes { Takes cog self.old turn.now self.new result }
        ensures at { self.new.begun.at < 512 }
        ensures clock { clock_of self.new < 2 ^ 62 + 2 ^ 10 }
        ensures half { IsHalf cog self.new }
    {
        match self.had {
            Had::Nothing => unreachable!(),
            Had::One(first) => self.take_second(cog, first, turn),
            Had::Two(first, second) => self.end_by(cog, first, second, turn),
        }
    }

    /// Takes the turn of the access that the instruction at hand asked.
    #[inline(always)]
    pub fn take(&mut self, cog: u8, kept: Option<u32>, turn: &Turn) -> Ending
        requires at { self.old.begun.at < 512 }
        requires cog { cog < 8 }
        requires kept { (k : ℕ) → kept ≡ Some k → IsAtHub self.old.begun k }
        requires half { IsHalf cog self.old }
        requires below { turn.now.key.clock < 2 ^ 62 }
        requires comes { Comes (step cog (running_at self.old)) turn.now }
        ensures takes { Takes cog self.old turn.now self.new result }
        ensures at { self.new.begun.at < 512 }
        ensures clock { clock_of self.new < 2 ^ 62 + 2 ^ 10 }
        ensures half { IsHalf cog self.new }
    {
        match self.had {
            Had::Nothing => self.take_first(cog, kept, turn),
            Had::One(_) => self.take_further(cog, turn),
            Had::Two(_, _) => self.take_further(cog, turn),
        }
    }
}
