// What each kind of instruction does, with the turns that its accesses have had.
ghost use Rattle.std.specs.Prelude.{ℕ, true, false, Some, None, IfSome, if◌then◌else◌, [], ◌∷◌, ◌==◌, ◌≡◌, ◌<◌, ◌≤◌, ◌+◌, ◌%◌, ◌^◌};
ghost use Rattle.p8_access.specs.Lives.{IsMade};
ghost use Rattle.p8_access.specs.Windows.{window_of};
ghost use Rattle.p8_cog.specs.Instructions.{source_access};
ghost use Rattle.p8_cog.specs.declared.ending.Ending.TheVariants.{Half};
ghost use Rattle.p8_cog.specs.declared.instruction_kind.InstructionKind.TheVariants.{Computing, OfHub, Waiting};
ghost use Rattle.p8_cog.specs.declared.state.PasmState.{PasmState};
ghost use Rattle.p8_cog.specs.Replay.{at_hand, source_value, destination_value, effect, fetched_before, fetched_after, next_of, computed, compute};
ghost use Rattle.p8_cog.specs.Replay.{register_access, result_access, written_by, answered, ends_after, use_hub, is_port_wait, test_of, wait_effect};
ghost use Rattle.p8_cog.specs.Replay.{wait, halt, does, instruction, hub_request, played, Goes, Asks};
ghost use Rattle.p8_cog.specs.Stops.{ComesTo, Keeps, IsMadeIn, IsAtHub, Comes, is_asking, latest};
ghost use Rattle.p8_bcog.specs.Ready.{IsMadeIf};

use crate::ending::Ending;
use crate::hub::{Request, answered, hub_request, is_last, plain_effect};
use crate::instruction_kind::{
    CTRA, DIRA, DJNZ, InstructionKind, JMPRET, OUTA, TJNZ, TJZ, WAITCNT, WAITPEQ, WAITPNE, kind_of,
};
use crate::state::PasmState;
use p8_access::{Access, Answer, Reason, Test, Turn, window};
use p8_alu::Effect;
use p8_instr::{Instr, decode};

/// The address in a cog that a value is taken as.
#[inline(always)]
fn address_in(value: u32) -> u32
    ensures address { result ≡ value % 512 }
    ensures below { result < 512 }
{
    value & 511
}

/// The access that a result makes in a register.
#[inline(always)]
fn register_access(register: u16, value: u32) -> Option<Access>
    ensures access { result ≡ register_access register value }
    ensures made { IsMadeIf result }
{
    if register == OUTA {
        Some(Access::OutSet { value })
    } else if register == DIRA {
        Some(Access::DirSet { value })
    } else if register >= CTRA && value != 0 {
        let reason = Reason::Register(register);
        Some(Access::Halt { reason })
    } else {
        None
    }
}

/// The access that a result makes where it is written.
#[inline(always)]
fn result_access(i: Instr, value: u32) -> Option<Access>
    ensures access { result ≡ result_access i value }
    ensures made { IsMadeIf result }
{
    // Most results are for general registers.
    if i.writes_result() && i.dest >= OUTA {
        register_access(i.dest, value)
    } else {
        None
    }
}

/// What WAITPEQ, WAITPNE or WAITCNT waits for.
#[inline(always)]
fn test_of(opcode: u8, value: u32, source: u32) -> Test
    ensures { result ≡ test_of opcode value source }
{
    match opcode {
        WAITPEQ => Test::PinsEqual {
            state: value,
            mask: source,
        },
        WAITPNE => Test::PinsDiffer {
            state: value,
            mask: source,
        },
        _ => Test::Count { target: value },
    }
}

/// What a wait leaves.
#[inline(always)]
fn wait_effect(opcode: u8, value: u32, source: u32) -> Effect
    ensures { result ≡ wait_effect opcode value source }
{
    if opcode == WAITCNT {
        let (sum, carry) = value.overflowing_add(source);
        plain_effect(sum, carry)
    } else {
        plain_effect(value, false)
    }
}

impl PasmState {
    /// How an instruction stands at the write of its result: it is whole where that may be done.
    #[inline(always)]
    fn written(&self, cog: u8, value: u32, clock: u64, had: &[Turn]) -> Ending
        ensures comes { (next : PasmState) → ComesTo (played (written_by (result_access (at_hand self.now) value) cog clock next) had.now) result next }
        ensures made { IsMadeIn result }
    {
        match result_access(decode(self.long), value) {
            None => Ending::Whole,
            Some(access) => match had {
                [] => Ending::Half { clock, access },
                _ => {
                    if is_last(cog, access) {
                        Ending::Ended
                    } else {
                        Ending::Whole
                    }
                }
            },
        }
    }

    /// Ends an instruction that computes and jumps nowhere.
    #[inline(always)]
    fn go_next(&mut self, given: &Effect)
        requires at { self.old.at < 512 }
        requires clock { self.old.clock < 2 ^ 62 }
        ensures ends { self.new ≡ fetched_before self.old given.now (next_of self.old) (self.old.clock + 4) }
        ensures at { self.new.at < 512 }
        ensures clock { self.new.clock < 2 ^ 62 + 2 ^ 10 }
    {
        let at = self.next();
        self.fetch_and_write(given, at);
        self.clock += 4;
    }

    /// Ends JMPRET, or DJNZ, TJNZ or TJZ where it jumps.
    #[inline(always)]
    fn jump(&mut self, source: u32, given: &Effect)
        requires at { self.old.at < 512 }
        requires clock { self.old.clock < 2 ^ 62 }
        ensures ends { self.new ≡ fetched_before self.old given.now (source % 512) (self.old.clock + 4) }
        ensures at { self.new.at < 512 }
        ensures clock { self.new.clock < 2 ^ 62 + 2 ^ 10 }
    {
        let target = address_in(source);
        self.fetch_and_write(given, target);
        self.clock += 4;
    }

    /// Ends DJNZ, TJNZ or TJZ where it doesn't jump.
    #[inline(always)]
    fn stay(&mut self, given: &Effect)
        requires at { self.old.at < 512 }
        requires clock { self.old.clock < 2 ^ 62 }
        ensures ends { self.new ≡ fetched_after self.old given.now (next_of self.old) (self.old.clock + 8) }
        ensures at { self.new.at < 512 }
        ensures clock { self.new.clock < 2 ^ 62 + 2 ^ 10 }
    {
        let at = self.next();
        self.write_and_fetch(given, at);
        self.clock += 8;
    }

    /// Ends DJNZ or TJNZ, which jump where the result isn't 0.
    #[inline(always)]
    fn jump_unless_zero(&mut self, source: u32, given: &Effect)
        requires at { self.old.at < 512 }
        requires clock { self.old.clock < 2 ^ 62 }
        ensures ends { self.new ≡ (if given.now.result == 0 then fetched_after self.old given.now (next_of self.old)
            (self.old.clock + 8) else fetched_before self.old given.now (source % 512) (self.old.clock + 4)) }
        ensures at { self.new.at < 512 }
        ensures clock { self.new.clock < 2 ^ 62 + 2 ^ 10 }
    {
        if given.result == 0 {
            self.stay(given);
        } else {
            self.jump(source, given);
        }
    }

    /// Ends TJZ, which jumps where the result is 0.
    #[inline(always)]
    fn jump_if_zero(&mut self, source: u32, given: &Effect)
        requires at { self.old.at < 512 }
        requires clock { self.old.clock < 2 ^ 62 }
        ensures ends { self.new ≡ (if given.now.result == 0 then fetched_before self.old given.now (source % 512)
            (self.old.clock + 4) else fetched_after self.old given.now (next_of self.old) (self.old.clock + 8)) }
        ensures at { self.new.at < 512 }
        ensures clock { self.new.clock < 2 ^ 62 + 2 ^ 10 }
    {
        if given.result == 0 {
            self.jump(source, given);
        } else {
            self.stay(given);
        }
    }

    /// Ends an instruction that computes.
    ///
    /// By a `match` on the opcode, as its effect is found: the compiler then goes from each arm there to the end that it has, without a
    /// test between.
    #[inline(always)]
    fn end_computed(&mut self, source: u32, given: &Effect)
        requires given { given.now ≡ effect self.old source }
        requires last { (at_hand self.old).opcode ≤ 59 }
        requires at { self.old.at < 512 }
        requires clock { self.old.clock < 2 ^ 62 }
        ensures ends { self.new ≡ computed self.old source }
        ensures at { self.new.at < 512 }
        ensures clock { self.new.clock < 2 ^ 62 + 2 ^ 10 }
    {
        match self.opcode() {
            JMPRET => self.jump(source, given),
            DJNZ => self.jump_unless_zero(source, given),
            TJNZ => self.jump_unless_zero(source, given),
            TJZ => self.jump_if_zero(source, given),
            _ => self.go_next(given),
        }
    }

    /// Does an instruction that computes, with the value of its source.
    #[inline(always)]
    fn compute(&mut self, cog: u8, source: u32, had: &[Turn]) -> Ending
        requires first { 8 ≤ (at_hand self.old).opcode }
        requires last { (at_hand self.old).opcode ≤ 59 }
        requires at { self.old.at < 512 }
        requires clock { self.old.clock < 2 ^ 62 }
        ensures comes { ComesTo (played (compute cog self.old source) had.now) result self.new }
        ensures keeps { Keeps result self.old self.new }
        ensures made { IsMadeIn result }
        ensures at { self.new.at < 512 }
        ensures clock { self.new.clock < 2 ^ 62 + 2 ^ 10 }
    {
        let effect = self.effect(source);
        match self.written(cog, effect.result, self.clock + 3, had) {
            Ending::Whole => {
                self.end_computed(source, &effect);
                Ending::Whole
            }
            Ending::Ended => Ending::Ended,
            Ending::Half { clock, access } => Ending::Half { clock, access },
        }
    }

    /// Ends an instruction after its access, with its result written at a clock.
    #[inline(always)]
    fn end_after(&mut self, cog: u8, effect: Effect, clock: u64, had: &[Turn]) -> Ending
        requires at { self.old.at < 512 }
        requires old { self.old.clock < 2 ^ 62 }
        requires clock { clock < 2 ^ 62 + 2 ^ 3 }
        ensures comes { ComesTo (played (ends_after cog self.old effect clock) had.now) result self.new }
        ensures keeps { Keeps result self.old self.new }
        ensures made { IsMadeIn result }
        ensures at { self.new.at < 512 }
        ensures clock { self.new.clock < 2 ^ 62 + 2 ^ 10 }
    {
        match self.written(cog, effect.result, clock, had) {
            Ending::Whole => {
                let at = self.next();
                self.fetch_and_write(&effect, at);
                self.clock = clock + 1;
                Ending::Whole
            }
            Ending::Ended => Ending::Ended,
            Ending::Half { clock, access } => Ending::Half { clock, access },
        }
    }

    /// Ends an instruction of the hub by the answer to its access, with its result written at a clock. Its result is `kept`
    /// where the answer holds no number.
    #[inline(always)]
    fn end_answered(&mut self, cog: u8, kept: u32, answer: Answer, clock: u64) -> Ending
        requires at { self.old.at < 512 }
        requires old { self.old.clock < 2 ^ 62 }
        requires clock { clock < 2 ^ 62 + 2 ^ 3 }
        ensures comes { ComesTo (played (ends_after cog self.old (answered kept answer) clock) []) result self.new }
        ensures keeps { Keeps result self.old self.new }
        ensures made { IsMadeIn result }
        ensures at { self.new.at < 512 }
        ensures clock { self.new.clock < 2 ^ 62 + 2 ^ 10 }
    {
        // Most writes keep nothing of their answer.
        if self.writes_nothing() {
            return self.end_after(cog, plain_effect(kept, false), clock, &[]);
        }
        let effect = answered(kept, answer);
        self.end_after(cog, effect, clock, &[])
    }

    /// Does an instruction of the hub, with the value of its source.
    #[inline(always)]
    fn use_hub(&mut self, cog: u8, source: u32, had: &[Turn]) -> Ending
        requires cog { cog < 8 }
        requires at { self.old.at < 512 }
        requires clock { self.old.clock + 1 < 2 ^ 62 }
        requires had { latest had.now < 2 ^ 62 }
        ensures comes { ComesTo (played (use_hub cog self.old source) had.now) result self.new }
        ensures keeps { Keeps result self.old self.new }
        ensures made { IsMadeIn result }
        ensures at { self.new.at < 512 }
        ensures clock { self.new.clock < 2 ^ 62 + 2 ^ 10 }
    {
        let Request { access, kept } = hub_request(
            decode(self.long),
            self.destination_value(),
            source,
        );
        match had {
            [] => {
                let clock = window(cog, self.clock + 1);
                Ending::Half { clock, access }
            }
            [turn, left @ ..] => {
                if is_last(cog, access) {
                    return Ending::Ended;
                }
                let effect = answered(kept, turn.answer);
                self.end_after(cog, effect, turn.key.clock + 6, left)
            }
        }
    }

    /// Does a wait, with the value of its source.
    #[inline(always)]
    fn wait(&mut self, cog: u8, source: u32, had: &[Turn]) -> Ending
        requires at { self.old.at < 512 }
        requires clock { self.old.clock < 2 ^ 62 }
        requires had { latest had.now < 2 ^ 62 }
        ensures comes { ComesTo (played (wait cog self.old source) had.now) result self.new }
        ensures keeps { Keeps result self.old self.new }
        ensures made { IsMadeIn result }
        ensures at { self.new.at < 512 }
        ensures clock { self.new.clock < 2 ^ 62 + 2 ^ 10 }
    {
        let value = self.destination_value();
        match had {
            [] => {
                let test = test_of(self.opcode(), value, source);
                Ending::Half {
                    clock: self.clock + 4,
                    access: Access::Wait { test },
                }
            }
            [turn, left @ ..] => {
                let effect = wait_effect(self.opcode(), value, source);
                self.end_after(cog, effect, turn.key.clock + 1, left)
            }
        }
    }

    /// How an instruction stands that halts.
    #[inline(always)]
    fn halted(&self, reason: Reason, had: &[Turn]) -> Ending
        ensures comes { ComesTo (played (halt self.now.clock reason) had.now) result self.now }
        ensures made { IsMadeIn result }
    {
        match had {
            [] => Ending::Half {
                clock: self.clock,
                access: Access::Halt { reason },
            },
            _ => Ending::Ended,
        }
    }

    /// WAITPEQ or WAITPNE for the port that this machine doesn't have.
    #[inline(always)]
    fn is_port_wait(&self) -> bool
        ensures { result ≡ is_port_wait self.now }
    {
        self.c && self.opcode() < WAITCNT
    }

    /// How an instruction stands that isn't the hub's and is to read its source by an access.
    #[inline(always)]
    fn asks_source(&self, access: Access) -> Ending
        requires { self.now.clock < 2 ^ 62 }
        ensures { result ≡ Half (self.now.clock + 2) access }
    {
        Ending::Half {
            clock: self.clock + 2,
            access,
        }
    }

    /// Begins or goes on with a wait.
    #[inline(always)]
    fn begin_wait(&mut self, cog: u8, had: &[Turn]) -> Ending
        requires at { self.old.at < 512 }
        requires clock { self.old.clock < 2 ^ 62 }
        requires had { latest had.now < 2 ^ 62 }
        ensures comes { ComesTo (played (does Waiting cog self.old) had.now) result self.new }
        ensures keeps { Keeps result self.old self.new }
        ensures made { IsMadeIn result }
        ensures at { self.new.at < 512 }
        ensures clock { self.new.clock < 2 ^ 62 + 2 ^ 10 }
    {
        if self.is_port_wait() {
            return self.halted(Reason::Port, had);
        }
        match self.source(had) {
            Ok((source, left)) => self.wait(cog, source, left),
            Err(access) => self.asks_source(access),
        }
    }

    /// Begins or goes on with an instruction of the hub.
    #[inline(always)]
    fn begin_hub(&mut self, cog: u8, had: &[Turn]) -> Ending
        requires cog { cog < 8 }
        requires at { self.old.at < 512 }
        requires clock { self.old.clock + 1 < 2 ^ 62 }
        requires had { latest had.now < 2 ^ 62 }
        ensures comes { ComesTo (played (does OfHub cog self.old) had.now) result self.new }
        ensures keeps { Keeps result self.old self.new }
        ensures made { IsMadeIn result }
        ensures at { self.new.at < 512 }
        ensures clock { self.new.clock < 2 ^ 62 + 2 ^ 10 }
    {
        match self.source(had) {
            Ok((source, left)) => self.use_hub(cog, source, left),
            Err(access) => {
                let clock = self.clock;
                Ending::Half { clock, access }
            }
        }
    }

    /// Begins or goes on with an instruction that computes.
    #[inline(always)]
    fn begin_computing(&mut self, cog: u8, had: &[Turn]) -> Ending
        requires first { 8 ≤ (at_hand self.old).opcode }
        requires last { (at_hand self.old).opcode ≤ 59 }
        requires at { self.old.at < 512 }
        requires clock { self.old.clock < 2 ^ 62 }
        ensures comes { ComesTo (played (does Computing cog self.old) had.now) result self.new }
        ensures keeps { Keeps result self.old self.new }
        ensures made { IsMadeIn result }
        ensures at { self.new.at < 512 }
        ensures clock { self.new.clock < 2 ^ 62 + 2 ^ 10 }
    {
        match self.source(had) {
            Ok((source, left)) => self.compute(cog, source, left),
            Err(access) => self.asks_source(access),
        }
    }

    /// Goes as far with the instruction at hand as the turns bring it that its accesses have had.
    #[inline(always)]
    pub fn advance(&mut self, cog: u8, had: &[Turn]) -> Ending
        requires at { self.old.at < 512 }
        requires cog { cog < 8 }
        requires clock { self.old.clock + 1 < 2 ^ 62 }
        requires had { latest had.now < 2 ^ 62 }
        ensures comes { ComesTo (played (instruction cog self.old) had.now) result self.new }
        ensures keeps { Keeps result self.old self.new }
        ensures made { IsMadeIn result }
        ensures at { self.new.at < 512 }
        ensures clock { self.new.clock < 2 ^ 62 + 2 ^ 10 }
    {
        match kind_of(decode(self.long), self.c, self.z) {
            InstructionKind::Skipped => {
                self.pass();
                Ending::Whole
            }
            InstructionKind::Computing => self.begin_computing(cog, had),
            InstructionKind::OfHub => self.begin_hub(cog, had),
            InstructionKind::Waiting => self.begin_wait(cog, had),
            InstructionKind::Halting => self.halted(Reason::Opcode(self.long), had),
        }
    }

    /// What an instruction of the hub asks, where no access reads its source.
    #[inline(always)]
    fn request_of(&self) -> Option<Request>
        ensures none { IfSome result (λ r. source_access (at_hand self.now) ≡ None) }
        ensures request { IfSome result (λ r. r ≡ hub_request (at_hand self.now) (destination_value self.now) (source_value self.now)) }
        ensures made { IfSome result (λ r. IsMade r.access) }
    {
        if self.asks_for_source() {
            return None;
        }
        let source = self.source_value();
        Some(hub_request(decode(self.long), self.destination_value(), source))
    }

    /// Ends the instruction at hand, which asked the hub, by its turn. Its result is `kept` where the answer
    /// holds no number.
    #[inline(always)]
    fn answer_hub(&mut self, cog: u8, kept: u32, turn: &Turn) -> Ending
        requires at { self.old.at < 512 }
        requires cog { cog < 8 }
        requires clock { self.old.clock + 1 < 2 ^ 62 }
        requires below { turn.now.key.clock < 2 ^ 62 }
        requires comes { Comes (played (instruction cog self.old) []) turn.now }
        requires kept { IsAtHub self.old kept }
        ensures comes { ComesTo (played (instruction cog self.old) (turn.now ∷ [])) result self.new }
        ensures keeps { Keeps result self.old self.new }
        ensures made { IsMadeIn result }
        ensures at { self.new.at < 512 }
        ensures clock { self.new.clock < 2 ^ 62 + 2 ^ 10 }
    {
        if is_last(cog, turn.access) {
            return Ending::Ended;
        }
        self.end_answered(cog, kept, turn.answer, turn.key.clock + 6)
    }

    /// Goes on with the instruction at hand by its first turn, whatever it asked.
    ///
    /// It is never inlined, so that the way of most instructions of the hub keeps no room for it.
    #[inline(never)]
    fn advance_by(&mut self, cog: u8, turn: &Turn) -> Ending
        requires at { self.old.at < 512 }
        requires cog { cog < 8 }
        requires clock { self.old.clock + 1 < 2 ^ 62 }
        requires below { turn.now.key.clock < 2 ^ 62 }
        ensures comes { ComesTo (played (instruction cog self.old) (turn.now ∷ [])) result self.new }
        ensures keeps { Keeps result self.old self.new }
        ensures made { IsMadeIn result }
        ensures at { self.new.at < 512 }
        ensures clock { self.new.clock < 2 ^ 62 + 2 ^ 10 }
    {
        self.advance(cog, &[*turn])
    }

    /// Goes on with the instruction at hand by its first turn.
    #[inline(always)]
    pub fn first_turn(&mut self, cog: u8, kept: Option<u32>, turn: &Turn) -> Ending
        requires at { self.old.at < 512 }
        requires cog { cog < 8 }
        requires clock { self.old.clock + 1 < 2 ^ 62 }
        requires below { turn.now.key.clock < 2 ^ 62 }
        requires comes { Comes (played (instruction cog self.old) []) turn.now }
        requires kept { (k : ℕ) → kept ≡ Some k → IsAtHub self.old k }
        ensures comes { ComesTo (played (instruction cog self.old) (turn.now ∷ [])) result self.new }
        ensures keeps { Keeps result self.old self.new }
        ensures made { IsMadeIn result }
        ensures at { self.new.at < 512 }
        ensures clock { self.new.clock < 2 ^ 62 + 2 ^ 10 }
    {
        match kept {
            Some(kept) => self.answer_hub(cog, kept, turn),
            None => self.advance_by(cog, turn),
        }
    }

    /// What the instruction at hand asks of the hub, where it is the hub's and no access reads its source.
    #[inline(always)]
    pub fn request(&self) -> Option<Request>
        ensures at_hub { IfSome result (λ r. IsAtHub self.now r.kept) }
        ensures asks { IfSome result (λ r. (cog : ℕ) → played (instruction cog self.now) [] ≡ Asks (window_of cog (self.now.clock + 1)) r.access) }
        ensures made { IfSome result (λ r. IsMade r.access) }
    {
        match kind_of(decode(self.long), self.c, self.z) {
            InstructionKind::OfHub => self.request_of(),
            InstructionKind::Skipped
            | InstructionKind::Computing
            | InstructionKind::Waiting
            | InstructionKind::Halting => None,
        }
    }

    /// Does an instruction that computes, whatever registers it names, and tells whether it did: it does nothing
    /// where it asks.
    ///
    /// It is never inlined, so that the way of most instructions holds no branch and no call behind its jump table.
    #[inline(never)]
    fn compute_special(&mut self) -> bool
        requires first { 8 ≤ (at_hand self.old).opcode }
        requires last { (at_hand self.old).opcode ≤ 59 }
        requires at { self.old.at < 512 }
        requires clock { self.old.clock < 2 ^ 62 }
        ensures done { result ≡ true → (cog : ℕ) → played (does Computing cog self.old) [] ≡ Goes self.new [] }
        ensures asks { result ≡ false → (cog : ℕ) → is_asking (played (does Computing cog self.old) []) ≡ true }
        ensures kept { result ≡ false → self.new ≡ self.old }
        ensures at { self.new.at < 512 }
        ensures clock { self.new.clock < 2 ^ 62 + 2 ^ 10 }
    {
        if self.asks_for_source() {
            return false;
        }
        let source = self.source_value();
        let effect = self.effect(source);
        if result_access(decode(self.long), effect.result).is_some() {
            return false;
        }
        self.end_computed(source, &effect);
        true
    }

    /// Does an instruction that computes, and tells whether it did: it does nothing where it asks.
    #[inline(always)]
    fn compute_apart(&mut self) -> bool
        requires first { 8 ≤ (at_hand self.old).opcode }
        requires last { (at_hand self.old).opcode ≤ 59 }
        requires at { self.old.at < 512 }
        requires clock { self.old.clock < 2 ^ 62 }
        ensures done { result ≡ true → (cog : ℕ) → played (does Computing cog self.old) [] ≡ Goes self.new [] }
        ensures asks { result ≡ false → (cog : ℕ) → is_asking (played (does Computing cog self.old) []) ≡ true }
        ensures kept { result ≡ false → self.new ≡ self.old }
        ensures at { self.new.at < 512 }
        ensures clock { self.new.clock < 2 ^ 62 + 2 ^ 10 }
    {
        if self.has_special_source() {
            return self.compute_special();
        }
        let source = self.source_value();
        if self.has_special_destination() {
            return self.compute_special();
        }
        let effect = self.effect(source);
        self.end_computed(source, &effect);
        true
    }

    /// Does the instruction at hand, and tells whether it did: it does nothing where it asks.
    ///
    /// So a loop of instructions holds no call that takes the state and comes back.
    #[inline(always)]
    pub fn run_apart(&mut self) -> bool
        requires at { self.old.at < 512 }
        requires clock { self.old.clock < 2 ^ 62 }
        ensures done { result ≡ true → (cog : ℕ) → played (instruction cog self.old) [] ≡ Goes self.new [] }
        ensures asks { result ≡ false → (cog : ℕ) → is_asking (played (instruction cog self.old) []) ≡ true }
        ensures kept { result ≡ false → self.new ≡ self.old }
        ensures at { self.new.at < 512 }
        ensures clock { self.new.clock < 2 ^ 62 + 2 ^ 10 }
    {
        if !self.executes() {
            self.pass();
            return true;
        }
        match self.kind() {
            InstructionKind::Computing => self.compute_apart(),
            InstructionKind::OfHub
            | InstructionKind::Waiting
            | InstructionKind::Halting
            | InstructionKind::Skipped => false,
        }
    }
}
