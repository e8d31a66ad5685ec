// The value that keeps where a record stands, and makes its turns.
ghost use Rattle.std.specs.Prelude.{Bool, ◌≡◌, ◌<◌, ◌≤◌, ◌+◌, ◌^◌, ◌⊎◌, ◌∷◌, ◌++◌, [], ℕ, List, Some, None, true, Option, length, reverse, slice_get};
ghost use Rattle.std.specs.Prelude.{slice_index, IfOk, IfSome, MatchOption, IsTrue, ◌↔◌};
ghost use Rattle.p8_access.specs.declared.kinds.Access.TheVariants.{PinsIn};
ghost use Rattle.p8_access.specs.declared.kinds.Access.{Access};
ghost use Rattle.p8_access.specs.declared.kinds.Origin.{Origin};
ghost use Rattle.p8_access.specs.declared.kinds.Test.{Test};
ghost use Rattle.p8_access.specs.declared.lives.Next.TheVariants.{At, More};
ghost use Rattle.p8_access.specs.declared.states.CogState.TheVariants.{Running};
ghost use Rattle.p8_access.specs.Lives.{IsMade, IsMadeNext, announced_by};
ghost use Rattle.p8_access.specs.Proper.{IsProper, IsProperOrigin, Fits};
ghost use Rattle.p8_access.specs.Worlds.{World, level_at};
ghost use Rattle.p8_access.specs.Hub.{cog_state};
ghost use Rattle.p8_access.specs.Histories.{answer_to, Extends};
ghost use Rattle.p8_hub.specs.Standing.{IsHub};
ghost use Rattle.p8_cog.specs.Lives.{asks};
ghost use Rattle.p8_ledger.specs.Coming.{WaitsFrom, IsClockIn, IsFirstKey};
ghost use Rattle.p8_ledger.specs.Fronts.{IsFront};
ghost use Rattle.p8_ledger.specs.Waiting.{newest_key, IsSpanFrom, IsNextAt};
ghost use Rattle.p8_ledger.specs.Standing.{FitsState};
ghost use Rattle.p8_ledger.specs.Worlds.{world_of};
ghost use Rattle.p8_region.specs.Bounded.{bounded};
ghost use Rattle.p8_ledger.specs.declared.steps.Step.TheVariants.{Took, Said};
ghost use Rattle.p8_ledger.specs.Records.{Record, turns, said, IsTrueOf, Owes, HasFront, IsLeastFront, NoFront};
ghost use Rattle.p8_ledger.specs.Turns.{AreProper, is_prop-AreProper};
ghost use Rattle.p8_ledger.specs.Dues.{IsDueAt, Suits, SuitsIf, IsPlain, IsPlainIn, LeavesCogs, AllMade, is_prop-AllMade};
ghost use Rattle.std.proofs.Props.{props};

use crate::due::{Due, first_access};
use crate::fronts::{Front, Fronts, NEVER, first_front, front_of};
use crate::outcome::{Ended, History, Limits};
use crate::start::Start;
use crate::waits::{is_timely, is_wait, next_line, wake_clock};
use p8_access::{Access, Boot, CogState, Key, Next, Ram, Turn};
use p8_hub::Hub;
use p8_pins::{PinScript, Span};
use p8_region::Strip;
use p8_words::NoMemory;
use std::alloc::Global;

/// What a cog gets that asks for its turn.
#[derive(Clone, Copy, Debug, PartialEq, Eq)]
pub enum Taken {
    /// Its turn, which came next and is made. Where the cog was running its life has to take it; else the
    /// cog was starting, and with a Load or a Begin a new life begins.
    Done { turn: Turn, running: bool },
    /// The least front is its own promise, of the clock `bound`: it has to run on and say more.
    Ahead { bound: u64 },
    /// The least front is that of another cog, at the clock `bound`.
    After { cog: u8, bound: u64 },
    /// No turn comes any more.
    Over,
}

/// What comes first of all that the cogs have said.
#[derive(Clone, Copy, Debug, PartialEq, Eq)]
pub enum First {
    /// The turn that came next, and is made. Where its cog was running its life has to take it; else the cog was
    /// starting, and with a Load or a Begin a new life begins.
    Done { turn: Turn, running: bool },
    /// The least front is a promise of this cog, of the clock `bound`: it has to run on and say more.
    Ahead { cog: u8, bound: u64 },
    /// No turn comes any more.
    Over,
}

/// Where a record stands: its turns, the hub after them and what each cog has said last.
#[derive(Drop)]
pub struct Ledger {
    boot: Boot,
    limits: Limits,
    hub: Hub,
    turns: Strip<Turn>,
    /// What each cog has said since its last turn.
    sayings: [Next; 8],
    /// The front of each cog, by its state and by what it has said.
    fronts: Fronts,
    /// The span of the script in which a turn was found, where that was looked for last. It only saves searching: none
    /// of what is proved rests on it.
    span: Span,
    ghost clocks: { limits.clocks ≤ 4000000000 },
    ghost room: { turns.room ≡ limits.turns },
    ghost small: { IfSome (newest_key (reverse turns.list)) (λ key. key.clock < 2 ^ 61) } by { Prim.hlevel props },
    ghost eight: { length sayings ≡ 8 },
    ghost made: { AllMade sayings } by { is_prop-AllMade sayings },
    ghost proper: { AreProper turns.list } by { is_prop-AreProper turns.list },
}

/// A turn that was made, and whether its cog was running before it.
#[derive(Clone, Copy)]
struct Made {
    turn: Turn,
    running: bool,
}

/// The least key of all that may come.
#[derive(Clone, Copy)]
struct Least {
    key: Key,
    /// The span of the script in which it was found, where a wait had to be looked at.
    searched: Option<Span>,
}

impl Ledger {
    ghost use Rattle.p8_ledger.specs.Ledgers.{Found, Decides, taken_by, CanBeTaken, DecidesFirst, after_first};
    ghost use Rattle.p8_ledger.specs.Advances.{HasMade, Advances, HasSaid};
    ghost use Rattle.p8_ledger.specs.Granted.{IsGranted, granted_by};

    /// A ledger before the first turn. `log` is to hold the turns: it is empty, with room for as many as the
    /// limit. The hub's memory is taken here, and no other call takes any.
    ///
    /// # Errors
    ///
    /// `NoMemory` where there is no memory for the hub.
    pub fn open(alloc: Global, start: &Start, log: Strip<Turn>) -> Result<Ledger, NoMemory>
        requires clocks { start.now.limits.clocks ≤ 4000000000 }
        requires first { IsProperOrigin start.now.boot.first }
        requires log { log ≡ bounded [] start.now.limits.turns }
        ensures { IfOk result (λ ledger. Found (world_of start.now.boot start.now.script start.now.limits) ledger []) }
    {
        let hub = Hub::open(alloc, &start.boot)?;
        let span = start.script.span_at(0);
        let sayings = [Next::More { bound: 0 }; 8];
        let fronts = Fronts::open(&hub, &sayings, start.limits.clocks);
        Ok(Ledger {
            boot: Boot {
                ram: start.boot.ram.share(),
                first: start.boot.first,
            },
            limits: start.limits,
            hub,
            turns: log,
            sayings,
            fronts,
            span,
        })
    }

    /// How many turns were made.
    pub fn count(&self) -> u64
        ensures { (w : World) (r : Record) → Found w self.now r → result ≡ length (turns r) }
    {
        self.turns.len() as u64
    }

    /// What a cog is doing.
    pub fn state(&self, cog: u8) -> CogState
        requires { cog < 8 }
        ensures { (w : World) (r : Record) → Found w self.now r → result ≡ cog_state w (turns r) cog }
    {
        self.hub.state(cog)
    }

    /// The memory of the boot, in which the code of Spin stands.
    pub fn memory(&self) -> &Ram
        ensures { (w : World) (r : Record) → Found w self.now r → result.now ≡ w.memory }
    {
        &self.boot.ram
    }

    /// The last turn that was made, where it stands in the log.
    #[inline(always)]
    pub fn newest(&self) -> &Turn
        requires { 0 < length self.now.turns.list }
        ensures { (before : List Turn) × (self.now.turns.list ≡ before ++ result.now ∷ []) }
    {
        let turns = self.turns.as_slice();
        &turns[turns.len() - 1]
    }

    /// The clock up to which turns come.
    #[inline]
    pub fn limit(&self) -> u64
        ensures limit { result ≡ self.now.limits.clocks }
        ensures small { result ≤ 4000000000 }
    {
        self.limits.clocks
    }

    /// Whether a cog, below 8, owes a saying: there is room for a turn, the cog runs, and the last that it said
    /// is a promise.
    pub fn owes(&self, cog: u8) -> bool
        requires { cog < 8 }
        ensures { (w : World) (r : Record) → Found w self.now r → IsTrue result ↔ Owes w r cog }
    {
        if self.turns.len() as u64 >= self.limits.turns {
            return false;
        }
        match self.hub.state(cog) {
            CogState::Running { .. } => is_promise(self.sayings[cog as usize]),
            _ => false,
        }
    }

    /// What a cog, below 8, has said last of its next access. After a turn of its own that is a promise.
    pub fn said(&self, cog: u8) -> Next
        requires { cog < 8 }
        ensures { (w : World) (r : Record) → Found w self.now r → result ≡ said cog r }
    {
        self.sayings[cog as usize]
    }

    /// Notes what a running cog, below 8, says of its next access. It has to be true, and an access that a life makes.
    pub fn say(&mut self, cog: u8, next: Next)
        requires cog { cog < 8 }
        requires made { IsMadeNext next }
        ensures found { (w : World) (r : Record) → Found w self.old r → IsTrueOf w (turns r) cog next →
            ((origin : Origin) × (cog_state w (turns r) cog ≡ Running origin)) → Found w self.new (Said cog next ∷ r) }
        ensures said { HasSaid self.old self.new cog next }
    {
        self.sayings[cog as usize] = next;
        self.fronts.say(cog, next, self.limits.clocks);
    }
}

impl Ledger {
    ghost use Rattle.p8_ledger.specs.Ledgers.{Found, Decides, taken_by, CanBeTaken, DecidesFirst, after_first};
    ghost use Rattle.p8_ledger.specs.Advances.{HasMade, Advances, HasSaid};
    ghost use Rattle.p8_ledger.specs.Granted.{IsGranted, granted_by};

    /// The front of a cog, or where it waits the clock from which its wait may end.
    #[inline]
    fn front(&self, cog: u8) -> Front
        requires { cog < 8 }
        ensures { (w : World) (r : Record) → Found w self.now r → IsFront cog w.clocks (cog_state w (turns r) cog) (said cog r) result.clock result.test }
    {
        front_of(
            cog,
            self.hub.state(cog),
            self.sayings[cog as usize],
            self.limits.clocks,
        )
    }

    /// The clock of a cog for the search of what comes in a span of the script, which begins at `from` or
    /// before.
    #[inline]
    fn clock_in(&self, cog: u8, from: u64, span: &Span) -> u64
        requires { cog < 8 }
        ensures { (w : World) (r : Record) → Found w self.now r → IsSpanFrom w.script from span.now → WaitsFrom w r from →
            IsClockIn w r span.now.end cog result }
    {
        let front = self.front(cog);
        match front.test {
            None => front.clock,
            Some(test) => {
                match wake_clock(&self.hub, self.last(), cog, &test, front.clock, from, span) {
                    None => NEVER,
                    Some(clock) => clock,
                }
            }
        }
    }

    /// The key of the turn that comes first in a span of the script, which begins at `from` or before.
    fn first_in(&self, from: u64, span: &Span) -> Key
        ensures near { result.cog < 8 }
        ensures first { (w : World) (r : Record) → Found w self.now r → IsSpanFrom w.script from span.now → WaitsFrom w r from →
            IsFirstKey w r span.now.end result }
    {
        let mut clocks = [NEVER; 8];
        for cog in 0..8 {
            clocks[cog as usize] = self.clock_in(cog, from, span);
        }
        first_front(&clocks)
    }

    /// The key of the turn that comes first where the cog with the least front waits.
    ///
    /// Up to the next line of the script the levels stay the same. Where no turn comes before that line,
    /// all is looked at again from it on: so each line is passed once, whatever waits for it.
    ///
    /// `span` is where the search began and where it ended.
    #[inline(never)]
    fn first_by_spans(&self, script: &PinScript, span: &mut Span) -> Key
        ensures near { result.cog < 8 }
        ensures first { (w : World) (r : Record) → script.now ≡ w.script → Found w self.now r → IsFirstKey w r None result }
    {
        let mut from = self.now();
        'spans: loop {
            *span = script.span_near(span, from);
            let key = self.first_in(from, span);
            match next_line(key.clock, span.end, self.limits.clocks) {
                None => return key,
                Some(clock) => from = clock,
            }
        }
    }

    /// The least front of all where the cog that has it waits.
    #[inline(never)]
    fn first_waiting(&self, script: &PinScript) -> Least
        ensures near { result.key.cog < 8 }
        ensures first { (w : World) (r : Record) → script.now ≡ w.script → Found w self.now r → IsFirstKey w r None result.key }
    {
        let mut span = self.span;
        let key = self.first_by_spans(script, &mut span);
        Least {
            key,
            searched: Some(span),
        }
    }

    /// The least front of all, where it is below the limit; else no cog has one.
    #[inline(always)]
    fn first_key(&self, script: &PinScript) -> Least
        ensures near { result.key.cog < 8 }
        ensures first { (w : World) (r : Record) → script.now ≡ w.script → Found w self.now r → IsFirstKey w r None result.key }
    {
        let key = first_front(&self.fronts.clocks);
        match self.front(key.cog).test {
            None => Least {
                key,
                searched: None,
            },
            Some(_) => self.first_waiting(script),
        }
    }

    /// The clock of the last turn, or 0 before the first.
    fn now(&self) -> u64
        ensures from { (w : World) (r : Record) → Found w self.now r → WaitsFrom w r result }
        ensures small { result < 2 ^ 61 }
    {
        match self.last() {
            None => 0,
            Some(key) => key.clock,
        }
    }

    /// The key of the last turn.
    fn last(&self) -> Option<Key>
        ensures key { result ≡ newest_key (reverse self.now.turns.list) }
        ensures small { IfSome result (λ key. key.clock < 2 ^ 61) }
    {
        if self.turns.is_empty() {
            None
        } else {
            Some(self.newest().key)
        }
    }
}

impl Ledger {
    ghost use Rattle.p8_ledger.specs.Ledgers.{Found, Decides, taken_by, CanBeTaken, DecidesFirst, after_first};
    ghost use Rattle.p8_ledger.specs.Advances.{HasMade, Advances, HasSaid};
    ghost use Rattle.p8_ledger.specs.Granted.{IsGranted, granted_by};

    /// The least front, where a turn may come: where there is room for one, and that front is below the limit.
    #[inline(always)]
    fn least(&self, script: &PinScript) -> Option<Least>
        ensures least { (w : World) (r : Record) → script.now ≡ w.script → Found w self.now r →
            MatchOption result ((length (turns r) ≡ w.turns) ⊎ NoFront w r) (λ least. (length (turns r) < w.turns) × IsLeastFront w r least.key) }
        ensures suits { IfSome result (λ least. (least.key.cog < 8) × (least.key.clock < 2 ^ 61) × (length self.now.turns.list < self.now.turns.room)) }
    {
        if self.turns.len() as u64 >= self.limits.turns {
            return None;
        }
        let least = self.first_key(script);
        if least.key.clock >= self.limits.clocks {
            return None;
        }
        Some(least)
    }

    /// What stands at the front of a cog, which is at this clock: an access, or None for a promise.
    #[inline(always)]
    fn due_at(&self, cog: u8, clock: u64) -> Option<Due>
        requires { cog < 8 }
        ensures due { (w : World) (r : Record) → Found w self.now r → HasFront w r cog clock → IsDueAt w r cog clock result }
        ensures suits { SuitsIf self.now.sayings cog clock result }
    {
        match self.hub.state(cog) {
            CogState::Stopped => None,
            CogState::Starting { origin, .. } => Some(Due {
                access: first_access(origin),
                running: false,
            }),
            CogState::Running { .. } => match said_at(self.sayings[cog as usize], clock) {
                None => None,
                Some(access) => Some(Due {
                    access,
                    running: true,
                }),
            },
        }
    }

    /// Makes a turn.
    #[inline(always)]
    fn make(&mut self, script: &PinScript, key: Key, due: Due) -> Turn
        requires cog { key.cog < 8 }
        requires clock { key.clock < 2 ^ 61 }
        requires suits { Suits self.old.sayings key.cog key.clock due }
        requires room { length self.old.turns.list < self.old.turns.room }
        ensures key { result.key ≡ key }
        ensures access { result.access ≡ due.access }
        ensures answer { (w : World) (r : Record) → script.now ≡ w.script → Found w self.old r → result.answer ≡ answer_to w (turns r) key due.access }
        ensures made { HasMade self.old self.new result due.running }
        ensures found { (w : World) (r : Record) → Found w self.old r → Extends asks w (turns r) result →
            FitsState due.running (cog_state w (turns r) key.cog) → Found w self.new (Took result ∷ r) }
    {
        let levels = levels(script, &due.access, key.clock, &self.span);
        let answer = self.hub.answer(key, &due.access, levels);
        let turn = Turn {
            key,
            access: due.access,
            answer,
        };
        self.sayings[key.cog as usize] = Next::More {
            bound: key.clock + 1,
        };
        self.fronts
            .settle(&self.hub, &self.sayings, &turn, self.limits.clocks);
        add(&mut self.turns, turn);
        turn
    }

    /// Makes the turn of a running cog by an access that starts and stops no cog: so its own front alone moves, and its state isn't looked at.
    #[inline(always)]
    fn make_alone(&mut self, script: &PinScript, key: Key, access: Access) -> Turn
        requires cog { key.cog < 8 }
        requires clock { key.clock < 2 ^ 61 }
        requires suits { Suits self.old.sayings key.cog key.clock (record { access = access; running = true }) }
        requires leaves { LeavesCogs access }
        requires room { length self.old.turns.list < self.old.turns.room }
        ensures key { result.key ≡ key }
        ensures access { result.access ≡ access }
        ensures answer { (w : World) (r : Record) → script.now ≡ w.script → Found w self.old r → result.answer ≡ answer_to w (turns r) key access }
        ensures made { HasMade self.old self.new result true }
        ensures found { (w : World) (r : Record) → Found w self.old r → Extends asks w (turns r) result →
            FitsState true (cog_state w (turns r) key.cog) → Found w self.new (Took result ∷ r) }
    {
        let levels = levels(script, &access, key.clock, &self.span);
        let answer = self.hub.answer(key, &access, levels);
        let turn = Turn {
            key,
            access,
            answer,
        };
        let bound = key.clock + 1;
        self.sayings[key.cog as usize] = Next::More { bound };
        self.fronts.put(key.cog, bound);
        add(&mut self.turns, turn);
        turn
    }

    /// Notes in which span of the script the last turn was found, where that was looked for.
    #[inline(always)]
    fn record_span(&mut self, searched: Option<Span>)
        ensures found { (w : World) (r : Record) → Found w self.old r → Found w self.new r }
        ensures made { (old : Ledger) (turn : Turn) (running : Bool) → HasMade old self.old turn running → HasMade old self.new turn running }
    {
        if let Some(span) = searched {
            self.span = span;
        }
    }

    /// Makes the turn at the least front, or None where that is a promise.
    #[inline(always)]
    fn grant(&mut self, script: &PinScript, key: Key) -> Option<Made>
        requires cog { key.cog < 8 }
        requires clock { key.clock < 2 ^ 61 }
        requires room { length self.old.turns.list < self.old.turns.room }
        ensures granted { (w : World) (r : Record) → script.now ≡ w.script → Found w self.old r → IsLeastFront w r key → IsGranted w r key result }
        ensures found { (w : World) (r : Record) → script.now ≡ w.script → Found w self.old r → IsLeastFront w r key → Found w self.new (granted_by result r) }
        ensures made { MatchOption result (self.new ≡ self.old) (λ made. HasMade self.old self.new made.turn made.running) }
    {
        match self.due_at(key.cog, key.clock) {
            None => None,
            Some(due) => {
                let turn = self.make(script, key, due);
                Some(Made {
                    turn,
                    running: due.running,
                })
            }
        }
    }

    /// The least front, where there is room for a turn and that front is an access of a running cog that is no wait: so it is for most turns.
    #[inline(always)]
    fn plain(&self) -> Option<Key>
        ensures suits { IfSome result (λ key. (key.cog < 8) × (key.clock < 2 ^ 61) × (length self.now.turns.list < self.now.turns.room) ×
            IsPlainIn self.now.sayings key.cog key.clock) }
        ensures least { (w : World) (r : Record) → Found w self.now r →
            IfSome result (λ key. ((origin : Origin) × (cog_state w (turns r) key.cog ≡ Running origin)) × IsLeastFront w r key) }
    {
        if self.turns.len() as u64 >= self.limits.turns {
            return None;
        }
        let key = first_front(&self.fronts.clocks);
        if key.clock >= self.limits.clocks {
            return None;
        }
        match self.hub.state(key.cog) {
            CogState::Running { .. } => self.plain_at(key),
            _ => None,
        }
    }

    /// A key, where its cog has said a plain access at its clock.
    #[inline(always)]
    fn plain_at(&self, key: Key) -> Option<Key>
        requires { key.cog < 8 }
        ensures { IfSome result (λ it. (it ≡ key) × IsPlainIn self.now.sayings key.cog key.clock) }
    {
        if is_plain(&self.sayings[key.cog as usize], key.clock) {
            Some(key)
        } else {
            None
        }
    }

    /// Makes the turn of an access where it stands among the sayings, from which it is copied into the log alone.
    #[inline(always)]
    fn make_in_place(&mut self, script: &PinScript, key: Key) -> Turn
        requires cog { key.cog < 8 }
        requires clock { key.clock < 2 ^ 61 }
        requires room { length self.old.turns.list < self.old.turns.room }
        requires plain { IsPlainIn self.old.sayings key.cog key.clock }
        ensures key { result.key ≡ key }
        ensures suits { Suits self.old.sayings key.cog key.clock (record { access = result.access; running = true }) }
        ensures answer { (w : World) (r : Record) → script.now ≡ w.script → Found w self.old r → result.answer ≡ answer_to w (turns r) key result.access }
        ensures made { HasMade self.old self.new result true }
        ensures found { (w : World) (r : Record) → Found w self.old r → Extends asks w (turns r) result →
            FitsState true (cog_state w (turns r) key.cog) → Found w self.new (Took result ∷ r) }
    {
        let access = access_in(&self.sayings[key.cog as usize]);
        let levels = levels(script, access, key.clock, &self.span);
        let answer = self.hub.answer(key, access, levels);
        let turn = Turn {
            key,
            access: *access,
            answer,
        };
        self.sayings[key.cog as usize] = Next::More {
            bound: key.clock + 1,
        };
        self.fronts
            .settle(&self.hub, &self.sayings, &turn, self.limits.clocks);
        add(&mut self.turns, turn);
        turn
    }

    /// The access that a cog has said, where that is a plain one at this key's clock.
    #[inline(always)]
    fn plain_access(&self, key: Key) -> &Access
        requires cog { key.cog < 8 }
        requires plain { IsPlainIn self.now.sayings key.cog key.clock }
        ensures { Suits self.now.sayings key.cog key.clock (record { access = result.now; running = true }) }
    {
        access_in(&self.sayings[key.cog as usize])
    }

    /// Makes the turn of an access that is said. A read or a write of the hub's memory, as most of them are, goes a way of its
    /// own, in which the compiler knows the access: nothing is looked up in a table there, and its answer is no value that is joined with others.
    #[inline(always)]
    fn make_said(&mut self, script: &PinScript, key: Key) -> Turn
        requires cog { key.cog < 8 }
        requires clock { key.clock < 2 ^ 61 }
        requires room { length self.old.turns.list < self.old.turns.room }
        requires plain { IsPlainIn self.old.sayings key.cog key.clock }
        ensures key { result.key ≡ key }
        ensures suits { Suits self.old.sayings key.cog key.clock (record { access = result.access; running = true }) }
        ensures answer { (w : World) (r : Record) → script.now ≡ w.script → Found w self.old r → result.answer ≡ answer_to w (turns r) key result.access }
        ensures made { HasMade self.old self.new result true }
        ensures found { (w : World) (r : Record) → Found w self.old r → Extends asks w (turns r) result →
            FitsState true (cog_state w (turns r) key.cog) → Found w self.new (Took result ∷ r) }
    {
        match *self.plain_access(key) {
            Access::Write {
                width,
                address,
                value,
            } => {
                let access = Access::Write {
                    width,
                    address,
                    value,
                };
                self.make_alone(script, key, access)
            }
            Access::Read { width, address } => {
                let access = Access::Read { width, address };
                self.make_alone(script, key, access)
            }
            _ => self.make_in_place(script, key),
        }
    }

    /// Makes the turn of the cog with the least front, whatever stands there. It is not inlined, so that no value of it takes a register of
    /// the processor from the turns that are plain.
    #[inline(never)]
    fn take_any(&mut self, script: &PinScript) -> First
        ensures decides { (w : World) (r : Record) → script.now ≡ w.script → Found w self.old r → DecidesFirst w r result }
        ensures found { (w : World) (r : Record) → script.now ≡ w.script → Found w self.old r → Found w self.new (after_first result r) }
        ensures advances { Advances self.old self.new result }
    {
        match self.least(script) {
            None => First::Over,
            Some(Least { key, searched }) => match self.grant(script, key) {
                None => First::Ahead {
                    cog: key.cog,
                    bound: key.clock,
                },
                Some(made) => {
                    self.record_span(searched);
                    First::Done {
                        turn: made.turn,
                        running: made.running,
                    }
                }
            },
        }
    }

    /// Makes the turn of the cog with the least front, whatever stands there. This is a function of its own because the compiler clears the
    /// memory for the result of a call where the function begins that makes the call: so no turn that is plain does it.
    #[inline(always)]
    fn take_other(&mut self, script: &PinScript) -> First
        ensures decides { (w : World) (r : Record) → script.now ≡ w.script → Found w self.old r → DecidesFirst w r result }
        ensures found { (w : World) (r : Record) → script.now ≡ w.script → Found w self.old r → Found w self.new (after_first result r) }
        ensures advances { Advances self.old self.new result }
    {
        // In a variable of its own, since a result that a call has written is kept in memory on the other way as well.
        let first = self.take_any(script);
        first
    }

    /// Makes the turn of the cog with the least front, whichever it is. `script` is that of the run. It waits for
    /// nobody and takes no memory.
    #[inline(always)]
    pub fn take_first(&mut self, script: &PinScript) -> First
        ensures decides { (w : World) (r : Record) → script.now ≡ w.script → Found w self.old r → DecidesFirst w r result }
        ensures found { (w : World) (r : Record) → script.now ≡ w.script → Found w self.old r → Found w self.new (after_first result r) }
        ensures advances { Advances self.old self.new result }
    {
        match self.plain() {
            None => self.take_other(script),
            Some(key) => {
                let turn = self.make_said(script, key);
                First::Done {
                    turn,
                    running: true,
                }
            }
        }
    }

    /// What a cog, below 8, gets that asks for its turn, whatever stands at the least front. It is not inlined, for the same reason as `take_any`.
    #[inline(never)]
    fn take_by_front(&mut self, script: &PinScript, cog: u8) -> Taken
        requires { cog < 8 }
        ensures decides { (w : World) (r : Record) → script.now ≡ w.script → Found w self.old r → Decides w r cog result }
        ensures found { (w : World) (r : Record) → script.now ≡ w.script → Found w self.old r → Found w self.new (taken_by result r) }
        ensures takes { CanBeTaken result }
    {
        match self.least(script) {
            None => Taken::Over,
            Some(Least { key, searched }) => {
                if key.cog != cog {
                    return Taken::After {
                        cog: key.cog,
                        bound: key.clock,
                    };
                }
                match self.grant(script, key) {
                    None => Taken::Ahead { bound: key.clock },
                    Some(made) => {
                        self.record_span(searched);
                        Taken::Done {
                            turn: made.turn,
                            running: made.running,
                        }
                    }
                }
            }
        }
    }

    /// The same. It is a function of its own for the same reason as `take_other`.
    #[inline(always)]
    fn take_otherwise(&mut self, script: &PinScript, cog: u8) -> Taken
        requires { cog < 8 }
        ensures decides { (w : World) (r : Record) → script.now ≡ w.script → Found w self.old r → Decides w r cog result }
        ensures found { (w : World) (r : Record) → script.now ≡ w.script → Found w self.old r → Found w self.new (taken_by result r) }
        ensures takes { CanBeTaken result }
    {
        // In a variable of its own, as there.
        let taken = self.take_by_front(script, cog);
        taken
    }

    /// What a cog, below 8, gets that asks for its turn. The least front decides: the turn is made where it is
    /// the key of this cog's next turn. `script` is that of the run. It waits for nobody and takes no memory.
    pub fn take(&mut self, script: &PinScript, cog: u8) -> Taken
        requires { cog < 8 }
        ensures decides { (w : World) (r : Record) → script.now ≡ w.script → Found w self.old r → Decides w r cog result }
        ensures found { (w : World) (r : Record) → script.now ≡ w.script → Found w self.old r → Found w self.new (taken_by result r) }
        ensures takes { CanBeTaken result }
    {
        match self.plain() {
            None => self.take_otherwise(script, cog),
            Some(key) => {
                if key.cog != cog {
                    return Taken::After {
                        cog: key.cog,
                        bound: key.clock,
                    };
                }
                let turn = self.make_said(script, key);
                Taken::Done {
                    turn,
                    running: true,
                }
            }
        }
    }

    /// The history up to here with its hub, and how many took its turns: 1, or 8.
    pub fn end(self, crew: u8) -> Ended
        ensures hub { (w : World) (r : Record) → Found w self r → IsHub w (turns r) result.hub }
        ensures world { (w : World) (r : Record) → Found w self r → world_of result.history.boot w.script result.history.limits ≡ w }
        ensures past { (w : World) (r : Record) → Found w self r → reverse result.history.turns.list ≡ turns r }
        ensures crew { result.crew ≡ crew }
        ensures boot { result.history.boot ≡ self.boot }
        ensures limits { result.history.limits ≡ self.limits }
        ensures turns { result.history.turns ≡ self.turns }
    {
        let Ledger {
            boot,
            limits,
            hub,
            turns,
            sayings: _,
            fronts: _,
            span: _,
        } = self;
        Ended {
            history: History {
                boot,
                limits,
                turns,
            },
            hub,
            crew,
        }
    }
}

/// Adds a turn to a log that has room for it.
#[inline(always)]
fn add(log: &mut Strip<Turn>, turn: Turn)
    requires { length log.old.list < log.old.room }
    ensures { log.new ≡ record log.old { list = log.old.list ++ turn ∷ [] } }
{
    match log.push(turn) {
        Ok(()) => {}
        Err(_) => unreachable!(),
    }
}

/// The levels of the input pins at a clock, where an access reads the pins.
#[inline]
fn levels(script: &PinScript, access: &Access, clock: u64, span: &Span) -> u32
    ensures { access.now ≡ PinsIn → result ≡ level_at script.now clock }
{
    match *access {
        Access::PinsIn => script.span_near(span, clock).levels,
        _ => 0,
    }
}

/// Whether a saying is a promise.
fn is_promise(said: Next) -> bool
    ensures { IsTrue result ↔ ((bound : ℕ) × (said ≡ More bound)) }
{
    match said {
        Next::More { .. } => true,
        _ => false,
    }
}

/// The access that is said to come next, where it may have its turn at this clock.
#[inline]
fn said_at(said: Next, clock: u64) -> Option<Access>
    requires { IsMadeNext said }
    ensures next { IsNextAt (announced_by said) clock result }
    ensures made { IfSome result IsMade }
{
    match said {
        Next::At {
            clock: earliest,
            access,
        } => {
            if is_timely(access, earliest, clock) {
                Some(access)
            } else {
                None
            }
        }
        Next::Quiet | Next::More { .. } => None,
    }
}

/// The access that is said.
#[inline(always)]
fn access_in(said: &Next) -> &Access
    requires announced { (asked : ℕ × Access) × (announced_by said.now ≡ Some asked) }
    requires made { IsMadeNext said.now }
    ensures said { (earliest : ℕ) × (said.now ≡ At earliest result.now) }
    ensures made { IsMade result.now }
    ensures proper { IsProper result.now }
{
    match said {
        Next::At { access, .. } => access,
        Next::Quiet | Next::More { .. } => unreachable!(),
    }
}

/// Whether an access is said to come at just this clock, and is no wait.
#[inline(always)]
fn is_plain(said: &Next, clock: u64) -> bool
    ensures { IsTrue result ↔ IsPlain said.now clock }
{
    match said {
        Next::At {
            clock: earliest,
            access,
        } => *earliest == clock && !is_wait(access),
        Next::Quiet | Next::More { .. } => false,
    }
}
