// The machine's one step, and a whole run.
ghost use Rattle.std.specs.Prelude.{◌≡◌, ◌<◌, ◌≤◌, ◌∷◌, ◌++◌, [], List, true, false, IsNone, ◌↔◌, length, reverse, IfOk, IfSome, MatchOption};
ghost use Rattle.p8_access.specs.declared.order.Turn.{Turn};
ghost use Rattle.p8_access.specs.Proper.{IsProperOrigin};
ghost use Rattle.p8_access.specs.Worlds.{World};
ghost use Rattle.p8_access.specs.Histories.{Extends, IsOver, Ended as HasEnded, Rises, Legal};
ghost use Rattle.p8_access.specs.Hub.{cog_state};
ghost use Rattle.p8_hub.specs.Standing.{IsHub};
ghost use Rattle.p8_cog.specs.Lives.{asks};
ghost use Rattle.p8_bcog.specs.Stops.{is_access};
ghost use Rattle.p8_ledger.specs.Advances.{HasMade};
ghost use Rattle.p8_ledger.specs.Records.{Record};
ghost use Rattle.p8_ledger.specs.Worlds.{world_of};
ghost use Rattle.p8_machine.specs.Counted.{IsAskedBy};
ghost use Rattle.p8_machine.specs.Places.{AreAnnounced};
ghost use Rattle.p8_machine.specs.Standing.{Stands, Comes, past_with, HasAdvanced, HasCounted};

use crate::asked::Asked;
use crate::seats::Seats;
use p8_access::{Boot, CogState, Next, Turn};
use p8_ledger::{Ended, First, Ledger, Limits, Room, Start};
use p8_pins::PinScript;
use p8_words::NoMemory;
use std::alloc::Global;

/// Eight cogs and their hub, after some turns.
#[derive(Drop)]
pub struct Machine {
    ledger: Ledger,
    script: PinScript,
    seats: Seats,
    ghost announced: { AreAnnounced ledger.sayings seats.lives.items },
}

/// Whether an access is asked.
fn is_access(next: &Next) -> bool
    ensures { result ≡ is_access next.now }
{
    match next {
        Next::At { .. } => true,
        Next::Quiet | Next::More { .. } => false,
    }
}

impl Machine {
    ghost use Rattle.p8_machine.specs.Machines.{world_in, past_in, IsStanding};

    /// A machine before its first turn. All memory of the run is taken here.
    pub fn open(
        alloc: Global,
        boot: Boot,
        script: PinScript,
        limits: Limits,
    ) -> Result<Machine, NoMemory>
        requires clocks { limits.clocks ≤ 4000000000 }
        requires turns { limits.turns ≤ 1000000 }
        requires first { IsProperOrigin boot.first }
        ensures world { IfOk result (λ machine. world_in machine ≡ world_of boot script limits) }
        ensures past { IfOk result (λ machine. past_in machine ≡ []) }
        ensures stands { IfOk result (λ machine. IsStanding machine) }
    {
        let start = Start {
            boot,
            script,
            limits,
        };
        let mut room = Room::new(alloc, limits.turns as usize)?;
        let ledger = Ledger::open(alloc, &start, room.log)?;
        let seats = Seats::new(alloc, &start.boot.ram, &mut room.stacks)?;
        Ok(Machine {
            ledger,
            script: start.script,
            seats,
        })
    }

    /// The life of the last turn's cog, which is `cog`, takes that turn where it stands in the log, or begins with it, where that cog
    /// runs after the turn. What the life tells of its next access the cog says at once.
    #[inline(always)]
    fn settle(&mut self, cog: u8, running: bool)
        requires { (old : Ledger) × (turn : Turn) × HasMade old self.old.ledger turn running × AreAnnounced old.sayings self.old.seats.lives.items ×
            (cog ≡ turn.key.cog) }
        ensures stands { (turn : Turn) (r : Record) → Comes (world_in self.old) r self.old.ledger self.old.seats.lives.items turn running →
            IsStanding self.new }
        ensures past { past_in self.new ≡ past_in self.old }
        ensures world { world_in self.new ≡ world_in self.old }
    {
        if let CogState::Running { origin } = self.ledger.state(cog) {
            let until = self.ledger.limit();
            let turn = self.ledger.newest();
            let next = self
                .seats
                .settle(self.ledger.memory(), origin, turn, running, until);
            self.ledger.say(cog, next);
        }
    }

    /// Makes the turn with the least key, and tells its counter; None exactly where the history has ended.
    #[inline(always)]
    pub(crate) fn step_counted(&mut self) -> Option<Option<u16>>
        ensures counted { IsStanding self.old → HasCounted (world_in self.old) (past_in self.old) (past_in self.new) result }
        ensures over { IsStanding self.old → IsNone result ↔ IsOver asks (world_in self.old) (past_in self.old) }
        ensures room { IfSome result (λ _. length (past_in self.old) < (world_in self.old).turns) }
        ensures past { MatchOption result (past_in self.new ≡ past_in self.old) (λ _. (turn : Turn) × (past_in self.new ≡ turn ∷ past_in self.old)) }
        ensures world { world_in self.new ≡ world_in self.old }
        ensures stands { IsStanding self.old → IsStanding self.new }
    {
        match self.ledger.take_first(&self.script) {
            First::Done { turn, running } => {
                let memory = self.ledger.memory();
                let counter = self.seats.counter(memory, turn.key.cog, running);
                // The cog is in hand here, so it isn't read out of the log again.
                self.settle(turn.key.cog, running);
                Some(counter)
            }
            First::Ahead { .. } | First::Over => None,
        }
    }

    /// Makes the turn with the least key; false exactly where the history has ended.
    #[inline(always)]
    fn advance(&mut self) -> bool
        ensures extends { IsStanding self.old → result ≡ true → (turn : Turn) → past_in self.new ≡ turn ∷ past_in self.old →
            Extends asks (world_in self.old) (past_in self.old) turn }
        ensures over { IsStanding self.old → (result ≡ false) ↔ IsOver asks (world_in self.old) (past_in self.old) }
        ensures room { result ≡ true → length (past_in self.old) < (world_in self.old).turns }
        ensures past { HasAdvanced result (past_in self.old) (past_in self.new) }
        ensures world { world_in self.new ≡ world_in self.old }
        ensures stands { IsStanding self.old → IsStanding self.new }
    {
        match self.step_counted() {
            Some(_) => true,
            None => false,
        }
    }

    /// Makes the turn with the least key, or None exactly where the history has ended.
    pub fn step(&mut self) -> Option<Turn>
        ensures extends { IsStanding self.old → IfSome result (Extends asks (world_in self.old) (past_in self.old)) }
        ensures over { IsStanding self.old → IsNone result ↔ IsOver asks (world_in self.old) (past_in self.old) }
        ensures room { IfSome result (λ _. length (past_in self.old) < (world_in self.old).turns) }
        ensures past { past_in self.new ≡ past_with (past_in self.old) result }
        ensures world { world_in self.new ≡ world_in self.old }
        ensures stands { IsStanding self.old → IsStanding self.new }
    {
        if self.advance() {
            Some(*self.ledger.newest())
        } else {
            None
        }
    }

    /// What a cog asks next, with its counter. `Quiet` where the cog doesn't run.
    pub fn asked(&self, cog: u8) -> Asked
        requires { cog < 8 }
        ensures { IsStanding self.now → IsAskedBy (world_in self.now) (past_in self.now) cog result }
    {
        match self.ledger.state(cog) {
            CogState::Running { .. } => {
                let next = self.ledger.said(cog);
                let memory = self.ledger.memory();
                Asked {
                    next,
                    counter: self.seats.counter(memory, cog, is_access(&next)),
                }
            }
            CogState::Starting { .. } | CogState::Stopped => Asked {
                next: Next::Quiet,
                counter: None,
            },
        }
    }

    /// The history that has ended: `step` has answered None.
    pub fn end(self) -> Ended
        requires { IsOver asks (world_in self) (past_in self) }
        ensures ended { IsStanding self → HasEnded asks (world_in self) (past_in self) }
        ensures hub { IsStanding self → IsHub (world_in self) (past_in self) result.hub }
        ensures world { world_of result.history.boot (world_in self).script result.history.limits ≡ world_in self }
        ensures past { reverse result.history.turns.list ≡ past_in self }
        ensures crew { result.crew ≡ 1 }
    {
        self.ledger.end(1)
    }
}

impl Machine {
    ghost use Rattle.p8_machine.specs.Machines.{world_in, past_in, IsStanding};

    /// Makes turns until the history has ended.
    fn run(&mut self)
        ensures over { IsStanding self.old → IsOver asks (world_in self.new) (past_in self.new) }
        ensures stands { IsStanding self.old → IsStanding self.new }
        ensures world { world_in self.new ≡ world_in self.old }
    {
        'steps: while self.advance() {}
    }
}

/// The whole history of a boot up to the limits, on one thread. It waits for nobody.
///
/// The script says which levels the input pins have.
pub fn run_alone(
    alloc: Global,
    boot: Boot,
    script: PinScript,
    limits: Limits,
) -> Result<Ended, NoMemory>
    requires clocks { limits.clocks ≤ 4000000000 }
    requires turns { limits.turns ≤ 1000000 }
    requires first { IsProperOrigin boot.first }
    ensures world { IfOk result (λ ended. world_of ended.history.boot script ended.history.limits ≡ world_of boot script limits) }
    ensures ended { IfOk result (λ ended. HasEnded asks (world_of boot script limits) (reverse ended.history.turns.list)) }
    ensures hub { IfOk result (λ ended. IsHub (world_of boot script limits) (reverse ended.history.turns.list) ended.hub) }

    // The world has no other ended history, each legal past is a part of it, and its keys rise.
    ensures only { IfOk result (λ ended. (past : List Turn) → HasEnded asks (world_of boot script limits) past → past ≡ reverse ended.history.turns.list) }
    ensures begins_each { IfOk result (λ ended. (past : List Turn) → Legal asks (world_of boot script limits) past →
        (more : List Turn) × (more ++ past ≡ reverse ended.history.turns.list)) }
    ensures rises { IfOk result (λ ended. Rises (reverse ended.history.turns.list)) }

    ensures crew { IfOk result (λ ended. ended.crew ≡ 1) }
{
    let mut machine = Machine::open(alloc, boot, script, limits)?;
    machine.run();
    Ok(machine.end())
}
