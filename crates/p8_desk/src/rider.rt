// A pass but for its seat, and one try of it.
ghost use Rattle.std.specs.Prelude.{◌≡◌, ◌<◌, ◌^◌, ◌||◌, ◌∷◌, [], Some};
ghost use Rattle.p8_access.specs.Worlds.{World};
ghost use Rattle.p8_ledger.specs.declared.ledger.Ledger.{Ledger};
ghost use Rattle.p8_ledger.specs.Ledgers.{Found, CanBeTaken};
ghost use Rattle.p8_ledger.specs.Records.{Record};
ghost use Rattle.p8_desk.specs.declared.rule.Known.{Known};
ghost use Rattle.p8_desk.specs.Rules.{known as known_in};
ghost use Rattle.p8_desk.specs.Runners.{Rides, HasFound};
ghost use Rattle.p8_desk.specs.Seats.{Idle, Keeps, Rode, Carries, Granted, Settled, Spoken, Worked, is_over, made_by};

use crate::desk::Desk;
use crate::rule::Place;
use crate::runner::Runner;
use crate::steps::{release, seize, tell};
use crate::turned::Turned;
use p8_access::Next;
use p8_ledger::{Ledger, Taken};
use p8_pins::PinScript;

/// What a pass keeps besides its seat at the table: its cog with the life in it, and what it has counted.
#[derive(Drop)]
pub struct Rider {
    pub cog: u8,
    pub runner: Runner,
    /// How many turns the cog has made.
    pub made: u64,
    /// Whether a try has answered `Over`.
    pub over: bool,
}

/// What came of a try: what the cog has said, if it owed anything, what it gets, and how many turns there are then.
#[derive(Clone, Copy)]
pub struct Outcome {
    pub said: Option<Next>,
    pub answer: Turned,
    pub count: u64,
}

/// Says what the cog owes, and answers what that was.
fn speak(ledger: &mut Ledger, runner: &mut Runner, cog: u8) -> Option<Next>
    requires near { cog < 8 }
    requires found { HasFound runner.old }
    requires stands { (w : World) × (r : Record) × Found w ledger.old r × Rides w cog r runner.old }
    ensures { (w : World) (r : Record) → Found w ledger.old r → Rides w cog r runner.old → Spoken w cog runner.old.next r result ledger.new runner.new }
{
    if !ledger.owes(cog) {
        return None;
    }
    let next = runner.say();
    ledger.say(cog, next);
    Some(next)
}

/// The cog's life takes the turn that it was granted, if it was. Answers what the cog gets.
fn settle(ledger: &Ledger, runner: &mut Runner, cog: u8, taken: Taken) -> Turned
    requires near { cog < 8 }
    requires can { CanBeTaken taken }
    requires granted { (w : World) × (r : Record) × Granted w cog r taken ledger.now × Rides w cog r runner.old }
    ensures { (w : World) (r : Record) → Granted w cog r taken ledger.now → Rides w cog r runner.old → Settled w cog r ledger.now runner.new result }
{
    match taken {
        Taken::Done { turn, running } => {
            let state = ledger.state(cog);
            runner.take(ledger.memory(), state, &turn, running);
            Turned::Done(turn)
        }
        Taken::Ahead { bound } => Turned::Ahead { bound },
        Taken::After { cog, bound } => Turned::After { cog, bound },
        Taken::Over => Turned::Over,
    }
}

/// What an answer changes besides the ledger and the life.
fn record_answer(made: &mut u64, over: &mut bool, answer: Turned)
    requires { made.old < 2 ^ 63 }
    ensures made { made.new ≡ made_by answer made.old }
    ensures over { over.new ≡ (over.old || is_over answer) }
{
    match answer {
        Turned::Done(_) => *made += 1,
        Turned::Held { .. } => {}
        Turned::After { .. } => {}
        Turned::Ahead { .. } => {}
        Turned::Over => *over = true,
    }
}

impl Rider {
    /// Says what the cog owes, and makes the turn where it is this cog's, with the ledger in hand. `script` is that of the run.
    fn work(&mut self, script: &PinScript, ledger: &mut Ledger) -> Outcome
        requires near { self.old.cog < 8 }
        requires found { HasFound self.old.runner }
        requires stands { (w : World) × (r : Record) × (script.now ≡ w.script) × (w.turns < 2 ^ 63) × Found w ledger.old r × Carries w r self.old }
        ensures cog { self.new.cog ≡ self.old.cog }
        ensures over { self.new.over ≡ (self.old.over || is_over result.answer) }
        ensures worked { (w : World) (r : Record) → script.now ≡ w.script → Found w ledger.old r → Carries w r self.old →
            Worked w self.old.cog self.old.runner.next r result ledger.new self.new }
    {
        let said = speak(ledger, &mut self.runner, self.cog);
        let taken = ledger.take(script, self.cog);
        let answer = settle(ledger, &mut self.runner, self.cog, taken);
        record_answer(&mut self.made, &mut self.over, answer);
        let count = ledger.count();
        Outcome {
            said,
            answer,
            count,
        }
    }

    /// The same with the ledger in the slot that the seat holds.
    fn work_in_slot(&mut self, desk: &Desk, seat: &mut Place) -> Outcome
        requires own { (seat.old.table_id ≡ desk.now.table) × (self.old.cog < 8) }
        requires found { HasFound self.old.runner }
        requires has { (ledger : Ledger) × (r : Record) × (seat.old.me.1 ≡ (0, Some ledger) ∷ []) × Found desk.now.world ledger r ×
            Carries desk.now.world r self.old }
        ensures own { (seat.new.table_id ≡ seat.old.table_id) × (self.new.cog ≡ self.old.cog) }
        ensures over { self.new.over ≡ (self.old.over || is_over result.answer) }
        ensures worked { (ledger : Ledger) (r : Record) → seat.old.me.1 ≡ (0, Some ledger) ∷ [] → Found desk.now.world ledger r →
            Carries desk.now.world r self.old → (left : Ledger) × (seat.new.me ≡ (seat.old.me.0, (0, Some left) ∷ [])) ×
            Worked desk.now.world self.old.cog self.old.runner.next r result left self.new }
    {
        match seat.slot_mut(&desk.table.shared, 0) {
            Some(ledger) => self.work(&desk.start.script, ledger),
            None => unreachable!(),
        }
    }

    /// Runs the cog's life and tries once to make its next turn, by a seat that has its pass and holds nothing. `count` is how many
    /// turns the longest history has that was seen.
    pub fn ride(&mut self, desk: &Desk, seat: &mut Place, count: &mut u64) -> Turned
        requires own { (seat.old.table_id ≡ desk.now.table) × (self.old.cog < 8) }
        requires idle { Idle desk.now.world seat.old.me }
        requires pass { (p : Known) × (known_in seat.old.me.0.passes self.old.cog ≡ Some p) × Keeps desk.now.world p self.old }
        ensures own { (seat.new.table_id ≡ seat.old.table_id) × (self.new.cog ≡ self.old.cog) }
        ensures over { self.new.over ≡ (self.old.over || is_over result) }
        ensures rode { (p : Known) → known_in seat.old.me.0.passes self.old.cog ≡ Some p → Keeps desk.now.world p self.old →
            Rode desk.now.world self.old.cog p seat.old.me seat.new.me self.new count.old count.new result }
    {
        self.runner.find(desk.start.limits.clocks);
        let board = &desk.table.shared;
        let cog = self.cog;
        let found = seize(board, seat, cog);
        if found != 0 {
            return Turned::Held {
                by: (found - 1) as u8,
            };
        }
        let outcome = self.work_in_slot(desk, seat);
        tell(board, seat, cog, outcome);
        release(board, seat);
        *count = outcome.count;
        outcome.answer
    }
}
