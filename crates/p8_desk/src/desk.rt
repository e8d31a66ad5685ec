// The desk.
ghost use Rattle.std.specs.Prelude.{◌≡◌, ◌<◌, ◌||◌, ℕ, true, IfSome, IfNone};
ghost use Rattle.p8_desk.specs.declared.turned.Turned.TheVariants.{Done, After, Over};
ghost use Rattle.p8_desk.specs.Passes.{Owns, PassSteps};
ghost use Rattle.p8_desk.specs.Tries.{Tried, Waited};
ghost use Rattle.p8_desk.specs.Seats.{is_over};

use crate::bells::{ring, ring_all, wait_after};
use crate::pass::CogPass;
use crate::rule::{Place, Tabletop};
use crate::turned::Turned;
use p8_access::Turn;
use p8_ledger::Start;
use std::marker::Model;
use std::sync::Wait;

/// A desk at which the passes of eight cogs make the turns of one history. They may be in as many threads.
#[derive(Drop)]
pub struct Desk {
    pub(crate) table: Tabletop,
    /// What the run begins from, which all seats at the table know.
    pub(crate) start: Start,
}

impl Model for Desk {
    ghost use Rattle.std.specs.Prelude.{◌≡◌, ◌≤◌};
    ghost use Rattle.p8_desk.specs.Passes.{DeskValue};
    ghost use Rattle.p8_desk.specs.Rules.{world_in};

    ghost Value = { DeskValue };

    ghost view = { λ d. record { world = world_in d.start; table = d.table.shared.table_id } };

    ghost invariant = { λ d. (d.table.shared.key ≡ d.start) × (d.table.shared.table_id.words ≡ 72) × (d.table.shared.table_id.slots ≡ 1) ×
        (d.start.limits.clocks ≤ 4000000000) × (d.start.limits.turns ≤ 1000000) };
}

impl Desk {
    /// Tries once to make the next turn of a pass's cog. It waits for nobody and takes no memory.
    ///
    /// The cog's life is run first, by at most 1,024 instructions or bytecodes, unless there is something that it has
    /// found and not said yet. Then the desk's lock word is tried once. Where it is free, the cog says what its life
    /// has found, and the least front of all cogs decides what it gets.
    pub fn try_turn(&self, pass: &mut CogPass) -> Turned
        requires { Owns self.now pass.old }
        ensures owns { Owns self.now pass.new }
        ensures cog { pass.new.cog ≡ pass.old.cog }
        ensures over { pass.new.over ≡ (pass.old.over || is_over result) }
        ensures tried { Tried self.now.world pass.old.cog pass.old.steps pass.new.steps result }
    {
        let answer = pass.rider.ride(self, &mut pass.seat, &mut pass.count);
        self.tell(&mut pass.seat, answer);
        answer
    }

    /// Rings the bell of the cog that an answer names, or where no turn comes any more all bells.
    fn tell(&self, seat: &mut Place, answer: Turned)
        requires own { seat.old.table_id ≡ self.now.table }
        requires near { (other : ℕ) (bound : ℕ) → answer ≡ After other bound → other < 8 }
        ensures own { (seat.new.table_id ≡ seat.old.table_id) × (seat.new.id ≡ seat.old.id) }
        ensures same { seat.new.me ≡ seat.old.me }
    {
        let board = &self.table.shared;
        match answer {
            Turned::After { cog, .. } => ring(board, seat, cog),
            Turned::Over => ring_all(board, seat),
            _ => {}
        }
    }

    /// Waits after a try with a pass that was answered so: while another cog's pass has the desk, or while another cog comes next and
    /// the life of the pass's cog has nothing to do meanwhile.
    fn wait<R: Wait>(&self, rt: &R, pass: &mut CogPass, answer: Turned)
        requires { Owns self.now pass.old }
        ensures { pass.new ≡ pass.old }
    {
        let idle = !pass.rider.runner.can_run_on();
        let cog = pass.rider.cog;
        wait_after(rt, &self.table.shared, &mut pass.seat, cog, answer, idle);
    }

    /// Tries until the cog has made a turn, or until no turn comes any more. It may wait for other passes: where another
    /// cog comes next and the cog's life has nothing to do meanwhile, the thread sleeps.
    pub fn turn<R: Wait>(&self, rt: &R, pass: &mut CogPass) -> Option<Turn>
        requires { Owns self.now pass.old }
        ensures owns { Owns self.now pass.new }
        ensures cog { pass.new.cog ≡ pass.old.cog }
        ensures done { IfSome result (λ turn. (before : PassSteps) × Waited pass.old.steps before ×
            Tried self.now.world pass.old.cog before pass.new.steps (Done turn)) }
        ensures none { IfNone result ((before : PassSteps) × Waited pass.old.steps before × Tried self.now.world pass.old.cog before pass.new.steps Over) }
        ensures over { IfNone result (pass.new.over ≡ true) }
    {
        for _ in rt.forever() {
            let answer = self.try_turn(pass);
            match answer {
                Turned::Done(turn) => return Some(turn),
                Turned::Over => return None,
                _ => self.wait(rt, pass, answer),
            }
        }
        unreachable!()
    }
}
