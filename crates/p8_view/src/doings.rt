// What the cogs are doing after a history.
ghost use Rattle.std.specs.Prelude.{◌≡◌, ◌<◌, ◌++◌, ◌∷◌, [], List, Option, ℕ, codes, length, reverse, OnOk, slice_set};
ghost use Rattle.std.specs.Fmt.{decimal};
ghost use Rattle.p8_access.specs.declared.order.Turn.{Turn};
ghost use Rattle.p8_access.specs.Worlds.{World};
ghost use Rattle.p8_access.specs.Hub.{cog_state, origin_of};
ghost use Rattle.p8_ledger.specs.Turns.{AreProper};
ghost use Rattle.p8_report.specs.Text.{reason_text};
ghost use Rattle.p8_view.specs.Following.{AreCogs, AreDoings};
ghost use Rattle.p8_view.specs.View.{counter_of};
ghost use Rattle.p8_view.specs.Ending.{cog_line, doing, doing_text, last_asking, last_of, place_of};

use crate::accesses::push_place_of;
use crate::cogs::Cogs;
use crate::nexts::Nexts;
use crate::starts::push_reason;
use crate::turns::counter_of;
use p8_access::{Access, Answer, Origin, Reason, Turn};
use p8_instr::push_text;
use p8_legend::Legend;
use p8_machine::Asked;
use p8_report::push_numbered;
use p8_words::NoMemory;

/// What a cog is doing, and the clock since which.
#[derive(Clone, Copy, Debug, PartialEq, Eq)]
pub enum Doing {
    /// It was never started.
    Idle,
    /// It was started, and has had no turn yet.
    Starts(u64),
    /// It runs.
    Runs(u64),
    /// It is stopped.
    Stops(u64),
    /// It halted by itself.
    Halts(u64, Reason),
}

/// By what a cog asked a turn.
#[derive(Clone, Copy, Debug)]
pub struct Asking {
    /// What the cog was started with.
    pub own: Origin,
    /// The counter of the turn.
    pub counter: Option<u16>,
}

/// What is said of a cog without a turn.
const NO_ASKING: Asking = Asking {
    own: Origin::Pasm { code: 0, par: 0 },
    counter: None,
};

/// What the eight cogs are doing.
#[derive(Clone, Copy, Debug)]
pub struct Doings {
    pub doings: [Doing; 8],
    /// The clock of the last turn of each; 0 where it has none.
    pub last: [u64; 8],
    /// By what each asked its last turn.
    pub askings: [Asking; 8],
}

/// Puts what a cog is doing; where there is no such cog nothing changes.
fn put(doings: &mut [Doing; 8], cog: u8, doing: Doing)
    ensures { doings.new ≡ slice_set doings.old cog doing }
{
    if cog < 8 {
        doings[usize::from(cog)] = doing;
    }
}

impl Doings {
    /// Before any turn: cog 0 is started, and the others are idle.
    pub fn open() -> Doings
        ensures { (w : World) (counters : List (Option ℕ)) → AreDoings w counters [] result }
    {
        let mut doings = [Doing::Idle; 8];
        doings[0] = Doing::Starts(0);
        Doings {
            doings,
            last: [0; 8],
            askings: [NO_ASKING; 8],
        }
    }

    /// Takes note of a turn, which its cog asked by this.
    pub fn record_turn(&mut self, turn: &Turn, asking: Asking)
        requires { turn.now.key.cog < 8 }
        ensures { (w : World) (counters : List (Option ℕ)) (past : List Turn) → asking.own ≡ origin_of (cog_state w past turn.now.key.cog) →
            asking.counter ≡ counter_of counters (length past) → AreDoings w counters past self.old → AreDoings w counters (turn.now ∷ past) self.new }
    {
        let cog = turn.key.cog;
        let clock = turn.key.clock;
        self.last[usize::from(cog)] = clock;
        self.askings[usize::from(cog)] = asking;
        match turn.access {
            Access::CogInit { .. } => {
                if let Answer::Number(Some(started)) = turn.answer {
                    put(&mut self.doings, started, Doing::Starts(clock));
                }
            }
            Access::Begin | Access::Load => put(&mut self.doings, cog, Doing::Runs(clock)),
            Access::CogStop { cog } => put(&mut self.doings, cog, Doing::Stops(clock)),
            Access::Halt { reason } => put(&mut self.doings, cog, Doing::Halts(clock, reason)),
            Access::Read { .. }
            | Access::Write { .. }
            | Access::CogId
            | Access::LockNew
            | Access::LockRet { .. }
            | Access::LockSet { .. }
            | Access::LockClr { .. }
            | Access::ClkSet { .. }
            | Access::PinsIn
            | Access::OutSet { .. }
            | Access::DirSet { .. }
            | Access::Wait { .. }
            | Access::Clock => {}
        }
    }

    /// What a cog is doing.
    fn doing(&self, cog: u8) -> Doing
        requires { cog < 8 }
        ensures { (w : World) (counters : List (Option ℕ)) (past : List Turn) → AreDoings w counters past self.now → result ≡ doing past cog }
    {
        self.doings[usize::from(cog)]
    }

    /// The clock of the last turn of a cog.
    fn last(&self, cog: u8) -> u64
        requires { cog < 8 }
        ensures { (w : World) (counters : List (Option ℕ)) (past : List Turn) → AreDoings w counters past self.now → result ≡ last_of past cog }
    {
        self.last[usize::from(cog)]
    }

    /// By what a cog asked its last turn.
    fn asking(&self, cog: u8) -> Asking
        requires { cog < 8 }
        ensures { (w : World) (counters : List (Option ℕ)) (past : List Turn) → AreDoings w counters past self.now →
            result ≡ last_asking w counters past cog }
    {
        self.askings[usize::from(cog)]
    }
}

/// What the cogs are doing after a history, and what each was started with.
#[derive(Clone, Copy, Debug)]
pub struct After {
    pub doings: Doings,
    pub cogs: Cogs,
}

impl After {
    /// After some turns, the oldest first, with their counters; cog 0 was started with `first`.
    pub fn of(first: Origin, turns: &[Turn], counters: &[Option<u16>]) -> After
        requires { AreProper turns.now }
        ensures { (w : World) → w.first ≡ first →
            AreDoings w counters.now (reverse turns.now) result.doings × AreCogs w (reverse turns.now) result.cogs }
    {
        let mut doings = Doings::open();
        let mut cogs = Cogs::open(first);
        for (number, turn) in turns.iter().enumerate() {
            let asking = Asking {
                own: cogs.origin(turn.key.cog),
                counter: counter_of(counters, number),
            };
            doings.record_turn(turn, asking);
            cogs.record_turn(turn);
        }
        After { doings, cogs }
    }

    /// Appends the line of a cog.
    pub fn push_cog(&self, out: &mut Vec<u8>, nexts: &Nexts<'_>, cog: u8) -> Result<(), NoMemory>
        requires { cog < 8 }
        ensures { (w : World) (counters : List (Option ℕ)) (past : List Turn) → w.clocks ≡ nexts.now.clocks →
            AreDoings w counters past self.now.doings → AreCogs w past self.now.cogs →
            OnOk result (out.new.items ≡ out.old.items ++ cog_line nexts.now.legend.now w counters nexts.now.asked.now past cog) }
    {
        let told = Told {
            doing: self.doings.doing(cog),
            last: self.doings.last(cog),
            asking: self.doings.asking(cog),
            own: self.cogs.origin(cog),
            asked: nexts.asked(cog),
        };
        push_numbered(out, b"cog ", u64::from(cog))?;
        push_text(out, b" ")?;
        push_doing(out, nexts, &told)?;
        push_text(out, b"\n")
    }
}

/// What is told of a cog.
#[derive(Clone, Copy, Debug)]
struct Told {
    doing: Doing,
    /// The clock of its last turn.
    last: u64,
    /// By what it asked that turn.
    asking: Asking,
    /// What it was started with, if it runs.
    own: Origin,
    asked: Asked,
}

/// Appends what a cog is doing.
fn push_doing(out: &mut Vec<u8>, nexts: &Nexts<'_>, told: &Told) -> Result<(), NoMemory>
    ensures { OnOk result (out.new.items ≡ out.old.items ++
        doing_text nexts.now.legend.now nexts.now.clocks told.now.doing told.now.last told.now.asking told.now.own told.now.asked) }
{
    match told.doing {
        Doing::Idle => push_text(out, b"is idle"),
        Doing::Starts(clock) => {
            push_numbered(out, b"is started at clock ", clock)?;
            push_text(out, b" and has had no turn yet")
        }
        Doing::Runs(clock) => {
            push_numbered(out, b"runs since clock ", clock)?;
            push_numbered(out, b", its last turn is at clock ", told.last)?;
            nexts.push_next(out, &told.own, &told.asked)
        }
        Doing::Stops(clock) => push_numbered(out, b"is stopped at clock ", clock),
        Doing::Halts(clock, reason) => {
            push_halted(out, clock, reason)?;
            push_asked_place(out, nexts.legend, &told.asking)
        }
    }
}

/// Appends that a cog halted, at a clock.
fn push_halted(out: &mut Vec<u8>, clock: u64, reason: Reason) -> Result<(), NoMemory>
    ensures { OnOk result (out.new.items ≡ out.old.items ++ (codes "halts at clock " ++ decimal clock ++ codes ": " ++ reason_text reason)) }
{
    push_numbered(out, b"halts at clock ", clock)?;
    push_text(out, b": ")?;
    push_reason(out, reason)
}

/// Appends the place of what asked a turn.
fn push_asked_place(out: &mut Vec<u8>, legend: &Legend, asking: &Asking) -> Result<(), NoMemory>
    ensures { OnOk result (out.new.items ≡ out.old.items ++ place_of legend.now asking.now) }
{
    push_place_of(out, legend, &asking.own, asking.counter)
}
