// What the cogs and the locks are after some turns, as far as a wave shows it.
ghost use Rattle.std.specs.Prelude.{◌≡◌, ◌∷◌, [], List, slice_set};
ghost use Rattle.p8_access.specs.declared.order.Turn.{Turn};
ghost use Rattle.p8_access.specs.Worlds.{World};
ghost use Rattle.p8_access.specs.Pins.{pins_with, dira as directions_after, outputs as outputs_after};
ghost use Rattle.p8_hub.specs.Parts.{ors, driven};
ghost use Rattle.p8_wave.specs.Following.{AreSignals, phase_number};

use p8_access::{Access, Answer, Turn};

/// What a cog is doing; one that is stopped by its own halt is told from one that a COGSTOP stopped.
#[derive(Clone, Copy, Debug, PartialEq, Eq)]
pub enum Phase {
    Stopped,
    Starting,
    Running,
    Halted,
}

impl Phase {
    /// The number that stands for it in a wave.
    pub fn number(self) -> u32
        ensures { result ≡ phase_number self }
    {
        match self {
            Phase::Stopped => 0,
            Phase::Starting => 1,
            Phase::Running => 2,
            Phase::Halted => 3,
        }
    }
}

/// The eight cogs and the eight locks after some turns: what each cog is doing, its registers OUTA and DIRA,
/// and whether each lock is set, and whether it is taken.
#[derive(Clone, Copy, PartialEq, Eq)]
pub struct Signals {
    pub phases: [Phase; 8],
    pub outa: [u32; 8],
    pub dira: [u32; 8],
    pub set: [bool; 8],
    pub taken: [bool; 8],
}

/// Puts an item at a place of eight; where there is no such place nothing changes.
fn put<T: Copy>(eight: &mut [T; 8], place: u8, item: T)
    ensures { eight.new ≡ slice_set eight.old place item }
{
    if place < 8 {
        eight[usize::from(place)] = item;
    }
}

impl Signals {
    /// Before any turn: cog 0 is starting, the others are stopped, and no register and no lock is set.
    pub fn open() -> Signals
        ensures { (w : World) → AreSignals w [] result }
    {
        let mut phases = [Phase::Stopped; 8];
        phases[0] = Phase::Starting;
        Signals {
            phases,
            outa: [0; 8],
            dira: [0; 8],
            set: [false; 8],
            taken: [false; 8],
        }
    }

    /// Starts or stops a cog, which clears its OUTA and DIRA.
    fn change(&mut self, cog: u8, phase: Phase)
        ensures phases { self.new.phases ≡ slice_set self.old.phases cog phase }
        ensures outa { self.new.outa ≡ slice_set self.old.outa cog 0 }
        ensures dira { self.new.dira ≡ slice_set self.old.dira cog 0 }
        ensures set { self.new.set ≡ self.old.set }
        ensures taken { self.new.taken ≡ self.old.taken }
    {
        put(&mut self.phases, cog, phase);
        put(&mut self.outa, cog, 0);
        put(&mut self.dira, cog, 0);
    }

    /// Takes note of a turn.
    pub fn record_turn(&mut self, turn: &Turn)
        ensures { (w : World) (past : List Turn) → AreSignals w past self.old → AreSignals w (turn.now ∷ past) self.new }
    {
        let cog = turn.key.cog;
        match turn.access {
            Access::CogInit { .. } => {
                if let Answer::Number(Some(started)) = turn.answer {
                    self.change(started, Phase::Starting);
                }
            }
            Access::Begin | Access::Load => put(&mut self.phases, cog, Phase::Running),
            Access::CogStop { cog } => self.change(cog, Phase::Stopped),
            Access::Halt { .. } => self.change(cog, Phase::Halted),
            Access::OutSet { value } => put(&mut self.outa, cog, value),
            Access::DirSet { value } => put(&mut self.dira, cog, value),
            Access::LockNew => {
                if let Answer::Number(Some(lock)) = turn.answer {
                    put(&mut self.taken, lock, true);
                }
            }
            Access::LockRet { lock } => put(&mut self.taken, lock, false),
            Access::LockSet { lock } => put(&mut self.set, lock, true),
            Access::LockClr { lock } => put(&mut self.set, lock, false),
            Access::Read { .. }
            | Access::Write { .. }
            | Access::CogId
            | Access::ClkSet { .. }
            | Access::PinsIn
            | Access::Wait { .. }
            | Access::Clock => {}
        }
    }

    /// The pins that some cog makes outputs.
    fn directions(&self) -> u32
        ensures { result ≡ ors self.now.dira }
    {
        self.dira.iter().fold(0, |all, dira| all | *dira)
    }

    /// The outputs that some cog with that direction makes high.
    fn outputs(&self) -> u32
        ensures { result ≡ ors (driven self.now.outa self.now.dira) }
    {
        self.outa
            .iter()
            .zip(&self.dira)
            .map(|(outa, dira)| *outa & *dira)
            .fold(0, |all, high| all | high)
    }

    /// All pins, where the inputs have these levels.
    pub fn pins(&self, levels: u32) -> u32
        ensures { (w : World) (past : List Turn) → AreSignals w past self.now → result ≡ pins_with (directions_after past) (outputs_after past) levels }
    {
        self.outputs() | (levels & (self.directions() ^ u32::MAX))
    }
}
