// What is kept of each cog along a history.
ghost use Rattle.std.specs.Prelude.{◌≡◌, ◌<◌, ◌∷◌, [], List, slice_set};
ghost use Rattle.p8_access.specs.declared.order.Turn.{Turn};
ghost use Rattle.p8_access.specs.Worlds.{World};
ghost use Rattle.p8_access.specs.Hub.{cog_state, origin_of};
ghost use Rattle.p8_view.specs.Drives.{drives_of};
ghost use Rattle.p8_view.specs.View.{loading, left_after};
ghost use Rattle.p8_view.specs.Following.{AreParts, AreCogs, may_drive};
ghost use Rattle.p8_hub.specs.Parts.{ors, driven};

use crate::drives::Drives;
use p8_access::{Access, Answer, Origin, Turn};

/// What is said to be the origin of a cog that is stopped.
const NOTHING: Origin = Origin::Pasm { code: 0, par: 0 };

/// How many longs a cog reads before it runs PASM.
const LONGS: u16 = 496;

/// The eight cogs after some turns.
#[derive(Clone, Copy, Debug)]
pub struct Cogs {
    /// What each was started with.
    pub origins: [Origin; 8],
    /// How many reads of its load each has still to make.
    pub left: [u16; 8],
    pub outa: [u32; 8],
    pub dira: [u32; 8],
    /// What they do to the pins, which most turns leave as it is.
    pub drives: Drives,
}

/// Puts an item at a place of eight; where there is no such place nothing changes.
fn put<T: Copy>(eight: &mut [T; 8], place: u8, item: T)
    ensures { eight.new ≡ slice_set eight.old place item }
{
    if place < 8 {
        eight[usize::from(place)] = item;
    }
}

impl Cogs {
    /// Before any turn: cog 0 was started with this, and the others are stopped.
    #[tactic(auto, unfolding(p8_access::specs::Pins::dira, p8_access::specs::Pins::outputs))]
    pub fn open(first: Origin) -> Cogs
        ensures { (w : World) → w.first ≡ first → AreCogs w [] result }
    {
        let mut origins = [NOTHING; 8];
        origins[0] = first;
        Cogs {
            origins,
            left: [0; 8],
            outa: [0; 8],
            dira: [0; 8],
            drives: Drives {
                directions: 0,
                high: 0,
            },
        }
    }

    /// What a cog was started with.
    pub fn origin(&self, cog: u8) -> Origin
        requires { cog < 8 }
        ensures { (w : World) (past : List Turn) → AreCogs w past self.now → result ≡ origin_of (cog_state w past cog) }
    {
        self.origins[usize::from(cog)]
    }

    /// How many reads of its load a cog has still to make.
    pub fn left(&self, cog: u8) -> u16
        requires { cog < 8 }
        ensures { (w : World) (past : List Turn) → AreCogs w past self.now → result ≡ loading past cog }
    {
        self.left[usize::from(cog)]
    }

    /// What the cogs do to the pins.
    pub fn drives(&self) -> Drives
        ensures { (w : World) (past : List Turn) → AreCogs w past self.now → result ≡ drives_of past }
    {
        self.drives
    }

    /// What the cogs do to the pins, by their registers.
    fn joined(&self) -> Drives
        ensures { (w : World) (past : List Turn) → AreParts w past self.now → result ≡ drives_of past }
    {
        Drives {
            directions: self.directions(),
            high: self.high(),
        }
    }

    /// What the cogs do to the pins after an access, of which all else is noted.
    fn drives_after(&self, access: &Access) -> Drives
        ensures { (w : World) (past : List Turn) (turn : Turn) → turn.access ≡ access.now → AreParts w (turn ∷ past) self.now →
            self.now.drives ≡ drives_of past → result ≡ drives_of (turn ∷ past) }
    {
        if may_drive(access) {
            self.joined()
        } else {
            self.drives
        }
    }

    /// The pins that some cog makes outputs.
    fn directions(&self) -> u32
        ensures { result ≡ ors self.now.dira }
    {
        self.dira.iter().fold(0, |all, dira| all | *dira)
    }

    /// The outputs that some cog with that direction makes high.
    fn high(&self) -> u32
        ensures { result ≡ ors (driven self.now.outa self.now.dira) }
    {
        self.outa
            .iter()
            .zip(&self.dira)
            .map(|(outa, dira)| *outa & *dira)
            .fold(0, |all, high| all | high)
    }

    /// Starts or stops a cog, which clears its OUTA and DIRA.
    fn change(&mut self, cog: u8, origin: Origin)
        ensures origins { self.new.origins ≡ slice_set self.old.origins cog origin }
        ensures left { self.new.left ≡ self.old.left }
        ensures outa { self.new.outa ≡ slice_set self.old.outa cog 0 }
        ensures dira { self.new.dira ≡ slice_set self.old.dira cog 0 }
        ensures drives { self.new.drives ≡ self.old.drives }
    {
        put(&mut self.origins, cog, origin);
        put(&mut self.outa, cog, 0);
        put(&mut self.dira, cog, 0);
    }

    /// Takes note of a turn.
    pub fn record_turn(&mut self, turn: &Turn)
        requires { turn.now.key.cog < 8 }
        ensures { (w : World) (past : List Turn) → AreCogs w past self.old → AreCogs w (turn.now ∷ past) self.new }
    {
        self.note_parts(turn);
        self.drives = self.drives_after(&turn.access);
    }

    /// Takes note of a turn, but for what the cogs do to the pins.
    fn note_parts(&mut self, turn: &Turn)
        requires { turn.now.key.cog < 8 }
        ensures parts { (w : World) (past : List Turn) → AreCogs w past self.old → AreParts w (turn.now ∷ past) self.new }
        ensures drives { self.new.drives ≡ self.old.drives }
    {
        let cog = turn.key.cog;
        let left = left_after(&turn.access, self.left[usize::from(cog)]);
        self.left[usize::from(cog)] = left;
        match turn.access {
            Access::CogInit { origin, .. } => {
                if let Answer::Number(Some(started)) = turn.answer {
                    self.change(started, origin);
                }
            }
            Access::CogStop { cog } => self.change(cog, NOTHING),
            Access::Halt { .. } => self.change(cog, NOTHING),
            Access::OutSet { value } => self.outa[usize::from(cog)] = value,
            Access::DirSet { value } => self.dira[usize::from(cog)] = value,
            Access::Begin
            | Access::Load
            | Access::Read { .. }
            | Access::Write { .. }
            | Access::CogId
            | Access::LockNew
            | Access::LockRet { .. }
            | Access::LockSet { .. }
            | Access::LockClr { .. }
            | Access::ClkSet { .. }
            | Access::PinsIn
            | Access::Wait { .. }
            | Access::Clock => {}
        }
    }
}

/// How many reads of its load a cog has still to make after an access.
fn left_after(access: &Access, left: u16) -> u16
    ensures { result ≡ left_after access.now left }
{
    match access {
        Access::Load => LONGS,
        Access::Begin => 0,
        _ => left.saturating_sub(1),
    }
}

/// Whether an access may change what the cogs do to the pins.
fn may_drive(access: &Access) -> bool
    ensures { result ≡ may_drive access.now }
{
    match access {
        Access::CogInit { .. }
        | Access::CogStop { .. }
        | Access::OutSet { .. }
        | Access::DirSet { .. }
        | Access::Halt { .. } => true,
        _ => false,
    }
}
