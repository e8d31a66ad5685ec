// What runs in a cog, as the machine sees it.
ghost use Rattle.std.specs.Prelude.{◌≡◌, ◌<◌, ◌≤◌, ◌+◌, ◌-◌, ◌*◌, ◌^◌, ◌++◌, ◌∷◌, [], ℕ, false, List, Option, Some, None};
ghost use Rattle.p8_access.specs.declared.kinds.Access.{Access};
ghost use Rattle.p8_access.specs.declared.order.Turn.{Turn};
ghost use Rattle.p8_access.specs.declared.lives.Next.TheVariants.{At, Quiet};
ghost use Rattle.p8_access.specs.Proper.{Fits};
ghost use Rattle.p8_access.specs.Lives.{Begun, first_turn_of, has_ended, Tells, IsMadeNext, announced_by, IsTurnAt, IsAnnounced, Spends, IsThorough};
ghost use Rattle.p8_access.specs.Lives.{IsNear, IsWithin};

use crate::kinds::Access;
use crate::order::Turn;

/// What a life says when it is asked for its next access.
#[derive(Clone, Copy, Debug, PartialEq, Eq)]
pub enum Next {
    /// The next access, with the earliest clock at which it may have its turn.
    At { clock: u64, access: Access },
    /// There is no access below the clock that was asked for.
    Quiet,
    /// The budget is spent, and no access comes before this clock.
    More { bound: u64 },
}

/// What runs in one cog from a start on.
///
/// A life keeps what it needs of its turns and not the turns themselves: contracts say which lists of
/// turns it stands for.
pub trait Life {
    /// The life began with this and has had these turns, the oldest first.
    ghost stands: { Self → Begun → List Turn → Type 0 };

    /// After these turns this is the first access that has none yet, with its earliest clock.
    ghost asked: { Begun → List Turn → ℕ → Access → Type 0 };

    /// With these turns so many instructions or bytecodes of the life are done whole, and the next one
    /// begins at this clock. While a start is under way none is, and the first one begins after it.
    ghost begins: { Begun → List Turn → (place : ℕ) → (clock : ℕ) → Type 0 };

    /// How many instructions or bytecodes it has done since its start.
    ghost place: { Self → ℕ };

    /// The clock that it has come to.
    ghost reached: { Self → ℕ };

    /// The fewest clocks that one instruction or bytecode takes.
    ghost pace: { Self → ℕ };

    /// The most clocks that one takes which asks nothing.
    ghost stride: { Self → ℕ };

    /// The most clocks from a turn to where the next one begins.
    ghost lead: { Self → ℕ };

    /// The most clocks from where it has come to up to the access that is told then.
    ghost reach: { Self → ℕ };

    /// The access that was announced and has no turn yet, with its earliest clock.
    ghost announced: { Self → Option (ℕ × Access) };

    /// The cog that it runs in.
    ghost cog: { Self → ℕ };

    /// Tells the next access below the clock `until`, doing at most `budget` instructions or bytecodes.
    ///
    /// Asked again before the answer it says the same; after `More` it goes on.
    fn run_to_access(&mut self, until: u64, budget: u32) -> Next
        requires until { until < 2 ^ 62 }
        requires budget { 1 ≤ budget }

        ensures keeps { (b : Begun) (ts : List Turn) → stands self.old b ts → stands self.new b ts }
        ensures tells { (b : Begun) (ts : List Turn) → stands self.old b ts → Tells (asked b ts) until result }
        ensures made { IsMadeNext result }
        ensures again { (clock : ℕ) (access : Access) → announced self.old ≡ Some (clock, access) → clock < until → result ≡ At clock access }

        ensures forward { place self.old ≤ place self.new }
        ensures budget { place self.new ≤ place self.old + budget }
        ensures placed { (b : Begun) (ts : List Turn) → stands self.old b ts → has_ended (cog self.old) ts ≡ false →
            (clock : ℕ) × begins b ts (place self.new) clock }
        ensures thorough { (b : Begun) (ts : List Turn) → stands self.old b ts → IsThorough (begins b ts) (place self.new) until result }

        ensures spends { Spends (place self.old) (place self.new) (reached self.old) (reached self.new) (pace self.old) until budget result }
        ensures stride { reached self.new ≤ reached self.old + stride self.old * (place self.new - place self.old) }
        ensures near { IsNear (reach self.old) (reached self.new) result }
        // A call goes no further than its budget takes, and 16 clocks more, which is the time between two windows.
        ensures far { (b : Begun) (ts : List Turn) → stands self.old b ts → has_ended (cog self.old) ts ≡ false →
            IsWithin (reached self.old + stride self.old * budget + 16) until result }
        ensures quiet { (b : Begun) (ts : List Turn) → stands self.old b ts → has_ended (cog self.old) ts ≡ false → result ≡ Quiet →
            until ≤ reached self.new + reach self.old }

        ensures announced { announced self.new ≡ announced_by result }
        ensures same_pace { pace self.new ≡ pace self.old }
        ensures same_stride { stride self.new ≡ stride self.old }
        ensures same_lead { lead self.new ≡ lead self.old }
        ensures same_reach { reach self.new ≡ reach self.old }
        ensures cog { cog self.new ≡ cog self.old };

    /// Takes the turn of the access that was announced: at its clock, or for a wait not before it.
    fn take_answer(&mut self, turn: &Turn)
        requires announced { IsAnnounced (announced self.old) turn.now }
        requires own { turn.now.key.cog ≡ cog self.old }
        requires clock { turn.now.key.clock < 2 ^ 62 }
        requires fits { Fits turn.now.access turn.now.answer }

        ensures stands { (b : Begun) (ts : List Turn) → stands self.old b ts → stands self.new b (ts ++ turn.now ∷ []) }
        ensures placed { (b : Begun) (ts : List Turn) → stands self.old b ts → has_ended (cog self.old) (ts ++ turn.now ∷ []) ≡ false →
            (clock : ℕ) × begins b (ts ++ turn.now ∷ []) (place self.new) clock }
        ensures announced { announced self.new ≡ None }
        ensures reached { turn.now.key.clock ≤ reached self.new }
        ensures lead { reached self.new ≤ turn.now.key.clock + lead self.old }
        ensures same_pace { pace self.new ≡ pace self.old }
        ensures same_stride { stride self.new ≡ stride self.old }
        ensures same_lead { lead self.new ≡ lead self.old }
        ensures same_reach { reach self.new ≡ reach self.old }
        ensures cog { cog self.new ≡ cog self.old };

    /// An instruction or a bytecode takes time.
    ghost paced: { (life : Self) → 4 ≤ pace life };

    /// One access is asked next.
    ghost one_asked: { (b : Begun) (ts : List Turn) (c d : ℕ) (a e : Access) → asked b ts c a → asked b ts d e → (c ≡ d) × (a ≡ e) };

    /// Nothing is asked up to the turn with which the life began.
    ghost asked_first: { (b : Begun) (c : ℕ) (a : Access) → asked b [] c a → first_turn_of b < c };

    /// What is asked after a turn comes later than it.
    ghost asked_later: { (b : Begun) (ts : List Turn) (turn : Turn) (c d : ℕ) (a e : Access) → asked b ts c a → IsTurnAt c a turn → asked b (ts ++ turn ∷ []) d e → turn.key.clock < d };
}
