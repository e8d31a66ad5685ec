// Laws of turns and of records. The functions do nothing: their contracts are the laws. Those of a turn hold for
// every kind of life, and for whoever keeps lives.
ghost use Rattle.std.specs.Prelude.{◌≡◌, ◌∷◌, ◌++◌, [], ℕ, true, List, ◌<◌, ◌⊎◌, length};
ghost use Rattle.p8_access.specs.declared.kinds.Origin.{Origin};
ghost use Rattle.p8_access.specs.declared.lives.Next.{Next};
ghost use Rattle.p8_access.specs.declared.order.Turn.{Turn};
ghost use Rattle.p8_access.specs.Lives.{Begun, Tells, IsMade};
ghost use Rattle.p8_access.specs.declared.states.CogState.TheVariants.{Starting, Running};
ghost use Rattle.p8_access.specs.Worlds.{World};
ghost use Rattle.p8_access.specs.Hub.{cog_state};
ghost use Rattle.p8_access.specs.Histories.{begun_at, first_access, is_begin, answer_to, IsNext, Extends, Legal, Ended};
ghost use Rattle.p8_ledger.specs.Seats.{SitsIn};
ghost use Rattle.p8_access.specs.declared.kinds.Access.{Access};
ghost use Rattle.p8_access.specs.declared.order.Key.{Key};
ghost use Rattle.p8_access.specs.Windows.{Before};
ghost use Rattle.p8_cog.specs.declared.cog_life.CogLife.{CogLife};
ghost use Rattle.p8_cog.specs.Lives.{asks};
ghost use Rattle.p8_cog.specs.WholeLives.{stands_for};
ghost use Rattle.p8_ledger.specs.declared.steps.Step.TheVariants.{Took, Said};
ghost use Rattle.p8_ledger.specs.Records.{Record, turns, mine, said, Begins, IsTrueOf, IsTruthful, IsLeastFront, NoFront};

use p8_access::Life;

/// A turn of another cog leaves a life and what it has said as they are. Where that turn stops the life's
/// cog or starts it anew, nothing has to be true of them any more.
pub fn turn_beside<L: Life>()
    ensures { (life : L) (said : Next) (w : World) (past : List Turn) (turn : Turn) (n : ℕ) → (turn.key.cog ≡ n → ⊥) →
        SitsIn L.asked (L.stands life) said w past n (cog_state w past n) →
        SitsIn L.asked (L.stands life) said w (turn ∷ past) n (cog_state w (turn ∷ past) n) }
{}

/// A turn of its own cog, of an access that the life made, is taken by the life, which says something new.
pub fn turn_of_its_own<L: Life>()
    ensures { (old new : L) (said says : Next) (w : World) (past : List Turn) (turn : Turn) (n : ℕ) → turn.key.cog ≡ n → IsMade turn.access →
        ((b : Begun) (ts : List Turn) → L.stands old b ts → L.stands new b (ts ++ turn ∷ [])) →
        ((b : Begun) (ts : List Turn) → L.stands old b ts → Tells (L.asked b (ts ++ turn ∷ [])) w.clocks says) →
        SitsIn L.asked (L.stands old) said w past n (cog_state w past n) → SitsIn L.asked (L.stands new) says w (turn ∷ past) n (cog_state w (turn ∷ past) n) }
{}

/// The first turn of a cog that is starting begins a life in it, where that is a Load or a Begin.
pub fn turn_of_a_start<L: Life>()
    ensures { (life : L) (said : Next) (w : World) (past : List Turn) (turn : Turn) (n since : ℕ) (origin : Origin) → turn.key.cog ≡ n →
        cog_state w past n ≡ Starting since origin → turn.access ≡ first_access origin →
        (is_begin turn.access ≡ true → L.stands life (begun_at w n turn.key.clock origin) [] ×
        Tells (L.asked (begun_at w n turn.key.clock origin) []) w.clocks said) →
        SitsIn L.asked (L.stands life) said w (turn ∷ past) n (cog_state w (turn ∷ past) n) }
{}

/// A true saying leaves all that was said true.
pub fn saying_keeps_truth()
    ensures { (w : World) (r : Record) (cog : ℕ) (next : Next) → IsTruthful w r → IsTrueOf w (turns r) cog next → IsTruthful w (Said cog next ∷ r) }
{}

/// The turn that comes next leaves all that was said true. Of its own cog nothing is said any more but that
/// its next access comes later.
pub fn turn_keeps_truth()
    ensures { (w : World) (r : Record) (turn : Turn) → IsTruthful w r → Extends asks w (turns r) turn →
        ((origin : Origin) → cog_state w (turns r) turn.key.cog ≡ Running origin → IsMade turn.access) → IsTruthful w (Took turn ∷ r) }
{}

/// A cog's life, and what it has found, stay right for as long as only other cogs make steps. Where one of
/// them stops or starts the cog, nothing has to be true of them any more.
pub fn steps_beside()
    ensures { (life : CogLife) (next : Next) (w : World) (early late : Record) (n : ℕ) → Begins early late → mine n late ≡ mine n early →
        SitsIn asks (stands_for life) next w (turns early) n (cog_state w (turns early) n) →
        SitsIn asks (stands_for life) next w (turns late) n (cog_state w (turns late) n) }
{}

/// No cog's next turn comes before the least front.
pub fn least_front_comes_first()
    ensures { (w : World) (r : Record) (key : Key) (n clock : ℕ) (access : Access) → IsTruthful w r → IsLeastFront w r key →
        IsNext asks w (turns r) n clock access → Before (record { clock = clock; cog = n }) key → ⊥ }
{}

/// Where the least front is the key of its cog's next turn, that is the turn that comes next.
pub fn least_front_extends()
    ensures { (w : World) (r : Record) (turn : Turn) → IsTruthful w r → length (turns r) < w.turns → IsLeastFront w r turn.key →
        IsNext asks w (turns r) turn.key.cog turn.key.clock turn.access → turn.answer ≡ answer_to w (turns r) turn.key turn.access →
        Extends asks w (turns r) turn }
{}

/// Where there are as many turns as may be, or no cog has a front, the history has ended.
pub fn no_front_ends()
    ensures { (w : World) (r : Record) → IsTruthful w r → Legal asks w (turns r) → ((length (turns r) ≡ w.turns) ⊎ NoFront w r) → Ended asks w (turns r) }
{}
