// Laws of histories. The functions do nothing: their contracts are the laws.
ghost use Rattle.std.specs.Prelude.{◌≡◌, ◌++◌, List};
ghost use Rattle.p8_access.specs.declared.order.Turn.{Turn};
ghost use Rattle.p8_access.specs.Worlds.{World};
ghost use Rattle.p8_access.specs.Histories.{Legal, Ended, Rises};

use crate::lives::Life;

/// A world has one ended history, whatever kind of life runs in its cogs.
pub fn one_history<L: Life>()
    ensures { (w : World) (h k : List Turn) → Ended L.asked w h → Ended L.asked w k → h ≡ k }
{}

/// The ended history of a world, read from its first turn on, begins with every legal one: so each of
/// them can be extended or has ended.
pub fn each_legal_past_begins_it<L: Life>()
    ensures { (w : World) (h past : List Turn) → Ended L.asked w h → Legal L.asked w past → (more : List Turn) × (more ++ past ≡ h) }
{}

/// The keys of a legal history rise strictly.
pub fn keys_rise<L: Life>()
    ensures { (w : World) (h : List Turn) → Legal L.asked w h → Rises h }
{}
