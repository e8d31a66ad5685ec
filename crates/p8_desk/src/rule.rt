// What the seats at the table know, and the rule that every step keeps.
use atomic_table::{Join, Play, Seat, Shared, Split, Table, TableRule};
use p8_ledger::{Ledger, Start, Step};
use std::alloc::Global;
use std::collections::LinkedList;
use std::marker::PhantomData;

/// What is known of one cog's pass: its own steps, the record that it has seen, how many of its exchanges won the lock
/// word, and the cogs whose passes its lost exchanges found. Lists have the newest first. No value of it is made.
pub struct Known {
    pub cog: u8,
    pub own: LinkedList<Step>,
    pub seen: LinkedList<Step>,
    pub won: u64,
    pub found: LinkedList<u8>,
}

/// What a seat knows: where the run begins, its passes, and for which cog it holds the lock word. A seat that
/// was joined to another isn't live any more. No value of it is made.
pub struct View {
    pub live: bool,
    pub start: Start,
    pub passes: LinkedList<Known>,
    pub holds: Option<u8>,
}

/// The rule over the lock word, the count of turns, the slot and all views.
pub struct DeskRule;

impl TableRule<Option<Ledger>, View, Start> for DeskRule {
    ghost use Rattle.p8_desk.specs.Rules.{Kept, first_view};

    ghost holds = { Kept };

    ghost first = { first_view };
}

/// The table as its seats share it.
pub type Board = Shared<Option<Ledger>, View, Start, DeskRule>;

/// A seat at the table.
pub type Place = Seat<Option<Ledger>, View>;

/// The table with its memory.
pub type Tabletop = Table<Option<Ledger>, View, Start, DeskRule, Global>;

/// The cog and the record that a proof speaks of.
pub trait Named {
    ghost use Rattle.std.specs.Prelude.{ℕ};
    ghost use Rattle.p8_ledger.specs.Records.{Record};

    ghost cog: { ℕ };

    ghost seen: { Record };
}

/// An exchange on the lock word.
pub struct Seizes;

impl Play<Option<Ledger>, View> for Seizes {
    ghost use Rattle.p8_desk.specs.Rules.{Seized};

    ghost then = { Seized };
}

/// The lock word is freed.
pub struct Releases;

impl Play<Option<Ledger>, View> for Releases {
    ghost use Rattle.p8_desk.specs.Rules.{Released};

    ghost then = { Released };
}

/// The passes of the holder see a record that has gone on by steps of its cog.
pub struct Tells<B> {
    named: PhantomData<B>,
}

impl<B: Named> Play<Option<Ledger>, View> for Tells<B> {
    ghost use Rattle.p8_desk.specs.Rules.{Seen};

    ghost then = { Seen B.seen };
}

/// A bell has changed, which tells nothing.
pub struct Rings;

impl Play<Option<Ledger>, View> for Rings {
    ghost use Rattle.p8_desk.specs.Rules.{Rung};

    ghost then = { Rung };
}

/// The pass of one cog goes to a seat of its own.
pub struct Parts<B> {
    named: PhantomData<B>,
}

impl<B: Named> Split<View> for Parts<B> {
    ghost use Rattle.p8_desk.specs.Rules.{without_pass, pass_alone};

    ghost left = { without_pass B.cog };

    ghost right = { pass_alone B.cog };
}

/// The passes of two seats come together in one.
pub struct Joins;

impl Join<View> for Joins {
    ghost use Rattle.p8_desk.specs.Rules.{joined, spent_view};

    ghost both = { joined };

    ghost spent = { spent_view };
}
