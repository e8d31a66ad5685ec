// The lines of the turns that are shown.
ghost use Rattle.std.specs.Prelude.{◌≡◌, ◌<◌, ◌++◌, ◌∷◌, [], Bool, List, Option, ℕ, not, codes, length, reverse, IfOk, OnOk};
ghost use Rattle.std.specs.Fmt.{decimal};
ghost use Rattle.p8_access.specs.declared.order.Turn.{Turn};
ghost use Rattle.p8_access.specs.Worlds.{World};
ghost use Rattle.p8_access.specs.Hub.{cog_state, origin_of};
ghost use Rattle.p8_ledger.specs.Turns.{AreProper};
ghost use Rattle.p8_view.specs.Following.{AreCogs};
ghost use Rattle.p8_view.specs.Drives.{drives_of};
ghost use Rattle.p8_view.specs.View.{counter_of, is_asked, is_loaded as is_read_of_load, is_of, is_shown, lines_of};
ghost use Rattle.p8_view.specs.View.{loading, rate, shown_line, turn_line, what_text, when_text};

use crate::accesses::{local_of, push_access, push_place_of};
use crate::cogs::Cogs;
use crate::drives::{Drives, are_same, push_pins};
use crate::times::{push_time, rate_of};
use itoa::Buffer;
use p8_access::{Access, Origin, Turn};
use p8_instr::push_text;
use p8_ledger::History;
use p8_legend::Legend;
use p8_words::NoMemory;
use std::alloc::Global;

/// Which turns of a history are shown. A turn is shown where each of these lets it through.
#[derive(Clone, Copy, Debug)]
pub struct ViewOptions {
    /// The cog whose turns are shown; those of all, where there is none.
    pub cog: Option<u8>,
    /// The first clock that is shown.
    pub from: u64,
    /// The first clock after those that are shown.
    pub to: u64,
    /// Whether only turns are shown that change whether a pin is an output, or the level of one.
    pub pins_only: bool,
    /// Whether no turn is shown at all.
    pub quiet: bool,
}

impl ViewOptions {
    /// Whether the turn of a cog at a clock is asked for, where it changes pins or not.
    fn asks_for(&self, clock: u64, cog: u8, changes: bool) -> bool
        ensures { result ≡ is_asked self.now clock cog changes }
    {
        !self.quiet
            && is_of(self.cog, cog)
            && self.from <= clock
            && clock < self.to
            && (!self.pins_only || changes)
    }
}

/// Whether a cog is the one that is asked for.
fn is_of(asked: Option<u8>, cog: u8) -> bool
    ensures { result ≡ is_of asked cog }
{
    match asked {
        None => true,
        Some(number) => number == cog,
    }
}

/// Whether an access is a read of a load, where so many of them are left.
fn is_loaded(access: &Access, left: u16) -> bool
    ensures { result ≡ is_read_of_load access.now left }
{
    match access {
        Access::Read { .. } => 0 < left,
        _ => false,
    }
}

/// Appends the number of a cog, after the word for it and before a space.
fn push_cog(out: &mut Vec<u8>, cog: u8) -> Result<(), NoMemory>
    requires { cog < 8 }
    ensures { OnOk result (out.new.items ≡ out.old.items ++ (codes "cog " ++ decimal cog ++ codes " ")) }
{
    push_text(out, &[b'c', b'o', b'g', b' ', b'0' + cog, b' '])
}

/// What is shown of a history, and in which words.
#[derive(Clone, Copy)]
pub(crate) struct Showing<'a> {
    pub options: &'a ViewOptions,
    pub legend: &'a Legend,
    pub frequency: u32,
}

impl<'a> Showing<'a> {
    /// Appends the clock and the time of a turn, and its cog.
    fn push_when(&self, out: &mut Vec<u8>, turn: &Turn) -> Result<(), NoMemory>
        requires { turn.now.key.cog < 8 }
        ensures { OnOk result (out.new.items ≡ out.old.items ++ when_text self.now.frequency turn.now) }
    {
        push_text(out, Buffer::new().format(turn.key.clock).as_bytes())?;
        push_text(out, b" ")?;
        push_time(out, self.frequency, turn.key.clock)?;
        push_cog(out, turn.key.cog)
    }

    /// Appends what the cog of a turn does, which was started with `own`, with the pins that change and the place in the source. What a bytecode names in
    /// the frame of its method is told by that name.
    fn push_what(
        &self,
        out: &mut Vec<u8>,
        own: &Origin,
        turn: &Turn,
        before: &Drives,
        after: &Drives,
        counter: Option<u16>,
    ) -> Result<(), NoMemory>
        ensures { OnOk result (out.new.items ≡ out.old.items ++ what_text self.now.legend.now own.now turn.now before.now after.now counter) }
    {
        let local = local_of(self.legend, own, counter);
        push_access(out, self.legend, own, local, &turn.access, turn.answer)?;
        push_pins(out, before, after)?;
        push_place_of(out, self.legend, own, counter)?;
        push_text(out, b"\n")
    }

    /// Appends the line of a turn of a cog that was started with `own`, by what the pins are before and after it.
    fn push_line(
        &self,
        out: &mut Vec<u8>,
        own: &Origin,
        turn: &Turn,
        before: &Drives,
        after: &Drives,
        counter: Option<u16>,
    ) -> Result<(), NoMemory>
        requires { turn.now.key.cog < 8 }
        ensures { (w : World) (past : List Turn) → own.now ≡ origin_of (cog_state w past turn.now.key.cog) → before.now ≡ drives_of past →
            after.now ≡ drives_of (turn.now ∷ past) → self.now.frequency ≡ rate w →
            OnOk result (out.new.items ≡ out.old.items ++ turn_line self.now.legend.now w past turn.now counter) }
    {
        self.push_when(out, turn)?;
        self.push_what(out, own, turn, before, after, counter)
    }

    /// Appends the line of a turn where it is shown, and takes note of it.
    fn push_turn(
        &self,
        out: &mut Vec<u8>,
        cogs: &mut Cogs,
        turn: &Turn,
        counter: Option<u16>,
    ) -> Result<(), NoMemory>
        requires { turn.now.key.cog < 8 }
        ensures text { (w : World) (past : List Turn) → AreCogs w past cogs.old → self.now.frequency ≡ rate w →
            OnOk result (out.new.items ≡ out.old.items ++ shown_line self.now.options.now self.now.legend.now w past turn.now counter) }
        ensures cogs { (w : World) (past : List Turn) → AreCogs w past cogs.old → AreCogs w (turn.now ∷ past) cogs.new }
    {
        let own = cogs.origin(turn.key.cog);
        let left = cogs.left(turn.key.cog);
        let before = cogs.drives();
        cogs.record_turn(turn);
        let after = cogs.drives();
        if !self.shows(left, &before, &after, turn) {
            return Ok(());
        }
        self.push_line(out, &own, turn, &before, &after, counter)
    }

    /// Whether a turn is shown, by how many reads of its load its cog has still to make and what the pins are before and after it.
    fn shows(&self, left: u16, before: &Drives, after: &Drives, turn: &Turn) -> bool
        ensures { (past : List Turn) → left ≡ loading past turn.now.key.cog → before.now ≡ drives_of past → after.now ≡ drives_of (turn.now ∷ past) →
            result ≡ is_shown self.now.options.now past turn.now }
    {
        let changes = !are_same(before, after);
        self.options.asks_for(turn.key.clock, turn.key.cog, changes)
            && !is_loaded(&turn.access, left)
    }
}

/// The counter of the turn of this number, where one is known.
pub(crate) fn counter_of(counters: &[Option<u16>], number: usize) -> Option<u16>
    ensures { result ≡ counter_of counters.now number }
{
    match counters.get(number) {
        Some(counter) => *counter,
        None => None,
    }
}

/// The lines of some turns that are shown, the oldest first; cog 0 was started with `first`.
pub(crate) fn lines(
    alloc: Global,
    showing: &Showing<'_>,
    first: Origin,
    turns: &[Turn],
    counters: &[Option<u16>],
) -> Result<Vec<u8>, NoMemory>
    requires { AreProper turns.now }
    ensures { (w : World) → w.first ≡ first → showing.now.frequency ≡ rate w →
        IfOk result (λ text. text.items ≡ lines_of showing.now.options.now showing.now.legend.now w counters.now (reverse turns.now)) }
{
    let mut out = Vec::new(alloc);
    let mut cogs = Cogs::open(first);
    for (number, turn) in turns.iter().enumerate() {
        let counter = counter_of(counters, number);
        showing.push_turn(&mut out, &mut cogs, turn, counter)?;
    }
    Ok(out)
}

/// The lines of the turns of a history that are shown, the oldest first: the clock, the time where the program's image tells its
/// frequency, the cog, what it does, the pins that change, and the place in the source where one is known. What a bytecode of Spin reads or
/// writes in the frame of its method, and names by itself, is told by its name there.
///
/// `counters` has for each turn, the oldest first, the hub address of the bytecode that asks it; none is known of a turn behind its end.
/// The reads of a load have no line. The only error is want of memory.
pub fn turn_lines(
    alloc: Global,
    history: &History,
    counters: &[Option<u16>],
    legend: &Legend,
    options: &ViewOptions,
) -> Result<Vec<u8>, NoMemory>
    ensures { (w : World)
        → w.memory ≡ history.now.boot.ram
        → w.first ≡ history.now.boot.first
        → IfOk result (λ text. text.items ≡ lines_of options.now legend.now w counters.now (reverse history.now.turns.list)) }
{
    let showing = Showing {
        options,
        legend,
        frequency: rate_of(&history.boot),
    };
    let turns = history.turns.as_slice();
    lines(alloc, &showing, history.boot.first, turns, counters)
}
