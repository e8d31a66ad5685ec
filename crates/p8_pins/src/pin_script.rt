// Pin scripts.
ghost use Rattle.std.specs.Prelude.{◌≡◌, ◌<◌, ◌≤◌, ◌^◌, ◌∷◌, ◌++◌, [], ℕ, length, slice_get, IsTrue, ◌↔◌, MatchBool, IfOk, IfErr, IfSome, IfNone};
ghost use Rattle.p8_access.specs.declared.kinds.Test.{Test};
ghost use Rattle.p8_access.specs.Worlds.{level_at as level_of};
ghost use Rattle.p8_pins.specs.Scripts.{IsReadAs, Tells, clocks_of};
ghost use Rattle.p8_pins.specs.Matches.{HoldsAt, next_clock, IsBefore};

use crate::line_text::{Change, change_of, first_line, is_skipped};
use crate::matching::{CLOCK_END, first_with, holds, pins};
use crate::script_fault::ScriptFault;
use crate::spans::Span;
use p8_access::Test;
use p8_words::{Fail, NoMemory};
use std::alloc::Global;
use std::marker::Model;

/// The most bytes of a script's text.
const MOST_BYTES: usize = 1_048_576;

/// The most lines of a text that carry a clock.
const MOST_LINES: usize = 100_000;

/// The levels of the input pins over the clocks of a run.
///
/// Each line has a clock and the levels that hold from that clock on. Before the first line all
/// levels are 0. Bit n of the levels is the level of pin n.
#[derive(Drop)]
pub struct PinScript {
    changes: Vec<Change>,
}

impl Model for PinScript {
    ghost use Rattle.std.specs.Prelude.{List};
    ghost use Rattle.std.specs.List.Sorted.{IsStrictlyIncreasing};
    ghost use Rattle.p8_access.specs.Worlds.{Line};
    ghost use Rattle.p8_pins.specs.Scripts.{clocks_of};
    ghost use Rattle.p8_pins.specs.Changes.{lines_of, IsShort};

    ghost Value = { List Line };

    ghost view = { λ script. lines_of script.changes.items };

    ghost invariant = { λ script. IsStrictlyIncreasing (clocks_of (lines_of script.changes.items)) × IsShort (lines_of script.changes.items) };
}

impl PinScript {
    ghost use Rattle.p8_pins.specs.Changes.{levels_by, clock_of as clock_in, IsOfPins};
    ghost use Rattle.p8_pins.specs.Readings.{Follows, Takes, Stops};

    /// A script without lines: all levels are 0 at every clock.
    pub fn empty(alloc: Global) -> PinScript
        ensures { result ≡ [] }
    {
        PinScript {
            changes: Vec::new(alloc),
        }
    }

    /// The same script once more. The only error is want of memory.
    pub fn copy(&self, alloc: Global) -> Result<PinScript, NoMemory>
        ensures { IfOk result (λ copy. copy ≡ self.now) }
    {
        Ok(PinScript {
            changes: self.changes.to_vec(alloc)?,
        })
    }

    /// Reads a script.
    ///
    /// Its lines end with LF or CR LF; the last may lack that. A line that is empty or begins with `#`
    /// is skipped. Every other line has a clock, one to ten decimal digits, then one space, then the
    /// levels from that clock on, eight hexadecimal digits of either case. Clocks rise strictly. At
    /// most 100,000 lines have a clock, and the text has at most 1,048,576 bytes. The form is this
    /// project's profile.
    ///
    /// # Errors
    ///
    /// `Refused` exactly where the text is no script, with its first bad line, or with line 0 where it
    /// is too long; `NoMemory` where there is no memory for the lines.
    pub fn read(alloc: Global, bytes: &[u8]) -> Result<PinScript, Fail<ScriptFault>>
        ensures ok { IfOk result (IsReadAs bytes.now) }
        ensures refused { IfErr result (Tells bytes.now) }
    {
        if bytes.len() > MOST_BYTES {
            return Err(Fail::Refused(ScriptFault { line: 0 }));
        }
        let mut script = PinScript::empty(alloc);
        let mut rest = bytes;
        let mut line = 0;
        'texts: while !rest.is_empty() {
            let (text, after) = first_line(rest);
            line += 1;
            if !script.take(text)? {
                return Err(Fail::Refused(ScriptFault { line }));
            }
            rest = after;
        }
        Ok(script)
    }

    /// Takes a line of text at the end; false exactly where it is a bad one.
    fn take(&mut self, text: &[u8]) -> Result<bool, NoMemory>
        ensures { IfOk result (λ good. MatchBool good (Takes self.old text.now self.new) (Stops self.old text.now)) }
    {
        if is_skipped(text) {
            return Ok(true);
        }
        let Some(change) = change_of(text) else {
            return Ok(false);
        };
        if !self.may_follow(change.clock) {
            return Ok(false);
        }
        match self.changes.push(change) {
            Ok(()) => Ok(true),
            Err(_) => Err(NoMemory),
        }
    }

    /// Whether a line with this clock may come next.
    fn may_follow(&self, clock: u64) -> bool
        ensures { IsTrue result ↔ Follows self.now clock }
    {
        self.changes.len() < MOST_LINES
            && match self.changes.last() {
                None => true,
                Some(last) => last.clock < clock,
            }
    }

    /// How many lines have no later clock than this one.
    fn lines_by(&self, clock: u64) -> usize
        ensures within { result ≤ length self.now }
        ensures before { (k : ℕ) → k < result → clock_in self.now k ≤ clock }
        ensures after { (k : ℕ) → result ≤ k → k < length self.now → clock < clock_in self.now k }
    {
        self.changes.partition_point(|change| change.clock <= clock)
    }

    /// Whether the line at a place, if there is one, comes later than a clock.
    #[inline]
    fn is_later(&self, place: usize, clock: u64) -> bool
        ensures { MatchBool result (place < length self.now → clock < clock_in self.now place) ((place < length self.now) × (clock_in self.now place ≤ clock)) }
    {
        match self.clock_of(place) {
            None => true,
            Some(line) => clock < line,
        }
    }

    /// Whether so many lines have no later clock than this one, and the others have.
    #[inline]
    fn is_count(&self, count: usize, clock: u64) -> bool
        ensures within { IsTrue result → count ≤ length self.now }
        ensures before { IsTrue result → (k : ℕ) → k < count → clock_in self.now k ≤ clock }
        ensures after { IsTrue result → (k : ℕ) → count ≤ k → k < length self.now → clock < clock_in self.now k }
    {
        if !self.is_later(count, clock) {
            return false;
        }
        match count.checked_sub(1) {
            None => true,
            Some(last) => last < self.changes.len() && !self.is_later(last, clock),
        }
    }

    /// How many lines have no later clock than this one, at once where it is as many as `near` or one more.
    #[inline]
    fn lines_near(&self, near: usize, clock: u64) -> usize
        ensures within { result ≤ length self.now }
        ensures before { (k : ℕ) → k < result → clock_in self.now k ≤ clock }
        ensures after { (k : ℕ) → result ≤ k → k < length self.now → clock < clock_in self.now k }
    {
        if self.is_count(near, clock) {
            return near;
        }
        if near < self.changes.len() && self.is_count(near + 1, clock) {
            return near + 1;
        }
        self.lines_by(clock)
    }

    /// The levels that so many lines leave.
    fn levels_after(&self, count: usize) -> u32
        requires { count ≤ length self.now }
        ensures { result ≡ levels_by 0 self.now count }
    {
        match count.checked_sub(1) {
            None => 0,
            Some(last) => self.changes[last].levels,
        }
    }

    /// The levels of the input pins at a clock: those of the last line whose clock isn't later, else 0.
    pub fn level_at(&self, clock: u64) -> u32
        ensures { result ≡ level_of self.now clock }
    {
        self.levels_after(self.lines_by(clock))
    }

    /// The span from a clock on up to the next line.
    pub fn span_at(&self, clock: u64) -> Span
        ensures levels { result.levels ≡ level_of self.now clock }
        ensures end { result.end ≡ next_clock self.now clock }
        ensures later { IfSome result.end (λ end. clock < end) }
        ensures same { (u : ℕ) → clock ≤ u → IsBefore u result.end → level_of self.now u ≡ result.levels }
    {
        self.span_by(self.lines_by(clock))
    }

    /// The span from a clock on, as `span_at` gives it: at once where the clock is in this span of the
    /// script or in the one after it.
    #[inline]
    pub fn span_near(&self, near: &Span, clock: u64) -> Span
        ensures levels { result.levels ≡ level_of self.now clock }
        ensures end { result.end ≡ next_clock self.now clock }
        ensures later { IfSome result.end (λ end. clock < end) }
        ensures same { (u : ℕ) → clock ≤ u → IsBefore u result.end → level_of self.now u ≡ result.levels }
    {
        self.span_by(self.lines_near(near.count, clock))
    }

    /// The span after so many lines.
    #[inline]
    fn span_by(&self, count: usize) -> Span
        requires { count ≤ length self.now }
        ensures levels { result.levels ≡ levels_by 0 self.now count }
        ensures end { result.end ≡ slice_get (clocks_of self.now) count }
    {
        Span {
            levels: self.levels_after(count),
            end: self.clock_of(count),
            count,
        }
    }

    /// The clock of the line at a place.
    fn clock_of(&self, place: usize) -> Option<u64>
        ensures { result ≡ slice_get (clocks_of self.now) place }
    {
        Some(self.changes.get(place)?.clock)
    }

    /// The least clock of at least `from` and below 2^62 at which a test holds while the outputs stay
    /// so; None exactly where there is none.
    ///
    /// `dira` has the pins that are outputs, and `outputs` those of them that are high. A wait for the
    /// counter takes no look at the script. One for pins walks forward over the script's lines from
    /// `from` on, up to the first that matches.
    pub fn first_match(&self, from: u64, dira: u32, outputs: u32, test: &Test) -> Option<u64>
        ensures below { IfSome result (λ clock. clock < 2 ^ 62) }
        ensures not_before { IfSome result (λ clock. from ≤ clock) }
        ensures holds { IfSome result (HoldsAt self.now dira outputs test.now) }
        ensures least { IfSome result (λ clock. (u : ℕ) → from ≤ u → HoldsAt self.now dira outputs test.now u → clock ≤ u) }
        ensures none { IfNone result ((u : ℕ) → from ≤ u → u < 2 ^ 62 → HoldsAt self.now dira outputs test.now u → ⊥) }
    {
        match *test {
            Test::Count { .. } => first_with(from, 0, test),
            _ => self.first_pins(from, dira, outputs, test),
        }
    }

    /// The least clock from a clock on at which a test of pins holds.
    fn first_pins(&self, from: u64, dira: u32, outputs: u32, test: &Test) -> Option<u64>
        requires { IsOfPins test.now }
        ensures below { IfSome result (λ clock. clock < 2 ^ 62) }
        ensures not_before { IfSome result (λ clock. from ≤ clock) }
        ensures holds { IfSome result (HoldsAt self.now dira outputs test.now) }
        ensures least { IfSome result (λ clock. (u : ℕ) → from ≤ u → HoldsAt self.now dira outputs test.now u → clock ≤ u) }
        ensures none { IfNone result ((u : ℕ) → from ≤ u → u < 2 ^ 62 → HoldsAt self.now dira outputs test.now u → ⊥) }
    {
        if from >= CLOCK_END {
            return None;
        }
        let count = self.lines_by(from);
        if holds(test, pins(dira, outputs, self.levels_after(count)), from) {
            return Some(from);
        }
        for i in count..self.changes.len() {
            let change = self.changes[i];
            if holds(test, pins(dira, outputs, change.levels), change.clock) {
                return Some(change.clock);
            }
        }
        None
    }
}
