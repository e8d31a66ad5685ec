// A list that lies in a row of places and never outgrows it.
ghost use Rattle.std.specs.Prelude.{◌≡◌, ◌<◌, ◌≤◌, ◌-◌, ◌++◌, ◌∷◌, [], None, length, replicate, slice_get, slice_set, IfOk, OnOk, IfErr, IsOk};
ghost use Rattle.std.specs.Prelude.{IsTrue, false, ◌↔◌};
ghost use Rattle.p8_region.specs.Bounded.{bounded};

use crate::places::{Places, Start};
use std::marker::Model;

/// A list of at most so many values, in memory of its own. Contracts see its items in order and its room.
#[derive(Drop)]
pub struct Strip<T> {
    start: Start<T>,
    places: Places<T>,
    len: usize,
    room: usize,
}

impl<T> Model for Strip<T> {
    ghost use Rattle.std.specs.Prelude.{◌≡◌, ◌≤◌, length, take};
    ghost use Rattle.p8_region.specs.Bounded.{Bounded, bounded, bounded_code};
    ghost use Rattle.p8_region.specs.Places.{somes};

    ghost Value = { Bounded T };

    ghost coded = { bounded_code T.code };

    ghost view = { λ s. bounded (somes (take s.len s.places.slots)) s.room };

    ghost invariant = { λ s. (s.places.at ≡ s.start.ptr) × (length s.places.slots ≡ s.room) × (s.len ≤ s.room) × (length (somes (take s.len s.places.slots)) ≡ s.len) };
}

impl<T: Copy> Strip<T> {
    // No items yet, in a row of `room` places.
    pub(crate) fn empty(start: Start<T>, places: Places<T>, room: usize) -> Strip<T>
        requires { (places.at ≡ start.ptr) × (places.slots ≡ replicate room None) }
        ensures { result ≡ bounded [] room }
    {
        Strip {
            start,
            places,
            len: 0,
            room,
        }
    }

    /// Adds an item at the end, or gives it back exactly where the room is used up.
    pub fn push(&mut self, item: T) -> Result<(), T>
        ensures ok { OnOk result (self.new ≡ record self.old { list = self.old.list ++ item ∷ [] }) }
        ensures back { IfErr result (λ back. back ≡ item) }
        ensures kept { IfErr result (λ _. self.new ≡ self.old) }
        ensures exactly { IsOk result ↔ (length self.old.list < self.old.room) }
    {
        if self.len >= self.room {
            return Err(item);
        }
        self.places.write(self.start, self.len, item);
        self.len += 1;
        Ok(())
    }

    /// The item at place `i`, from 0, or None exactly where `i` is not below the length.
    pub fn get(&self, i: usize) -> Option<T>
        ensures { result ≡ slice_get self.now.list i }
    {
        self.as_slice().get(i).copied()
    }

    /// Puts an item at place `i`, from 0; false, with the list as it was, exactly where `i` is not below the length.
    pub fn set(&mut self, i: usize, item: T) -> bool
        ensures exactly { IsTrue result ↔ (i < length self.old.list) }
        ensures list { IsTrue result → self.new ≡ record self.old { list = slice_set self.old.list i item } }
        ensures kept { result ≡ false → self.new ≡ self.old }
    {
        if i >= self.len {
            return false;
        }
        self.places.write(self.start, i, item);
        true
    }

    /// How many items there are.
    pub fn len(&self) -> usize
        ensures len { result ≡ length self.now.list }
        ensures within { length self.now.list ≤ self.now.room }
    {
        self.len
    }

    /// Whether there are none.
    pub fn is_empty(&self) -> bool
        ensures { IsTrue result ↔ (self.now.list ≡ []) }
    {
        self.len == 0
    }

    /// How many more items there is room for.
    pub fn left(&self) -> usize
        ensures { result ≡ self.now.room - length self.now.list }
    {
        self.room - self.len
    }

    /// Takes all items away; the room stays.
    pub fn clear(&mut self)
        ensures { self.new ≡ record self.old { list = [] } }
    {
        self.len = 0;
    }

    /// All items in order.
    pub fn as_slice(&self) -> &[T]
        ensures { result.now ≡ self.now.list }
    {
        self.places.slice(self.start, self.len)
    }
}

/// Puts an item into one strip while another is at hand: whatever is written to the one, the other stays as it was.
///
/// The answer is that of `set`.
pub fn change_one<T: Copy, U: Copy>(
    changed: &mut Strip<T>,
    i: usize,
    item: T,
    _other: &mut Strip<U>,
) -> bool
    ensures exactly { IsTrue result ↔ (i < length changed.old.list) }
    ensures changed { IsTrue result → changed.new ≡ record changed.old { list = slice_set changed.old.list i item } }
    ensures kept { result ≡ false → changed.new ≡ changed.old }
    ensures other { _other.new ≡ _other.old }
{
    changed.set(i, item)
}
