// The operand stack of a Spin cog.
ghost use Rattle.std.specs.Prelude.{ℕ, List, ◌≡◌, ◌<◌, ◌≤◌, ◌+◌, ◌-◌, ◌∷◌, ◌++◌, [], length, take, slice_index, IfOk};

use p8_region::{Region, Strip, words_of};
use p8_words::NoMemory;
use std::alloc::Global;
use std::marker::Model;

/// How many longs the operand stack holds at most.
pub const STACK_LONGS: usize = 16384;

/// The longs of the operand stack, from the bottom to the top. All memory that they may need is taken
/// at the start: a strip of a region.
#[derive(Drop)]
pub struct OperandStack {
    /// The longs up to the greatest height that there was.
    longs: Strip<u32>,
    height: usize,
}

impl Model for OperandStack {
    ghost use Rattle.std.specs.Prelude.{◌≡◌, ◌≤◌, ℕ, List, length, take};

    ghost Value = { List ℕ };

    ghost view = { λ s. take s.height s.longs.list };

    ghost invariant = { λ s. (s.longs.room ≡ 16384) × (length s.longs.list ≤ 16384) × (s.height ≤ length s.longs.list) };
}

/// A strip for 16,384 longs, in a region of its own.
pub fn own_strip(alloc: Global) -> Result<Strip<u32>, NoMemory>
    ensures { IfOk result (λ strip. strip.room ≡ 16384) }
{
    let mut region = Region::new(alloc, words_of::<u32>(STACK_LONGS))?;
    match region.cut(STACK_LONGS) {
        Ok(strip) => Ok(strip),
        Err(_) => unreachable!(),
    }
}

impl OperandStack {
    /// An empty stack in a strip with room for 16,384 longs. What stands there is taken away.
    pub fn in_strip(strip: Strip<u32>) -> OperandStack
        requires { strip.room ≡ 16384 }
        ensures { result ≡ [] }
    {
        let mut longs = strip;
        longs.clear();
        OperandStack { longs, height: 0 }
    }

    /// How many longs there are.
    #[inline]
    pub fn len(&self) -> usize
        ensures len { result ≡ length self.now }
        ensures most { length self.now ≤ 16384 }
    {
        self.height
    }

    /// The long at a place, counted from the bottom.
    #[inline]
    pub fn at(&self, place: usize) -> u32
        requires { place < length self.now }
        ensures { result ≡ slice_index self.now place }
    {
        let longs = self.longs.as_slice();
        longs[place]
    }

    /// The long so many places below the top, 0 for the top itself.
    #[inline]
    pub fn top(&self, below: usize) -> u32
        requires { below < length self.now }
        ensures { result ≡ slice_index self.now (length self.now - 1 - below) }
    {
        let longs = self.longs.as_slice();
        longs[self.height - 1 - below]
    }

    /// The long so many places below the top; with fewer, the one at the bottom, and 0 without any.
    #[inline]
    pub fn peek(&self, below: usize) -> u32
        requires { below ≤ 1000 }
        ensures { result ≡ slice_index self.now (length self.now - 1 - below) }
    {
        let place = self.height.saturating_sub(1 + below);
        if place < self.height {
            let longs = self.longs.as_slice();
            longs[place]
        } else {
            0
        }
    }

    /// Adds a long at the top.
    #[inline]
    pub fn push(&mut self, long: u32)
        requires { length self.old < 16384 }
        ensures { self.new ≡ self.old ++ long ∷ [] }
    {
        if self.height < self.longs.len() {
            self.longs.set(self.height, long);
        } else {
            match self.longs.push(long) {
                Ok(()) => {}
                Err(_) => unreachable!(),
            }
        }
        self.height += 1;
    }

    /// Takes so many longs from the top.
    #[inline]
    pub fn drop_top(&mut self, count: usize)
        requires { count ≤ length self.old }
        ensures { self.new ≡ take (length self.old - count) self.old }
    {
        self.height -= count;
    }

    /// Leaves at most so many longs, those at the bottom.
    #[inline]
    pub fn lower(&mut self, height: usize)
        ensures { self.new ≡ take height self.old }
    {
        if height < self.height {
            self.height = height;
        }
    }

    /// Takes all longs.
    pub fn clear(&mut self)
        ensures { self.new ≡ [] }
    {
        self.height = 0;
    }
}
