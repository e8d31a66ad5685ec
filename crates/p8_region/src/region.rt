// A region, and what a cut takes of it.
ghost use Rattle.std.specs.Prelude.{◌≡◌, ◌+◌, ◌≤◌, [], IfOk, OnOk, IfErr, IsOk, ◌↔◌};
ghost use Rattle.std.specs.Mem.{type_size};
ghost use Rattle.std.specs.Align.{type_align};
ghost use prog.Memory.{capped};
ghost use Rattle.p8_region.specs.Bounded.{bounded};
ghost use Rattle.p8_region.specs.Words.{words_asked};

use crate::places::{Places, Start, cut_off, reserve};
use crate::strip::Strip;
use p8_words::NoMemory;
use std::alloc::Global;
use std::marker::Model;
use std::mem::size_of;

/// One block of memory, from which strips are cut. Contracts see the words that may still be cut; a word has
/// 4 bytes.
#[derive(Drop)]
pub struct Region {
    start: Start<u64>,
    rest: Places<u64>,
    left: usize,
}

impl Model for Region {
    ghost use Rattle.std.specs.Prelude.{◌≡◌, ◌<◌, ◌/◌, ◌^◌, ℕ, None, replicate};

    ghost Value = { ℕ };

    ghost view = { λ r. r.left };

    ghost invariant = { λ r. (r.rest.at ≡ r.start.ptr) × (r.rest.slots ≡ replicate (r.left / 2) None) × (r.left < 2 ^ 61) };
}

/// A cut asked for more words than were left.
#[derive(Clone, Copy, Debug, PartialEq, Eq)]
pub struct NoRoom {
    /// The words that it asked for, or the greatest `usize` where they are more.
    pub asked: usize,
    /// The words that were left.
    pub left: usize,
}

// The size of a value. The prover takes `size_of` of a type parameter only by itself.
fn size_of_item<T>() -> usize
    ensures { result ≡ capped (type_size T.row) }
{
    size_of::<T>()
}

/// The words that a strip with room for `n` values takes: `n` times the size of one, rounded up to an even number of
/// words, or the greatest `usize` where that is more.
pub fn words_of<T: Copy>(n: usize) -> usize
    ensures { result ≡ words_asked T.row n }
{
    let bytes = n as u128 * size_of_item::<T>() as u128;
    let words = bytes.div_ceil(8) * 2;
    if words > usize::MAX as u128 {
        return usize::MAX;
    }
    words as usize
}

impl Region {
    /// A block of which `words` words may be cut. The block is not written to before a strip is.
    pub fn new(alloc: Global, words: usize) -> Result<Region, NoMemory>
        ensures { IfOk result (λ region. region ≡ words) }
    {
        let pairs = words / 2;
        // A block has fewer than 2 ^ 63 bytes.
        if pairs >= 1 << 60 {
            return Err(NoMemory);
        }
        let (start, rest) = reserve(&alloc, pairs)?;
        Ok(Region {
            start,
            rest,
            left: words,
        })
    }

    /// The words that may still be cut.
    pub fn left(&self) -> usize
        ensures { result ≡ self.now }
    {
        self.left
    }

    /// An empty strip with room for `n` values, which shares no byte with any other; `words_of::<T>(n)` words fewer are
    /// left. Refused, with the region as it was, exactly where that is more than what is left.
    pub fn cut<T: Copy>(&mut self, n: usize) -> Result<Strip<T>, NoRoom>
        requires aligned { type_align T.row ≤ 8 }
        ensures exactly { IsOk result ↔ (words_asked T.row n ≤ self.old) }
        ensures strip { IfOk result (λ strip. strip ≡ bounded [] n) }
        ensures left { OnOk result (self.new + words_asked T.row n ≡ self.old) }
        ensures refusal { IfErr result (λ refusal. (refusal.asked ≡ words_asked T.row n) × (refusal.left ≡ self.old)) }
        ensures kept { IfErr result (λ _. self.new ≡ self.old) }
    {
        let asked = words_of::<T>(n);
        if asked > self.left {
            return Err(NoRoom {
                asked,
                left: self.left,
            });
        }
        let left = self.left - asked;
        let (start, places) = cut_off(&mut self.rest, self.start, left / 2, n);
        self.left = left;
        Ok(Strip::empty(start, places, n))
    }
}
