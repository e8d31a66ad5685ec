// The open blocks.
ghost use Rattle.std.specs.Prelude.{◌≡◌, ℕ, ◌+◌, ◌^◌, ◌<◌, ◌≤◌, Bool, true, false, [], ◌∷◌, Some, None, OnOk, MatchOption, List, length, drop, slice_index_or};
ghost use Rattle.std.specs.List.{list_any};
ghost use Rattle.p8_columns.specs.Lines.{is_repeat};
ghost use Rattle.p8_columns.specs.Reader.{right_of, opener_at, is_right};
ghost use Rattle.p8_columns.specs.Views.{line_of, frames_in};

use crate::contents::Contents;
use crate::line::Line;
use std::alloc::{AllocError, Global};
use std::marker::Model;

/// An open block: its opener, and what stands before the opener in the block around it.
#[derive(Drop)]
pub struct Frame {
    pub opener: Line,
    pub outer: Contents,
}

/// The open blocks. Contracts see them as a list, the innermost first.
#[derive(Drop)]
pub struct Stack {
    frames: Vec<Frame>,
}

impl Model for Stack {
    ghost use Rattle.std.specs.Prelude.{List, reverse};
    ghost use Rattle.std.specs.Coded.{codes};
    ghost use Rattle.p8_columns.specs.declared.stack.Frame as frame;
    ghost use Rattle.p8_columns.specs.contracts.stack.Frame as coded_frame;

    ghost Value = { List frame.Frame };

    ghost coded = { Prim.hlevel (codes, coded_frame.the_row.coded) };

    ghost view = { λ s. reverse s.frames.items };
}

impl Stack {
    /// No block is open but the method.
    pub fn new(alloc: Global) -> Self
        ensures { result ≡ [] }
    {
        Stack {
            frames: Vec::new(alloc),
        }
    }

    /// Opens a block.
    pub fn push(&mut self, frame: Frame) -> Result<(), AllocError>
        ensures { OnOk result (self.new ≡ frame ∷ self.old) }
    {
        self.frames.push(frame)?;
        Ok(())
    }

    /// The number of open blocks but the method.
    pub fn len(&self) -> usize
        ensures exact { result ≡ length self.now }
        ensures bounded { result < 2 ^ 63 }
    {
        self.frames.len()
    }

    // The block at an index from the innermost.
    fn at(&self, index: usize) -> &Frame
        requires { index < length self.now }
        ensures { result.now ≡ slice_index_or self.now index result.now }
    {
        &self.frames[self.frames.len() - 1 - index]
    }

    /// The opener at an index from the innermost block.
    pub fn opener_at(&self, index: usize) -> Option<&Line>
        ensures { MatchOption result (opener_at (frames_in self.now) index ≡ None) (λ l. opener_at (frames_in self.now) index ≡ Some (line_of l.now)) }
    {
        if index < self.len() {
            Some(&self.at(index).opener)
        } else {
            None
        }
    }

    // Whether the innermost block's opener stands at a column or to the right of it.
    fn is_right(&self, column: u64) -> bool
        ensures { result ≡ is_right column (frames_in self.now) }
    {
        match self.opener_at(0) {
            Some(opener) => column <= u64::from(opener.place.column),
            None => false,
        }
    }

    /// Takes the innermost block off, where its opener stands at a column or to the right of it.
    pub fn pop_right(&mut self, column: u64) -> Option<Frame>
        ensures { MatchOption result ((is_right column (frames_in self.old) ≡ false) × (self.new ≡ self.old))
            (λ f. (is_right column (frames_in self.old) ≡ true) × (self.old ≡ f ∷ self.new)) }
    {
        if self.is_right(column) {
            self.frames.pop()
        } else {
            None
        }
    }

    /// How many blocks, from the innermost, have openers at a column or to the right of it.
    pub fn right_of(&self, column: u64) -> usize
        ensures exact { result ≡ right_of column (frames_in self.now) }
        ensures within { result ≤ length self.now }
    {
        let mut index = 0;
        'inward: while index < self.len() {
            if u64::from(self.at(index).opener.place.column) < column {
                return index;
            }
            index += 1;
        }
        index
    }

    /// Whether one of the blocks from an index on is a `REPEAT`.
    pub fn has_loop(&self, first: usize) -> bool
        ensures { result ≡ list_any (λ f. is_repeat f.opener.kind) (drop first (frames_in self.now)) }
    {
        let mut index = first;
        'outward: while index < self.len() {
            if self.at(index).opener.kind.is_repeat() {
                return true;
            }
            index += 1;
        }
        false
    }
}
