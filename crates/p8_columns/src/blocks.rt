// The statements of a method, as its lines are taken one after another.
ghost use Rattle.std.specs.Prelude.{◌≡◌, ◌+◌, ◌↔◌, [], ◌∷◌, ◌++◌, length, IsTrue, OnOk, IfOk};
ghost use Rattle.std.specs.List.{list_any};
ghost use Rattle.p8_tree.specs.Views.{statements_of};
ghost use Rattle.p8_columns.specs.Lines.{is_repeat, is_plain_repeat, is_case, is_other};
ghost use Rattle.p8_columns.specs.Columns.{open_for, innermost, last_up_to, IsAt, HasRoom, HasChain, Fits};
ghost use Rattle.p8_columns.specs.Blocks.{AreStatements};
ghost use Rattle.p8_columns.specs.Reader.{state, close, put, opener_at, opener_before, passes};
ghost use Rattle.p8_columns.specs.Views.{line_of, contents_of, frames_in};
ghost use Rattle.p8_columns.specs.Taken.{Lines, HasTaken};

use crate::contents::Contents;
use crate::line::Line;
use crate::room::{Chain, Room};
use crate::stack::{Frame, Stack};
use p8_tree::{List, Stmt};
use p8_words::NoMemory;
use std::alloc::{AllocError, Global};
use std::mem;

/// The open blocks of a method, with what stands in each so far.
///
/// Lines are taken one after another, each where it fits: the queries say what fits at a column. Every
/// clause holds for all lines that were taken.
///
/// A line takes constant time, amortised: each block is closed once, and what stands in it is moved and
/// not copied. A query goes over the open blocks once at most. Nothing recurses on the lines; but to
/// let go of statements recurses as deep as they are nested, so a caller bounds `depth`.
#[derive(Drop)]
pub struct Blocks {
    contents: Contents,
    stack: Stack,
}

// Closes the blocks whose openers stand at a column or to the right of it.
fn close(
    alloc: Global,
    column: u64,
    contents: Contents,
    stack: &mut Stack,
) -> Result<Contents, AllocError>
    ensures { IfOk result (λ x. close column (contents_of contents) (frames_in stack.old) ≡ state (contents_of x) (frames_in stack.new)) }
{
    let mut contents = contents;
    'closes: while let Some(frame) = stack.pop_right(column) {
        contents = frame.outer.with(alloc, frame.opener, contents)?;
    }
    Ok(contents)
}

// A line after the blocks that it closes.
fn put(
    alloc: Global,
    line: Line,
    contents: Contents,
    stack: &mut Stack,
) -> Result<Contents, AllocError>
    ensures { IfOk result (λ x. put (state (contents_of contents) (frames_in stack.old)) (line_of line) ≡ state (contents_of x) (frames_in stack.new)) }
{
    if line.kind.is_opener() {
        let inner = Contents::begun(alloc, &line.kind);
        stack.push(Frame {
            opener: line,
            outer: contents,
        })?;
        Ok(inner)
    } else {
        contents.with(alloc, line, Contents::Body(Vec::new(alloc)))
    }
}

// The chain whose last arm is an opener, for a line at a column.
fn chain_at(opener: &Line, column: u32) -> Chain
    ensures { HasChain result column (Some (line_of opener.now)) }
{
    if opener.place.column != column {
        Chain::Missing
    } else if opener.kind.is_arm() {
        Chain::Begun
    } else if opener.kind.is_else() {
        Chain::Ended
    } else {
        Chain::Missing
    }
}

// Whether an opener is a plain loop for a `WHILE` or `UNTIL` at a column.
fn is_plain_loop_at(opener: &Line, column: u32) -> bool
    ensures { IsTrue result ↔ IsAt is_plain_repeat column (Some (line_of opener.now)) }
{
    opener.place.column == column && opener.kind.is_plain_repeat()
}

impl Blocks {
    /// No line is taken.
    pub fn new(alloc: Global) -> Self
        ensures { HasTaken [] result }
    {
        Blocks {
            contents: Contents::Body(Vec::new(alloc)),
            stack: Stack::new(alloc),
        }
    }

    // Whether the block outside the first `closed` ones, from the innermost, is a `CASE`.
    fn is_case(&self, closed: usize) -> bool
        ensures { result ≡ passes is_case (opener_at (frames_in self.now.stack) closed) }
    {
        match self.stack.opener_at(closed) {
            Some(opener) => opener.kind.is_case(),
            None => false,
        }
    }

    // Whether the last of the first `closed` blocks, from the innermost, is an `OTHER`.
    fn is_other(&self, closed: usize) -> bool
        ensures { result ≡ passes is_other (opener_before (frames_in self.now.stack) closed) }
    {
        if closed == 0 {
            return false;
        }
        match self.stack.opener_at(closed - 1) {
            Some(opener) => opener.kind.is_other(),
            None => false,
        }
    }

    /// What may stand at a column next: an item or `OTHER` fits there exactly where the answer is
    /// `Item`, and a line that is none of these, no `ELSE` kind and no `WHILE` or `UNTIL`, exactly
    /// where it is `Statement`.
    pub fn room(&self, column: u32) -> Room
        ensures { (lines : Lines) → HasTaken lines self.now → HasRoom result (innermost column lines) }
    {
        let closed = self.stack.right_of(u64::from(column));
        if self.is_case(closed) {
            if self.is_other(closed) {
                Room::Nothing
            } else {
                Room::Item
            }
        } else {
            Room::Statement
        }
    }

    /// The `IF` chain at a column: an `ELSE` kind fits there exactly where the chain may go on.
    pub fn chain(&self, column: u32) -> Chain
        ensures { (lines : Lines) → HasTaken lines self.now → HasChain result column (last_up_to column lines) }
    {
        let right = self.stack.right_of(u64::from(column) + 1);
        match self.stack.opener_at(right) {
            Some(opener) => chain_at(opener, column),
            None => Chain::Missing,
        }
    }

    /// Whether a plain `REPEAT` stands at a column for a `WHILE` or `UNTIL` there: such a line fits
    /// exactly then.
    pub fn is_plain_loop(&self, column: u32) -> bool
        ensures { (lines : Lines) → HasTaken lines self.now → IsTrue result ↔ IsAt is_plain_repeat column (last_up_to column lines) }
    {
        let right = self.stack.right_of(u64::from(column) + 1);
        match self.stack.opener_at(right) {
            Some(opener) => is_plain_loop_at(opener, column),
            None => false,
        }
    }

    /// The number of blocks that are open for a line at a column, the method counted.
    pub fn depth(&self, column: u32) -> usize
        ensures { (lines : Lines) → HasTaken lines self.now → result ≡ length (open_for column lines) + 1 }
    {
        self.stack.len() - self.stack.right_of(u64::from(column)) + 1
    }

    /// Whether a `REPEAT` is open for a line at a column, as `NEXT` and `QUIT` need.
    pub fn is_in_loop(&self, column: u32) -> bool
        ensures { (lines : Lines) → HasTaken lines self.now → result ≡ list_any (λ b. is_repeat b.opener.kind) (open_for column lines) }
    {
        self.stack.has_loop(self.stack.right_of(u64::from(column)))
    }

    /// Takes the next line. It must fit after the lines taken, as the queries tell.
    ///
    /// # Errors
    ///
    /// `NoMemory` where there is none; the blocks are then of no use.
    pub fn take(&mut self, alloc: Global, line: Line) -> Result<(), NoMemory>
        requires { (lines : Lines) → HasTaken lines self.old → Fits lines (line_of line) }
        ensures { (lines : Lines) → HasTaken lines self.old → OnOk result (HasTaken (lines ++ line_of line ∷ []) self.new) }
    {
        let column = u64::from(line.place.column);
        let contents = mem::replace(&mut self.contents, Contents::Body(Vec::new(alloc)));
        let contents = close(alloc, column, contents, &mut self.stack)?;
        self.contents = put(alloc, line, contents, &mut self.stack)?;
        Ok(())
    }

    /// The statements of the lines taken.
    ///
    /// # Errors
    ///
    /// `NoMemory` where there is none.
    pub fn finish(self, alloc: Global) -> Result<List<Stmt>, NoMemory>
        ensures { (lines : Lines) → HasTaken lines self → IfOk result (λ ss. AreStatements (statements_of ss) lines) }
    {
        let Blocks { contents, stack } = self;
        let mut stack = stack;
        let contents = close(alloc, 0, contents, &mut stack)?;
        Ok(List::from_vec(contents.into_statements(alloc)))
    }
}
