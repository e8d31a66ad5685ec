// The open marks of calls.
ghost use Rattle.std.specs.Prelude.{List, ◌≡◌, ◌<◌, ◌≤◌, ◌-◌, ◌∷◌, [], length, drop, IfOk, MatchOption};
ghost use Rattle.p8_bcog.specs.declared.marks.CallMark.{CallMark};

use p8_words::NoMemory;
use std::alloc::Global;
use std::marker::Model;

/// How many marks are open at most.
pub const OPEN_MARKS: usize = 16384;

/// A call is to come: the longs above the height at which the mark was opened are to be its arguments.
#[derive(Clone, Copy)]
pub struct CallMark {
    /// The height above which operands were counted before.
    pub outer: u16,
    /// Whether the caller has no use for the value.
    pub unused: bool,
    /// Whether the call stops aborts.
    pub traps: bool,
}

/// The open marks, the newest first. All memory that they may need is taken at the start.
#[derive(Drop)]
pub struct Marks {
    marks: Vec<CallMark>,
}

impl Model for Marks {
    ghost use Rattle.std.specs.Prelude.{◌≤◌, List, length, reverse, vec_capacity};
    ghost use Rattle.p8_bcog.specs.declared.marks.CallMark.{CallMark};

    ghost Value = { List CallMark };

    ghost view = { λ m. reverse m.marks.items };

    ghost invariant = { λ m. (length m.marks.items ≤ 16384) × (16384 ≤ vec_capacity m.marks) };
}

impl Marks {
    /// No marks, with memory for 16,384.
    pub fn new(alloc: Global) -> Result<Marks, NoMemory>
        ensures { IfOk result (λ m. m ≡ []) }
    {
        let mut marks = Vec::new(alloc);
        marks.reserve(OPEN_MARKS)?;
        Ok(Marks { marks })
    }

    /// How many there are.
    pub fn len(&self) -> usize
        ensures len { result ≡ length self.now }
        ensures most { length self.now ≤ 16384 }
    {
        self.marks.len()
    }

    /// Opens one more.
    pub fn push(&mut self, mark: CallMark)
        requires { length self.old < 16384 }
        ensures { self.new ≡ mark ∷ self.old }
    {
        match self.marks.push(mark) {
            Ok(()) => {}
            Err(_) => unreachable!(),
        }
    }

    /// Closes the newest.
    pub fn pop(&mut self) -> Option<CallMark>
        ensures popped { MatchOption result (self.old ≡ []) (λ mark. self.old ≡ mark ∷ self.new) }
        ensures kept { result ≡ None → self.new ≡ self.old }
    {
        self.marks.pop()
    }

    /// Leaves at most so many, those that were opened first.
    pub fn lower(&mut self, count: usize)
        ensures { self.new ≡ drop (length self.old - count) self.old }
    {
        self.marks.truncate(count);
    }

    /// Closes all.
    pub fn clear(&mut self)
        ensures { self.new ≡ [] }
    {
        self.marks.clear();
    }
}
