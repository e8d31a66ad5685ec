// The records of the calls whose methods are active.
ghost use Rattle.std.specs.Prelude.{List, ◌≡◌, ◌<◌, ◌≤◌, ◌∷◌, [], length, IfOk, MatchOption, Some, None};
ghost use Rattle.p8_bcog.specs.declared.calls.Call.{Call};
ghost use Rattle.p8_bcog.specs.Newest.{newest_of, trapping};

use p8_words::NoMemory;
use std::alloc::Global;
use std::marker::Model;

/// How many calls are under way at most: 128 methods are active, the first among them.
pub const ACTIVE_CALLS: usize = 127;

/// What a caller gets back at the return of the method that it called.
#[derive(Clone, Copy)]
pub struct Call {
    /// The address of its next bytecode.
    pub at: u16,
    /// The base of its object.
    pub pbase: u16,
    /// The base of its object's variables.
    pub vbase: u16,
    /// The address of its frame.
    pub frame: u16,
    /// The bytes of its frame after the result.
    pub size: u16,
    /// The height above which its operands are counted.
    pub base: u16,
    /// The height of the call's mark.
    pub height: u16,
    /// How many marks are open besides those of the called method.
    pub marks: u16,
    /// Whether it has no use for the value.
    pub unused: bool,
    /// Whether the call stops aborts.
    pub traps: bool,
}

/// The records of calls, the newest first. All memory that they may need is taken at the start.
#[derive(Drop)]
pub struct Calls {
    calls: Vec<Call>,
}

impl Model for Calls {
    ghost use Rattle.std.specs.Prelude.{◌≤◌, List, length, reverse, vec_capacity};
    ghost use Rattle.p8_bcog.specs.declared.calls.Call.{Call};

    ghost Value = { List Call };

    ghost view = { λ c. reverse c.calls.items };

    ghost invariant = { λ c. (length c.calls.items ≤ 127) × (127 ≤ vec_capacity c.calls) };
}

impl Calls {
    /// No calls, with memory for 127.
    pub fn new(alloc: Global) -> Result<Calls, NoMemory>
        ensures { IfOk result (λ c. c ≡ []) }
    {
        let mut calls = Vec::new(alloc);
        calls.reserve(ACTIVE_CALLS)?;
        Ok(Calls { calls })
    }

    /// How many there are.
    pub fn len(&self) -> usize
        ensures len { result ≡ length self.now }
        ensures most { length self.now ≤ 127 }
    {
        self.calls.len()
    }

    /// Adds one.
    pub fn push(&mut self, call: Call)
        requires { length self.old < 127 }
        ensures { self.new ≡ call ∷ self.old }
    {
        match self.calls.push(call) {
            Ok(()) => {}
            Err(_) => unreachable!(),
        }
    }

    /// The newest.
    pub fn newest(&self) -> Option<Call>
        ensures { result ≡ newest_of self.now }
    {
        self.calls.last().copied()
    }

    /// Takes the newest.
    pub fn pop(&mut self) -> Option<Call>
        ensures popped { MatchOption result (self.old ≡ []) (λ call. self.old ≡ call ∷ self.new) }
        ensures kept { result ≡ None → self.new ≡ self.old }
    {
        self.calls.pop()
    }

    /// Takes the newest that stops aborts, and all that are newer; without one it takes all.
    pub fn pop_trapping(&mut self) -> Option<Call>
        ensures { MatchOption result (trapping self.old ≡ None) (λ call. trapping self.old ≡ Some (call, self.new)) }
    {
        while let Some(call) = self.pop() {
            if call.traps {
                return Some(call);
            }
        }
        None
    }

    /// Ends all.
    pub fn clear(&mut self)
        ensures { self.new ≡ [] }
    {
        self.calls.clear();
    }
}
