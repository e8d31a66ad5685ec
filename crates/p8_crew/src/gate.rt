// The gate of a crew.
use std::sync::{OnceLock, Wait};

/// What the jobs of a crew wait at until all of them are started. It is decided once: it is opened, or called off.
#[derive(Drop)]
pub struct Gate {
    opened: OnceLock<bool>,
}

impl Gate {
    /// A gate that isn't decided yet. It takes no memory.
    pub fn new() -> Gate {
        Gate {
            opened: OnceLock::new(),
        }
    }

    /// Opens the gate, unless it was called off before. It may wait for another thread that decides it just then.
    pub fn open<R: Wait>(&self, rt: &R) {
        let _ = self.opened.set(rt, true);
    }

    /// Calls the gate off, unless it was opened before. It may wait for another thread that decides it just then.
    pub fn call_off<R: Wait>(&self, rt: &R) {
        let _ = self.opened.set(rt, false);
    }

    /// Waits until the gate is decided. True is for an opened one; no contract rests on that.
    pub fn wait<R: Wait>(&self, rt: &R) -> bool {
        *self.opened.wait(rt)
    }
}
