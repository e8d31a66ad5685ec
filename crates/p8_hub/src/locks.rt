// The eight locks.
ghost use Rattle.std.specs.Prelude.{◌≡◌, ◌<◌, replicate, slice_set, slice_index_or, not, true, false};
ghost use Rattle.std.specs.List.{position_from};
ghost use Rattle.p8_access.specs.Proper.{IsNumber};
ghost use Rattle.p8_hub.specs.Parts.{set_where};

/// The two facts of each of the eight locks, which don't depend on one another.
#[derive(Drop)]
pub struct Locks {
    pub taken: [bool; 8],
    pub set: [bool; 8],
}

impl Locks {
    /// No lock is taken and none is set.
    pub fn open() -> Locks
        ensures taken { result.taken ≡ replicate 8 false }
        ensures set { result.set ≡ replicate 8 false }
    {
        Locks {
            taken: [false; 8],
            set: [false; 8],
        }
    }

    /// The lowest lock that isn't taken.
    fn lowest_free(&self) -> Option<u8>
        ensures lock { result ≡ position_from not 0 self.now.taken }
        ensures number { IsNumber result }
    {
        for lock in 0..8 {
            if !self.taken[lock as usize] {
                return Some(lock);
            }
        }
        None
    }

    /// Takes the lowest lock that isn't taken, and tells which it is.
    pub fn take(&mut self) -> Option<u8>
        ensures lock { result ≡ position_from not 0 self.old.taken }
        ensures number { IsNumber result }
        ensures taken { self.new.taken ≡ set_where self.old.taken result true }
        ensures set { self.new.set ≡ self.old.set }
    {
        let free = self.lowest_free();
        if let Some(lock) = free {
            self.taken[lock as usize] = true;
        }
        free
    }

    /// Gives a lock back, and leaves it set or clear as it is.
    pub fn give_back(&mut self, lock: u8)
        requires { lock < 8 }
        ensures taken { self.new.taken ≡ slice_set self.old.taken lock false }
        ensures set { self.new.set ≡ self.old.set }
    {
        self.taken[lock as usize] = false;
    }

    /// Sets or clears a lock, and tells whether it was set before.
    pub fn exchange(&mut self, lock: u8, set: bool) -> bool
        requires { lock < 8 }
        ensures was { result ≡ slice_index_or self.old.set lock false }
        ensures set { self.new.set ≡ slice_set self.old.set lock set }
        ensures taken { self.new.taken ≡ self.old.taken }
    {
        let was = self.set[lock as usize];
        self.set[lock as usize] = set;
        was
    }
}
