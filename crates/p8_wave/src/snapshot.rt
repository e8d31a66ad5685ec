// The values of all variables at a clock.
ghost use Rattle.std.specs.Prelude.{ℕ, true, false, not, ◌&&◌, ◌≡◌};
ghost use Rattle.p8_wave.specs.declared.variables.Variable.{Variable};
ghost use Rattle.p8_wave.specs.declared.variables.Variable.TheVariants.{Pin, Lock, Taken};
ghost use Rattle.p8_wave.specs.declared.variables.Scope.TheVariants.{Cog};
ghost use Rattle.p8_wave.specs.Following.{snapshot_value, differs as differs_in};
ghost use Rattle.p8_wave.specs.Variables.{is_in};

use crate::signals::Signals;
use crate::variables::{Scope, Variable};

/// Whether none of three tests holds.
fn is_none_of(first: bool, second: bool, third: bool) -> bool
    ensures { result ≡ ((not first && not second) && not third) }
{
    !first && !second && !third
}

/// The values of all variables at a clock.
#[derive(Clone, Copy, PartialEq, Eq)]
pub struct Snapshot {
    pub signals: Signals,
    /// The levels of all pins, bit n for pin n.
    pub pins: u32,
}

impl Snapshot {
    /// The value of a variable. Its pin is below 32, its cog or lock below 8.
    pub fn value(&self, variable: Variable) -> u32
        ensures { result ≡ snapshot_value self.now variable }
    {
        match variable {
            Variable::Pin(pin) => (self.pins >> (pin % 32)) % 2,
            Variable::Outa(cog) => self.signals.outa[usize::from(cog % 8)],
            Variable::Dira(cog) => self.signals.dira[usize::from(cog % 8)],
            Variable::State(cog) => self.signals.phases[usize::from(cog % 8)].number(),
            Variable::Lock(lock) => u32::from(self.signals.set[usize::from(lock % 8)]),
            Variable::Taken(lock) => u32::from(self.signals.taken[usize::from(lock % 8)]),
        }
    }

    /// Whether a variable has another value in another snapshot.
    pub fn differs(&self, other: &Snapshot, variable: Variable) -> bool
        ensures { result ≡ differs_in self.now other.now variable }
    {
        self.value(variable) != other.value(variable)
    }

    /// Whether the pins have the same levels in another snapshot.
    fn has_pins_of(&self, other: &Snapshot) -> bool
        ensures { result ≡ true → (n : ℕ) → differs_in self.now other.now (Pin n) ≡ false }
    {
        self.pins == other.pins
    }

    /// Whether what is shown of a cog has the same values in another snapshot.
    fn has_cog_of(&self, other: &Snapshot, cog: u8) -> bool
        ensures { result ≡ true → (v : Variable) → is_in (Cog cog) v ≡ true → differs_in self.now other.now v ≡ false }
    {
        let outa = self.differs(other, Variable::Outa(cog));
        let dira = self.differs(other, Variable::Dira(cog));
        let state = self.differs(other, Variable::State(cog));
        is_none_of(outa, dira, state)
    }

    /// Whether the same locks are set in another snapshot.
    fn has_set_of(&self, other: &Snapshot) -> bool
        ensures { result ≡ true → (n : ℕ) → differs_in self.now other.now (Lock n) ≡ false }
    {
        self.signals.set == other.signals.set
    }

    /// Whether the same locks are taken in another snapshot.
    fn has_taken_of(&self, other: &Snapshot) -> bool
        ensures { result ≡ true → (n : ℕ) → differs_in self.now other.now (Taken n) ≡ false }
    {
        self.signals.taken == other.signals.taken
    }

    /// Whether the locks are as they are in another snapshot.
    fn has_locks_of(&self, other: &Snapshot) -> bool
        ensures set { result ≡ true → (n : ℕ) → differs_in self.now other.now (Lock n) ≡ false }
        ensures taken { result ≡ true → (n : ℕ) → differs_in self.now other.now (Taken n) ≡ false }
    {
        self.has_set_of(other) && self.has_taken_of(other)
    }

    /// Whether the variables of a scope have the same values in another snapshot.
    pub fn is_same_in(&self, other: &Snapshot, scope: Scope) -> bool
        ensures { result ≡ true → (v : Variable) → is_in scope v ≡ true → differs_in self.now other.now v ≡ false }
    {
        match scope {
            Scope::Pins => self.has_pins_of(other),
            Scope::Cog(cog) => self.has_cog_of(other, cog),
            Scope::Locks => self.has_locks_of(other),
        }
    }
}
