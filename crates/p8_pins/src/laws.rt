// A law of pin scripts. The function does nothing: its contract is the law.
ghost use Rattle.std.specs.Prelude.{◌≡◌, ℕ, List};
ghost use Rattle.p8_access.specs.Worlds.{Line};
ghost use Rattle.p8_pins.specs.Scripts.{IsReadAs, IsFault};

/// A file is read as one script, or has one first bad line, never both.
pub fn one_reading()
    ensures script { (bytes : List ℕ) (a b : List Line) → IsReadAs bytes a → IsReadAs bytes b → a ≡ b }
    ensures line { (bytes : List ℕ) (m n : ℕ) → IsFault bytes m → IsFault bytes n → m ≡ n }
    ensures never_both { (bytes : List ℕ) (script : List Line) (n : ℕ) → IsReadAs bytes script → IsFault bytes n → ⊥ }
{}
