// A law of bytes on a pin. The function does nothing: its contract is the law.
ghost use Rattle.std.specs.Prelude.{◌≡◌, ℕ, List};
ghost use Rattle.p8_access.specs.declared.order.Turn.{Turn};
ghost use Rattle.p8_access.specs.Worlds.{World};
ghost use Rattle.p8_pins.specs.Scripts.{IsReadAs};
ghost use Rattle.p8_serial.specs.Laws.{CanBeSent, Hears, received_text};
ghost use Rattle.p8_serial.specs.Serial.{serial_of};
ghost use Rattle.p8_serial.specs.Typed.{sent, typed_text};

/// What sends bytes is a good pin script; and on a pin that no cog drives, where the run goes on past the last of them, exactly
/// these bytes are received, in order, each at its place.
pub fn typed_is_read()
    ensures script { (bytes : List ℕ) (pin bits start : ℕ) → CanBeSent bytes pin bits start →
        IsReadAs (typed_text bytes pin bits start) (sent bytes pin bits start) }
    ensures read { (w : World) (past : List Turn) (bytes : List ℕ) (pin bits start : ℕ) → CanBeSent bytes pin bits start →
        Hears w past bytes pin bits start → serial_of w past pin bits ≡ received_text bytes bits start }
{}
