// Where a variable is.
use p8_access::Width;

/// What a bytecode reads or writes: memory, or pins of a register.
#[derive(Clone, Copy)]
pub enum VariablePlace {
    /// A variable of this width; an access is at the address rounded down to a multiple of it.
    Memory { width: Width, address: u16 },
    /// The pins of a register with this address: bit 0 of the value is pin `low`, and the highest bit is pin
    /// `high`, which may be the lesser. Both are below 32.
    Pins { register: u16, high: u8, low: u8 },
}
