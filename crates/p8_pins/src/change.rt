// What the pins are from a clock on.
/// The 32 pins from a clock on, bit n for pin n, up to the next change of a run's pins.
#[derive(Clone, Copy, Debug, PartialEq, Eq)]
pub struct Change {
    /// The clock, counted from the run's begin.
    pub clock: u64,
    /// The levels of all pins, of outputs and of inputs.
    pub pins: u32,
}
