// What a picture shows of a run.

/// The pins and the clocks of a run that a picture shows, its width, and its characters.
#[derive(Clone, Copy, Debug, PartialEq, Eq)]
pub struct View {
    /// The pins shown, bit n for pin n.
    pub pins: u32,
    /// The first clock shown.
    pub from: u64,
    /// The clock before which the picture ends, `u64::MAX` where it goes on to the run's end.
    pub to: u64,
    /// How many columns there are at most; one where this is 0.
    pub columns: u16,
    /// Whether all characters are ASCII.
    pub ascii: bool,
}
