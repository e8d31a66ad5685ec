// What a wave shows: the variables, the scopes in which they stand, and which of them are shown.

/// A scope of a wave: variables that a viewer shows together.
#[derive(Clone, Copy, Debug, PartialEq, Eq)]
pub enum Scope {
    /// The 32 pins.
    Pins,
    /// What is shown of this cog, which is below 8.
    Cog(u8),
    /// The eight locks.
    Locks,
}

/// A variable of a wave. Pins are below 32, cogs and locks below 8.
#[derive(Clone, Copy, Debug, PartialEq, Eq)]
pub enum Variable {
    /// The level of this pin.
    Pin(u8),
    /// The register OUTA of this cog.
    Outa(u8),
    /// The register DIRA of this cog.
    Dira(u8),
    /// What this cog is doing.
    State(u8),
    /// Whether this lock is set.
    Lock(u8),
    /// Whether this lock is taken.
    Taken(u8),
}

/// Which variables of a run a wave shows.
#[derive(Clone, Copy, Debug, PartialEq, Eq)]
pub struct Selection {
    /// Also those that never change in the run.
    pub all: bool,
    /// Those of the pins and the locks alone: each has one bit.
    pub pins_only: bool,
}
