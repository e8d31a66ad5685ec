// What a cog asks next.
use p8_access::Next;

/// What a cog asks next.
#[derive(Clone, Copy, Debug, PartialEq, Eq)]
pub struct Asked {
    /// The access, with the clock from which on it asks. `Quiet` where that clock isn't below the limit, and where the cog doesn't run.
    pub next: Next,
    /// The counter of that access, as of a turn.
    pub counter: Option<u16>,
}
