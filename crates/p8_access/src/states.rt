// What a cog is doing.
use crate::kinds::Origin;

/// The state of a cog after a history.
#[derive(Clone, Copy, Debug, PartialEq, Eq)]
pub enum CogState {
    /// It isn't running, and makes no turn.
    Stopped,
    /// It was started at the clock `since` and has had no turn yet.
    Starting { since: u64, origin: Origin },
    /// It runs what it was started with.
    Running { origin: Origin },
}
