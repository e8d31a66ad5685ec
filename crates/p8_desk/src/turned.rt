// What a try of a pass answers.
use p8_access::Turn;

/// What a cog gets that tries to make its next turn at a desk.
#[derive(Clone, Copy, Debug, PartialEq, Eq)]
pub enum Turned {
    /// Its turn, which is now the history's last.
    Done(Turn),
    /// Nothing: the pass of this other cog had the desk at that moment.
    Held { by: u8 },
    /// The turn of another cog may come first, at this clock.
    After { cog: u8, bound: u64 },
    /// No turn comes before the cog's own promise of this clock: it is to try again.
    Ahead { bound: u64 },
    /// The history has ended.
    Over,
}
