// What may come next.

/// What may stand where a line would stand.
#[derive(Clone, Copy, Debug, PartialEq, Eq)]
pub enum Room {
    /// A statement: what stands there is no `CASE`'s.
    Statement,
    /// An item of a `CASE`, or its `OTHER`.
    Item,
    /// Nothing: the `CASE` has its `OTHER`.
    Nothing,
}

/// Whether an `ELSE` kind has its `IF` chain.
#[derive(Clone, Copy, Debug, PartialEq, Eq)]
pub enum Chain {
    /// A chain that may go on.
    Begun,
    /// A chain that has its `ELSE`.
    Ended,
    /// No chain.
    Missing,
}
