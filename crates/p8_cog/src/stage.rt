// How far a life is.

/// Where a life is between its start and its end.
#[derive(Clone, Copy)]
pub enum PasmStage {
    /// It reads the 496 longs of its load.
    Loading,
    /// It runs them.
    Running,
    /// It is over.
    Over,
}
