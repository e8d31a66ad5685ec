// The kinds of lives.

/// What a cog runs.
#[derive(Clone, Copy)]
pub enum LifeKind {
    /// Instructions of PASM.
    Pasm,
    /// Bytecodes of Spin.
    Spin,
}
