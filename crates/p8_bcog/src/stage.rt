// How far a life is.
use crate::step::Later;
use p8_access::{Access, Reason};

/// How far a life is.
#[derive(Clone, Copy)]
pub enum SpinStage {
    /// The write of its entry has had no turn yet.
    Entering,
    /// A bytecode is to be done next.
    Ready,
    /// A bytecode is under way: it asks this access.
    Asked { access: Access, later: Later },
    /// A bytecode halts the cog.
    Halted { reason: Reason },
    /// It is over.
    Over,
}
