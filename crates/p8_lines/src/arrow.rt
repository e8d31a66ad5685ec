// Arrows of the diagram.
use crate::sign::Sign;
use crate::state::LineState;

/// A token that may stand next, and the state to which it leads.
#[derive(Clone, Copy)]
pub struct Arrow {
    pub sign: Sign,
    pub to: LineState,
}
