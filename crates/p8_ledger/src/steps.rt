// What a record is made of.
use p8_access::{Next, Turn};

/// One step of a record.
#[derive(Clone, Copy, Debug, PartialEq, Eq)]
pub enum Step {
    /// A turn was made.
    Took { turn: Turn },
    /// A cog, below 8, has said this of its next access.
    Said { cog: u8, next: Next },
}
