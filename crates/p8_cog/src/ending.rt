// How an instruction comes out.
use p8_access::Access;

/// How an instruction stands with the turns that its accesses have had.
#[derive(Clone, Copy)]
pub enum Ending {
    /// The life is over.
    Ended,
    /// The instruction is done.
    Whole,
    /// It asks this access next, from this clock on.
    Half { clock: u64, access: Access },
}
