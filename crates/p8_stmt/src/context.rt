// Where a statement stands.
use p8_gen::Coder;

/// Where `NEXT` and `QUIT` go in a loop, and whether the loop keeps a count on the operand stack.
#[derive(Clone, Copy)]
pub(crate) struct LoopPlaces {
    pub next: u32,
    pub quit: u32,
    pub counted: bool,
}

/// What is known where a statement stands: names, and the innermost loop around it.
#[derive(Clone, Copy)]
pub(crate) struct Context<'a> {
    pub coder: Coder<'a>,
    pub enclosing: Option<LoopPlaces>,
}
