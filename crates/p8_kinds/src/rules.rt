// By which rule the names of an expression are looked at.

/// Whether an expression stands in a method or in `DAT`.
#[derive(Clone, Copy)]
pub(crate) enum Rules {
    Method,
    Data,
}
