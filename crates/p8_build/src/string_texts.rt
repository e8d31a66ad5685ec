// STRINGs and their places.
use p8_tree::{ExprKind, Place};

/// A `STRING` of a method, and its place.
#[derive(Clone, Copy)]
pub struct StringText<'a> {
    pub place: Place,
    /// `ExprKind::Str` or `ExprKind::Strings`.
    pub form: &'a ExprKind,
}
