// The lines of a method.
ghost use Rattle.std.specs.Prelude.{◌≡◌};
ghost use Rattle.p8_columns.specs.Lines.{is_opener, is_repeat, is_plain_repeat, is_case, is_other, is_arm, is_else};
ghost use Rattle.p8_columns.specs.Views.{kind_of};

use p8_tree::{Expr, Item, List, Loop, Place};

/// A line of a method, or the statement after the colon of a `CASE`'s item: a line of its own, at
/// its own column.
#[derive(Drop)]
pub struct Line {
    /// The place of its first token; its column counts.
    pub place: Place,
    /// What its first words make of it.
    pub kind: LineKind,
}

/// What a line is. A flag `negated` is set for `IFNOT` and `ELSEIFNOT`, a flag `until` for `UNTIL`.
#[derive(Drop)]
pub enum LineKind {
    /// A statement that has no lines of its own.
    Plain(Action),
    /// `IF` or `IFNOT`, with its condition.
    If { negated: bool, test: Expr },
    /// `ELSEIF` or `ELSEIFNOT`, with its condition.
    ElseIf { negated: bool, test: Expr },
    /// `ELSE`
    Else,
    /// `REPEAT` with what follows it on the line; never `After`.
    Repeat(Loop),
    /// A line that begins with `WHILE` or `UNTIL`, with its condition.
    End { until: bool, test: Expr },
    /// `CASE`, with its value.
    Case(Expr),
    /// An item of a `CASE`, by its tests.
    Item(List<Item>),
    /// `OTHER`
    Other,
}

/// A statement that has no lines of its own.
#[derive(Drop)]
pub enum Action {
    /// An expression whose value isn't used.
    Do(Expr),
    /// `NEXT`
    Next,
    /// `QUIT`
    Quit,
    /// `RETURN`, alone or with a value.
    Return(Option<Expr>),
    /// `ABORT`, alone or with a value.
    Abort(Option<Expr>),
}

impl LineKind {
    /// Whether the lines to the right of it are a block of its own.
    pub fn is_opener(&self) -> bool
        ensures { result ≡ is_opener (kind_of self.now) }
    {
        match self {
            LineKind::Plain(_) | LineKind::End { .. } => false,
            LineKind::If { .. } | LineKind::ElseIf { .. } | LineKind::Else => true,
            LineKind::Repeat(_) => true,
            LineKind::Case(_) | LineKind::Item(_) | LineKind::Other => true,
        }
    }

    /// Whether it is a `REPEAT`.
    pub fn is_repeat(&self) -> bool
        ensures { result ≡ is_repeat (kind_of self.now) }
    {
        match self {
            LineKind::Repeat(_) => true,
            _ => false,
        }
    }

    /// Whether it is a `REPEAT` with nothing after it.
    pub fn is_plain_repeat(&self) -> bool
        ensures { result ≡ is_plain_repeat (kind_of self.now) }
    {
        match self {
            LineKind::Repeat(Loop::Forever) => true,
            _ => false,
        }
    }

    /// Whether it is a `CASE`.
    pub fn is_case(&self) -> bool
        ensures { result ≡ is_case (kind_of self.now) }
    {
        match self {
            LineKind::Case(_) => true,
            _ => false,
        }
    }

    /// Whether it is the `OTHER` of a `CASE`.
    pub fn is_other(&self) -> bool
        ensures { result ≡ is_other (kind_of self.now) }
    {
        match self {
            LineKind::Other => true,
            _ => false,
        }
    }

    /// Whether it is an arm of a chain that may go on.
    pub fn is_arm(&self) -> bool
        ensures { result ≡ is_arm (kind_of self.now) }
    {
        match self {
            LineKind::If { .. } | LineKind::ElseIf { .. } => true,
            _ => false,
        }
    }

    /// Whether it is the `ELSE` of a chain.
    pub fn is_else(&self) -> bool
        ensures { result ≡ is_else (kind_of self.now) }
    {
        match self {
            LineKind::Else => true,
            _ => false,
        }
    }
}
