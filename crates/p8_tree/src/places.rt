// Where something stands in a source.
ghost use Rattle.std.specs.Prelude.{◌≡◌, ◌↔◌, IsTrue};
ghost use Rattle.p8_tree.specs.Places.{is_before, lesser, PlaceBefore};

/// Where a character of a source stands.
///
/// Lines and columns are counted from 1. A line ends at LF, CR LF or CR, in comments too, and a tab goes on to the
/// next column of the form 8k + 1.
#[derive(Clone, Copy, Debug, PartialEq, Eq)]
pub struct Place {
    /// The line.
    pub line: u32,
    /// The column in that line.
    pub column: u32,
}

impl Place {
    /// Whether this place stands before another one: in an earlier line, or in the same line further left.
    pub fn is_before(self, other: Place) -> bool
        ensures told { result ≡ is_before self other }
        ensures order { IsTrue result ↔ PlaceBefore self other }
    {
        self.line < other.line || (self.line == other.line && self.column < other.column)
    }

    /// The lesser of two places.
    pub fn lesser(self, other: Place) -> Place
        ensures { result ≡ lesser self other }
    {
        if other.is_before(self) { other } else { self }
    }
}
