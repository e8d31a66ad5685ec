// A line table.
ghost use Rattle.std.specs.Prelude.{◌≤◌, length, MatchOption};
ghost use Rattle.p8_legend.specs.Rows.{AreApart, IsRowAt};
ghost use Rattle.p8_legend.specs.Steps.{Splits};

use p8_tree::{List, Place};

/// A row of a line table: one bytecode of an image.
#[derive(Clone, Copy, Debug, PartialEq, Eq)]
pub struct LineRow {
    /// Where the bytecode begins in the hub.
    pub address: u16,
    /// Where it ends: the address of the byte after it.
    pub end: u16,
    /// The number of its file, counted from 0 in the order of the project's files.
    pub file: u8,
    /// The number of its method in that file, counted from 1 as calls count it.
    pub method: u8,
    /// The place of the statement that it is made from; of the `RETURN` at the end of a method, the place of the method's name.
    pub place: Place,
}

/// The line table of an image, in the order of addresses.
#[derive(Drop)]
pub struct LineTable {
    /// A row for each bytecode.
    pub rows: List<LineRow>,
}

impl LineTable {
    /// The row of the bytecode that stands at an address; none outside the code of methods. It takes the logarithm of the rows' number.
    pub fn at(&self, address: u16) -> Option<LineRow>
        ensures { AreApart self.now.rows → MatchOption result ((row : LineRow) → ¬ IsRowAt self.now.rows address row) (IsRowAt self.now.rows address) }
    {
        let begun = self.begun_by(address);
        if begun == 0 {
            return None;
        }
        let row = self.rows.as_slice()[begun - 1];
        if address < row.end { Some(row) } else { None }
    }

    /// How many rows begin at or before an address.
    fn begun_by(&self, address: u16) -> usize
        ensures within { result ≤ length self.now.rows }
        ensures begun { AreApart self.now.rows → Splits self.now.rows address result }
    {
        self.rows
            .as_slice()
            .partition_point(|row| row.address <= address)
    }
}
