// The columns of a picture.
ghost use Rattle.std.specs.Prelude.{◌≡◌, ◌++◌, ◌∷◌, [], IfOk, OnOk};
ghost use Rattle.p8_wave.specs.Plot.{columns_of};
ghost use Rattle.p8_wave.specs.Tracing.{Follow};

use p8_words::NoMemory;
use std::alloc::Global;

/// A column of a picture: its number, from 0 on, and the clocks that it covers, from the first on and before the end.
#[derive(Clone, Copy)]
pub struct Column {
    pub number: u64,
    pub first: u64,
    pub end: u64,
}

/// Adds a column at the end.
fn push(columns: &mut Vec<Column>, column: Column) -> Result<(), NoMemory>
    ensures { OnOk result (columns.new.items ≡ columns.old.items ++ column ∷ []) }
{
    columns.extend_from_slice(&[column])?;
    Ok(())
}

/// The columns for the clocks from one on and before an end: at most so many, but one where that is 0, with as few clocks
/// in each as can be, and the last column with what is left.
pub fn columns(alloc: Global, most: u16, from: u64, end: u64) -> Result<Vec<Column>, NoMemory>
    ensures columns { IfOk result (λ columns. columns.items ≡ columns_of most from end) }
    ensures follow { IfOk result (λ columns. Follow 0 columns.items) }
{
    let limit = u64::from(most).max(1);
    let shown = end.saturating_sub(from);
    let width = shown.div_ceil(limit).max(1);
    let mut columns = Vec::new(alloc);
    for number in 0..shown.div_ceil(width) {
        let first = from + number * width;
        let end = first + width.min(end - first);
        push(&mut columns, Column { number, first, end })?;
    }
    Ok(columns)
}
