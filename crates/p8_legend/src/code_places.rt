// The places of a project's code.
ghost use Rattle.std.specs.Prelude.{◌≡◌, ◌-◌, [], slice_get, IfOk};
ghost use Rattle.p8_legend.specs.Ranges.{with_range};
ghost use Rattle.p8_legend.specs.ProjectLegends.{and_one, method_name as name_of_method, row_text, with_rows};

use crate::ranges::{Range, Ranges};
use crate::table::LineRow;
use itoa::Buffer;
use p8_instr::push_text;
use p8_map::{FileNames, MethodNames};
use p8_tree::Text;
use p8_words::NoMemory;
use std::alloc::Global;

/// The name of the method of this number, counted from 1; nothing where there is none.
fn method_name(methods: &[MethodNames], number: u8) -> &[u8]
    ensures { result.now ≡ name_of_method (slice_get methods.now (number - 1)) }
{
    match methods.get(usize::from(number.saturating_sub(1))) {
        Some(method) => method.name.as_slice(),
        None => &[],
    }
}

/// The file, the line and the method of a row: `FILE:LINE METHOD`.
fn row_name(alloc: Global, files: &[FileNames], row: &LineRow) -> Result<Text, NoMemory>
    ensures { IfOk result (λ text. text ≡ row_text (slice_get files.now row.now.file) row.now) }
{
    let mut text = Vec::new(alloc);
    if let Some(names) = files.get(usize::from(row.file)) {
        push_text(&mut text, names.file.as_slice())?;
        push_text(&mut text, b":")?;
        push_text(&mut text, Buffer::new().format(row.place.line).as_bytes())?;
        push_text(&mut text, b" ")?;
        push_text(&mut text, method_name(names.methods.as_slice(), row.method))?;
    }
    Ok(Text::from_vec(text))
}

/// The places of the rows of a line table.
pub(crate) fn places_of(
    alloc: Global,
    files: &[FileNames],
    mut rows: &[LineRow],
) -> Result<Ranges, NoMemory>
    ensures { IfOk result (λ places. (places.ranges, places.texts) ≡ with_rows ([], []) files.now rows.now) }
{
    let mut places = Ranges::new(alloc);
    while let [row, rest @ ..] = rows {
        let range = Range {
            address: row.address,
            end: row.end,
        };
        let text = row_name(alloc, files, row)?;
        places.push(range, text)?;
        rows = rest;
    }
    Ok(places)
}
