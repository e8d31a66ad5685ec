// The rows of codes.
ghost use Rattle.std.specs.Prelude.{◌≡◌, ◌++◌, map, OnOk, IfOk};
ghost use Rattle.p8_legend.specs.Rows.{end_of, line_row, line_rows, code_rows, rows_from};

use crate::table::{LineRow, LineTable};
use p8_build::AcceptedFile;
use p8_gen::Line;
use p8_image::{ObjectPart, Offsets};
use p8_map::address_after;
use p8_stmt::MethodCode;
use p8_tree::List;
use p8_words::NoMemory;
use std::alloc::{AllocError, Global};

/// Where the first object of an image stands: after the image's header.
const FIRST_BASE: u16 = 16;

/// The rows of objects that stand one after the other, with the codes of their files' methods.
#[tactic(auto, using(crate::proofs::Addresses::address_after_low))]
pub(crate) fn rows_of(
    alloc: Global,
    mut objects: &[ObjectPart],
    mut accepted: &[AcceptedFile<'_>],
) -> Result<LineTable, NoMemory>
    ensures { IfOk result (λ table. table.rows ≡ rows_from 0 16 objects.now (map (λ f. f.codes) accepted.now)) }
{
    let mut rows = List::new(alloc);
    let mut file: u8 = 0;
    let mut base = FIRST_BASE;
    while let [object, others @ ..] = objects {
        let [found, rest @ ..] = accepted else {
            return Ok(LineTable { rows });
        };
        let offsets = Offsets::of(object);
        let at = address_after(base, u64::from(offsets.codes));
        push_codes(&mut rows, file, at, found.codes.as_slice())?;
        base = address_after(base, u64::from(offsets.size));
        file = file.checked_add(1).ok_or(NoMemory)?;
        objects = others;
        accepted = rest;
    }
    Ok(LineTable { rows })
}

/// Appends the rows of a file's methods, whose codes stand one after the other from an address on.
fn push_codes(
    rows: &mut List<LineRow>,
    file: u8,
    mut at: u16,
    mut codes: &[MethodCode],
) -> Result<(), AllocError>
    ensures { OnOk result (rows.new ≡ rows.old ++ code_rows file 1 at codes.now) }
{
    let mut method: u8 = 1;
    while let [code, rest @ ..] = codes {
        let size = code.bytes.len() as u64;
        push_lines(rows, file, method, at, size, code.lines.as_slice())?;
        at = address_after(at, size);
        method = method.checked_add(1).ok_or(AllocError)?;
        codes = rest;
    }
    Ok(())
}

/// Appends the rows of a method whose code, of so many bytes, stands at an address.
fn push_lines(
    rows: &mut List<LineRow>,
    file: u8,
    method: u8,
    at: u16,
    size: u64,
    mut lines: &[Line],
) -> Result<(), AllocError>
    ensures { OnOk result (rows.new ≡ rows.old ++ line_rows file method at size lines.now) }
{
    while let [line, rest @ ..] = lines {
        rows.push(row_of(file, method, at, end_of(size, rest), *line))?;
        lines = rest;
    }
    Ok(())
}

/// Where a line ends that comes before these, in a code of so many bytes.
fn end_of(size: u64, rest: &[Line]) -> u64
    ensures { result ≡ end_of size rest.now }
{
    match rest {
        [] => size,
        [next, ..] => u64::from(next.offset),
    }
}

/// The row of a line of code that stands at an address and ends at a place.
fn row_of(file: u8, method: u8, at: u16, end: u64, line: Line) -> LineRow
    ensures { result ≡ line_row file method at end line }
{
    LineRow {
        address: address_after(at, u64::from(line.offset)),
        end: address_after(at, end),
        file,
        method,
        place: line.statement,
    }
}
