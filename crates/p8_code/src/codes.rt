// The lines of a method's code.
ghost use Rattle.std.specs.Prelude.{◌≡◌, ◌++◌, OnOk};
ghost use Rattle.p8_image.specs.Listing.{pieces_of};
ghost use Rattle.p8_code.specs.Listing.{heading, op_line, op_lines, statement_line as line_of_statement};
ghost use Rattle.p8_code.specs.Views.{scope_in};

use crate::operations::{Scope, push_op};
use crate::slices::behind;
use crate::source::push_source_line;
use p8_gen::Line;
use p8_image::{line_size, push_bytes};
use p8_instr::push_text;
use p8_map::{address_after, push_place};
use p8_words::NoMemory;

/// Appends the line of a bytecode that stands at an address, and the first byte behind its own at a place of the code.
fn push_op_line(
    out: &mut Vec<u8>,
    scope: Option<&Scope<'_>>,
    at: u64,
    place: u16,
    piece: &[u8],
) -> Result<(), NoMemory>
    ensures { OnOk result (out.new.items ≡ out.old.items ++ op_line (λ text. text) (scope_in scope.entry) at place piece.now) }
{
    let after = address_after(place, piece.len() as u64);
    push_place(out, place)?;
    push_bytes(out, piece)?;
    push_op(out, scope, at, after, piece)?;
    push_text(out, b"\n")
}

/// The line of the statement that the next bytecode is made from, where the one before it is of this one.
fn statement_line(previous: u32, lines: &[Line]) -> u32
    ensures { result ≡ line_of_statement previous lines.now }
{
    match lines {
        [] => previous,
        [line, ..] => line.statement.line,
    }
}

/// Appends a line of the source, where the bytecode before is of another one.
fn push_heading(
    out: &mut Vec<u8>,
    scope: Option<&Scope<'_>>,
    previous: u32,
    line: u32,
) -> Result<(), NoMemory>
    ensures { OnOk result (out.new.items ≡ out.old.items ++ heading (scope_in scope.entry) previous line) }
{
    let Some(scope) = scope else {
        return Ok(());
    };
    if previous == line {
        Ok(())
    } else {
        push_source_line(out, scope.source, line)
    }
}

/// Appends the lines of a code that stands at an address, with those of the source.
pub(crate) fn push_op_lines(
    out: &mut Vec<u8>,
    scope: Option<&Scope<'_>>,
    mut place: u16,
    mut lines: &[Line],
    code: &[u8],
) -> Result<(), NoMemory>
    ensures { OnOk result (out.new.items ≡ out.old.items ++ op_lines (λ text. text) (scope_in scope.entry) 0 place 0 lines.entry.now (pieces_of code.now)) }
{
    let mut previous = 0;
    let mut rest = code;
    while !rest.is_empty() {
        let size = line_size(rest);
        let at = code.len() + 1 - rest.len();
        let line = statement_line(previous, lines);
        push_heading(out, scope, previous, line)?;
        push_op_line(out, scope, at as u64, place, &rest[..size])?;
        place = address_after(place, size as u64);
        previous = line;
        lines = behind(lines, 1);
        rest = behind(rest, size);
    }
    Ok(())
}
