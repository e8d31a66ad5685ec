// Lines of methods.
ghost use Rattle.std.specs.Prelude.{◌≡◌, ◌⊎◌, ◌<◌, ◌≤◌, ◌+◌, IfOk, IfErr, IsTrue, length};
ghost use Rattle.p8_tree.specs.Faults.{IfRefused};
ghost use Rattle.p8_columns.specs.Views.{kind_of};
ghost use Rattle.p8_lines.specs.declared.state.LineState.TheVariants as state_case;
ghost use Rattle.p8_expr.specs.Cursors.{IsLater};
ghost use Rattle.p8_lines.specs.Tokens.{left};
ghost use Rattle.p8_lines.specs.Lines.{refused, Reads};
ghost use Rattle.p8_statements.specs.Statements.{kind_of_row};
ghost use Rattle.p8_blocks.specs.Values.{ReadsAs, suits, begins_line};

use p8_columns::LineKind;
use p8_expr::TokenCursor;
use p8_lines::{LineState, read_line};
use p8_statements::line_kind;
use p8_tree::Fault;
use p8_words::Fail;
use std::alloc::Global;

/// Reads a line of a method, or an item of a `CASE` up to its colon, from the state that says which
/// lines may stand there: gives what it is, or the line's refusal, as [`read_line`] does.
pub fn read_statement(
    alloc: Global,
    here: &mut TokenCursor,
    state: LineState,
) -> Result<LineKind, Fail<Fault>>
    requires within { here.old.at ≤ length here.old.tokens }
    requires begins { IsTrue (begins_line state) }
    ensures later { IfOk result (λ _. IsLater here.old here.new) }
    ensures read { IfOk result (λ r. ReadsAs kind_of_row state (left here.old) (kind_of r) (left here.new)) }
    ensures suits { IfOk result (λ r. IsTrue (suits state (kind_of r))) }
    ensures refused { IfErr result (IfRefused (λ fault. Reads state (left here.old) (refused fault.number fault.place))) }
{
    let pieces = read_line(alloc, here, state)?;
    let kind = line_kind(alloc, pieces)?.unwrap();
    Ok(kind)
}
