// Lines of CON, VAR, OBJ and DAT, and heads of methods.
ghost use Rattle.std.specs.Prelude.{◌≡◌, ◌⊎◌, ◌<◌, ◌≤◌, ◌+◌, IfOk, IfErr, length, map, option_map};
ghost use Rattle.p8_tree.specs.Views.{child_of, constant_of, declared_of, line_of, method_of};
ghost use Rattle.p8_tree.specs.Faults.{IfRefused};
ghost use Rattle.p8_lines.specs.declared.state.LineState.TheVariants as state_case;
ghost use Rattle.p8_expr.specs.Cursors.{IsLater};
ghost use Rattle.p8_lines.specs.Tokens.{left};
ghost use Rattle.p8_lines.specs.Lines.{refused, Reads};
ghost use Rattle.p8_declarations.specs.Constants.{constants_of_row};
ghost use Rattle.p8_declarations.specs.Variables.{variables_of_row};
ghost use Rattle.p8_declarations.specs.Objects.{objects_of_row};
ghost use Rattle.p8_declarations.specs.Methods.{method_of_row};
ghost use Rattle.p8_declarations.specs.Lines.{line_of_row};
ghost use Rattle.p8_blocks.specs.Values.{ReadsAs};

use p8_declarations::{DatRow, constants, dat_line, method, object, variables};
use p8_expr::TokenCursor;
use p8_lines::{LineState, read_line};
use p8_tree::{ConItem, DatLine, Fault, List, Method, ObjItem, VarItem};
use p8_words::Fail;
use std::alloc::Global;

/// Reads a line of `CON`, or what follows the word `CON` on its line: gives its items, or the refusal of
/// the line and its place, and leaves the cursor behind it, as [`read_line`] does.
pub fn read_constants(
    alloc: Global,
    here: &mut TokenCursor,
    state: LineState,
) -> Result<List<ConItem>, Fail<Fault>>
    requires within { here.old.at ≤ length here.old.tokens }
    requires begins { (state ≡ state_case.ConHead) ⊎ (state ≡ state_case.ConItem) }
    ensures later { IfOk result (λ _. IsLater here.old here.new) }
    ensures read { IfOk result (λ r. ReadsAs constants_of_row state (left here.old) (map constant_of r) (left here.new)) }
    ensures refused { IfErr result (IfRefused (λ fault. Reads state (left here.old) (refused fault.number fault.place))) }
{
    let pieces = read_line(alloc, here, state)?;
    let items = constants(alloc, pieces)?.unwrap();
    Ok(items)
}

/// Reads a line of `VAR`, or what follows the word `VAR` on its line, as [`read_constants`] does.
pub fn read_variables(
    alloc: Global,
    here: &mut TokenCursor,
    state: LineState,
) -> Result<List<VarItem>, Fail<Fault>>
    requires within { here.old.at ≤ length here.old.tokens }
    requires begins { (state ≡ state_case.VarHead) ⊎ (state ≡ state_case.VarLine) }
    ensures later { IfOk result (λ _. IsLater here.old here.new) }
    ensures read { IfOk result (λ r. ReadsAs variables_of_row state (left here.old) (map declared_of r) (left here.new)) }
    ensures refused { IfErr result (IfRefused (λ fault. Reads state (left here.old) (refused fault.number fault.place))) }
{
    let pieces = read_line(alloc, here, state)?;
    let items = variables(alloc, pieces)?.unwrap();
    Ok(items)
}

/// Reads a line of `OBJ`, or what follows the word `OBJ` on its line, as [`read_constants`] does.
pub fn read_objects(
    alloc: Global,
    here: &mut TokenCursor,
    state: LineState,
) -> Result<List<ObjItem>, Fail<Fault>>
    requires within { here.old.at ≤ length here.old.tokens }
    requires begins { (state ≡ state_case.ObjHead) ⊎ (state ≡ state_case.ObjLine) }
    ensures later { IfOk result (λ _. IsLater here.old here.new) }
    ensures read { IfOk result (λ r. ReadsAs objects_of_row state (left here.old) (map child_of r) (left here.new)) }
    ensures refused { IfErr result (IfRefused (λ fault. Reads state (left here.old) (refused fault.number fault.place))) }
{
    let pieces = read_line(alloc, here, state)?;
    let items = object(alloc, pieces)?.unwrap();
    Ok(items)
}

/// Reads what follows `PUB` or `PRI` on its line: gives the method with no body, or the line's refusal, as
/// [`read_line`] does.
pub fn read_method(
    alloc: Global,
    here: &mut TokenCursor,
    public: bool,
) -> Result<Method, Fail<Fault>>
    requires { here.old.at ≤ length here.old.tokens }
    ensures later { IfOk result (λ _. IsLater here.old here.new) }
    ensures read { IfOk result (λ r. ReadsAs (method_of_row public) state_case.MethodName (left here.old) (method_of r) (left here.new)) }
    ensures refused { IfErr result (IfRefused (λ fault. Reads state_case.MethodName (left here.old) (refused fault.number fault.place))) }
{
    let pieces = read_line(alloc, here, LineState::MethodName)?;
    let head = method(alloc, public, pieces)?.unwrap();
    Ok(head)
}

/// Reads a line of `DAT`, or what follows the word `DAT` on its line: gives the line, unless nothing
/// follows the word; or the line's refusal, as [`read_line`] does.
pub fn read_data(
    alloc: Global,
    here: &mut TokenCursor,
    state: LineState,
) -> Result<Option<DatLine>, Fail<Fault>>
    requires within { here.old.at ≤ length here.old.tokens }
    requires begins { (state ≡ state_case.DatHead) ⊎ (state ≡ state_case.DatLine) }
    ensures later { IfOk result (λ _. IsLater here.old here.new) }
    ensures read { IfOk result (λ r. ReadsAs line_of_row state (left here.old) (option_map line_of r) (left here.new)) }
    ensures refused { IfErr result (IfRefused (λ fault. Reads state (left here.old) (refused fault.number fault.place))) }
{
    let pieces = read_line(alloc, here, state)?;
    match dat_line(alloc, pieces)? {
        DatRow::Empty => Ok(None),
        DatRow::Line(line) => Ok(Some(line)),
        DatRow::Unknown => unreachable!(),
    }
}
