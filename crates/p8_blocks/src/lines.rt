// Reading one line of a block.
ghost use Rattle.std.specs.Prelude.{◌≡◌, ◌<◌, ◌≤◌, ◌+◌, ◌∷◌, ◌++◌, [], List as list, IfOk, IfErr, Option, Some, None, if◌then◌else◌, length, map, option_map};
ghost use Rattle.p8_tree.specs.declared.places.Place as tree_place;
ghost use Rattle.p8_tree.specs.Views.{constant_of, declared_of, child_of, line_of, method_of};
ghost use Rattle.p8_tree.specs.Faults.{IfRefused};
ghost use Rattle.p8_columns.specs.Lines as lines;
ghost use Rattle.p8_columns.specs.Views.{kind_of};
ghost use Rattle.p8_columns.specs.Taken.{HasTaken};
ghost use Rattle.p8_lines.specs.declared.state.LineState.TheVariants as state_case;
ghost use Rattle.p8_expr.specs.Cursors.{IsLater};
ghost use Rattle.p8_lines.specs.Tokens.{LineToken, left, left_behind, word};
ghost use Rattle.p8_lines.specs.Lines.{refused, Reads};
ghost use Rattle.p8_blocks.specs.Reading.{Part, constants, variables, objects, assembly, method as method_part, at as position, Fails, head_state};
ghost use Rattle.p8_blocks.specs.Files.{lines_in, is_item};
ghost use Rattle.p8_blocks.specs.Standing.{Added, Begins, Grown, Inner, IsOpen, IsToken, word_of_head};

use crate::declarations::{read_constants, read_data, read_method, read_objects, read_variables};
use crate::entry::state_of_line;
use crate::first::First;
use crate::growing::Open;
use crate::statements::read_statement;
use crate::words::BlockWord;
use p8_columns::{Blocks, Line, LineKind};
use p8_expr::TokenCursor;
use p8_lines::LineState;
use p8_tree::{ConItem, DatLine, Fault, List, Method, ObjItem, Place, VarItem};
use p8_words::Fail;
use std::alloc::{AllocError, Global};

/// The block at hand with one more line.
#[derive(Drop)]
pub struct Extended {
    pub block: Open,
    /// After the colon of a `CASE`'s item, where its line begins.
    pub begun: Option<Place>,
}

impl Extended {
    // The line is whole.
    fn new(block: Open) -> Extended
        ensures block { result.block ≡ block }
        ensures begun { result.begun ≡ None }
    {
        Extended { block, begun: None }
    }
}

// A list with more elements after it.
fn appended<T: Drop>(items: List<T>, more: List<T>) -> Result<List<T>, AllocError>
    ensures { IfOk result (λ all. all ≡ items ++ more) }
{
    let mut all = items.into_vec();
    let mut rest = more.into_vec();
    all.append(&mut rest)?;
    Ok(List::from_vec(all))
}

// The line of DAT, if there is one.
fn lines_in(alloc: Global, line: Option<DatLine>) -> Result<List<DatLine>, AllocError>
    ensures { IfOk result (λ all. map line_of all ≡ lines_in (option_map line_of line)) }
{
    let mut lines = List::new(alloc);
    match line {
        Some(line) => {
            lines.push(line)?;
            Ok(lines)
        }
        None => Ok(lines),
    }
}

/// Reads what follows a block's word on its line, and gives the block.
///
/// # Errors
///
/// The line's refusal, or `NoMemory`.
pub fn read_head(
    alloc: Global,
    here: &mut TokenCursor,
    head: BlockWord,
) -> Result<Open, Fail<Fault>>
    requires { here.old.at ≤ length here.old.tokens }
    ensures later { IfOk result (λ _. IsLater here.old here.new) }
    ensures read { (t : LineToken) → word t ≡ word_of_head head →
        IfOk result (λ r. Begins t (left here.old) r (left here.new)) }
    ensures refused { IfErr result (IfRefused (λ f. Reads (head_state (word_of_head head)) (left here.old) (refused f.number f.place))) }
{
    match head {
        BlockWord::Con => {
            let items = read_constants(alloc, here, LineState::ConHead)?;
            Ok(Open::Constants(items))
        }
        BlockWord::Var => {
            let items = read_variables(alloc, here, LineState::VarHead)?;
            Ok(Open::Variables(items))
        }
        BlockWord::Obj => {
            let items = read_objects(alloc, here, LineState::ObjHead)?;
            Ok(Open::Objects(items))
        }
        BlockWord::Pub => {
            let method = read_method(alloc, here, true)?;
            Ok(Open::Method(method, Blocks::new(alloc)))
        }
        BlockWord::Pri => {
            let method = read_method(alloc, here, false)?;
            Ok(Open::Method(method, Blocks::new(alloc)))
        }
        BlockWord::Dat => {
            let line = read_data(alloc, here, LineState::DatHead)?;
            Ok(Open::Data(lines_in(alloc, line)?))
        }
    }
}

/// Reads a line before the first block: it begins a CON.
pub fn first_constants(alloc: Global, here: &mut TokenCursor) -> Result<Extended, Fail<Fault>>
    requires { here.old.at ≤ length here.old.tokens }
    ensures later { IfOk result (λ _. IsLater here.old here.new) }
    ensures read { IfOk result (λ r. Added [] [] (left here.old) r (left here.new)) }
    ensures refused { IfErr result (IfRefused (λ f. Reads state_case.ConItem (left here.old) (refused f.number f.place))) }
{
    let items = read_constants(alloc, here, LineState::ConItem)?;
    Ok(Extended::new(Open::Constants(items)))
}

// A line of CON.
fn more_constants(
    alloc: Global,
    here: &mut TokenCursor,
    items: List<ConItem>,
) -> Result<Extended, Fail<Fault>>
    requires { here.old.at ≤ length here.old.tokens }
    ensures later { IfOk result (λ _. IsLater here.old here.new) }
    ensures read { (ps : list Part) → IfOk result (λ r. Added (constants (map constant_of items) ∷ ps) ps (left here.old) r (left here.new)) }
    ensures refused { IfErr result (IfRefused (λ f. Reads state_case.ConItem (left here.old) (refused f.number f.place))) }
{
    let more = read_constants(alloc, here, LineState::ConItem)?;
    Ok(Extended::new(Open::Constants(appended(items, more)?)))
}

// A line of VAR.
fn more_variables(
    alloc: Global,
    here: &mut TokenCursor,
    items: List<VarItem>,
) -> Result<Extended, Fail<Fault>>
    requires { here.old.at ≤ length here.old.tokens }
    ensures later { IfOk result (λ _. IsLater here.old here.new) }
    ensures read { (ps : list Part) → IfOk result (λ r. Added (variables (map declared_of items) ∷ ps) ps (left here.old) r (left here.new)) }
    ensures refused { IfErr result (IfRefused (λ f. Reads state_case.VarLine (left here.old) (refused f.number f.place))) }
{
    let more = read_variables(alloc, here, LineState::VarLine)?;
    Ok(Extended::new(Open::Variables(appended(items, more)?)))
}

// A line of OBJ.
fn more_objects(
    alloc: Global,
    here: &mut TokenCursor,
    items: List<ObjItem>,
) -> Result<Extended, Fail<Fault>>
    requires { here.old.at ≤ length here.old.tokens }
    ensures later { IfOk result (λ _. IsLater here.old here.new) }
    ensures read { (ps : list Part) → IfOk result (λ r. Added (objects (map child_of items) ∷ ps) ps (left here.old) r (left here.new)) }
    ensures refused { IfErr result (IfRefused (λ f. Reads state_case.ObjLine (left here.old) (refused f.number f.place))) }
{
    let more = read_objects(alloc, here, LineState::ObjLine)?;
    Ok(Extended::new(Open::Objects(appended(items, more)?)))
}

// A line of DAT.
fn more_data(
    alloc: Global,
    here: &mut TokenCursor,
    lines: List<DatLine>,
) -> Result<Extended, Fail<Fault>>
    requires { here.old.at ≤ length here.old.tokens }
    ensures later { IfOk result (λ _. IsLater here.old here.new) }
    ensures read { (ps : list Part) → IfOk result (λ r. Added (assembly (map line_of lines) ∷ ps) ps (left here.old) r (left here.new)) }
    ensures refused { IfErr result (IfRefused (λ f. Reads state_case.DatLine (left here.old) (refused f.number f.place))) }
{
    let line = read_data(alloc, here, LineState::DatLine)?;
    let more = lines_in(alloc, line)?;
    Ok(Extended::new(Open::Data(appended(lines, more)?)))
}

// Whether a line goes on after its colon.
fn is_item(kind: &LineKind) -> bool
    ensures { result ≡ is_item (kind_of kind.now) }
{
    match kind {
        LineKind::Item(_) | LineKind::Other => true,
        _ => false,
    }
}

// Where the line begins that goes on after this one, if one does.
fn begun_by(kind: &LineKind, first: First) -> Option<Place>
    ensures { result ≡ (if is_item (kind_of kind.now) then Some first.begin else None) }
{
    if is_item(kind) {
        Some(first.begin)
    } else {
        None
    }
}

// A line of a method.
fn method_line(
    alloc: Global,
    here: &mut TokenCursor,
    first: First,
    method: Method,
    blocks: Blocks,
) -> Result<Extended, Fail<Fault>>
    requires within { here.old.at < length here.old.tokens }
    requires token { IsToken first }
    ensures later { IfOk result (λ _. IsLater here.old here.new) }
    ensures read { (b : Option tree_place.Place) (ls : list lines.Line) (ps : list Part) →
        Inner (left here.old) (left_behind here.old) b first → HasTaken ls blocks →
        IfOk result (λ r. Grown (method_part (method_of method) ls ∷ ps) ps b (left here.old) r (left here.new)) }
    ensures refused { (b : Option tree_place.Place) (ls : list lines.Line) (ps : list Part) →
        Inner (left here.old) (left_behind here.old) b first → HasTaken ls blocks →
        IfErr result (IfRefused (λ f. Fails (position (method_part (method_of method) ls ∷ ps) b) (left here.old) f.number f.place)) }
{
    let state = state_of_line(alloc, here, first, &blocks)?;
    let kind = read_statement(alloc, here, state)?;
    let begun = begun_by(&kind, first);
    let place = first.place;
    let mut blocks = blocks;
    blocks.take(alloc, Line { place, kind })?;
    let block = Open::Method(method, blocks);
    Ok(Extended { block, begun })
}

impl Open {
    /// Reads a line of the block at hand, which neither ends there nor begins a block.
    ///
    /// # Errors
    ///
    /// The line's refusal, or `NoMemory`.
    pub fn extended(
        self,
        alloc: Global,
        here: &mut TokenCursor,
        first: First,
    ) -> Result<Extended, Fail<Fault>>
        requires within { here.old.at < length here.old.tokens }
        requires token { IsToken first }
        ensures later { IfOk result (λ _. IsLater here.old here.new) }
        ensures read { (b : Option tree_place.Place) (p : Part) (ps : list Part) →
            Inner (left here.old) (left_behind here.old) b first → IsOpen p self →
            IfOk result (λ r. Grown (p ∷ ps) ps b (left here.old) r (left here.new)) }
        ensures refused { (b : Option tree_place.Place) (p : Part) (ps : list Part) →
            Inner (left here.old) (left_behind here.old) b first → IsOpen p self →
            IfErr result (IfRefused (λ f. Fails (position (p ∷ ps) b) (left here.old) f.number f.place)) }
    {
        match self {
            Open::Constants(items) => more_constants(alloc, here, items),
            Open::Variables(items) => more_variables(alloc, here, items),
            Open::Objects(items) => more_objects(alloc, here, items),
            Open::Data(lines) => more_data(alloc, here, lines),
            Open::Method(method, blocks) => { method_line(alloc, here, first, method, blocks) }
        }
    }
}
