// The heads of methods.
ghost use Rattle.std.specs.Prelude.{◌≡◌, ◌∷◌, if◌then◌else◌, Some, None, Bool, IfOk, OnOk, MatchOption, option_map};
ghost use Rattle.p8_tree.specs.Sources.{MethodTree};
ghost use Rattle.p8_tree.specs.Views.{method_of};
ghost use Rattle.p8_lexer.specs.Pieces.{pieces_of};
ghost use Rattle.p8_declarations.specs.Parts.{line_end, comma, bar, right_parenthesis, name};
ghost use Rattle.p8_declarations.specs.Methods.{bare, with_parameter, with_result, behind_result, result_named, behind_parameters};
ghost use Rattle.p8_declarations.specs.Methods.{parameters, behind_parameter, behind_name, method_of_row};
ghost use Rattle.p8_declarations.specs.Views.{part_of, parts_in};

use crate::declaration_pieces::DeclarationPieces;
use crate::part::Part;
use crate::var_line::variables_of_size;
use p8_lexer::{Piece, discarding};
use p8_tree::{List, Method, Place, Text};
use p8_words::NoMemory;
use std::alloc::{AllocError, Global};

/// The head of a method, from what stands after `PUB`, or after `PRI` where the method isn't public: a name, parameters
/// in parentheses, `: name` for the result and `| name, name[e]` for locals, which are longs, up to the end of the line.
/// The method has no body.
///
/// None where the pieces are no such head. Want of memory may come at any point. Source: Propeller Manual v1.2, "PUB" and
/// "PRI".
#[tactic(auto, using(crate::proofs::Rows::no_head))]
pub fn method(alloc: Global, public: bool, pieces: Vec<Piece>) -> Result<Option<Method>, NoMemory>
    ensures { IfOk result (λ m. option_map method_of m ≡ method_of_row public (pieces_of pieces.items)) }
{
    let mut row = DeclarationPieces::new(pieces);
    match row.name() {
        Some((name, place)) => behind_name(alloc, row, bare(alloc, public, name, place)),
        None => Ok(None),
    }
}

// A method of this name, with nothing else.
fn bare(alloc: Global, public: bool, name: Text, place: Place) -> Method
    ensures { method_of result ≡ bare public name place }
{
    Method {
        place,
        public,
        name,
        params: List::new(alloc),
        param_places: List::new(alloc),
        result: None,
        result_place: None,
        locals: List::new(alloc),
        body: List::new(alloc),
    }
}

// Reads what stands after the name.
fn behind_name(
    alloc: Global,
    row: DeclarationPieces,
    method: Method,
) -> Result<Option<Method>, NoMemory>
    ensures { IfOk result (λ m. option_map method_of m ≡ behind_name (method_of method) (parts_in row)) }
{
    let mut row = row;
    match row.next() {
        Some(Part::LeftParenthesis) => with_parameters(alloc, row, method),
        Some(part) => behind_parameters(alloc, part, row, method),
        None => discarding(method, Ok(None)),
    }
}

// Reads parameters, after `(`.
fn with_parameters(
    alloc: Global,
    row: DeclarationPieces,
    method: Method,
) -> Result<Option<Method>, NoMemory>
    ensures { IfOk result (λ m. option_map method_of m ≡ parameters (method_of method) (parts_in row)) }
{
    let mut row = row;
    let mut method = method;
    'parameters: loop {
        match row.parameter() {
            Some((name, place, last)) => {
                method = with_parameter(method, name, place)?;
                if last {
                    return behind_parenthesis(alloc, row, method);
                }
            }
            None => {
                drop(method);
                return Ok(None);
            }
        }
    }
}

// The method with one more parameter.
fn with_parameter(method: Method, name: Text, place: Place) -> Result<Method, AllocError>
    ensures { IfOk result (λ m. method_of m ≡ with_parameter (method_of method) name place) }
{
    let mut method = method;
    match add_parameter(&mut method, name, place) {
        Ok(()) => Ok(method),
        Err(failed) => discarding(method, Err(failed)),
    }
}

// Puts a parameter after those of a method.
fn add_parameter(method: &mut Method, name: Text, place: Place) -> Result<(), AllocError>
    ensures { OnOk result (method_of method.new ≡ with_parameter (method_of method.old) name place) }
{
    method.params.push(name)?;
    method.param_places.push(place)?;
    Ok(())
}

// Reads what stands after `)`.
fn behind_parenthesis(
    alloc: Global,
    row: DeclarationPieces,
    method: Method,
) -> Result<Option<Method>, NoMemory>
    ensures { IfOk result (λ m. option_map method_of m ≡ behind_parameters (method_of method) (parts_in row)) }
{
    let mut row = row;
    match row.next() {
        Some(part) => behind_parameters(alloc, part, row, method),
        None => discarding(method, Ok(None)),
    }
}

// Reads what stands after the parameters: this part, and the row after it.
fn behind_parameters(
    alloc: Global,
    part: Part,
    row: DeclarationPieces,
    method: Method,
) -> Result<Option<Method>, NoMemory>
    ensures { IfOk result (λ m. option_map method_of m ≡ behind_parameters (method_of method) (part_of part ∷ parts_in row)) }
{
    match part {
        Part::Colon => with_result(alloc, row, method),
        other => behind_result(alloc, other, row, method),
    }
}

// Reads the name of the result, after `:`.
#[tactic(auto, using(crate::proofs::Rows::no_result))]
fn with_result(
    alloc: Global,
    row: DeclarationPieces,
    method: Method,
) -> Result<Option<Method>, NoMemory>
    ensures { IfOk result (λ m. option_map method_of m ≡ result_named (method_of method) (parts_in row)) }
{
    let mut row = row;
    match row.name() {
        Some((name, place)) => behind_result_name(alloc, row, result_named(method, name, place)),
        None => discarding(method, Ok(None)),
    }
}

// The method with this name for its result.
fn result_named(method: Method, name: Text, place: Place) -> Method
    ensures { method_of result ≡ with_result (method_of method) name place }
{
    let mut method = method;
    method.result = Some(name);
    method.result_place = Some(place);
    method
}

// Reads what stands after the name of the result.
fn behind_result_name(
    alloc: Global,
    row: DeclarationPieces,
    method: Method,
) -> Result<Option<Method>, NoMemory>
    ensures { IfOk result (λ m. option_map method_of m ≡ behind_result (method_of method) (parts_in row)) }
{
    let mut row = row;
    match row.next() {
        Some(part) => behind_result(alloc, part, row, method),
        None => discarding(method, Ok(None)),
    }
}

// Reads locals or the end: this part, and the row after it.
fn behind_result(
    alloc: Global,
    part: Part,
    row: DeclarationPieces,
    method: Method,
) -> Result<Option<Method>, NoMemory>
    ensures { IfOk result (λ m. option_map method_of m ≡ behind_result (method_of method) (part_of part ∷ parts_in row)) }
{
    match part {
        Part::Bar => with_locals(alloc, row, method),
        Part::LineEnd => Ok(ended(&row, method)),
        other => discarding(other, discarding(method, Ok(None))),
    }
}

// Reads locals, after `|`.
fn with_locals(
    alloc: Global,
    row: DeclarationPieces,
    method: Method,
) -> Result<Option<Method>, NoMemory>
    ensures { IfOk result (λ m. option_map method_of m ≡ behind_result (method_of method) (bar ∷ parts_in row)) }
{
    let mut method = method;
    match variables_of_size(alloc, row, 4) {
        Ok(Some(locals)) => {
            method.locals = locals;
            Ok(Some(method))
        }
        Ok(None) => discarding(method, Ok(None)),
        Err(failed) => discarding(method, Err(failed)),
    }
}

// The method, where nothing stands after the end of the line.
fn ended(row: &DeclarationPieces, method: Method) -> Option<Method>
    ensures { option_map method_of result ≡ behind_result (method_of method) (line_end ∷ parts_in row.now) }
{
    if row.is_over() {
        Some(method)
    } else {
        drop(method);
        None
    }
}

impl DeclarationPieces {
    // Takes a parameter with the comma or the parenthesis after it, and says whether it is the parenthesis.
    #[tactic(auto, using(crate::proofs::Rows::no_parameter))]
    fn parameter(&mut self) -> Option<(Text, Place, bool)>
        ensures { MatchOption result ((m : MethodTree) → parameters m (parts_in self.old) ≡ None)
            (λ x. parts_in self.old ≡ name x.0 x.1 ∷ (if x.2 then right_parenthesis else comma) ∷ parts_in self.new) }
    {
        let (name, place) = self.name()?;
        match self.next()? {
            Part::Comma => Some((name, place, false)),
            Part::RightParenthesis => Some((name, place, true)),
            other => discarding(other, None),
        }
    }
}
