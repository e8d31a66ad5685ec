// The least choice of wide jumps, in rounds that only widen.
ghost use Rattle.std.specs.Prelude.{◌≡◌, ◌||◌, ◌↔◌, not, [], map, replicate, false, IfOk, IsTrue};
ghost use Rattle.p8_tree.specs.Views.{statements_of};
ghost use Rattle.p8_gen.specs.Methods.{method_code};
ghost use Rattle.p8_gen.specs.Names.{wide_in};
ghost use Rattle.p8_gen.specs.Pieces.{is_near};
ghost use Rattle.p8_gen.specs.Scopes.{names_from};
ghost use Rattle.p8_gen.specs.Uses.{way_of};
ghost use Rattle.p8_stmt.specs.Jumps.{IsLeast};
ghost use Rattle.p8_stmt.specs.Rounds.{widened_from, after_round, IsBelowAll};

use crate::code::method_ways;
use p8_gen::{Jump, Tables};
use p8_kinds::Kinds;
use p8_tree::{Method, Stmt};
use p8_words::NoMemory;
use std::alloc::{AllocError, Global};

// Whether the offset of a jump fits in one byte.
fn is_near(way: Jump) -> bool
    ensures { result ≡ is_near false way.from way.to }
{
    let (from, to) = (u64::from(way.from), u64::from(way.to));
    from <= to + 64 && to < from + 64
}

// Whether the jump of a number is wide. One past the end of the choice is.
fn is_wide(widths: &[bool], number: usize) -> bool
    ensures { result ≡ wide_in widths.now number }
{
    match widths.get(number) {
        Some(wide) => *wide,
        None => true,
    }
}

// Whether the jump of a number is wide after a round.
fn is_widened(widths: &[bool], number: usize, way: &Jump) -> bool
    ensures { result ≡ (wide_in widths.now number || not (is_near false way.now.from way.now.to)) }
{
    is_wide(widths, number) || !is_near(*way)
}

// No jump is wide of so many.
fn narrow(alloc: Global, count: usize) -> Result<Vec<bool>, AllocError>
    ensures { IfOk result (λ widths. widths.items ≡ replicate count false) }
{
    let mut widths = Vec::new(alloc);
    widths.resize(count, false)?;
    Ok(widths)
}

// The choice with each jump more whose offset doesn't fit in one byte, by the ways of all jumps.
fn with_far_jumps(alloc: Global, widths: &[bool], ways: &[Jump]) -> Result<Vec<bool>, AllocError>
    ensures { IfOk result (λ more. more.items ≡ widened_from widths.now 0 (map way_of ways.now)) }
{
    let mut more = Vec::with_capacity(alloc, ways.len())?;
    for (number, way) in ways.iter().enumerate() {
        more.push(is_widened(widths, number, way))?;
    }
    Ok(more)
}

// A round: the choice with each jump more whose offset doesn't fit in one byte, in the method's code by this choice.
fn round(
    alloc: Global,
    kinds: &Kinds,
    tables: &Tables,
    method: &Method,
    number: u32,
    body: &[Stmt],
    widths: &[bool],
) -> Result<Vec<bool>, NoMemory>
    ensures { IfOk result (λ more. more.items ≡ after_round (names_from kinds.now number tables.now method.now.place) (statements_of body.now) widths.now) }
{
    let ways = method_ways(alloc, kinds, tables, method, number, body, widths)?;
    Ok(with_far_jumps(alloc, widths, ways.as_slice())?)
}

// A choice by which no jump of the method is wide.
fn none_wide(
    alloc: Global,
    kinds: &Kinds,
    tables: &Tables,
    method: &Method,
    number: u32,
    body: &[Stmt],
) -> Result<Vec<bool>, NoMemory>
    ensures { IfOk result (λ widths. IsBelowAll (names_from kinds.now number tables.now method.now.place) (statements_of body.now) widths.items) }
{
    let ways = method_ways(alloc, kinds, tables, method, number, body, &[])?;
    Ok(narrow(alloc, ways.len())?)
}

// Whether two choices are the same.
fn is_same(widths: &[bool], others: &[bool]) -> bool
    ensures { IsTrue result ↔ (widths.now ≡ others.now) }
{
    widths == others
}

/// The least choice of wide jumps of the method with this number and this body, where each offset fits if all are wide.
///
/// It begins with no wide jump and adds those whose offset doesn't fit, until each one does: at most one round more
/// than there are jumps, each linear in the body.
pub(crate) fn least_widths(
    alloc: Global,
    kinds: &Kinds,
    tables: &Tables,
    method: &Method,
    number: u32,
    body: &[Stmt],
) -> Result<Vec<bool>, NoMemory>
    requires { (method_code (names_from kinds.now number tables.now method.now.place) (statements_of body.now)).too_far ≡ [] }
    ensures { IfOk result (λ widths. IsLeast (names_from kinds.now number tables.now method.now.place) (statements_of body.now) widths.items) }
{
    let mut widths = none_wide(alloc, kinds, tables, method, number, body)?;
    'rounds: loop {
        let more = round(
            alloc,
            kinds,
            tables,
            method,
            number,
            body,
            widths.as_slice(),
        )?;
        if is_same(more.as_slice(), widths.as_slice()) {
            return Ok(widths);
        }
        widths = more;
    }
}
