// What is told of a method.
ghost use Rattle.std.specs.Prelude.{◌≡◌, ◌++◌, map, Some, OnOk};
ghost use Rattle.std.specs.List.{flat_map};
ghost use Rattle.p8_tree.specs.Views.{declared_of, method_of};
ghost use Rattle.p8_tree.specs.Names.{result_word};
ghost use Rattle.p8_hint.specs.Rules.{any_open, any_reached, is_reached, of_body, of_local, of_locals, of_method, of_private, locals_by, own_open};
ghost use Rattle.p8_hint.specs.SpotViews.{spots_of};
ghost use Rattle.p8_hint.specs.Tables.{facts_of, number_in};

use crate::facts::{FileFacts, is_open, reached_in, times_in};
use crate::hint::{Hint, Slip};
use crate::rules::{put_spots, put_told};
use crate::spot::Spot;
use crate::statements::spots_of_method;
use crate::table::Table;
use p8_tree::{Method, Text, VarItem};
use std::alloc::{AllocError, Global};

// Whether one of these variables is open.
fn any_open(reached: &Table, locals: &[VarItem]) -> bool
    ensures { result ≡ any_open (number_in reached.now) (map declared_of locals.now) }
{
    for local in locals {
        if is_open(reached, local) {
            return true;
        }
    }
    false
}

fn any_reached(reached: &Table, names: &[Text]) -> bool
    ensures { result ≡ any_reached (number_in reached.now) names.now }
{
    for name in names {
        if reached.has(name.as_slice()) {
            return true;
        }
    }
    false
}

fn is_reached(reached: &Table, name: &Option<Text>) -> bool
    ensures { result ≡ is_reached (number_in reached.now) name.now }
{
    match name {
        None => false,
        Some(name) => reached.has(name.as_slice()),
    }
}

// Whether RESULT is reached.
fn reaches_result(reached: &Table) -> bool
    ensures { result ≡ is_reached (number_in reached.now) (Some result_word) }
{
    reached.has(b"RESULT")
}

// Whether the result, a parameter or a local without a count may stand for what is behind it.
fn own_open(reached: &Table, method: &Method) -> bool
    ensures { result ≡ own_open (number_in reached.now) (method_of method.now) }
{
    reaches_result(reached)
        || is_reached(reached, &method.result)
        || any_reached(reached, method.params.as_slice())
        || any_open(reached, method.locals.as_slice())
}

fn put_local(hints: &mut Vec<Hint>, times: &Table, local: &VarItem) -> Result<(), AllocError>
    ensures { OnOk result (hints.new.items ≡ hints.old.items ++ of_local (number_in times.now) (declared_of local.now)) }
{
    put_told(
        hints,
        !times.has(local.name.as_slice()),
        local.place,
        Slip::UnusedLocal,
    )
}

fn put_each_local(
    hints: &mut Vec<Hint>,
    times: &Table,
    locals: &[VarItem],
) -> Result<(), AllocError>
    ensures { OnOk result (hints.new.items ≡ hints.old.items ++ flat_map (of_local (number_in times.now)) (map declared_of locals.now)) }
{
    for local in locals {
        put_local(hints, times, local)?;
    }
    Ok(())
}

// The locals of a method with this body.
fn put_locals(
    alloc: Global,
    hints: &mut Vec<Hint>,
    spots: &[Spot<'_>],
    method: &Method,
) -> Result<(), AllocError>
    ensures { OnOk result (hints.new.items ≡ hints.old.items ++ of_locals (spots_of spots.now) (method_of method.now)) }
{
    let reached = reached_in(alloc, spots)?;
    let times = times_in(alloc, spots)?;
    put_unless_open(hints, &reached, &times, method)
}

fn put_unless_open(
    hints: &mut Vec<Hint>,
    reached: &Table,
    times: &Table,
    method: &Method,
) -> Result<(), AllocError>
    ensures { OnOk result (hints.new.items ≡ hints.old.items ++ locals_by (number_in reached.now) (number_in times.now) (method_of method.now)) }
{
    if own_open(reached, method) {
        Ok(())
    } else {
        put_each_local(hints, times, method.locals.as_slice())
    }
}

fn put_private(hints: &mut Vec<Hint>, facts: &FileFacts, method: &Method) -> Result<(), AllocError>
    ensures { OnOk result (hints.new.items ≡ hints.old.items ++ of_private (facts_of facts.now) (method_of method.now)) }
{
    let used = method.public || facts.times.has(method.name.as_slice());
    put_told(hints, !used, method.place, Slip::UnusedMethod)
}

fn put_body(
    alloc: Global,
    hints: &mut Vec<Hint>,
    facts: &FileFacts,
    method: &Method,
    spots: &[Spot<'_>],
) -> Result<(), AllocError>
    ensures { OnOk result (hints.new.items ≡ hints.old.items ++ of_body (facts_of facts.now) (method_of method.now) (spots_of spots.now)) }
{
    put_private(hints, facts, method)?;
    put_locals(alloc, hints, spots, method)?;
    put_spots(hints, facts, spots)
}

/// Puts what is told of a method.
pub(crate) fn put_method(
    alloc: Global,
    hints: &mut Vec<Hint>,
    facts: &FileFacts,
    method: &Method,
) -> Result<(), AllocError>
    ensures { OnOk result (hints.new.items ≡ hints.old.items ++ of_method (facts_of facts.now) (method_of method.now)) }
{
    let spots = spots_of_method(alloc, method)?;
    put_body(alloc, hints, facts, method, &spots)
}
