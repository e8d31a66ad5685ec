// Why a method can't be compiled.
ghost use Rattle.std.specs.Prelude.{◌≡◌, ◌++◌, [], ◌∷◌, IfOk, OnOk, MatchOption, Contains};
ghost use Rattle.p8_tree.specs.Faults.{fault, IsFirstFault};
ghost use Rattle.p8_stmt.specs.Telling.{faults_of};

use p8_tree::{Fault, Place, Refusal};
use std::alloc::{AllocError, Global};

/// The first of a method's faults: 25 for each jump that goes too far, and 26 at the method's name where it is too large.
pub(crate) fn first_fault(
    alloc: Global,
    too_far: &[Place],
    name: Place,
    too_large: bool,
) -> Result<Option<Fault>, AllocError>
    ensures { IfOk result (λ first. MatchOption first (faults_of too_far.now name too_large ≡ [])
        (IsFirstFault (Contains (faults_of too_far.now name too_large)))) }
{
    let faults = faults_of(alloc, too_far, name, too_large)?;
    Ok(Fault::first_of(faults.as_slice()))
}

// A method's faults.
fn faults_of(
    alloc: Global,
    too_far: &[Place],
    name: Place,
    too_large: bool,
) -> Result<Vec<Fault>, AllocError>
    ensures { IfOk result (λ faults. faults.items ≡ faults_of too_far.now name too_large) }
{
    let mut faults = Vec::new(alloc);
    for place in too_far {
        push(&mut faults, Refusal::JumpTooFar, *place)?;
    }
    if too_large {
        push(&mut faults, Refusal::FrameTooLarge, name)?;
    }
    Ok(faults)
}

fn push(faults: &mut Vec<Fault>, refusal: Refusal, place: Place) -> Result<(), AllocError>
    ensures { OnOk result (faults.new.items ≡ faults.old.items ++ fault refusal place ∷ []) }
{
    faults.push(refusal.at(place))?;
    Ok(())
}
