// The image of a project, from its objects.
ghost use Rattle.std.specs.Prelude.{◌≡◌, None, IfOk, IfErr};
ghost use Rattle.p8_words.specs.declared.failure.Fail.TheVariants as fail_case;
ghost use Rattle.p8_tree.specs.Faults.{fault};
ghost use Rattle.p8_image.specs.Projects.{BeginsWithMain};
ghost use Rattle.p8_build.specs.Builds.{constant_named, start};
ghost use Rattle.p8_build.specs.Accepted.{IsFinished};
ghost use Rattle.p8_build.specs.Phases.{clock_in, IsImageWith, IfFirstImageFault, IsImageRefusal, IfPhaseRefused};

use crate::building::Built;
use crate::fault::PhaseRefusal;
use crate::sizes::image_size;
use p8_image::{Clock, Image, ObjectPart, layout};
use p8_kinds::{Kinds, NameKind};
use p8_tree::{Fault, List, Place, Refusal, Text};
use p8_words::{Fail, NoMemory};
use std::alloc::{AllocError, Global};

/// Where a whole project is refused: the beginning of its top file.
const START: Place = Place { line: 1, column: 1 };

/// The image of a project with the top file's names and these objects.
///
/// The first object is that of the top file, whose first method is started.
///
/// # Errors
///
/// `Refused` with 28 where the first frame would end after the hub's 32,768 bytes, else with 29 where the clock's constants
/// tell none, both at the beginning of the top file. `NoMemory` may come at any point.
pub fn finish(alloc: Global, kinds: &Kinds, objects: List<ObjectPart>) -> Result<Built, Fail<Fault>>
    requires { BeginsWithMain objects }
    ensures built { IfOk result (IsFinished (clock_in kinds.now) objects) }
    ensures refused { IfErr result (IfFirstImageFault objects (clock_in kinds.now)) }
{
    let image = image_with(alloc, kinds, objects.as_slice())?;
    Ok(Built { image, objects })
}

/// The same as [`finish`], with the size of an image that is too large beside its refusal.
pub(crate) fn finish_measured(
    alloc: Global,
    kinds: &Kinds,
    objects: List<ObjectPart>,
) -> Result<Built, Fail<PhaseRefusal>>
    requires { BeginsWithMain objects }
    ensures built { IfOk result (IsFinished (clock_in kinds.now) objects) }
    ensures refused { IfErr result (IfPhaseRefused (IsImageRefusal objects (clock_in kinds.now))) }
{
    match image_with(alloc, kinds, objects.as_slice()) {
        Ok(image) => Ok(Built { image, objects }),
        Err(Fail::Refused(fault)) => Err(Fail::Refused(PhaseRefusal {
            phase: 3,
            file: 0,
            fault,
            size: image_size(alloc, objects.as_slice(), fault)?,
        })),
        Err(Fail::NoMemory) => Err(Fail::NoMemory),
    }
}

/// The image of these objects, the first of which is that of the top file.
fn image_with(alloc: Global, kinds: &Kinds, objects: &[ObjectPart]) -> Result<Image, Fail<Fault>>
    requires { BeginsWithMain objects.now }
    ensures image { IfOk result (IsImageWith (clock_in kinds.now) objects.now) }
    ensures refused { IfErr result (IfFirstImageFault objects.now (clock_in kinds.now)) }
{
    let Some(clock) = clock_of(alloc, kinds)? else {
        return Err(without_clock(alloc, objects));
    };
    match layout(alloc, clock, objects) {
        Ok(image) => Ok(image),
        Err(Fail::Refused(_)) => Err(refused(Refusal::ImageTooLarge)),
        Err(Fail::NoMemory) => Err(Fail::NoMemory),
    }
}
/// Why a project without a clock has no image: it is too large, whatever the clock, or else just that.
fn without_clock(alloc: Global, objects: &[ObjectPart]) -> Fail<Fault>
    requires { BeginsWithMain objects.now }
    ensures { IfFirstImageFault objects.now None result }
{
    let none = Clock {
        mode: 0,
        frequency: 0,
    };
    match layout(alloc, none, objects) {
        Ok(_) => refused(Refusal::BadClock),
        Err(Fail::Refused(_)) => refused(Refusal::ImageTooLarge),
        Err(Fail::NoMemory) => Fail::NoMemory,
    }
}

/// A refusal of the whole project.
fn refused(refusal: Refusal) -> Fail<Fault>
    ensures { result ≡ fail_case.Refused (fault refusal start) }
{
    Fail::Refused(refusal.at(START))
}

/// The clock of a program, by the constants of its top file.
fn clock_of(alloc: Global, kinds: &Kinds) -> Result<Option<Clock>, AllocError>
    ensures { IfOk result (λ clock. clock ≡ clock_in kinds.now) }
{
    let mode = constant(alloc, kinds, b"_CLKMODE".as_slice())?;
    let frequency = constant(alloc, kinds, b"_CLKFREQ".as_slice())?;
    let input = constant(alloc, kinds, b"_XINFREQ".as_slice())?;
    Ok(Clock::told(mode, frequency, input))
}

/// The value of a constant of a file, if its name is one.
fn constant(alloc: Global, kinds: &Kinds, name: &[u8]) -> Result<Option<u32>, AllocError>
    ensures { IfOk result (λ value. value ≡ constant_named kinds.now name.now) }
{
    let name = Text::copy_of(alloc, name)?;
    match kinds.own(0, &name) {
        Some(NameKind::Const(value)) => Ok(Some(value)),
        _ => Ok(None),
    }
}
