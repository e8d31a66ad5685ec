// How large what is refused is: what is too large, and how many arguments a call has.
ghost use Rattle.std.specs.Prelude.{◌≡◌, ◌&&◌, ◌||◌, nat_lt, map, IfOk};
ghost use Rattle.p8_tree.specs.Views.{method_of, source_of};
ghost use Rattle.p8_tree.specs.Faults.{is_same_place};
ghost use Rattle.p8_stmt.specs.Methods.{most_longs, most_held};
ghost use Rattle.p8_build.specs.Files.{names_with};
ghost use Rattle.p8_build.specs.Measuring.{IsFirstSize, of_method_size, IfSizeAt};
ghost use Rattle.p8_build.specs.Phases.{image_size, names_size};

use crate::callers::arguments_at;
use p8_gen::Tables;
use p8_image::{ObjectPart, frame_end};
use p8_kinds::{Children, Kinds};
use p8_names::number_behind;
use p8_stmt::{MethodSize, method_size};
use p8_tree::{Fault, Method, Place, Refusal, SourceFile};
use p8_words::NoMemory;
use std::alloc::Global;

/// How large what a refusal tells is.
#[derive(Clone, Copy, Debug, PartialEq, Eq)]
pub enum Size {
    /// The method of a 26.
    Method(MethodSize),
    /// The image of a 28: where its first frame would end, in bytes. 2,147,483,648 stands for as many or more.
    Image(u32),
    /// The call of a 17: how many arguments are expected, and how many are given, which is another number.
    Arguments { wanted: usize, given: usize },
}

/// The numbers of arguments that a fault of the names of a file tells, where that is the fault of a call.
pub(crate) fn names_size(
    alloc: Global,
    file: &SourceFile,
    children: &Children,
    fault: Fault,
) -> Result<Option<Size>, NoMemory>
    ensures { IfOk result (λ size. size ≡ names_size (source_of file.now) children.now fault) }
{
    if fault.number != Refusal::WrongArity.number() {
        return Ok(None);
    }
    arguments_at(alloc, file, children, fault.place)
}

/// The size of the image of these objects, where a fault is that of one that is too large.
pub(crate) fn image_size(
    alloc: Global,
    objects: &[ObjectPart],
    fault: Fault,
) -> Result<Option<Size>, NoMemory>
    ensures { IfOk result (λ size. size ≡ image_size objects.now fault) }
{
    if fault.number != Refusal::ImageTooLarge.number() {
        return Ok(None);
    }
    let end = frame_end(alloc, objects)?;
    Ok(Some(Size::Image(end)))
}

/// The size of the method that a fault of the code of a file tells, where that is the fault of one that is too large. The methods
/// stand in the order of their numbers.
pub(crate) fn code_size(
    kinds: &Kinds,
    tables: &Tables,
    methods: &[&Method],
    fault: Fault,
) -> Result<Option<Size>, NoMemory>
    ensures { IfOk result (IfSizeAt (names_with kinds.now tables.now) (map (λ m. method_of m.now) methods.now) fault) }
{
    if fault.number != Refusal::FrameTooLarge.number() {
        return Ok(None);
    }
    let size = first_size(kinds, tables, methods, fault.place)?;
    Ok(of_method_size(size))
}

/// The size of a method, as that of what is refused.
fn of_method_size(size: Option<MethodSize>) -> Option<Size>
    ensures { result ≡ of_method_size size }
{
    match size {
        Some(size) => Some(Size::Method(size)),
        None => None,
    }
}

/// Whether a method that stands here and has this size is refused with 26 at a place.
fn is_refused_at(stands: Place, size: MethodSize, place: Place) -> bool
    ensures { result ≡ (is_same_place stands place && (nat_lt most_longs size.longs || nat_lt most_held size.held)) }
{
    stands.line == place.line && stands.column == place.column && size.is_too_large()
}

/// The size of the first of some methods that is too large and stands at a place.
fn first_size(
    kinds: &Kinds,
    tables: &Tables,
    methods: &[&Method],
    place: Place,
) -> Result<Option<MethodSize>, NoMemory>
    ensures { IfOk result (λ size. IsFirstSize (names_with kinds.now tables.now) (map (λ m. method_of m.now) methods.now) place size) }
{
    for (index, method) in methods.iter().enumerate() {
        let number = number_behind(index)?;
        let size = method_size(kinds, tables, method, number);
        if is_refused_at(method.place, size, place) {
            return Ok(Some(size));
        }
    }
    Ok(None)
}
