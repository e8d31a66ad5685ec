// The code of the methods of a file.
ghost use Rattle.std.specs.Prelude.{◌≡◌, ◌+◌, ◌*◌, length, map, IfOk, IfErr, OnOk};
ghost use Rattle.p8_tree.specs.Views.{method_of};
ghost use Rattle.p8_constants.specs.Standing.{IsFirstOf};
ghost use Rattle.p8_stmt.specs.Methods.{AreResolved};
ghost use Rattle.p8_build.specs.Numbers.{number_by};
ghost use Rattle.p8_build.specs.Files.{names_with};
ghost use Rattle.p8_build.specs.Coding.{part_by, parts_by, AreReady, IsOneTooMany, IsCoded, IsOneMore, AreAllCodes, IsCodeRefusal};
ghost use Rattle.p8_build.specs.Phases.{IfPhaseRefused};

use crate::fault::PhaseRefusal;
use crate::sizes::code_size;
use crate::text_numbers::TextNumbers;
use p8_gen::Tables;
use p8_image::MethodPart;
use p8_kinds::Kinds;
use p8_names::number_behind;
use p8_stmt::{MethodCode, method_code};
use p8_tree::{Fault, List, Method, Refusal, Text, first_of_two};
use p8_words::{Fail, NoMemory};
use std::alloc::Global;

/// How many methods a file may have.
const MOST_METHODS: usize = 254;

/// How many methods and instances of objects together.
const MOST_ENTRIES: usize = 255;

/// What the methods of a file come to, as far as they have been looked at.
#[derive(Drop)]
pub(crate) struct Coded {
    /// Their codes, where there is no fault.
    pub(crate) codes: List<MethodCode>,
    /// The first fault of their code.
    pub(crate) fault: Option<Fault>,
}

/// The codes of all methods of the file of this number, which stand in the order of their numbers, beside so many instances of
/// objects; or the first refusal of them, with the size of a method that is too large.
pub(crate) fn codes_of(
    alloc: Global,
    file: usize,
    kinds: &Kinds,
    tables: &Tables,
    instances: u32,
    methods: &[&Method],
) -> Result<List<MethodCode>, Fail<PhaseRefusal>>
    requires { AreReady (names_with kinds.now tables.now) (map (λ m. method_of m.now) methods.now) }
    ensures codes { IfOk result (AreAllCodes (names_with kinds.now tables.now) instances (map (λ m. method_of m.now) methods.now)) }
    ensures refused { IfErr result (IfPhaseRefused (IsCodeRefusal file (names_with kinds.now tables.now) instances (map (λ m. method_of m.now) methods.now))) }
{
    let Coded { codes, fault } = code_of_all(alloc, kinds, tables, methods)?;
    match first_of_two(fault, first_too_many(instances, methods)) {
        None => Ok(codes),
        Some(fault) => Err(Fail::Refused(PhaseRefusal {
            phase: 2,
            file,
            fault,
            size: code_size(kinds, tables, methods, fault)?,
        })),
    }
}

/// The code of all methods of a file, which stand in the order of their numbers.
fn code_of_all(
    alloc: Global,
    kinds: &Kinds,
    tables: &Tables,
    methods: &[&Method],
) -> Result<Coded, NoMemory>
    requires { AreReady (names_with kinds.now tables.now) (map (λ m. method_of m.now) methods.now) }
    ensures { IfOk result (IsCoded (names_with kinds.now tables.now) (map (λ m. method_of m.now) methods.now)) }
{
    let mut coded = Coded {
        codes: List::new(alloc),
        fault: None,
    };
    for (index, method) in methods.iter().enumerate() {
        add_code(alloc, kinds, tables, index, method, &mut coded)?;
    }
    Ok(coded)
}

/// Adds the code of the next method, or its first fault.
fn add_code(
    alloc: Global,
    kinds: &Kinds,
    tables: &Tables,
    index: usize,
    method: &Method,
    coded: &mut Coded,
) -> Result<(), NoMemory>
    requires { AreResolved (names_with kinds.now tables.now index (method_of method.now)) (method_of method.now).body }
    ensures { OnOk result (IsOneMore (names_with kinds.now tables.now index (method_of method.now)) (method_of method.now) coded.old coded.new) }
{
    let number = number_behind(index)?;
    match method_code(alloc, kinds, tables, method, number) {
        Ok(code) => {
            coded.codes.push(code)?;
            Ok(())
        }
        Err(Fail::Refused(fault)) => {
            coded.fault = first_of_two(coded.fault, Some(fault));
            Ok(())
        }
        Err(Fail::NoMemory) => Err(NoMemory),
    }
}

/// 27 at the first method too many, in a file with so many instances of objects.
fn first_too_many(instances: u32, methods: &[&Method]) -> Option<Fault>
    ensures { IsFirstOf result (IsOneTooMany instances (map (λ m. method_of m.now) methods.now)) }
{
    let left = MOST_ENTRIES.checked_sub(instances as usize)?;
    let method = methods.get(left.min(MOST_METHODS))?;
    Some(Refusal::TooManyMethods.at(method.place))
}

/// The parts of methods with these codes, one for each.
pub(crate) fn parts_of(
    alloc: Global,
    mut methods: &[&Method],
    mut codes: &[MethodCode],
    texts: &TextNumbers,
) -> Result<List<MethodPart>, NoMemory>
    ensures { IfOk result (λ parts. parts ≡ parts_by (number_by texts.now) (map (λ m. method_of m.now) methods.now) codes.now) }
{
    let mut parts = List::new(alloc);
    while let [method, others @ ..] = methods {
        let [code, rest @ ..] = codes else {
            return Ok(parts);
        };
        parts.push(part_with(alloc, method, code, texts)?)?;
        methods = others;
        codes = rest;
    }
    Ok(parts)
}

/// The part of a method with a copy of this code.
fn part_with(
    alloc: Global,
    method: &Method,
    code: &MethodCode,
    texts: &TextNumbers,
) -> Result<MethodPart, NoMemory>
    ensures { IfOk result (λ part. part ≡ part_by (number_by texts.now) (method_of method.now) code.now) }
{
    Ok(MethodPart {
        parameters: parameters_size(method)?,
        locals: code.locals,
        code: Text::copy_of(alloc, code.bytes.as_slice())?,
        uses: texts.uses(alloc, code.strings.as_slice())?,
    })
}

/// The bytes of a method's parameters: there is no memory for more than a number tells.
fn parameters_size(method: &Method) -> Result<u16, NoMemory>
    ensures { IfOk result (λ size. size ≡ 4 * length method.now.params) }
{
    match u16::try_from(method.params.len()) {
        Ok(count) => count.checked_mul(4).ok_or(NoMemory),
        Err(_) => Err(NoMemory),
    }
}
