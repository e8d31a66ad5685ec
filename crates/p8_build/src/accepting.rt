// What the files of a project come to, or their first refusal before the image is made.
ghost use Rattle.std.specs.Prelude.{◌≡◌, ◌≤◌, ◌<◌, ◌+◌, ◌==◌, nat_lt, if◌then◌else◌, length, map, IfOk, IfErr};
ghost use Rattle.p8_tree.specs.Faults.{IfRefused, IsFirstFault};
ghost use Rattle.p8_tree.specs.Proper.{IsProperFile};
ghost use Rattle.p8_tree.specs.Views.{source_of, named_source_of};
ghost use Rattle.p8_tree.specs.Projects.{most_files};
ghost use Rattle.p8_names.specs.Faults.{IsNameFault};
ghost use Rattle.p8_build.specs.Parts.{AreProper};
ghost use Rattle.p8_build.specs.Faults.{in_phase};
ghost use Rattle.p8_build.specs.Phases.{IsAcceptedFile, IsAcceptedAt, AreAccepted, IsFirstOfFile, IfPhaseRefused, IsFirstIn, IsFirstBelow};

use crate::assembling::{behind_table, instances};
use crate::coding::codes_of;
use crate::fault::PhaseRefusal;
use crate::sizes::names_size;
use p8_constants::{Item, items_of};
use p8_dat::{Dat, assemble};
use p8_gen::{Labels, Tables};
use p8_kinds::{Children, Kinds, Named, consts_of, publics_of};
use p8_names::{numbered, resolve};
use p8_stmt::MethodCode;
use p8_tree::{Fault, List, Method, ProjectFile, SourceFile};
use p8_words::{Fail, NoMemory};
use std::alloc::Global;

/// A file of an accepted project, with what is worked out of it.
#[derive(Drop)]
pub struct AcceptedFile<'a> {
    /// Its tree.
    pub file: &'a SourceFile,
    /// The items of its blocks, in the order of the source.
    pub items: List<Item<'a>>,
    /// Its methods, in the order of their numbers.
    pub methods: List<&'a Method>,
    /// The kinds of its names.
    pub kinds: Kinds,
    /// What its names mean where a constant is needed, the `PUB`s of its objects, and where its labels stand.
    pub tables: Tables,
    /// The bytes and the labels of its DAT.
    pub dat: Dat,
    /// The codes of its methods, in the order of their numbers, with the lines of their bytecodes.
    pub codes: List<MethodCode>,
}

/// A refusal of the file of this number in a phase that tells no size.
fn refused(phase: u8, file: usize, fail: Fail<Fault>) -> Fail<PhaseRefusal>
    ensures { result ≡ in_phase phase file fail }
{
    match fail {
        Fail::Refused(fault) => Fail::Refused(PhaseRefusal {
            phase,
            file,
            fault,
            size: None,
        }),
        Fail::NoMemory => Fail::NoMemory,
    }
}

/// A refusal of the names of the file of this number, with the numbers of arguments of a call.
fn names_refused(
    alloc: Global,
    index: usize,
    file: &SourceFile,
    children: &Children,
    fail: Fail<Fault>,
) -> Fail<PhaseRefusal>
    requires { IfRefused (IsFirstFault (IsNameFault (source_of file.now) children.now (index == 0))) fail }
    ensures { IfPhaseRefused (IsFirstOfFile (source_of file.now) children.now index) result }
{
    match fail {
        Fail::Refused(fault) => match names_size(alloc, file, children, fault) {
            Ok(size) => Fail::Refused(PhaseRefusal {
                phase: 0,
                file: index,
                fault,
                size,
            }),
            Err(NoMemory) => Fail::NoMemory,
        },
        Fail::NoMemory => Fail::NoMemory,
    }
}

/// What the file of this number comes to, by what it sees of its objects; or its first refusal, phase by phase.
fn file_of<'a>(
    alloc: Global,
    index: usize,
    file: &'a SourceFile,
    children: &Children,
) -> Result<AcceptedFile<'a>, Fail<PhaseRefusal>>
    requires { IsProperFile (source_of file.now) }
    ensures accepted { IfOk result (IsAcceptedFile (source_of file.now) children.now (index == 0)) }
    ensures refused { IfErr result (IfPhaseRefused (IsFirstOfFile (source_of file.now) children.now index)) }
{
    let named = match resolve(alloc, file, children, index == 0) {
        Ok(named) => named,
        Err(fail) => return Err(names_refused(alloc, index, file, children, fail)),
    };
    let items = items_of(alloc, file)?;
    let methods = numbered(alloc, &items)?;
    let consts = consts_of(alloc, &named.kinds, children)?;
    let instances = instances(&consts, &items)?;
    let start = behind_table(methods.len(), instances)?;
    let dat = match assemble(alloc, &named, start) {
        Ok(dat) => dat,
        Err(fail) => return Err(refused(1, index, fail)),
    };
    let Named { kinds, .. } = named;
    let tables = Tables {
        publics: publics_of(alloc, children)?,
        consts,
        labels: Labels::of(alloc, dat.labels.as_slice())?,
    };
    let codes = codes_of(alloc, index, &kinds, &tables, instances, &methods)?;
    Ok(AcceptedFile {
        file,
        items: List::from_vec(items),
        methods: List::from_vec(methods),
        kinds,
        tables,
        dat,
        codes,
    })
}

/// What the file of this number among those of a project comes to, or its first refusal.
fn accept_file<'a>(
    alloc: Global,
    files: &'a [ProjectFile],
    children: &[Children],
    index: usize,
) -> Result<AcceptedFile<'a>, Fail<PhaseRefusal>>
    requires within { index < length files.now }
    requires proper { AreProper (map named_source_of files.now) }
    requires children { length children.now ≡ length files.now }
    ensures accepted { IfOk result (IsAcceptedAt (map named_source_of files.now) children.now index) }
    ensures refused { IfErr result (IfPhaseRefused (IsFirstIn (map named_source_of files.now) children.now index)) }
{
    file_of(alloc, index, &files[index].tree, &children[index])
}

/// The first of the first refusal of some files and that of the file behind them.
fn earlier(first: PhaseRefusal, later: PhaseRefusal) -> PhaseRefusal
    ensures { result ≡ (if nat_lt later.phase first.phase then later else first) }
{
    if later.phase < first.phase {
        later
    } else {
        first
    }
}

/// The first refusal of the files before one and of that one, of which the first of those before it is known.
fn with_next(
    alloc: Global,
    files: &[ProjectFile],
    children: &[Children],
    index: usize,
    first: PhaseRefusal,
) -> Result<PhaseRefusal, NoMemory>
    requires within { index < length files.now }
    requires proper { AreProper (map named_source_of files.now) }
    requires children { length children.now ≡ length files.now }
    requires first { IsFirstBelow (map named_source_of files.now) children.now index first }
    ensures { IfOk result (IsFirstBelow (map named_source_of files.now) children.now (index + 1)) }
{
    match accept_file(alloc, files, children, index) {
        Ok(file) => {
            drop(file);
            Ok(first)
        }
        Err(Fail::Refused(later)) => Ok(earlier(first, later)),
        Err(Fail::NoMemory) => Err(NoMemory),
    }
}

/// The first refusal of all files, of which the first of those below a number is known.
fn first_of_all(
    alloc: Global,
    files: &[ProjectFile],
    children: &[Children],
    known: usize,
    first: PhaseRefusal,
) -> Result<PhaseRefusal, NoMemory>
    requires known { known ≤ length files.now }
    requires proper { AreProper (map named_source_of files.now) }
    requires children { length children.now ≡ length files.now }
    requires first { IsFirstBelow (map named_source_of files.now) children.now known first }
    ensures { IfOk result (IsFirstBelow (map named_source_of files.now) children.now (length files.now)) }
{
    let mut first = first;
    for index in known..files.len() {
        first = with_next(alloc, files, children, index, first)?;
    }
    Ok(first)
}

/// What all files of a project come to, in their order, or the first refusal of them.
pub(crate) fn accept_files<'a>(
    alloc: Global,
    files: &'a [ProjectFile],
    children: &[Children],
) -> Result<List<AcceptedFile<'a>>, Fail<PhaseRefusal>>
    requires few { length files.now ≤ most_files }
    requires proper { AreProper (map named_source_of files.now) }
    requires children { length children.now ≡ length files.now }
    ensures accepted { IfOk result (AreAccepted (map named_source_of files.now) children.now) }
    ensures refused { IfErr result (IfPhaseRefused (IsFirstBelow (map named_source_of files.now) children.now (length files.now))) }
{
    let mut accepted = List::new(alloc);
    for index in 0..files.len() {
        match accept_file(alloc, files, children, index) {
            Ok(file) => accepted.push(file)?,
            Err(Fail::Refused(first)) => {
                let first = first_of_all(alloc, files, children, index + 1, first)?;
                return Err(Fail::Refused(first));
            }
            Err(Fail::NoMemory) => return Err(Fail::NoMemory),
        }
    }
    Ok(accepted)
}
