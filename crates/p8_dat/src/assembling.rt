// The DAT of a file, as the compiler takes it.
ghost use Rattle.std.specs.Prelude.{◌≡◌, ◌++◌, [], Some, None, IfOk, IfErr, OnOk, map};
ghost use Rattle.p8_tree.specs.Views.{source_of};
ghost use Rattle.p8_tree.specs.declared.faults.Fault.{Fault};
ghost use Rattle.p8_tree.specs.Faults.{IsFirstFault, IfRefused};
ghost use Rattle.p8_fold.specs.ConstantEntries.{setting_of};
ghost use Rattle.p8_fold.specs.Meanings.{outside_operands};
ghost use Rattle.p8_kinds.specs.FileSettings.{file_setting};
ghost use Rattle.p8_dat.specs.Labels.{size_of_kind, with_label_of, labels_of};
ghost use Rattle.p8_dat.specs.Lines.{begin_of};
ghost use Rattle.p8_dat.specs.Blocks.{placed_lines, dat_bytes, IsDatFault};
ghost use Rattle.p8_dat.specs.Placing.{placed_of};

use crate::files::{Assembled, assemble_file, have_no_line};
use crate::output::Output;
use crate::placing::Placed;
use crate::spots::Spot;
use p8_fold::Consts;
use p8_kinds::{Kinds, Label, NameKind, Named, consts_of};
use p8_tree::{Fault, List, Place, SourceFile, Text};
use p8_words::Fail;
use std::alloc::{AllocError, Global};

/// Why a file's DAT is refused: 12 and 13 of a value, 21 at an operand of an instruction that isn't from 0 to 511 or is a label
/// off the longs, 22 at FIT, 23 at ORG, 24 at a CALL without its label `x_RET`.
pub type DatFault = Fault;

/// Where a line of DAT begins.
#[derive(Clone, Copy, Debug, PartialEq, Eq)]
pub struct LineBegin {
    /// Where its contents begin in the object, in bytes.
    pub offset: u32,
    /// Its place in the source.
    pub place: Place,
}

/// What the DAT blocks of a file come to.
#[derive(Drop)]
pub struct Dat {
    /// The bytes, from the offset of the file's DAT in its object on.
    pub bytes: Text,
    /// The labels but for local ones, in the order of their lines.
    pub labels: List<Label>,
    /// Where its lines begin, in the order of the source. A line without bytes begins where the next byte would stand.
    pub lines: List<LineBegin>,
}

// The size of a label to Spin.
fn size_of_kind(kind: Option<NameKind>) -> u8
    ensures { result ≡ size_of_kind kind }
{
    match kind {
        Some(NameKind::Label { size }) => size,
        _ => 4,
    }
}

// Puts the label of a line that stands here, if it is one of the whole file.
fn push_label(
    alloc: Global,
    label: &Option<Text>,
    at: Spot,
    kinds: &Kinds,
    labels: &mut Vec<Label>,
) -> Result<(), AllocError>
    ensures { OnOk result (labels.new.items ≡ labels.old.items ++ with_label_of kinds.now label.now at []) }
{
    match label {
        None => Ok(()),
        Some(name) => push_named(alloc, name, at, kinds, labels),
    }
}

fn push_named(
    alloc: Global,
    name: &Text,
    at: Spot,
    kinds: &Kinds,
    labels: &mut Vec<Label>,
) -> Result<(), AllocError>
    ensures { OnOk result (labels.new.items ≡ labels.old.items ++ with_label_of kinds.now (Some name.now) at []) }
{
    if name.is_local() {
        return Ok(());
    }
    let label = Label {
        name: Text::copy_of(alloc, name.as_slice())?,
        offset: at.offset,
        cog: at.cog,
        size: size_of_kind(kinds.own(0, name)),
    };
    labels.push(label)?;
    Ok(())
}

// The labels of lines.
fn labels_of(alloc: Global, mut places: &[Placed], kinds: &Kinds) -> Result<Vec<Label>, AllocError>
    ensures { IfOk result (λ labels. labels.items ≡ labels_of kinds.now (map placed_of places.entry.now)) }
{
    let mut labels = Vec::new(alloc);
    while let [placed, rest @ ..] = places {
        push_label(alloc, &placed.line.label, placed.at, kinds, &mut labels)?;
        places = rest;
    }
    Ok(labels)
}

// Where a line begins.
fn begin_of(placed: Placed) -> LineBegin
    ensures { result ≡ begin_of (placed_of placed.entry) }
{
    LineBegin {
        offset: placed.at.offset,
        place: placed.line.place,
    }
}

// Where lines begin.
fn begins_of(alloc: Global, mut places: &[Placed]) -> Result<Vec<LineBegin>, AllocError>
    ensures { IfOk result (λ lines. lines.items ≡ map begin_of (map placed_of places.entry.now)) }
{
    let mut lines = Vec::new(alloc);
    while let [placed, rest @ ..] = places {
        lines.push(begin_of(*placed))?;
        places = rest;
    }
    Ok(lines)
}

// Assembles the DAT blocks of a file. Two equal tables say what names mean that are no labels; labels are entered into them.
fn assemble_with(
    alloc: Global,
    file: &SourceFile,
    kinds: &Kinds,
    start: u32,
    counts: Consts,
    values: Consts,
) -> Result<Dat, Fail<DatFault>>
    requires same { setting_of counts ≡ setting_of values }
    requires here { (setting_of values).here ≡ outside_operands None }
    ensures bytes { IfOk result (λ dat. dat.bytes ≡ dat_bytes (setting_of values) start (source_of file.now)) }
    ensures labels { IfOk result (λ dat. dat.labels ≡ labels_of kinds.now (placed_lines (setting_of values) start (source_of file.now))) }
    ensures lines { IfOk result (λ dat. dat.lines ≡ map begin_of (placed_lines (setting_of values) start (source_of file.now))) }
    ensures clean { OnOk result ((f : Fault) → ¬ IsDatFault (setting_of values) start (source_of file.now) f) }
    ensures refused { IfErr result (IfRefused (IsFirstFault (IsDatFault (setting_of values) start (source_of file.now)))) }
{
    let mut counts = counts;
    let mut values = values;
    let assembled = assemble_file(alloc, file, start, &mut counts, &mut values)?;
    drop(counts);
    drop(values);
    let Assembled { places, out } = assembled;
    let Output { bytes, fault } = out;
    match fault {
        Some(fault) => {
            drop(places);
            drop(bytes);
            Err(Fail::Refused(fault))
        }
        None => {
            let labels = labels_of(alloc, places.as_slice(), kinds)?;
            let lines = begins_of(alloc, places.as_slice())?;
            drop(places);
            Ok(Dat {
                bytes: Text::from_vec(bytes),
                labels: List::from_vec(labels),
                lines: List::from_vec(lines),
            })
        }
    }
}

// The DAT of a file without a line of it.
fn nothing(alloc: Global) -> Dat
    ensures bytes { result.bytes ≡ [] }
    ensures labels { result.labels ≡ [] }
    ensures lines { result.lines ≡ [] }
{
    Dat {
        bytes: Text::from_vec(Vec::new(alloc)),
        labels: List::new(alloc),
        lines: List::new(alloc),
    }
}

/// Assembles the DAT blocks of a file, which stand together at the offset `start` of its object: their bytes and labels, and where
/// their lines begin.
///
/// A file with something wrong in it is refused with the first of its faults, by place and then by number. A count of data of
/// any size costs no more than the bytes that it puts.
pub fn assemble(alloc: Global, named: &Named, start: u32) -> Result<Dat, Fail<DatFault>>
    ensures bytes { IfOk result (λ dat. dat.bytes ≡ dat_bytes (file_setting named.now.kinds named.now.children.now) start (source_of named.now.file.now)) }
    ensures labels { IfOk result (λ dat. dat.labels ≡
        labels_of named.now.kinds (placed_lines (file_setting named.now.kinds named.now.children.now) start (source_of named.now.file.now))) }
    ensures lines { IfOk result (λ dat. dat.lines ≡ map begin_of
        (placed_lines (file_setting named.now.kinds named.now.children.now) start (source_of named.now.file.now))) }
    ensures clean { OnOk result ((f : Fault) → ¬ IsDatFault (file_setting named.now.kinds named.now.children.now) start (source_of named.now.file.now) f) }
    ensures refused { IfErr result (IfRefused (IsFirstFault
        (IsDatFault (file_setting named.now.kinds named.now.children.now) start (source_of named.now.file.now)))) }
{
    if have_no_line(named.file.blocks.as_slice()) {
        return Ok(nothing(alloc));
    }
    let counts = consts_of(alloc, &named.kinds, named.children)?;
    let values = consts_of(alloc, &named.kinds, named.children)?;
    assemble_with(alloc, named.file, &named.kinds, start, counts, values)
}
