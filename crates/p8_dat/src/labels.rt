// What the labels mean, entered into the tables of names.
ghost use Rattle.std.specs.Prelude.{◌≡◌, if◌then◌else◌, OnOk, map, fold};
ghost use Rattle.p8_tree.specs.Views.{line_of};
ghost use Rattle.p8_fold.specs.ConstantEntries.{setting_of};
ghost use Rattle.p8_dat.specs.Names.{with_label, is_named, label_at, hidden, common, with_common, with_local};
ghost use Rattle.p8_dat.specs.Placing.{placed_of, without_local};

use crate::placing::Placed;
use crate::spots::Spot;
use p8_fold::{Consts, Meaning};
use p8_tree::{DatLine, Text};
use p8_words::NoMemory;

// Says what a label means, if there is one.
fn enter(label: &Option<Text>, meaning: Meaning, consts: &mut Consts) -> Result<(), NoMemory>
    ensures { OnOk result (setting_of consts.new ≡ with_label label.now meaning (setting_of consts.old)) }
{
    match label {
        None => Ok(()),
        Some(name) => {
            consts.set(None, name, meaning)?;
            Ok(())
        }
    }
}

// Whether a label is one of the whole file.
pub(crate) fn is_named(label: &Option<Text>) -> bool
    ensures { result ≡ is_named label.now }
{
    match label {
        None => false,
        Some(name) => !name.is_local(),
    }
}

// What a label means that stands here.
fn label_at(at: Spot) -> Meaning
    ensures { result ≡ label_at at }
{
    Meaning::Label {
        cog: at.long(),
        offset: at.offset,
    }
}

// What a line's label means to all lines: a local one nothing.
fn common(placed: Placed) -> Meaning
    ensures { result ≡ common (placed_of placed.entry) }
{
    if is_named(&placed.line.label) {
        label_at(placed.at)
    } else {
        Meaning::Other
    }
}

// Enters labels where they have no value.
pub(crate) fn hide(mut lines: &[DatLine], consts: &mut Consts) -> Result<(), NoMemory>
    ensures { OnOk result (setting_of consts.new ≡ fold hidden (setting_of consts.old) (map line_of lines.entry.now)) }
{
    while let [line, rest @ ..] = lines {
        enter(&line.label, Meaning::Other, consts)?;
        lines = rest;
    }
    Ok(())
}

// Enters what labels mean to all lines.
pub(crate) fn enter_common(mut places: &[Placed], consts: &mut Consts) -> Result<(), NoMemory>
    ensures { OnOk result (setting_of consts.new ≡ fold with_common (setting_of consts.old) (map placed_of places.entry.now)) }
{
    while let [placed, rest @ ..] = places {
        enter(&placed.line.label, common(*placed), consts)?;
        places = rest;
    }
    Ok(())
}

// Says what a line's label means to its region, if it is local.
fn enter_local(label: &Option<Text>, meaning: Meaning, consts: &mut Consts) -> Result<(), NoMemory>
    ensures { OnOk result (setting_of consts.new ≡ (if is_named label.now then setting_of consts.old else with_label label.now meaning
        (setting_of consts.old))) }
{
    if is_named(label) {
        Ok(())
    } else {
        enter(label, meaning, consts)
    }
}

// Enters the local labels of a region.
pub(crate) fn enter_locals(mut region: &[Placed], consts: &mut Consts) -> Result<(), NoMemory>
    ensures { OnOk result (setting_of consts.new ≡ fold with_local (setting_of consts.old) (map placed_of region.entry.now)) }
{
    while let [placed, rest @ ..] = region {
        enter_local(&placed.line.label, label_at(placed.at), consts)?;
        region = rest;
    }
    Ok(())
}

// Takes the values of a region's local labels away.
pub(crate) fn leave_locals(mut region: &[Placed], consts: &mut Consts) -> Result<(), NoMemory>
    ensures { OnOk result (setting_of consts.new ≡ fold without_local (setting_of consts.old) (map placed_of region.entry.now)) }
{
    while let [placed, rest @ ..] = region {
        enter_local(&placed.line.label, Meaning::Other, consts)?;
        region = rest;
    }
    Ok(())
}
