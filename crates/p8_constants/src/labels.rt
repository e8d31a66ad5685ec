// Local labels.
ghost use Rattle.std.specs.Prelude.{◌≡◌, ℕ, List, [], Some, IfOk, OnOk, option_map};
ghost use Rattle.p8_constants.specs.Repeats.{label_of, region_behind, LabelRepeats, LabelRepeatIn};
ghost use Rattle.p8_constants.specs.Standing.{item_of, items_of, IsFirstOf, Holds};

use crate::first_faults::where_so;
use crate::items::Item;
use crate::name_set::NameSet;
use p8_tree::{Fault, Place, Refusal, Text, first_of_two};
use std::alloc::{AllocError, Global};

impl<'a> Item<'a> {
    /// The label of a line of `DAT`.
    pub fn label(self) -> Option<&'a Text>
        ensures { option_map (λ n. n.now) result ≡ label_of (item_of self.entry) }
    {
        match self {
            Item::Line(line) => line.label.as_ref(),
            _ => None,
        }
    }
}

// 14 where a local label is in a set.
fn label_repeated(region: &NameSet, label: Option<&Text>, place: Place) -> Option<Fault>
    ensures { (names : List (List ℕ)) → Holds region.now names → IsFirstOf result (LabelRepeats names (option_map (λ n. n.now) label.entry) place) }
{
    match label {
        None => None,
        Some(label) => local_repeated(region, label, place),
    }
}

fn local_repeated(region: &NameSet, label: &Text, place: Place) -> Option<Fault>
    ensures { (names : List (List ℕ)) → Holds region.now names → IsFirstOf result (LabelRepeats names (Some label.now) place) }
{
    if label.is_local() {
        where_so(region.has(label.as_slice()), Refusal::Duplicate.at(place))
    } else {
        None
    }
}

// Takes a local label into the set, or begins a new one at another label.
fn go_behind(alloc: Global, region: &mut NameSet, label: Option<&Text>) -> Result<(), AllocError>
    ensures { OnOk result ((names : List (List ℕ)) → Holds region.old names → Holds region.new (region_behind names (option_map (λ n. n.now) label.entry))) }
{
    match label {
        None => Ok(()),
        Some(label) => go_behind_label(alloc, region, label),
    }
}

fn go_behind_label(alloc: Global, region: &mut NameSet, label: &Text) -> Result<(), AllocError>
    ensures { OnOk result ((names : List (List ℕ)) → Holds region.old names → Holds region.new (region_behind names (Some label.now))) }
{
    if label.is_local() {
        region.put(label.as_slice())
    } else {
        *region = NameSet::new(alloc);
        Ok(())
    }
}

/// The first local label that stands for the second time between two other labels, 14 at it.
pub fn first_label_repeat(alloc: Global, items: &[Item<'_>]) -> Result<Option<Fault>, AllocError>
    ensures { IfOk result (λ first. IsFirstOf first (LabelRepeatIn [] (items_of items.now))) }
{
    let mut region = NameSet::new(alloc);
    let mut first = None;
    for item in items {
        first = first_of_two(first, label_repeated(&region, item.label(), item.place()));
        go_behind(alloc, &mut region, item.label())?;
    }
    Ok(first)
}
