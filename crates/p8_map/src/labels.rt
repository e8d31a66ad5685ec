// The labels of a file's DAT, with their names as its text spells them.
ghost use Rattle.std.specs.Prelude.{◌≡◌, ◌++◌, option_map, OnOk, IfOk};
ghost use Rattle.std.specs.List.{flat_map};
ghost use Rattle.p8_constants.specs.Standing.{item_of, items_of as item_trees};
ghost use Rattle.p8_map.specs.Names.{label_place, own_place, spelled_label, spelled_labels};

use crate::spelled::{behind, first, spelled_by};
use p8_constants::Item;
use p8_kinds::Label;
use p8_lexer::Spellings;
use p8_tree::{List, Place, Text};
use p8_words::NoMemory;
use std::alloc::Global;

/// Where the labels stand that are names of a file, in the order of the source.
pub fn label_places(alloc: Global, items: &[Item<'_>]) -> Result<Vec<Place>, NoMemory>
    ensures { IfOk result (λ places. places.items ≡ flat_map label_place (item_trees items.now)) }
{
    let mut places = Vec::new(alloc);
    for item in items {
        put_item(&mut places, *item)?;
    }
    Ok(places)
}

fn put_item(places: &mut Vec<Place>, item: Item<'_>) -> Result<(), NoMemory>
    ensures { OnOk result (places.new.items ≡ places.old.items ++ label_place (item_of item.entry)) }
{
    match item {
        Item::Line(line) => put_place(places, item.name(), line.place),
        _ => Ok(()),
    }
}

fn put_place(places: &mut Vec<Place>, name: Option<&Text>, place: Place) -> Result<(), NoMemory>
    ensures { OnOk result (places.new.items ≡ places.old.items ++ own_place (option_map (λ n. n.now) name.entry) place) }
{
    match name {
        Some(_) => {
            places.extend_from_slice(&[place])?;
            Ok(())
        }
        None => Ok(()),
    }
}

/// Labels whose names stand at these places, one after the other.
pub fn labels_of(
    alloc: Global,
    source: &Spellings<'_>,
    places: &[Place],
    labels: &[Label],
) -> Result<List<Label>, NoMemory>
    ensures { IfOk result (λ all. all ≡ spelled_labels source.now places.now labels.now) }
{
    let mut all = List::new(alloc);
    let mut rest = places;
    for label in labels {
        all.push(label_at(alloc, source, first(rest), label)?)?;
        rest = behind(rest);
    }
    Ok(all)
}

fn label_at(
    alloc: Global,
    source: &Spellings<'_>,
    place: Option<Place>,
    label: &Label,
) -> Result<Label, NoMemory>
    ensures { IfOk result (λ at. at ≡ spelled_label source.now place label.now) }
{
    Ok(Label {
        name: spelled_by(alloc, source, place, &label.name)?,
        offset: label.offset,
        cog: label.cog,
        size: label.size,
    })
}
