// Names at places, one after the other.
ghost use Rattle.std.specs.Prelude.{◌≡◌, drop, slice_get, IfOk};
ghost use Rattle.p8_map.specs.Names.{spelled_by};

use p8_lexer::Spellings;
use p8_tree::{Place, Text};
use p8_words::NoMemory;
use std::alloc::Global;

/// A name as a source spells it at a place, where one is known.
pub fn spelled_by(
    alloc: Global,
    source: &Spellings<'_>,
    place: Option<Place>,
    name: &Text,
) -> Result<Text, NoMemory>
    ensures { IfOk result (λ text. text ≡ spelled_by source.now place name.now) }
{
    match place {
        Some(place) => source.spelled(alloc, place, name.as_slice()),
        None => Ok(Text::copy_of(alloc, name.as_slice())?),
    }
}

/// The first of some places.
pub fn first(places: &[Place]) -> Option<Place>
    ensures { result ≡ slice_get places.now 0 }
{
    match places {
        [place, ..] => Some(*place),
        [] => None,
    }
}

/// The places behind the first one.
pub fn behind(places: &[Place]) -> &[Place]
    ensures { result.now ≡ drop 1 places.now }
{
    match places {
        [_, rest @ ..] => rest,
        [] => &[],
    }
}
