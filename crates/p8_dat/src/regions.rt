// Regions: the lines from one label of the whole file up to the next one, which see the same local labels.
ghost use Rattle.std.specs.Prelude.{◌≡◌, ◌<◌, ◌≤◌, ◌++◌, length, drop, OnOk, map};
ghost use Rattle.p8_fold.specs.ConstantEntries.{setting_of};
ghost use Rattle.p8_dat.specs.Names.{regions, names_in};
ghost use Rattle.p8_dat.specs.Bytes.{lines_bytes};
ghost use Rattle.p8_dat.specs.Blocks.{regions_bytes};
ghost use Rattle.p8_dat.specs.First.{told_in_lines, told_in_regions};
ghost use Rattle.p8_dat.specs.Placing.{placed_of, unplaced, unnamed_length, region_length, AreHidden};

use crate::labels::{enter_locals, is_named, leave_locals};
use crate::lines::put_lines;
use crate::output::Output;
use crate::placing::Placed;
use p8_fold::Consts;
use p8_words::NoMemory;
use std::alloc::Global;

// How many lines stand before the next label of the file.
fn unnamed_length(mut places: &[Placed]) -> usize
    ensures value { result ≡ unnamed_length (map placed_of places.entry.now) }
    ensures fits { result ≤ length places.entry.now }
{
    let mut count = 0;
    while let [placed, rest @ ..] = places {
        if is_named(&placed.line.label) {
            return count;
        }
        count += 1;
        places = rest;
    }
    count
}

// How many lines the first region has.
fn region_length(places: &[Placed]) -> usize
    ensures value { result ≡ region_length (map placed_of places.now) }
    ensures fits { result ≤ length places.now }
    ensures some { 0 < length places.now → 0 < result }
{
    match places {
        [] => 0,
        [_, rest @ ..] => unnamed_length(rest) + 1,
    }
}

// The lines after the first ones.
fn behind<'a, 'b>(places: &'b [Placed<'a>], count: usize) -> &'b [Placed<'a>]
    requires { count ≤ length places.now }
    ensures { result.now ≡ drop count places.now }
{
    places.split_at(count).1
}

// Puts a region, whose local labels have no values before and after it.
fn put_region(
    alloc: Global,
    out: &mut Output,
    region: &[Placed],
    counts: &Consts,
    values: &mut Consts,
) -> Result<(), NoMemory>
    requires { AreHidden (unplaced (setting_of values.old)) (map placed_of region.now) }
    ensures bytes { OnOk result (out.new.bytes.items ≡
        out.old.bytes.items ++ lines_bytes (setting_of counts.now) (names_in (unplaced (setting_of values.old)) (map placed_of region.now))
        (map placed_of region.now)) }
    ensures fault { OnOk result (out.new.fault ≡ told_in_lines out.old.fault (setting_of counts.now)
        (names_in (unplaced (setting_of values.old)) (map placed_of region.now)) (map placed_of region.now)) }
    ensures names { OnOk result (unplaced (setting_of values.new) ≡ unplaced (setting_of values.old)) }
{
    enter_locals(region, values)?;
    put_lines(alloc, out, region, counts, values)?;
    leave_locals(region, values)?;
    Ok(())
}

// Puts all regions.
pub(crate) fn put_regions(
    alloc: Global,
    out: &mut Output,
    mut places: &[Placed],
    counts: &Consts,
    values: &mut Consts,
) -> Result<(), NoMemory>
    requires { AreHidden (unplaced (setting_of values.old)) (map placed_of places.now) }
    ensures bytes { OnOk result (out.new.bytes.items ≡
        out.old.bytes.items ++ regions_bytes (setting_of counts.now) (unplaced (setting_of values.old)) (regions (map placed_of places.entry.now))) }
    ensures fault { OnOk result (out.new.fault ≡ told_in_regions out.old.fault (setting_of counts.now) (unplaced (setting_of values.old))
        (regions (map placed_of places.entry.now))) }
{
    while !places.is_empty() {
        let length = region_length(places);
        put_region(alloc, out, &places[..length], counts, values)?;
        places = behind(places, length);
    }
    Ok(())
}
