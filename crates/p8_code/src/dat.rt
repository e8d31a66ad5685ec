// The lines of a DAT.
ghost use Rattle.std.specs.Prelude.{◌≡◌, ◌++◌, codes, OnOk};
ghost use Rattle.p8_code.specs.Listing.{dat_lines, labels_text, long_line, long_lines, longs_ahead as longs_between};

use crate::slices::{behind, front};
use crate::source::push_source_line;
use p8_dat::LineBegin;
use p8_image::push_long_head;
use p8_instr::push_text;
use p8_kinds::Label;
use p8_map::address_after;
use p8_tree::Text;
use p8_words::NoMemory;
use std::alloc::Global;

/// Appends the labels of an object that begin in the long at an address.
fn push_labels(out: &mut Vec<u8>, base: u16, place: u16, labels: &[Label]) -> Result<(), NoMemory>
    ensures { OnOk result (out.new.items ≡ out.old.items ++ labels_text base place (codes " ' ") labels.now) }
{
    let mut before: &[u8] = b" ' ";
    for label in labels {
        if address_after(base, u64::from(label.offset)) / 4 == place / 4 {
            push_text(out, before)?;
            push_text(out, label.name.as_slice())?;
            before = b", ";
        }
    }
    Ok(())
}

/// Appends the line of a long.
fn push_long(
    alloc: Global,
    out: &mut Vec<u8>,
    base: u16,
    labels: &[Label],
    place: u16,
    long: u32,
) -> Result<(), NoMemory>
    ensures { OnOk result (out.new.items ≡ out.old.items ++ long_line (λ text. text) base labels.now place long) }
{
    push_long_head(alloc, out, place, long)?;
    push_labels(out, base, place, labels)?;
    push_text(out, b"\n")
}

/// Appends the lines of longs that stand one after the other from an address on.
pub(crate) fn push_longs(
    alloc: Global,
    out: &mut Vec<u8>,
    base: u16,
    labels: &[Label],
    mut place: u16,
    longs: &[u32],
) -> Result<(), NoMemory>
    ensures { OnOk result (out.new.items ≡ out.old.items ++ long_lines (λ text. text) base labels.now place longs.now) }
{
    for long in longs {
        push_long(alloc, out, base, labels, place, *long)?;
        place = address_after(place, 4);
    }
    Ok(())
}

/// How far ahead of an address another one is, in longs.
fn longs_ahead(from: u16, to: u16) -> u16
    ensures { result ≡ longs_between from to }
{
    to.wrapping_sub(from) / 4
}

/// Appends the longs of a DAT that begins at an address, with the lines of its source.
pub(crate) fn push_dat(
    alloc: Global,
    out: &mut Vec<u8>,
    source: &[Text],
    base: u16,
    labels: &[Label],
    start: u16,
    mut longs: &[u32],
    lines: &[LineBegin],
) -> Result<(), NoMemory>
    ensures { OnOk result (out.new.items ≡ out.old.items ++ dat_lines (λ text. text) source.now base labels.now start start 0 longs.entry.now lines.now) }
{
    let mut place = start;
    let mut told: u16 = 0;
    for line in lines {
        let ahead = longs_ahead(start, address_after(base, u64::from(line.offset)));
        let more = ahead.saturating_sub(told);
        push_longs(
            alloc,
            out,
            base,
            labels,
            place,
            front(longs, usize::from(more)),
        )?;
        push_source_line(out, source, line.place.line)?;
        place = address_after(place, 4 * u64::from(more));
        longs = behind(longs, usize::from(more));
        told += more;
    }
    push_longs(alloc, out, base, labels, place, longs)
}
