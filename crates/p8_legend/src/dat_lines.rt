// The lines of DAT in an image.
ghost use Rattle.std.specs.Prelude.{◌≡◌, [], map, IfOk, OnOk};
ghost use Rattle.p8_image.specs.Layout.{codes_offset};
ghost use Rattle.p8_legend.specs.ProjectLegends.{and_one};
ghost use Rattle.p8_legend.specs.DatLines.{line_end, line_text, with_dat, with_dats};

use crate::objects::FIRST_BASE;
use crate::ranges::{Range, Ranges};
use itoa::Buffer;
use p8_build::AcceptedFile;
use p8_dat::LineBegin;
use p8_image::{ObjectPart, Offsets};
use p8_instr::push_text;
use p8_map::{FileNames, address_after};
use p8_tree::Text;
use p8_words::NoMemory;
use std::alloc::Global;

/// The file and the line: `FILE:LINE`.
fn line_name(alloc: Global, file: &[u8], line: LineBegin) -> Result<Text, NoMemory>
    ensures { IfOk result (λ text. text ≡ line_text file.now line) }
{
    let mut text = Vec::new(alloc);
    push_text(&mut text, file)?;
    push_text(&mut text, b":")?;
    push_text(&mut text, Buffer::new().format(line.place.line).as_bytes())?;
    Ok(Text::from_vec(text))
}

/// Where a line ends that comes before these.
fn line_end(base: u16, codes: u16, rest: &[LineBegin]) -> u16
    ensures { result ≡ line_end base codes rest.now }
{
    match rest {
        [] => codes,
        [next, ..] => address_after(base, u64::from(next.offset)),
    }
}

/// Puts the lines of an object's DAT behind those so far.
fn push_dat(
    alloc: Global,
    lines: &mut Ranges,
    file: &[u8],
    base: u16,
    codes: u16,
    mut begins: &[LineBegin],
) -> Result<(), NoMemory>
    ensures { OnOk result ((lines.new.ranges, lines.new.texts) ≡ with_dat (lines.old.ranges, lines.old.texts) file.now base codes begins.now) }
{
    while let [line, rest @ ..] = begins {
        let range = Range {
            address: address_after(base, u64::from(line.offset)),
            end: line_end(base, codes, rest),
        };
        let text = line_name(alloc, file, *line)?;
        lines.push(range, text)?;
        begins = rest;
    }
    Ok(())
}

/// The lines of the DAT of a project's objects, which stand one after the other.
#[tactic(auto, using(crate::proofs::Addresses::address_after_low))]
pub(crate) fn dat_lines_of(
    alloc: Global,
    mut files: &[FileNames],
    mut objects: &[ObjectPart],
    mut accepted: &[AcceptedFile<'_>],
) -> Result<Ranges, NoMemory>
    ensures { IfOk result (λ lines. (lines.ranges, lines.texts) ≡ with_dats ([], []) 16 files.now objects.now (map (λ f. f.dat.lines) accepted.now)) }
{
    let mut lines = Ranges::new(alloc);
    let mut base = FIRST_BASE;
    while let [names, others @ ..] = files {
        let [object, more @ ..] = objects else {
            return Ok(lines);
        };
        let [found, rest @ ..] = accepted else {
            return Ok(lines);
        };
        let offsets = Offsets::of(object);
        let codes = address_after(base, u64::from(offsets.codes));
        let begins = found.dat.lines.as_slice();
        push_dat(
            alloc,
            &mut lines,
            names.file.as_slice(),
            base,
            codes,
            begins,
        )?;
        base = address_after(base, u64::from(offsets.size));
        files = others;
        objects = more;
        accepted = rest;
    }
    Ok(lines)
}
