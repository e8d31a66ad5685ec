// The bytes of whole lines, and what is wrong with them.
ghost use Rattle.std.specs.Prelude.{◌≡◌, ◌+◌, ◌/◌, ◌++◌, nat_lt, OnOk, map, option_map};
ghost use Rattle.p8_tree.specs.Faults.{fault, first_of_two};
ghost use Rattle.p8_tree.specs.declared.refusal.Refusal.TheVariants.{FitExceeded, OrgRange};
ghost use Rattle.p8_fold.specs.Values.{where_so};
ghost use Rattle.p8_tree.specs.Views.{tree_of, contents_of, instruction_of};
ghost use Rattle.p8_fold.specs.ConstantEntries.{setting_of};
ghost use Rattle.p8_dat.specs.Encoding.{long_of_line};
ghost use Rattle.p8_dat.specs.FirstOfLine.{first_in_instruction};
ghost use Rattle.p8_dat.specs.Bytes.{element, in_instruction, contents_bytes, line_bytes, lines_bytes};
ghost use Rattle.p8_dat.specs.Faults.{org_fault, fit_fault, fit_value, is_beyond};
ghost use Rattle.p8_dat.specs.First.{first_in_number, told_in_contents, told_in_lines};
ghost use Rattle.p8_dat.specs.Placing.{placed_of, unplaced};

use crate::data::put_items;
use crate::instruction_lines::encode_line;
use crate::output::Output;
use crate::placing::Placed;
use crate::spots::Spot;
use crate::values::number;
use p8_fold::{Consts, value_of};
use p8_tree::{DatBody, Expr, Fault, InstrLine, Place, Refusal, first_of_two};
use p8_words::NoMemory;
use std::alloc::Global;

// Where the registers begin, in longs: ORG sets no greater address, and code has to fit below it unless FIT says otherwise.
const REGISTERS: u32 = 496;

// Says where an instruction stands whose operands are looked for.
fn stand_at_instruction(values: &mut Consts, at: Spot)
    ensures { setting_of values.new ≡ in_instruction (setting_of values.old) at }
{
    values.in_operand(at.long());
}

fn put_instruction(
    alloc: Global,
    out: &mut Output,
    line: &InstrLine,
    at: Spot,
    values: &mut Consts,
) -> Result<(), NoMemory>
    ensures bytes { OnOk result (out.new.bytes.items ≡
        out.old.bytes.items ++ element 4 (long_of_line (in_instruction (unplaced (setting_of values.old)) at) (instruction_of line.now)) at) }
    ensures fault { OnOk result (out.new.fault ≡ first_of_two out.old.fault
        (first_in_instruction (in_instruction (unplaced (setting_of values.old)) at) (instruction_of line.now))) }
    ensures names { OnOk result (unplaced (setting_of values.new) ≡ unplaced (setting_of values.old)) }
{
    stand_at_instruction(values, at);
    let encoded = encode_line(alloc, line, values)?;
    out.put(4, encoded.long, at)?;
    out.tell(encoded.fault);
    Ok(())
}

// 23 at ORG.
fn org_fault(value: u32, place: Place) -> Option<Fault>
    ensures { result ≡ where_so (nat_lt 496 value) (fault OrgRange place) }
{
    if value > REGISTERS {
        Some(Refusal::OrgRange.at(place))
    } else {
        None
    }
}

// The address up to which FIT allows.
fn fit_value(expr: &Option<Expr>, counts: &Consts) -> Option<u32>
    ensures { result ≡ fit_value (setting_of counts.now) (option_map tree_of expr.now) }
{
    match expr {
        None => Some(REGISTERS),
        Some(expr) => value_of(expr, counts).ok(),
    }
}

// Whether an address, in bytes, is beyond the one up to which FIT allows.
fn is_beyond(fit: Option<u32>, cog: u32) -> bool
    ensures { result ≡ is_beyond fit ((cog + 3) / 4) }
{
    match fit {
        None => false,
        Some(fit) => u64::from(cog).div_ceil(4) > u64::from(fit),
    }
}

// 22 at FIT.
fn fit_fault(fit: Option<u32>, cog: u32, place: Place) -> Option<Fault>
    ensures { result ≡ where_so (is_beyond fit ((cog + 3) / 4)) (fault FitExceeded place) }
{
    if is_beyond(fit, cog) {
        Some(Refusal::FitExceeded.at(place))
    } else {
        None
    }
}

// Looks at the value of ORG.
fn look_at_org(out: &mut Output, expr: &Option<Expr>, place: Place, counts: &Consts)
    ensures bytes { out.new.bytes ≡ out.old.bytes }
    ensures fault { out.new.fault ≡ first_of_two out.old.fault
        (first_of_two (first_in_number (setting_of counts.now) (option_map tree_of expr.now))
        (org_fault (setting_of counts.now) (option_map tree_of expr.now) place)) }
{
    let found = number(expr, 0, counts);
    out.tell(first_of_two(found.fault, org_fault(found.value, place)));
}

// Looks at the value of RES.
fn look_at_res(out: &mut Output, expr: &Option<Expr>, counts: &Consts)
    ensures bytes { out.new.bytes ≡ out.old.bytes }
    ensures fault { out.new.fault ≡ first_of_two out.old.fault (first_in_number (setting_of counts.now) (option_map tree_of expr.now)) }
{
    out.tell(number(expr, 1, counts).fault);
}

// Looks at the value of FIT, and whether the cog address keeps to it.
fn look_at_fit(out: &mut Output, expr: &Option<Expr>, cog: u32, place: Place, counts: &Consts)
    ensures bytes { out.new.bytes ≡ out.old.bytes }
    ensures fault { out.new.fault ≡ first_of_two out.old.fault
        (first_of_two (first_in_number (setting_of counts.now) (option_map tree_of expr.now))
        (fit_fault (setting_of counts.now) (option_map tree_of expr.now) cog place)) }
{
    let found = number(expr, 0, counts);
    let fit = fit_value(expr, counts);
    out.tell(first_of_two(found.fault, fit_fault(fit, cog, place)));
}

// Puts the contents of a line whose word stands at this place.
fn put_contents(
    alloc: Global,
    out: &mut Output,
    body: &DatBody,
    at: Spot,
    place: Place,
    counts: &Consts,
    values: &mut Consts,
) -> Result<(), NoMemory>
    ensures bytes { OnOk result (out.new.bytes.items ≡
        out.old.bytes.items ++ contents_bytes (setting_of counts.now) (unplaced (setting_of values.old)) (contents_of body.now) at) }
    ensures fault { OnOk result (out.new.fault ≡ told_in_contents out.old.fault (setting_of counts.now) (unplaced (setting_of values.old))
        (contents_of body.now) at place) }
    ensures names { OnOk result (unplaced (setting_of values.new) ≡ unplaced (setting_of values.old)) }
{
    match body {
        DatBody::Nothing => Ok(()),
        DatBody::Data(size, items) => {
            put_items(out, items.as_slice(), *size, at, counts, values)?;
            Ok(())
        }
        DatBody::Org(value) => {
            look_at_org(out, value, place, counts);
            Ok(())
        }
        DatBody::Res(value) => {
            look_at_res(out, value, counts);
            Ok(())
        }
        DatBody::Fit(value) => {
            look_at_fit(out, value, at.cog, place, counts);
            Ok(())
        }
        DatBody::Instr(line) => put_instruction(alloc, out, line, at, values),
    }
}

// Puts a line, after zero bytes where its contents stand further on.
fn put_line(
    alloc: Global,
    out: &mut Output,
    placed: Placed,
    counts: &Consts,
    values: &mut Consts,
) -> Result<(), NoMemory>
    ensures bytes { OnOk result (out.new.bytes.items ≡
        out.old.bytes.items ++ line_bytes (setting_of counts.now) (unplaced (setting_of values.old)) (placed_of placed.entry)) }
    ensures fault { OnOk result (out.new.fault ≡ told_in_contents out.old.fault (setting_of counts.now) (unplaced (setting_of values.old))
        (placed_of placed.entry).line.contents (placed_of placed.entry).at (placed_of placed.entry).line.word_place) }
    ensures names { OnOk result (unplaced (setting_of values.new) ≡ unplaced (setting_of values.old)) }
{
    let Placed { line, from, at } = placed;
    out.put_zeros(at.offset.saturating_sub(from.offset))?;
    put_contents(alloc, out, &line.body, at, line.word_place, counts, values)
}

// Puts the lines of a region, whose local labels the table has.
pub(crate) fn put_lines(
    alloc: Global,
    out: &mut Output,
    mut region: &[Placed],
    counts: &Consts,
    values: &mut Consts,
) -> Result<(), NoMemory>
    ensures bytes { OnOk result (out.new.bytes.items ≡
        out.old.bytes.items ++ lines_bytes (setting_of counts.now) (unplaced (setting_of values.old)) (map placed_of region.entry.now)) }
    ensures fault { OnOk result (out.new.fault ≡ told_in_lines out.old.fault (setting_of counts.now) (unplaced (setting_of values.old))
        (map placed_of region.entry.now)) }
    ensures names { OnOk result (unplaced (setting_of values.new) ≡ unplaced (setting_of values.old)) }
{
    while let [placed, rest @ ..] = region {
        put_line(alloc, out, *placed, counts, values)?;
        region = rest;
    }
    Ok(())
}
