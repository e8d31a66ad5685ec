// All DAT blocks of a file.
ghost use Rattle.std.specs.Prelude.{◌≡◌, [], ◌++◌, true, MatchOption, OnOk, IfOk, None, map, fold};
ghost use Rattle.p8_tree.specs.Views.{block_of, source_of};
ghost use Rattle.p8_tree.specs.declared.faults.Fault.{Fault};
ghost use Rattle.p8_tree.specs.Faults.{IsFirstFault};
ghost use Rattle.p8_fold.specs.ConstantEntries.{setting_of};
ghost use Rattle.p8_fold.specs.Meanings.{outside_operands};
ghost use Rattle.p8_dat.specs.Spots.{placed, behind_lines};
ghost use Rattle.p8_dat.specs.Names.{hidden, without_labels, with_common};
ghost use Rattle.p8_dat.specs.Blocks.{block_lines, dat_lines, first_spot, counts_setting, placed_lines, dat_bytes, IsDatFault};
ghost use Rattle.p8_dat.specs.Placing.{placed_of, unplaced};

use crate::labels::{enter_common, hide};
use crate::output::Output;
use crate::placing::{Placed, place_lines};
use crate::regions::put_regions;
use crate::spots::Spot;
use p8_fold::Consts;
use p8_tree::{Block, SourceFile};
use p8_words::NoMemory;
use std::alloc::{AllocError, Global};

// A file's DAT: its lines with their places, its bytes, and the first fault.
#[derive(Drop)]
pub(crate) struct Assembled<'a> {
    pub(crate) places: Vec<Placed<'a>>,
    pub(crate) out: Output,
}

// Whether a block has no line of DAT.
fn has_no_line(block: &Block) -> bool
    ensures { result ≡ true → block_lines (block_of block.now) ≡ [] }
{
    match block {
        Block::Dat(lines) => lines.is_empty(),
        Block::Con(_) | Block::Var(_) | Block::Obj(_) | Block::Method(_) => true,
    }
}

// Whether no block has a line of DAT.
pub(crate) fn have_no_line(mut blocks: &[Block]) -> bool
    ensures { result ≡ true → dat_lines (map block_of blocks.entry.now) ≡ [] }
{
    while let [block, rest @ ..] = blocks {
        if !has_no_line(block) {
            return false;
        }
        blocks = rest;
    }
    true
}

// Enters the labels of a block where they have no value.
fn hide_block(block: &Block, counts: &mut Consts) -> Result<(), NoMemory>
    ensures { OnOk result (setting_of counts.new ≡ fold hidden (setting_of counts.old) (block_lines (block_of block.now))) }
{
    match block {
        Block::Dat(lines) => hide(lines.as_slice(), counts),
        Block::Con(_) | Block::Var(_) | Block::Obj(_) | Block::Method(_) => Ok(()),
    }
}

fn hide_blocks(mut blocks: &[Block], counts: &mut Consts) -> Result<(), NoMemory>
    ensures { OnOk result (setting_of counts.new ≡ fold hidden (setting_of counts.old) (dat_lines (map block_of blocks.entry.now))) }
{
    while let [block, rest @ ..] = blocks {
        hide_block(block, counts)?;
        blocks = rest;
    }
    Ok(())
}

// Makes the table of what names mean in ORG, RES, FIT and counts.
fn without_labels(file: &SourceFile, counts: &mut Consts) -> Result<(), NoMemory>
    ensures { OnOk result (setting_of counts.new ≡ counts_setting (setting_of counts.old) (source_of file.now)) }
{
    hide_blocks(file.blocks.as_slice(), counts)?;
    counts.here(None);
    Ok(())
}

// Places the lines of a block, and gives the spot after them.
fn place_block<'a>(
    block: &'a Block,
    from: Spot,
    counts: &Consts,
    places: &mut Vec<Placed<'a>>,
) -> Result<Spot, AllocError>
    ensures placed { OnOk result (map placed_of places.new.items ≡
        map placed_of places.old.items ++ placed (setting_of counts.now) (block_lines (block_of block.now)) from) }
    ensures behind { IfOk result (λ p. p ≡ behind_lines (setting_of counts.now) (block_lines (block_of block.now)) from) }
{
    match block {
        Block::Dat(lines) => place_lines(lines.as_slice(), from, counts, places),
        Block::Con(_) | Block::Var(_) | Block::Obj(_) | Block::Method(_) => Ok(from),
    }
}

fn place_blocks<'a>(
    mut blocks: &'a [Block],
    mut from: Spot,
    counts: &Consts,
    places: &mut Vec<Placed<'a>>,
) -> Result<(), AllocError>
    ensures { OnOk result (map placed_of places.new.items ≡
        map placed_of places.old.items ++ placed (setting_of counts.now) (dat_lines (map block_of blocks.entry.now)) from) }
{
    while let [block, rest @ ..] = blocks {
        from = place_block(block, from, counts, places)?;
        blocks = rest;
    }
    Ok(())
}

// Assembles a file's DAT, whose object's offset of it is `start`. Both tables say what names mean that are no labels.
pub(crate) fn assemble_file<'a>(
    alloc: Global,
    file: &'a SourceFile,
    start: u32,
    counts: &mut Consts,
    values: &mut Consts,
) -> Result<Assembled<'a>, NoMemory>
    requires same { setting_of counts.old ≡ setting_of values.old }
    requires here { (setting_of values.old).here ≡ outside_operands None }
    ensures places { IfOk result (λ a. map placed_of a.places.items ≡ placed_lines (setting_of values.old) start (source_of file.now)) }
    ensures bytes { IfOk result (λ a. a.out.bytes.items ≡ dat_bytes (setting_of values.old) start (source_of file.now)) }
    ensures fault { IfOk result (λ a. MatchOption a.out.fault ((f : Fault) → ¬ IsDatFault (setting_of values.old) start (source_of file.now) f)
        (IsFirstFault (IsDatFault (setting_of values.old) start (source_of file.now)))) }
{
    without_labels(file, counts)?;
    let first = Spot {
        offset: start,
        cog: 0,
    };
    let mut places = Vec::new(alloc);
    place_blocks(file.blocks.as_slice(), first, counts, &mut places)?;
    enter_common(places.as_slice(), values)?;
    let mut out = Output {
        bytes: Vec::new(alloc),
        fault: None,
    };
    put_regions(alloc, &mut out, places.as_slice(), counts, values)?;
    Ok(Assembled { places, out })
}
