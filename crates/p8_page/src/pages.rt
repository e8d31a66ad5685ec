// The page of a run.
ghost use Rattle.std.specs.Prelude.{◌≡◌, ◌<◌, ◌^◌, ◌++◌, List, flat_map, IfOk, OnOk};
ghost use Rattle.p8_access.specs.Worlds.{level_at};
ghost use Rattle.p8_pins.specs.LevelChanges.{lines_of, RiseFrom};
ghost use Rattle.p8_page.specs.Page.{Block, head, tail, blocks_text, changes_by, page_of, pins_line, range_text, run_blocks, windows_text};
ghost use Rattle.p8_page.specs.Blocks.{block_text};
ghost use Rattle.p8_page.specs.Kept.{kept};

use crate::block_kind::BlockKind;
use crate::blocks::push_block;
use crate::frame::{BODY, CLOSING, OPENING, RUNNING};
use crate::numbers::{push_changes, push_range, push_windows};
use crate::script::SCRIPT;
use crate::style::STYLE;
use p8_instr::push_text;
use p8_pins::Change;
use p8_words::NoMemory;
use std::alloc::Global;

/// The clocks of a page.
#[derive(Clone, Copy)]
pub struct Span {
    /// The first one that is shown.
    pub from: u64,
    /// The one behind the last that is shown.
    pub to: u64,
    /// The one at which the run ends.
    pub end: u64,
}

/// Appends what every page begins with.
fn push_head(out: &mut Vec<u8>) -> Result<(), NoMemory>
    ensures { OnOk result (out.new.items ≡ out.old.items ++ head) }
{
    push_text(out, OPENING)?;
    push_text(out, STYLE)?;
    push_text(out, BODY)
}

/// Appends what every page ends with.
fn push_tail(out: &mut Vec<u8>) -> Result<(), NoMemory>
    ensures { OnOk result (out.new.items ≡ out.old.items ++ tail) }
{
    push_text(out, RUNNING)?;
    push_text(out, SCRIPT)?;
    push_text(out, CLOSING)
}

/// Appends the block of the clocks that are shown.
fn push_range_block(alloc: Global, out: &mut Vec<u8>, span: Span) -> Result<(), NoMemory>
    ensures { OnOk result (out.new.items ≡ out.old.items ++ block_text BlockKind.Range (range_text span.from span.to)) }
{
    let mut text = Vec::new(alloc);
    push_range(&mut text, span.from, span.to)?;
    push_block(out, BlockKind::Range, &text)
}

/// Appends the block of the cogs' windows.
fn push_windows_block(alloc: Global, out: &mut Vec<u8>, from: u64) -> Result<(), NoMemory>
    requires { from < 2 ^ 62 }
    ensures { OnOk result (out.new.items ≡ out.old.items ++ block_text BlockKind.Windows (windows_text from)) }
{
    let mut text = Vec::new(alloc);
    push_windows(&mut text, from)?;
    push_block(out, BlockKind::Windows, &text)
}

/// Appends the block of the pins.
fn push_pins_block(
    alloc: Global,
    out: &mut Vec<u8>,
    changes: &[Change],
    end: u64,
) -> Result<(), NoMemory>
    ensures { OnOk result (out.new.items ≡ out.old.items ++ block_text BlockKind.Pins (flat_map pins_line (kept 0 end (lines_of changes.now)))) }
{
    let mut text = Vec::new(alloc);
    push_changes(&mut text, changes, end)?;
    push_block(out, BlockKind::Pins, &text)
}

/// Appends the blocks of a run.
fn push_run(
    alloc: Global,
    out: &mut Vec<u8>,
    file: &[u8],
    span: Span,
    view: &[u8],
    changes: &[Change],
) -> Result<(), NoMemory>
    requires { span.from < 2 ^ 62 }
    ensures { OnOk result (out.new.items ≡ out.old.items ++
        blocks_text (run_blocks file.now span.from span.to view.now (kept 0 span.end (lines_of changes.now)))) }
{
    push_block(out, BlockKind::File, file)?;
    push_range_block(alloc, out, span)?;
    push_windows_block(alloc, out, span.from)?;
    push_block(out, BlockKind::View, view)?;
    push_pins_block(alloc, out, changes, span.end)
}

/// The page of a run of a file, in HTML: what a browser shows of it, from a file alone.
///
/// `file` is the file's name, `span` the clocks that are shown and the run's end, and `view` the lines of the run's view. `changes` are its pins, with
/// clocks that rise ([`pin_changes`](p8_pins::pin_changes)): of these the page has the clocks before the end at which a pin changes, so that it depends
/// on the pins at each clock alone. `project` are the blocks of the project's map and files, as [`push_map`](crate::push_map) and
/// [`push_source`](crate::push_source) append them, and empty where there is none. Nothing of these runs or is taken for markup, whatever their bytes are
/// ([`blocks_are_inert`](crate::blocks_are_inert)), and a reader of the page finds each byte again
/// ([`blocks_are_read_back`](crate::blocks_are_read_back)). The only error is want of memory.
pub fn page(
    alloc: Global,
    file: &[u8],
    span: Span,
    view: &[u8],
    changes: &[Change],
    project: &[u8],
) -> Result<Vec<u8>, NoMemory>
    requires from { span.from < 2 ^ 62 }
    requires rise { RiseFrom 0 (lines_of changes.now) }
    ensures { (blocks : List Block) → project.now ≡ blocks_text blocks
        → IfOk result (λ text. text.items ≡ page_of (run_blocks file.now span.from span.to view.now (changes_by (level_at (lines_of changes.now)) span.end) ++ blocks)) }
{
    let mut out = Vec::new(alloc);
    push_head(&mut out)?;
    push_run(alloc, &mut out, file, span, view, changes)?;
    push_text(&mut out, project)?;
    push_tail(&mut out)?;
    Ok(out)
}
