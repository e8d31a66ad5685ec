// The blocks of a page.
ghost use Rattle.std.specs.Prelude.{◌≡◌, ◌++◌, OnOk};
ghost use Rattle.p8_page.specs.Blocks.{block_text, mark_of};
ghost use Rattle.p8_page.specs.Page.{blocks_text, map_block, source_blocks};

use crate::block_kind::BlockKind;
use crate::escaping::push_escaped;
use p8_instr::push_text;
use p8_words::NoMemory;

/// Appends the mark with which a block begins.
fn push_mark(out: &mut Vec<u8>, kind: BlockKind) -> Result<(), NoMemory>
    ensures { OnOk result (out.new.items ≡ out.old.items ++ mark_of kind) }
{
    push_text(out, b"<script type=\"text/plain\" class=\"")?;
    push_text(out, kind.word())?;
    push_text(out, b"\">")
}

/// Appends a block of these bytes.
pub(crate) fn push_block(out: &mut Vec<u8>, kind: BlockKind, bytes: &[u8]) -> Result<(), NoMemory>
    ensures { OnOk result (out.new.items ≡ out.old.items ++ block_text kind bytes.now) }
{
    push_mark(out, kind)?;
    push_escaped(out, bytes)?;
    push_text(out, b"</script>\n")
}

/// Appends the block of a project's map. The only error is want of memory.
pub fn push_map(out: &mut Vec<u8>, map: &[u8]) -> Result<(), NoMemory>
    ensures { OnOk result (out.new.items ≡ out.old.items ++ blocks_text (map_block map.now)) }
{
    push_block(out, BlockKind::Map, map)
}

/// Appends the blocks of a file of a project: its name, as the lines of the view have it, and its bytes. The only error is want of memory.
pub fn push_source(out: &mut Vec<u8>, name: &[u8], bytes: &[u8]) -> Result<(), NoMemory>
    ensures { OnOk result (out.new.items ≡ out.old.items ++ blocks_text (source_blocks name.now bytes.now)) }
{
    push_block(out, BlockKind::Name, name)?;
    push_block(out, BlockKind::Source, bytes)
}
