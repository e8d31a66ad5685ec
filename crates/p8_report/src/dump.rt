// The dump of memory.
ghost use Rattle.std.specs.Prelude.{◌≡◌, ◌++◌, ◌∷◌, ◌+◌, ◌≤◌, List, Some, flat_map, OnOk};
ghost use Rattle.std.specs.List.{range_with_len};
ghost use Rattle.std.specs.Option.{ForSome};
ghost use Rattle.p8_access.specs.declared.order.Turn.{Turn};
ghost use Rattle.p8_access.specs.Worlds.{World};
ghost use Rattle.p8_access.specs.Hub.{byte_at};
ghost use Rattle.p8_hub.specs.Standing.{IsHub};
ghost use Rattle.p8_instr.specs.Numerals.{hex};
ghost use Rattle.p8_report.specs.Text.{dump_line, dump_text};

use crate::phrases::push_byte;
use p8_hub::Hub;
use p8_instr::{push_text, word_digits};
use p8_words::NoMemory;

/// Appends the bytes from an address on, each after a space.
fn push_bytes(out: &mut Vec<u8>, hub: &Hub, address: u16, count: u16) -> Result<(), NoMemory>
    requires { address + count ≤ 32768 }
    ensures { OnOk result ((w : World) (past : List Turn) → IsHub w past hub.now →
        out.new.items ≡ out.old.items ++ flat_map (λ i. 32 ∷ hex 2 (byte_at w past (address + i))) (range_with_len 0 count)) }
{
    for i in 0..count {
        push_byte(out, b" ", hub.byte(address + i) as u32)?;
    }
    Ok(())
}

/// Appends a line: the address, and the bytes from there on.
fn push_dump_line(out: &mut Vec<u8>, hub: &Hub, address: u16, count: u16) -> Result<(), NoMemory>
    requires { address + count ≤ 32768 }
    ensures { OnOk result ((w : World) (past : List Turn) → IsHub w past hub.now → out.new.items ≡ out.old.items ++ dump_line w past address count) }
{
    push_text(out, &word_digits(address as u32))?;
    push_text(out, b":")?;
    push_bytes(out, hub, address, count)?;
    push_text(out, b"\n")
}

/// Appends `count` bytes from an address on, 16 a line.
fn push_range(out: &mut Vec<u8>, hub: &Hub, address: u16, count: u16) -> Result<(), NoMemory>
    requires { address + count ≤ 32768 }
    ensures { OnOk result ((w : World) (past : List Turn) → IsHub w past hub.now → out.new.items ≡ out.old.items ++ dump_text w past (Some (address, count))) }
{
    for line in 0..(count + 15) / 16 {
        push_dump_line(out, hub, address + 16 * line, (count - 16 * line).min(16))?;
    }
    Ok(())
}

/// Appends the dump that is asked for: an address and how many bytes from there on.
pub fn push_dump(out: &mut Vec<u8>, hub: &Hub, dump: Option<(u16, u16)>) -> Result<(), NoMemory>
    requires { ForSome dump (λ range. range.0 + range.1 ≤ 32768) }
    ensures { OnOk result ((w : World) (past : List Turn) → IsHub w past hub.now → out.new.items ≡ out.old.items ++ dump_text w past dump) }
{
    match dump {
        Some((address, count)) => push_range(out, hub, address, count),
        None => Ok(()),
    }
}
