// Where the longs came from that a cog executes.
ghost use Rattle.std.specs.Prelude.{◌≡◌, ◌≤◌, ◌<◌, ◌+◌};
ghost use Rattle.p8_cog.specs.Counters.{loaded_from, long_at};

use crate::registers::LOADED_LONGS;
use p8_access::Ram;

/// The long of a memory at an address.
fn long_at(memory: &Ram, address: u16) -> u32
    requires { address + 3 < 32768 }
    ensures { result ≡ long_at memory.now address }
{
    let bytes = memory.bytes();
    let at = usize::from(address);
    u32::from_le_bytes([bytes[at], bytes[at + 1], bytes[at + 2], bytes[at + 3]])
}

/// Where the long came from that stands in a register and is executed by a cog that was started at the address `code`: the address from which the
/// register is loaded, if the memory has this long there.
pub(crate) fn loaded_from(memory: &Ram, code: u16, register: u16, long: u32) -> Option<u16>
    requires code { code ≤ 30784 }
    ensures { result ≡ loaded_from memory.now code register long }
{
    if register >= LOADED_LONGS {
        return None;
    }
    let address = code + 4 * register;
    if long_at(memory, address) == long {
        Some(address)
    } else {
        None
    }
}
