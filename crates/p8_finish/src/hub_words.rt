// The longs of the hub on which a made program works.
ghost use Rattle.std.specs.Prelude.{◌≡◌, ◌≤◌, ◌+◌, List};
ghost use Rattle.p8_access.specs.declared.kinds.Width.TheVariants.{Long};
ghost use Rattle.p8_access.specs.declared.order.Turn.{Turn};
ghost use Rattle.p8_access.specs.Worlds.{World};
ghost use Rattle.p8_access.specs.Hub.{value_at};
ghost use Rattle.p8_hub.specs.Standing.{IsHub};
ghost use Rattle.p8_finish.specs.Summary.{sum_of_words};

use p8_hub::Hub;

/// The long whose four bytes stand in RAM from an address on, the lowest first.
fn long_at(hub: &Hub, address: u16) -> u32
    requires { address + 4 ≤ 32768 }
    ensures { (w : World) (past : List Turn) → IsHub w past hub.now → result ≡ value_at w past Long address }
{
    u32::from_le_bytes([
        hub.byte(address),
        hub.byte(address + 1),
        hub.byte(address + 2),
        hub.byte(address + 3),
    ])
}

/// The sum of the 16 longs from $1000 on, of which the lowest 32 bits are kept.
pub fn sum_of_words(hub: &Hub) -> u32
    ensures { (w : World) (past : List Turn) → IsHub w past hub.now → result ≡ sum_of_words w past }
{
    let mut sum: u32 = 0;
    for place in 0..16u16 {
        sum = sum.wrapping_add(long_at(hub, 0x1000 + 4 * place));
    }
    sum
}
