// What a number of a seed makes.
ghost use Rattle.std.specs.Prelude.{◌≡◌, ◌<◌, ◌≤◌};
ghost use Rattle.p8_instr.specs.Instruction.{FitsFields};
ghost use Rattle.p8_finish.specs.Made.{after, made_instr, chosen};

use p8_instr::{ALWAYS, FLAG_I, FLAG_R, Instr};

/// The number after a number.
pub fn after(number: u32) -> u32
    ensures { result ≡ after number }
{
    number.wrapping_mul(1_664_525).wrapping_add(1_013_904_223)
}

/// An instruction that always executes.
fn instr(opcode: u8, flags: u8, dest: u16, source: u16) -> Instr
    ensures { result ≡ record { opcode = opcode; flags = flags; cond = 15; dest = dest; source = source } }
{
    Instr {
        opcode,
        flags,
        cond: ALWAYS,
        dest,
        source,
    }
}

/// The instruction of a choice, with its registers.
fn chosen(choice: u32, dest: u16, source: u16, address: u16) -> Instr
    requires { (dest < 512) × (source < 512) × (address < 512) }
    ensures chosen { result ≡ chosen choice dest source address }
    ensures fits { FitsFields result }
{
    match choice {
        0 => instr(2, FLAG_R, dest, address),
        1 => instr(2, 0, dest, address),
        2 => instr(32, FLAG_R, dest, source),
        3 => instr(27, FLAG_R, dest, source),
        4 => instr(33, FLAG_R, dest, source),
        5 => instr(9, FLAG_R, dest, source),
        6 => instr(3, FLAG_R | FLAG_I, dest, 1),
        _ => instr(40, FLAG_R, dest, source),
    }
}

/// The instruction that a number makes.
pub fn made_instr(number: u32) -> Instr
    ensures made { result ≡ made_instr number }
    ensures fits { FitsFields result }
{
    let dest = 480 + (number >> 8 & 15) as u16;
    let source = 480 + (number >> 12 & 15) as u16;
    let address = 464 + (number >> 16 & 15) as u16;
    chosen(number >> 28 & 7, dest, source, address)
}
