// The memory with which a made program begins.
ghost use Rattle.std.specs.Prelude.{◌≡◌, ◌+◌, ◌*◌, ◌++◌, ◌∷◌, [], ℕ, length, map, flat_map, IfOk, OnOk};
ghost use Rattle.std.specs.Int.{to_le_bytes, w32};
ghost use Rattle.std.specs.List.{range_with_len};
ghost use Rattle.p8_instr.specs.Instruction.{long_of};
ghost use Rattle.p8_finish.specs.Made.{number, made_instr, instr_longs, made_longs, made_bytes};

use crate::instructions::{after, made_instr};
use p8_instr::encode;
use p8_words::NoMemory;
use std::alloc::Global;

/// The program of cog 0: it starts seven more cogs from long 8 of the hub on, and then itself.
const FIRST_LONGS: [u32; 8] = [0x0C7C_0802, 0xE4FC_0A00, 0x0C7C_0C02, 0, 0x88, 7, 0x80, 0];

/// A jump to the first instruction.
const JUMP: u32 = 0x5C7C_0000;

/// Appends one long.
fn push_long(longs: &mut Vec<u32>, long: u32) -> Result<(), NoMemory>
    ensures { OnOk result (longs.new.items ≡ longs.old.items ++ long ∷ []) }
{
    longs.extend_from_slice(&[long])?;
    Ok(())
}

/// Appends the long of the instruction that a number makes.
fn push_made(longs: &mut Vec<u32>, number: u32) -> Result<(), NoMemory>
    ensures { OnOk result (longs.new.items ≡ longs.old.items ++ long_of (made_instr number) ∷ []) }
{
    push_long(longs, encode(made_instr(number)))
}

/// Appends the longs of the 400 instructions, and answers the last number that was taken.
fn push_instructions(longs: &mut Vec<u32>, seed: u32) -> Result<u32, NoMemory>
    ensures longs { OnOk result (longs.new.items ≡ longs.old.items ++ instr_longs seed 400) }
    ensures last { IfOk result (λ last. last ≡ number seed 400) }
{
    let mut last = seed;
    for _place in 0..400u32 {
        last = after(last);
        push_made(longs, last)?;
    }
    Ok(last)
}

/// Appends the addresses of 16 longs from $1000 on.
fn push_addresses(longs: &mut Vec<u32>) -> Result<(), NoMemory>
    ensures { OnOk result (longs.new.items ≡ longs.old.items ++ map (λ j. 4096 + 4 * j) (range_with_len 0 16)) }
{
    for place in 0..16u32 {
        push_long(longs, 0x1000 + 4 * place)?;
    }
    Ok(())
}

/// Appends the 16 numbers after number 400 of the seed.
fn push_values(longs: &mut Vec<u32>, seed: u32, mut last: u32) -> Result<(), NoMemory>
    requires { last ≡ number seed 400 }
    ensures { OnOk result (longs.new.items ≡ longs.old.items ++ map (λ j. number seed (401 + j)) (range_with_len 0 16)) }
{
    for _place in 0..16u32 {
        last = after(last);
        push_long(longs, last)?;
    }
    Ok(())
}

/// The longs of the image.
fn longs_of(alloc: Global, seed: u32) -> Result<Vec<u32>, NoMemory>
    ensures { IfOk result (λ longs. longs.items ≡ made_longs seed) }
{
    let mut longs = Vec::with_capacity(alloc, 504)?;
    longs.extend_from_slice(&FIRST_LONGS)?;
    let last = push_instructions(&mut longs, seed)?;
    push_long(&mut longs, JUMP)?;
    longs.extend_from_slice(&[0; 63])?;
    push_addresses(&mut longs)?;
    push_values(&mut longs, seed, last)?;
    Ok(longs)
}

/// Appends the bytes of longs, the lowest of each first.
fn push_bytes(bytes: &mut Vec<u8>, mut longs: &[u32]) -> Result<(), NoMemory>
    ensures { OnOk result (bytes.new.items ≡ bytes.old.items ++ flat_map (to_le_bytes w32) longs.entry.now) }
{
    while let [long, rest @ ..] = longs {
        bytes.extend_from_slice(&long.to_le_bytes())?;
        longs = rest;
    }
    Ok(())
}

/// The first 2,016 bytes of the hub memory with which the made program of a seed begins; after them all is 0. It is
/// run from cog 0 as PASM with code $0000 and PAR $0000.
///
/// Cog 0 starts all eight cogs with the same 400 instructions, which the seed chooses: each reads or writes one of 16
/// longs of the hub, or works on the 16 registers of its cog. The only error is want of memory.
pub fn made_image(alloc: Global, seed: u32) -> Result<Vec<u8>, NoMemory>
    ensures bytes { IfOk result (λ bytes. bytes.items ≡ made_bytes seed) }
    ensures length { IfOk result (λ bytes. length bytes.items ≡ 2016) }
{
    let longs = longs_of(alloc, seed)?;
    let mut bytes = Vec::with_capacity(alloc, 2016)?;
    push_bytes(&mut bytes, longs.as_slice())?;
    Ok(bytes)
}
