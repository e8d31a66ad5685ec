// The memory of the hub.
ghost use Rattle.std.specs.Prelude.{◌≡◌, ◌<◌, ◌≤◌, ◌+◌, ◌^◌, ℕ, length, nat_lt, if◌then◌else◌, slice_index, IfOk};
ghost use Rattle.p8_access.specs.declared.kinds.Access.TheVariants.{Write};
ghost use Rattle.p8_access.specs.Proper.{bytes_in, IsAligned, IsReduced};
ghost use Rattle.p8_access.specs.Hub.{put_by, or_else};
ghost use Rattle.p8_hub.specs.Parts.{number_in};

use byteorder::{ByteOrder, LittleEndian};
use p8_access::{Ram, Width};
use p8_words::NoMemory;
use std::alloc::Global;
use std::marker::Model;

/// The 32,768 bytes of RAM.
#[derive(Drop)]
pub struct Memory {
    bytes: Vec<u8>,
}

impl Model for Memory {
    ghost use Rattle.std.specs.Prelude.{◌≡◌, ℕ, List, length};

    ghost Value = { List ℕ };

    ghost view = { λ m. m.bytes.items };

    ghost invariant = { λ m. length m.bytes.items ≡ 32768 };
}

/// Puts the bytes of a number at an aligned address, the lowest first.
#[inline(always)]
fn put(bytes: &mut [u8], width: Width, address: u16, value: u32)
    requires aligned { IsAligned width address }
    requires reduced { IsReduced width value }
    requires room { address + bytes_in width ≤ length bytes.old }
    ensures { (a : ℕ) → slice_index bytes.new a ≡ or_else (put_by (Write width address value) a) (slice_index bytes.old a) }
{
    let place = &mut bytes[address as usize..];
    match width {
        Width::Byte => place[0] = value as u8,
        Width::Word => LittleEndian::write_u16(place, value as u16),
        Width::Long => LittleEndian::write_u32(place, value),
    }
}

impl Memory {
    /// A memory with these bytes.
    pub fn open(alloc: Global, ram: &Ram) -> Result<Memory, NoMemory>
        ensures { IfOk result (λ memory. memory ≡ ram.now) }
    {
        Ok(Memory {
            bytes: ram.bytes().to_vec(alloc)?,
        })
    }

    /// The byte at an address: 0 in ROM.
    pub fn byte(&self, address: u16) -> u8
        ensures { result ≡ (if nat_lt address 32768 then slice_index self.now address else 0) }
    {
        self.bytes.get(address as usize).copied().unwrap_or(0)
    }

    /// The number at an aligned address: 0 in ROM.
    #[inline(always)]
    pub fn read(&self, width: Width, address: u16) -> u32
        requires { IsAligned width address }
        ensures value { result ≡ (if nat_lt address 32768 then number_in self.now width address else 0) }
        ensures fits { result < 256 ^ bytes_in width }
    {
        if address as usize >= self.bytes.len() {
            return 0;
        }
        let bytes = &self.bytes[address as usize..];
        match width {
            Width::Byte => bytes[0] as u32,
            Width::Word => LittleEndian::read_u16(bytes) as u32,
            Width::Long => LittleEndian::read_u32(bytes),
        }
    }

    /// Writes a number at an aligned address: a write to ROM changes nothing.
    #[inline(always)]
    pub fn write(&mut self, width: Width, address: u16, value: u32)
        requires aligned { IsAligned width address }
        requires reduced { IsReduced width value }
        ensures { (a : ℕ) → a < 32768 → slice_index self.new a ≡ or_else (put_by (Write width address value) a) (slice_index self.old a) }
    {
        if (address as usize) < self.bytes.len() {
            put(&mut self.bytes, width, address, value);
        }
    }
}
