// The hub memory that a run begins with.
ghost use Rattle.std.specs.Prelude.{◌≡◌, ◌≤◌, ◌-◌, ◌++◌, length, replicate, IfOk};
ghost use Rattle.p8_access.specs.declared.kinds.Origin.TheVariants.{Pasm};
ghost use Rattle.p8_access.specs.Boots.{ram_of};

use crate::kinds::Origin;
use p8_words::NoMemory;
use std::alloc::{AllocError, Global};
use std::marker::Model;

/// The 32,768 bytes of hub RAM that a run begins with, from address $0000 to $7FFF.
///
/// They never change, so several may share them. Their block stays taken until the program ends.
#[derive(Drop)]
pub struct Ram {
    bytes: &'static [u8],
}

impl Model for Ram {
    ghost use Rattle.std.specs.Prelude.{◌≡◌, ℕ, List, length};

    ghost Value = { List ℕ };

    ghost view = { λ r. r.bytes.now };

    ghost invariant = { λ r. length r.bytes.now ≡ 32768 };
}

/// These bytes, and 0 after them up to a size.
fn padded(alloc: Global, bytes: &[u8], size: usize) -> Result<Vec<u8>, AllocError>
    requires { length bytes.now ≤ size }
    ensures padded { IfOk result (λ all. all.items ≡ bytes.now ++ replicate (size - length bytes.now) 0) }
    ensures length { IfOk result (λ all. length all.items ≡ size) }
{
    let mut all = bytes.to_vec(alloc)?;
    all.resize(size, 0)?;
    Ok(all)
}

impl Ram {
    /// A memory of these bytes from address 0 on, and 0 after them.
    pub fn new(alloc: Global, bytes: &[u8]) -> Result<Ram, NoMemory>
        requires { length bytes.now ≤ 32768 }
        ensures { IfOk result (λ ram. ram ≡ ram_of bytes.now) }
    {
        let bytes: &'static [u8] = padded(alloc, bytes, 32768)?.leak();
        Ok(Ram { bytes })
    }

    /// The same memory once more. Nothing is copied, and no memory is taken.
    pub fn share(&self) -> Ram
        ensures { result ≡ self.now }
    {
        Ram { bytes: self.bytes }
    }

    /// All bytes.
    pub fn bytes(&self) -> &[u8]
        ensures bytes { result.now ≡ self.now }
        ensures length { length self.now ≡ 32768 }
    {
        self.bytes
    }
}

/// What a run begins with: the hub's memory and what cog 0 is started with.
#[derive(Drop)]
pub struct Boot {
    pub ram: Ram,
    pub first: Origin,
}

impl Boot {
    /// The boot of a file that is taken as hub memory from address 0 on: cog 0 starts as PASM with
    /// its code at $0000 and PAR 0. The file has at most 32,768 bytes.
    pub fn raw(alloc: Global, bytes: &[u8]) -> Result<Boot, NoMemory>
        requires { length bytes.now ≤ 32768 }
        ensures ram { IfOk result (λ boot. boot.ram ≡ ram_of bytes.now) }
        ensures first { IfOk result (λ boot. boot.first ≡ Pasm 0 0) }
    {
        Ok(Boot {
            ram: Ram::new(alloc, bytes)?,
            first: Origin::Pasm { code: 0, par: 0 },
        })
    }
}
