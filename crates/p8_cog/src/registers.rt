// The registers of a cog.
ghost use Rattle.std.specs.Prelude.{◌≡◌, ◌<◌, ◌+◌, ◌++◌, ◌∷◌, [], length, take, slice_index, slice_set, replicate, if◌then◌else◌};

use p8_words::NoMemory;
use std::alloc::Global;
use std::marker::Model;

/// The 512 longs of a cog: $000 to $1EF are general, $1F0 to $1FF are the shadows of the special ones.
#[derive(Drop)]
pub struct Registers {
    longs: Box<[u32; 512]>,
}

impl Model for Registers {
    ghost use Rattle.std.specs.Prelude.{◌≡◌, ℕ, List, length};

    ghost Value = { List ℕ };

    ghost view = { λ r. r.longs.value };

    ghost invariant = { λ r. length r.longs.value ≡ 512 };
}

/// How many longs a cog loads.
pub const LOADED_LONGS: u16 = 496;

/// Puts 0 into the last 16.
fn clear_special(all: &mut [u32])
    requires { length all.old ≡ 512 }
    ensures cleared { all.new ≡ take 496 all.old ++ replicate 16 0 }
    ensures length { length all.new ≡ 512 }
{
    let (_, special) = all.split_at_mut(496);
    special.copy_from_slice(&[0; 16]);
}

impl Registers {
    /// Registers with 0 in each.
    pub fn new(alloc: Global) -> Result<Registers, NoMemory> {
        match Box::new(alloc, [0; 512]) {
            Ok(longs) => Ok(Registers { longs }),
            Err(_) => Err(NoMemory),
        }
    }

    /// Puts 0 into the special registers, the last 16.
    pub fn clear_special(&mut self)
        ensures { self.new ≡ take 496 self.old ++ replicate 16 0 }
    {
        clear_special(&mut self.longs[..]);
    }

    /// Writes a register after those that were loaded.
    pub fn load(&mut self, register: u16, value: u32)
        requires { register < 512 }
        ensures { take (register + 1) self.new ≡ take register self.old ++ value ∷ [] }
    {
        self.longs[register as usize] = value;
    }

    /// The long in a register.
    #[inline(always)]
    pub fn get(&self, register: u32) -> u32
        requires { register < 512 }
        ensures { result ≡ slice_index self.now register }
    {
        self.longs[register as usize]
    }

    /// Writes a register.
    #[inline(always)]
    pub fn set(&mut self, register: u32, value: u32)
        requires { register < 512 }
        ensures { self.new ≡ slice_set self.old register value }
    {
        self.longs[register as usize] = value;
    }

    /// Writes a register where the flag is set.
    #[inline(always)]
    pub fn set_where(&mut self, flag: bool, register: u32, value: u32)
        requires { register < 512 }
        ensures { self.new ≡ (if flag then slice_set self.old register value else self.old) }
    {
        if flag {
            self.set(register, value);
        }
    }
}
