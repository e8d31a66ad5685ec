// What is put, and the first fault that is found.
ghost use Rattle.std.specs.Prelude.{◌≡◌, ◌-◌, ◌≤◌, ◌++◌, min, OnOk};
ghost use Rattle.p8_tree.specs.Faults.{first_of_two};
ghost use Rattle.p8_dat.specs.Spots.{limit};
ghost use Rattle.p8_dat.specs.Bytes.{element, zeros};

use crate::spots::{LIMIT, Spot};
use p8_tree::{Fault, first_of_two};
use std::alloc::AllocError;

// The bytes so far, and the first fault so far.
#[derive(Drop)]
pub(crate) struct Output {
    pub(crate) bytes: Vec<u8>,
    pub(crate) fault: Option<Fault>,
}

// How many bytes of an element stand below the limit.
fn room(size: u8, at: Spot) -> usize
    ensures value { result ≡ min (min size 4) (limit - at.offset) }
    ensures fits { result ≤ 4 }
{
    usize::from(size.min(4)).min(LIMIT.saturating_sub(at.offset) as usize)
}

impl Output {
    // Notes a fault, if there is one.
    pub(crate) fn tell(&mut self, fault: Option<Fault>)
        ensures fault { self.new.fault ≡ first_of_two self.old.fault fault }
        ensures bytes { self.new.bytes ≡ self.old.bytes }
    {
        self.fault = first_of_two(self.fault, fault);
    }

    // Puts an element of 1, 2 or 4 bytes.
    pub(crate) fn put(&mut self, size: u8, value: u32, at: Spot) -> Result<(), AllocError>
        ensures bytes { OnOk result (self.new.bytes.items ≡ self.old.bytes.items ++ element size value at) }
        ensures fault { self.new.fault ≡ self.old.fault }
    {
        let bytes = value.to_le_bytes();
        self.bytes.extend_from_slice(&bytes[..room(size, at)])?;
        Ok(())
    }

    // Puts zero bytes.
    pub(crate) fn put_zeros(&mut self, count: u32) -> Result<(), AllocError>
        ensures bytes { OnOk result (self.new.bytes.items ≡ self.old.bytes.items ++ zeros count) }
        ensures fault { self.new.fault ≡ self.old.fault }
    {
        let mut left = count;
        while left > 0 {
            self.bytes.push(0)?;
            left -= 1;
        }
        Ok(())
    }
}
