// Fills, moves and texts.
ghost use Rattle.std.specs.Prelude.{◌≡◌, ◌<◌, ◌≤◌, ◌%◌, ◌^◌, length};
ghost use Rattle.p8_bcog.specs.Accesses.{aligned};
ghost use Rattle.p8_bcog.specs.declared.state.SpinState.{SpinState};
ghost use Rattle.p8_bcog.specs.Moves.{count_of, fills, fill, moves, move_elements, room_from, counts, text_size, compares, text_compare};
ghost use Rattle.p8_bcog.specs.declared.step.Later.TheVariants.{Counted, Compared, ComparedWith, Fetched};
ghost use Rattle.p8_bcog.specs.Laters.{comes, later_on, reading};
ghost use Rattle.p8_bcog.specs.Ready.{IsGood, IsReady, HasRoom};

use crate::accesses::{next_address, read_of, write_of};
use crate::state::SpinState;
use crate::step::{Later, Step};
use p8_access::{Reason, Width};

/// A count: below 1, as a signed value, it is 0.
fn count_of(value: u32) -> u32
    ensures { result ≡ count_of value }
{
    if value < 0x8000_0000 { value } else { 0 }
}

/// A read of memory, or a halt where it would be of ROM.
#[inline]
fn reading(width: Width, address: u16, later: Later) -> Result<Step, Reason>
    ensures does { (s : SpinState) → comes result s ≡ reading width address later s }
    ensures good { (s : SpinState) → (aligned width address < 32768 → IsReady later s) → IsGood result s }
{
    match read_of(width, address) {
        Ok(access) => Ok(Step::Asking { access, later }),
        Err(reason) => Err(reason),
    }
}

/// The hub address that a value is taken as.
fn address_in(value: u32) -> u16
    ensures { result ≡ value % 2 ^ 16 }
{
    (value & 0xFFFF) as u16
}

impl SpinState {
    /// Writes the next of so many elements, if there is one.
    pub fn fill_on(&self, width: Width, address: u16, value: u32, left: u32) -> Result<Step, Reason>
        ensures does { comes result self.now ≡ fills width address value left self.now }
        ensures good { IsGood result self.now }
    {
        if left == 0 {
            return Ok(Step::Done);
        }
        Ok(Step::Asking {
            access: write_of(width, address, value),
            later: Later::Filled {
                width,
                address: next_address(width, address),
                value,
                left: left - 1,
            },
        })
    }

    /// BYTEFILL, WORDFILL and LONGFILL.
    #[tactic(auto, unfolding(crate::specs::Moves::fill))]
    pub fn fill(&mut self, width: Width) -> Result<Step, Reason>
        ensures does { comes result self.new ≡ fill width self.old }
        ensures good { IsGood result self.new }
    {
        self.test(3, 0)?;
        let address = address_in(self.operand(2));
        let value = self.operand(1);
        let count = count_of(self.operand(0));
        self.take(3);
        self.fill_on(width, address, value, count)
    }

    /// Reads the next of so many elements, if there is one.
    pub fn move_on(&self, width: Width, to: u16, from: u16, left: u32) -> Result<Step, Reason>
        ensures does { comes result self.now ≡ moves width to from left self.now }
        ensures good { IsGood result self.now }
    {
        if left == 0 {
            return Ok(Step::Done);
        }
        let later = Later::Fetched {
            width,
            to,
            from,
            left: left - 1,
        };
        reading(width, from, later)
    }

    /// Writes the element that was read.
    pub fn store_on(
        &self,
        width: Width,
        to: u16,
        from: u16,
        left: u32,
        element: u32,
    ) -> Result<Step, Reason>
        ensures does { comes result self.now ≡ later_on (Fetched width to from left) self.now element }
        ensures good { IsGood result self.now }
    {
        Ok(Step::Asking {
            access: write_of(width, to, element),
            later: Later::Moved {
                width,
                to: next_address(width, to),
                from: next_address(width, from),
                left,
            },
        })
    }

    /// BYTEMOVE, WORDMOVE and LONGMOVE.
    #[tactic(auto, unfolding(crate::specs::Moves::move_elements))]
    pub fn move_elements(&mut self, width: Width) -> Result<Step, Reason>
        ensures does { comes result self.new ≡ move_elements width self.old }
        ensures good { IsGood result self.new }
    {
        self.test(3, 0)?;
        let to = address_in(self.operand(2));
        let from = address_in(self.operand(1));
        let count = count_of(self.operand(0));
        self.take(3);
        self.move_on(width, to, from, count)
    }

    /// Reads the next byte of a text that has had so many.
    fn count_on(&self, address: u16, count: u32) -> Result<Step, Reason>
        requires most { count ≤ address }
        requires room { HasRoom self.now }
        ensures does { comes result self.now ≡ counts (room_from address) address count self.now }
        ensures good { IsGood result self.now }
    {
        reading(Width::Byte, address, Later::Counted { address, count })
    }

    /// Takes the byte that was read.
    pub fn count_byte(&mut self, address: u16, count: u32, byte: u32) -> Result<Step, Reason>
        requires address { address < 32768 }
        requires most { count ≤ address }
        requires room { HasRoom self.old }
        ensures does { comes result self.new ≡ later_on (Counted address count) self.old byte }
        ensures good { IsGood result self.new }
    {
        if byte == 0 {
            self.push(count);
            return Ok(Step::Done);
        }
        self.count_on(address + 1, count + 1)
    }

    /// STRSIZE.
    #[tactic(auto, unfolding(crate::specs::Moves::text_size))]
    pub fn text_size(&mut self) -> Result<Step, Reason>
        ensures does { comes result self.new ≡ text_size self.old }
        ensures good { IsGood result self.new }
    {
        self.test(1, 1)?;
        let address = address_in(self.operand(0));
        self.take(1);
        self.count_on(address, 0)
    }

    /// Reads the next byte of the first of two texts.
    fn compare_on(&self, first: u16, second: u16) -> Result<Step, Reason>
        requires room { HasRoom self.now }
        ensures does { comes result self.now ≡ compares (room_from first) first second self.now }
        ensures good { IsGood result self.now }
    {
        reading(Width::Byte, first, Later::Compared { first, second })
    }

    /// Takes the byte of the first text, and reads that of the second.
    pub fn compare_first(&self, first: u16, second: u16, byte: u32) -> Result<Step, Reason>
        requires first { first < 32768 }
        requires room { HasRoom self.now }
        ensures does { comes result self.now ≡ later_on (Compared first second) self.now byte }
        ensures good { IsGood result self.now }
    {
        let later = Later::ComparedWith {
            first,
            second,
            byte,
        };
        reading(Width::Byte, second, later)
    }

    /// Takes the byte of the second text.
    pub fn compare_second(
        &mut self,
        first: u16,
        second: u16,
        byte: u32,
        other: u32,
    ) -> Result<Step, Reason>
        requires first { first < 32768 }
        requires second { second < 32768 }
        requires room { HasRoom self.old }
        ensures does { comes result self.new ≡ later_on (ComparedWith first second byte) self.old other }
        ensures good { IsGood result self.new }
    {
        if byte == other && byte != 0 {
            return self.compare_on(first + 1, second + 1);
        }
        self.push(if byte == other { u32::MAX } else { 0 });
        Ok(Step::Done)
    }

    /// STRCOMP.
    #[tactic(auto, unfolding(crate::specs::Moves::text_compare))]
    pub fn text_compare(&mut self) -> Result<Step, Reason>
        ensures does { comes result self.new ≡ text_compare self.old }
        ensures good { IsGood result self.new }
    {
        self.test(2, 1)?;
        let first = address_in(self.operand(1));
        let second = address_in(self.operand(0));
        self.take(2);
        self.compare_on(first, second)
    }
}
