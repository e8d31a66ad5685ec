// Clocks in decimal digits. Most clocks of a history share all but their last four digits with the one before.
ghost use Rattle.std.specs.Prelude.{◌≡◌, ◌<◌, ◌≤◌, ◌+◌, ◌*◌, ◌/◌, ◌%◌, ◌++◌, ◌∷◌, ◌^◌, [], length, take};
ghost use Rattle.std.specs.Fmt.{decimal};

use crate::line::{PAGE, write_text};
use itoa::Buffer;

/// The numbers from 0 to 99, in two decimal digits each.
static PAIRS: [u8; 200] = *b"00010203040506070809101112131415161718192021222324\
      2526272829303132333435363738394041424344454647484950\
      5152535455565758596061626364656667686970717273747576\
      77787980818283848586878889909192939495969798\
      99";

/// Writes a number below 100 in two digits.
#[inline(always)]
fn write_pair(page: &mut [u8; PAGE], at: usize, number: u32) -> usize
    requires room { at + 2 ≤ 4096 }
    requires number { number < 100 }
    ensures end { result ≡ at + 2 }
    ensures text { take result page.new ≡ take at page.old ++ (48 + number / 10) ∷ (48 + number % 10) ∷ [] }
{
    let from = 2 * number as usize;
    write_text(page, at, &[PAIRS[from], PAIRS[from + 1]])
}

/// The digits of a clock but for the last four.
#[derive(Drop)]
pub struct Front {
    /// The least clock that has them.
    first: u64,
    digits: [u8; 16],
    count: usize,
    ghost whole: { first % 10000 ≡ 0 },
    ghost some: { 10000 ≤ first },
    ghost length: { length digits ≡ 16 },
    ghost room: { count ≤ 16 },
    ghost shared: { take count digits ≡ decimal (first / 10000) },
}

/// At most 16 digits with others after them, and how many they are.
fn padded(text: &[u8]) -> ([u8; 16], usize)
    requires { length text.now ≤ 16 }
    ensures length { length result.0 ≡ 16 }
    ensures count { result.1 ≡ length text.now }
    ensures digits { take result.1 result.0 ≡ text.now }
{
    let mut digits = [b'0'; 16];
    let mut count = 0;
    for digit in text {
        digits[count] = *digit;
        count += 1;
    }
    (digits, count)
}

impl Front {
    /// The front of the clocks from this number times 10,000 on.
    fn of(front: u64) -> Front
        requires some { 1 ≤ front }
        requires room { 10000 * front < 2 ^ 64 }
        ensures { result.first ≡ 10000 * front }
    {
        let (digits, count) = padded(Buffer::new().format(front).as_bytes());
        Front {
            first: 10_000 * front,
            digits,
            count,
        }
    }

    /// Some front.
    pub fn new() -> Front {
        Front::of(1)
    }

    /// Writes a clock that has other digits in front than the last one.
    #[inline(never)]
    fn write_anew(&mut self, page: &mut [u8; PAGE], at: usize, clock: u64) -> usize
        requires { at + 20 ≤ 4096 }
        ensures end { result ≤ at + 20 }
        ensures text { take result page.new ≡ take at page.old ++ decimal clock }
    {
        if clock >= 10_000 {
            *self = Front::of(clock / 10_000);
        }
        write_text(page, at, Buffer::new().format(clock).as_bytes())
    }

    /// Writes the front.
    #[inline(always)]
    fn write_front(&self, page: &mut [u8; PAGE], at: usize) -> usize
        requires { at + 16 ≤ 4096 }
        ensures end { result ≤ at + 16 }
        ensures text { take result page.new ≡ take at page.old ++ decimal (self.now.first / 10000) }
    {
        write_text(page, at, &self.digits);
        at + self.count
    }

    /// Writes a clock in decimal digits.
    #[inline(always)]
    pub fn write_clock(&mut self, page: &mut [u8; PAGE], at: usize, clock: u64) -> usize
        requires { at + 20 ≤ 4096 }
        ensures end { result ≤ at + 20 }
        ensures text { take result page.new ≡ take at page.old ++ decimal clock }
    {
        if self.first <= clock && clock - self.first < 10_000 {
            let last = (clock - self.first) as u32;
            let at = self.write_front(page, at);
            let at = write_pair(page, at, last / 100);
            write_pair(page, at, last % 100)
        } else {
            self.write_anew(page, at, clock)
        }
    }
}
