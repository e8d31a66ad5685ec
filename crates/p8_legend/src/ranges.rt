// Ranges of the hub, each with a text.
ghost use Rattle.std.specs.Prelude.{◌≡◌, ◌≤◌, [], length, OnOk};
ghost use Rattle.std.specs.Str.{str_eq_ignore_ascii_case};
ghost use Rattle.p8_legend.specs.Ranges.{AreApart, is_prop-AreApart, last_end, found_at, range_named, with_range, text_of};
ghost use Rattle.p8_legend.specs.Finding.{Splits};

use p8_tree::{List, Text};
use p8_words::NoMemory;
use std::alloc::Global;

/// Some bytes of the hub, or none.
#[derive(Clone, Copy, Debug, PartialEq, Eq)]
pub struct Range {
    /// The address of the first one.
    pub address: u16,
    /// The address after the last one.
    pub end: u16,
}

/// A range in which an address lies.
#[derive(Clone, Copy, Debug, PartialEq, Eq)]
pub struct FoundRange {
    /// How many ranges come before it.
    pub number: usize,
    /// How many bytes of it come before the address.
    pub offset: u16,
}

/// Ranges of the hub in ascending order, no two of which overlap, with a text for each.
#[derive(Drop)]
pub struct Ranges {
    pub ranges: List<Range>,
    pub texts: List<Text>,
    ghost apart: { AreApart 0 ranges } by { is_prop-AreApart 0 ranges },
}

impl Ranges {
    /// No range. It takes no memory.
    pub fn new(alloc: Global) -> Ranges
        ensures ranges { result.ranges ≡ [] }
        ensures texts { result.texts ≡ [] }
    {
        Ranges {
            ranges: List::new(alloc),
            texts: List::new(alloc),
        }
    }

    /// Puts a range with its text behind the others; it may have no byte. One that begins before the last one ends is left out, and one that ends before it
    /// begins.
    pub fn push(&mut self, range: Range, text: Text) -> Result<(), NoMemory>
        ensures { OnOk result ((self.new.ranges, self.new.texts) ≡ with_range self.old.ranges self.old.texts range text) }
    {
        if range.address < self.end() || range.end < range.address {
            return Ok(());
        }
        self.texts.push(text)?;
        self.ranges.push(range)?;
        Ok(())
    }

    /// Where the last range ends; 0 where there is none.
    fn end(&self) -> u16
        ensures { result ≡ last_end 0 self.now.ranges }
    {
        match self.ranges.as_slice().last() {
            Some(range) => range.end,
            None => 0,
        }
    }

    /// The range in which an address lies. It takes the logarithm of the number of ranges.
    pub fn find(&self, address: u16) -> Option<FoundRange>
        ensures { result ≡ found_at self.now.ranges address }
    {
        let begun = self.begun_by(address);
        if begun == 0 {
            return None;
        }
        let range = self.ranges.as_slice()[begun - 1];
        if address < range.end {
            Some(FoundRange {
                number: begun - 1,
                offset: address - range.address,
            })
        } else {
            None
        }
    }

    /// How many ranges begin at or before an address.
    fn begun_by(&self, address: u16) -> usize
        ensures within { result ≤ length self.now.ranges }
        ensures begun { Splits self.now.ranges address result }
    {
        self.ranges
            .as_slice()
            .partition_point(|range| range.address <= address)
    }

    /// The text of the range of this number; nothing where there is none.
    pub fn text(&self, number: usize) -> &[u8]
        ensures { result.now ≡ text_of self.now.texts number }
    {
        match self.texts.as_slice().get(number) {
            Some(text) => text.as_slice(),
            None => &[],
        }
    }

    /// The first range with this text, where letters in either case are the same: its address, and how many bytes it has. None where no
    /// range has this text. It takes time in proportion to the ranges.
    pub fn range_of(&self, name: &[u8]) -> Option<(u16, u16)>
        ensures { result ≡ range_named self.now.ranges self.now.texts name.now }
    {
        first_named(self.ranges.as_slice(), self.texts.as_slice(), name)
    }
}

/// The address and the bytes of the first range with this text, letters in either case.
fn first_named(mut ranges: &[Range], mut texts: &[Text], name: &[u8]) -> Option<(u16, u16)>
    ensures { result ≡ range_named ranges.now texts.now name.now }
{
    while let [range, rest @ ..] = ranges {
        let [text, others @ ..] = texts else {
            return None;
        };
        if is_named(text.as_slice(), name) {
            return Some((range.address, range.end.saturating_sub(range.address)));
        }
        ranges = rest;
        texts = others;
    }
    None
}

/// Whether a text is a name, letters in either case.
fn is_named(text: &[u8], name: &[u8]) -> bool
    ensures { result ≡ str_eq_ignore_ascii_case text.now name.now }
{
    text.eq_ignore_ascii_case(name)
}
