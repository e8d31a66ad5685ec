// The legend of a program.
ghost use Rattle.std.specs.Prelude.{◌≡◌, ◌++◌, [], OnOk};
ghost use Rattle.p8_legend.specs.Legends.{address_text, local_at, offset_text, place_text};
ghost use Rattle.p8_legend.specs.Ranges.{range_named};

use crate::ranges::Ranges;
use itoa::Buffer;
use p8_instr::{push_text, word_digits};
use p8_words::NoMemory;
use std::alloc::Global;

/// What is known of a program beside its image: the names of what stands in the hub, and the places of its code.
///
/// A program of which nothing is known, as an image or raw memory, has the empty legend.
#[derive(Drop)]
pub struct Legend {
    /// The names of variables, of labels and of methods' codes.
    pub names: Ranges,
    /// For each bytecode the place of its statement: `FILE:LINE METHOD`.
    pub places: Ranges,
    /// For each line of DAT its place: `FILE:LINE`.
    pub lines: Ranges,
    /// For each bytecode what it names in the frame of its method, `METHOD.NAME`: its result, a parameter or a local. It is empty where
    /// the bytecode names nothing there by itself.
    pub locals: Ranges,
}

impl Legend {
    /// The legend of a program of which nothing is known. It takes no memory.
    pub fn empty(alloc: Global) -> Legend
        ensures names { result.names.ranges ≡ [] }
        ensures places { result.places.ranges ≡ [] }
        ensures lines { result.lines.ranges ≡ [] }
        ensures locals { result.locals.ranges ≡ [] }
        ensures texts { (result.names.texts ≡ []) × (result.places.texts ≡ []) × (result.lines.texts ≡ []) × (result.locals.texts ≡ []) }
    {
        Legend {
            names: Ranges::new(alloc),
            places: Ranges::new(alloc),
            lines: Ranges::new(alloc),
            locals: Ranges::new(alloc),
        }
    }

    /// Appends an address: the name of the range in which it lies, with `+` and how many bytes of it come before, where there are any; or
    /// four hexadecimal digits. The only error is want of memory.
    pub fn push_address(&self, out: &mut Vec<u8>, address: u16) -> Result<(), NoMemory>
        ensures { OnOk result (out.new.items ≡ out.old.items ++ address_text self.now.names address) }
    {
        push_address(&self.names, out, address)
    }

    /// The address of the variable, the label or the method's code of this name, and how many bytes it has. Letters in either case are the
    /// same. Of names that stand more than once it is the first one, in the order of addresses; none where there is none.
    pub fn range_of(&self, name: &[u8]) -> Option<(u16, u16)>
        ensures { result ≡ range_named self.now.names.ranges self.now.names.texts name.now }
    {
        self.names.range_of(name)
    }

    /// What the bytecode at an address names in the frame of its method, by itself and without an index: `METHOD.NAME`, with `+` and how many
    /// bytes of it come before, where there are any. It is empty where the bytecode names nothing there, and where none is known.
    pub fn local(&self, counter: Option<u16>) -> &[u8]
        ensures { result.now ≡ local_at self.now.locals counter }
    {
        let Some(address) = counter else {
            return &[];
        };
        match self.locals.find(address) {
            None => &[],
            Some(found) => self.locals.text(found.number),
        }
    }

    /// Appends a space and the place of the bytecode that stands at an address; nothing where none is known. The only error is want of
    /// memory.
    pub fn push_place(&self, out: &mut Vec<u8>, counter: Option<u16>) -> Result<(), NoMemory>
        ensures { OnOk result (out.new.items ≡ out.old.items ++ place_text self.now.places counter) }
    {
        push_found(out, &self.places, counter)
    }

    /// Appends a space and the place of the line of DAT that has an address; nothing where none is known. The only error is want of memory.
    pub fn push_line(&self, out: &mut Vec<u8>, counter: Option<u16>) -> Result<(), NoMemory>
        ensures { OnOk result (out.new.items ≡ out.old.items ++ place_text self.now.lines counter) }
    {
        push_found(out, &self.lines, counter)
    }
}

/// Appends a space and the text of the range that has an address; nothing where there is none.
fn push_found(out: &mut Vec<u8>, places: &Ranges, counter: Option<u16>) -> Result<(), NoMemory>
    ensures { OnOk result (out.new.items ≡ out.old.items ++ place_text places.now counter) }
{
    let Some(address) = counter else {
        return Ok(());
    };
    match places.find(address) {
        None => Ok(()),
        Some(found) => {
            push_text(out, b" ")?;
            push_text(out, places.text(found.number))
        }
    }
}

/// Appends an address by the name of the range in which it lies, with `+` and how many bytes of it come before, where there are any; or in four
/// hexadecimal digits. The only error is want of memory.
pub fn push_address(names: &Ranges, out: &mut Vec<u8>, address: u16) -> Result<(), NoMemory>
    ensures { OnOk result (out.new.items ≡ out.old.items ++ address_text names.now address) }
{
    match names.find(address) {
        None => push_text(out, &word_digits(u32::from(address))),
        Some(found) => {
            push_text(out, names.text(found.number))?;
            push_offset(out, u64::from(found.offset))
        }
    }
}

/// Appends how many bytes of what a name names come before.
pub(crate) fn push_offset(out: &mut Vec<u8>, offset: u64) -> Result<(), NoMemory>
    ensures { OnOk result (out.new.items ≡ out.old.items ++ offset_text offset) }
{
    if offset == 0 {
        return Ok(());
    }
    push_text(out, b"+")?;
    push_text(out, Buffer::new().format(offset).as_bytes())
}
