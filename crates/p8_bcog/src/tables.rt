// The tables of a program.
ghost use Rattle.std.specs.Prelude.{◌≡◌, ◌<◌, ◌≤◌, ◌+◌, ◌*◌, ◌%◌, ◌^◌, true};
ghost use Rattle.p8_bcog.specs.Code.{byte_at, word_at, code_end, method_end, object_end, is_method, is_object, first_word, second_word, object_base};
ghost use Rattle.p8_bcog.specs.Code.{object_variables, method_at};

use crate::step::Callee;

/// A byte of the memory; from $8000 on there is 0.
fn byte_at(memory: &[u8], address: u16) -> u8
    ensures { result ≡ byte_at memory.now address }
{
    match memory.get(usize::from(address)) {
        Some(byte) => *byte,
        None => 0,
    }
}

/// A word of the memory.
fn word_at(memory: &[u8], address: u16) -> u16
    ensures { result ≡ word_at memory.now address }
{
    let low = u16::from(byte_at(memory, address));
    let high = u16::from(byte_at(memory, address.wrapping_add(1)));
    low + 256 * high
}

/// Where the code ends.
pub fn code_end(memory: &[u8]) -> usize
    ensures end { result ≡ code_end memory.now }
    ensures most { result ≤ 32768 }
{
    usize::from(word_at(memory, 8)).min(32768)
}

/// Where the numbers of an object's methods end.
fn method_end(memory: &[u8], pbase: u16) -> u32
    ensures end { result ≡ method_end memory.now pbase }
    ensures most { result < 256 }
{
    u32::from(byte_at(memory, pbase.wrapping_add(2)))
}

/// Where the places of an object's objects end.
fn object_end(memory: &[u8], pbase: u16) -> u32
    ensures end { result ≡ object_end memory.now pbase }
    ensures most { result < 512 }
{
    method_end(memory, pbase) + u32::from(byte_at(memory, pbase.wrapping_add(3)))
}

/// Whether an object has a method with this number.
pub fn is_method(memory: &[u8], pbase: u16, m: u32) -> bool
    ensures { result ≡ is_method memory.now pbase m }
{
    m >= 1 && m < method_end(memory, pbase)
}

/// Whether an object has an object at this place.
pub fn is_object(memory: &[u8], pbase: u16, o: u32) -> bool
    ensures is { result ≡ is_object memory.now pbase o }
    ensures below { result ≡ true → o < 512 }
{
    o >= method_end(memory, pbase) && o < object_end(memory, pbase)
}

/// The address of an entry of a table.
fn entry_at(pbase: u16, entry: u32) -> u16
    requires { entry < 512 }
    ensures { result ≡ (pbase + 4 * entry) % 2 ^ 16 }
{
    pbase.wrapping_add((4 * entry) as u16)
}

/// The first word of an entry.
fn first_word(memory: &[u8], pbase: u16, entry: u32) -> u16
    requires { entry < 512 }
    ensures { result ≡ first_word memory.now pbase entry }
{
    word_at(memory, entry_at(pbase, entry))
}

/// The second word of an entry.
fn second_word(memory: &[u8], pbase: u16, entry: u32) -> u16
    requires { entry < 512 }
    ensures { result ≡ second_word memory.now pbase entry }
{
    word_at(memory, entry_at(pbase, entry).wrapping_add(2))
}

/// The base of an object.
pub fn object_base(memory: &[u8], pbase: u16, o: u32) -> u16
    requires { o < 512 }
    ensures { result ≡ object_base memory.now pbase o }
{
    pbase.wrapping_add(first_word(memory, pbase, o))
}

/// The base of an object's variables.
pub fn object_variables(memory: &[u8], pbase: u16, vbase: u16, o: u32) -> u16
    requires { o < 512 }
    ensures { result ≡ object_variables memory.now pbase vbase o }
{
    vbase.wrapping_add(second_word(memory, pbase, o))
}

/// A method of an object.
pub fn method_at(memory: &[u8], pbase: u16, vbase: u16, m: u32) -> Callee
    requires { m < 256 }
    ensures { result ≡ method_at memory.now pbase vbase m }
{
    Callee {
        entry: pbase.wrapping_add(first_word(memory, pbase, m)),
        pbase,
        vbase,
        locals: second_word(memory, pbase, m),
    }
}
