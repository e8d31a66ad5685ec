// Accesses of memory, and the words of answers.
ghost use Rattle.std.specs.Prelude.{◌≡◌, ◌%◌, ◌^◌, true, false, IfOk, IfErr};
ghost use Rattle.p8_access.specs.declared.kinds.Reason.TheVariants as Why;
ghost use Rattle.p8_access.specs.Proper.{IsAligned, IsReduced, bytes_in};
ghost use Rattle.p8_access.specs.Lives.{IsMade};
ghost use Rattle.p8_bcog.specs.Accesses.{word_in, aligned, read_of, is_readable, write_of, next_address};

use p8_access::{Access, Answer, Reason, Width};

/// The word that an answer is for a bytecode.
pub fn word_in(answer: Answer) -> u32
    ensures { result ≡ word_in answer }
{
    match answer {
        Answer::Value(value) => value,
        Answer::Number(Some(n)) => u32::from(n),
        Answer::Number(None) => u32::MAX,
        Answer::Was(set) => { if set { u32::MAX } else { 0 } }
        Answer::Done => 0,
    }
}

/// A hub address, rounded down to a multiple of the width.
pub fn aligned(width: Width, address: u16) -> u16
    ensures address { result ≡ aligned width address }
    ensures aligned { IsAligned width result }
{
    match width {
        Width::Byte => address,
        Width::Word => address / 2 * 2,
        Width::Long => address / 4 * 4,
    }
}

/// A value reduced to a width.
fn reduced(width: Width, value: u32) -> u32
    ensures reduced { result ≡ value % 256 ^ bytes_in width }
    ensures below { IsReduced width result }
{
    match width {
        Width::Byte => value & 0xFF,
        Width::Word => value & 0xFFFF,
        Width::Long => value,
    }
}

/// A read of hub RAM; the error is that the address is in ROM, from $8000 on.
pub fn read_of(width: Width, address: u16) -> Result<Access, Reason>
    ensures access { IfOk result (λ access. access ≡ read_of width address) }
    ensures made { IfOk result (λ access. IsMade access) }
    ensures readable { IfOk result (λ _. is_readable width address ≡ true) }
    ensures rom { IfErr result (λ reason. reason ≡ Why.Rom (aligned width address)) }
    ensures unreadable { IfErr result (λ _. is_readable width address ≡ false) }
{
    let address = aligned(width, address);
    if address < 0x8000 {
        Ok(Access::Read { width, address })
    } else {
        Err(Reason::Rom(address))
    }
}

/// A write of a value that is reduced to the width.
pub fn write_of(width: Width, address: u16, value: u32) -> Access
    ensures access { result ≡ write_of width address value }
    ensures made { IsMade result }
{
    Access::Write {
        width,
        address: aligned(width, address),
        value: reduced(width, value),
    }
}

/// The address of the next element of a row.
pub fn next_address(width: Width, address: u16) -> u16
    ensures { result ≡ next_address width address }
{
    match width {
        Width::Byte => address.wrapping_add(1),
        Width::Word => address.wrapping_add(2),
        Width::Long => address.wrapping_add(4),
    }
}
