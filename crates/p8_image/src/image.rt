// Images, and loading them.
ghost use Rattle.std.specs.Prelude.{◌≡◌, ◌≤◌, ◌+◌, ◌-◌, ◌%◌, ◌++◌, ◌<◌, length, replicate, slice_set, sum, take, Some, None, IfOk, OnOk, IfErr};
ghost use Rattle.p8_access.specs.Proper.{IsProperOrigin};
ghost use Rattle.p8_image.specs.Headers.{header_of};
ghost use Rattle.p8_image.specs.Loading.{first_fault, eeprom_fault, first_unmet, header_demands, ends_at_a_long, IsImage, IsEeprom, IsRefusal};
ghost use Rattle.p8_image.specs.Loading.{image_in, image_in_eeprom, binary_of, memory_of, with_checksum, start_of, frame_mark};

use crate::faults::{Field, LoadFault};
use crate::header::{HEADER_BYTES, Header};
use byteorder::{ByteOrder, LittleEndian};
use p8_access::{Boot, Origin, Ram};
use p8_words::{Fail, NoMemory};
use std::alloc::{AllocError, Global};
use std::marker::Model;

/// How many bytes the hub's memory has.
const HUB_BYTES: usize = 32_768;

/// The sum of the bytes of an image, mod 256.
pub(crate) const CHECKSUM: u8 = 0x14;

/// The long that stands twice below the first frame.
const FRAME_MARK: u32 = 0xFFF9_FFFF;

/// The sum of these bytes, mod 256. There are at most 32,768.
pub(crate) fn checksum(bytes: &[u8]) -> u8
    requires { length bytes.now ≤ 32768 }
    ensures { result ≡ sum bytes.now % 256 }
{
    let sum: u32 = bytes.iter().map(|byte| u32::from(*byte)).sum();
    (sum % 256) as u8
}

/// The first fault of a header. `ends` tells whether the objects end where they may.
fn header_fault(header: Header, ends: bool) -> Option<LoadFault>
    ensures { result ≡ first_unmet (header_demands header ends) }
{
    let Header {
        pbase,
        vbase,
        dbase,
        pcurr,
        dcurr,
    } = header;
    let field = if pbase != 0x10 {
        Field::Pbase
    } else if !ends {
        Field::Vbase
    } else if u32::from(dbase) < u32::from(vbase) + 8 || dbase > 32_764 || dbase % 4 != 0 {
        Field::Dbase
    } else if pcurr < 24 || pcurr >= vbase {
        Field::Pcurr
    } else if dcurr < dbase + 4 || dcurr > 32_768 || dcurr % 4 != 0 {
        Field::Dcurr
    } else {
        return None;
    };
    Some(LoadFault::BadHeader { field })
}

/// The first fault of a `.binary` file, if it is none.
fn first_fault(bytes: &[u8]) -> Option<LoadFault>
    ensures { result ≡ first_fault bytes.now }
{
    let length = bytes.len();
    if length < HEADER_BYTES || length > HUB_BYTES || length % 4 != 0 {
        return Some(LoadFault::BadLength { length });
    }
    let sum = checksum(bytes);
    if sum != CHECKSUM {
        return Some(LoadFault::BadChecksum { sum });
    }
    let header = Header::read(bytes);
    header_fault(header, usize::from(header.vbase) == length)
}

/// The first fault of an `.eeprom` file, if it is none.
fn eeprom_fault(bytes: &[u8]) -> Option<LoadFault>
    ensures { result ≡ eeprom_fault bytes.now }
{
    let length = bytes.len();
    if length != HUB_BYTES {
        return Some(LoadFault::BadLength { length });
    }
    let sum = checksum(bytes);
    if sum != 0 {
        return Some(LoadFault::BadChecksum { sum });
    }
    let header = Header::read(bytes);
    header_fault(header, header.vbase >= 16 && header.vbase % 4 == 0)
}

/// The image of a program: the bytes of a `.binary` file, and the memory that a run of it begins with.
#[derive(Drop)]
pub struct Image {
    bytes: Vec<u8>,
    /// The memory, where it was given whole by an `.eeprom` file; else it follows from the bytes.
    memory: Option<Vec<u8>>,
}

impl Model for Image {
    ghost use Rattle.std.specs.Prelude.{◌≡◌, length};
    ghost use Rattle.p8_image.specs.Headers.{header_of};
    ghost use Rattle.p8_image.specs.Loading.{IsImage, ImageValue};
    ghost use Rattle.p8_image.specs.Images.{memory_in};

    ghost Value = { ImageValue };

    ghost view = { λ image. record { file = image.bytes.items; memory = memory_in image.bytes.items image.memory } };

    ghost invariant = { λ image. IsImage image.bytes.items × (length (memory_in image.bytes.items image.memory) ≡ 32768) ×
        (header_of (memory_in image.bytes.items image.memory) ≡ header_of image.bytes.items) };
}

/// The image that a `.binary` file holds.
///
/// # Errors
///
/// `Refused` exactly where the file is no image, with its first fault: of its length, then of the sum of its bytes, then of
/// the places in its header, in their order. `NoMemory` where there is no memory for the bytes.
pub fn load(alloc: Global, bytes: &[u8]) -> Result<Image, Fail<LoadFault>>
    ensures image { IfOk result (λ image. image ≡ image_in bytes.now) }
    ensures good { OnOk result (IsImage bytes.now) }
    ensures refused { IfErr result (IsRefusal (first_fault bytes.now)) }
{
    match first_fault(bytes) {
        Some(fault) => Err(Fail::Refused(fault)),
        None => Ok(Image::from_vec(bytes.to_vec(alloc)?)),
    }
}

/// The image that an `.eeprom` file holds: the whole memory that a run begins with.
///
/// # Errors
///
/// `Refused` exactly where the file is none, with its first fault: of its length, which is 32,768 bytes, then of the sum of its
/// bytes, which is 0 mod 256, then of the places in its header, in their order. `NoMemory` where there is no memory for the bytes.
pub fn load_eeprom(alloc: Global, bytes: &[u8]) -> Result<Image, Fail<LoadFault>>
    ensures image { IfOk result (λ image. image ≡ image_in_eeprom bytes.now) }
    ensures good { OnOk result (IsEeprom bytes.now) }
    ensures refused { IfErr result (IsRefusal (eeprom_fault bytes.now)) }
{
    match eeprom_fault(bytes) {
        Some(fault) => Err(Fail::Refused(fault)),
        None => Ok(Image {
            bytes: binary_in(alloc, bytes)?,
            memory: Some(bytes.to_vec(alloc)?),
        }),
    }
}

/// The `.binary` file of an `.eeprom` file.
fn binary_in(alloc: Global, memory: &[u8]) -> Result<Vec<u8>, NoMemory>
    requires { IsEeprom memory.now }
    ensures { IfOk result (λ bytes. bytes.items ≡ binary_of memory.now) }
{
    let end = usize::from(Header::read(memory).vbase);
    let mut bytes = memory[..end].to_vec(alloc)?;
    bytes[5] = 0;
    Ok(finished(bytes))
}

/// An image with the checksum that makes all bytes add to $14, of one that has 0 in its place.
pub(crate) fn finished(mut bytes: Vec<u8>) -> Vec<u8>
    requires header { 16 ≤ length bytes.items }
    requires hub { length bytes.items ≤ 32768 }
    ensures { result.items ≡ slice_set bytes.items 5 ((0x14 + 256 - sum bytes.items % 256) % 256) }
{
    let checksum = checksum_for(&bytes);
    bytes[5] = checksum;
    bytes
}

/// The last eight bits of the number that makes these bytes add to $14.
fn checksum_for(bytes: &[u8]) -> u8
    requires { length bytes.now ≤ 32768 }
    ensures { result ≡ (0x14 + 256 - sum bytes.now % 256) % 256 }
{
    CHECKSUM.wrapping_sub(checksum(bytes))
}

impl Image {
    /// The image that these bytes of a `.binary` file are.
    pub(crate) fn from_vec(bytes: Vec<u8>) -> Image
        requires { IsImage bytes.items }
        ensures { result ≡ image_in bytes.items }
    {
        Image {
            bytes,
            memory: None,
        }
    }

    /// The bytes as a `.binary` file. Of an `.eeprom` file these are the ones below vbase, with the checksum that makes them add to $14.
    pub fn bytes(&self) -> &[u8]
        ensures bytes { result.now ≡ self.now.file }
        ensures image { IsImage self.now.file }
    {
        &self.bytes
    }

    /// The bytes as an `.eeprom` file: the 32,768 bytes of the memory that a run begins with.
    ///
    /// # Errors
    ///
    /// `NoMemory` where there is no memory for them.
    pub fn eeprom(&self, alloc: Global) -> Result<Vec<u8>, NoMemory>
        ensures memory { IfOk result (λ bytes. bytes.items ≡ self.now.memory) }
    {
        match &self.memory {
            Some(memory) => Ok(memory.to_vec(alloc)?),
            None => memory_of(alloc, &self.bytes),
        }
    }

    /// What a run of this image begins with: its memory, and cog 0 started as Spin with the first method of the first object. The
    /// memory of a `.binary` file is its bytes from address $0000 on, the long $FFF9FFFF at dbase - 8 and at dbase - 4, and zeros
    /// elsewhere; that of an `.eeprom` file is the file.
    ///
    /// # Errors
    ///
    /// `NoMemory` where there is no memory for it.
    pub fn boot(&self, alloc: Global) -> Result<Boot, NoMemory>
        ensures ram { IfOk result (λ boot. boot.ram ≡ self.now.memory) }
        ensures first { IfOk result (λ boot. boot.first ≡ start_of (header_of self.now.memory)) }
        ensures proper { IfOk result (λ boot. IsProperOrigin boot.first) }
    {
        let header = Header::read(&self.bytes);
        Ok(Boot {
            ram: Ram::new(alloc, &self.eeprom(alloc)?)?,
            first: Origin::Spin {
                entry: header.pcurr,
                pbase: header.pbase,
                vbase: header.vbase,
                frame: header.dbase,
                size: header.dcurr - header.dbase - 4,
            },
        })
    }
}

/// The memory that a run of a `.binary` file begins with.
fn memory_of(alloc: Global, bytes: &[u8]) -> Result<Vec<u8>, NoMemory>
    requires { IsImage bytes.now }
    ensures { IfOk result (λ memory. memory.items ≡ memory_of bytes.now) }
{
    let frame = usize::from(Header::read(bytes).dbase);
    let mut memory = marked(alloc, bytes, frame)?;
    memory.resize(HUB_BYTES, 0)?;
    Ok(memory)
}

/// These bytes, zeros after them, and the two longs that stand below the first frame, which begins at `frame`.
fn marked(alloc: Global, bytes: &[u8], frame: usize) -> Result<Vec<u8>, AllocError>
    requires { length bytes.now + 8 ≤ frame }
    ensures value { IfOk result (λ memory. memory.items ≡ bytes.now ++ replicate (frame - 8 - length bytes.now) 0 ++ frame_mark ++ frame_mark) }
    ensures length { IfOk result (λ memory. length memory.items ≡ frame) }
{
    let mut mark = [0; 4];
    LittleEndian::write_u32(&mut mark, FRAME_MARK);
    let mut memory = bytes.to_vec(alloc)?;
    memory.resize(frame - 8, 0)?;
    memory.extend_from_slice(&mark)?;
    memory.extend_from_slice(&mark)?;
    Ok(memory)
}
