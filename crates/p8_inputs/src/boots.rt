// The boots of bytes that are run.
ghost use Rattle.std.specs.Prelude.{◌≡◌, IfOk, OnOk, IfErr, None};
ghost use Rattle.p8_access.specs.Proper.{IsProperOrigin};
ghost use Rattle.p8_image.specs.Headers.{header_of};
ghost use Rattle.p8_image.specs.Loading.{image_in, memory_of, start_of};
ghost use Rattle.p8_inputs.specs.Programs.{fault_of, memory_by, first_by, IsFaultOf};
ghost use Rattle.p8_inputs.specs.declared.program.Format.TheVariants.{Memory, Image, Eeprom};

use crate::program::Format;
use p8_access::Boot;
use p8_image::{LoadFault, load, load_eeprom};
use p8_words::{Fail, NoMemory};
use std::alloc::Global;

/// How many bytes the hub has.
const HUB_BYTES: usize = 32_768;

/// The boot of hub memory. It is refused exactly where it has more than 32,768 bytes.
fn memory_boot(alloc: Global, bytes: &[u8]) -> Result<Boot, Fail<LoadFault>>
    ensures ram { IfOk result (λ boot. boot.ram ≡ memory_by Memory bytes.now) }
    ensures first { IfOk result (λ boot. boot.first ≡ first_by Memory bytes.now) }
    ensures good { OnOk result (fault_of Memory bytes.now ≡ None) }
    ensures refused { IfErr result (IsFaultOf Memory bytes.now) }
    ensures proper { IfOk result (λ boot. IsProperOrigin boot.first) }
{
    let length = bytes.len();
    if length > HUB_BYTES {
        return Err(Fail::Refused(LoadFault::BadLength { length }));
    }
    match Boot::raw(alloc, bytes) {
        Ok(boot) => Ok(boot),
        Err(NoMemory) => Err(Fail::NoMemory),
    }
}

/// The boot of an image that is no more than a `.binary` file.
pub fn binary_boot(alloc: Global, image: &p8_image::Image) -> Result<Boot, NoMemory>
    requires { image.now ≡ image_in image.now.file }
    ensures ram { IfOk result (λ boot. boot.ram ≡ memory_of image.now.file) }
    ensures first { IfOk result (λ boot. boot.first ≡ start_of (header_of image.now.file)) }
    ensures proper { IfOk result (λ boot. IsProperOrigin boot.first) }
{
    let _ = image.bytes();
    image.boot(alloc)
}

/// The boot of an image. Bytes that are none are refused with their first fault.
fn image_boot(alloc: Global, bytes: &[u8]) -> Result<Boot, Fail<LoadFault>>
    ensures ram { IfOk result (λ boot. boot.ram ≡ memory_by Image bytes.now) }
    ensures first { IfOk result (λ boot. boot.first ≡ first_by Image bytes.now) }
    ensures good { OnOk result (fault_of Image bytes.now ≡ None) }
    ensures refused { IfErr result (IsFaultOf Image bytes.now) }
    ensures proper { IfOk result (λ boot. IsProperOrigin boot.first) }
{
    let image = load(alloc, bytes)?;
    match binary_boot(alloc, &image) {
        Ok(boot) => Ok(boot),
        Err(NoMemory) => Err(Fail::NoMemory),
    }
}

/// The boot of the image that an `.eeprom` file holds. Bytes that are none are refused with their first fault.
fn eeprom_boot(alloc: Global, bytes: &[u8]) -> Result<Boot, Fail<LoadFault>>
    ensures ram { IfOk result (λ boot. boot.ram ≡ memory_by Eeprom bytes.now) }
    ensures first { IfOk result (λ boot. boot.first ≡ first_by Eeprom bytes.now) }
    ensures good { OnOk result (fault_of Eeprom bytes.now ≡ None) }
    ensures refused { IfErr result (IsFaultOf Eeprom bytes.now) }
    ensures proper { IfOk result (λ boot. IsProperOrigin boot.first) }
{
    let image = load_eeprom(alloc, bytes)?;
    match image.boot(alloc) {
        Ok(boot) => Ok(boot),
        Err(NoMemory) => Err(Fail::NoMemory),
    }
}

/// The boot of bytes that are run, by what they are taken for; those of a source are its image. They are refused with their first fault.
pub fn boot_of(alloc: Global, format: Format, bytes: &[u8]) -> Result<Boot, Fail<LoadFault>>
    ensures ram { IfOk result (λ boot. boot.ram ≡ memory_by format bytes.now) }
    ensures first { IfOk result (λ boot. boot.first ≡ first_by format bytes.now) }
    ensures good { OnOk result (fault_of format bytes.now ≡ None) }
    ensures refused { IfErr result (IsFaultOf format bytes.now) }
    ensures proper { IfOk result (λ boot. IsProperOrigin boot.first) }
{
    match format {
        Format::Memory => memory_boot(alloc, bytes),
        Format::Eeprom => eeprom_boot(alloc, bytes),
        Format::Image | Format::Source { .. } => image_boot(alloc, bytes),
    }
}
