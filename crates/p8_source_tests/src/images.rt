// The image of `PUB main`, its two kinds of files, and files that are none.
use p8_access::Origin;
use p8_image::{Image, LoadFault, load, load_eeprom};
use p8_words::{Fail, NoMemory};
use std::alloc::{AllocError, Global};

/// The image of `PUB main`.
pub static MAIN: [u8; 28] = [
    0x00, 0x1B, 0xB7, 0x00, 0x00, 0x6A, 0x10, 0x00, 0x1C, 0x00, 0x24, 0x00, 0x18, 0x00, 0x28, 0x00,
    0x0C, 0x00, 0x02, 0x00, 0x08, 0x00, 0x00, 0x00, 0x32, 0x00, 0x00, 0x00,
];

/// What cog 0 begins with.
const FIRST: Origin = Origin::Spin {
    entry: 0x18,
    pbase: 0x10,
    vbase: 0x1C,
    frame: 0x24,
    size: 0,
};

/// The words before the first frame.
const FRAME: &[u8] = &[0xFF, 0xFF, 0xF9, 0xFF, 0xFF, 0xFF, 0xF9, 0xFF];

/// Whether the image is loaded as it stands, and the memory that it boots with is the image, the words before the first frame, and zeros.
fn boots(alloc: Global) -> Result<bool, NoMemory> {
    let Ok(image) = load(alloc, &MAIN) else {
        return Ok(false);
    };
    let is_kept = image.bytes() == MAIN.as_slice();
    let boot = image.boot(alloc)?;
    let memory = boot.ram.bytes();
    let is_image = memory.starts_with(&MAIN) && memory[28..].starts_with(FRAME);
    let is_rest = memory[36..].iter().all(|byte| *byte == 0);
    Ok(is_kept && is_image && is_rest && boot.first == FIRST)
}

#[test]
fn boots_an_image(rt: HostRuntime) {
    assert!(rt; matches!(boots(rt.alloc()), Ok(true)));
}

/// The bytes of the image that are changed, how many bytes are left, and the fault.
type Faulty = (&'static [(usize, u8)], usize, &'static str);

static FAULTY: [Faulty; 8] = [
    (&[], 27, "length 27"),
    (&[(27, 0x01)], 28, "sum 15"),
    (&[], 16, "sum CC"),
    (&[(6, 0x14), (5, 0x66)], 28, "header pbase"),
    (&[(8, 0x20), (5, 0x66)], 28, "header vbase"),
    (&[(10, 0x20), (5, 0x6E)], 28, "header dbase"),
    (&[(12, 0x14), (5, 0x6E)], 28, "header pcurr"),
    (&[(14, 0x24), (5, 0x6E)], 28, "header dcurr"),
];

/// The image with bytes that are changed.
fn changed(changes: &[(usize, u8)]) -> [u8; 28] {
    let mut file = MAIN;
    for (place, byte) in changes {
        if let Some(old) = file.get_mut(*place) {
            *old = *byte;
        }
    }
    file
}

/// Whether a file is refused so.
fn is_refused(alloc: Global, faulty: &Faulty) -> Result<bool, AllocError> {
    let (changes, length, told) = *faulty;
    let whole = changed(changes);
    let Some(file) = whole.get(..length) else {
        return Ok(false);
    };
    match load(alloc, file) {
        Err(Fail::Refused(fault)) => Ok(fault.to_string(alloc)?.as_str() == told),
        _ => Ok(false),
    }
}

#[test]
fn refuses_the_first_fault(rt: HostRuntime) {
    for faulty in &FAULTY {
        assert!(rt;
            matches!(is_refused(rt.alloc(), faulty), Ok(true)),
            "{}",
            faulty.2
        );
    }
}

/// How many bytes an `.eeprom` file has.
const HUB_BYTES: usize = 32_768;

/// The `.eeprom` file of the image: the image, the words before the first frame, and zeros.
fn eeprom(alloc: Global) -> Result<Vec<u8>, AllocError> {
    let mut file = MAIN.to_vec(alloc)?;
    file.extend_from_slice(FRAME)?;
    file.resize(HUB_BYTES, 0)?;
    Ok(file)
}

/// Whether an image has this `.binary` file and this `.eeprom` file, and boots with the latter.
fn has_files(alloc: Global, image: &Image, binary: &[u8], eeprom: &[u8]) -> Result<bool, NoMemory> {
    let boot = image.boot(alloc)?;
    let is_booted = boot.ram.bytes() == eeprom && boot.first == FIRST;
    let written = image.eeprom(alloc)?;
    Ok(is_booted && image.bytes() == binary && written.as_slice() == eeprom)
}

/// Whether the image comes from either of its files, and has both.
fn is_either(alloc: Global) -> Result<bool, NoMemory> {
    let file = eeprom(alloc)?;
    let (Ok(image), Ok(other)) = (load(alloc, &MAIN), load_eeprom(alloc, &file)) else {
        return Ok(false);
    };
    let is_image = has_files(alloc, &image, &MAIN, &file)?;
    Ok(is_image && has_files(alloc, &other, &MAIN, &file)?)
}

#[test]
fn comes_from_either_file(rt: HostRuntime) {
    assert!(rt; matches!(is_either(rt.alloc()), Ok(true)));
}

/// An `.eeprom` file of zeros with one byte that is another, how many bytes of it are left, and the fault.
type FaultyEeprom = ((usize, u8), usize, &'static str);

static FAULTY_EEPROMS: [FaultyEeprom; 4] = [
    ((0, 0), 28, "length 28"),
    ((0, 0), 32_767, "length 32767"),
    ((0, 0), HUB_BYTES, "header pbase"),
    ((32_767, 0x01), HUB_BYTES, "sum 01"),
];

/// Whether loading answers this fault.
fn tells(
    alloc: Global,
    fault: Result<Image, Fail<LoadFault>>,
    told: &str,
) -> Result<bool, AllocError> {
    match fault {
        Err(Fail::Refused(fault)) => Ok(fault.to_string(alloc)?.as_str() == told),
        _ => Ok(false),
    }
}

/// Whether an `.eeprom` file is refused so.
fn is_refused_eeprom(alloc: Global, faulty: &FaultyEeprom) -> Result<bool, AllocError> {
    let ((place, byte), length, told) = *faulty;
    let mut file = Vec::new(alloc);
    file.resize(HUB_BYTES, 0)?;
    if let Some(old) = file.get_mut(place) {
        *old = byte;
    }
    file.truncate(length);
    tells(alloc, load_eeprom(alloc, &file), told)
}

#[test]
fn refuses_the_first_fault_of_an_eeprom(rt: HostRuntime) {
    for faulty in &FAULTY_EEPROMS {
        assert!(rt;
            matches!(is_refused_eeprom(rt.alloc(), faulty), Ok(true)),
            "{}",
            faulty.2
        );
    }
}
