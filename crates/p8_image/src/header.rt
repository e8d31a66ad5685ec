// The header of an image.
ghost use Rattle.std.specs.Prelude.{◌≡◌, ◌≤◌, length};
ghost use Rattle.p8_image.specs.Headers.{header_of};

use byteorder::{ByteOrder, LittleEndian};

/// How many bytes a header has.
pub(crate) const HEADER_BYTES: usize = 16;

/// The places in the hub that the header of an image names.
#[derive(Clone, Copy, Debug, PartialEq, Eq)]
pub struct Header {
    /// Where the first object begins, $0010.
    pub pbase: u16,
    /// Where the objects end, with the file, and the variables begin.
    pub vbase: u16,
    /// Where the frame of the first method begins, 8 after the end of the variables.
    pub dbase: u16,
    /// Where the code of the first method begins.
    pub pcurr: u16,
    /// Where the frame of the first method ends.
    pub dcurr: u16,
}

impl Header {
    /// The places that the header of an image names. The file has at least 16 bytes.
    pub fn read(bytes: &[u8]) -> Header
        requires { 16 ≤ length bytes.now }
        ensures { result ≡ header_of bytes.now }
    {
        Header {
            pbase: LittleEndian::read_u16(&bytes[6..]),
            vbase: LittleEndian::read_u16(&bytes[8..]),
            dbase: LittleEndian::read_u16(&bytes[10..]),
            pcurr: LittleEndian::read_u16(&bytes[12..]),
            dcurr: LittleEndian::read_u16(&bytes[14..]),
        }
    }
}
