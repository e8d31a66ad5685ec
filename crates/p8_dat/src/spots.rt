// Offsets and cog addresses.
ghost use Rattle.std.specs.Prelude.{◌≡◌, ◌<◌, ◌*◌, ◌/◌, min};
ghost use Rattle.p8_dat.specs.Spots.{limit, advanced, padding};

/// Where offsets in an object and cog addresses stop, in bytes.
pub(crate) const LIMIT: u32 = 1_048_576;

/// A place in DAT, where a byte stands or would stand. Both numbers stop at 1,048,576.
#[derive(Clone, Copy, Debug, PartialEq, Eq)]
pub struct Spot {
    /// The offset in the object, in bytes.
    pub offset: u32,
    /// The address in a cog, in bytes.
    pub cog: u32,
}

// A number that stops at the limit.
pub(crate) fn stopped(n: u64) -> u32
    ensures { result ≡ min n limit }
{
    n.min(u64::from(LIMIT)) as u32
}

// The bytes from an offset to the next multiple of a size.
fn padding(size: u32, offset: u32) -> u32
    ensures { result ≡ padding size offset }
{
    if size == 0 {
        0
    } else {
        (size - offset % size) % size
    }
}

impl Spot {
    // The spot after a number of elements of a size.
    pub(crate) fn behind(self, count: u64, size: u8) -> Spot
        ensures { result ≡ advanced (count * size) self }
    {
        let bytes = count.saturating_mul(u64::from(size));
        Spot {
            offset: stopped(bytes.saturating_add(u64::from(self.offset))),
            cog: stopped(bytes.saturating_add(u64::from(self.cog))),
        }
    }

    // The spot after some bytes.
    pub(crate) fn next(self, bytes: u8) -> Spot
        ensures { result ≡ advanced bytes self }
    {
        self.behind(1, bytes)
    }

    // The next spot on a multiple of a size.
    pub(crate) fn aligned(self, size: u8) -> Spot
        ensures { result ≡ advanced (padding size self.offset) self }
    {
        let padding = padding(u32::from(size), self.offset);
        self.behind(u64::from(padding), 1)
    }

    // The address in a cog, in longs.
    pub(crate) fn long(self) -> u32
        ensures { result ≡ self.cog / 4 }
    {
        self.cog / 4
    }
}
