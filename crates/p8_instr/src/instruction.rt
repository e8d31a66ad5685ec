// An instruction, its fields as bit ranges of a long, and whether it executes.
ghost use Rattle.std.specs.Prelude.{◌≡◌};

/// The bit of `Instr::flags` for Z: the instruction writes the flag Z.
pub const FLAG_Z: u8 = 8;
/// The bit of `Instr::flags` for C: the instruction writes the flag C.
pub const FLAG_C: u8 = 4;
/// The bit of `Instr::flags` for R: the instruction writes its result to its destination.
pub const FLAG_R: u8 = 2;
/// The bit of `Instr::flags` for I: the source field is the source's value, and no address.
pub const FLAG_I: u8 = 1;
/// The condition under which an instruction always executes.
pub const ALWAYS: u8 = 15;

/// One instruction of a cog, by the fields of its long.
#[derive(Clone, Copy, Debug, PartialEq, Eq)]
pub struct Instr {
    /// Bits 31 to 26, below 64.
    pub opcode: u8,
    /// Bits 25 to 22: `FLAG_Z`, `FLAG_C`, `FLAG_R` and `FLAG_I`.
    pub flags: u8,
    /// Bits 21 to 18: bit 2C + Z says whether the instruction executes under the flags C and Z.
    pub cond: u8,
    /// Bits 17 to 9: the destination's address in the cog, below 512.
    pub dest: u16,
    /// Bits 8 to 0: the source's address in the cog or its value, below 512.
    pub source: u16,
}

impl Instr {
    ghost use Rattle.p8_instr.specs.Conditions.{is_met};
    ghost use Rattle.p8_instr.specs.Instruction.{writes_z, writes_c, writes_result, is_immediate};

    /// Whether the instruction executes under the flags C and Z.
    #[inline]
    pub fn is_met(self, c: bool, z: bool) -> bool
        ensures { result ≡ is_met self.cond c z }
    {
        (self.cond >> (2 * c as u8 + z as u8)) % 2 == 1
    }

    /// Whether the instruction writes the flag Z.
    #[inline]
    pub fn writes_z(self) -> bool
        ensures { result ≡ writes_z self }
    {
        self.flags / FLAG_Z % 2 == 1
    }

    /// Whether the instruction writes the flag C.
    #[inline]
    pub fn writes_c(self) -> bool
        ensures { result ≡ writes_c self }
    {
        self.flags / FLAG_C % 2 == 1
    }

    /// Whether the instruction writes its result to its destination.
    #[inline]
    pub fn writes_result(self) -> bool
        ensures { result ≡ writes_result self }
    {
        self.flags / FLAG_R % 2 == 1
    }

    /// Whether the source field is the source's value, and no address.
    #[inline]
    pub fn is_immediate(self) -> bool
        ensures { result ≡ is_immediate self }
    {
        self.flags % 2 == FLAG_I
    }
}

ghost use Rattle.p8_instr.specs.Instruction.{instr_of, long_of, FitsFields};

/// The long that holds an instruction.
#[inline]
pub fn encode(i: Instr) -> u32
    requires { FitsFields i }
    ensures value { result ≡ long_of i }
    ensures decoded { instr_of result ≡ i }
{
    u32::from(i.opcode) << 26
        | u32::from(i.flags) << 22
        | u32::from(i.cond) << 18
        | u32::from(i.dest) << 9
        | u32::from(i.source)
}

/// The instruction that a long holds.
#[inline]
pub fn decode(long: u32) -> Instr
    ensures value { result ≡ instr_of long }
    ensures encoded { long_of result ≡ long }
    ensures in_range { FitsFields result }
{
    Instr {
        opcode: (long >> 26) as u8,
        flags: (long >> 22 & 0xF) as u8,
        cond: (long >> 18 & 0xF) as u8,
        dest: (long >> 9 & 0x1FF) as u16,
        source: (long & 0x1FF) as u16,
    }
}
