// The instruction at hand, by the fields of its long.
//
// Each is taken from the long where it is asked for: an `Instr` that is handed on is packed into one register of the processor
// and taken apart again.
ghost use Rattle.std.specs.Prelude.{ℕ, ◌≡◌, ◌<◌, true, false, None};
ghost use Rattle.std.specs.Option.{is_some};
ghost use Rattle.p8_instr.specs.Instruction.{writes_z, writes_c, writes_result, is_immediate};
ghost use Rattle.p8_instr.specs.Conditions.{is_met};
ghost use Rattle.p8_cog.specs.Instructions.{executed_kind, source_access};
ghost use Rattle.p8_cog.specs.Replay.{at_hand, result_access};
ghost use Rattle.p8_cog.specs.Stops.{IsComputed};

use crate::instruction_kind::{InstructionKind, OUTA, PAR, other_kind, source_access};
use crate::state::PasmState;
use p8_instr::{ALWAYS, decode};

/// The least long with an opcode that computes, 8.
const COMPUTED: u32 = 0x2000_0000;
/// The least long with an opcode above those, 60.
const BEYOND_COMPUTED: u32 = 0xF000_0000;
/// The upper 23 bits of JMP to a number, which always executes and writes nothing.
const JUMP: u32 = 0x5C7C_0000 >> 9;

impl PasmState {
    /// The opcode.
    #[inline(always)]
    pub fn opcode(&self) -> u8
        ensures opcode { result ≡ (at_hand self.now).opcode }
        ensures below { result < 64 }
    {
        (self.long >> 26) as u8
    }

    /// The condition.
    #[inline(always)]
    fn cond(&self) -> u8
        ensures { result ≡ (at_hand self.now).cond }
    {
        (self.long >> 18 & 0xF) as u8
    }

    /// The destination's address.
    #[inline(always)]
    pub fn dest(&self) -> u32
        ensures dest { result ≡ (at_hand self.now).dest }
        ensures below { result < 512 }
    {
        self.long >> 9 & 0x1FF
    }

    /// The source field.
    #[inline(always)]
    pub fn source_field(&self) -> u32
        ensures source { result ≡ (at_hand self.now).source }
        ensures below { result < 512 }
    {
        self.long & 0x1FF
    }

    /// Whether the flag Z is written.
    #[inline(always)]
    pub fn writes_z(&self) -> bool
        ensures { result ≡ writes_z (at_hand self.now) }
    {
        self.long >> 25 & 1 == 1
    }

    /// Whether the flag C is written.
    #[inline(always)]
    pub fn writes_c(&self) -> bool
        ensures { result ≡ writes_c (at_hand self.now) }
    {
        self.long >> 24 & 1 == 1
    }

    /// Whether one of the flags Z and C is written.
    #[inline(always)]
    pub fn writes_flags(&self) -> bool
        ensures c { result ≡ false → writes_c (at_hand self.now) ≡ false }
        ensures z { result ≡ false → writes_z (at_hand self.now) ≡ false }
    {
        self.long >> 24 & 3 != 0
    }

    /// Whether the result is written to the destination.
    #[inline(always)]
    pub fn writes_result(&self) -> bool
        ensures { result ≡ writes_result (at_hand self.now) }
    {
        self.long >> 23 & 1 == 1
    }

    /// Whether neither the result nor a flag is written.
    #[inline(always)]
    pub fn writes_nothing(&self) -> bool
        ensures result { result ≡ true → writes_result (at_hand self.now) ≡ false }
        ensures c { result ≡ true → writes_c (at_hand self.now) ≡ false }
        ensures z { result ≡ true → writes_z (at_hand self.now) ≡ false }
    {
        self.long >> 23 & 7 == 0
    }

    /// Whether the source field is the source's value, and no address.
    #[inline(always)]
    pub fn is_immediate(&self) -> bool
        ensures { result ≡ is_immediate (at_hand self.now) }
    {
        self.long >> 22 & 1 == 1
    }

    /// Whether the instruction executes.
    #[inline(always)]
    pub fn executes(&self) -> bool
        ensures { result ≡ is_met (at_hand self.now).cond self.now.c self.now.z }
    {
        // Most instructions always execute.
        self.cond() == ALWAYS || decode(self.long).is_met(self.c, self.z)
    }

    /// How the instruction is carried out where its condition is met.
    ///
    /// The long itself is compared: the compiler then knows the opcode's range where it is taken out, and a jump table needs no
    /// test of its own.
    #[inline(always)]
    pub fn kind(&self) -> InstructionKind
        ensures kind { result ≡ executed_kind (at_hand self.now).opcode }
        ensures computed { IsComputed result (at_hand self.now).opcode }
    {
        if self.long < COMPUTED || self.long >= BEYOND_COMPUTED {
            other_kind(self.opcode())
        } else {
            InstructionKind::Computing
        }
    }

    /// Whether it is JMP to a number. It only chooses a way: none of what is proved rests on it.
    #[inline(always)]
    pub fn is_jump(&self) -> bool {
        self.long >> 9 == JUMP
    }

    /// Whether the source is a special register.
    #[inline(always)]
    pub fn has_special_source(&self) -> bool
        ensures { result ≡ false → source_access (at_hand self.now) ≡ None }
    {
        !self.is_immediate() && self.source_field() >= u32::from(PAR)
    }

    /// Whether the destination is one of the special registers from OUTA on.
    #[inline(always)]
    pub fn has_special_destination(&self) -> bool
        ensures { result ≡ false → (value : ℕ) → result_access (at_hand self.now) value ≡ None }
    {
        self.dest() >= u32::from(OUTA)
    }

    /// Whether the source is read by an access.
    #[inline(always)]
    pub fn asks_for_source(&self) -> bool
        ensures { result ≡ is_some (source_access (at_hand self.now)) }
    {
        // Most instructions name a number or a general register.
        self.has_special_source() && source_access(decode(self.long)).is_some()
    }
}
