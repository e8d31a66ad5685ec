// How an instruction is carried out.
ghost use Rattle.std.specs.Prelude.{◌≡◌, ◌<◌, ◌≤◌, ◌⊎◌};
ghost use Rattle.p8_cog.specs.Instructions.{executed_kind, kind_of, source_access};
ghost use Rattle.p8_cog.specs.Stops.{IsComputed};
ghost use Rattle.p8_bcog.specs.Ready.{IsMadeIf};

use p8_access::Access;
use p8_instr::{ALWAYS, Instr};

/// The register PAR.
pub const PAR: u16 = 0x1F0;
/// The register CNT.
const CNT: u16 = 0x1F1;
/// The register INA.
const INA: u16 = 0x1F2;
/// The register INB.
pub const INB: u16 = 0x1F3;
/// The register OUTA.
pub const OUTA: u16 = 0x1F4;
/// The register DIRA.
pub const DIRA: u16 = 0x1F6;
/// The register CTRA, the first of those of the counters and the video generator.
pub const CTRA: u16 = 0x1F8;

/// The opcode of HUBOP.
pub const HUBOP: u8 = 3;
/// The opcode of JMPRET.
pub const JMPRET: u8 = 23;
/// The opcode of DJNZ.
pub const DJNZ: u8 = 57;
/// The opcode of TJNZ.
pub const TJNZ: u8 = 58;
/// The opcode of TJZ.
pub const TJZ: u8 = 59;
/// The opcode of WAITPEQ.
pub const WAITPEQ: u8 = 60;
/// The opcode of WAITPNE.
pub const WAITPNE: u8 = 61;
/// The opcode of WAITCNT.
pub const WAITCNT: u8 = 62;
/// The opcode of WAITVID.
const WAITVID: u8 = 63;

/// How an instruction is carried out (Propeller Manual v1.2, assembly reference).
#[derive(Clone, Copy)]
pub enum InstructionKind {
    /// Its condition isn't met, and it does nothing.
    Skipped,
    /// The cog halts: MUL, MULS, ENC, ONES and WAITVID.
    Halting,
    /// It makes an access of the hub: RDBYTE to WRLONG, and HUBOP.
    OfHub,
    /// WAITPEQ, WAITPNE and WAITCNT.
    Waiting,
    /// Whatever computes a result, the jumps among it.
    Computing,
}

/// How an instruction is carried out that doesn't compute, by its opcode below 8 or from 60 on.
pub fn other_kind(opcode: u8) -> InstructionKind
    requires apart { (opcode < 8) ⊎ (60 ≤ opcode) }
    requires opcode { opcode < 64 }
    ensures kind { result ≡ executed_kind opcode }
    ensures computed { IsComputed result opcode }
{
    if opcode <= HUBOP {
        InstructionKind::OfHub
    } else if opcode < 8 || opcode == WAITVID {
        InstructionKind::Halting
    } else {
        InstructionKind::Waiting
    }
}

/// How an instruction is carried out whose condition is met.
#[inline(always)]
pub fn executed_kind(opcode: u8) -> InstructionKind
    requires opcode { opcode < 64 }
    ensures kind { result ≡ executed_kind opcode }
    ensures computed { IsComputed result opcode }
{
    if opcode < 8 || opcode >= WAITPEQ {
        other_kind(opcode)
    } else {
        InstructionKind::Computing
    }
}

/// How an instruction is carried out under the flags C and Z.
#[inline(always)]
pub fn kind_of(i: Instr, c: bool, z: bool) -> InstructionKind
    requires opcode { i.opcode < 64 }
    ensures kind { result ≡ kind_of i c z }
    ensures computed { IsComputed result i.opcode }
{
    if i.cond == ALWAYS || i.is_met(c, z) {
        executed_kind(i.opcode)
    } else {
        InstructionKind::Skipped
    }
}

/// The access by which an instruction reads its source, where that is CNT or INA.
#[inline(always)]
pub fn source_access(i: Instr) -> Option<Access>
    ensures access { result ≡ source_access i }
    ensures made { IsMadeIf result }
{
    if i.is_immediate() {
        None
    } else if i.source == CNT {
        Some(Access::Clock)
    } else if i.source == INA {
        Some(Access::PinsIn)
    } else {
        None
    }
}
