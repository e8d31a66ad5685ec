// Cases whose results an independent model of the instruction table gave.
use p8_alu::execute;
use p8_instr::Instr;

/// An opcode, D, S, C, Z and the next address, and the result, C and Z after them.
type Case = (u8, u32, u32, bool, bool, u16, u32, bool, bool);

/// Rows of cases.
macro_rules! cases {
    ($($opcode:literal $d:literal $s:literal $c:literal $z:literal $next:literal
        => $result:literal $c_after:literal $z_after:literal;)*) => {
        [$(($opcode, $d, $s, $c, $z, $next, $result, $c_after, $z_after)),*]
    };
}

/// Seven cases that were worked by hand, and three for each opcode.
static CASES: [Case; 163] = cases! {
    51 0x0000_0000 0x0000_0000 true true 0x000 => 0xFFFF_FFFF true false;
    51 0x0000_0000 0x0000_0000 false true 0x000 => 0x0000_0000 false true;
    51 0x0000_0000 0x0000_0000 false false 0x000 => 0x0000_0000 false false;
    15 0x8000_0001 0x0000_001F false false 0x000 => 0x0000_0001 true false;
    14 0x8000_0000 0x0000_001F false false 0x000 => 0xFFFF_FFFF false false;
    52 0x7FFF_FFFF 0x0000_0001 false false 0x000 => 0x8000_0000 true false;
    27 0x0000_0003 0x0000_0001 false false 0x000 => 0x0000_0002 true false;
    8 0x0000_0200 0x8000_0001 true true 0x138 => 0x0000_0100 false false;
    8 0x0000_01FF 0x0000_0001 false false 0x0D9 => 0x8000_00FF true false;
    8 0x0000_0000 0x6CA5_6DAE false false 0x047 => 0x0000_0000 false true;
    9 0xCA97_5E21 0x0000_0000 false false 0x093 => 0xCA97_5E21 true false;
    9 0x385F_6F44 0xFFFF_FFFE false true 0x0F8 => 0x0E17_DBD1 false false;
    9 0x0000_0000 0x7FFF_FFFF true false 0x17E => 0x0000_0000 false true;
    10 0x0000_0200 0x4000_0000 false false 0x11C => 0x0000_0200 false false;
    10 0x4000_0000 0x0000_01FF false false 0x138 => 0x0000_0000 false true;
    10 0x0000_0003 0x5045_54E0 true false 0x14B => 0x0000_0003 true false;
    11 0x4758_EE4F 0xFB97_C0C3 false false 0x1A9 => 0x3AC7_7278 false false;
    11 0xDC02_DD0C 0xA063_C35F true false 0x1FA => 0x0000_0000 true true;
    11 0xFFFF_FFFE 0x8000_0000 true false 0x03A => 0xFFFF_FFFE true false;
    12 0x0000_0002 0x0000_0021 true true 0x0F9 => 0x8000_0001 false false;
    12 0x0000_0001 0x0000_0003 false true 0x12D => 0x0000_0000 true true;
    12 0x0000_0021 0xFFFF_FFFE true false 0x1EA => 0xFFFF_FFFC true false;
    13 0x0000_0002 0x0000_001F false true 0x1AB => 0x0000_0000 false true;
    13 0xFFFF_FFFE 0x4000_0000 false true 0x135 => 0xFFFF_FFFE true false;
    13 0xFFFF_FFFE 0x7FFF_FFFF false true 0x0F5 => 0x0000_0000 true true;
    14 0x7958_942B 0x0000_0020 false false 0x13D => 0x7958_942B true false;
    14 0x23C6_7AC2 0x23BF_9155 true true 0x030 => 0x0000_011E false false;
    14 0x0000_01FF 0xF766_E4AB true true 0x0D9 => 0x0000_0000 true true;
    15 0x0000_001F 0xC000_0000 true true 0x1CF => 0xF800_0000 true false;
    15 0x4000_0000 0xC000_0000 true true 0x131 => 0x0000_0002 false false;
    15 0x0000_0000 0xF066_36BD false false 0x1DC => 0x0000_0000 false true;
    16 0xAAAA_AAAA 0x0000_0020 false false 0x100 => 0x0000_0020 true false;
    16 0x17C8_11AD 0x0000_0003 true true 0x1A8 => 0x17C8_11AD false false;
    16 0xEB97_290C 0x0000_0021 true false 0x009 => 0x0000_0021 true false;
    17 0xAAAA_AAAA 0x0000_0002 true true 0x16F => 0xAAAA_AAAA true false;
    17 0x0000_0200 0x0000_0003 false false 0x0DF => 0x0000_0003 false false;
    17 0xAAAA_AAAA 0xAAAA_AAAA false false 0x14F => 0xAAAA_AAAA false true;
    18 0x95FE_FE1F 0x0000_0200 true false 0x172 => 0x95FE_FE1F false false;
    18 0x0000_0000 0xAAAA_AAAA false false 0x01F => 0xAAAA_AAAA true false;
    18 0x0000_0021 0x0000_0021 false true 0x118 => 0x0000_0021 false true;
    19 0x8000_0001 0x779B_9B08 false true 0x181 => 0x779B_9B08 false false;
    19 0x4000_0000 0xAAAA_AAAA true true 0x08D => 0x4000_0000 true false;
    19 0x8A3D_6208 0x8000_0001 true false 0x008 => 0x8000_0001 false false;
    20 0x0000_001F 0x448E_9D14 true true 0x1B4 => 0x0000_0114 false false;
    20 0x0000_0002 0x8000_0000 false true 0x00C => 0x0000_0000 false true;
    20 0xAAE2_41D2 0xFFFF_FFFF true false 0x13C => 0xAAE2_41FF false false;
    21 0xFFFF_FFFF 0x1B09_CA41 false true 0x1F3 => 0xFFFC_83FF false false;
    21 0x0000_0200 0xC000_0000 false true 0x02B => 0x0000_0000 false true;
    21 0x2130_46E5 0x8000_0001 false false 0x11F => 0x2130_02E5 false false;
    22 0xC000_0000 0x0000_01FF false false 0x15C => 0xFF80_0000 false false;
    22 0x0000_0000 0xC000_0000 true false 0x144 => 0x0000_0000 false true;
    22 0x5555_5555 0x5555_5555 false true 0x165 => 0xAAD5_5555 false false;
    23 0x8000_0000 0x0000_0001 false false 0x15F => 0x8000_015F false false;
    23 0x0000_0021 0x0000_001F true true 0x006 => 0x0000_0006 false false;
    23 0x0000_0200 0x4000_0000 false true 0x157 => 0x0000_0357 false false;
    24 0x0000_0001 0x0000_0002 false true 0x1A4 => 0x0000_0000 false true;
    24 0x0000_0002 0x0000_01FF false false 0x177 => 0x0000_0002 true false;
    24 0xED58_8263 0x5685_579E false false 0x09B => 0x4400_0202 false false;
    25 0x0000_001F 0x0000_0002 true false 0x1F7 => 0x0000_001D false false;
    25 0x186F_7995 0xA08E_177F false true 0x11B => 0x1861_6880 true false;
    25 0x8000_0000 0x9777_F0FF true false 0x03D => 0x0000_0000 false true;
    26 0xD7DE_571F 0x17B0_C24D false true 0x0B0 => 0xD7FE_D75F true false;
    26 0x74DD_A0AF 0xFEB2_BBCA false true 0x131 => 0xFEFF_BBEF false false;
    26 0xAAAA_AAAA 0x0000_0021 false false 0x093 => 0xAAAA_AAAB true false;
    27 0x0000_0021 0x4945_3705 true true 0x1CD => 0x4945_3724 true false;
    27 0x8BB9_1872 0x4000_0000 true true 0x13E => 0xCBB9_1872 false false;
    27 0x7FFF_FFFF 0x7FFF_FFFF false false 0x14F => 0x0000_0000 false true;
    28 0x8000_0001 0x0000_001F true false 0x11F => 0x8000_001F false false;
    28 0x0000_0001 0xFFFF_FFFF false false 0x196 => 0x0000_0000 false true;
    28 0xAAAA_AAAA 0xA779_D8CC false true 0x148 => 0x0882_2222 true false;
    29 0x8000_0001 0xE4A4_08AE true true 0x006 => 0x0000_0001 true false;
    29 0x6D6A_DF66 0x5555_5555 true false 0x0F7 => 0x282A_8A22 false false;
    29 0x3447_CFF6 0xFFFF_FFFF true true 0x05F => 0x0000_0000 false true;
    30 0x0000_0020 0x8000_0000 true false 0x1E9 => 0x0000_0020 true false;
    30 0x4000_0000 0xD048_F86E false false 0x19B => 0x0000_0000 false true;
    30 0x4000_0000 0x7FEE_4EB5 true true 0x1E3 => 0x7FEE_4EB5 false false;
    31 0xAAAA_AAAA 0x8000_0000 false true 0x149 => 0x2AAA_AAAA true false;
    31 0x8562_4287 0x8000_0000 false false 0x07A => 0x8562_4287 false false;
    31 0xAAAA_AAAA 0xFFFF_FFFF true true 0x0BA => 0x0000_0000 false true;
    32 0x0000_001F 0xF39D_3B61 true false 0x126 => 0xF39D_3B80 false false;
    32 0xAA16_6416 0xC000_0000 true false 0x091 => 0x6A16_6416 true false;
    32 0x0000_001F 0xB73D_1633 false true 0x13A => 0xB73D_1652 false false;
    33 0x8000_0001 0x4000_0000 false false 0x16D => 0x4000_0001 false false;
    33 0x5555_5555 0x8000_0001 true false 0x083 => 0xD555_5554 true false;
    33 0x0000_0200 0x0000_0200 true false 0x046 => 0x0000_0000 false true;
    34 0x0000_0200 0xC000_0000 true false 0x1B0 => 0x4000_0200 false false;
    34 0xFFFF_FFFE 0x8000_0000 true false 0x104 => 0x7FFF_FFFE true false;
    34 0xC000_0000 0xFFFF_FFFE true true 0x1BF => 0xC000_0002 false false;
    35 0x0000_01FF 0xCC95_9942 false true 0x031 => 0xCC95_9B41 true false;
    35 0xADB2_FFCD 0x4CD4_6D02 false false 0x135 => 0x60DE_92CB false false;
    35 0x5555_5555 0x5555_5555 true false 0x1F0 => 0x0000_0000 false true;
    36 0x0000_0000 0xFE61_5ED8 false false 0x04B => 0xFE61_5ED8 false false;
    36 0x707A_2909 0x7FFF_FFFF false true 0x028 => 0xF07A_2908 true false;
    36 0x0000_0021 0x0000_0021 true true 0x039 => 0x0000_0000 false true;
    37 0x5555_5555 0xC7EA_7BD8 false true 0x194 => 0x8D6A_D97D true false;
    37 0xC000_0000 0x0000_01FF true false 0x07D => 0xC000_01FF false false;
    37 0xC000_0000 0x4000_0000 true false 0x090 => 0x0000_0000 false true;
    38 0x0000_0000 0x9B5C_E36B true false 0x088 => 0x9B5C_E36B false false;
    38 0x8000_0001 0x0000_0002 false true 0x1D5 => 0x7FFF_FFFF true false;
    38 0x4000_0000 0xC000_0000 false false 0x14E => 0x0000_0000 false true;
    39 0xFFFF_FFFE 0xFFFF_FFFE true true 0x1AD => 0xFFFF_FFFC false false;
    39 0x554C_0E4B 0xC11A_EB1A false false 0x046 => 0x9431_2331 true false;
    39 0x0000_0020 0x0000_0020 true false 0x0A4 => 0x0000_0000 false true;
    40 0x8B70_727D 0xC000_0000 true true 0x0F4 => 0xC000_0000 true false;
    40 0xFFFF_FFFF 0x784D_6CD2 false false 0x1DC => 0x784D_6CD2 false false;
    40 0x5555_5555 0x4000_0000 false true 0x09A => 0x4000_0000 false false;
    41 0x2150_6BBE 0x97C4_0465 true false 0x07B => 0x683B_FB9B true false;
    41 0x6723_B802 0x7FFF_FFFF true false 0x04C => 0x8000_0001 false false;
    41 0x0000_0001 0x0000_0000 true false 0x1D2 => 0x0000_0000 false true;
    42 0xAAAA_AAAA 0x0000_0200 false true 0x038 => 0x0000_0200 false false;
    42 0xAAAA_AAAA 0x8000_0001 false true 0x05A => 0x7FFF_FFFF true false;
    42 0x0000_0200 0x0000_0000 true false 0x15E => 0x0000_0000 false true;
    43 0x8000_0001 0xD644_9692 true true 0x050 => 0xD644_9692 true false;
    43 0x0000_0002 0x7538_C66F true false 0x041 => 0x8AC7_3991 false false;
    43 0xAAAA_AAAA 0x8000_0001 false true 0x04A => 0x8000_0001 true false;
    44 0x0000_01FF 0x0000_0000 false true 0x028 => 0x0000_0000 false true;
    44 0x097C_A8A3 0x0000_0002 false false 0x1AD => 0x0000_0002 false false;
    44 0x8000_0000 0xDBB4_CDBB true true 0x0BE => 0x244B_3245 true false;
    45 0xFFFF_FFFF 0x9BB8_2264 false true 0x12E => 0x6447_DD9C true false;
    45 0x0000_0002 0x0000_0003 true true 0x10C => 0x0000_0003 false false;
    45 0x0000_0021 0x0000_0000 true false 0x010 => 0x0000_0000 false true;
    46 0x0F18_F540 0x1636_B9B9 true true 0x06C => 0xE9C9_4647 false false;
    46 0x0000_0000 0x9F50_3687 true false 0x1E5 => 0x9F50_3687 true false;
    46 0x4000_0000 0x0000_0000 false true 0x080 => 0x0000_0000 false true;
    47 0x8000_0001 0xFFFF_FFFE false true 0x174 => 0xFFFF_FFFE true false;
    47 0x8000_0001 0x0000_001F false false 0x131 => 0xFFFF_FFE1 false false;
    47 0xC000_0000 0x0000_0000 true true 0x16C => 0x0000_0000 false true;
    48 0x7FFF_FFFF 0x7FFF_FFFF true true 0x09C => 0x0000_0000 false true;
    48 0xFFFF_FFFF 0x6668_CDF8 false false 0x1EC => 0x9997_3207 true false;
    48 0x0000_0200 0x0000_0000 false true 0x0C0 => 0x0000_0200 false false;
    49 0x4000_0000 0x0000_0021 true true 0x1E5 => 0x3FFF_FFDE false false;
    49 0x0000_0020 0x4000_0000 true true 0x10F => 0xC000_001F true false;
    49 0x7FFF_FFFF 0xFFFF_FFFE true false 0x180 => 0x8000_0000 false false;
    50 0x5E6A_E3A7 0x7FFF_FFFF false false 0x104 => 0xDE6A_E3A6 false false;
    50 0x6701_5B40 0xD62E_197B false false 0x14A => 0x3D2F_74BB true false;
    50 0x0000_0000 0x7FFF_FFFF true true 0x0B8 => 0x8000_0000 false false;
    51 0x2C8B_0137 0x8000_0000 false false 0x0C8 => 0xAC8B_0137 true false;
    51 0xFFFF_FFFE 0xFFFF_FFFE false true 0x107 => 0x0000_0000 false true;
    51 0x0000_0021 0x0000_0020 false true 0x1C3 => 0x0000_0001 false false;
    52 0xE3AC_337D 0x5555_5555 true true 0x1F2 => 0x3901_88D2 false false;
    52 0x3FBE_BDD8 0x656B_6D2C false false 0x0F9 => 0xA52A_2B04 true false;
    52 0x8000_0001 0x7FFF_FFFF false false 0x1CA => 0x0000_0000 false true;
    53 0x0000_0003 0xA367_5D3C false true 0x14D => 0x5C98_A2C7 false false;
    53 0x9958_EBDE 0x45B9_FF7B false true 0x01F => 0x539E_EC63 true false;
    53 0x0000_0200 0x0000_0200 true false 0x099 => 0x0000_0000 false true;
    54 0x58A9_4351 0x4000_0000 true false 0x1B5 => 0x98A9_4352 true false;
    54 0x0000_0021 0xF080_AA3E false false 0x180 => 0xF080_AA5F false false;
    54 0x7FFF_FFFF 0xC000_0000 false true 0x079 => 0x3FFF_FFFF false false;
    55 0x0000_0200 0x192B_579B true true 0x13D => 0xE6D4_AA64 false false;
    55 0x8000_0000 0x0000_0001 false false 0x011 => 0x7FFF_FFFF true false;
    55 0xC000_0000 0xFFFF_FFFE true false 0x169 => 0xC000_0001 false false;
    56 0xFFFF_FFFF 0x0000_0003 false false 0x085 => 0xFFFF_FFFC true false;
    56 0x0000_0021 0x5555_5555 true false 0x0B1 => 0x0000_0021 false false;
    56 0x0000_0200 0x0000_0200 false true 0x1E1 => 0x0000_0000 true true;
    57 0x0000_0200 0x8000_0000 true false 0x126 => 0x0000_01FF false false;
    57 0x0000_0000 0x0000_0020 false true 0x154 => 0xFFFF_FFFF true false;
    57 0x4000_0000 0x669A_BD6E false false 0x1A3 => 0x3FFF_FFFF false false;
    58 0x0000_01FF 0x0000_0001 true true 0x167 => 0x0000_01FF false false;
    58 0x0000_0000 0x8000_0000 false false 0x040 => 0x0000_0000 false true;
    58 0x8000_0001 0x4000_0000 false true 0x0B7 => 0x8000_0001 false false;
    59 0x4BEA_09E1 0x1F53_BA6F false true 0x17E => 0x4BEA_09E1 false false;
    59 0x0000_0000 0x0000_01FF true true 0x01B => 0x0000_0000 false true;
    59 0xCEBB_A174 0xEDDE_E15A false false 0x052 => 0xCEBB_A174 false false;
};

/// Whether a case is one of the table's opcodes and has the effect that it names.
fn is_met(case: &Case) -> bool {
    let (opcode, d, s, c, z, next, result, c_after, z_after) = *case;
    if opcode < 8 || opcode > 59 || next >= 512 {
        return false;
    }
    let i = Instr {
        opcode,
        flags: 0,
        cond: 15,
        dest: 0,
        source: 0,
    };
    let effect = execute(i, d, s, c, z, next);
    effect.result == result && effect.c == c_after && effect.z == z_after
}

#[test]
fn gives_what_the_table_says(rt: HostRuntime) {
    for case in &CASES {
        assert!(rt;
            is_met(case),
            "opcode {}, D {}, S {}",
            case.0,
            case.1,
            case.2
        );
    }
}
