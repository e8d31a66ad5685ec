// The result and the flags of one instruction.
ghost use Rattle.std.specs.Prelude.{◌≡◌, ◌<◌, ◌≤◌};
ghost use Rattle.p8_alu.specs.Effects.{effect_of};

use crate::effect::Effect;
use crate::operations::{
    absolute, difference, greater_signed, highest_bit, is_below_signed, lesser_signed, lowest_bit,
    negated, negated_where, reduced, rotated_left, rotated_right, shifted_left_filling,
    shifted_right_filling, shifted_right_signed, with_destination, with_instruction, with_mask,
    with_source,
};
use crate::sums::{
    difference_or_sum, signed_comparison_with, signed_difference, signed_difference_with,
    signed_sum, signed_sum_with,
};
use p8_instr::Instr;
use p8_words::reverse;

/// The result of an instruction and the flags that it would write, by its opcode from 8 to 59.
///
/// `d` and `s` are the values of the destination and the source, `c` and `z` the flags before, and
/// `next` is the address after the instruction's, below 512, which JMPRET keeps. Neither the
/// instruction's condition nor its bits for what is written are looked at.
///
/// It is always inlined, since the loop of a cog is to hold it and isn't its only caller.
#[tactic(auto, unfolding(crate::specs::Effects::rows))]
#[inline(always)]
pub fn execute(i: Instr, d: u32, s: u32, c: bool, z: bool, next: u16) -> Effect
    requires first { 8 ≤ i.opcode }
    requires last { i.opcode ≤ 59 }
    requires next { next < 512 }
    ensures { result ≡ effect_of i.opcode d s c z next }
{
    match i.opcode {
        // ROR, ROL, SHR, SHL, RCR, RCL, SAR, REV
        8 => Effect::of(rotated_right(d, s % 32), lowest_bit(d)),
        9 => Effect::of(rotated_left(d, s % 32), highest_bit(d)),
        10 => Effect::of(d >> (s % 32), lowest_bit(d)),
        11 => Effect::of(d << (s % 32), highest_bit(d)),
        12 => Effect::of(shifted_right_filling(d, s % 32, c), lowest_bit(d)),
        13 => Effect::of(shifted_left_filling(d, s % 32, c), highest_bit(d)),
        14 => Effect::of(shifted_right_signed(d, s % 32), lowest_bit(d)),
        15 => Effect::of(reverse(d) >> (s % 32), lowest_bit(d)),
        // MINS, MAXS, MIN, MAX
        16 => Effect::of_comparison(greater_signed(d, s), is_below_signed(d, s), d == s),
        17 => Effect::of_comparison(lesser_signed(d, s), is_below_signed(d, s), d == s),
        18 => Effect::of_comparison(d.max(s), d < s, d == s),
        19 => Effect::of_comparison(d.min(s), d < s, d == s),
        // MOVS, MOVD, MOVI, JMPRET
        20 => Effect::of(with_source(d, s), false),
        21 => Effect::of(with_destination(d, s), false),
        22 => Effect::of(with_instruction(d, s), false),
        23 => Effect::of(with_source(d, u32::from(next)), false),
        // AND, ANDN, OR, XOR, MUXC, MUXNC, MUXZ, MUXNZ
        24 => Effect::of_bits(d & s),
        25 => Effect::of_bits(d & !s),
        26 => Effect::of_bits(d | s),
        27 => Effect::of_bits(d ^ s),
        28 => Effect::of_bits(with_mask(c, d, s)),
        29 => Effect::of_bits(with_mask(!c, d, s)),
        30 => Effect::of_bits(with_mask(z, d, s)),
        31 => Effect::of_bits(with_mask(!z, d, s)),
        // ADD, SUB, ADDABS, SUBABS, SUMC, SUMNC, SUMZ, SUMNZ
        32 => Effect::of_sum(u64::from(d) + u64::from(s)),
        33 => Effect::of_difference(d, u64::from(s)),
        34 => Effect::of_sum(u64::from(d) + u64::from(absolute(s))),
        35 => Effect::of_difference(d, u64::from(absolute(s))),
        36 => difference_or_sum(c, d, s),
        37 => difference_or_sum(!c, d, s),
        38 => difference_or_sum(z, d, s),
        39 => difference_or_sum(!z, d, s),
        // MOV, NEG, ABS, ABSNEG, NEGC, NEGNC, NEGZ, NEGNZ
        40 => Effect::of(s, highest_bit(s)),
        41 => Effect::of(negated(s), highest_bit(s)),
        42 => Effect::of(absolute(s), highest_bit(s)),
        43 => Effect::of(negated(absolute(s)), highest_bit(s)),
        44 => Effect::of(negated_where(c, s), highest_bit(s)),
        45 => Effect::of(negated_where(!c, s), highest_bit(s)),
        46 => Effect::of(negated_where(z, s), highest_bit(s)),
        47 => Effect::of(negated_where(!z, s), highest_bit(s)),
        // CMPS, CMPSX, ADDX, SUBX, ADDS, SUBS, ADDSX, SUBSX
        48 => Effect::of(difference(d, s), is_below_signed(d, s)),
        49 => signed_comparison_with(d, s, c).keeping(z),
        50 => Effect::of_sum(u64::from(d) + u64::from(s) + c as u64).keeping(z),
        51 => Effect::of_difference(d, u64::from(s) + c as u64).keeping(z),
        52 => signed_sum(d, s),
        53 => signed_difference(d, s),
        54 => signed_sum_with(d, s, c).keeping(z),
        55 => signed_difference_with(d, s, c).keeping(z),
        // CMPSUB, DJNZ, TJNZ, TJZ
        56 => Effect::of(reduced(d, s), d >= s),
        57 => Effect::of(difference(d, 1), d == 0),
        58 => Effect::of(d, false),
        59 => Effect::of(d, false),
        _ => unreachable!(),
    }
}
