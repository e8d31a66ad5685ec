//! The instructions of a cog: the fields of one in its long, its words in assembly source, and its text; and numbers in print.
#![tactic(auto)]

mod appending;
mod conditions;
mod instruction;
mod instructions;
mod mnemonics;
mod numerals;

pub use appending::push_text;
pub use conditions::{condition_name, condition_of};
pub use instruction::{ALWAYS, FLAG_C, FLAG_I, FLAG_R, FLAG_Z, Instr, decode, encode};
pub use instructions::instr_text;
pub use mnemonics::{default_of, mnemonic};
pub use numerals::{byte_digits, long_digits, register_digits, word_digits};
