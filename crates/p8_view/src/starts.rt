// What cogs are started with, and why they halt.
ghost use Rattle.std.specs.Prelude.{◌≡◌, ◌++◌, OnOk};
ghost use Rattle.p8_report.specs.Text.{reason_text};
ghost use Rattle.p8_view.specs.Words.{start_text};

use crate::words::push_long;
use p8_access::{Origin, Reason};
use p8_instr::{push_text, register_digits, word_digits};
use p8_legend::Legend;
use p8_report::{code_in, kind_name, parameter_in};
use p8_words::NoMemory;

/// Appends what a cog is started with.
pub(crate) fn push_start(
    out: &mut Vec<u8>,
    legend: &Legend,
    origin: &Origin,
) -> Result<(), NoMemory>
    ensures { OnOk result (out.new.items ≡ out.old.items ++ start_text legend.now.names origin.now) }
{
    push_text(out, kind_name(origin))?;
    push_text(out, b" ")?;
    legend.push_address(out, code_in(origin))?;
    push_text(out, b" ")?;
    legend.push_address(out, parameter_in(origin))
}

/// Appends why a cog halted.
pub(crate) fn push_reason(out: &mut Vec<u8>, reason: Reason) -> Result<(), NoMemory>
    ensures { OnOk result (out.new.items ≡ out.old.items ++ reason_text reason) }
{
    match reason {
        Reason::Opcode(long) => push_long(out, b"opcode ", long),
        Reason::Register(register) => {
            push_text(out, b"register ")?;
            push_text(out, &register_digits(u32::from(register)))
        }
        Reason::Rom(address) => {
            push_text(out, b"rom ")?;
            push_text(out, &word_digits(u32::from(address)))
        }
        Reason::Byte(address) => {
            push_text(out, b"byte ")?;
            push_text(out, &word_digits(u32::from(address)))
        }
        Reason::Deep => push_text(out, b"deep"),
        Reason::Stack => push_text(out, b"stack"),
        Reason::Under => push_text(out, b"under"),
        Reason::Table => push_text(out, b"table"),
        Reason::Port => push_text(out, b"port"),
        Reason::Reset => push_text(out, b"reset"),
    }
}
