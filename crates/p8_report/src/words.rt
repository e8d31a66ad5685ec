// What the texts of accesses are made of.
ghost use Rattle.std.specs.Prelude.{◌≡◌, length};
ghost use Rattle.p8_access.specs.Proper.{value_of};
ghost use Rattle.p8_report.specs.Text.{code_of, parameter_of, kind_text};

use p8_access::{Answer, Origin};

/// The value in an answer, or 0 where it has none.
#[inline]
pub fn value_in(answer: Answer) -> u32
    ensures { result ≡ value_of answer }
{
    match answer {
        Answer::Value(value) => value,
        Answer::Done | Answer::Number(_) | Answer::Was(_) => 0,
    }
}

/// What kind of code a cog is started with.
#[inline]
pub fn kind_name(origin: &Origin) -> &'static [u8]
    ensures name { result.now ≡ kind_text origin.now }
    ensures length { length result.now ≡ 4 }
{
    match origin {
        Origin::Pasm { .. } => b"pasm",
        Origin::Spin { .. } => b"spin",
    }
}

/// The address of the code that a cog is started with.
#[inline]
pub fn code_in(origin: &Origin) -> u16
    ensures { result ≡ code_of origin.now }
{
    match origin {
        Origin::Pasm { code, .. } => *code,
        Origin::Spin { entry, .. } => *entry,
    }
}

/// The value of PAR, or the frame.
#[inline]
pub fn parameter_in(origin: &Origin) -> u16
    ensures { result ≡ parameter_of origin.now }
{
    match origin {
        Origin::Pasm { par, .. } => *par,
        Origin::Spin { frame, .. } => *frame,
    }
}
