// How large a method's frame is.
ghost use Rattle.std.specs.Prelude.{◌≡◌, ◌+◌, ◌-◌, ◌^◌, ◌||◌, nat_lt, min, map, option_map};
ghost use Rattle.p8_tree.specs.Views.{tree_of, declared_of};
ghost use Rattle.p8_gen.specs.Scopes.{names_of};
ghost use Rattle.p8_stmt.specs.Cutting.{cut_longs};
ghost use Rattle.p8_stmt.specs.Methods.{count_in, longs_in, most_longs, most_held};

use p8_gen::Coder;
use p8_tree::{Expr, VarItem};

/// The longs of a method's locals, or the greatest number of 32 bits where they are more.
pub(crate) fn longs_in(coder: &Coder<'_>, locals: &[VarItem]) -> u32
    ensures { result ≡ cut_longs (longs_in (names_of coder.now).constants (map declared_of locals.now)) }
{
    let mut longs: u32 = 0;
    for local in locals {
        longs = longs.saturating_add(count_in(coder, &local.count));
    }
    longs
}

// The longs of a local, by its count.
fn count_in(coder: &Coder<'_>, count: &Option<Expr>) -> u32
    ensures { result ≡ count_in (names_of coder.now).constants (option_map tree_of count.now) }
{
    match count {
        None => 1,
        Some(count) => coder.constant(count),
    }
}

/// The longs of a frame with so many parameters and longs of locals, or the greatest number of 32 bits where they are more.
pub(crate) fn frame_longs(params: usize, longs: u32) -> u32
    ensures { result ≡ min (1 + params + longs) (2 ^ 32 - 1) }
{
    let all = params.saturating_add(1).saturating_add(longs as usize);
    if all < u32::MAX as usize {
        all as u32
    } else {
        u32::MAX
    }
}

/// How large a method is: what the refusal 26 compares with its limits.
#[derive(Clone, Copy, Debug, PartialEq, Eq)]
pub struct MethodSize {
    /// The longs of its frame: its result, its parameters and its locals. 4,294,967,295 stands for as many or more.
    pub longs: u32,
    /// How many longs it holds at once on the operand stack. 65,535 stands for as many or more.
    pub held: u16,
}

impl MethodSize {
    /// Whether a method of this size is refused with 26: its frame has more than 2,048 longs, or it holds more than 128 at once.
    pub fn is_too_large(self) -> bool
        ensures { result ≡ (nat_lt most_longs self.longs || nat_lt most_held self.held) }
    {
        self.longs > 2048 || self.held > 128
    }
}

/// Whether a frame with so many parameters and longs of locals is too large, or too much is held on the operand stack.
pub(crate) fn is_too_large(params: usize, longs: u32, held: u16) -> bool
    ensures { result ≡ (nat_lt most_longs (1 + params + longs) || nat_lt most_held held) }
{
    let size = MethodSize {
        longs: frame_longs(params, longs),
        held,
    };
    size.is_too_large()
}
