// A bytecode with what stands after it.

/// One bytecode with its operands and its effect. What a bytecode doesn't have is 0 or `false`.
///
/// Source: the public Spin bytecode listing of the Propeller P8X32A.
#[derive(Clone, Copy, Debug, PartialEq, Eq)]
pub struct Op {
    /// The bytecode's byte.
    pub code: u8,
    /// The first operand: the jump's offset as a word in two's complement, counted from the byte after
    /// it; a method's number or a place in the object's table; a constant; a byte that packs a
    /// constant; a register's byte; or a variable's offset, below 2^15.
    pub first: u32,
    /// The second operand, a byte; or the offset of the jump that the effects 02 and 06 have, in the
    /// form of `first`.
    pub second: u32,
    /// The third operand, a byte.
    pub third: u32,
    /// The effect byte of a bytecode that changes a variable or a register.
    pub effect: u8,
    /// Whether the jump's offset has two bytes.
    pub long_form: bool,
}

ghost use Rattle.std.specs.Prelude.{◌≡◌};
ghost use Rattle.p8_bytecode.specs.Reading.{bare};

impl Op {
    // The bytecode with nothing beside its byte.
    #[inline]
    pub(crate) fn bare(code: u8) -> Op
        ensures { result ≡ bare code }
    {
        Op {
            code,
            first: 0,
            second: 0,
            third: 0,
            effect: 0,
            long_form: false,
        }
    }
}
