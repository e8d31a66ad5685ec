// What is told.
ghost use Rattle.std.specs.Prelude.{◌≡◌};
ghost use Rattle.p8_hint.specs.Sentences.{rule_name, sentence};

use p8_tree::Place;

/// Why a line is told. The name of a rule stands first in each of its variants.
#[derive(Clone, Copy, Debug, PartialEq, Eq)]
pub enum Slip {
    /// A whole test is an assignment by `:=`.
    AssignsInTest,
    /// A whole test is an assignment by `<=`.
    AssignsLessInTest,
    /// A whole test is an assignment by `>=`.
    AssignsGreaterInTest,
    /// A whole test is an assignment by `===`.
    AssignsEqualInTest,
    /// An opener has no body, and the next line stands at its column.
    NoBody,
    /// A jump to a label has no `#`.
    NoNumberSignInJump,
    /// A source operand that is a number has no `#`.
    NoNumberSign,
    /// The stack of a method is a variable's value.
    NoAddress,
    /// The stack of a method is at address 0.
    NoAddressAtAll,
    /// The stack of a method has fewer bytes than its frame and its operands.
    ShortStack {
        /// The bytes of the array.
        bytes: u64,
        /// Those of the method's frame and of its operand stack.
        needed: u64,
    },
    /// A wait for pins of another port than 0.
    NotPortA,
    /// Nothing mentions a `PRI`.
    UnusedMethod,
    /// Nothing mentions a local.
    UnusedLocal,
    /// Nothing mentions a variable of `VAR`.
    UnusedVariable,
    /// A statement stands behind a loop that never ends.
    NeverEnds,
}

/// A hint: why a line is told, and where.
#[derive(Clone, Copy, Debug, PartialEq, Eq)]
pub struct Hint {
    pub place: Place,
    pub slip: Slip,
}

impl Slip {
    /// The name of its rule.
    pub fn rule_name(self) -> &'static str
        ensures { result.now ≡ rule_name self }
    {
        match self {
            Slip::AssignsInTest
            | Slip::AssignsLessInTest
            | Slip::AssignsGreaterInTest
            | Slip::AssignsEqualInTest => "AssignsInTest",
            Slip::NoBody => "NoBody",
            Slip::NoNumberSignInJump | Slip::NoNumberSign => "NoNumberSign",
            Slip::NoAddress | Slip::NoAddressAtAll => "NoAddress",
            Slip::ShortStack { .. } => "ShortStack",
            Slip::NotPortA => "NotPortA",
            Slip::UnusedMethod | Slip::UnusedLocal | Slip::UnusedVariable => "Unused",
            Slip::NeverEnds => "NeverEnds",
        }
    }

    /// What the line does, and what mends it, where no number stands in that.
    pub fn sentence(self) -> &'static str
        ensures { result.now ≡ sentence self }
    {
        match self {
            Slip::AssignsInTest =>
                "`:=` assigns here, and the test is the value that is assigned: to compare, write `==`.",
            Slip::AssignsLessInTest =>
                "`<=` assigns here, as x <= y is x := x < y: to compare, write `=<`.",
            Slip::AssignsGreaterInTest =>
                "`>=` assigns here, as x >= y is x := x > y: to compare, write `=>`.",
            Slip::AssignsEqualInTest =>
                "`===` assigns here, as x === y is x := x == y: to compare, write `==`.",
            Slip::NoBody =>
                "This has no body, for the next line stands at its column: indent the lines that belong to it.",
            Slip::NoNumberSignInJump =>
                "Without `#` this jumps to the address in the low bits of the instruction at the label: to jump to the label, write `#` before it.",
            Slip::NoNumberSign =>
                "Without `#` this is the register at that address: for the number itself, write `#` before it.",
            Slip::NoAddress =>
                "The value of this variable is passed as the address of the stack: to pass its address, write `@` before it.",
            Slip::NoAddressAtAll =>
                "A stack at address 0 lies over the program: declare an array in VAR, as long stack[32], and write `@stack`.",
            Slip::ShortStack { .. } => "",
            Slip::NotPortA => "There is port 0 alone, with the pins 0 to 31: write 0.",
            Slip::UnusedMethod => "Nothing calls or starts this PRI: use it, or take it out.",
            Slip::UnusedLocal => "Nothing uses this local: use it, or take it out.",
            Slip::UnusedVariable => "Nothing uses this variable: use it, or take it out.",
            Slip::NeverEnds =>
                "This is never done, for the loop before it has neither a condition nor a QUIT: move it to another place, or leave the loop by QUIT.",
        }
    }
}
