// What words mean, and what a word is sought by.

ghost use Rattle.std.specs.Prelude.{◌≡◌};
ghost use Rattle.p8_lexer.specs.Meanings.{finds};

/// What a word means.
///
/// Operators, built-ins and changes have the numbers of their bytecodes and effect bytes, registers those of their
/// addresses in a cog. An instruction that is an operator or a built-in too has its meaning in Spin.
#[derive(Clone, Copy)]
pub enum Meaning {
    /// `++`, `--`, `~` or `~~`: its effect byte before a variable, and after it.
    Changes(u8, u8),
    /// `@`
    Address,
    /// `@@`
    ObjectAddress,
    /// `+` or `-`: its bytecode before an operand, and between operands.
    Sign(u8, u8),
    /// An operator before its operand: its rank and its bytecode.
    Prefix(u8, u8),
    /// An operator between its operands: its rank and its bytecode.
    Infix(u8, u8),
    /// `:=`, or an operator between operands with `=`: its bytecode.
    Assigns(Option<u8>),
    /// Punctuation of expressions.
    Mark,
    /// `RESULT`
    MethodResult,
    /// `BYTE`, `WORD` or `LONG`, in bytes.
    Size(u8),
    /// A register, by its address.
    Register(u16),
    /// `$`
    Here,
    /// `STRING`
    StringWord,
    /// `CONSTANT`
    ConstantWord,
    /// A `LOOK` function.
    Look(u8),
    /// `COGID`, `CLKFREQ` or `CLKMODE`.
    Value(u8),
    /// Another built-in that gives a value.
    BuiltIn(u8),
    /// A built-in that gives no value.
    Command(u8),
    /// An instruction with a destination and a source that isn't on main memory.
    TwoOperands,
    /// An instruction on main memory.
    OnMemory,
    /// A condition: bit 2C + Z says whether the instruction is executed.
    Condition(u8),
    /// An effect of an instruction, as a bit: `WZ` is 1, `WC` 2, `WR` 4 and `NR` 8.
    Effect(u8),
    /// No more than the word itself.
    Nothing,
}

/// What a word is sought by: a number that trees have.
#[derive(Clone, Copy)]
pub enum Sought {
    /// An operator, by its bytecode.
    Operator(u8),
    /// An assignment by an operator, by its bytecode.
    Assignment(u8),
    /// A change, by its effect byte.
    Change(u8),
    /// A size, in bytes.
    Size(u8),
    /// A register, by its address.
    Register(u16),
    /// A built-in or a `LOOK` function, by its number; that of `CONSTANT` is 0.
    BuiltIn(u8),
    /// A condition, by its bits.
    Condition(u8),
}

impl Sought {
    /// Whether a word that means this is sought.
    pub fn finds(self, meaning: Meaning) -> bool
        ensures { result ≡ finds self meaning }
    {
        match self {
            Sought::Operator(k) => match meaning {
                Meaning::Sign(before, between) => before == k || between == k,
                Meaning::Prefix(_, code) => code == k,
                Meaning::Infix(_, code) => code == k,
                _ => false,
            },
            Sought::Assignment(k) => match meaning {
                Meaning::Assigns(Some(code)) => code == k,
                _ => false,
            },
            Sought::Change(k) => match meaning {
                Meaning::Changes(before, after) => before == k || after == k,
                _ => false,
            },
            Sought::Size(k) => match meaning {
                Meaning::Size(bytes) => bytes == k,
                _ => false,
            },
            Sought::Register(k) => match meaning {
                Meaning::Register(address) => address == k,
                _ => false,
            },
            Sought::BuiltIn(k) => match meaning {
                Meaning::ConstantWord => k == 0,
                Meaning::Look(code) => code == k,
                Meaning::Value(code) => code == k,
                Meaning::BuiltIn(code) => code == k,
                Meaning::Command(code) => code == k,
                _ => false,
            },
            Sought::Condition(k) => match meaning {
                Meaning::Condition(bits) => bits == k,
                _ => false,
            },
        }
    }
}
