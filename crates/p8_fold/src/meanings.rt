// What a name may mean to an expression, and where the expression stands.

/// What a name means where a constant is needed.
#[derive(Clone, Copy, Debug, PartialEq, Eq)]
pub enum Meaning {
    /// A constant, with its value.
    Value(u32),
    /// A label of DAT: its cog address in longs, which is its value, and its offset in the object, which is the value of
    /// `@` before it.
    Label { cog: u32, offset: u32 },
    /// An object, whose constants stand after `#`.
    Object,
    /// Anything else: a variable, a method, or a word of a method.
    Other,
}

/// What the value of an expression takes from where the expression stands.
#[derive(Clone, Copy, Debug, PartialEq, Eq)]
pub struct Here {
    /// What `$` is, where it has a value.
    pub address: Option<u32>,
    /// Whether the name of a register has a value, its address: it has one in an operand of an instruction, and nowhere
    /// else.
    pub registers: bool,
}
