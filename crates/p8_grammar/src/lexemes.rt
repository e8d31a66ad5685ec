// What a token is to an expression.
ghost use Rattle.std.specs.Prelude.{◌≡◌};
ghost use Rattle.p8_grammar.specs.Lexemes.{inside, behind, is_value, allows_index, is_dat, is_written, has_bits, is_in};
ghost use Rattle.p8_grammar.specs.Views.{setting_of, access_of};

/// Where an expression stands.
#[derive(Clone, Copy)]
pub enum Setting {
    /// In a method.
    Method,
    /// Outside methods and DAT: in CON, VAR and OBJ.
    Declaration,
    /// In DAT: an operand of an instruction, or a value of `ORG`, `RES` or `FIT` or a count.
    Dat,
    /// An item of data in DAT, where no bracket outside parentheses and brackets is an index.
    DataItem,
    /// A statement that is an action: an assignment, a change of a variable, a call or a built-in.
    Action,
}

impl Setting {
    /// Whether a value stands here, and not an action.
    pub fn is_value(self) -> bool
        ensures { result ≡ is_value (setting_of self) }
    {
        match self {
            Setting::Method | Setting::Declaration | Setting::Dat | Setting::DataItem => true,
            Setting::Action => false,
        }
    }

    /// The setting of what is assigned.
    pub fn behind(self) -> Setting
        ensures { setting_of result ≡ behind (setting_of self) }
    {
        match self {
            Setting::Method | Setting::Action => Setting::Method,
            Setting::Declaration => Setting::Declaration,
            Setting::Dat => Setting::Dat,
            Setting::DataItem => Setting::DataItem,
        }
    }

    /// The setting inside parentheses and brackets.
    pub fn inside(self) -> Setting
        ensures { setting_of result ≡ inside (setting_of self) }
    {
        match self {
            Setting::Method | Setting::Action => Setting::Method,
            Setting::Declaration => Setting::Declaration,
            Setting::Dat | Setting::DataItem => Setting::Dat,
        }
    }

    /// Whether a bracket begins an index.
    pub fn allows_index(self) -> bool
        ensures { result ≡ allows_index (setting_of self) }
    {
        match self {
            Setting::Method | Setting::Declaration | Setting::Dat | Setting::Action => true,
            Setting::DataItem => false,
        }
    }

    /// Whether `$`, local labels and all registers may stand here.
    pub fn is_dat(self) -> bool
        ensures { result ≡ is_dat (setting_of self) }
    {
        match self {
            Setting::Method | Setting::Declaration | Setting::Action => false,
            Setting::Dat | Setting::DataItem => true,
        }
    }
}

/// What may be done with a variable.
#[derive(Clone, Copy)]
pub enum Access {
    /// In main memory: it is read and written, and has an address.
    Memory,
    /// `OUTA` and `DIRA`: they are read and written, whole or by bits.
    Pins,
    /// `INA`: it is read, whole or by bits.
    InputPins,
    /// `PAR` and `CNT`: they are read.
    Input,
    /// The other registers: they are read, in DAT alone.
    Assembly,
}

impl Access {
    /// Whether the variable may be written.
    pub fn is_written(self) -> bool
        ensures { result ≡ is_written (access_of self) }
    {
        match self {
            Access::Memory | Access::Pins => true,
            Access::InputPins | Access::Input | Access::Assembly => false,
        }
    }

    /// Whether the variable has bits of its own.
    pub fn has_bits(self) -> bool
        ensures { result ≡ has_bits (access_of self) }
    {
        match self {
            Access::Pins | Access::InputPins => true,
            Access::Memory | Access::Input | Access::Assembly => false,
        }
    }

    /// Whether the variable may stand in this setting.
    pub fn is_in(self, setting: Setting) -> bool
        ensures { result ≡ is_in (setting_of setting) (access_of self) }
    {
        match self {
            Access::Assembly => setting.is_dat(),
            Access::InputPins | Access::Input => setting.is_value(),
            Access::Memory | Access::Pins => true,
        }
    }
}

/// A mark between words.
#[derive(Clone, Copy)]
pub enum Punctuation {
    LeftParenthesis,
    RightParenthesis,
    LeftBracket,
    RightBracket,
    Comma,
    Colon,
    Dot,
    DotDot,
    Hash,
    Backslash,
    /// `=`, which with AND and OR makes an assignment.
    Equal,
}

/// What a token is to an expression, but for the characters of a name and of a string. Numbers are its rank and its
/// bytecode, its effect bytes, a size in bytes or a register's address.
///
/// A reserved word is what it means: behind the colon of a local label of DAT it is a name.
#[derive(Clone, Copy)]
pub enum Lexeme {
    Number(u32),
    Name,
    MethodResult,
    Str,
    Mark(Punctuation),
    /// An operator before its operand: its rank and its bytecode.
    Prefix(u8, u8),
    /// An operator between its operands: its rank and its bytecode.
    Infix(u8, u8),
    /// `+` or `-`: its bytecode before an operand, and between operands.
    Sign(u8, u8),
    /// `:=`, or a binary operator with `=`.
    Assigns(Option<u8>),
    /// `++`, `--`, `~` or `~~`: its effect byte before a variable, and after it.
    Changes(u8, u8),
    /// `@`
    Address,
    /// `@@`
    ObjectAddress,
    /// `BYTE`, `WORD` or `LONG`.
    Size(u8),
    Register(u16, Access),
    /// `$`
    Here,
    StringWord,
    ConstantWord,
    /// A `LOOK` function.
    Look(u8),
    /// `COGID`, `CLKFREQ` or `CLKMODE`.
    Value(u8),
    /// Another built-in that gives a value.
    BuiltIn(u8),
    /// A built-in that gives no value: an action.
    Command(u8),
    /// What stands in no expression and no action.
    Other,
}
