// The uses of names, and which kinds fit them.
ghost use Rattle.std.specs.Prelude.{◌≡◌, Some};
ghost use Rattle.p8_kinds.specs.Uses.{wrong, unless_called_with, argument_count};

use crate::name_kinds::NameKind;
use p8_tree::Refusal;

/// How a name stands in a statement or in an expression.
#[derive(Clone, Copy, Debug, PartialEq, Eq)]
pub enum Use {
    /// Alone, as a value; a method without parameters is called there.
    Value,
    /// As a variable: with an index or with a size after it, written, after `@`, or as the counter of a `REPEAT`.
    Variable,
    /// As a method with so many arguments; a name that is a whole statement has none.
    Method(usize),
    /// As an object, before `.` or `#`.
    Object,
}

impl Use {
    /// The refusal of a name of this kind in this use, where it has one: `Unknown` where the name has no definition, `WrongKind`
    /// where its kind doesn't fit, `WrongArity` where a method has another number of parameters.
    pub fn refusal(self, kind: Option<NameKind>) -> Option<Refusal>
        ensures { result ≡ wrong self kind }
    {
        match kind {
            None => Some(Refusal::Unknown),
            Some(kind) => self.misfit(kind),
        }
    }

    // The refusal of a kind.
    fn misfit(self, kind: NameKind) -> Option<Refusal>
        ensures { result ≡ wrong self (Some kind) }
    {
        match (self, kind) {
            (Use::Value, NameKind::Method { params, .. }) => unless_called_with(params, 0),
            (Use::Value, NameKind::Object { .. }) => Some(Refusal::WrongKind),
            (Use::Value, _) => None,
            (
                Use::Variable,
                NameKind::Global { .. } | NameKind::Local { .. } | NameKind::Label { .. },
            ) => None,
            (Use::Method(arguments), NameKind::Method { params, .. }) => {
                unless_called_with(params, arguments)
            }
            (Use::Object, NameKind::Object { .. }) => None,
            _ => Some(Refusal::WrongKind),
        }
    }
}

// `WrongArity` where a method has another number of parameters.
fn unless_called_with(params: u8, arguments: usize) -> Option<Refusal>
    ensures { result ≡ unless_called_with params arguments }
{
    if usize::from(params) == arguments {
        None
    } else {
        Some(Refusal::WrongArity)
    }
}

/// How many arguments a built-in has, by its bytecode; 00 is `CONSTANT`.
pub fn argument_count(code: u8) -> usize
    ensures { result ≡ argument_count code }
{
    match code {
        0x00 | 0x16 | 0x21 | 0x22 | 0x23 | 0x2A | 0x2B => 1,
        0x17 | 0x2C => 2,
        0x18 | 0x19 | 0x1A | 0x1B | 0x1C | 0x1D | 0x1E | 0x1F | 0x28 => 3,
        _ => 0,
    }
}
