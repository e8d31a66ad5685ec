// Why a source is refused, for every part of the compiler.
ghost use Rattle.std.specs.Prelude.{◌≡◌, ◌≢◌, MatchOption};
ghost use Rattle.p8_tree.specs.declared.refusal.Refusal as refusal;
ghost use Rattle.p8_tree.specs.Refusals.{refusal_number, name_of, numbered, name_numbered};
ghost use Rattle.p8_tree.specs.Faults.{fault};

use crate::faults::Fault;
use crate::places::Place;

/// Why a source is refused.
///
/// The compiler tells a refusal by its number and its name; the number of the first is 1.
#[derive(Clone, Copy, Debug, PartialEq, Eq)]
pub enum Refusal {
    /// A character begins no token, or a UTF-16 file ends in half a unit.
    BadByte,
    /// A number has no digit, is above 4,294,967,295, or has another letter or digit at its end.
    BadNumber,
    /// A comment isn't closed.
    OpenComment,
    /// A string isn't closed on its line.
    OpenString,
    /// A name has more than 30 characters.
    NameTooLong,
    /// Nothing may go on with this token.
    Unexpected,
    /// An `ELSE` kind, `WHILE` or `UNTIL` has no opener at its column.
    BadIndent,
    /// An expression is higher than 64, or more than 64 blocks are open.
    TooNested,
    /// Floating point.
    Float,
    /// The machine doesn't have it.
    Unsupported,
    /// `NEXT` or `QUIT` stands in no `REPEAT`.
    LoopWord,
    /// A constant is needed, and the expression uses something else, or itself.
    NotConstant,
    /// The divisor of a constant `/` or `//` is 0.
    ZeroDivisor,
    /// A name is defined twice in its space.
    Duplicate,
    /// A name has no definition.
    Unknown,
    /// A name's kind doesn't fit its use.
    WrongKind,
    /// The number of arguments differs, or a method has more than 15 parameters.
    WrongArity,
    /// The top file has no `PUB`.
    NoPub,
    /// A file's objects lead back to itself.
    Cycle,
    /// A file has more than 255 items of `OBJ` or instances, an item has none, or the project has more than 255 files.
    TooManyObjects,
    /// An instruction's operand isn't from 0 to 511, or is a label that isn't on a long.
    OperandRange,
    /// The cog address at `FIT` is above its value, or above $1F0.
    FitExceeded,
    /// The value of `ORG` is above 496.
    OrgRange,
    /// `CALL #x` has no label `x_RET`.
    NoRetLabel,
    /// A jump of a statement would go more than 16,384 bytes back or 16,383 forth.
    JumpTooFar,
    /// A method's result, parameters and locals are more than 2,048 longs, or it holds more than 128 longs on the operand stack at once.
    FrameTooLarge,
    /// A file has more than 254 methods, or methods and object instances together are more than 255.
    TooManyMethods,
    /// The first frame would end beyond the hub's 32,768 bytes.
    ImageTooLarge,
    /// `_CLKMODE` is no mode, or an outer clock has no frequency or two that differ.
    BadClock,
    /// A source has more than 1,048,576 bytes.
    FileTooLong,
    /// An item of `STRING` has a value that isn't from 1 to 255.
    NotCharacter,
}

impl Refusal {
    /// The number of this refusal, from 1 to 31.
    pub fn number(self) -> u8
        ensures { result ≡ refusal_number self }
    {
        self as u8 + 1
    }

    /// The fault of what is refused so at a place.
    pub fn at(self, place: Place) -> Fault
        ensures { result ≡ fault self place }
    {
        Fault {
            number: self.number(),
            place,
        }
    }

    /// The name of this refusal, as it is printed.
    pub fn name(self) -> &'static str
        ensures { result.now ≡ name_of self }
    {
        match self {
            Refusal::BadByte => "BadByte",
            Refusal::BadNumber => "BadNumber",
            Refusal::OpenComment => "OpenComment",
            Refusal::OpenString => "OpenString",
            Refusal::NameTooLong => "NameTooLong",
            Refusal::Unexpected => "Unexpected",
            Refusal::BadIndent => "BadIndent",
            Refusal::TooNested => "TooNested",
            Refusal::Float => "Float",
            Refusal::Unsupported => "Unsupported",
            Refusal::LoopWord => "LoopWord",
            Refusal::NotConstant => "NotConstant",
            Refusal::ZeroDivisor => "ZeroDivisor",
            Refusal::Duplicate => "Duplicate",
            Refusal::Unknown => "Unknown",
            Refusal::WrongKind => "WrongKind",
            Refusal::WrongArity => "WrongArity",
            Refusal::NoPub => "NoPub",
            Refusal::Cycle => "Cycle",
            Refusal::TooManyObjects => "TooManyObjects",
            Refusal::OperandRange => "OperandRange",
            Refusal::FitExceeded => "FitExceeded",
            Refusal::OrgRange => "OrgRange",
            Refusal::NoRetLabel => "NoRetLabel",
            Refusal::JumpTooFar => "JumpTooFar",
            Refusal::FrameTooLarge => "FrameTooLarge",
            Refusal::TooManyMethods => "TooManyMethods",
            Refusal::ImageTooLarge => "ImageTooLarge",
            Refusal::BadClock => "BadClock",
            Refusal::FileTooLong => "FileTooLong",
            Refusal::NotCharacter => "NotCharacter",
        }
    }

    /// The refusal of this number, where it's from 1 to 31.
    #[tactic(auto, unfolding(crate::specs::Refusals::numbered))]
    pub fn numbered(number: u8) -> Option<Refusal>
        ensures told { result ≡ numbered number }
        ensures has { MatchOption result ((r : refusal.Refusal) → refusal_number r ≢ number) (λ r. refusal_number r ≡ number) }
    {
        match number {
            1 => Some(Refusal::BadByte),
            2 => Some(Refusal::BadNumber),
            3 => Some(Refusal::OpenComment),
            4 => Some(Refusal::OpenString),
            5 => Some(Refusal::NameTooLong),
            6 => Some(Refusal::Unexpected),
            7 => Some(Refusal::BadIndent),
            8 => Some(Refusal::TooNested),
            9 => Some(Refusal::Float),
            10 => Some(Refusal::Unsupported),
            11 => Some(Refusal::LoopWord),
            12 => Some(Refusal::NotConstant),
            13 => Some(Refusal::ZeroDivisor),
            14 => Some(Refusal::Duplicate),
            15 => Some(Refusal::Unknown),
            16 => Some(Refusal::WrongKind),
            17 => Some(Refusal::WrongArity),
            18 => Some(Refusal::NoPub),
            19 => Some(Refusal::Cycle),
            20 => Some(Refusal::TooManyObjects),
            21 => Some(Refusal::OperandRange),
            22 => Some(Refusal::FitExceeded),
            23 => Some(Refusal::OrgRange),
            24 => Some(Refusal::NoRetLabel),
            25 => Some(Refusal::JumpTooFar),
            26 => Some(Refusal::FrameTooLarge),
            27 => Some(Refusal::TooManyMethods),
            28 => Some(Refusal::ImageTooLarge),
            29 => Some(Refusal::BadClock),
            30 => Some(Refusal::FileTooLong),
            31 => Some(Refusal::NotCharacter),
            _ => None,
        }
    }
}

/// The name of the refusal of this number, as it is printed; empty where there is no such refusal.
pub fn refusal_name(number: u8) -> &'static str
    ensures { result.now ≡ name_numbered number }
{
    match Refusal::numbered(number) {
        Some(refusal) => refusal.name(),
        None => "",
    }
}
