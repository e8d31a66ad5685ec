// The diagram: what may stand next at each state.
ghost use Rattle.std.specs.Prelude.{◌≡◌, false, option_map, MatchOption};
ghost use Rattle.p8_grammar.specs.Views.{setting_of};
ghost use Rattle.p8_lines.specs.Diagram.{choices, setting_at, behind_in, behind_name_in};

use crate::arrow::Arrow;
use crate::sign::Sign;
use crate::state::LineState;
use p8_grammar::Setting;
use p8_lexer::Word;

// The tokens that may stand next, each with the state to which it leads: a word, or in brackets a
// kind of words.
macro_rules! arrows {
    ($($sign:tt => $to:ident),* $(,)?) => {
        &[$(Arrow { sign: sign!($sign), to: LineState::$to }),*]
    };
}

macro_rules! sign {
    ([$kind:ident]) => { Sign::$kind };
    ($word:ident) => { Sign::Word(Word::$word) };
}

impl LineState {
    /// The tokens that may stand next.
    pub fn arrows(self) -> &'static [Arrow]
        ensures { result.now ≡ (choices self).arrows }
    {
        match self {
            // The line has ended.
            LineState::LineEnd => arrows![LineEnd => End],
            // CON: items `name = e`, `#e`, `name` and `name[e]`, with commas between them.
            LineState::ConHead => arrows![LineEnd => End, Name => ConName, Hash => ConValue],
            LineState::ConItem => arrows![Name => ConName, Hash => ConValue],
            LineState::ConName => arrows![
                EqualSign => ConValue, LeftBracket => ConStep, Comma => ConItem, LineEnd => End,
            ],
            LineState::ConMore => arrows![Comma => ConItem, LineEnd => End],
            // VAR: a size and names with counts in brackets, with commas between them.
            LineState::VarHead => arrows![LineEnd => End, [Size] => VarName],
            LineState::VarLine => arrows![[Size] => VarName],
            LineState::VarName => arrows![Name => VarNamed],
            LineState::VarNamed =>
                arrows![LeftBracket => VarCount, Comma => VarName, LineEnd => End],
            LineState::VarMore => arrows![Comma => VarName, LineEnd => End],
            // OBJ: `name : "file"` or `name[e] : "file"`.
            LineState::ObjHead => arrows![LineEnd => End, Name => ObjNamed],
            LineState::ObjLine => arrows![Name => ObjNamed],
            LineState::ObjNamed => arrows![LeftBracket => ObjCount, Colon => ObjFile],
            LineState::ObjColon => arrows![Colon => ObjFile],
            LineState::ObjFile => arrows![[Text] => LineEnd],
            // PUB and PRI: a name, parameters in parentheses, `: name` for the result and `| name, name[e]` for locals.
            LineState::MethodName => arrows![Name => MethodNamed],
            LineState::MethodNamed => arrows![
                LeftParenthesis => Parameter, Colon => ResultName, BitOr => Local, LineEnd => End,
            ],
            LineState::Parameter => arrows![Name => MoreParameters],
            LineState::MoreParameters =>
                arrows![Comma => Parameter, RightParenthesis => Parameters],
            LineState::Parameters => arrows![Colon => ResultName, BitOr => Local, LineEnd => End],
            LineState::ResultName => arrows![Name => ResultNamed],
            LineState::ResultNamed => arrows![BitOr => Local, LineEnd => End],
            LineState::Local => arrows![Name => LocalNamed],
            LineState::LocalNamed =>
                arrows![LeftBracket => LocalCount, Comma => Local, LineEnd => End],
            LineState::MoreLocals => arrows![Comma => Local, LineEnd => End],
            // DAT: an optional label, then data, ORG, RES, FIT or an instruction.
            LineState::DatHead => arrows![
                LineEnd => End, Name => DatBody, Colon => DatLabel, [Size] => FirstData,
                Org => DatValue, Res => DatValue, Fit => DatValue, [Condition] => Conditioned,
                [TwoOperands] => Destination, [Memory] => MemoryDestination,
                [OneOperand] => OnlyDestination, Jmp => Source, Call => CallHash, Ret => Effects,
                Nop => LineEnd,
            ],
            LineState::DatLine => arrows![
                Name => DatBody, Colon => DatLabel, [Size] => FirstData, Org => DatValue,
                Res => DatValue, Fit => DatValue, [Condition] => Conditioned,
                [TwoOperands] => Destination, [Memory] => MemoryDestination,
                [OneOperand] => OnlyDestination, Jmp => Source, Call => CallHash, Ret => Effects,
                Nop => LineEnd,
            ],
            LineState::DatLabel => arrows![[Label] => DatBody],
            LineState::DatBody => arrows![
                LineEnd => End, [Size] => FirstData, Org => DatValue, Res => DatValue,
                Fit => DatValue, [Condition] => Conditioned, [TwoOperands] => Destination,
                [Memory] => MemoryDestination, [OneOperand] => OnlyDestination, Jmp => Source,
                Call => CallHash, Ret => Effects, Nop => LineEnd,
            ],
            LineState::DatValue => arrows![LineEnd => End],
            LineState::FirstData => arrows![
                LineEnd => End, [Size] => DataValue, [LongText] => MoreData,
            ],
            LineState::Data => arrows![[Size] => DataValue, [LongText] => MoreData],
            LineState::DataValue => arrows![[LongText] => MoreData],
            LineState::MoreData => arrows![Comma => Data, LineEnd => End],
            LineState::Conditioned => arrows![
                [TwoOperands] => Destination, [Memory] => MemoryDestination,
                [OneOperand] => OnlyDestination, Jmp => Source, Call => CallHash, Ret => Effects,
                Nop => LineEnd,
            ],
            LineState::Source => arrows![Hash => SourceValue],
            LineState::MemorySource => arrows![Hash => MemorySourceValue],
            LineState::CallHash => arrows![Hash => CallLabel],
            LineState::CallLabel => arrows![Name => Effects, Colon => CallLocal],
            LineState::CallLocal => arrows![[Label] => Effects],
            LineState::Effects => arrows![
                [Flag] => MoreEffects, [Write] => MoreEffects, LineEnd => End,
            ],
            LineState::MoreEffects => arrows![
                [Flag] => MoreEffects, [Write] => MoreEffects, Comma => Effect, LineEnd => End,
            ],
            LineState::Effect => arrows![[Flag] => MoreEffects, [Write] => MoreEffects],
            LineState::MoreFlags =>
                arrows![[Flag] => MoreFlags, Comma => FlagEffect, LineEnd => End],
            LineState::FlagEffect => arrows![[Flag] => MoreFlags],
            // Statements: an action is none of these words.
            LineState::Statement => arrows![
                If => LastValue, Ifnot => LastValue, Case => LastValue, Repeat => Repeat, Next => LineEnd,
                Quit => LineEnd, Return => MaybeValue, Abort => MaybeValue,
            ],
            LineState::ChainLine =>
                arrows![Else => LineEnd, Elseif => LastValue, Elseifnot => LastValue],
            LineState::LoopEndLine => arrows![While => LastValue, Until => LastValue],
            LineState::Repeat => arrows![LineEnd => End, While => LastValue, Until => LastValue],
            LineState::MaybeValue => arrows![LineEnd => End],
            LineState::CaseItem => arrows![Other => OtherColon],
            LineState::OtherColon => arrows![Colon => End],
            _ => &[],
        }
    }

    /// Where an expression stands that may stand next, if one may.
    pub fn expression(self) -> Option<Setting>
        ensures { option_map setting_of result ≡ option_map (λ h. h.setting) (choices self).phrase }
    {
        match self {
            LineState::ConValue | LineState::ConStep | LineState::VarCount | LineState::ObjCount =>
                Some(Setting::Declaration),
            LineState::LocalCount
            | LineState::LastValue
            | LineState::Repeat
            | LineState::From
            | LineState::To
            | LineState::MaybeValue
            | LineState::CaseItem
            | LineState::CaseTest
            | LineState::CaseRange => Some(Setting::Method),
            LineState::Statement => Some(Setting::Action),
            LineState::DatValue
            | LineState::DataCount
            | LineState::Destination
            | LineState::Source
            | LineState::SourceValue
            | LineState::MemoryDestination
            | LineState::MemorySource
            | LineState::MemorySourceValue
            | LineState::OnlyDestination => Some(Setting::Dat),
            LineState::FirstData | LineState::Data | LineState::DataValue => Some(
                Setting::DataItem,
            ),
            _ => None,
        }
    }

    /// The tokens that may stand after that expression.
    pub fn behind(self) -> &'static [Arrow]
        ensures { result.now ≡ behind_in (choices self).phrase }
    {
        match self {
            LineState::ConValue => arrows![Comma => ConItem, LineEnd => End],
            LineState::ConStep => arrows![RightBracket => ConMore],
            LineState::VarCount => arrows![RightBracket => VarMore],
            LineState::ObjCount => arrows![RightBracket => ObjColon],
            LineState::LocalCount => arrows![RightBracket => MoreLocals],
            LineState::DatValue
            | LineState::Statement
            | LineState::LastValue
            | LineState::Repeat
            | LineState::MaybeValue => arrows![LineEnd => End],
            LineState::FirstData | LineState::Data | LineState::DataValue =>
                arrows![LeftBracket => DataCount, Comma => Data, LineEnd => End],
            LineState::DataCount => arrows![RightBracket => MoreData],
            LineState::Destination => arrows![Comma => Source],
            LineState::Source | LineState::SourceValue | LineState::OnlyDestination =>
                arrows![[Flag] => MoreEffects, [Write] => MoreEffects, LineEnd => End],
            LineState::MemoryDestination => arrows![Comma => MemorySource],
            LineState::MemorySource | LineState::MemorySourceValue =>
                arrows![[Flag] => MoreFlags, LineEnd => End],
            LineState::From => arrows![To => To],
            LineState::To => arrows![Step => LastValue, LineEnd => End],
            LineState::CaseItem | LineState::CaseTest =>
                arrows![DotDot => CaseRange, Comma => CaseTest, Colon => End],
            LineState::CaseRange => arrows![Comma => CaseTest, Colon => End],
            _ => &[],
        }
    }

    /// The tokens that may stand after that expression where it's one name.
    pub fn behind_name(self) -> &'static [Arrow]
        ensures { result.now ≡ behind_name_in (choices self).phrase }
    {
        match self {
            LineState::Repeat => arrows![LineEnd => End, From => From],
            _ => self.behind(),
        }
    }

    /// Where a line's words stand, by a state of the line.
    pub fn setting(self) -> Setting
        ensures { setting_of result ≡ setting_at self }
    {
        match self {
            LineState::ConHead
            | LineState::ConItem
            | LineState::ConName
            | LineState::ConValue
            | LineState::ConStep
            | LineState::ConMore
            | LineState::VarHead
            | LineState::VarLine
            | LineState::VarName
            | LineState::VarNamed
            | LineState::VarCount
            | LineState::VarMore
            | LineState::ObjHead
            | LineState::ObjLine
            | LineState::ObjNamed
            | LineState::ObjCount
            | LineState::ObjColon
            | LineState::ObjFile => Setting::Declaration,
            LineState::DatHead
            | LineState::DatLine
            | LineState::DatLabel
            | LineState::DatBody
            | LineState::DatValue
            | LineState::FirstData
            | LineState::Data
            | LineState::DataValue
            | LineState::DataCount
            | LineState::MoreData
            | LineState::Conditioned
            | LineState::Destination
            | LineState::Source
            | LineState::SourceValue
            | LineState::MemoryDestination
            | LineState::MemorySource
            | LineState::MemorySourceValue
            | LineState::OnlyDestination
            | LineState::CallHash
            | LineState::CallLabel
            | LineState::CallLocal
            | LineState::Effects
            | LineState::MoreEffects
            | LineState::Effect
            | LineState::MoreFlags
            | LineState::FlagEffect => Setting::Dat,
            _ => Setting::Method,
        }
    }
}
