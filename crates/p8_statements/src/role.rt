// What each word is to a statement.
ghost use Rattle.std.specs.Prelude.{◌≡◌};
ghost use Rattle.p8_statements.specs.Roles.{role_of, is_comma, is_dot_dot, is_colon, is_from, is_to, is_step, is_line_end};

use p8_lexer::Word;

/// What a word is to a statement.
#[derive(Clone, Copy)]
pub enum Role {
    /// `IF`, or `IFNOT` where the flag is set.
    If(bool),
    /// `ELSEIF`, or `ELSEIFNOT` where the flag is set.
    ElseIf(bool),
    Else,
    Case,
    Other,
    Repeat,
    /// `WHILE`, or `UNTIL` where the flag is set.
    End(bool),
    Next,
    Quit,
    Return,
    Abort,
    From,
    To,
    Step,
    Comma,
    Colon,
    DotDot,
    LineEnd,
    /// Any other word.
    Nothing,
}

/// What a word is to a statement.
#[tactic(auto, unfolding(crate::specs::Roles::role_of))]
pub fn role_of(word: Word) -> Role
    ensures { result ≡ role_of word }
{
    match word {
        // First words of lines.
        Word::If => Role::If(false),
        Word::Ifnot => Role::If(true),
        Word::Elseif => Role::ElseIf(false),
        Word::Elseifnot => Role::ElseIf(true),
        Word::Else => Role::Else,
        Word::Case => Role::Case,
        Word::Other => Role::Other,
        Word::Repeat => Role::Repeat,
        Word::While => Role::End(false),
        Word::Until => Role::End(true),
        Word::Next => Role::Next,
        Word::Quit => Role::Quit,
        Word::Return => Role::Return,
        Word::Abort => Role::Abort,
        // Words of a counting loop.
        Word::From => Role::From,
        Word::To => Role::To,
        Word::Step => Role::Step,
        // Marks, and the end of the line.
        Word::Comma => Role::Comma,
        Word::Colon => Role::Colon,
        Word::DotDot => Role::DotDot,
        Word::LineEnd => Role::LineEnd,
        _ => Role::Nothing,
    }
}

impl Role {
    // Whether it is `,`.
    pub fn is_comma(self) -> bool
        ensures { result ≡ is_comma self }
    {
        matches!(self, Role::Comma)
    }

    // Whether it is `..`.
    pub fn is_dot_dot(self) -> bool
        ensures { result ≡ is_dot_dot self }
    {
        matches!(self, Role::DotDot)
    }

    // Whether it is `:`.
    pub fn is_colon(self) -> bool
        ensures { result ≡ is_colon self }
    {
        matches!(self, Role::Colon)
    }

    // Whether it is `FROM`.
    pub fn is_from(self) -> bool
        ensures { result ≡ is_from self }
    {
        matches!(self, Role::From)
    }

    // Whether it is `TO`.
    pub fn is_to(self) -> bool
        ensures { result ≡ is_to self }
    {
        matches!(self, Role::To)
    }

    // Whether it is `STEP`.
    pub fn is_step(self) -> bool
        ensures { result ≡ is_step self }
    {
        matches!(self, Role::Step)
    }

    // Whether it is the end of the line.
    pub fn is_line_end(self) -> bool
        ensures { result ≡ is_line_end self }
    {
        matches!(self, Role::LineEnd)
    }
}
