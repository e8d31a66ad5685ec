// The words of Spin and of Propeller Assembly: what a reader of tokens tells apart.

ghost use Rattle.std.specs.Prelude.{◌≡◌, ◌≢◌, ℕ, Some, MatchOption, slice_get, option_map, map};
ghost use Rattle.p8_lexer.specs.Words.{spelling, symbols};
ghost use Rattle.p8_lexer.specs.Meanings.{meaning, first_by, word_by};

use crate::meaning::{Meaning, Sought};
use crate::table::{SYMBOL_COUNT, WordEntry, symbol_rows, table};
use std::fmt::{self, Debug, Formatter, Write};

/// What one token is to a reader of Spin: a symbol, a reserved word, or one of five kinds.
///
/// Each symbol and each reserved word of the language and of the assembler stands here once. The symbols come
/// first, in the order of their numbers.
#[derive(Clone, Copy, PartialEq, Eq)]
#[rattlefmt::skip]
pub enum Word {
    // Operators before or after a variable, and addresses.
    PlusPlus, MinusMinus, Tilde, TildeTilde, At, AtAt,
    // Operators before a value, and sums.
    Plus, Minus, SquareRoot, Absolute, DecodeBit, EncodeBit, Invert,
    // Shifts and rotations.
    RotateRight, RotateLeft, ShiftRight, ShiftLeft, ArithmeticShift, Reverse,
    // Operators on bits.
    BitAnd, BitOr, BitXor,
    // Products.
    Multiply, MultiplyHigh, Divide, Remainder,
    // Limits.
    LimitMinimum, LimitMaximum,
    // Comparisons.
    Less, Greater, NotEqual, Equal, LessOrEqual, GreaterOrEqual,
    // Assignment, alone and of each operator between two values.
    Assign, RotateRightAssign, RotateLeftAssign, ShiftRightAssign, ShiftLeftAssign, ArithmeticShiftAssign, ReverseAssign, BitAndAssign, BitOrAssign,
    BitXorAssign, MultiplyAssign, MultiplyHighAssign, DivideAssign, RemainderAssign, PlusAssign, MinusAssign, LimitMinimumAssign, LimitMaximumAssign,
    LessAssign, GreaterAssign, NotEqualAssign, EqualAssign, LessOrEqualAssign, GreaterOrEqualAssign,
    // Punctuation.
    LeftParenthesis, RightParenthesis, LeftBracket, RightBracket, Comma, Colon, Dot, DotDot, EqualSign, Hash, Dollar, Backslash, QuestionMark,
    // Block words.
    Con, Var, Obj, Pub, Pri, Dat,
    // Sizes.
    ByteSize, WordSize, LongSize,
    // Words of DAT lines.
    Org, Res, Fit, File,
    // Statements.
    If, Ifnot, Elseif, Elseifnot, Else, Repeat, Case, Other, While, Until, From, To, Step, Next, Quit, Return, Abort,
    // Operators in words; AND and OR are instructions too.
    Not, And, Or,
    // The result variable and the registers.
    Result, Par, Cnt, Ina, Inb, Outa, Outb, Dira, Dirb, Ctra, Ctrb, Frqa, Frqb, Phsa, Phsb, Vcfg, Vscl, Spr,
    // Expressions.
    String, Constant, Lookup, Lookupz, Lookdown, Lookdownz, Clkfreq, Clkmode,
    // Built-in methods; some are instructions too.
    Cogid, Cognew, Coginit, Cogstop, Locknew, Lockret, Lockset, Lockclr, Waitcnt, Waitpeq, Waitpne, Waitvid, Bytefill, Wordfill, Longfill, Bytemove,
    Wordmove, Longmove, Strsize, Strcomp, Clkset, Reboot, Chipver,
    // Floating point.
    Float, Round, Trunc, Pi,
    // Instructions.
    Rdbyte, Rdword, Rdlong, Wrbyte, Wrword, Wrlong, Hubop, Mul, Muls, Enc, Ones, Ror, Rol, Shr, Shl, Rcr, Rcl, Sar, Rev, Mins, Maxs, Min, Max, Movs,
    Movd, Movi, Jmpret, Andn, Xor, Muxc, Muxnc, Muxz, Muxnz, Add, Sub, Addabs, Subabs, Sumc, Sumnc, Sumz, Sumnz, Mov, Neg, Abs, Absneg, Negc, Negnc,
    Negz, Negnz, Cmps, Cmpsx, Addx, Subx, Adds, Subs, Addsx, Subsx, Cmpsub, Djnz, Tjnz, Tjz, Test, Testn, Cmp, Cmpx, Jmp, Ret, Call, Nop,
    // Effects of an instruction.
    Wz, Wc, Wr, Nr,
    // Conditions of an instruction; most have other spellings too.
    IfAlways, IfNever, IfE, IfNe, IfA, IfB, IfAe, IfBe, IfNcAndZ, IfCAndNz, IfCAndZ, IfCEqZ, IfCNeZ, IfCOrNz, IfNcOrZ, IfNcOrNz,
    // What is neither a symbol nor reserved.
    Name, Number, FloatNumber, Str, LineEnd,
}

// The word of the row of this number.
fn word_at(rows: &[WordEntry], number: u8) -> Option<Word>
    ensures { result ≡ option_map (λ row. row.1) (slice_get rows.now number) }
{
    match rows.get(usize::from(number)).copied() {
        Some((_, word, _)) => Some(word),
        None => None,
    }
}

// The first word of these rows that is sought so.
fn first_by(rows: &[WordEntry], sought: Sought) -> Option<Word>
    ensures { result ≡ first_by sought (map (λ row. row.1) rows.now) }
{
    for (_, word, _) in rows {
        if sought.finds(word.meaning()) {
            return Some(*word);
        }
    }
    None
}

impl Word {
    /// What this word means.
    pub fn meaning(self) -> Meaning
        ensures { result ≡ meaning self }
    {
        table()[self as usize].2
    }

    /// The word that a number of a tree stands for; None where there is none.
    pub fn by(sought: Sought) -> Option<Word>
        ensures { result ≡ word_by sought }
    {
        first_by(table(), sought)
    }

    /// How this symbol or reserved word is spelled, in capitals; empty where it's neither.
    ///
    /// A condition has further spellings, which read as the same word.
    pub fn spelling(self) -> &'static str
        ensures { result.now ≡ spelling self }
    {
        table()[self as usize].0
    }

    /// The symbol of this number, as a [`TokenKind::Symbol`](crate::TokenKind) has it; None where there is none.
    pub fn symbol(number: u8) -> Option<Word>
        ensures { result ≡ slice_get symbols number }
    {
        word_at(symbol_rows(), number)
    }

    /// The number of this symbol; None where it's no symbol.
    pub fn symbol_number(self) -> Option<u8>
        ensures { MatchOption result ((n : ℕ) → slice_get symbols n ≢ Some self) (λ n. slice_get symbols n ≡ Some self) }
    {
        let number = self as u8;
        if number < SYMBOL_COUNT {
            Some(number)
        } else {
            None
        }
    }
}

impl Debug for Word {
    fn fmt<W: Write>(&self, f: &mut Formatter<W>) -> Result<(), fmt::Error> {
        write!(f, "{} {}", *self as u8, self.spelling())
    }
}
