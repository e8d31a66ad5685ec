// What each token of a source is to an expression.
ghost use Rattle.std.specs.Prelude.{◌≡◌, ℕ, List, ◌<◌, IfOk, map};
ghost use Rattle.p8_lexer.specs.Characters.{characters};
ghost use Rattle.p8_lexer.specs.Words.{capital};
ghost use Rattle.p8_grammar.specs.Views.{access_of, lexeme_of};
ghost use Rattle.p8_expr.specs.Words.{mark_of_word, access_at, lexeme_of_word, lexeme_of_token, between_quotes};
ghost use Rattle.p8_grammar.specs.Machine.{loose};

use p8_grammar::{Access, Lexeme, Punctuation};
use p8_lexer::{Characters, Meaning, Token, TokenKind, Word, word_of};
use p8_tree::Text;
use std::alloc::{AllocError, Global};

// A punctuation mark.
fn mark_of_word(word: Word) -> Lexeme
    ensures { (n t : List ℕ) → lexeme_of n t result ≡ mark_of_word word }
{
    let mark = match word {
        Word::LeftParenthesis => Punctuation::LeftParenthesis,
        Word::RightParenthesis => Punctuation::RightParenthesis,
        Word::LeftBracket => Punctuation::LeftBracket,
        Word::RightBracket => Punctuation::RightBracket,
        Word::Comma => Punctuation::Comma,
        Word::Colon => Punctuation::Colon,
        Word::Dot => Punctuation::Dot,
        Word::DotDot => Punctuation::DotDot,
        Word::Hash => Punctuation::Hash,
        Word::Backslash => Punctuation::Backslash,
        Word::EqualSign => Punctuation::Equal,
        _ => return Lexeme::Other,
    };
    Lexeme::Mark(mark)
}

// What may be done with a register.
fn access_at(address: u16) -> Access
    ensures { access_of result ≡ access_at address }
{
    if address == 0x1F0 || address == 0x1F1 {
        Access::Input
    } else if address == 0x1F2 {
        Access::InputPins
    } else if address == 0x1F4 || address == 0x1F6 {
        Access::Pins
    } else {
        Access::Assembly
    }
}

// What a word that isn't a name is to an expression.
#[tactic(auto, unfolding(crate::specs::Words::lexeme_of_word))]
fn lexeme_of_word(word: Word) -> Lexeme
    ensures { (n t : List ℕ) → lexeme_of n t result ≡ lexeme_of_word word }
{
    match word.meaning() {
        Meaning::Changes(before, after) => Lexeme::Changes(before, after),
        Meaning::Address => Lexeme::Address,
        Meaning::ObjectAddress => Lexeme::ObjectAddress,
        Meaning::Sign(before, between) => Lexeme::Sign(before, between),
        Meaning::Prefix(rank, code) => Lexeme::Prefix(rank, code),
        Meaning::Infix(rank, code) => Lexeme::Infix(rank, code),
        Meaning::Assigns(code) => Lexeme::Assigns(code),
        Meaning::Mark => mark_of_word(word),
        Meaning::MethodResult => Lexeme::MethodResult,
        Meaning::Size(bytes) => Lexeme::Size(bytes),
        Meaning::Register(address) => Lexeme::Register(address, access_at(address)),
        Meaning::Here => Lexeme::Here,
        Meaning::StringWord => Lexeme::StringWord,
        Meaning::ConstantWord => Lexeme::ConstantWord,
        Meaning::Look(code) => Lexeme::Look(code),
        Meaning::Value(code) => Lexeme::Value(code),
        Meaning::BuiltIn(code) => Lexeme::BuiltIn(code),
        Meaning::Command(code) => Lexeme::Command(code),
        _ => Lexeme::Other,
    }
}

/// What a token of a source is to an expression, but for its characters.
#[tactic(auto, unfolding(crate::specs::Words::lexeme_of_token))]
pub fn lexeme(bytes: &[u8], token: &Token) -> Lexeme
    ensures { loose (lexeme_of_token bytes.now token.now) ≡
        lexeme_of (map capital (characters bytes.now token.now)) (between_quotes (characters bytes.now token.now)) result }
{
    match token.kind {
        TokenKind::Number(value) => Lexeme::Number(value),
        TokenKind::Str => Lexeme::Str,
        _ => match word_of(bytes, token) {
            Word::Name => Lexeme::Name,
            word => lexeme_of_word(word),
        },
    }
}

/// Characters, in capitals.
pub fn capitals(alloc: Global, text: &Characters) -> Result<Text, AllocError>
    ensures { IfOk result (λ t. t ≡ map capital text.now) }
{
    let mut bytes = Vec::new(alloc);
    for i in 0..text.len() {
        bytes.push(text.at(i).to_ascii_uppercase())?;
    }
    Ok(Text::from_vec(bytes))
}

// Characters, as they are.
fn copied(alloc: Global, text: &Characters) -> Result<Text, AllocError>
    ensures { IfOk result (λ t. t ≡ text.now) }
{
    let mut bytes = Vec::new(alloc);
    for i in 0..text.len() {
        bytes.push(text.at(i))?;
    }
    Ok(Text::from_vec(bytes))
}

/// The characters between a string's quotes.
pub fn between_quotes(alloc: Global, text: &Characters) -> Result<Text, AllocError>
    ensures { IfOk result (λ t. t ≡ between_quotes text.now) }
{
    let behind = text.skip(text.len().min(1));
    copied(alloc, &behind.first(behind.len().saturating_sub(1)))
}
