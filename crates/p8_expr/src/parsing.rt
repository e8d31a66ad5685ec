// Reading an expression from tokens.
ghost use Rattle.std.specs.Prelude.{◌≡◌, ◌<◌, ◌≤◌, ℕ, List, IfOk, IfErr, length};
ghost use Rattle.p8_lexer.specs.declared.token.Token as lexer_token;
ghost use Rattle.p8_tree.specs.Views.{tree_of};
ghost use Rattle.p8_grammar.specs.Lexemes as lexemes;
ghost use Rattle.p8_grammar.specs.Lexemes.{in_method};
ghost use Rattle.p8_grammar.specs.Views.{setting_of};
ghost use Rattle.p8_tree.specs.declared.faults.Fault.{Fault};
ghost use Rattle.p8_tree.specs.Faults.{IfRefused};
ghost use Rattle.p8_expr.specs.Cursors.{moved};
ghost use Rattle.p8_expr.specs.Parsing.{Outcome, tree, greatest_height, Parses, IsFault};

use crate::reading::{Ended, read};
use crate::refusals::refusal_of;
use crate::token_cursor::TokenCursor;
use p8_grammar::Setting;
use p8_lexer::Tokens;
use p8_tree::{Expr, Fault, Refusal};
use p8_words::Fail;
use std::alloc::Global;

/// How high an expression may be: one without another inside it has height 1, and parentheses add
/// none.
pub const GREATEST_HEIGHT: u8 = 64;

/// Reads an expression of a method, from the token of this number on: gives its tree and the number
/// of the token after it, or the refusal and its place.
///
/// The longest run of tokens that begins an expression is read. It is refused with 8 at its first
/// token where every expression that begins so is higher than 64. Else it is refused with 9 or 10 at
/// the token after it, where that is refused by itself, as [`refusal_of`] says. Else it is refused
/// with 6 where it is no expression, at the token after it, or at its own last token where none
/// follows. Want of memory may come at any point.
pub fn parse_expr(
    alloc: Global,
    bytes: &[u8],
    tokens: &Tokens,
    at: usize,
) -> Result<(Expr, usize), Fail<Fault>>
    requires { at < length tokens.now }
    ensures read { IfOk result (λ read. Parses in_method greatest_height bytes.now tokens.now at (tree (tree_of read.0) read.1)) }
    ensures refused { IfErr result (IfRefused (IsFault in_method greatest_height bytes.now tokens.now at)) }
{
    parse_expr_in(alloc, bytes, tokens, at, Setting::Method, GREATEST_HEIGHT)
}

/// Reads an expression as [`parse_expr`] does, where it stands in this setting and may have this
/// height in place of 64.
///
/// An expression that is a part of a statement's own tree, as an index or an argument of an action,
/// may only have height 63: the statement's tree adds 1.
pub fn parse_expr_in(
    alloc: Global,
    bytes: &[u8],
    tokens: &Tokens,
    at: usize,
    setting: Setting,
    height: u8,
) -> Result<(Expr, usize), Fail<Fault>>
    requires within { at < length tokens.now }
    requires limit { height ≤ greatest_height }
    ensures read { IfOk result (λ read. Parses (setting_of setting) height bytes.now tokens.now at (tree (tree_of read.0) read.1)) }
    ensures refused { IfErr result (IfRefused (IsFault (setting_of setting) height bytes.now tokens.now at)) }
{
    let mut here = TokenCursor::new(bytes, tokens, at);
    let expr = read_expr(alloc, &mut here, setting, height)?;
    Ok((expr, here.at()))
}

/// Reads an expression as [`parse_expr_in`] does, from where a cursor stands: then it stands behind the
/// expression.
pub fn read_expr(
    alloc: Global,
    here: &mut TokenCursor,
    setting: Setting,
    height: u8,
) -> Result<Expr, Fail<Fault>>
    requires within { here.old.at < length here.old.tokens }
    requires limit { height ≤ greatest_height }
    ensures moved { IfOk result (λ _. here.new ≡ moved here.old here.new.at) }
    ensures read { IfOk result (λ e. Parses (setting_of setting) height here.old.bytes here.old.tokens here.old.at (tree (tree_of e) here.new.at)) }
    ensures refused { IfErr result (IfRefused (IsFault (setting_of setting) height here.old.bytes here.old.tokens here.old.at)) }
{
    let begin = here.place();
    match read(alloc, here.copied(), setting, height)? {
        Ended::TooHigh => Err(Fail::Refused(Refusal::TooNested.at(begin))),
        Ended::Whole(expr, end) => {
            here.go_to(end);
            match refusal_of(setting, here.word()) {
                Some(refusal) => {
                    drop(expr);
                    Err(Fail::Refused(refusal.at(here.place())))
                }
                None => Ok(expr),
            }
        }
        Ended::Broken(end, least) => {
            if least > height {
                return Err(Fail::Refused(Refusal::TooNested.at(begin)));
            }
            here.go_to(end);
            let refusal = refusal_of(setting, here.word()).unwrap_or(Refusal::Unexpected);
            Err(Fail::Refused(refusal.at(here.place())))
        }
    }
}

/// Reading from a token on has one answer, in each setting and with each limit of heights: one tree
/// and one token after it, or one refusal at one token. The function does nothing, and its contract
/// is the law.
pub fn one_answer()
    ensures outcome { (s : lexemes.Setting) (limit : ℕ) (bytes : List ℕ) (tokens : List lexer_token.Token) (at : ℕ) (one another : Outcome)
        → Parses s limit bytes tokens at one → Parses s limit bytes tokens at another → one ≡ another }
    ensures fault { (s : lexemes.Setting) (limit : ℕ) (bytes : List ℕ) (tokens : List lexer_token.Token) (at : ℕ) (one another : Fault)
        → IsFault s limit bytes tokens at one → IsFault s limit bytes tokens at another → one ≡ another }
{}
