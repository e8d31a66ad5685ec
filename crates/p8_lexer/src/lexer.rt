// From a file to its tokens.

ghost use Rattle.std.specs.Prelude.{◌≡◌, ◌+◌, ◌<◌, ◌≤◌, ◌^◌, ◌++◌, ℕ, List, length, IfOk, IfErr, OnOk};
ghost use Rattle.p8_lexer.specs.declared.token.Token as token;
ghost use Rattle.p8_tree.specs.declared.faults.Fault.{Fault};
ghost use Rattle.p8_tree.specs.Faults.{IfRefused};
ghost use Rattle.p8_lexer.specs.Characters.{offset_of};
ghost use Rattle.p8_lexer.specs.Lexing.{longest_file, AreTokens, IsFault};
ghost use Rattle.p8_lexer.specs.Cutting.{piece_tokens};

use crate::characters::{Characters, ends_in_half, is_utf16, mark_length};
use crate::cut::first_cut;
use crate::piece::{Cut, PieceKind};
use crate::source_places::{START, place_at};
use crate::token::{Token, Tokens};
use p8_tree::{Fault, Place, Refusal};
use p8_words::Fail;
use std::alloc::{AllocError, Global};

// The bytes that a source may have.
const LONGEST_FILE: usize = 1_048_576;

/// Cuts a Spin source into tokens: gives them in their order, or the first refusal and where it stands.
///
/// A file of at most 1,048,576 bytes has either tokens or a refusal, and only one answer of its kind. The refusals are
/// those of the numbers 1 to 5, each at the first place of the text where no good piece can be cut off. A longer file is
/// refused by 30, whatever stands in it.
pub fn lex(alloc: Global, bytes: &[u8]) -> Result<Tokens, Fail<Fault>>
    ensures tokens { IfOk result (AreTokens bytes.now) }
    ensures short { OnOk result (length bytes.now ≤ longest_file) }
    ensures accepted { OnOk result ((fault : Fault) → ¬ IsFault bytes.now fault) }
    ensures refused { IfErr result (IfRefused (IsFault bytes.now)) }
{
    if bytes.len() > LONGEST_FILE {
        return Err(Fail::Refused(Refusal::FileTooLong.at(START)));
    }
    let text = Characters::of_file(bytes);
    let mut tokens = Vec::new(alloc);
    let mut at = 0;
    let mut place = START;
    'pieces: while at < text.len() {
        match first_cut(&text.skip(at)) {
            Ok(cut) => {
                add(&mut tokens, bytes, at, place, cut)?;
                place = place_at(&text, at, at + cut.length, place);
                at += cut.length;
            }
            Err(refusal) => return Err(Fail::Refused(refusal.at(place))),
        }
    }
    if ends_in_half(bytes) {
        return Err(Fail::Refused(Refusal::BadByte.at(place)));
    }
    Ok(Tokens::new(tokens))
}

// Adds the token that a piece is, unless it's a blank or a comment.
fn add(
    tokens: &mut Vec<Token>,
    bytes: &[u8],
    at: usize,
    place: Place,
    cut: Cut,
) -> Result<(), AllocError>
    requires { at + cut.length ≤ 2 ^ 20 }
    ensures { OnOk result (tokens.new.items ≡ tokens.old.items ++ piece_tokens bytes.now at place cut) }
{
    if let PieceKind::Token(kind) = cut.kind {
        tokens.push(Token {
            place,
            kind,
            begin: offset(bytes, at),
            end: offset(bytes, at + cut.length),
        })?;
    }
    Ok(())
}

// Where in a file a character begins.
fn offset(bytes: &[u8], at: usize) -> usize
    requires { at ≤ 2 ^ 20 }
    ensures { result ≡ offset_of bytes.now at }
{
    let behind = if is_utf16(bytes) { 2 * at } else { at };
    mark_length(bytes) + behind
}

/// A file of at most 1,048,576 bytes never has both tokens and a refusal, and no file has two lists of tokens or two
/// refusals.
pub fn one_answer()
    ensures never_both { (bytes : List ℕ) (tokens : List token.Token) (fault : Fault)
        → AreTokens bytes tokens → length bytes ≤ longest_file → ¬ IsFault bytes fault }
    ensures one_list { (bytes : List ℕ) (some others : List token.Token)
        → AreTokens bytes some → AreTokens bytes others → some ≡ others }
    ensures one_fault { (bytes : List ℕ) (one another : Fault)
        → IsFault bytes one → IsFault bytes another → one ≡ another }
{}
