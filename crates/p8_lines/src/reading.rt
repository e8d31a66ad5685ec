// Reading a line.
ghost use Rattle.std.specs.Prelude.{◌≡◌, ◌≢◌, ℕ, ◌+◌, ◌-◌, ◌<◌, ◌≤◌, ◌++◌, ◌∷◌, [], IfOk, IfErr, MatchOption, IsTrue, ◌↔◌, length, Some};
ghost use Rattle.std.specs.Prelude.{option_map};
ghost use Rattle.p8_tree.specs.Views.{tree_of};
ghost use Rattle.p8_tree.specs.Faults.{IfRefused};
ghost use Rattle.p8_grammar.specs.Views.{setting_of};
ghost use Rattle.p8_expr.specs.Parsing.{tree, Parses};
ghost use Rattle.p8_expr.specs.Cursors.{moved};
ghost use Rattle.p8_lexer.specs.Pieces.{piece_of, pieces_of};
ghost use Rattle.p8_lines.specs.declared.state.LineState as line_state;
ghost use Rattle.p8_lines.specs.declared.state.LineState.TheVariants as state_case;
ghost use Rattle.p8_lines.specs.Diagram.{Phrase, choices};
ghost use Rattle.p8_lines.specs.Tokens as line_tokens;
ghost use Rattle.p8_lines.specs.Tokens.{LineToken, string_length, piece, label_piece, left};
ghost use Rattle.p8_lines.specs.Lines.{Follows, is_name_word, behind, piece_in, greatest_height, Reads, read, refused, number_of, OneReading};
ghost use Rattle.p8_lines.specs.Stopping.{next, run, FitsSetting, Stops, Advances};

use crate::arrow::Arrow;
use crate::state::LineState;
use p8_expr::{GREATEST_HEIGHT, TokenCursor, read_expr, refusal_of};
use p8_grammar::Setting;
use p8_lexer::{Piece, Word};
use p8_tree::{Expr, Fault, Refusal, Text};
use p8_words::{Fail, NoMemory};
use std::alloc::{AllocError, Global};

/// Tokens are read as a line in one way: from each state of the diagram there is one answer, either
/// the pieces and the tokens after them, or one refusal at one place. The function does nothing, and
/// its contract is the law.
pub fn one_reading()
    ensures { OneReading }
{}

/// Reads a line, or what is left of one, from a state of the diagram and from where a cursor stands: gives
/// its pieces, and leaves the cursor behind it.
///
/// The state says what may stand there, as [`LineState::ConHead`] after the word `CON`. The text's end
/// counts as the end of a line: the cursor may stand there, and goes past it.
///
/// The line is refused at the first token with which what was read begins no line: with 9 where that
/// is floating point, with 10 where it is what the machine doesn't carry out, and else with 6; at the
/// text's end the refusal stands at the last token. Before that, it is refused with 8 where each
/// expression, or action, that begins with the tokens of one is too high: at its first token. They have
/// at most height 64. Want of memory may come at any point.
pub fn read_line(
    alloc: Global,
    here: &mut TokenCursor,
    state: LineState,
) -> Result<Vec<Piece>, Fail<Fault>>
    requires { here.old.at ≤ length here.old.tokens }
    ensures moved { IfOk result (λ _. here.new ≡ moved here.old here.new.at) }
    ensures within { IfOk result (λ _. here.new.at ≤ length here.old.tokens + 1) }
    ensures onward { state ≢ state_case.End → IfOk result (λ _. here.old.at < here.new.at) }
    ensures read { IfOk result (λ pieces. Reads state (left here.old) (read (pieces_of pieces.items) (left here.new))) }
    ensures refused { IfErr result (IfRefused (λ fault. Reads state (left here.old) (refused fault.number fault.place))) }
{
    let setting = state.setting();
    let mut pieces = Vec::new(alloc);
    let mut now = state;
    'steps: while !is_end(now) {
        now = step(alloc, here, now, setting, &mut pieces)?;
    }
    Ok(pieces)
}

// Whether the line has ended.
fn is_end(state: LineState) -> bool
    ensures { IsTrue result ↔ (state ≡ state_case.End) }
{
    matches!(state, LineState::End)
}

// Reads the next token, where it may stand at a state, or else an expression with the token after
// it: keeps their pieces, and gives the next state.
fn step(
    alloc: Global,
    here: &mut TokenCursor,
    state: LineState,
    line: Setting,
    pieces: &mut Vec<Piece>,
) -> Result<LineState, Fail<Fault>>
    requires within { here.old.at ≤ length here.old.tokens }
    requires unended { state ≢ state_case.End }
    requires fits { FitsSetting (setting_of line) state }
    ensures advances { IfOk result (λ r. Advances here.old here.new state (pieces_of pieces.old.items) (pieces_of pieces.new.items) r) }
    ensures stops { IfErr result (IfRefused (λ fault. Stops (setting_of line) state (left here.old) fault.number fault.place)) }
{
    let Some(next) = target(here, state.arrows()) else {
        return step_over_tree(alloc, here, state, line, pieces);
    };
    let piece = piece_in(alloc, here, state)?;
    push(pieces, piece)?;
    here.advance();
    Ok(next)
}

// Reads an expression with the token after it, where they may stand at a state.
fn step_over_tree(
    alloc: Global,
    here: &mut TokenCursor,
    state: LineState,
    line: Setting,
    pieces: &mut Vec<Piece>,
) -> Result<LineState, Fail<Fault>>
    requires within { here.old.at ≤ length here.old.tokens }
    requires unended { state ≢ state_case.End }
    requires fits { FitsSetting (setting_of line) state }
    requires alone { (r : line_state.LineState) → ¬ Follows (choices state).arrows (next here.old) r }
    ensures advances { IfOk result (λ r. Advances here.old here.new state (pieces_of pieces.old.items) (pieces_of pieces.new.items) r) }
    ensures stops { IfErr result (IfRefused (λ fault. Stops (setting_of line) state (left here.old) fault.number fault.place)) }
{
    let Some(setting) = state.expression() else {
        return Err(Fail::Refused(fault_at(here, line)));
    };
    if here.is_at_end() {
        return Err(Fail::Refused(fault_at(here, line)));
    }
    let begin = here.copied();
    let expr = read_tree(alloc, here, state, setting, line)?;
    push(pieces, Piece::Tree(expr, begin.place()))?;
    let Some(next) = target(here, arrows_behind(&begin, here.at(), state)) else {
        return Err(Fail::Refused(fault_at(here, line)));
    };
    let piece = piece_at(alloc, here)?;
    push(pieces, piece)?;
    here.advance();
    Ok(next)
}

// Reads the expression that may stand at a state.
fn read_tree(
    alloc: Global,
    here: &mut TokenCursor,
    state: LineState,
    setting: Setting,
    line: Setting,
) -> Result<Expr, Fail<Fault>>
    requires within { here.old.at < length here.old.tokens }
    requires fits { FitsSetting (setting_of line) state }
    requires alone { (r : line_state.LineState) → ¬ Follows (choices state).arrows (next here.old) r }
    requires expects { option_map (λ h. h.setting) (choices state).phrase ≡ Some (setting_of setting) }
    ensures moved { IfOk result (λ _. here.new ≡ moved here.old here.new.at) }
    ensures ordered { IfOk result (λ _. here.old.at ≤ here.new.at) }
    ensures within { IfOk result (λ _. here.new.at ≤ length here.old.tokens) }
    ensures read { (h : Phrase) → (choices state).phrase ≡ Some h →
        IfOk result (λ e. Parses h.setting greatest_height here.old.bytes here.old.tokens here.old.at (tree (tree_of e) here.new.at)) }
    ensures stops { IfErr result (IfRefused (λ fault. Stops (setting_of line) state (left here.old) fault.number fault.place)) }
{
    match read_expr(alloc, here, setting, GREATEST_HEIGHT) {
        Ok(expr) => Ok(expr),
        Err(Fail::Refused(fault)) => Err(Fail::Refused(fault)),
        Err(Fail::NoMemory) => Err(Fail::NoMemory),
    }
}

// The tokens that may stand after an expression, from where it begins up to the token of a number.
fn arrows_behind(begin: &TokenCursor, end: usize, state: LineState) -> &'static [Arrow]
    requires ordered { begin.now.at ≤ end }
    requires within { end ≤ length begin.now.tokens }
    ensures { (h : Phrase) → (choices state).phrase ≡ Some h → result.now ≡ behind h (run begin.now.bytes begin.now.tokens begin.now.at (end - begin.now.at)) }
{
    if end - begin.at() == 1 && is_name(begin.word()) {
        state.behind_name()
    } else {
        state.behind()
    }
}

// Whether a token with this word is an expression that is one name.
fn is_name(word: Word) -> bool
    ensures { (t : LineToken) → line_tokens.word t ≡ word → result ≡ is_name_word (line_tokens.lexeme t) }
{
    matches!(word, Word::Name | Word::Result)
}

// Where the next token leads.
fn target(here: &TokenCursor, arrows: &[Arrow]) -> Option<LineState>
    ensures { MatchOption result
        ((r : line_state.LineState) → ¬ Follows arrows.now (next here.now) r)
        (Follows arrows.now (next here.now)) }
{
    first_target(arrows, here.word(), here.quoted_length())
}

// Where a token with this word, and with so many characters between its quotes, leads.
fn first_target(arrows: &[Arrow], word: Word, length: usize) -> Option<LineState>
    ensures { (t : LineToken) → line_tokens.word t ≡ word → string_length t ≡ length → MatchOption result
        ((r : line_state.LineState) → ¬ Follows arrows.now t r)
        (Follows arrows.now t) }
{
    for arrow in arrows {
        if arrow.sign.matches(word, length) {
            return Some(arrow.to);
        }
    }
    None
}

// The piece of the next token, or of the text's end.
fn piece_at(alloc: Global, here: &TokenCursor) -> Result<Piece, NoMemory>
    ensures { IfOk result (λ p. piece_of p ≡ piece (next here.now)) }
{
    let place = here.place();
    match here.word() {
        Word::Name => {
            let name = here.name(alloc)?;
            Ok(Piece::Name(name, place))
        }
        Word::Str => {
            let text = here.quoted(alloc)?;
            Ok(Piece::Text(text, place))
        }
        word => Ok(Piece::Word(word, place)),
    }
}

// The piece of the next token, where it may stand at a state.
fn piece_in(alloc: Global, here: &TokenCursor, state: LineState) -> Result<Piece, NoMemory>
    ensures { IfOk result (λ p. piece_of p ≡ piece_in state (next here.now)) }
{
    match state {
        LineState::DatLabel => label_at(alloc, here),
        LineState::CallLocal => label_at(alloc, here),
        _ => piece_at(alloc, here),
    }
}

// The piece of the next token, or of the text's end, behind the colon of a local label.
fn label_at(alloc: Global, here: &TokenCursor) -> Result<Piece, NoMemory>
    ensures { IfOk result (λ p. piece_of p ≡ label_piece (next here.now)) }
{
    let place = here.place();
    if here.is_label() {
        let name = here.name(alloc)?;
        Ok(Piece::Label(name, place))
    } else {
        Ok(Piece::Label(Text::from_vec(Vec::new(alloc)), place))
    }
}

// Keeps one more piece.
fn push(pieces: &mut Vec<Piece>, piece: Piece) -> Result<(), AllocError>
    ensures { IfOk result (λ _. pieces_of pieces.new.items ≡ pieces_of pieces.old.items ++ piece_of piece ∷ []) }
{
    pieces.push(piece)?;
    Ok(())
}

// What is told of the next token where it can't stand there.
fn fault_at(here: &TokenCursor, setting: Setting) -> Fault
    ensures number { result.number ≡ number_of (setting_of setting) (line_tokens.word (next here.now)) }
    ensures place { result.place ≡ (next here.now).place }
{
    let refusal = refusal_of(setting, here.word()).unwrap_or(Refusal::Unexpected);
    refusal.at(here.place())
}
