// Which lines may stand next in a method.
ghost use Rattle.std.specs.Prelude.{◌≡◌, ◌<◌, ◌+◌, ◌∷◌, ◌↔◌, List, Option, IsTrue, IfOk, IfErr, false, length};
ghost use Rattle.p8_tree.specs.declared.places.Place as tree_place;
ghost use Rattle.p8_tree.specs.Sources.{MethodTree};
ghost use Rattle.p8_grammar.specs.Lexemes.{in_method};
ghost use Rattle.p8_columns.specs.Lines as lines;
ghost use Rattle.p8_columns.specs.Taken.{HasTaken};
ghost use Rattle.p8_lines.specs.Tokens.{LineToken, left, left_behind, word};
ghost use Rattle.p8_tree.specs.declared.refusal.Refusal.TheVariants.{TooNested};
ghost use Rattle.p8_tree.specs.Refusals.{refusal_number};
ghost use Rattle.p8_tree.specs.Faults.{IfRefused};
ghost use Rattle.p8_lines.specs.declared.state.LineState as line_state;
ghost use Rattle.p8_lines.specs.Lines.{number_of, refused, Reads};
ghost use Rattle.p8_blocks.specs.Values.{begins_line};
ghost use Rattle.p8_blocks.specs.Reading.{Part, method, at as position, from, Enters, HasNoLoop, IsTooDeep, Fails, goes_on_chain, ends_loop};
ghost use Rattle.p8_blocks.specs.Standing.{Inner, MayRead, TellsTooDeep, begins_entry, entry_of};

use crate::first::First;
use crate::statements::read_statement;
use crate::words::{ends_loop, goes_on_chain, leaves_loop, opens};
use p8_columns::{Blocks, Chain, Room};
use p8_expr::{TokenCursor, refusal_of};
use p8_grammar::Setting;
use p8_lexer::Word;
use p8_lines::LineState;
use p8_tree::{Fault, Place, Refusal};
use p8_words::Fail;
use std::alloc::Global;

/// How many blocks may be open, the method counted.
pub const GREATEST_DEPTH: usize = 64;

/// Where a line of a method is read from, or the refusal of its first token.
#[derive(Clone, Copy)]
pub enum Entry {
    From(LineState),
    Barred(Refusal),
}

// The refusal of a word that can't stand where it does in a method.
fn refusal_of_word(word: Word) -> Refusal
    ensures { refusal_number result ≡ number_of in_method word }
{
    refusal_of(Setting::Method, word).unwrap_or(Refusal::Unexpected)
}

// An `ELSE` kind goes on with the chain at its column, unless that has its `ELSE`.
fn chain_entry(blocks: &Blocks, first: First) -> Entry
    requires { IsTrue (goes_on_chain first.begun first.word) }
    ensures begins { IsTrue (begins_entry (entry_of result)) }
    ensures enters { (ls : List lines.Line) (t : LineToken) → HasTaken ls blocks.now → word t ≡ first.word → t.place ≡ first.place →
        Enters ls first.begun t (entry_of result) }
{
    match blocks.chain(first.place.column) {
        Chain::Begun => Entry::From(LineState::ChainLine),
        Chain::Ended => Entry::Barred(refusal_of_word(first.word)),
        Chain::Missing => Entry::Barred(Refusal::BadIndent),
    }
}

// `WHILE` and `UNTIL` end the plain `REPEAT` at their column.
fn loop_end_entry(blocks: &Blocks, first: First) -> Entry
    requires { IsTrue (ends_loop first.begun first.word) }
    ensures begins { IsTrue (begins_entry (entry_of result)) }
    ensures enters { (ls : List lines.Line) (t : LineToken) → HasTaken ls blocks.now → word t ≡ first.word → t.place ≡ first.place →
        Enters ls first.begun t (entry_of result) }
{
    if blocks.is_plain_loop(first.place.column) {
        Entry::From(LineState::LoopEndLine)
    } else {
        Entry::Barred(Refusal::BadIndent)
    }
}

// Any other line is a statement, or an item directly under a `CASE`, which takes nothing more after
// its `OTHER`.
fn room_entry(blocks: &Blocks, first: First) -> Entry
    requires no_chain { goes_on_chain first.begun first.word ≡ false }
    requires no_loop_end { ends_loop first.begun first.word ≡ false }
    ensures begins { IsTrue (begins_entry (entry_of result)) }
    ensures enters { (ls : List lines.Line) (t : LineToken) → HasTaken ls blocks.now → word t ≡ first.word → t.place ≡ first.place →
        Enters ls first.begun t (entry_of result) }
{
    match blocks.room(first.place.column) {
        Room::Statement => Entry::From(LineState::Statement),
        Room::Item => Entry::From(LineState::CaseItem),
        Room::Nothing => Entry::Barred(refusal_of_word(first.word)),
    }
}

/// Where a line that begins so is read from, after the lines that the blocks have taken.
pub fn entry_at(blocks: &Blocks, first: First) -> Entry
    ensures begins { IsTrue (begins_entry (entry_of result)) }
    ensures enters { (ls : List lines.Line) (t : LineToken) → HasTaken ls blocks.now → word t ≡ first.word → t.place ≡ first.place →
        Enters ls first.begun t (entry_of result) }
{
    if goes_on_chain(first.begun, first.word) {
        chain_entry(blocks, first)
    } else if ends_loop(first.begun, first.word) {
        loop_end_entry(blocks, first)
    } else {
        room_entry(blocks, first)
    }
}

// Whether the line is `NEXT` or `QUIT`, and no `REPEAT` is open there.
fn has_no_loop(blocks: &Blocks, first: First, state: LineState) -> bool
    ensures { (ls : List lines.Line) (t : LineToken) → HasTaken ls blocks.now → word t ≡ first.word → t.place ≡ first.place →
        IsTrue result ↔ HasNoLoop ls state t }
{
    leaves_loop(state, first.word) && !blocks.is_in_loop(first.place.column)
}

// Whether the line would open one block too many.
fn is_too_deep(blocks: &Blocks, first: First, state: LineState) -> bool
    ensures { (ls : List lines.Line) (t : LineToken) → HasTaken ls blocks.now → word t ≡ first.word → t.place ≡ first.place →
        IsTrue result ↔ IsTooDeep ls state t }
{
    opens(state, first.word) && blocks.depth(first.place.column) >= GREATEST_DEPTH
}

// The refusal of a line that begins at a place and is too deep.
fn too_nested(begin: Place) -> Fail<Fault>
    ensures { IfRefused (λ f. (f.number ≡ refusal_number TooNested) × (f.place ≡ begin)) result }
{
    Fail::Refused(Refusal::TooNested.at(begin))
}

// Whether two places are the same.
fn is_same(one: Place, other: Place) -> bool
    ensures { IsTrue result ↔ (one ≡ other) }
{
    one == other
}

// The refusal of a line that is too deep and is refused itself: its own, if that stands at its first
// token.
fn first_refusal(fail: Fail<Fault>, first: First) -> Fail<Fault>
    ensures { (q : line_state.LineState) (ts : List LineToken) → IfRefused (λ f. Reads q ts (refused f.number f.place)) fail →
        IfRefused (λ f. TellsTooDeep q ts first.place first.begin f.number f.place) result }
{
    match fail {
        Fail::Refused(fault) => {
            if is_same(fault.place, first.place) {
                Fail::Refused(fault)
            } else {
                too_nested(first.begin)
            }
        }
        Fail::NoMemory => Fail::NoMemory,
    }
}

// The refusal of a line that is too deep.
fn too_deep(alloc: Global, here: &TokenCursor, first: First, state: LineState) -> Fail<Fault>
    requires within { here.now.at < length here.now.tokens }
    requires begins { IsTrue (begins_line state) }
    ensures { IfRefused (λ f. TellsTooDeep state (left here.now) first.place first.begin f.number f.place) result }
{
    let mut again = here.copied();
    match read_statement(alloc, &mut again, state) {
        Ok(read) => {
            drop(read);
            too_nested(first.begin)
        }
        Err(fail) => first_refusal(fail, first),
    }
}

// The state, unless the line is refused for the blocks that are open there.
fn within_depth(
    alloc: Global,
    here: &TokenCursor,
    first: First,
    blocks: &Blocks,
    state: LineState,
) -> Result<LineState, Fail<Fault>>
    requires within { here.now.at < length here.now.tokens }
    requires begins { IsTrue (begins_line state) }
    ensures same { IfOk result (λ q. q ≡ state) }
    ensures read { (ls : List lines.Line) (t : LineToken) → HasTaken ls blocks.now → word t ≡ first.word → t.place ≡ first.place →
        Enters ls first.begun t (from state) → IfOk result (λ q. MayRead ls first.begun t q) }
    ensures refused { (b : Option tree_place.Place) (m : MethodTree) (ls : List lines.Line) (ps : List Part) →
        Inner (left here.now) (left_behind here.now) b first → HasTaken ls blocks.now →
        ((t : LineToken) → word t ≡ first.word → t.place ≡ first.place → Enters ls first.begun t (from state)) →
        IfErr result (IfRefused (λ f. Fails (position (method m ls ∷ ps) b) (left here.now) f.number f.place)) }
{
    if has_no_loop(blocks, first, state) {
        Err(Fail::Refused(Refusal::LoopWord.at(first.place)))
    } else if is_too_deep(blocks, first, state) {
        Err(too_deep(alloc, here, first, state))
    } else {
        Ok(state)
    }
}

/// The state that a line of a method is read from, unless the line is refused for the blocks that are
/// open there.
pub fn state_of_line(
    alloc: Global,
    here: &TokenCursor,
    first: First,
    blocks: &Blocks,
) -> Result<LineState, Fail<Fault>>
    requires { here.now.at < length here.now.tokens }
    ensures begins { IfOk result (λ q. IsTrue (begins_line q)) }
    ensures read { (ls : List lines.Line) (t : LineToken) → HasTaken ls blocks.now → word t ≡ first.word → t.place ≡ first.place →
        IfOk result (λ q. MayRead ls first.begun t q) }
    ensures refused { (b : Option tree_place.Place) (m : MethodTree) (ls : List lines.Line) (ps : List Part) →
        Inner (left here.now) (left_behind here.now) b first → HasTaken ls blocks.now →
        IfErr result (IfRefused (λ f. Fails (position (method m ls ∷ ps) b) (left here.now) f.number f.place)) }
{
    match entry_at(blocks, first) {
        Entry::From(state) => within_depth(alloc, here, first, blocks, state),
        Entry::Barred(refusal) => Err(Fail::Refused(refusal.at(first.place))),
    }
}
