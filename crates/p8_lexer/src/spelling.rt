// How a source spells its names.
ghost use Rattle.std.specs.Prelude.{◌≡◌, ◌+◌, ◌%◌, ◌^◌, ◌<◌, ◌≤◌, ◌==◌, ◌∷◌, ◌++◌, [], take, drop, length, IfOk, OnOk, if◌then◌else◌};
ghost use Rattle.p8_lexer.specs.Marks.{AreMarks, is_prop-AreMarks, IsMark, LeadsTo, LiesIn};
ghost use Rattle.p8_lexer.specs.Spelling.{begins_at, spelled, text_in, word_at};

use crate::characters::Characters;
use crate::run::is_letter;
use crate::source_places::{START, behind};
use p8_tree::{Place, Text};
use p8_words::NoMemory;
use std::alloc::Global;
use std::marker::Model;

/// How many characters stand from one mark to the next.
const STRIDE: usize = 64;

/// A place of a text from which a word can be looked for.
#[derive(Clone, Copy)]
pub(crate) struct Checkpoint {
    /// How many characters stand before it.
    pub(crate) at: usize,
    /// The last one of them; 0 is none.
    pub(crate) before: u8,
    /// Where the next one stands.
    pub(crate) place: Place,
}

/// Where a text begins.
const FIRST: Checkpoint = Checkpoint {
    at: 0,
    before: 0,
    place: START,
};

/// The text of a source, which spells the names of its tree: the tree has them in capitals.
#[derive(Drop)]
pub struct Spellings<'a> {
    text: Characters<'a>,
    marks: Vec<Checkpoint>,
    ghost short: { length text ≤ 2 ^ 20 },
    ghost marked: { AreMarks text marks.items } by { is_prop-AreMarks text marks.items },
}

impl<'a> Model for Spellings<'a> {
    ghost use Rattle.std.specs.Prelude.{ℕ, List};

    ghost Value = { List ℕ };

    ghost view = { λ s. s.text };
}

impl<'a> Spellings<'a> {
    /// The text of a file: its first 1,048,576 characters. It takes time in proportion to them. The only error is want of memory.
    pub fn of(alloc: Global, bytes: &'a [u8]) -> Result<Spellings<'a>, NoMemory>
        ensures { IfOk result (λ spellings. spellings ≡ text_in bytes.now) }
    {
        let text = Characters::of_front(bytes);
        let marks = marks_of(alloc, &text)?;
        Ok(Spellings { text, marks })
    }

    /// A name as the text spells it at a place: what stands there, where that is the name but for the case of letters, else the name
    /// itself. It takes the logarithm of the text's length, if a word begins at the place. The only error is want of memory.
    #[tactic(auto, unfolding(crate::specs::Spelling::spelled))]
    pub fn spelled(&self, alloc: Global, place: Place, name: &[u8]) -> Result<Text, NoMemory>
        ensures { IfOk result (λ text. text ≡ spelled self.now place name.now) }
    {
        let begin = word_from(&self.text, self.mark_before(place), place);
        let found = copied(alloc, &part(&self.text, begin, name.len()))?;
        if found.eq_ignore_ascii_case(name) {
            Ok(Text::from_vec(found))
        } else {
            Ok(Text::copy_of(alloc, name)?)
        }
    }

    /// The mark of a number; the first one, where there is none.
    fn mark_at(&self, number: usize) -> Checkpoint
        ensures { IsMark self.now result }
    {
        match self.marks.get(number) {
            Some(mark) => *mark,
            None => FIRST,
        }
    }

    /// A mark before a place; the first one, where no other is known to be.
    fn mark_before(&self, place: Place) -> Checkpoint
        ensures lies { LiesIn self.now result }
        ensures leads { LeadsTo self.now place result }
    {
        let begun = self
            .marks
            .partition_point(|mark| mark.place.is_before(place));
        let mark = self.mark_at(begun.saturating_sub(1));
        if mark.place.is_before(place) {
            mark
        } else {
            FIRST
        }
    }
}

/// The marks of a text, one in each stride.
fn marks_of(alloc: Global, text: &Characters) -> Result<Vec<Checkpoint>, NoMemory>
    requires { length text.now ≤ 2 ^ 20 }
    ensures { IfOk result (λ marks. AreMarks text.now marks.items) }
{
    let mut marks = Vec::new(alloc);
    let mut mark = FIRST;
    for _at in 0..text.len() {
        put(&mut marks, mark)?;
        mark = next_mark(text, mark);
    }
    Ok(marks)
}

/// Puts a mark, if it is the one of its stride.
fn put(marks: &mut Vec<Checkpoint>, mark: Checkpoint) -> Result<(), NoMemory>
    ensures { OnOk result (marks.new.items ≡ marks.old.items ++ (if mark.at % 64 == 0 then mark ∷ [] else [])) }
{
    if mark.at % STRIDE == 0 {
        marks.extend_from_slice(&[mark])?;
    }
    Ok(())
}

/// The mark behind one of them.
fn next_mark(text: &Characters, mark: Checkpoint) -> Checkpoint
    requires short { length text.now ≤ 2 ^ 20 }
    requires within { mark.at < length text.now }
    requires mark { IsMark text.now mark }
    ensures at { result.at ≡ mark.at + 1 }
    ensures mark { IsMark text.now result }
{
    let c = text.at(mark.at);
    Checkpoint {
        at: mark.at + 1,
        before: c,
        place: behind(mark.before, mark.place, c),
    }
}

/// Whether a character at a place is the first one of a word that is looked for.
fn begins_at(place: Place, at: Place, c: u8) -> bool
    ensures { result ≡ begins_at place at c }
{
    at.line == place.line && at.column == place.column && is_letter(c)
}

/// How many characters stand before the word that begins at a place, looked for from a mark on; all, where no word begins there.
fn word_from(text: &Characters, mark: Checkpoint, place: Place) -> usize
    requires short { length text.now ≤ 2 ^ 20 }
    requires lies { LiesIn text.now mark }
    ensures within { result ≤ length text.now }
    ensures word { drop result text.now ≡ word_at place mark.before mark.place (drop mark.at text.now) }
{
    let mut before = mark.before;
    let mut at = mark.place;
    for i in mark.at..text.len() {
        let c = text.at(i);
        if begins_at(place, at, c) {
            return i;
        }
        at = behind(before, at, c);
        before = c;
    }
    text.len()
}

/// So many characters from one on, as far as there are some.
fn part<'a>(text: &Characters<'a>, begin: usize, count: usize) -> Characters<'a>
    requires { begin ≤ length text.now }
    ensures { result ≡ take count (drop begin text.now) }
{
    let rest = text.skip(begin);
    if rest.len() <= count {
        rest
    } else {
        rest.first(count)
    }
}

/// Characters as bytes.
fn copied(alloc: Global, text: &Characters) -> Result<Vec<u8>, NoMemory>
    ensures { IfOk result (λ bytes. bytes.items ≡ text.now) }
{
    let mut bytes = Vec::new(alloc);
    for i in 0..text.len() {
        bytes.extend_from_slice(&[text.at(i)])?;
    }
    Ok(bytes)
}
