// The lines of a file, as a terminal shows them.
ghost use Rattle.std.specs.Prelude.{◌≡◌, ◌≤◌, ◌^◌, ℕ, length, [], if◌then◌else◌, slice_get, Some, None, MatchOption, OnOk, IfOk};
ghost use Rattle.p8_explain.specs.Explaining.{line_from, line_of};
ghost use Rattle.p8_lexer.specs.Places.{start};
ghost use Rattle.p8_hint.specs.Shown.{IsEnded, items_of, line_in, shown_line};

use p8_explain::push_cell;
use p8_lexer::{Characters, START, behind};
use p8_words::NoMemory;
use std::alloc::{AllocError, Global};
use std::mem;

/// All lines of a file, in their order.
#[derive(Drop)]
pub struct Lines {
    /// Those before the last one.
    lines: Vec<Vec<u8>>,
    /// The last one.
    last: Vec<u8>,
}

impl Lines {
    /// The lines of a file, of what a file may have at most. It takes time and memory in proportion to the file. The only error is
    /// want of memory.
    #[tactic(auto, unfolding(p8_explain::specs::Explaining::line_of))]
    pub fn of(alloc: Global, bytes: &[u8]) -> Result<Lines, NoMemory>
        ensures { IfOk result (λ lines. (line : ℕ) → shown_line lines line ≡ line_of bytes.now line) }
    {
        lines_of(alloc, &Characters::of_front(bytes))
    }

    /// What a line shows, by its number, counted from 1; nothing where there is no such line.
    pub fn line(&self, line: u32) -> &[u8]
        ensures { result.now ≡ shown_line self.now line }
    {
        if line == 0 {
            return &[];
        }
        line_in(&self.lines, &self.last, line as usize - 1)
    }
}

fn line_at(lines: &[Vec<u8>], number: usize) -> Option<&Vec<u8>>
    ensures { MatchOption result (slice_get lines.now number ≡ None) (λ line. slice_get lines.now number ≡ Some line.now) }
{
    lines.get(number)
}

// The line of this number, counted from 0, of these lines and a last one.
fn line_in<'a>(lines: &'a [Vec<u8>], last: &'a [u8], number: usize) -> &'a [u8]
    ensures { result.now ≡ line_in (items_of lines.now) last.now number }
{
    match line_at(lines, number) {
        Some(line) => line.as_slice(),
        None => last_or_none(last, number == lines.len()),
    }
}

fn last_or_none(last: &[u8], is_last: bool) -> &[u8]
    ensures { result.now ≡ (if is_last then last.now else []) }
{
    if is_last { last } else { &[] }
}

// Ends the last line, where the next character stands in another one.
fn end_line(alloc: Global, all: &mut Lines, is_ended: bool) -> Result<(), AllocError>
    ensures { OnOk result (IsEnded is_ended all.old all.new) }
{
    if is_ended {
        let line = mem::replace(&mut all.last, Vec::new(alloc));
        all.lines.push(line)?;
    }
    Ok(())
}

// The lines of a text.
fn lines_of(alloc: Global, text: &Characters) -> Result<Lines, NoMemory>
    requires { length text.now ≤ 2 ^ 20 }
    ensures { IfOk result (λ lines. (line : ℕ) → shown_line lines line ≡ line_from line 0 start text.now) }
{
    let mut all = Lines {
        lines: Vec::new(alloc),
        last: Vec::new(alloc),
    };
    let mut place = START;
    let mut before = 0;
    for i in 0..text.len() {
        let c = text.at(i);
        push_cell(&mut all.last, place, c)?;
        let next = behind(before, place, c);
        end_line(alloc, &mut all, place.line < next.line)?;
        place = next;
        before = c;
    }
    Ok(all)
}
