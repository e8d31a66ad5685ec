// The line of a place, as a terminal shows it.
ghost use Rattle.std.specs.Prelude.{take, drop, ◌≡◌, ◌++◌, ◌^◌, ◌≤◌, length, OnOk, IfOk, if◌then◌else◌, ◌==◌, []};
ghost use Rattle.p8_lexer.specs.Places.{start};
ghost use Rattle.p8_explain.specs.Explaining.{shown, cell, line_from, line_of, left_of, marked};

use crate::appending::push_spaces;
use p8_instr::push_text;
use p8_lexer::{Characters, START, behind};
use p8_tree::Place;
use p8_words::NoMemory;
use std::alloc::Global;

// A character as a terminal shows it.
fn shown(c: u8) -> u8
    ensures { result ≡ shown c }
{
    if (32..=126).contains(&c) { c } else { b'?' }
}

/// Appends what a character that stands at a place shows. The only error is want of memory.
pub fn push_cell(out: &mut Vec<u8>, place: Place, c: u8) -> Result<(), NoMemory>
    requires { 1 ≤ place.column }
    ensures { OnOk result (out.new.items ≡ out.old.items ++ cell place c) }
{
    if c == b'\n' || c == b'\r' {
        Ok(())
    } else if c == b'\t' {
        let gap = 8 - (place.column - 1) % 8;
        push_spaces(out, gap as usize)
    } else {
        push_text(out, &[shown(c)])
    }
}

// Appends what a character shows, where it stands in a line.
fn push_in_line(out: &mut Vec<u8>, line: u32, place: Place, c: u8) -> Result<(), NoMemory>
    requires { 1 ≤ place.column }
    ensures { OnOk result (out.new.items ≡ out.old.items ++ (if place.line == line then cell place c else [])) }
{
    if place.line == line {
        push_cell(out, place, c)
    } else {
        Ok(())
    }
}

// What the characters of a line show.
fn line_from(alloc: Global, line: u32, text: &Characters) -> Result<Vec<u8>, NoMemory>
    requires { length text.now ≤ 2 ^ 20 }
    ensures { IfOk result (λ v. v.items ≡ line_from line 0 start text.now) }
{
    let mut out = Vec::new(alloc);
    let mut place = START;
    let mut before = 0;
    for i in 0..text.len() {
        let c = text.at(i);
        push_in_line(&mut out, line, place, c)?;
        place = behind(before, place, c);
        before = c;
    }
    Ok(out)
}

/// What a line of a file shows.
#[tactic(auto, unfolding(crate::specs::Explaining::line_of))]
pub(crate) fn line_of(alloc: Global, bytes: &[u8], line: u32) -> Result<Vec<u8>, NoMemory>
    ensures { IfOk result (λ v. v.items ≡ line_of bytes.now line) }
{
    let text = Characters::of_front(bytes);
    line_from(alloc, line, &text)
}

// The columns left of what is shown.
fn left_of(column: u32) -> usize
    ensures { result ≡ left_of column }
{
    if column <= 80 {
        0
    } else {
        column as usize - 50
    }
}

/// A line from a column on, counted from 0.
pub fn rest_of(line: &[u8], left: usize) -> &[u8]
    ensures { result.now ≡ drop left line.now }
{
    if left < line.len() {
        &line[left..]
    } else {
        &[]
    }
}

/// At most so many columns of a line.
pub(crate) fn first_of(line: &[u8], count: usize) -> &[u8]
    ensures { result.now ≡ take count line.now }
{
    if line.len() < count {
        line
    } else {
        &line[..count]
    }
}

/// Appends a line, and a mark under one of its columns: of a long line some 100 columns. The only error is want of memory.
pub fn push_marked(out: &mut Vec<u8>, line: &[u8], column: u32) -> Result<(), NoMemory>
    ensures { OnOk result (out.new.items ≡ out.old.items ++ marked line.now column) }
{
    let left = left_of(column);
    push_text(out, first_of(rest_of(line, left), 100))?;
    push_text(out, b"\n")?;
    push_spaces(
        out,
        (column as usize).saturating_sub(1).saturating_sub(left),
    )?;
    push_text(out, b"^\n")?;
    Ok(())
}
