// The lines of a source.
ghost use Rattle.std.specs.Prelude.{◌≡◌, ◌++◌, ◌∷◌, ◌-◌, [], ℕ, List as list, map, slice_get, unwrap_or, OnOk, IfOk};
ghost use Rattle.p8_code.specs.Sources.{lines_from, lines_of, shown, source_line};

use p8_instr::push_text;
use p8_lexer::Characters;
use p8_map::push_number;
use p8_tree::{List, Text};
use p8_words::NoMemory;
use std::alloc::Global;
use std::mem;

/// Goes on with a character that stands after another one, where so much of its line stands before it.
fn put(
    alloc: Global,
    lines: &mut List<Text>,
    line: &mut Vec<u8>,
    before: u8,
    c: u8,
) -> Result<(), NoMemory>
    ensures { (rest : list ℕ) → OnOk result (lines.new ++ lines_from line.new.items c rest ≡ lines.old ++ lines_from line.old.items before (c ∷ rest)) }
{
    if c == b'\n' && before == b'\r' {
        return Ok(());
    }
    if c == b'\n' || c == b'\r' {
        lines.push(Text::from_vec(mem::replace(line, Vec::new(alloc))))?;
        return Ok(());
    }
    push_text(line, &[c])
}

/// The lines of a text.
fn lines_in(alloc: Global, text: &Characters<'_>) -> Result<List<Text>, NoMemory>
    ensures { IfOk result (λ lines. lines ≡ lines_from [] 0 text.now) }
{
    let mut lines = List::new(alloc);
    let mut line = Vec::new(alloc);
    let mut before = 0;
    for i in 0..text.len() {
        let c = text.at(i);
        put(alloc, &mut lines, &mut line, before, c)?;
        before = c;
    }
    lines.push(Text::from_vec(line))?;
    Ok(lines)
}

/// The lines of a file.
#[tactic(auto, unfolding(crate::specs::Sources::lines_of))]
pub(crate) fn lines_of(alloc: Global, bytes: &[u8]) -> Result<List<Text>, NoMemory>
    ensures { IfOk result (λ lines. lines ≡ lines_of bytes.now) }
{
    lines_in(alloc, &Characters::of_front(bytes))
}

/// What a character shows.
fn shown(c: u8) -> u8
    ensures { result ≡ shown c }
{
    if (c < 32 && c != b'\t') || c == 127 {
        b'?'
    } else {
        c
    }
}

/// Appends what the characters of a line show.
fn push_shown(out: &mut Vec<u8>, line: &[u8]) -> Result<(), NoMemory>
    ensures { OnOk result (out.new.items ≡ out.old.items ++ map shown line.now) }
{
    for c in line {
        push_text(out, &[shown(*c)])?;
    }
    Ok(())
}

/// The line of a number, counted from 1; nothing where there is none.
fn line_at(lines: &[Text], number: u32) -> &[u8]
    ensures { result.now ≡ unwrap_or (slice_get lines.now (number - 1)) [] }
{
    match lines.get(number.saturating_sub(1) as usize) {
        Some(line) => line.as_slice(),
        None => &[],
    }
}

/// Appends the line of a number, counted from 1.
pub(crate) fn push_source_line(
    out: &mut Vec<u8>,
    lines: &[Text],
    number: u32,
) -> Result<(), NoMemory>
    ensures { OnOk result (out.new.items ≡ out.old.items ++ source_line lines.now number) }
{
    push_text(out, b"  ")?;
    push_number(out, u64::from(number))?;
    push_text(out, b": ")?;
    push_shown(out, line_at(lines, number))?;
    push_text(out, b"\n")
}
