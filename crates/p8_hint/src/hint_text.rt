// The text of hints.
ghost use Rattle.std.specs.Prelude.{◌≡◌, ◌++◌, ◌<◌, ℕ, map, OnOk, IfOk};
ghost use Rattle.std.specs.List.{flat_map};
ghost use Rattle.p8_explain.specs.Explaining.{line_of};
ghost use Rattle.p8_hint.specs.Hints.{or_nothing, joined, text_of, text_with};
ghost use Rattle.p8_hint.specs.Sentences.{of_stack, said};
ghost use Rattle.p8_hint.specs.Shown.{shown_line};

use crate::hint::{Hint, Slip};
use crate::lines::Lines;
use p8_explain::{push_decimal, push_marked, push_place};
use p8_instr::push_text;
use p8_tree::{List, Text};
use p8_words::NoMemory;
use std::alloc::Global;

// Appends what is said of a stack that is too short.
fn push_of_stack(out: &mut Vec<u8>, bytes: u64, needed: u64) -> Result<(), NoMemory>
    ensures { OnOk result (out.new.items ≡ out.old.items ++ of_stack bytes needed) }
{
    push_text(out, b"The array has ")?;
    push_decimal(out, bytes)?;
    push_text(out, b" bytes, and the method takes ")?;
    push_decimal(out, needed)?;
    push_text(
        out,
        b" for its result, parameters, locals and operands alone: lengthen the array.",
    )?;
    Ok(())
}

fn push_said(out: &mut Vec<u8>, slip: Slip) -> Result<(), NoMemory>
    ensures { OnOk result (out.new.items ≡ out.old.items ++ said slip) }
{
    match slip {
        Slip::ShortStack { bytes, needed } => push_of_stack(out, bytes, needed),
        other => push_text(out, other.sentence().as_bytes()),
    }
}

// Appends a hint on a line.
fn push_hint(out: &mut Vec<u8>, file: &Text, line: &[u8], hint: Hint) -> Result<(), NoMemory>
    ensures { OnOk result (out.new.items ≡ out.old.items ++ text_with file.now line.now hint) }
{
    push_place(out, file, hint.place)?;
    push_text(out, hint.slip.rule_name().as_bytes())?;
    push_text(out, b"\n")?;
    push_marked(out, line, hint.place.column)?;
    push_said(out, hint.slip)?;
    push_text(out, b"\n")?;
    Ok(())
}

/// The text of a file's hints.
pub(crate) fn text_of_hints(
    alloc: Global,
    file: &Text,
    lines: &Lines,
    hints: &[Hint],
) -> Result<Text, NoMemory>
    ensures { IfOk result (λ text. text ≡ flat_map (λ h. text_with file.now (shown_line lines.now h.place.line) h) hints.now) }
{
    let mut out = Vec::new(alloc);
    for hint in hints {
        push_hint(&mut out, file, lines.line(hint.place.line), *hint)?;
    }
    Ok(Text::from_vec(out))
}

/// Texts one after the other, or that there is nothing.
pub(crate) fn whole_text(alloc: Global, texts: &[Text]) -> Result<Vec<u8>, NoMemory>
    ensures { IfOk result (λ text. text.items ≡ or_nothing (joined texts.now)) }
{
    let text = joined(alloc, texts)?;
    or_nothing(alloc, text)
}

fn joined(alloc: Global, texts: &[Text]) -> Result<Vec<u8>, NoMemory>
    ensures { IfOk result (λ text. text.items ≡ joined texts.now) }
{
    let mut out = Vec::new(alloc);
    for text in texts {
        push_text(&mut out, text.as_slice())?;
    }
    Ok(out)
}

fn or_nothing(alloc: Global, text: Vec<u8>) -> Result<Vec<u8>, NoMemory>
    ensures { IfOk result (λ whole. whole.items ≡ or_nothing text.items) }
{
    match text.as_slice() {
        [] => {
            let mut out = Vec::new(alloc);
            push_text(&mut out, b"nothing to hint at\n")?;
            Ok(out)
        }
        [_, ..] => Ok(text),
    }
}
