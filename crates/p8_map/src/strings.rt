// A text as the items of a STRING.
ghost use Rattle.std.specs.Prelude.{◌≡◌, ◌≤◌, ◌++◌, length, map, OnOk};
ghost use Rattle.p8_map.specs.Stretches.{comma as comma_before, quotables as quotables_of, stretch_size};
ghost use Rattle.p8_map.specs.Strings.{is_quotable as can_stand_in_quotes, item_text, items_text, joined, quoted, stretches_of};

use crate::appending::push_number;
use p8_instr::push_text;
use p8_words::NoMemory;

/// Whether a byte can stand in quotes.
fn is_quotable(byte: u8) -> bool
    ensures { result ≡ can_stand_in_quotes byte }
{
    byte >= 32 && byte != 34 && byte != 127
}

/// How many bytes at the front of a text can stand in quotes.
fn quotables(mut text: &[u8]) -> usize
    ensures is { result ≡ quotables_of text.now }
    ensures within { result ≤ length text.now }
{
    let mut count = 0;
    while let [first, rest @ ..] = text {
        if !is_quotable(*first) {
            return count;
        }
        count += 1;
        text = rest;
    }
    count
}

/// How long the first stretch of a text is.
fn stretch(text: &[u8]) -> usize
    ensures is { result ≡ stretch_size text.now }
    ensures within { result ≤ length text.now }
{
    match text {
        [] => 0,
        [first, rest @ ..] => {
            if is_quotable(*first) {
                quotables(rest) + 1
            } else {
                1
            }
        }
    }
}

/// Appends characters in quotes.
fn push_quoted(out: &mut Vec<u8>, text: &[u8]) -> Result<(), NoMemory>
    ensures { OnOk result (out.new.items ≡ out.old.items ++ quoted text.now) }
{
    push_text(out, b"\"")?;
    push_text(out, text)?;
    push_text(out, b"\"")
}

/// Appends a stretch in quotes, or a byte by its number.
fn push_item(out: &mut Vec<u8>, item: &[u8]) -> Result<(), NoMemory>
    ensures { OnOk result (out.new.items ≡ out.old.items ++ item_text item.now) }
{
    if let [first, ..] = item {
        if !is_quotable(*first) {
            return push_number(out, u64::from(*first));
        }
    }
    push_quoted(out, item)
}

/// Appends what stands between an item and the text behind it.
fn push_comma(out: &mut Vec<u8>, behind: &[u8]) -> Result<(), NoMemory>
    ensures { OnOk result (out.new.items ≡ out.old.items ++ comma_before behind.now) }
{
    match behind {
        [] => Ok(()),
        _ => push_text(out, b", "),
    }
}

/// Appends the stretches of a text, with commas between them.
fn push_stretches(out: &mut Vec<u8>, mut text: &[u8]) -> Result<(), NoMemory>
    ensures { OnOk result (out.new.items ≡ out.old.items ++ joined (map item_text (stretches_of text.now))) }
{
    while let [_, ..] = text {
        let (item, rest) = text.split_at(stretch(text));
        push_item(out, item)?;
        push_comma(out, rest)?;
        text = rest;
    }
    Ok(())
}

/// Appends a text as the items of a `STRING`: stretches of characters in quotes, and other bytes as numbers. The only error is want of memory.
pub fn push_items(out: &mut Vec<u8>, text: &[u8]) -> Result<(), NoMemory>
    ensures { OnOk result (out.new.items ≡ out.old.items ++ items_text text.now) }
{
    match text {
        [] => push_quoted(out, text),
        _ => push_stretches(out, text),
    }
}
