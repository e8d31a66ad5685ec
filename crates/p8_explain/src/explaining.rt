// What a refusal says to a person.
ghost use Rattle.std.specs.Prelude.{◌≡◌, ◌++◌, false, OnOk, IfOk};
ghost use Rattle.p8_tree.specs.Refusals.{numbered};
ghost use Rattle.p8_explain.specs.Slips.{forms, first_form, by_form};
ghost use Rattle.p8_explain.specs.Explaining.{advice, said, found, told, line_or_none, sample, of_dot, begins_with_clock, is_script, of_script};
ghost use Rattle.p8_explain.specs.Explaining.{closing, title, position, place_text, explanation_of, absence_of, entry_of};

use crate::appending::push_decimal;
use crate::causes::{push_seen, token_at, token_before, token_behind};
use crate::entries::{example, mends, says};
use crate::lines::{first_of, line_of, push_marked, rest_of};
use crate::sizes::push_size;
use crate::slips::{form_at, is_word, push_form, push_line, slip_at, word_asked};
use crate::standing::{push_of_byte, push_of_name};
use p8_build::Size;
use p8_instr::push_text;
use p8_tree::{Fault, Place, Refusal, Text, refusal_name};
use p8_words::NoMemory;
use std::alloc::Global;

// What is said of each missing file.
const NO_SUCH_FILE: &[u8] =
    b"There is no file of this name. Capitals and small letters differ, and a name without a dot gets .spin.\n";

// Appends what is wrong, and what often mends it.
fn push_advice(out: &mut Vec<u8>, refusal: Option<Refusal>) -> Result<(), NoMemory>
    ensures { OnOk result (out.new.items ≡ out.old.items ++ advice refusal) }
{
    match refusal {
        None => push_text(out, b"No refusal has this number.\n"),
        Some(refusal) => {
            push_text(out, says(refusal).as_bytes())?;
            push_text(out, b"\n")?;
            push_text(out, mends(refusal).as_bytes())?;
            push_text(out, b"\n")?;
            Ok(())
        }
    }
}

// Appends what stands at a place of a file, where more can be said of it.
fn push_found(
    out: &mut Vec<u8>,
    refusal: Option<Refusal>,
    bytes: &[u8],
    before: &[u8],
    here: &[u8],
    place: Place,
) -> Result<(), NoMemory>
    ensures { OnOk result (out.new.items ≡ out.old.items ++ found refusal bytes.now before.now here.now place) }
{
    match refusal {
        Some(Refusal::BadByte) => push_of_byte(out, bytes, place),
        Some(Refusal::Unexpected) => push_seen(out, before, here),
        Some(Refusal::Duplicate) => push_of_name(out, bytes, here, place),
        _ => Ok(()),
    }
}

// Appends how a word is written, where that is known, and else what stands at a place.
fn push_by_form(
    out: &mut Vec<u8>,
    fault: Fault,
    bytes: &[u8],
    word: &[u8],
    before: &[u8],
    here: &[u8],
) -> Result<(), NoMemory>
    ensures { OnOk result (out.new.items ≡ out.old.items ++
        by_form (first_form forms word.now) word.now (found (numbered fault.number) bytes.now before.now here.now fault.place)) }
{
    match form_at(word) {
        Some(arguments) => push_form(out, word, arguments),
        None => push_found(
            out,
            Refusal::numbered(fault.number),
            bytes,
            before,
            here,
            fault.place,
        ),
    }
}

// Appends what is said of a place between two parts of its line.
fn push_told(
    out: &mut Vec<u8>,
    fault: Fault,
    bytes: &[u8],
    front: &[u8],
    rest: &[u8],
) -> Result<(), NoMemory>
    ensures { OnOk result (out.new.items ≡ out.old.items ++ told fault.number bytes.now front.now rest.now fault.place) }
{
    let before = token_before(front);
    let here = token_at(rest);
    match slip_at(fault.number, before, here, token_behind(rest)) {
        Some(sentence) => push_line(out, sentence),
        None => {
            let word = word_asked(fault.number, before, here);
            push_by_form(out, fault, bytes, word, before, here)
        }
    }
}

// Appends by how much what is refused is too large, what is wrong, and what often mends it.
fn push_said(
    out: &mut Vec<u8>,
    refusal: Option<Refusal>,
    size: Option<Size>,
) -> Result<(), NoMemory>
    ensures { OnOk result (out.new.items ≡ out.old.items ++ said refusal size) }
{
    push_size(out, size)?;
    push_advice(out, refusal)?;
    Ok(())
}

// Appends a line as an example, where there is one.
fn push_line_or_none(out: &mut Vec<u8>, line: &[u8]) -> Result<(), NoMemory>
    ensures { OnOk result (out.new.items ≡ out.old.items ++ line_or_none line.now) }
{
    match line {
        [] => Ok(()),
        _ => {
            push_text(out, b"Example: ")?;
            push_text(out, line)?;
            push_text(out, b"\n")?;
            Ok(())
        }
    }
}

// Appends a line that is refused so, where one line can be.
fn push_sample(out: &mut Vec<u8>, refusal: Option<Refusal>) -> Result<(), NoMemory>
    ensures { OnOk result (out.new.items ≡ out.old.items ++ sample refusal) }
{
    match refusal {
        None => Ok(()),
        Some(refusal) => push_line_or_none(out, example(refusal).as_bytes()),
    }
}

// Appends a refusal's number and name.
fn push_title(out: &mut Vec<u8>, number: u8) -> Result<(), NoMemory>
    ensures { OnOk result (out.new.items ≡ out.old.items ++ title number) }
{
    push_decimal(out, u64::from(number))?;
    push_text(out, b" ")?;
    push_text(out, refusal_name(number).as_bytes())?;
    push_text(out, b"\n")?;
    Ok(())
}

// Appends a place.
fn push_position(out: &mut Vec<u8>, place: Place) -> Result<(), NoMemory>
    ensures { OnOk result (out.new.items ≡ out.old.items ++ position place) }
{
    push_decimal(out, u64::from(place.line))?;
    push_text(out, b":")?;
    push_decimal(out, u64::from(place.column))?;
    push_text(out, b": ")?;
    Ok(())
}

/// Appends a file's name and a place. The only error is want of memory.
pub fn push_place(out: &mut Vec<u8>, name: &Text, place: Place) -> Result<(), NoMemory>
    ensures { OnOk result (out.new.items ≡ out.old.items ++ place_text name.now place) }
{
    push_text(out, name.as_slice())?;
    push_text(out, b":")?;
    push_position(out, place)?;
    Ok(())
}

// Whether a text begins with a decimal digit, but for spaces, ends of lines, and lines from a `#` on.
fn begins_with_clock(text: &[u8]) -> bool
    ensures { result ≡ begins_with_clock false text.now }
{
    let mut in_comment = false;
    for c in text {
        if in_comment {
            in_comment = *c != b'\n';
        } else if *c == b'#' {
            in_comment = true;
        } else if *c != b' ' && *c != b'\n' && *c != b'\r' {
            return *c >= b'0' && *c <= b'9';
        }
    }
    false
}

// Whether a file of this name and these bytes is most likely a pin script.
fn is_script(name: &[u8], bytes: &[u8]) -> bool
    ensures { result ≡ is_script name.now bytes.now }
{
    !is_word(".spin", rest_of(name, name.len().saturating_sub(5))) && begins_with_clock(bytes)
}

// Appends where a pin script is told, for one.
fn push_of_script(out: &mut Vec<u8>, is_one: bool) -> Result<(), NoMemory>
    ensures { OnOk result (out.new.items ≡ out.old.items ++ of_script is_one) }
{
    if is_one {
        push_text(
            out,
            b"A pin script is told by prop help run: it has a line for each change, as 9000 00000001, a clock and 8 hexadecimal digits for the pins.\n",
        )
    } else {
        Ok(())
    }
}

// Appends what an explanation ends with.
#[tactic(auto, unfolding(crate::specs::Explaining::closing))]
fn push_end(
    out: &mut Vec<u8>,
    refusal: Option<Refusal>,
    size: Option<Size>,
    name: &Text,
    bytes: &[u8],
) -> Result<(), NoMemory>
    ensures { OnOk result (out.new.items ≡ out.old.items ++ closing name.now bytes.now refusal size) }
{
    push_said(out, refusal, size)?;
    push_of_script(out, is_script(name.as_slice(), bytes))?;
    Ok(())
}

/// What a refusal says to a person, of a file of this name and these bytes, with its number, from 1 to 31, its place and the size of
/// what is too large: the name of the file, the place and the refusal's name, the line with a mark under the place, by how much it
/// is too large, what is wrong and what often mends it; and of what is most likely a pin script, where that is told. Of a long line some 100 columns
/// are shown. The only error is want of memory.
pub fn explanation(
    alloc: Global,
    name: &Text,
    bytes: &[u8],
    fault: Fault,
    size: Option<Size>,
) -> Result<Vec<u8>, NoMemory>
    ensures { IfOk result (λ text. text.items ≡ explanation_of name.now bytes.now fault size) }
{
    let mut out = Vec::new(alloc);
    let refusal = Refusal::numbered(fault.number);
    let at = (fault.place.column as usize).saturating_sub(1);
    let line = line_of(alloc, bytes, fault.place.line)?;
    push_place(&mut out, name, fault.place)?;
    push_title(&mut out, fault.number)?;
    push_marked(&mut out, line.as_slice(), fault.place.column)?;
    let (front, rest) = (first_of(line.as_slice(), at), rest_of(line.as_slice(), at));
    push_told(&mut out, fault, bytes, front, rest)?;
    push_end(&mut out, refusal, size, name, bytes)?;
    Ok(out)
}

// Appends that a missing file's name is taken as it was written first, where it had a dot.
fn push_of_dot(out: &mut Vec<u8>, missing: &[u8]) -> Result<(), NoMemory>
    ensures { OnOk result (out.new.items ≡ out.old.items ++ of_dot missing.now) }
{
    if is_word(".spin", rest_of(missing, missing.len().saturating_sub(5))) {
        Ok(())
    } else {
        push_text(
            out,
            b"Its name has a dot, so .spin is added to it only where no file has the name itself.\n",
        )
    }
}

/// What a missing file says to a person, which a file of this name and these bytes mentions at a place: the name of that file, the place and
/// the name of the missing one, and the line with a mark under the place. Of a long line some 100 columns are shown. The only
/// error is want of memory.
pub fn absence(
    alloc: Global,
    name: &Text,
    bytes: &[u8],
    place: Place,
    missing: &Text,
) -> Result<Vec<u8>, NoMemory>
    ensures { IfOk result (λ text. text.items ≡ absence_of name.now bytes.now place missing.now) }
{
    let mut out = Vec::new(alloc);
    let shown = line_of(alloc, bytes, place.line)?;
    push_place(&mut out, name, place)?;
    push_text(&mut out, missing.as_slice())?;
    push_text(&mut out, b" is missing\n")?;
    push_marked(&mut out, shown.as_slice(), place.column)?;
    push_text(&mut out, NO_SUCH_FILE)?;
    push_of_dot(&mut out, missing.as_slice())?;
    Ok(out)
}

/// The entry of a refusal's number, from 1 to 31: its name, what is wrong, what often mends it, and an example. The only
/// error is want of memory.
pub fn entry(alloc: Global, number: u8) -> Result<Vec<u8>, NoMemory>
    ensures { IfOk result (λ text. text.items ≡ entry_of number) }
{
    let mut out = Vec::new(alloc);
    push_title(&mut out, number)?;
    push_advice(&mut out, Refusal::numbered(number))?;
    push_sample(&mut out, Refusal::numbered(number))?;
    Ok(out)
}
