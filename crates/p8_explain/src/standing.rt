// What stands at a refused place of a text.
ghost use Rattle.std.specs.Prelude.{◌≡◌, ◌++◌, ◌+◌, ◌^◌, ◌<◌, ◌≤◌, length, slice_index, OnOk};
ghost use Rattle.p8_lexer.specs.Characters.{is_marked};
ghost use Rattle.p8_lexer.specs.Places.{start};
ghost use Rattle.p8_lexer.specs.Words.{capital};
ghost use Rattle.p8_tree.specs.Faults.{is_same_place};
ghost use Rattle.p8_explain.specs.Standing.{stands_at, character_from, is_marked_twice, between, of_number, of_character, of_byte};
ghost use Rattle.p8_explain.specs.Standing.{begins_with, first_from, place_between, of_place, of_place_or_none, of_first, of_name};

use crate::appending::push_decimal;
use crate::causes::{first_character, is_of_word, push_quoted};
use crate::lines::rest_of;
use p8_instr::push_text;
use p8_lexer::{Characters, START, behind};
use p8_tree::Place;
use p8_words::NoMemory;

fn is_same_place(place: Place, other: Place) -> bool
    ensures { result ≡ is_same_place place other }
{
    place.line == other.line && place.column == other.column
}

// Whether a character stands at a sought place: LF after CR has no place of its own.
fn stands_at(sought: Place, before: u8, place: Place, c: u8) -> bool
    ensures { result ≡ stands_at sought before place c }
{
    is_same_place(place, sought) && !(before == b'\r' && c == b'\n')
}

// The first character at a place.
fn character_at(text: &Characters, sought: Place) -> Option<u8>
    requires { length text.now ≤ 2 ^ 20 }
    ensures { result ≡ character_from sought 0 start text.now }
{
    let mut place = START;
    let mut before = 0;
    for i in 0..text.len() {
        let c = text.at(i);
        if stands_at(sought, before, place, c) {
            return Some(c);
        }
        place = behind(before, place, c);
        before = c;
    }
    None
}

// Whether bytes begin with the mark of UTF-8.
fn is_marked(bytes: &[u8]) -> bool
    ensures { result ≡ is_marked bytes.now }
{
    bytes.len() >= 3 && bytes[0] == 0xef && bytes[1] == 0xbb && bytes[2] == 0xbf
}

// Whether a file begins with the mark of UTF-8, and a second one stands right behind it.
fn is_marked_twice(bytes: &[u8]) -> bool
    ensures { result ≡ is_marked_twice bytes.now }
{
    is_marked(bytes) && is_marked(rest_of(bytes, 3))
}

// Appends a number between two texts.
fn push_between(out: &mut Vec<u8>, before: &[u8], number: u64, after: &[u8]) -> Result<(), NoMemory>
    ensures { OnOk result (out.new.items ≡ out.old.items ++ between before.now number after.now) }
{
    push_text(out, before)?;
    push_decimal(out, number)?;
    push_text(out, after)?;
    Ok(())
}

fn push_of_number(out: &mut Vec<u8>, c: u8) -> Result<(), NoMemory>
    ensures { OnOk result (out.new.items ≡ out.old.items ++ of_number c) }
{
    push_between(out, b"This is character ", u64::from(c), b".\n")
}

// Appends what is said of a character that begins no token.
fn push_of_character(out: &mut Vec<u8>, character: Option<u8>) -> Result<(), NoMemory>
    ensures { OnOk result (out.new.items ≡ out.old.items ++ of_character character) }
{
    match character {
        None => push_text(
            out,
            b"Half a unit of UTF-16 stands here, at the end of the file.\n",
        ),
        Some(c) => {
            if c == 26 {
                push_text(
                    out,
                    b"This is Ctrl-Z, character 26, which some editors put at the end of a file.\n",
                )
            } else {
                push_of_number(out, c)
            }
        }
    }
}

/// Appends what is said of a place of a file where no token begins.
pub(crate) fn push_of_byte(out: &mut Vec<u8>, bytes: &[u8], place: Place) -> Result<(), NoMemory>
    ensures { OnOk result (out.new.items ≡ out.old.items ++ of_byte bytes.now place) }
{
    if is_marked_twice(bytes) && is_same_place(place, START) {
        push_text(
            out,
            b"The file begins with two marks of UTF-8, the bytes EF BB BF twice: store it with one mark, or with none.\n",
        )
    } else {
        let text = Characters::of_front(bytes);
        push_of_character(out, character_at(&text, place))
    }
}

// A character as a capital letter, where it's a small one.
fn capital(c: u8) -> u8
    ensures { result ≡ capital c }
{
    if c >= b'a' && c <= b'z' { c - 32 } else { c }
}

/// Whether a text begins with a name, in letters of any case, and with no more of a word.
pub(crate) fn begins_with(name: &[u8], text: &Characters) -> bool
    ensures { result ≡ begins_with name.now text.now }
{
    for (i, c) in name.iter().enumerate() {
        if i >= text.len() {
            return false;
        }
        if capital(*c) != capital(text.at(i)) {
            return false;
        }
    }
    if name.len() >= text.len() {
        true
    } else {
        !is_of_word(text.at(name.len()))
    }
}

// The first place of a whole word that is this name.
fn first_place(text: &Characters, name: &[u8]) -> Option<Place>
    requires { length text.now ≤ 2 ^ 20 }
    ensures { result ≡ first_from name.now 0 start text.now }
{
    let mut place = START;
    let mut before = 0;
    for i in 0..text.len() {
        if !is_of_word(before) && begins_with(name, &text.skip(i)) {
            return Some(place);
        }
        let c = text.at(i);
        place = behind(before, place, c);
        before = c;
    }
    None
}

// Appends a place between two texts.
fn push_place_between(
    out: &mut Vec<u8>,
    before: &[u8],
    place: Place,
    after: &[u8],
) -> Result<(), NoMemory>
    ensures { OnOk result (out.new.items ≡ out.old.items ++ place_between before.now place after.now) }
{
    push_text(out, before)?;
    push_decimal(out, u64::from(place.line))?;
    push_text(out, b":")?;
    push_decimal(out, u64::from(place.column))?;
    push_text(out, after)?;
    Ok(())
}

fn push_of_place(out: &mut Vec<u8>, place: Place) -> Result<(), NoMemory>
    ensures { OnOk result (out.new.items ≡ out.old.items ++ of_place place) }
{
    push_place_between(
        out,
        b" stands first at ",
        place,
        b", where comments and strings count.\n",
    )
}

// Appends where a name stands first, which is defined again at a place.
fn push_place_or_none(out: &mut Vec<u8>, place: Place, first: Place) -> Result<(), NoMemory>
    ensures { OnOk result (out.new.items ≡ out.old.items ++ of_place_or_none place first) }
{
    if is_same_place(first, place) {
        push_text(
            out,
            b" stands nowhere before this: it is a constant of the language, or this file defines it further down.\n",
        )
    } else {
        push_of_place(out, first)
    }
}

// Appends a name that is defined again at a place, and where it stands first.
fn push_of_first(
    out: &mut Vec<u8>,
    name: &[u8],
    place: Place,
    first: Option<Place>,
) -> Result<(), NoMemory>
    ensures { OnOk result (out.new.items ≡ out.old.items ++ of_first name.now place first) }
{
    match first {
        None => Ok(()),
        Some(first) => {
            push_quoted(out, name)?;
            push_place_or_none(out, place, first)?;
            Ok(())
        }
    }
}

/// Appends where a name stands first in a file that is defined again at a place.
pub(crate) fn push_of_name(
    out: &mut Vec<u8>,
    bytes: &[u8],
    name: &[u8],
    place: Place,
) -> Result<(), NoMemory>
    ensures { OnOk result (out.new.items ≡ out.old.items ++ of_name bytes.now name.now place) }
{
    if is_of_word(first_character(name)) {
        let text = Characters::of_front(bytes);
        push_of_first(out, name, place, first_place(&text, name))
    } else {
        Ok(())
    }
}
