// Slips of the pen that are refused, each with the sentence that mends it.
ghost use Rattle.std.specs.Prelude.{◌≡◌, ◌++◌, map, codes, OnOk};
ghost use Rattle.p8_explain.specs.Slips.{slips, forms, slip_of, form_of, text_of, words_of};
ghost use Rattle.p8_explain.specs.Slips.{is_word, is_one_of, allows, is_slip, first_slip, first_form, word_asked, form_text};

use crate::standing::begins_with;
use p8_instr::push_text;
use p8_lexer::Characters;
use p8_words::NoMemory;

/// Words in capitals, and symbols.
type Words = &'static [&'static str];

/// A refusal's number; the words of which one stands before its place, at it, and behind that, where none are any; and what is said there.
type Slip = (u8, Words, Words, Words, &'static str);

/// Words that take the same arguments, and these.
type Form = (Words, &'static str);

#[rattlefmt::skip]
static SLIPS: [Slip; 35] = [
    (2, &[], &["%"], &[], "`//` is the remainder of a division; `%` begins a number in base 2."),
    (6, &[], &["%"], &[], "`//` is the remainder of a division; `%` begins a number in base 2."),
    (6, &[], &["=", "=="], &[], "`==` compares and `:=` assigns; `=` alone defines constants in CON."),
    (6, &[], &[":="], &[], "`:=` assigns to a variable, in a method; CON defines by `=`, and VAR gives no values."),
    (6, &[], &["!"], &["="], "`<>` is not equal; `!` inverts the bits of a value."),
    (6, &["&"], &["&"], &[], "AND joins conditions; `&` joins the bits of two values."),
    (6, &[], &["||"], &[], "OR joins conditions; `||` before a value makes it absolute."),
    (6, &[], &["<=", ">="], &[], "`=<` and `=>` compare; `<=` and `>=` assign to a variable."),
    (12, &[], &[], &["<=", ">="], "`=<` and `=>` compare; `<=` and `>=` assign to a variable."),
    (6, &[], &["++", "--"], &[], "`++` and `--` change a variable, in a method; in CON, #5, a, b counts on from 5."),
    (12, &[], &[], &["++", "--"], "`++` and `--` change a variable, in a method; in CON, #5, a, b counts on from 5."),
    (6, &["+", "-", "*", "/", "=", "<", ">", "&", "|", "^"], &["NOT"], &[],
     "Behind an operator that binds more strongly NOT stands in parentheses, as in 1 + (not y)."),
    (6, &["(", ",", "=", ":", "[", "+", "<", ">"], &["\""], &[],
     "A value in quotes has one character; a text of more stands in STRING, as m(string(\"abc\")), or in lines of data."),
    (6, &["ELSE"], &["IF", "IFNOT"], &[], "ELSEIF and ELSEIFNOT are one word each; an IF of its own stands on the next line, further to the right."),
    (7, &[], &["WHILE", "UNTIL"], &[], "A loop with its test first is REPEAT WHILE or REPEAT UNTIL; WHILE or UNTIL alone ends a plain REPEAT at its column."),
    (6, &[], &["FROM"], &[], "The counter of REPEAT is a name alone, as in repeat i from 0 to 9."),
    (6, &[], &["CON", "VAR", "OBJ", "PUB", "PRI", "DAT"], &[], "CON, VAR, OBJ, PUB, PRI and DAT stand in column 1, and nowhere else."),
    (6, &[], &["WR", "NR"], &[],
     "RDBYTE, RDWORD and RDLONG always write their register, and WRBYTE, WRWORD and WRLONG never do: WR and NR stand with neither."),
    (6, &[], &["#"], &["DEFINE", "UNDEF", "IFDEF", "IFNDEF", "INCLUDE", "ELSE", "ENDIF"],
     "The Manual has no preprocessor: define numbers in CON, and take in files by OBJ."),
    (6, &["DEFINE", "UNDEF", "IFDEF", "IFNDEF", "INCLUDE"], &[], &[], "The Manual has no preprocessor: define numbers in CON, and take in files by OBJ."),
    (6, &["."], &["BYTE", "WORD", "LONG"], &[], "`.byte`, `.word` and `.long` are parts of a name alone: for b[1].byte[2] write byte[@b[1]][2]."),
    (6, &[","], &["BYTE", "WORD", "LONG"], &[],
     "A line of VAR has one size: begin a new line for another. Parameters and locals are longs, and have no size word."),
    (6, &["|", "("], &["BYTE", "WORD", "LONG"], &[], "Parameters and locals are longs, and have no size word; a local may be an array of longs."),
    (6, &[":"], &["RESULT"], &[], "A method's result needs no name: RESULT is there without it."),
    (6, &["#"], &[
        "ABS", "ADD", "AND", "CALL", "CMP", "JMP", "MAX", "MIN", "MOV", "MUL", "NEG", "NEXT", "NOP", "OR",
        "QUIT", "REPEAT", "RET", "RETURN", "REV", "ROL", "ROR", "SAR", "SHL", "SHR", "SUB", "TEST", "WAITCNT", "XOR",
    ], &[], "A reserved word can be the name of a local label alone, as :sub in jmp #:sub."),
    (9, &[], &["PI"], &[], "In thousandths PI is 3142."),
    (9, &[], &["FLOAT", "ROUND", "TRUNC"], &[], "Where numbers are in thousandths, FLOAT(x) is x * 1000, and TRUNC(x) is x / 1000."),
    (10, &[], &["?"], &[], "There is no `?` here: write a generator of your own, as x := x * 1664525 + 1013904223."),
    (10, &[], &["CTRA", "CTRB", "FRQA", "FRQB", "PHSA", "PHSB"], &[],
     "There are no counters here: a loop with WAITCNT, in a cog of its own, makes such signals."),
    (10, &[], &["SPR"], &[], "Write the register's name: dira for spr[6], outa for spr[4]."),
    (10, &[], &["INB", "OUTB", "DIRB"], &[], "There is no port B here: the pins are 0 to 31, in INA, OUTA and DIRA."),
    (10, &[], &["VCFG", "VSCL", "WAITVID"], &[], "There is no video here."),
    (10, &[], &["CHIPVER"], &[], "The chip is the P8X32A, of which CHIPVER is 1: write 1."),
    (10, &[], &["CLKSET", "REBOOT"], &[], "There is no reset here, and the clock is that of _clkmode in CON."),
    (10, &[], &["FILE"], &[], "Write the bytes of the file in lines of BYTE."),
];

#[rattlefmt::skip]
static FORMS: [Form; 15] = [
    (&["COGID", "CLKFREQ", "CLKMODE", "LOCKNEW"], ""),
    (&["COGNEW"], "(method, stack)` or `cognew(@label, parameter)"),
    (&["COGINIT"], "(cog, method, stack)` or `coginit(cog, @label, parameter)"),
    (&["COGSTOP"], "(cog)"),
    (&["LOCKRET", "LOCKSET", "LOCKCLR"], "(lock)"),
    (&["WAITCNT"], "(clock)"),
    (&["WAITPEQ", "WAITPNE"], "(state, mask, 0)"),
    (&["BYTEFILL", "WORDFILL", "LONGFILL"], "(to, value, count)"),
    (&["BYTEMOVE", "WORDMOVE", "LONGMOVE"], "(to, from, count)"),
    (&["STRSIZE"], "(text)"),
    (&["STRCOMP"], "(text, text)"),
    (&["LOOKUP", "LOOKUPZ"], "(index: value, value)"),
    (&["LOOKDOWN", "LOOKDOWNZ"], "(value: value, value)"),
    (&["STRING"], "(\"text\")"),
    (&["CONSTANT"], "(value)"),
];

// The rows of slips, in the order in which they are tried.
fn slips() -> &'static [Slip]
    ensures { map slip_of result.now ≡ slips }
{
    &SLIPS
}

// The rows of forms.
fn forms() -> &'static [Form]
    ensures { map form_of result.now ≡ forms }
{
    &FORMS
}

/// Whether a text is a word, in letters of any case.
pub(crate) fn is_word(word: &str, text: &[u8]) -> bool
    ensures { result ≡ is_word word.now text.now }
{
    word.len() == text.len() && begins_with(word.as_bytes(), &Characters::of_text(text))
}

fn is_one_of(words: &[&str], text: &[u8]) -> bool
    ensures { result ≡ is_one_of (words_of words.now) text.now }
{
    for word in words {
        if is_word(word, text) {
            return true;
        }
    }
    false
}

// Whether a text is one of some words; no words stand for any text.
fn allows(words: &[&str], text: &[u8]) -> bool
    ensures { result ≡ allows (words_of words.now) text.now }
{
    match words {
        [] => true,
        _ => is_one_of(words, text),
    }
}

fn is_slip(slip: &Slip, number: u8, before: &[u8], here: &[u8], behind: &[u8]) -> bool
    ensures { result ≡ is_slip (slip_of slip.now) number before.now here.now behind.now }
{
    slip.0 == number && allows(slip.1, before) && allows(slip.2, here) && allows(slip.3, behind)
}

// The sentence of the first row that fits.
fn first_slip(
    rows: &[Slip],
    number: u8,
    before: &[u8],
    here: &[u8],
    behind: &[u8],
) -> Option<&'static str>
    ensures { text_of result ≡ first_slip (map slip_of rows.now) number before.now here.now behind.now }
{
    for row in rows {
        if is_slip(row, number, before, here, behind) {
            return Some(row.4);
        }
    }
    None
}

// The arguments that a word takes.
fn first_form(rows: &[Form], word: &[u8]) -> Option<&'static str>
    ensures { text_of result ≡ first_form (map form_of rows.now) word.now }
{
    for (words, arguments) in rows {
        if is_one_of(words, word) {
            return Some(*arguments);
        }
    }
    None
}

/// The sentence that mends what a refusal of this number shows, by the token before its place, the one at it and the one behind that.
pub(crate) fn slip_at(number: u8, before: &[u8], here: &[u8], behind: &[u8]) -> Option<&'static str>
    ensures { text_of result ≡ first_slip slips number before.now here.now behind.now }
{
    first_slip(slips(), number, before, here, behind)
}

/// The arguments that a word takes in a method, if it is a word that takes some.
pub(crate) fn form_at(word: &[u8]) -> Option<&'static str>
    ensures { text_of result ≡ first_form forms word.now }
{
    first_form(forms(), word)
}

/// The word whose form is told: at 6 the one before the place, at 17 the one at it.
pub(crate) fn word_asked<'a>(number: u8, before: &'a [u8], here: &'a [u8]) -> &'a [u8]
    ensures { result.now ≡ word_asked number before.now here.now }
{
    if number == 6 {
        before
    } else if number == 17 {
        here
    } else {
        b""
    }
}

// Appends a word with its arguments between two texts.
fn push_between(
    out: &mut Vec<u8>,
    before: &[u8],
    word: &[u8],
    arguments: &str,
    after: &[u8],
) -> Result<(), NoMemory>
    ensures { OnOk result (out.new.items ≡ out.old.items ++ (before.now ++ word.now ++ arguments.now ++ after.now)) }
{
    push_text(out, before)?;
    push_text(out, word)?;
    push_text(out, arguments.as_bytes())?;
    push_text(out, after)?;
    Ok(())
}

/// Appends how a word is written with its arguments.
pub(crate) fn push_form(out: &mut Vec<u8>, word: &[u8], arguments: &str) -> Result<(), NoMemory>
    ensures { OnOk result (out.new.items ≡ out.old.items ++ form_text word.now arguments.now) }
{
    push_between(
        out,
        b"In a method it is written `",
        word,
        arguments,
        b"`.\n",
    )
}

/// Appends a sentence as a line.
pub(crate) fn push_line(out: &mut Vec<u8>, sentence: &str) -> Result<(), NoMemory>
    ensures { OnOk result (out.new.items ≡ out.old.items ++ (sentence.now ++ codes "\n")) }
{
    push_text(out, sentence.as_bytes())?;
    push_text(out, b"\n")?;
    Ok(())
}
