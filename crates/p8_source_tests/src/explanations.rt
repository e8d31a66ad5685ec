// Whole explanations, of sources with their refusals.
use p8_build::Size;
use p8_explain::{absence, entry, explanation};
use p8_lexer::Spellings;
use p8_stmt::MethodSize;
use p8_tree::{Fault, Place, Text};
use p8_words::NoMemory;
use std::alloc::Global;

/// A source `m.spin`, the number of its refusal, the line and the column of that, the size that it tells, and the explanation.
type Case = (&'static [u8], u8, u32, u32, Option<Size>, &'static [u8]);

/// Whether a refusal is explained so.
fn is_explained(alloc: Global, case: &Case) -> Result<bool, NoMemory> {
    let (bytes, number, line, column, size, expected) = *case;
    let name = Text::copy_of(alloc, b"m.spin")?;
    let fault = Fault {
        number,
        place: Place { line, column },
    };
    let text = explanation(alloc, &name, bytes, fault, size)?;
    Ok(text.as_slice() == expected)
}

static EXPLAINED: [Case; 32] = [
    // A token that can't stand where it does, told apart by what its line shows: after a tab, in UTF-16, with CR LF, in a long line.
    (
        b"PUB main\n\ta := next\n",
        6,
        2,
        14,
        None,
        b"m.spin:2:14: 6 Unexpected\n\
            \x20       a := next\n\
            \x20            ^\n\
            `next` is a reserved word, and can't be a name.\n\
            No line begins or goes on so, or the file ends here and more must follow.\n\
            Look at what stands before it: a missing operator, bracket, comma or colon is told at the token after it.\n",
    ),
    (
        b"\xff\xfeP\0U\0B\0 \0m\0a\0i\0n\0\r\0\n\0 \0a\0 \0=\0 \01\0\r\0\n\0",
        6,
        2,
        4,
        None,
        b"m.spin:2:4: 6 Unexpected\n\
            \x20a = 1\n\
            \x20  ^\n\
            `==` compares and `:=` assigns; `=` alone defines constants in CON.\n\
            No line begins or goes on so, or the file ends here and more must follow.\n\
            Look at what stands before it: a missing operator, bracket, comma or colon is told at the token after it.\n",
    ),
    (
        b"PUB main\r\n  a := \r\n  b := 1\r\n",
        6,
        2,
        8,
        None,
        b"m.spin:2:8: 6 Unexpected\n\
            \x20 a := \n\
            \x20      ^\n\
            The line ends here, where more must follow, as a name, a value, a closing bracket or the : of a CASE item.\n\
            No line begins or goes on so, or the file ends here and more must follow.\n\
            Look at what stands before it: a missing operator, bracket, comma or colon is told at the token after it.\n",
    ),
    (
        b"CON\nx = 1 + 1 + 1 + 1 + 1 + 1 + 1 + 1 + 1 + 1 + 1 + 1 + 1 + 1 + 1 + 1 + 1 + 1 + 1\
            \x20+ 1 + 1 + 1 + 1 + 1 + next\n",
        6,
        2,
        101,
        None,
        b"m.spin:2:101: 6 Unexpected\n\
            \x201 + 1 + 1 + 1 + 1 + 1 + 1 + 1 + 1 + 1 + 1 + 1 + next\n\
            \x20                                                ^\n\
            `next` is a reserved word, and can't be a name.\n\
            No line begins or goes on so, or the file ends here and more must follow.\n\
            Look at what stands before it: a missing operator, bracket, comma or colon is told at the token after it.\n",
    ),
    // A file that begins with the mark of UTF-8, whose lines are shown from behind it.
    (
        b"\xef\xbb\xbfPUB main | a\n  a := string(\"x\", 256)\n",
        31,
        2,
        20,
        None,
        b"m.spin:2:20: 31 NotCharacter\n\
            \x20 a := string(\"x\", 256)\n\
            \x20                  ^\n\
            An item of a text in STRING isn't from 1 to 255.\n\
            Each number is one character; the 0 at the text's end comes by itself.\n",
    ),
    // A token that can't stand where it does, by what stands before it.
    (
        b"PUB main\n  m()\n",
        6,
        2,
        5,
        None,
        b"m.spin:2:5: 6 Unexpected\n\
            \x20 m()\n\
            \x20   ^\n\
            Nothing stands in these parentheses: leave them out, or write what belongs in them.\n\
            No line begins or goes on so, or the file ends here and more must follow.\n\
            Look at what stands before it: a missing operator, bracket, comma or colon is told at the token after it.\n",
    ),
    (
        b"PUB main\n  a := 1 2\n",
        6,
        2,
        10,
        None,
        b"m.spin:2:10: 6 Unexpected\n\
            \x20 a := 1 2\n\
            \x20        ^\n\
            `2` follows another word or value, with no operator, comma, bracket or colon between them.\n\
            No line begins or goes on so, or the file ends here and more must follow.\n\
            Look at what stands before it: a missing operator, bracket, comma or colon is told at the token after it.\n",
    ),
    (
        b"PUB main\n  + 1\n",
        6,
        2,
        3,
        None,
        b"m.spin:2:3: 6 Unexpected\n\
            \x20 + 1\n\
            \x20 ^\n\
            The line begins with `+`.\n\
            No line begins or goes on so, or the file ends here and more must follow.\n\
            Look at what stands before it: a missing operator, bracket, comma or colon is told at the token after it.\n",
    ),
    (
        b"CON\n  x = *2\n",
        6,
        2,
        7,
        None,
        b"m.spin:2:7: 6 Unexpected\n\
            \x20 x = *2\n\
            \x20     ^\n\
            The line can be read up to `*`.\n\
            No line begins or goes on so, or the file ends here and more must follow.\n\
            Look at what stands before it: a missing operator, bracket, comma or colon is told at the token after it.\n",
    ),
    // Slips, told by the token before the place, the one at it and the one behind that: letters in either case, and symbols of two tokens.
    (
        b"PUB main | x\n  if x\n    x := 1\n  Else  If x != 1\n",
        6,
        4,
        9,
        None,
        b"m.spin:4:9: 6 Unexpected\n\
            \x20 Else  If x != 1\n\
            \x20       ^\n\
            ELSEIF and ELSEIFNOT are one word each; an IF of its own stands on the next line, further to the right.\n\
            No line begins or goes on so, or the file ends here and more must follow.\n\
            Look at what stands before it: a missing operator, bracket, comma or colon is told at the token after it.\n",
    ),
    (
        b"PUB main | x\n  if x != 1\n",
        6,
        2,
        8,
        None,
        b"m.spin:2:8: 6 Unexpected\n\
            \x20 if x != 1\n\
            \x20      ^\n\
            `<>` is not equal; `!` inverts the bits of a value.\n\
            No line begins or goes on so, or the file ends here and more must follow.\n\
            Look at what stands before it: a missing operator, bracket, comma or colon is told at the token after it.\n",
    ),
    (
        b"CON\n  a = 1\n  b = a  <= 2\nPUB main\n",
        12,
        3,
        7,
        None,
        b"m.spin:3:7: 12 NotConstant\n\
            \x20 b = a  <= 2\n\
            \x20     ^\n\
            `=<` and `=>` compare; `<=` and `>=` assign to a variable.\n\
            A constant is needed here, and this isn't one, or it is defined by itself.\n\
            Use numbers, constants and operators alone.\n",
    ),
    // Slips at a word that is reserved: a part of an element, another size in a line of VAR and in a method's head, the result, and a label.
    (
        b"VAR\n  long b[2]\nPUB main | x\n  x := b[1].Byte[2]\n",
        6,
        4,
        13,
        None,
        b"m.spin:4:13: 6 Unexpected\n\
            \x20 x := b[1].Byte[2]\n\
            \x20           ^\n\
            `.byte`, `.word` and `.long` are parts of a name alone: for b[1].byte[2] write byte[@b[1]][2].\n\
            No line begins or goes on so, or the file ends here and more must follow.\n\
            Look at what stands before it: a missing operator, bracket, comma or colon is told at the token after it.\n",
    ),
    (
        b"VAR byte a, word b\nPUB main\n",
        6,
        1,
        13,
        None,
        b"m.spin:1:13: 6 Unexpected\n\
            VAR byte a, word b\n\
            \x20           ^\n\
            A line of VAR has one size: begin a new line for another. Parameters and locals are longs, and have no size word.\n\
            No line begins or goes on so, or the file ends here and more must follow.\n\
            Look at what stands before it: a missing operator, bracket, comma or colon is told at the token after it.\n",
    ),
    (
        b"PUB main | byte x\n",
        6,
        1,
        12,
        None,
        b"m.spin:1:12: 6 Unexpected\n\
            PUB main | byte x\n\
            \x20          ^\n\
            Parameters and locals are longs, and have no size word; a local may be an array of longs.\n\
            No line begins or goes on so, or the file ends here and more must follow.\n\
            Look at what stands before it: a missing operator, bracket, comma or colon is told at the token after it.\n",
    ),
    (
        b"PUB main : result\n",
        6,
        1,
        12,
        None,
        b"m.spin:1:12: 6 Unexpected\n\
            PUB main : result\n\
            \x20          ^\n\
            A method's result needs no name: RESULT is there without it.\n\
            No line begins or goes on so, or the file ends here and more must follow.\n\
            Look at what stands before it: a missing operator, bracket, comma or colon is told at the token after it.\n",
    ),
    (
        b"PUB main\nDAT\n call #sub\n",
        6,
        3,
        8,
        None,
        b"m.spin:3:8: 6 Unexpected\n\
            \x20call #sub\n\
            \x20      ^\n\
            A reserved word can be the name of a local label alone, as :sub in jmp #:sub.\n\
            No line begins or goes on so, or the file ends here and more must follow.\n\
            Look at what stands before it: a missing operator, bracket, comma or colon is told at the token after it.\n",
    ),
    // A comparison where a statement stands, and an operand below 0.
    (
        b"PUB main | x\n  x == 1\n",
        6,
        2,
        5,
        None,
        b"m.spin:2:5: 6 Unexpected\n\
            \x20 x == 1\n\
            \x20   ^\n\
            `==` compares and `:=` assigns; `=` alone defines constants in CON.\n\
            No line begins or goes on so, or the file ends here and more must follow.\n\
            Look at what stands before it: a missing operator, bracket, comma or colon is told at the token after it.\n",
    ),
    (
        b"PUB main\nDAT\n mov x, #-1\nx long 0\n",
        21,
        3,
        10,
        None,
        b"m.spin:3:10: 21 OperandRange\n\
            \x20mov x, #-1\n\
            \x20        ^\n\
            This operand isn't from 0 to 511, or the label isn't on a long.\n\
            Put another number into a long, and name that long.\n",
    ),
    // A built-in without parentheses, and one with two arguments in place of one.
    (
        b"PUB main\n  WaitCnt cnt + 80_000\n",
        6,
        2,
        11,
        None,
        b"m.spin:2:11: 6 Unexpected\n\
            \x20 WaitCnt cnt + 80_000\n\
            \x20         ^\n\
            In a method it is written `WaitCnt(clock)`.\n\
            No line begins or goes on so, or the file ends here and more must follow.\n\
            Look at what stands before it: a missing operator, bracket, comma or colon is told at the token after it.\n",
    ),
    (
        b"PUB main\n  waitcnt(1, 2)\n",
        17,
        2,
        3,
        Some(Size::Arguments {
            wanted: 1,
            given: 2,
        }),
        b"m.spin:2:3: 17 WrongArity\n\
            \x20 waitcnt(1, 2)\n\
            \x20 ^\n\
            In a method it is written `waitcnt(clock)`.\n\
            2 arguments are given, and 1 is expected.\n\
            The number of arguments isn't that of the method or built-in, or a method has more than 15 parameters.\n\
            Compare the call with the method's first line.\n",
    ),
    (
        b"PUB main\n  two(1)\nPUB two(a, b)\n",
        17,
        2,
        3,
        Some(Size::Arguments {
            wanted: 2,
            given: 1,
        }),
        b"m.spin:2:3: 17 WrongArity\n\
            \x20 two(1)\n\
            \x20 ^\n\
            1 argument is given, and 2 are expected.\n\
            The number of arguments isn't that of the method or built-in, or a method has more than 15 parameters.\n\
            Compare the call with the method's first line.\n",
    ),
    // A second mark of UTF-8, one mark alone, a last Ctrl-Z, half a unit, and a character above 127.
    (
        b"\xef\xbb\xbf\xef\xbb\xbfPUB main\n",
        1,
        1,
        1,
        None,
        b"m.spin:1:1: 1 BadByte\n\
            ???PUB main\n\
            ^\n\
            The file begins with two marks of UTF-8, the bytes EF BB BF twice: store it with one mark, or with none.\n\
            No token begins with this character, or the file is UTF-16 and ends in half a unit.\n\
            Take the character away, or type it again: a copied text may hold one that only looks like another.\n",
    ),
    (
        b"\xef\xbb\xbf\x1a",
        1,
        1,
        1,
        None,
        b"m.spin:1:1: 1 BadByte\n\
            ?\n\
            ^\n\
            This is Ctrl-Z, character 26, which some editors put at the end of a file.\n\
            No token begins with this character, or the file is UTF-16 and ends in half a unit.\n\
            Take the character away, or type it again: a copied text may hold one that only looks like another.\n",
    ),
    (
        b"PUB main\r\n\x1a",
        1,
        2,
        1,
        None,
        b"m.spin:2:1: 1 BadByte\n\
            ?\n\
            ^\n\
            This is Ctrl-Z, character 26, which some editors put at the end of a file.\n\
            No token begins with this character, or the file is UTF-16 and ends in half a unit.\n\
            Take the character away, or type it again: a copied text may hold one that only looks like another.\n",
    ),
    (
        b"\xff\xfeP\0U",
        1,
        1,
        2,
        None,
        b"m.spin:1:2: 1 BadByte\n\
            P\n\
            \x20^\n\
            Half a unit of UTF-16 stands here, at the end of the file.\n\
            No token begins with this character, or the file is UTF-16 and ends in half a unit.\n\
            Take the character away, or type it again: a copied text may hold one that only looks like another.\n",
    ),
    (
        b"PUB main\n\x84\n",
        1,
        2,
        1,
        None,
        b"m.spin:2:1: 1 BadByte\n\
            ?\n\
            ^\n\
            This is character 132.\n\
            No token begins with this character, or the file is UTF-16 and ends in half a unit.\n\
            Take the character away, or type it again: a copied text may hold one that only looks like another.\n",
    ),
    // A name that is defined twice, and one that the language has; another name that holds the letters doesn't count.
    (
        b"PRI domain\nPUB main\nPUB Main\n",
        14,
        3,
        5,
        None,
        b"m.spin:3:5: 14 Duplicate\n\
            PUB Main\n\
            \x20   ^\n\
            `Main` stands first at 2:5, where comments and strings count.\n\
            This name has another definition. Letters in either case are the same.\n\
            Choose another name. TRUE, XTAL1 and the language's other constants are names of every file.\n",
    ),
    (
        b"PUB main\nCON true = 1\n",
        14,
        2,
        5,
        None,
        b"m.spin:2:5: 14 Duplicate\n\
            CON true = 1\n\
            \x20   ^\n\
            `true` stands nowhere before this: it is a constant of the language, or this file defines it further down.\n\
            This name has another definition. Letters in either case are the same.\n\
            Choose another name. TRUE, XTAL1 and the language's other constants are names of every file.\n",
    ),
    // A frame of one long too many with too much on the stack, one whose longs aren't told any more, and an image of one long too many.
    (
        b"PUB main | a[2048]\n",
        26,
        1,
        5,
        Some(Size::Method(MethodSize {
            longs: 2049,
            held: 130,
        })),
        b"m.spin:1:5: 26 FrameTooLarge\n\
            PUB main | a[2048]\n\
            \x20   ^\n\
            The frame has 2049 longs, 1 more than 2048.\n\
            The method holds 130 values at once, 2 more than 128.\n\
            The method's result, parameters and locals are more than 2,048 longs, or it holds more than 128 values at once.\n\
            Put large arrays into VAR.\n",
    ),
    (
        b"PUB main | a[-1]\n",
        26,
        1,
        5,
        Some(Size::Method(MethodSize {
            longs: u32::MAX,
            held: 1,
        })),
        b"m.spin:1:5: 26 FrameTooLarge\n\
            PUB main | a[-1]\n\
            \x20   ^\n\
            The frame has at least 4294967295 longs, at least 4294965247 more than 2048.\n\
            The method's result, parameters and locals are more than 2,048 longs, or it holds more than 128 values at once.\n\
            Put large arrays into VAR.\n",
    ),
    (
        b"PUB main\n",
        28,
        1,
        1,
        Some(Size::Image(32_772)),
        b"m.spin:1:1: 28 ImageTooLarge\n\
            PUB main\n\
            ^\n\
            The image with its variables and the first frame has 32772 bytes, 4 more than 32768.\n\
            The program, its variables and the first method's frame don't fit into 32,768 bytes.\n\
            Shorten arrays or code.\n",
    ),
];

#[test]
fn refusals_are_explained(rt: HostRuntime) {
    for case in &EXPLAINED {
        assert!(rt;
            matches!(is_explained(rt.alloc(), case), Ok(true)),
            "{} at {}:{}",
            case.1,
            case.2,
            case.3
        );
    }
}

/// Refusals by their numbers, and what is told of them.
static ENTRIES: [(u8, &[u8]); 4] = [
    (
        26,
        b"26 FrameTooLarge\n\
            The method's result, parameters and locals are more than 2,048 longs, or it holds more than 128 values at once.\n\
            Put large arrays into VAR.\n\
            Example: PUB main | a[2048]\n",
    ),
    (
        30,
        b"30 FileTooLong\n\
            The file has more than 1,048,576 bytes.\n\
            Split it into objects.\n",
    ),
    (
        31,
        b"31 NotCharacter\n\
            An item of a text in STRING isn't from 1 to 255.\n\
            Each number is one character; the 0 at the text's end comes by itself.\n\
            Example: a := string(\"x\", 256)\n",
    ),
    (32, b"32 \nNo refusal has this number.\n"),
];

/// Whether each refusal is told so.
fn are_told(alloc: Global) -> Result<bool, NoMemory> {
    let mut all = true;
    for (number, expected) in &ENTRIES {
        let text = entry(alloc, *number)?;
        all = all && text.as_slice() == *expected;
    }
    Ok(all)
}

#[test]
fn entries_are_told(rt: HostRuntime) {
    assert!(rt; matches!(are_told(rt.alloc()), Ok(true)));
}

/// A file that is missing, and its explanation at the place that mentions it.
type Missing = (&'static [u8], &'static [u8], &'static [u8]);

/// Sources with a file that is missing: a name without a dot, and one with a dot.
static MISSING: [Missing; 2] = [
    (
        b"OBJ\n\tt : \"Ser\"\n",
        b"Ser.spin",
        b"m.spin:2:13: Ser.spin is missing\n\
            \x20       t : \"Ser\"\n\
            \x20           ^\n\
            There is no file of this name. Capitals and small letters differ, and a name without a dot gets .spin.\n",
    ),
    (
        b"OBJ\n\tt : \"v1.2\"\n",
        b"v1.2",
        b"m.spin:2:13: v1.2 is missing\n\
            \x20       t : \"v1.2\"\n\
            \x20           ^\n\
            There is no file of this name. Capitals and small letters differ, and a name without a dot gets .spin.\n\
            Its name has a dot, so .spin is added to it only where no file has the name itself.\n",
    ),
];

/// Whether each is explained so.
fn are_absent(alloc: Global) -> Result<bool, NoMemory> {
    let mut all = true;
    for (bytes, missing, expected) in &MISSING {
        let name = Text::copy_of(alloc, b"m.spin")?;
        let missing = Text::copy_of(alloc, missing)?;
        let place = Place {
            line: 2,
            column: 13,
        };
        let text = absence(alloc, &name, bytes, place, &missing)?;
        all = all && text.as_slice() == *expected;
    }
    Ok(all)
}

#[test]
fn missing_files_are_explained(rt: HostRuntime) {
    assert!(rt; matches!(are_absent(rt.alloc()), Ok(true)));
}

/// Sources with a place, a name of a tree, and how the source spells it there: after CR LF and at a line's begin, after a tab, in UTF-16, and after more
/// than a hundred characters. Where another word stands at the place, or none, the name stays as it is.
static SPELLED: [(&[u8], u32, u32, &[u8], &[u8]); 7] = [
    (
        b"VAR\r\n  long rx_Head, tail\r\n",
        2,
        8,
        b"RX_HEAD",
        b"rx_Head",
    ),
    (b"DAT\r\nEntry long 5\r\n", 2, 1, b"ENTRY", b"Entry"),
    (b"VAR\n\tlong\tCount2[2]\n", 2, 17, b"COUNT2", b"Count2"),
    (
        b"\xff\xfeP\0U\0B\0\r\0\n\0M\0a\0i\0n\0",
        2,
        1,
        b"MAIN",
        b"Main",
    ),
    (
        b"' 34567890123456789012345678901234567890123456789012345678901234567890\n\
            ' 34567890123456789012345678901234567890123456789012345678901234567890\nPUB go\n",
        3,
        5,
        b"GO",
        b"go",
    ),
    (b"PUB main\n", 1, 5, b"LED", b"LED"),
    (b"PUB main\n", 2, 1, b"MAIN", b"MAIN"),
];

/// Whether each source spells its name so.
fn are_spelled(alloc: Global) -> Result<bool, NoMemory> {
    let mut all = true;
    for (bytes, line, column, name, expected) in &SPELLED {
        let source = Spellings::of(alloc, bytes)?;
        let place = Place {
            line: *line,
            column: *column,
        };
        let text = source.spelled(alloc, place, name)?;
        all = all && text.as_slice() == *expected;
    }
    Ok(all)
}

#[test]
fn names_are_spelled(rt: HostRuntime) {
    assert!(rt; matches!(are_spelled(rt.alloc()), Ok(true)));
}
