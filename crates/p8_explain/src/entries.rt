// What each refusal says to a person.
ghost use Rattle.std.specs.Prelude.{◌≡◌};
ghost use Rattle.p8_explain.specs.Entries.{says, example, mends};

use p8_tree::Refusal;

/// What is wrong.
pub(crate) fn says(refusal: Refusal) -> &'static str
    ensures { result.now ≡ says refusal }
{
    match refusal {
        Refusal::BadByte =>
            "No token begins with this character, or the file is UTF-16 and ends in half a unit.",
        Refusal::BadNumber =>
            "This isn't a number: it has no digit of its base, is above 4,294,967,295, or a letter or a digit stands right after it.",
        Refusal::OpenComment => "This comment isn't closed.",
        Refusal::OpenString => "This string isn't closed on its line.",
        Refusal::NameTooLong => "This name has more than 30 characters.",
        Refusal::Unexpected =>
            "No line begins or goes on so, or the file ends here and more must follow.",
        Refusal::BadIndent => "Nothing at this column goes on with this word.",
        Refusal::TooNested =>
            "This is nested too deeply: an expression may be 64 high, 63 in an action, and 64 blocks may be open, the method among them.",
        Refusal::Float => "Floating point isn't computed.",
        Refusal::Unsupported => "This word or form is known, and left out here.",
        Refusal::LoopWord => "NEXT and QUIT stand only in a REPEAT.",
        Refusal::NotConstant =>
            "A constant is needed here, and this isn't one, or it is defined by itself.",
        Refusal::ZeroDivisor => "The right side of this operator is 0.",
        Refusal::Duplicate =>
            "This name has another definition. Letters in either case are the same.",
        Refusal::Unknown => "This name has no definition that is seen here.",
        Refusal::WrongKind => "This name is defined, and can't be used so.",
        Refusal::WrongArity =>
            "The number of arguments isn't that of the method or built-in, or a method has more than 15 parameters.",
        Refusal::NoPub => "The top file has no PUB, so nothing would run.",
        Refusal::Cycle => "This object leads back to a file that uses it.",
        Refusal::TooManyObjects =>
            "There are too many objects or files, or an item has no instance.",
        Refusal::OperandRange => "This operand isn't from 0 to 511, or the label isn't on a long.",
        Refusal::FitExceeded => "The code before FIT ends after its limit.",
        Refusal::OrgRange => "ORG is above 496.",
        Refusal::NoRetLabel => "CALL #x needs a label x_RET at the end of the routine.",
        Refusal::JumpTooFar => "A jump of this statement would go too far.",
        Refusal::FrameTooLarge =>
            "The method's result, parameters and locals are more than 2,048 longs, or it holds more than 128 values at once.",
        Refusal::TooManyMethods =>
            "The file has more than 254 methods, or more than 255 methods and objects together.",
        Refusal::ImageTooLarge =>
            "The program, its variables and the first method's frame don't fit into 32,768 bytes.",
        Refusal::BadClock =>
            "_clkmode is no mode, or an outer clock has no frequency, or two that differ.",
        Refusal::FileTooLong => "The file has more than 1,048,576 bytes.",
        Refusal::NotCharacter => "An item of a text in STRING isn't from 1 to 255.",
    }
}

/// A line that is refused so; empty, where no single line is.
pub(crate) fn example(refusal: Refusal) -> &'static str
    ensures { result.now ≡ example refusal }
{
    match refusal {
        Refusal::BadByte => "a := 1 }",
        Refusal::BadNumber => "a := %12",
        Refusal::OpenComment => "{ note",
        Refusal::OpenString => "a := string(\"x)",
        Refusal::NameTooLong => "abcdefghijklmnopqrstuvwxyzabcde := 1",
        Refusal::Unexpected => "a := m()",
        Refusal::BadIndent => "   else",
        Refusal::TooNested =>
            "x = !!!!!!!!!!!!!!!!!!!!!!!!!!!!!!!!!!!!!!!!!!!!!!!!!!!!!!!!!!!!!!!!1",
        Refusal::Float => "x = 1.5",
        Refusal::Unsupported => "a := a?",
        Refusal::LoopWord => "quit",
        Refusal::NotConstant => "x = main",
        Refusal::ZeroDivisor => "x = 1 / 0",
        Refusal::Duplicate => "PUB Main",
        Refusal::Unknown => "nosuch := 1",
        Refusal::WrongKind => "K := 2",
        Refusal::WrongArity => "one",
        Refusal::NoPub => "CON",
        Refusal::Cycle => "a : \"main\"",
        Refusal::TooManyObjects => "kid[0] : \"kid\"",
        Refusal::OperandRange => "t mov t, #512",
        Refusal::FitExceeded => "fit 1",
        Refusal::OrgRange => "org 500",
        Refusal::NoRetLabel => "t call #t",
        Refusal::JumpTooFar => "repeat",
        Refusal::FrameTooLarge => "PUB main | a[2048]",
        Refusal::TooManyMethods => "PRI last",
        Refusal::ImageTooLarge => "long a[8192]",
        Refusal::BadClock => "_clkmode = xtal1",
        Refusal::FileTooLong => "",
        Refusal::NotCharacter => "a := string(\"x\", 256)",
    }
}

/// What often mends it.
pub(crate) fn mends(refusal: Refusal) -> &'static str
    ensures { result.now ≡ mends refusal }
{
    match refusal {
        Refusal::BadByte =>
            "Take the character away, or type it again: a copied text may hold one that only looks like another.",
        Refusal::BadNumber =>
            "% begins base 2, %% base 4 and $ base 16; a name can't begin with a digit.",
        Refusal::OpenComment =>
            "Write } where the comment ends, or }} after {{; comments in { } may stand in one another.",
        Refusal::OpenString => "Write a second \" at its end.",
        Refusal::NameTooLong => "Shorten the name.",
        Refusal::Unexpected =>
            "Look at what stands before it: a missing operator, bracket, comma or colon is told at the token after it.",
        Refusal::BadIndent =>
            "Give an ELSE kind the column of its IF, and WHILE or UNTIL that of its REPEAT.",
        Refusal::TooNested => "Split the expression, or move inner blocks to a method.",
        Refusal::Float => "Use whole numbers, as 1500 for 1.5 in thousandths.",
        Refusal::Unsupported =>
            "Write what it does in other words; docs/LANGUAGE.md lists what is left out.",
        Refusal::LoopWord => "Use RETURN to leave a method, or check the indentation.",
        Refusal::NotConstant => "Use numbers, constants and operators alone.",
        Refusal::ZeroDivisor => "Check the constants of the divisor.",
        Refusal::Duplicate =>
            "Choose another name. TRUE, XTAL1 and the language's other constants are names of every file.",
        Refusal::Unknown =>
            "Check its spelling. Of another file PUBs and constants are seen, after the object's name, as object.method or object#CONSTANT.",
        Refusal::WrongKind =>
            "A constant and a method can't be assigned, and a variable can't be called.",
        Refusal::WrongArity => "Compare the call with the method's first line.",
        Refusal::NoPub => "Add a method, as PUB main; the first one runs.",
        Refusal::Cycle => "Take the object out of one of the files.",
        Refusal::TooManyObjects =>
            "A file may have 255 items and instances, and a project 255 files.",
        Refusal::OperandRange => "Put another number into a long, and name that long.",
        Refusal::FitExceeded => "Shorten the code; a cog has 496 longs.",
        Refusal::OrgRange => "Give a cog address from 0 to 496.",
        Refusal::NoRetLabel => "Write x_RET before the routine's RET.",
        Refusal::JumpTooFar => "Move a part of its body to a method.",
        Refusal::FrameTooLarge => "Put large arrays into VAR.",
        Refusal::TooManyMethods => "Move methods to an object.",
        Refusal::ImageTooLarge => "Shorten arrays or code.",
        Refusal::BadClock => "An outer clock needs one of _clkfreq and _xinfreq.",
        Refusal::FileTooLong => "Split it into objects.",
        Refusal::NotCharacter =>
            "Each number is one character; the 0 at the text's end comes by itself.",
    }
}
