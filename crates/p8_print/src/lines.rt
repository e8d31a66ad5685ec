// Writing single lines of a method.

ghost use Rattle.std.specs.Prelude.{◌≡◌, ◌++◌, [], ◌∷◌, if◌then◌else◌, OnOk, option_map};
ghost use Rattle.p8_lexer.specs.declared.word.Word.TheVariants as word_case;
ghost use Rattle.p8_tree.specs.Expressions.{node, Here, range, no_items, ◌▸◌};
ghost use Rattle.p8_tree.specs.Forgetting.{anywhere};
ghost use Rattle.p8_tree.specs.Views.{tree_of, item_of, items_of, course_of};
ghost use Rattle.p8_print.specs.Spelled.{reserved, text_of_words, text_of_line};
ghost use Rattle.p8_print.specs.Wording.{words_of, wrapped, words_of_value};
ghost use Rattle.p8_print.specs.StatementWords.{if_word, else_if_word, end_word, words_of_step, words_of_course, words_of_test, words_of_tests};
ghost use Rattle.p8_print.specs.Layout.{line, end_lines, test_of};
ghost use Rattle.p8_print.specs.Writing.{text_of};

use crate::expressions::{write_enclosed, write_expr, write_value};
use crate::script::Script;
use crate::words::{write_separator, write_variable_name, write_word};
use p8_lexer::Word;
use p8_tree::{Expr, Item, Loop};
use p8_words::NoMemory;
use std::alloc::Global;

// A line with one word.
pub(crate) fn write_word_line(
    script: &mut Script,
    indent: usize,
    word: Word,
) -> Result<(), NoMemory>
    ensures { OnOk result (script.new ≡ script.old ++ text_of_line (line indent (reserved word ∷ []))) }
{
    script.begin_line(indent)?;
    write_word(script, word)?;
    script.end_line()
}

// A line with an expression as it is.
pub(crate) fn write_expr_line(
    alloc: Global,
    script: &mut Script,
    indent: usize,
    expr: &Expr,
) -> Result<(), NoMemory>
    ensures { OnOk result (script.new ≡ script.old ++ text_of_line (line indent (words_of (tree_of expr.now)))) }
{
    script.begin_line(indent)?;
    write_expr(alloc, script, expr)?;
    script.end_line()
}

// A line with a word and an expression after it.
pub(crate) fn write_headed_line(
    alloc: Global,
    script: &mut Script,
    indent: usize,
    word: Word,
    expr: &Expr,
) -> Result<(), NoMemory>
    ensures { OnOk result (script.new ≡ script.old ++ text_of_line (line indent (reserved word ∷ wrapped (tree_of expr.now)))) }
{
    script.begin_line(indent)?;
    write_word(script, word)?;
    write_enclosed(alloc, script, expr)?;
    script.end_line()
}

// A line with a word and an expression after it, if there is one.
pub(crate) fn write_value_line(
    alloc: Global,
    script: &mut Script,
    indent: usize,
    word: Word,
    value: &Option<Expr>,
) -> Result<(), NoMemory>
    ensures { OnOk result (script.new ≡ script.old ++ text_of_line (line indent (reserved word ∷ words_of_value (option_map tree_of value.now)))) }
{
    script.begin_line(indent)?;
    write_word(script, word)?;
    write_value(alloc, script, value)?;
    script.end_line()
}

// The line of a chain's arm.
pub(crate) fn write_arm_line(
    alloc: Global,
    script: &mut Script,
    indent: usize,
    word: Word,
    tests: &[Item],
) -> Result<(), NoMemory>
    ensures { OnOk result (script.new ≡ script.old ++ text_of_line (line indent (reserved word ∷ wrapped (test_of (items_of tests.now))))) }
{
    let Some((test, _)) = tests.split_last() else {
        return write_here_line(script, indent, word);
    };
    write_test_line(alloc, script, indent, word, test)
}

// A line with a word and a test, which is one value.
fn write_test_line(
    alloc: Global,
    script: &mut Script,
    indent: usize,
    word: Word,
    test: &Item,
) -> Result<(), NoMemory>
    ensures { OnOk result (script.new ≡ script.old ++ text_of_line (line indent (reserved word ∷ wrapped (test_of (no_items ▸ item_of test.now))))) }
{
    match &test.high {
        None => write_headed_line(alloc, script, indent, word, &test.low),
        Some(_) => write_here_line(script, indent, word),
    }
}

// What stands where there is no such test, in no tree of a file.
fn write_here_line(script: &mut Script, indent: usize, word: Word) -> Result<(), NoMemory>
    ensures { OnOk result (script.new ≡ script.old ++ text_of_line (line indent (reserved word ∷ wrapped (node anywhere Here)))) }
{
    script.begin_line(indent)?;
    write_word(script, word)?;
    write_word(script, Word::LeftParenthesis)?;
    write_word(script, Word::Dollar)?;
    write_word(script, Word::RightParenthesis)?;
    script.end_line()
}

// The word of a chain's arm.
pub(crate) fn arm_word(is_first: bool, negated: bool) -> Word
    ensures { result ≡ (if is_first then if_word negated else else_if_word negated) }
{
    match (is_first, negated) {
        (true, false) => Word::If,
        (true, true) => Word::Ifnot,
        (false, false) => Word::Elseif,
        (false, true) => Word::Elseifnot,
    }
}

// A line with the tests of a CASE's item.
pub(crate) fn write_item_line(
    alloc: Global,
    script: &mut Script,
    indent: usize,
    tests: &[Item],
) -> Result<(), NoMemory>
    ensures { OnOk result (script.new ≡ script.old ++ text_of_line (line indent (words_of_tests (items_of tests.now) ++ reserved word_case.Colon ∷ []))) }
{
    script.begin_line(indent)?;
    write_tests(alloc, script, tests)?;
    write_word(script, Word::Colon)?;
    script.end_line()
}

// Tests, with commas between them.
fn write_tests(alloc: Global, script: &mut Script, tests: &[Item]) -> Result<(), NoMemory>
    ensures { OnOk result (script.new ≡ script.old ++ text_of_words (words_of_tests (items_of tests.now))) }
{
    for (i, test) in tests.iter().enumerate() {
        write_separator(script, i)?;
        write_test(alloc, script, test)?;
    }
    Ok(())
}

// A value or a range of values.
fn write_test(alloc: Global, script: &mut Script, test: &Item) -> Result<(), NoMemory>
    ensures { OnOk result (script.new ≡ script.old ++ text_of_words (words_of_test (item_of test.now))) }
{
    match &test.high {
        None => write_enclosed(alloc, script, &test.low),
        Some(high) => write_range(alloc, script, &test.low, high),
    }
}

// A range of values.
fn write_range(alloc: Global, script: &mut Script, low: &Expr, high: &Expr) -> Result<(), NoMemory>
    ensures { OnOk result (script.new ≡ script.old ++ text_of_words (words_of_test (range (tree_of low.now) (tree_of high.now)))) }
{
    write_enclosed(alloc, script, low)?;
    write_word(script, Word::DotDot)?;
    write_enclosed(alloc, script, high)
}

// The line of a CASE's OTHER.
pub(crate) fn write_other_line(script: &mut Script, indent: usize) -> Result<(), NoMemory>
    ensures { OnOk result (script.new ≡ script.old ++ text_of_line (line indent (reserved word_case.Other ∷ reserved word_case.Colon ∷ []))) }
{
    script.begin_line(indent)?;
    write_word(script, Word::Other)?;
    write_word(script, Word::Colon)?;
    script.end_line()
}

// The line of a REPEAT; the test after its statements has a line of its own.
pub(crate) fn write_repeat_line(
    alloc: Global,
    script: &mut Script,
    indent: usize,
    course: &Loop,
) -> Result<(), NoMemory>
    ensures { OnOk result (script.new ≡ script.old ++ text_of_line (line indent (reserved word_case.Repeat ∷ words_of_course (course_of course.now)))) }
{
    script.begin_line(indent)?;
    write_word(script, Word::Repeat)?;
    write_course(alloc, script, course)?;
    script.end_line()
}

// What stands after REPEAT.
fn write_course(alloc: Global, script: &mut Script, course: &Loop) -> Result<(), NoMemory>
    ensures { OnOk result (script.new ≡ script.old ++ text_of_words (words_of_course (course_of course.now))) }
{
    match course {
        Loop::Forever => Ok(()),
        Loop::Count(count) => write_enclosed(alloc, script, count),
        Loop::Before(until, test) => {
            write_word(script, end_word(*until))?;
            write_enclosed(alloc, script, test)
        }
        Loop::After(_, _) => Ok(()),
        Loop::From(name, first, last, step, _) => {
            write_variable_name(alloc, script, name)?;
            write_word(script, Word::From)?;
            write_enclosed(alloc, script, first)?;
            write_word(script, Word::To)?;
            write_enclosed(alloc, script, last)?;
            write_step(alloc, script, step)
        }
    }
}

// A step, if there is one.
fn write_step(alloc: Global, script: &mut Script, step: &Option<Expr>) -> Result<(), NoMemory>
    ensures { OnOk result (script.new ≡ script.old ++ text_of_words (words_of_step (option_map tree_of step.now))) }
{
    match step {
        None => Ok(()),
        Some(step) => {
            write_word(script, Word::Step)?;
            write_enclosed(alloc, script, step)
        }
    }
}

// The line of the test after the statements of a REPEAT, if it stands there.
pub(crate) fn write_end(
    alloc: Global,
    script: &mut Script,
    indent: usize,
    course: &Loop,
) -> Result<(), NoMemory>
    ensures { OnOk result (script.new ≡ script.old ++ text_of (end_lines indent (course_of course.now))) }
{
    match course {
        Loop::After(until, test) => {
            write_headed_line(alloc, script, indent, end_word(*until), test)
        }
        _ => Ok(()),
    }
}

// The word of a loop's test.
fn end_word(until: bool) -> Word
    ensures { result ≡ end_word until }
{
    if until { Word::Until } else { Word::While }
}
