// Printing a tree.

ghost use Rattle.std.specs.Prelude.{◌≡◌, ◌++◌, ◌∷◌, [], if◌then◌else◌, IfOk, OnOk, map};
ghost use Rattle.p8_lexer.specs.declared.word.Word.TheVariants as word_case;
ghost use Rattle.p8_tree.specs.Views.{constant_of, declared_of, child_of, method_of, line_of, block_of, source_of};
ghost use Rattle.p8_print.specs.Spelled.{reserved, text_of_line, text_of_lines};
ghost use Rattle.p8_print.specs.DeclarationWords.{words_of_constant, words_of_variable, words_of_child, words_of_head};
ghost use Rattle.p8_print.specs.DataWords.{words_of_line};
ghost use Rattle.p8_print.specs.Layout.{line, lines_of_method, lines_of_block, lines_of};

use crate::assembly::write_line;
use crate::declarations::{write_constant, write_head, write_object, write_variable};
use crate::lines::write_word_line;
use crate::script::Script;
use crate::statements::write_statements;
use crate::words::write_word;
use p8_lexer::Word;
use p8_tree::{Block, ConItem, DatLine, Method, ObjItem, SourceFile, VarItem};
use p8_words::NoMemory;
use std::alloc::Global;

/// The text of a tree: each block's word on a line of its own, two blanks before each item, and two more before the
/// statements of each block in another.
///
/// That the tree is read from this text is said by a law of its own, `printed_reads_back` in `p8_printed`.
pub fn print_tree(alloc: Global, file: &SourceFile) -> Result<Vec<u8>, NoMemory>
    ensures { IfOk result (λ text. text.items ≡ text_of_lines (lines_of (source_of file.now))) }
{
    let mut script = Script::new(alloc);
    write_blocks(alloc, &mut script, file.blocks.as_slice())?;
    Ok(script.finish())
}

// Blocks, one after the other.
fn write_blocks(alloc: Global, script: &mut Script, blocks: &[Block]) -> Result<(), NoMemory>
    ensures { OnOk result (script.new ≡ script.old ++ text_of_lines (lines_of (map block_of blocks.now))) }
{
    for block in blocks {
        write_block(alloc, script, block)?;
    }
    Ok(())
}

// A block.
fn write_block(alloc: Global, script: &mut Script, block: &Block) -> Result<(), NoMemory>
    ensures { OnOk result (script.new ≡ script.old ++ text_of_lines (lines_of_block (block_of block.now))) }
{
    match block {
        Block::Con(items) => {
            write_word_line(script, 0, Word::Con)?;
            write_constants(alloc, script, items.as_slice())
        }
        Block::Var(items) => {
            write_word_line(script, 0, Word::Var)?;
            write_variables(alloc, script, items.as_slice())
        }
        Block::Obj(items) => {
            write_word_line(script, 0, Word::Obj)?;
            write_objects(alloc, script, items.as_slice())
        }
        Block::Method(method) => write_method(alloc, script, method),
        Block::Dat(lines) => {
            write_word_line(script, 0, Word::Dat)?;
            write_data(alloc, script, lines.as_slice())
        }
    }
}

// The items of a CON.
fn write_constants(alloc: Global, script: &mut Script, items: &[ConItem]) -> Result<(), NoMemory>
    ensures { OnOk result (script.new ≡ script.old ++ text_of_lines (map (λ x. line 2 (words_of_constant x)) (map constant_of items.now))) }
{
    for item in items {
        script.begin_line(2)?;
        write_constant(alloc, script, item)?;
        script.end_line()?;
    }
    Ok(())
}

// The variables of a VAR.
fn write_variables(alloc: Global, script: &mut Script, items: &[VarItem]) -> Result<(), NoMemory>
    ensures { OnOk result (script.new ≡ script.old ++ text_of_lines (map (λ x. line 2 (words_of_variable x)) (map declared_of items.now))) }
{
    for item in items {
        script.begin_line(2)?;
        write_variable(alloc, script, item)?;
        script.end_line()?;
    }
    Ok(())
}

// The objects of an OBJ.
fn write_objects(alloc: Global, script: &mut Script, items: &[ObjItem]) -> Result<(), NoMemory>
    ensures { OnOk result (script.new ≡ script.old ++ text_of_lines (map (λ x. line 2 (words_of_child x)) (map child_of items.now))) }
{
    for item in items {
        script.begin_line(2)?;
        write_object(alloc, script, item)?;
        script.end_line()?;
    }
    Ok(())
}

// The lines of a DAT.
fn write_data(alloc: Global, script: &mut Script, lines: &[DatLine]) -> Result<(), NoMemory>
    ensures { OnOk result (script.new ≡ script.old ++ text_of_lines (map (λ x. line 2 (words_of_line x)) (map line_of lines.now))) }
{
    for line in lines {
        script.begin_line(2)?;
        write_line(alloc, script, line)?;
        script.end_line()?;
    }
    Ok(())
}

// A method: its head, and its statements.
fn write_method(alloc: Global, script: &mut Script, method: &Method) -> Result<(), NoMemory>
    ensures { OnOk result (script.new ≡ script.old ++ text_of_lines (lines_of_method (method_of method.now))) }
{
    write_head_line(alloc, script, method)?;
    write_statements(alloc, script, 2, method.body.as_slice())
}

// The line of a method's head.
fn write_head_line(alloc: Global, script: &mut Script, method: &Method) -> Result<(), NoMemory>
    ensures { OnOk result (script.new ≡ script.old ++
        text_of_line (line 0 (reserved (if (method_of method.now).public then word_case.Pub else word_case.Pri) ∷ words_of_head (method_of method.now)))) }
{
    script.begin_line(0)?;
    write_word(script, method_word(method.public))?;
    write_head(alloc, script, method)?;
    script.end_line()
}

// The word before a method's name.
fn method_word(public: bool) -> Word
    ensures { result ≡ (if public then word_case.Pub else word_case.Pri) }
{
    if public { Word::Pub } else { Word::Pri }
}
