// The text of a long, through all calls that read it.
ghost use Rattle.std.specs.Prelude.{◌≡◌, IfOk, IfErr};
ghost use Rattle.std.specs.Int.{to_le_bytes, w32};
ghost use Rattle.p8_tree.specs.Views.{source_of};
ghost use Rattle.p8_tree.specs.Proper.{IsProperFile};
ghost use Rattle.p8_tree.specs.Faults.{IfRefused};
ghost use Rattle.p8_lexer.specs.Lexing.{AreTokens};
ghost use Rattle.p8_printed.specs.ReadBack.{source_text, IsFileOf, IsNotRefused};

use p8_blocks::{parse, tokens_are_proper};
use p8_dat::{Dat, assemble};
use p8_instr::instr_text;
use p8_kinds::{Children, Named};
use p8_lexer::{Tokens, lex};
use p8_names::resolve;
use p8_tree::{Fault, List, SourceFile, Text};
use p8_words::{Fail, NoMemory};
use std::alloc::Global;

/// Where the `DAT` of the source begins in its object, in bytes.
const START: u32 = 8;

// A source with the text of a long as the only line of its `DAT`.
fn source_with_text(alloc: Global, long: u32) -> Result<Vec<u8>, NoMemory>
    ensures { IfOk result (λ source. source.items ≡ source_text long) }
{
    let text = instr_text(alloc, long)?;
    let mut source = b"DAT\n  ".to_vec(alloc)?;
    source.extend_from_slice(&text)?;
    source.extend_from_slice(b"\n")?;
    Ok(source)
}

// The tokens of this source.
fn tokens_of(alloc: Global, long: u32, source: &[u8]) -> Result<Tokens, Fail<Fault>>
    requires { source.now ≡ source_text long }
    ensures tokens { IfOk result (AreTokens source.now) }
    ensures accepted { IfErr result IsNotRefused }
{
    lex(alloc, source)
}

// The tree of these tokens.
fn tree_of(
    alloc: Global,
    long: u32,
    source: &[u8],
    tokens: &Tokens,
) -> Result<SourceFile, Fail<Fault>>
    requires source { source.now ≡ source_text long }
    requires tokens { AreTokens source.now tokens.now }
    ensures file { IfOk result (λ file. IsFileOf long (source_of file)) }
    ensures proper { IfOk result (λ file. IsProperFile (source_of file)) }
    ensures accepted { IfErr result IsNotRefused }
{
    tokens_are_proper();
    parse(alloc, source, tokens)
}

// The bytes of the file with its names.
fn bytes_of(alloc: Global, long: u32, named: &Named<'_>) -> Result<Text, Fail<Fault>>
    requires { IsFileOf long (source_of named.now.file.now) }
    ensures bytes { IfOk result (λ bytes. bytes ≡ to_le_bytes w32 long) }
    ensures accepted { IfErr result IsNotRefused }
{
    match assemble(alloc, named, START) {
        Ok(
            Dat {
                bytes,
                labels,
                lines,
            },
        ) => {
            drop(labels);
            drop(lines);
            Ok(bytes)
        }
        Err(fail) => Err(fail),
    }
}

// The bytes of the file.
fn assembled(
    alloc: Global,
    long: u32,
    file: &SourceFile,
    children: &Children,
) -> Result<Text, Fail<Fault>>
    requires line { IsFileOf long (source_of file.now) }
    requires proper { IsProperFile (source_of file.now) }
    ensures bytes { IfOk result (λ bytes. bytes ≡ to_le_bytes w32 long) }
    ensures accepted { IfErr result IsNotRefused }
{
    match resolve(alloc, file, children, false) {
        Ok(named) => {
            let bytes = bytes_of(alloc, long, &named);
            drop(named);
            bytes
        }
        Err(fail) => Err(fail),
    }
}

/// Prints a long as an instruction, and reads the text back: as the only line of a source's `DAT` it goes through the lexer and
/// the parser, its names are resolved, and its `DAT` is assembled.
///
/// The bytes are those of the long, the lowest first, for each of the 2^32 longs. No call refuses what it is given: the only
/// error is want of memory.
pub fn assembled_text(alloc: Global, long: u32) -> Result<Text, Fail<Fault>>
    ensures bytes { IfOk result (λ bytes. bytes ≡ to_le_bytes w32 long) }
    ensures accepted { IfErr result IsNotRefused }
{
    let source = source_with_text(alloc, long)?;
    let tokens = tokens_of(alloc, long, &source)?;
    let file = tree_of(alloc, long, &source, &tokens)?;
    drop(tokens);
    drop(source);
    let children = Children {
        items: List::new(alloc),
    };
    let bytes = assembled(alloc, long, &file, &children);
    drop(file);
    drop(children);
    bytes
}
