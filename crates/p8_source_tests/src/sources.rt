// The trees of sources.
ghost use Rattle.std.specs.Prelude.{IfSome};
ghost use Rattle.p8_tree.specs.Proper.{IsProperFile};
ghost use Rattle.p8_tree.specs.Views.{source_of};

use p8_blocks::{parse, tokens_are_proper};
use p8_lexer::lex;
use p8_tree::SourceFile;
use std::alloc::Global;

// The tree of a source, if it is read.
pub fn tree_of(alloc: Global, source: &[u8]) -> Option<SourceFile>
    ensures { IfSome result (λ file. IsProperFile (source_of file)) }
{
    tokens_are_proper();
    let Ok(tokens) = lex(alloc, source) else {
        return None;
    };
    match parse(alloc, source, &tokens) {
        Ok(file) => Some(file),
        Err(_) => None,
    }
}
