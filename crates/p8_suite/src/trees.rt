// Sources and the texts of their trees.
use anyhow::anyhow;
use p8_blocks::parse;
use p8_lexer::lex;
use p8_print::print_tree;
use p8_words::NoMemory;
use std::alloc::Global;
use std::fs::{self, Files};

/// A source, and the file of the text of its tree, which is also the text of its own tree.
#[derive(Clone, Copy)]
pub struct Tree<'a> {
    file: &'a str,
    text: &'a str,
}

/// The text of a source's tree, or None where the source is refused.
fn text_of(alloc: Global, bytes: &[u8]) -> Result<Option<Vec<u8>>, NoMemory> {
    let Ok(tokens) = lex(alloc, bytes) else {
        return Ok(None);
    };
    match parse(alloc, bytes, &tokens) {
        Ok(file) => {
            let text = print_tree(alloc, &file);
            drop(file);
            Ok(Some(text?))
        }
        Err(_) => Ok(None),
    }
}

impl<'a> Tree<'a> {
    /// The source and the text of a case's words.
    pub fn of_words(words: &'a str) -> anyhow::Result<Tree<'a>> {
        let (file, text) = words
            .split_once(' ')
            .ok_or_else(|| anyhow!("a source without a text"))?;
        Ok(Tree { file, text })
    }

    /// Whether the trees of the source and of the text have this text.
    pub fn agrees<R: Files + Alloc<A = Global>>(&self, rt: &R) -> anyhow::Result<bool> {
        let text = fs::read(rt, self.text)?;
        for file in [self.file, self.text] {
            let bytes = fs::read(rt, file)?;
            match text_of(rt.alloc(), &bytes)? {
                Some(found) => {
                    if found.as_slice() != text.as_slice() {
                        return Ok(false);
                    }
                }
                None => return Ok(false),
            }
        }
        Ok(true)
    }
}
