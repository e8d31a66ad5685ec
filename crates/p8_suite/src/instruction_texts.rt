// Longs and their texts as instructions.
use anyhow::anyhow;
use p8_printed::assembled_text;
use p8_report::instr_text;
use std::alloc::Global;

/// A long, and its text as an instruction, which is to be assembled to the long again.
#[derive(Clone, Copy)]
pub struct Printed<'a> {
    long: u32,
    text: &'a str,
}

impl<'a> Printed<'a> {
    /// The long, in hexadecimal digits, and the text of a case's words.
    pub fn of_words(words: &'a str) -> anyhow::Result<Printed<'a>> {
        let (long, text) = words
            .split_once(' ')
            .ok_or_else(|| anyhow!("a long without a text"))?;
        Ok(Printed {
            long: u32::from_str_radix(long, 16)?,
            text,
        })
    }

    /// Whether the long is printed so, and the text is assembled to it.
    pub fn agrees(&self, alloc: Global) -> anyhow::Result<bool> {
        let text = instr_text(alloc, self.long)?;
        match assembled_text(alloc, self.long) {
            Ok(bytes) => Ok(
                text.as_slice() == self.text.as_bytes()
                    && bytes.as_slice() == self.long.to_le_bytes().as_slice(),
            ),
            Err(_) => Ok(false),
        }
    }
}
