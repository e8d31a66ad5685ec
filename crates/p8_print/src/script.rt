// Writing lines of words.

ghost use Rattle.std.specs.Prelude.{◌≡◌, ◌++◌, [], ◌∷◌, replicate, OnOk};
ghost use Rattle.p8_print.specs.Spelled.{reserved, name, number, string, word_of_label, written};

use itoa::Buffer;
use p8_lexer::Word;
use p8_tree::Text;
use p8_words::NoMemory;
use std::alloc::Global;
use std::marker::Model;

// The text of a Spin source while it is written, line by line and word by word.
//
// A line is begun, each of its words is written with one blank after it, and the line is ended. Contracts see a
// script as the list of its bytes.
//
// A call that finds no memory may leave a part of what it was to write; such a script is of no further use.
#[derive(Drop)]
pub(crate) struct Script {
    bytes: Vec<u8>,
}

impl Model for Script {
    ghost use Rattle.std.specs.Prelude.{ℕ, List};

    ghost Value = { List ℕ };

    ghost view = { λ script. script.bytes.items };
}

impl Script {
    // A script with nothing in it. It takes no memory.
    pub(crate) fn new(alloc: Global) -> Script
        ensures { result ≡ [] }
    {
        Script {
            bytes: Vec::new(alloc),
        }
    }

    // Begins a line that stands so many blanks to the right.
    pub(crate) fn begin_line(&mut self, indent: usize) -> Result<(), NoMemory>
        ensures { OnOk result (self.new ≡ self.old ++ replicate indent 32) }
    {
        let Some(end) = self.bytes.len().checked_add(indent) else {
            return Err(NoMemory);
        };
        self.bytes.resize(end, b' ')?;
        Ok(())
    }

    // Writes a symbol or a reserved word, in capitals.
    #[tactic(auto, unfolding(crate::specs::Spelled::spell))]
    pub(crate) fn word(&mut self, word: Word) -> Result<(), NoMemory>
        ensures { OnOk result (self.new ≡ self.old ++ written (reserved word)) }
    {
        self.push_word(word.spelling().as_bytes())
    }

    // Writes a name as it is.
    #[tactic(auto, unfolding(crate::specs::Spelled::spell))]
    pub(crate) fn name(&mut self, text: &Text) -> Result<(), NoMemory>
        ensures { OnOk result (self.new ≡ self.old ++ written (name text.now)) }
    {
        self.push_word(text.as_slice())
    }

    // Writes the word of a local label, without its colon.
    pub(crate) fn label(&mut self, text: &Text) -> Result<(), NoMemory>
        ensures { OnOk result (self.new ≡ self.old ++ written (word_of_label text.now)) }
    {
        self.push_word(text.as_slice())
    }

    // Writes a number in decimal digits, without leading zeros.
    #[tactic(auto, unfolding(crate::specs::Spelled::spell))]
    pub(crate) fn number(&mut self, value: u32) -> Result<(), NoMemory>
        ensures { OnOk result (self.new ≡ self.old ++ written (number value)) }
    {
        let mut buffer = Buffer::new();
        self.push_word(buffer.format(value).as_bytes())
    }

    // Writes a string, between quotes.
    #[tactic(auto, unfolding(crate::specs::Spelled::spell))]
    pub(crate) fn string(&mut self, text: &Text) -> Result<(), NoMemory>
        ensures { OnOk result (self.new ≡ self.old ++ written (string text.now)) }
    {
        self.push(b'"')?;
        self.bytes.extend_from_slice(text.as_slice())?;
        self.push_word(b"\"")
    }

    // Ends a line.
    pub(crate) fn end_line(&mut self) -> Result<(), NoMemory>
        ensures { OnOk result (self.new ≡ self.old ++ 10 ∷ []) }
    {
        self.push(b'\n')
    }

    // The bytes of what was written. It takes no memory.
    pub(crate) fn finish(self) -> Vec<u8>
        ensures { result.items ≡ self }
    {
        let Script { bytes } = self;
        bytes
    }

    // Writes characters, and a blank after them.
    fn push_word(&mut self, characters: &[u8]) -> Result<(), NoMemory>
        ensures { OnOk result (self.new ≡ self.old ++ (characters.now ++ 32 ∷ [])) }
    {
        self.bytes.extend_from_slice(characters)?;
        self.push(b' ')
    }

    // Writes one character.
    fn push(&mut self, character: u8) -> Result<(), NoMemory>
        ensures { OnOk result (self.new ≡ self.old ++ character ∷ []) }
    {
        self.bytes.extend_from_slice(&[character])?;
        Ok(())
    }
}
