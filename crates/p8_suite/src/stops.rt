// Images that can't be run, and the lines that tell why.
use crate::runs::named;
use anyhow::anyhow;
use p8_inputs::{Format, Program, read_inputs};
use p8_io::{FileShelf, MemSink};
use std::alloc::Global;
use std::fs::Files;

/// How long a line may be.
const LINE_BYTES: usize = 256;

/// An image that can't be run with its pin script, with the line that tells why.
#[derive(Clone, Copy)]
pub struct Stopped<'a> {
    image: &'a str,
    /// The file of the pin script, or `-` for none.
    pins: &'a str,
    /// The line, without the program's name in front.
    line: &'a str,
}

impl<'a> Stopped<'a> {
    /// The image of a case's words.
    pub fn of_words(words: &'a str) -> anyhow::Result<Stopped<'a>> {
        let (image, rest) = words
            .split_once(' ')
            .ok_or_else(|| anyhow!("an image without a script"))?;
        let (pins, line) = rest
            .split_once(' ')
            .ok_or_else(|| anyhow!("an image without a line"))?;
        Ok(Stopped { image, pins, line })
    }

    /// Whether the line that tells why it can't be run is this one.
    pub fn agrees<R: Files + Alloc<A = Global>>(&self, rt: &R) -> anyhow::Result<bool> {
        let alloc = rt.alloc();
        let program = Program {
            file: self.image,
            format: Format::Image,
        };
        let mut shelf = FileShelf::new(rt, Vec::new(rt.alloc()));
        match read_inputs(alloc, program, named(self.pins), &mut shelf) {
            Ok(_) => Ok(false),
            Err(stop) => {
                let mut faults = MemSink::new(alloc, LINE_BYTES)?;
                stop.tell(&mut faults);
                let expected = format!(in alloc; "prop: {}\n", self.line)?;
                Ok(faults.bytes() == expected.as_bytes())
            }
        }
    }
}
