// Images and their traces.
ghost use Rattle.std.specs.Prelude.{IfOk};
ghost use Rattle.p8_access.specs.Proper.{IsProperOrigin};

use crate::projects::shelved;
use anyhow::anyhow;
use p8_inputs::{Format, Inputs, Program, read_inputs};
use p8_io::{FileShelf, Shelf};
use p8_ledger::{Ended, Limits};
use p8_machine::run_alone;
use p8_report::trace;
use std::alloc::Global;
use std::fs::{self, Files};

/// The greatest limits of a run.
const MOST_CLOCKS: u64 = 100_000_000;

const MOST_TURNS: u64 = 1_000_000;

/// How many bytes the hub has.
const HUB_BYTES: usize = 32_768;

/// A run of a file, with the file of its whole trace.
#[derive(Clone, Copy)]
pub struct Run<'a> {
    program: Program<'a>,
    trace: &'a str,
    limits: Limits,
    /// The file of the pin script, or `-` for none.
    pins: &'a str,
    /// Where the dump begins, and how many bytes it has.
    dump: Option<(u16, u16)>,
}

/// The file of a pin script, if the word isn't `-`.
pub fn named(word: &str) -> Option<&str> {
    if word == "-" { None } else { Some(word) }
}

/// A dump `ADDRESS:COUNT` in decimal digits, or `-` for none.
fn dump(word: &str) -> anyhow::Result<Option<(u16, u16)>> {
    if word == "-" {
        return Ok(None);
    }
    let (address, count) = word
        .split_once(':')
        .ok_or_else(|| anyhow!("a dump without a count"))?;
    Ok(Some((address.parse()?, count.parse()?)))
}

/// What the run of a program begins with, from a shelf.
fn inputs_in<S: Shelf>(
    alloc: Global,
    program: Program<'_>,
    pins: &str,
    shelf: &mut S,
) -> anyhow::Result<Inputs>
    ensures { IfOk result (λ inputs. IsProperOrigin inputs.boot.first) }
{
    match read_inputs(alloc, program, named(pins), shelf) {
        Ok(inputs) => Ok(inputs),
        Err(_) => Err(anyhow!("there is nothing to run")),
    }
}

impl<'a> Run<'a> {
    /// The run of a case's words.
    pub fn of_words(format: Format, words: &'a str) -> anyhow::Result<Run<'a>> {
        let mut words = words.split(' ');
        let mut word = || words.next().ok_or_else(|| anyhow!("a run lacks a word"));
        Ok(Run {
            program: Program {
                file: word()?,
                format,
            },
            trace: word()?,
            limits: Limits {
                clocks: word()?.parse()?,
                turns: word()?.parse()?,
            },
            pins: word()?,
            dump: dump(word()?)?,
        })
    }

    /// What the run begins with, from the files of the suite, or where it is of a source from those of its project.
    fn inputs<R: Files + Alloc<A = Global>>(&self, rt: &R) -> anyhow::Result<Inputs>
        ensures { IfOk result (λ inputs. IsProperOrigin inputs.boot.first) }
    {
        match self.program.format {
            Format::Source { short } => {
                let mut project = shelved(rt, self.program.file)?;
                let program = Program {
                    file: &project.top,
                    format: Format::Source { short },
                };
                inputs_in(rt.alloc(), program, self.pins, &mut project.shelf)
            }
            Format::Memory | Format::Image | Format::Eeprom => {
                inputs_in(
                    rt.alloc(),
                    self.program,
                    self.pins,
                    &mut FileShelf::new(rt, Vec::new(rt.alloc())),
                )
            }
        }
    }

    /// The text of an ended history, with the dump.
    fn text(&self, alloc: Global, ended: &Ended) -> anyhow::Result<Vec<u8>> {
        let Some((address, count)) = self.dump else {
            return Ok(trace(alloc, ended, None)?);
        };
        let behind = HUB_BYTES.saturating_sub(usize::from(address));
        if count == 0 || usize::from(count) > behind {
            return Err(anyhow!("a dump that isn't in RAM"));
        }
        Ok(trace(alloc, ended, Some((address, count)))?)
    }

    /// Whether the trace of the run is the one of the file.
    pub fn agrees<R: Files + Alloc<A = Global>>(&self, rt: &R) -> anyhow::Result<bool> {
        let alloc = rt.alloc();
        let limits = self.limits;
        if limits.clocks > MOST_CLOCKS || limits.turns > MOST_TURNS {
            return Err(anyhow!("limits that no run may have"));
        }
        let inputs = self.inputs(rt)?;
        let ended = run_alone(alloc, inputs.boot, inputs.script, limits)?;
        let text = self.text(alloc, &ended)?;
        let expected = fs::read(rt, self.trace)?;
        Ok(text == expected)
    }
}
