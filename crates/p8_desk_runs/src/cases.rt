// Programs and their traces.
ghost use Rattle.std.specs.Prelude.{◌≤◌, IfOk};
ghost use Rattle.p8_access.specs.Proper.{IsProperOrigin};

use crate::crews::{CALLS, crew_of, run_refused};
use crate::ways::{DriveMode, run};
use anyhow::anyhow;
use p8_access::Boot;
use p8_desk::Start;
use p8_image::load;
use p8_ledger::{Ended, Limits};
use p8_machine::run_alone;
use p8_pins::PinScript;
use p8_report::trace;
use p8_words::Fail;
use std::alloc::Global;
use std::fs::{self, Files};
use std::sync::Wait;
use std::thread::Threads;

/// How many bytes the hub has.
const HUB_BYTES: usize = 32_768;

/// The greatest limits of a run.
const MOST_CLOCKS: u64 = 4_000_000_000;

const MOST_TURNS: u64 = 1_000_000;

/// What the file of a program is.
#[derive(Clone, Copy)]
enum Form {
    /// Hub memory from address 0 on, with a program of PASM there.
    Memory,
    /// An image of compiled Spin.
    Image,
}

/// A program in a file, with the file of its whole trace.
///
/// Its line is `run IMAGE TRACE CLOCKS TURNS PINS DUMP` where the file IMAGE is hub memory, and `spin` with the same words
/// where it is an image.
#[derive(Clone, Copy)]
pub struct Case<'a> {
    form: Form,
    image: &'a str,
    trace: &'a str,
    limits: Limits,
    /// The file of the pin script, or `-` for none.
    pins: &'a str,
    /// Where the dump begins, and how many bytes it has.
    dump: Option<(u16, u16)>,
}

/// A dump `ADDRESS:COUNT` in decimal digits, or `-` for none.
fn dump(word: &str) -> anyhow::Result<Option<(u16, u16)>> {
    if word == "-" {
        return Ok(None);
    }
    let (address, count) = word
        .split_once(':')
        .ok_or_else(|| anyhow!("a dump without a count"))?;
    Ok(Some((address.parse()?, count.parse()?)))
}

impl<'a> Case<'a> {
    fn of_words(form: Form, words: &'a str) -> anyhow::Result<Case<'a>> {
        let mut words = words.split(' ');
        let mut word = || words.next().ok_or_else(|| anyhow!("a case lacks a word"));
        Ok(Case {
            form,
            image: word()?,
            trace: word()?,
            limits: Limits {
                clocks: word()?.parse()?,
                turns: word()?.parse()?,
            },
            pins: word()?,
            dump: dump(word()?)?,
        })
    }

    /// The case of a line.
    ///
    /// # Errors
    ///
    /// A line that is of no kind, lacks a word, or whose numbers are none or too great.
    pub fn of_line(line: &'a str) -> anyhow::Result<Case<'a>> {
        let (kind, rest) = line
            .split_once(' ')
            .ok_or_else(|| anyhow!("a case without files"))?;
        match kind {
            "run" => Case::of_words(Form::Memory, rest),
            "spin" => Case::of_words(Form::Image, rest),
            _ => Err(anyhow!("a case of no kind: {kind}")),
        }
    }

    /// The pin script of the run.
    fn script<R: Files + Alloc<A = Global>>(&self, rt: &R) -> anyhow::Result<PinScript> {
        if self.pins == "-" {
            return Ok(PinScript::empty(rt.alloc()));
        }
        let bytes = fs::read(rt, self.pins)?;
        match PinScript::read(rt.alloc(), &bytes) {
            Ok(script) => Ok(script),
            Err(Fail::Refused(fault)) => Err(anyhow!("a bad line of a script: {}", fault.line)),
            Err(Fail::NoMemory) => Err(anyhow!("out of memory")),
        }
    }

    /// What the run begins with.
    fn boot<R: Files + Alloc<A = Global>>(&self, rt: &R) -> anyhow::Result<Boot>
        ensures first { IfOk result (λ boot. IsProperOrigin boot.first) }
    {
        let bytes = fs::read(rt, self.image)?;
        match self.form {
            Form::Image => match load(rt.alloc(), &bytes) {
                Ok(image) => Ok(image.boot(rt.alloc())?),
                Err(_) => Err(anyhow!("a file that is no image")),
            },
            Form::Memory if bytes.len() > HUB_BYTES => {
                Err(anyhow!("a file that the hub can't hold"))
            }
            Form::Memory => Ok(Boot::raw(rt.alloc(), &bytes)?),
        }
    }

    /// The text of an ended history, with the dump.
    fn text(&self, alloc: Global, ended: &Ended) -> anyhow::Result<Vec<u8>> {
        let Some((address, count)) = self.dump else {
            return Ok(trace(alloc, ended, None)?);
        };
        let behind = HUB_BYTES.saturating_sub(usize::from(address));
        if count == 0 || usize::from(count) > behind {
            return Err(anyhow!("a dump that isn't in RAM"));
        }
        Ok(trace(alloc, ended, Some((address, count)))?)
    }

    /// What the run begins with.
    ///
    /// # Errors
    ///
    /// A file that can't be read, that the hub can't hold or that is no image or script, and limits that no run may have.
    pub fn start<R: Files + Alloc<A = Global>>(&self, rt: &R) -> anyhow::Result<Start>
        ensures clocks { IfOk result (λ start. start.limits.clocks ≤ 4000000000) }
        ensures turns { IfOk result (λ start. start.limits.turns ≤ 1000000) }
        ensures first { IfOk result (λ start. IsProperOrigin start.boot.first) }
    {
        let limits = self.limits;
        if limits.clocks > MOST_CLOCKS || limits.turns > MOST_TURNS {
            return Err(anyhow!("limits that no run may have"));
        }
        Ok(Start {
            boot: self.boot(rt)?,
            script: self.script(rt)?,
            limits,
        })
    }

    /// The trace of the program, run at the desk in this way.
    ///
    /// # Errors
    ///
    /// As for what the run begins with, a dump that isn't in RAM, and want of memory.
    pub fn traced<R: Files + Alloc<A = Global> + Threads + Wait + Sync>(
        &self,
        rt: &R,
        way: DriveMode,
    ) -> anyhow::Result<Vec<u8>> {
        let ended = run(rt, rt.alloc(), self.start(rt)?, way)?;
        self.text(rt.alloc(), &ended)
    }

    /// The trace of the program, run by the machine.
    ///
    /// # Errors
    ///
    /// The same.
    pub fn alone<R: Files + Alloc<A = Global>>(&self, rt: &R) -> anyhow::Result<Vec<u8>> {
        let Start {
            boot,
            script,
            limits,
        } = self.start(rt)?;
        let ended = run_alone(rt.alloc(), boot, script, limits)?;
        self.text(rt.alloc(), &ended)
    }

    /// Whether the trace of the program, run in this way, is the one of the file.
    ///
    /// # Errors
    ///
    /// The same.
    pub fn agrees<R: Files + Alloc<A = Global> + Threads + Wait + Sync>(
        &self,
        rt: &R,
        way: DriveMode,
    ) -> anyhow::Result<bool> {
        let text = self.traced(rt, way)?;
        let expected = fs::read(rt, self.trace)?;
        Ok(text == expected)
    }

    /// Whether a crew whose start `call` is refused is of as many as it is to be, and the trace that it makes is the one of the file.
    fn agrees_refused<
        R: Files + Alloc<A = Global> + Threads + Wait + Clone + Send + Drop + 'static,
    >(&self, rt: &R, call: u64) -> anyhow::Result<bool> {
        let ended = run_refused(rt, rt.alloc(), self.start(rt)?, call)?;
        let text = self.text(rt.alloc(), &ended)?;
        let expected = fs::read(rt, self.trace)?;
        Ok(ended.crew == crew_of(call) && text == expected)
    }

    /// The same with each start refused in turn, and with one that never comes.
    ///
    /// # Errors
    ///
    /// The same.
    pub fn agrees_by_crews<
        R: Files + Alloc<A = Global> + Threads + Wait + Clone + Send + Drop + 'static,
    >(&self, rt: &R) -> anyhow::Result<bool> {
        let mut all = true;
        for call in 1..=CALLS {
            all &= self.agrees_refused(rt, call)?;
        }
        Ok(all)
    }
}
