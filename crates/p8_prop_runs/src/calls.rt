// Calls of the top calls, by crews and on one thread.
use crate::cases::{Case, HeldCase, shelf};
use crate::holding::{Held, HoldingStarter};
use crate::meeting::{Flags, MeetingStarter};
use crate::watching::{Seen, WatchingStarter};
use anyhow::anyhow;
use p8_crew::{FailStarter, Starter, ThreadStarter};
use p8_io::{MemShelf, MemSink};
use p8_prop::{Status, prop, prop_alone};
use std::alloc::Global;
use std::fs::Files;
use std::sync::{Arc, Wait};
use std::thread::Threads;

/// How many bytes a text has at most.
const ROOM: usize = 65_536;

/// How often a crew is started in a run.
const STARTS: u64 = 8;

/// How the turns of a run are made.
#[derive(Clone, Copy)]
pub enum RunMode {
    /// By one thread alone, which waits for nobody.
    Alone,
    /// By the crew of the program, twice.
    Threads,
    /// By workers that look at their passes before and after they do their jobs.
    Watched,
    /// By the caller, since one of the starts is refused: each of them in turn.
    Refused,
    /// By a crew, where a start that never comes would be refused.
    Unrefused,
    /// By workers that call `Desk::turn` themselves, two of which meet between two turns.
    Meeting,
    /// Not at all: the command is refused.
    Refusal,
}

/// What a call has left.
#[derive(Drop)]
struct Left {
    status: Status,
    out: MemSink,
    faults: MemSink,
}

impl Left {
    /// Whether just this text was written, and nothing is wrong.
    fn is_text(&self, text: &[u8]) -> bool {
        self.status == Status::Ok && self.out.bytes() == text && self.faults.bytes().is_empty()
    }

    /// Whether no text was written, and this is how it ended: the digit of the status, a blank, and the line for faults.
    fn is_fault(&self, fault: &[u8]) -> bool {
        match fault {
            [digit, b' ', line @ ..] => {
                digit.checked_sub(b'0') == Some(self.status.code())
                    && self.out.bytes().is_empty()
                    && self.faults.bytes() == line
            }
            _ => false,
        }
    }
}

/// What all calls are given.
#[derive(Drop)]
pub struct Calls<'a, R> {
    rt: &'a R,
    shelf: MemShelf,
}

impl<'a, R: Threads + Wait + Files + Alloc<A = Global> + Clone + Send + Drop + 'static> Calls<
    'a,
    R,
> {
    /// Calls that read the files of `shelf.txt`.
    ///
    /// # Errors
    ///
    /// A file that can't be read, and want of memory.
    pub fn new(rt: &'a R) -> anyhow::Result<Calls<'a, R>> {
        Ok(Calls {
            rt,
            shelf: shelf(rt)?,
        })
    }

    /// What a command leaves that one thread carries out.
    fn left_alone(&mut self, words: &[String]) -> anyhow::Result<Left> {
        let alloc = self.rt.alloc();
        let mut out = MemSink::new(alloc, ROOM)?;
        let mut faults = MemSink::new(alloc, ROOM)?;
        let status = prop_alone(alloc, words, &mut self.shelf, &mut out, &mut faults);
        Ok(Left {
            status,
            out,
            faults,
        })
    }

    /// What a command leaves whose crew gets its work of this starter.
    fn left<F: Starter>(&mut self, words: &[String], starter: &mut F) -> anyhow::Result<Left> {
        let alloc = self.rt.alloc();
        let mut out = MemSink::new(alloc, ROOM)?;
        let mut faults = MemSink::new(alloc, ROOM)?;
        let status = prop(
            self.rt,
            alloc,
            words,
            &mut self.shelf,
            &mut out,
            &mut faults,
            starter,
        );
        Ok(Left {
            status,
            out,
            faults,
        })
    }

    fn agrees_by<F: Starter>(&mut self, case: &Case, starter: &mut F) -> anyhow::Result<bool> {
        Ok(self.left(&case.words, starter)?.is_text(&case.text))
    }

    fn agrees_twice(&mut self, case: &Case) -> anyhow::Result<bool> {
        let first = self.agrees_by(case, &mut ThreadStarter::new())?;
        let second = self.agrees_by(case, &mut ThreadStarter::new())?;
        Ok(first && second)
    }

    fn is_refused(&mut self, case: &Case) -> anyhow::Result<bool> {
        let mut starter = ThreadStarter::new();
        Ok(self.left(&case.words, &mut starter)?.is_fault(&case.text))
    }

    /// Whether a case agrees by workers that look at their passes, and where the start `call` is refused they make no turn. Where
    /// there is none such, all eight begin with an untouched pass and end with one that is over.
    fn workers_end(&mut self, case: &Case, call: u64) -> anyhow::Result<bool> {
        let Ok(seen) = Arc::new(self.rt.alloc(), Seen::new()) else {
            return Err(anyhow!("out of memory"));
        };
        let inner = WatchingStarter::new(Arc::try_clone(&seen)?);
        let agrees = self.agrees_by(case, &mut FailStarter::new(inner, call))?;
        if call == 0 || call > STARTS {
            Ok(agrees && seen.has_counted(STARTS, STARTS))
        } else {
            Ok(agrees && seen.has_counted(call - 1, 0))
        }
    }

    fn agrees_refused(&mut self, case: &Case) -> anyhow::Result<bool> {
        let mut all = true;
        for call in 1..=STARTS {
            all &= self.workers_end(case, call)?;
        }
        Ok(all)
    }

    /// Whether a case agrees, two of whose workers meet between two turns, each with a flag of its own: then neither waits for the
    /// other to end.
    fn two_between_turns(&mut self, case: &Case) -> anyhow::Result<bool> {
        let Ok(flags) = Arc::new(self.rt.alloc(), Flags::new()) else {
            return Err(anyhow!("out of memory"));
        };
        let mut starter = MeetingStarter::new(Arc::try_clone(&flags)?);
        Ok(self.agrees_by(case, &mut starter)? && flags.have_met())
    }

    /// Whether a case agrees, one of whose workers is held back, and was seen to be: while it waits the others make all turns before its
    /// cog's first one and no other, and they go on once it is let go.
    ///
    /// # Errors
    ///
    /// Want of memory outside the call.
    pub fn one_held_back(&mut self, held: &HeldCase) -> anyhow::Result<bool> {
        let Ok(shared) = Arc::new(self.rt.alloc(), Held::new(held.hold)) else {
            return Err(anyhow!("out of memory"));
        };
        let mut starter = HoldingStarter::new(Arc::try_clone(&shared)?);
        Ok(self.agrees_by(&held.case, &mut starter)? && shared.was_seen())
    }

    /// Whether a command that is carried out in this way has what is expected of it.
    ///
    /// # Errors
    ///
    /// Want of memory outside the call.
    pub fn agrees(&mut self, case: &Case, way: RunMode) -> anyhow::Result<bool> {
        match way {
            RunMode::Alone => Ok(self.left_alone(&case.alone)?.is_text(&case.text)),
            RunMode::Threads => self.agrees_twice(case),
            RunMode::Watched => self.workers_end(case, 0),
            RunMode::Refused => self.agrees_refused(case),
            RunMode::Unrefused => self.workers_end(case, STARTS + 1),
            RunMode::Meeting => self.two_between_turns(case),
            RunMode::Refusal => self.is_refused(case),
        }
    }
}
