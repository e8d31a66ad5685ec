// A sink of bytes in memory.
ghost use Rattle.std.specs.Prelude.{◌≡◌, ◌≤◌, ◌+◌, ◌-◌, ◌↔◌, ◌++◌, [], Some, IsTrue, IsOk, IfOk, is_err, false, length, take, vec_len, vec_capacity};
ghost use Rattle.p8_io.specs.Counts.{raised};
ghost use Rattle.p8_io.specs.Sinks.{Writes};
ghost use Rattle.p8_io.specs.Memory.{empty_sink, fitting, counted_if, is_next_listed};

use crate::count::raise;
use crate::fails::{Calls, FailList};
use crate::sink::{Sink, SinkFailed};
use p8_words::NoMemory;
use std::alloc::Global;
use std::marker::Model;

/// Bytes in memory, for tests and for callers that want them back.
///
/// It takes its room at first, and none later. A contract sees the bytes that it took, the room, the
/// count of faults, how many writes there were, and the numbers of those that are to fail. A write
/// succeeds exactly where its number is not listed and its bytes fit.
#[derive(Drop)]
pub struct MemSink {
    held: Vec<u8>,
    limit: usize,
    calls: Calls,
    faults: u64,
}

impl Model for MemSink {
    ghost use Rattle.std.specs.Prelude.{◌≤◌, length, vec_capacity};
    ghost use Rattle.p8_io.specs.Memory.{MemorySink};

    ghost Value = { MemorySink };

    ghost view = { λ sink. record {
      bytes = sink.held.items;
      room = sink.limit;
      faults = sink.faults;
      calls = sink.calls.made;
      fails = sink.calls.fails;
    } };

    ghost invariant = { λ sink. (length sink.held.items ≤ sink.limit) × (sink.limit ≤ vec_capacity sink.held) };
}

impl MemSink {
    /// Room for so many bytes, of which none is taken; no faults, no writes and none that is to fail.
    pub fn new(alloc: Global, room: usize) -> Result<MemSink, NoMemory>
        ensures { IfOk result (λ sink. sink ≡ empty_sink room) }
    {
        Ok(MemSink {
            held: Vec::with_capacity(alloc, room)?,
            limit: room,
            calls: Calls {
                made: 0,
                fails: FailList::new(alloc),
            },
            faults: 0,
        })
    }

    /// The same sink, of which the listed writes fail and take nothing. Writes are counted since `new`.
    pub fn with(self, fails: FailList) -> MemSink
        ensures bytes { result.bytes ≡ self.bytes }
        ensures room { result.room ≡ self.room }
        ensures faults { result.faults ≡ self.faults }
        ensures calls { result.calls ≡ self.calls }
        ensures fails { result.fails ≡ fails }
    {
        MemSink {
            held: self.held,
            limit: self.limit,
            calls: Calls {
                made: self.calls.made,
                fails,
            },
            faults: self.faults,
        }
    }

    /// The bytes that were taken.
    pub fn bytes(&self) -> &[u8]
        ensures { result.now ≡ self.now.bytes }
    {
        &self.held
    }
}

// Appends as many of the bytes as there is room for, and says whether those are all.
fn append_fitting(held: &mut Vec<u8>, room: usize, bytes: &[u8]) -> bool
    requires held { vec_len held.old ≤ room }
    requires room { room ≤ vec_capacity held.old }
    ensures fits { IsTrue result ↔ (vec_len held.old + length bytes.now ≤ room) }
    ensures items { held.new.items ≡ held.old.items ++ take (room - vec_len held.old) bytes.now }
    ensures capacity { vec_capacity held.old ≤ vec_capacity held.new }
{
    let left = room - held.len();
    if bytes.len() > left {
        held.extend_from_slice(&bytes[..left]).unwrap();
        false
    } else {
        held.extend_from_slice(bytes).unwrap();
        true
    }
}

impl Sink for MemSink {
    ghost taken = { λ sink. Some sink.bytes };

    ghost faults = { λ sink. sink.faults };

    fn write(&mut self, bytes: &[u8]) -> Result<(), SinkFailed>
        // What every sink promises.
        ensures writes { Writes self.old.faults self.new.faults (Some self.old.bytes) (Some self.new.bytes) bytes.now result }
        ensures later { self.old.faults ≤ self.new.faults }

        // The listed writes fail and take nothing, and those past the room, which take what fits.
        ensures fits { IsOk result ↔ ((is_next_listed self.old.fails self.old.calls ≡ false) × (length self.old.bytes + length bytes.now ≤ self.old.room)) }
        ensures appended { self.new.bytes ≡ self.old.bytes ++ fitting self.old bytes.now }
        ensures faults { self.new.faults ≡ counted_if (is_err result) self.old.faults }
        ensures calls { self.new.calls ≡ raised self.old.calls }
        ensures room { self.new.room ≡ self.old.room }
        ensures fails { self.new.fails ≡ self.old.fails }
    {
        if self.calls.is_failing() {
            raise(&mut self.faults);
            return Err(SinkFailed);
        }
        if append_fitting(&mut self.held, self.limit, bytes) {
            return Ok(());
        }
        raise(&mut self.faults);
        Err(SinkFailed)
    }
}
