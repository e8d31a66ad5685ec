// The sections of a wave: a time, and what changes at it.
ghost use Rattle.std.specs.Prelude.{◌≡◌, ◌++◌, ◌*◌, nat_eq, codes, map, if◌then◌else◌, [], IfOk, OnOk};
ghost use Rattle.std.specs.Fmt.{decimal};
ghost use Rattle.p8_wave.specs.Variables.{variables};
ghost use Rattle.p8_wave.specs.Sections.{still, marked, some_differ, section_of};
ghost use Rattle.p8_wave.specs.Parts.{together};

use crate::parts::{Part, mark_all, parts, push_parts};
use crate::snapshot::Snapshot;
use itoa::Buffer;
use p8_instr::push_text;
use p8_words::NoMemory;
use std::alloc::Global;

/// The sections so far, what has changed in them, and how many units of time a clock lasts.
#[derive(Drop)]
pub struct Sections {
    pub text: Vec<u8>,
    pub parts: Vec<Part>,
    pub ticks: u64,
}

/// A clock as a time.
fn push_time(out: &mut Vec<u8>, clock: u64, ticks: u64) -> Result<(), NoMemory>
    ensures { OnOk result (out.new.items ≡ out.old.items ++ (codes "#" ++ decimal (clock * ticks) ++ codes "\n")) }
{
    push_text(out, b"#")?;
    push_text(
        out,
        Buffer::new()
            .format(u128::from(clock) * u128::from(ticks))
            .as_bytes(),
    )?;
    push_text(out, b"\n")
}

impl Sections {
    /// No section, where a clock lasts so many units of time, of all variables or of the pins and the locks alone.
    pub fn open(alloc: Global, ticks: u64, pins_only: bool) -> Result<Sections, NoMemory>
        ensures text { IfOk result (λ sections. sections.text.items ≡ []) }
        ensures entries { IfOk result (λ sections. together sections.parts.items ≡ map still (variables pins_only)) }
        ensures ticks { IfOk result (λ sections. sections.ticks ≡ ticks) }
    {
        Ok(Sections {
            text: Vec::new(alloc),
            parts: parts(alloc, pins_only)?,
            ticks,
        })
    }

    /// Marks what differs in two snapshots, and tells whether anything does.
    fn mark(&mut self, old: &Snapshot, new: &Snapshot) -> bool
        ensures any { result ≡ some_differ old.now new.now (together self.old.parts.items) }
        ensures entries { together self.new.parts.items ≡ map (marked old.now new.now) (together self.old.parts.items) }
        ensures text { self.new.text.items ≡ self.old.text.items }
        ensures ticks { self.new.ticks ≡ self.old.ticks }
    {
        if old == new {
            return false;
        }
        mark_all(&mut self.parts, old, new)
    }

    /// A clock, and what differs in two snapshots.
    fn push(&mut self, clock: u64, old: &Snapshot, new: &Snapshot) -> Result<(), NoMemory>
        ensures text { OnOk result (self.new.text.items ≡ self.old.text.items ++ section_of (clock * self.old.ticks) old.now new.now (together self.old.parts.items)) }
        ensures entries { together self.new.parts.items ≡ together self.old.parts.items }
        ensures ticks { self.new.ticks ≡ self.old.ticks }
    {
        push_time(&mut self.text, clock, self.ticks)?;
        push_parts(&mut self.text, &self.parts, old, new)
    }

    /// What changes at a clock, where anything does.
    pub fn change(&mut self, clock: u64, old: &Snapshot, new: &Snapshot) -> Result<(), NoMemory>
        ensures text { OnOk result (self.new.text.items ≡
            self.old.text.items ++ (if some_differ old.now new.now (together self.old.parts.items) then section_of
            (clock * self.old.ticks) old.now new.now (together self.new.parts.items) else [])) }
        ensures entries { together self.new.parts.items ≡ map (marked old.now new.now) (together self.old.parts.items) }
        ensures ticks { self.new.ticks ≡ self.old.ticks }
    {
        if self.mark(old, new) {
            self.push(clock, old, new)
        } else {
            Ok(())
        }
    }

    /// The end, with what changes at it; nothing where it is at clock 0, whose values stand already.
    pub fn end(&mut self, clock: u64, old: &Snapshot, new: &Snapshot) -> Result<(), NoMemory>
        ensures text { OnOk result (self.new.text.items ≡
            self.old.text.items ++ (if nat_eq clock 0 then [] else section_of (clock * self.old.ticks) old.now new.now (together self.new.parts.items))) }
        ensures entries { together self.new.parts.items ≡ map (marked old.now new.now) (together self.old.parts.items) }
        ensures ticks { self.new.ticks ≡ self.old.ticks }
    {
        self.mark(old, new);
        if clock == 0 {
            return Ok(());
        }
        self.push(clock, old, new)
    }
}
