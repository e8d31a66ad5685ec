// A walk along a history, which writes the sections of a wave.
ghost use Rattle.std.specs.Prelude.{◌≡◌, ◌++◌, [], List, map, reverse, IfOk, OnOk};
ghost use Rattle.p8_access.specs.declared.order.Turn.{Turn};
ghost use Rattle.p8_access.specs.Worlds.{World};
ghost use Rattle.p8_wave.specs.declared.variables.Variable.{Variable};
ghost use Rattle.p8_wave.specs.Variables.{variables};
ghost use Rattle.p8_wave.specs.Values.{changes};
ghost use Rattle.p8_wave.specs.Wave.{changes_text};
ghost use Rattle.p8_wave.specs.Walks.{IsAt, IsSet};
ghost use Rattle.p8_wave.specs.Sections.{AreVariables, still, entry_of, IsWalked};
ghost use Rattle.p8_wave.specs.Parts.{together};

use crate::courses::{Course, next_clock, take_turns};
use crate::sections::Sections;
use crate::snapshot::Snapshot;
use p8_access::Turn;
use p8_pins::PinScript;
use p8_words::NoMemory;
use std::alloc::Global;

/// What a walk along a history has written, and the values at clock 0.
#[derive(Drop)]
pub struct Walk {
    pub sections: Sections,
    pub first: Snapshot,
}

/// Goes from one turn or line of the script to the next, up to the end, and writes what changes at each.
fn write_sections(
    sections: &mut Sections,
    course: &mut Course,
    turns: &[Turn],
    script: &PinScript,
    end: u64,
) -> Result<(), NoMemory>
    ensures text { (w : World) (past : List Turn) (vs : List Variable)
        → AreVariables vs
        → IsSet w past script.now sections.old.ticks end
        → IsAt w past 0 turns.now course.old
        → together sections.old.parts.items ≡ map still vs
        → OnOk result (sections.new.text.items ≡ sections.old.text.items ++ changes_text w past vs) }
    ensures entries { (w : World) (past : List Turn) (vs : List Variable)
        → AreVariables vs
        → IsSet w past script.now sections.old.ticks end
        → IsAt w past 0 turns.now course.old
        → together sections.old.parts.items ≡ map still vs
        → OnOk result (together sections.new.parts.items ≡ map (entry_of (changes w past)) vs) }
{
    let mut left = turns;
    let mut old = course.snapshot();
    let mut next = next_clock(left, course.span.end, end);
    while next < end {
        left = course.go(left, script, next);
        let new = course.snapshot();
        sections.change(next, &old, &new)?;
        old = new;
        next = next_clock(left, course.span.end, end);
    }
    take_turns(&mut course.signals, left, end);
    sections.end(end, &old, &course.snapshot())
}

/// Walks along a history, the oldest turn first, and writes all variables or those of the pins and the locks alone.
pub fn walk_along(
    alloc: Global,
    turns: &[Turn],
    script: &PinScript,
    end: u64,
    ticks: u64,
    pins_only: bool,
) -> Result<Walk, NoMemory>
    ensures { (w : World) (past : List Turn)
        → IsSet w past script.now ticks end
        → past ≡ reverse turns.now
        → IfOk result (IsWalked w past (variables pins_only)) }
{
    let mut course = Course::open(script);
    let left = take_turns(&mut course.signals, turns, 0);
    let first = course.snapshot();
    let mut sections = Sections::open(alloc, ticks, pins_only)?;
    write_sections(&mut sections, &mut course, left, script, end)?;
    Ok(Walk { sections, first })
}
