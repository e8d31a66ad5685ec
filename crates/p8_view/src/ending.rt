// The end of a view.
ghost use Rattle.std.specs.Prelude.{◌≡◌, ◌++◌, ℕ, List, Option, flat_map, length, reverse, OnOk};
ghost use Rattle.p8_access.specs.declared.order.Turn.{Turn};
ghost use Rattle.p8_access.specs.Worlds.{World};
ghost use Rattle.p8_access.specs.Hub.{cogs};
ghost use Rattle.p8_ledger.specs.Turns.{AreProper};
ghost use Rattle.p8_view.specs.Following.{AreCogs, AreDoings};
ghost use Rattle.p8_view.specs.Ending.{cog_line, end_text, last_clock as clock_of_last, made_line, why_line, why_text};

use crate::doings::After;
use crate::nexts::Nexts;
use p8_access::{Origin, Turn};
use p8_instr::push_text;
use p8_ledger::Limits;
use p8_legend::Legend;
use p8_machine::Asked;
use p8_report::push_numbered;
use p8_words::NoMemory;

/// Appends the lines of the eight cogs.
fn push_cogs(out: &mut Vec<u8>, after: &After, nexts: &Nexts<'_>) -> Result<(), NoMemory>
    ensures { (w : World) (counters : List (Option ℕ)) (past : List Turn) → w.clocks ≡ nexts.now.clocks →
        AreDoings w counters past after.now.doings → AreCogs w past after.now.cogs →
        OnOk result (out.new.items ≡ out.old.items ++ flat_map (cog_line nexts.now.legend.now w counters nexts.now.asked.now past) cogs) }
{
    for cog in 0..8 {
        after.push_cog(out, nexts, cog)?;
    }
    Ok(())
}

/// The clock of the last turn, 0 where there is none.
fn last_clock(turns: &[Turn]) -> u64
    ensures { result ≡ clock_of_last (reverse turns.now) }
{
    match turns.last() {
        Some(turn) => turn.key.clock,
        None => 0,
    }
}

/// Appends how many turns were made, and up to which clock.
fn push_made(out: &mut Vec<u8>, turns: u64, clock: u64) -> Result<(), NoMemory>
    ensures { OnOk result (out.new.items ≡ out.old.items ++ made_line turns clock) }
{
    push_numbered(out, b"", turns)?;
    push_numbered(out, b" turns are made, the last at clock ", clock)?;
    push_text(out, b"\n")
}

/// Appends why no more turns were made.
fn push_why(out: &mut Vec<u8>, turns: u64, limits: Limits) -> Result<(), NoMemory>
    ensures { OnOk result (out.new.items ≡ out.old.items ++ why_text turns limits.turns limits.clocks) }
{
    if turns == limits.turns {
        push_text(out, b"no more are asked for; --turns gives more")
    } else {
        push_numbered(out, b"no cog makes another before clock ", limits.clocks)
    }
}

/// Appends the line that tells why no more turns were made.
fn push_why_line(out: &mut Vec<u8>, turns: u64, limits: Limits) -> Result<(), NoMemory>
    ensures { OnOk result (out.new.items ≡ out.old.items ++ why_line turns limits.turns limits.clocks) }
{
    push_why(out, turns, limits)?;
    push_text(out, b"\n")
}

/// Appends the end of a history of these turns, the oldest first, with their counters: what each cog is doing and does next, how many turns were
/// made, and why no more were. Cog 0 was started with `first`.
pub(crate) fn push_end(
    out: &mut Vec<u8>,
    first: Origin,
    turns: &[Turn],
    counters: &[Option<u16>],
    limits: Limits,
    legend: &Legend,
    asked: &[Asked],
) -> Result<(), NoMemory>
    requires { AreProper turns.now }
    ensures { (w : World)
        → w.first ≡ first
        → w.turns ≡ limits.turns
        → w.clocks ≡ limits.clocks
        → OnOk result (out.new.items ≡ out.old.items ++ end_text legend.now w counters.now asked.now (reverse turns.now)) }
{
    let count = turns.len() as u64;
    let nexts = Nexts {
        asked,
        legend,
        clocks: limits.clocks,
    };
    push_cogs(out, &After::of(first, turns, counters), &nexts)?;
    push_made(out, count, last_clock(turns))?;
    push_why_line(out, count, limits)
}
