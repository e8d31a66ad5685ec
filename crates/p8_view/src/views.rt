// The whole view.
ghost use Rattle.std.specs.Prelude.{◌≡◌, ◌≤◌, ◌+◌, ◌++◌, ◌∷◌, [], List, codes, reverse, IfOk, OnOk};
ghost use Rattle.std.specs.Option.{ForSome};
ghost use Rattle.p8_access.specs.declared.order.Turn.{Turn};
ghost use Rattle.p8_access.specs.Worlds.{World};
ghost use Rattle.p8_hub.specs.Standing.{IsHub};
ghost use Rattle.p8_instr.specs.Numerals.{hex};
ghost use Rattle.p8_view.specs.Ending.{dumped_text, view_of};

use crate::ending::push_end;
use crate::turns::{ViewOptions, turn_lines};
use p8_hub::Hub;
use p8_instr::{push_text, word_digits};
use p8_ledger::Ended;
use p8_legend::Legend;
use p8_machine::Asked;
use p8_report::push_dump;
use p8_words::NoMemory;
use std::alloc::Global;

/// Appends the address of what has no byte, on a line.
fn push_place(out: &mut Vec<u8>, address: u16) -> Result<(), NoMemory>
    ensures { OnOk result (out.new.items ≡ out.old.items ++ hex 4 address ++ codes ":" ++ 10 ∷ []) }
{
    push_text(out, &word_digits(u32::from(address)))?;
    push_text(out, b":\n")
}

/// Appends the dump that is asked for; of what has no byte its address alone.
fn push_dumped(out: &mut Vec<u8>, hub: &Hub, dump: Option<(u16, u16)>) -> Result<(), NoMemory>
    requires { ForSome dump (λ range. range.0 + range.1 ≤ 32768) }
    ensures { OnOk result ((w : World) (past : List Turn) → IsHub w past hub.now → out.new.items ≡ out.old.items ++ dumped_text w past dump) }
{
    let Some((address, count)) = dump else {
        return Ok(());
    };
    if count == 0 {
        return push_place(out, address);
    }
    push_dump(out, hub, Some((address, count)))
}

/// A history that has ended, in the words of its program: a line for each turn that is shown, what each cog is doing at the end and does
/// next, how many turns were made and why no more were, and the dump where one is asked for.
///
/// `counters` has for each turn, the oldest first, its counter, as a counted run tells it; none is known of a turn behind its end.
/// `asked` has by the number of each cog what it asks next; a running cog behind its end is said to ask nothing.
/// A dump is an address and how many bytes from there on, none of them after RAM; of what has no byte it is a line with the address. The only error is want of
/// memory.
pub fn view(
    alloc: Global,
    ended: &Ended,
    counters: &[Option<u16>],
    asked: &[Asked],
    legend: &Legend,
    options: &ViewOptions,
    dump: Option<(u16, u16)>,
) -> Result<Vec<u8>, NoMemory>
    requires { ForSome dump (λ range. range.0 + range.1 ≤ 32768) }
    ensures { (w : World)
        → w.memory ≡ ended.now.history.boot.ram
        → w.first ≡ ended.now.history.boot.first
        → w.turns ≡ ended.now.history.limits.turns
        → w.clocks ≡ ended.now.history.limits.clocks
        → IsHub w (reverse ended.now.history.turns.list) ended.now.hub
        → IfOk result (λ text. text.items ≡ view_of options.now legend.now w counters.now asked.now (reverse ended.now.history.turns.list) dump) }
{
    let turns = ended.history.turns.as_slice();
    let limits = ended.history.limits;
    let mut out = turn_lines(alloc, &ended.history, counters, legend, options)?;
    let first = ended.history.boot.first;
    push_end(&mut out, first, turns, counters, limits, legend, asked)?;
    push_dumped(&mut out, &ended.hub, dump)?;
    Ok(out)
}
