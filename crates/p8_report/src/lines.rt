// The lines of turns.
ghost use Rattle.std.specs.Prelude.{◌≡◌, ◌≤◌, ◌+◌, ◌++◌, ◌∷◌, [], List, codes, take, reverse, OnOk, IfOk};
ghost use Rattle.std.specs.Fmt.{decimal};
ghost use Rattle.p8_access.specs.declared.order.Turn.{Turn};
ghost use Rattle.p8_access.specs.Worlds.{World};
ghost use Rattle.p8_access.specs.Hub.{cog_state, origin_of};
ghost use Rattle.p8_report.specs.Origins.{AreOrigins};
ghost use Rattle.p8_report.specs.Text.{access_text, line_of, lines_of};

use crate::accesses::write_access;
use crate::clocks::Front;
use crate::line::{LINE, PAGE, write_number, write_text};
use crate::origins::Origins;
use p8_access::{Origin, Turn};
use p8_words::NoMemory;
use std::alloc::Global;

/// Writes the line of a turn after its clock.
#[inline(always)]
fn write_turn(page: &mut [u8; PAGE], at: usize, origins: &Origins, turn: &Turn) -> usize
    requires { at + 44 ≤ 4096 }
    ensures end { result ≤ at + 44 }
    ensures text { (w : World) (past : List Turn) → AreOrigins w past origins.now →
        take result page.new ≡ take at page.old ++ (codes " " ++ decimal turn.now.key.cog ++ codes " " ++
        access_text (origin_of (cog_state w past turn.now.key.cog)) turn.now.access turn.now.answer ++ 10 ∷ []) }
{
    let at = write_text(page, at, b" ");
    let at = write_number(page, at, turn.key.cog);
    let at = write_text(page, at, b" ");
    let at = write_access(page, at, origins, turn.key.cog, &turn.access, &turn.answer);
    write_text(page, at, b"\n")
}

/// Writes the line of a turn.
#[inline(always)]
fn write_line(
    page: &mut [u8; PAGE],
    at: usize,
    front: &mut Front,
    origins: &Origins,
    turn: &Turn,
) -> usize
    requires { at + 64 ≤ 4096 }
    ensures end { result ≤ at + 64 }
    ensures text { (w : World) (past : List Turn) → AreOrigins w past origins.now → take result page.new ≡ take at page.old ++ line_of w past turn.now }
{
    let at = front.write_clock(page, at, turn.key.clock);
    write_turn(page, at, origins, turn)
}

/// Appends what is on the page up to `at` where a line might not have room after it, and tells where the
/// next line begins.
#[inline(always)]
fn turned(out: &mut Vec<u8>, page: &[u8; PAGE], at: usize) -> Result<usize, NoMemory>
    requires { at ≤ 4096 }
    ensures room { IfOk result (λ begin. begin + 64 ≤ 4096) }
    ensures text { IfOk result (λ begin. out.new.items ++ take begin page.now ≡ out.old.items ++ take at page.now) }
{
    if at <= PAGE - LINE {
        return Ok(at);
    }
    out.extend_from_slice(&page[..at])?;
    Ok(0)
}

/// Adds the line of a turn to a text of which the end is on the page, and tells where it ends there.
#[inline(always)]
fn add_line(
    out: &mut Vec<u8>,
    page: &mut [u8; PAGE],
    at: usize,
    front: &mut Front,
    origins: &Origins,
    turn: &Turn,
) -> Result<usize, NoMemory>
    requires { at ≤ 4096 }
    ensures room { IfOk result (λ end. end ≤ 4096) }
    ensures text { (w : World) (past : List Turn) → AreOrigins w past origins.now →
        IfOk result (λ end. out.new.items ++ take end page.new ≡ (out.old.items ++ take at page.old) ++ line_of w past turn.now) }
{
    let begin = turned(out, page, at)?;
    Ok(write_line(page, begin, front, origins, turn))
}

/// How many bytes the line of a turn takes at most, where the clock has eight digits and the cog and the lock one.
const USUAL_LINE: usize = 40;

/// The lines of some turns, the oldest first; cog 0 was started with `first`.
pub fn lines(alloc: Global, first: Origin, turns: &[Turn]) -> Result<Vec<u8>, NoMemory>
    ensures { IfOk result (λ out. (w : World) → w.first ≡ first → out.items ≡ lines_of w (reverse turns.now)) }
{
    let mut out = Vec::with_capacity(alloc, turns.len().saturating_mul(USUAL_LINE))?;
    let mut origins = Origins::new(alloc, first)?;
    let mut front = Front::new();
    let mut page = [0; PAGE];
    let mut at = 0;
    for turn in turns {
        at = add_line(&mut out, &mut page, at, &mut front, &origins, turn)?;
        origins.record_turn(turn);
    }
    out.extend_from_slice(&page[..at])?;
    Ok(out)
}
