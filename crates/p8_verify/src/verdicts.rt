// The verdict on a history file.
ghost use Rattle.std.specs.Prelude.{◌≡◌, ◌<◌, ◌≤◌, ◌+◌, ◌-◌, ℕ, [], List, length, MatchOption, IfSome, IfOk};
ghost use Rattle.p8_access.specs.declared.order.Turn.{Turn};
ghost use Rattle.p8_access.specs.Proper.{IsProperOrigin};
ghost use Rattle.p8_access.specs.Worlds.{World};
ghost use Rattle.p8_machine.specs.Machines.{world_in, past_in, IsStanding};
ghost use Rattle.p8_verify.specs.declared.verdicts.Cause.TheVariants.{Extra};
ghost use Rattle.p8_verify.specs.declared.verdicts.Verdict.TheVariants.{Bad};
ghost use Rattle.p8_verify.specs.Table.{IsRecord};
ghost use Rattle.p8_verify.specs.Files.{AreRecords, BreaksAt};
ghost use Rattle.p8_verify.specs.Verdicts.{Differs, IsVerdict};
ghost use Rattle.p8_verify.specs.Told.{IsNext, IsTold};

use crate::head::{HistoryHead, after_head};
use crate::records::{after_record, begins_with, read_turn, turn_of_record};
use p8_access::{Boot, Turn};
use p8_machine::Machine;
use p8_pins::PinScript;
use p8_words::NoMemory;
use std::alloc::Global;

/// Why a history file isn't that of an ended history.
#[derive(Clone, Copy, Debug, PartialEq, Eq)]
pub enum Cause {
    /// The head, or the record of a turn, isn't whole or has a number that it may not have, or bytes follow the
    /// last record.
    Form,
    /// The history has ended before the turn.
    Extra,
    /// The turn that comes next has another key.
    Key,
    /// It has another access.
    Access,
    /// The hub gives it another answer.
    Answer,
    /// The history has not ended with the last turn.
    More,
}

/// The verdict on a history file.
#[derive(Clone, Copy, Debug, PartialEq, Eq)]
pub enum Verdict {
    /// It is the file of the ended history, of so many turns.
    Good(u64),
    /// It isn't, and this turn is the first of which that can be said, with the cause. Turns are counted from 1 on,
    /// and 0 stands for the head.
    Bad { turn: u64, cause: Cause },
}

impl Verdict {
    /// The verdict on the turn after so many others.
    fn bad_after(done: u32, cause: Cause) -> Verdict
        ensures { result ≡ Bad (done + 1) cause }
    {
        Verdict::Bad {
            turn: u64::from(done) + 1,
            cause,
        }
    }
}

/// The first turn at which these bytes aren't the records of so many turns but the first of them, which are `done`, where there is one.
fn broken_turn(count: u32, done: u32, records: &[u8]) -> Option<u64>
    requires { done ≤ count }
    ensures { MatchOption result ((turns : List Turn) × AreRecords (count - done) records.now turns) (BreaksAt (count - done) (done + 1) records.now) }
{
    let mut rest = records;
    for index in done..count {
        match read_turn(rest) {
            None => return Some(u64::from(index) + 1),
            Some(_) => rest = after_record(rest),
        }
    }
    if rest.is_empty() {
        None
    } else {
        Some(u64::from(count) + 1)
    }
}

/// The first respect in which a turn of a file differs from the one that comes next.
fn difference(turn: &Turn, next: &Turn) -> Option<Cause>
    ensures { MatchOption result (turn.now ≡ next.now) (Differs turn.now next.now) }
{
    if turn.key != next.key {
        return Some(Cause::Key);
    }
    if turn.access != next.access {
        return Some(Cause::Access);
    }
    if turn.answer != next.answer {
        return Some(Cause::Answer);
    }
    None
}

/// Why a turn of a file isn't the one that comes next, which is another one or none.
fn cause_of(turn: &Turn, next: Option<Turn>) -> Cause
    requires { IfSome next (λ other. turn.now ≡ other → ⊥) }
    ensures { MatchOption next (result ≡ Extra) (λ other. Differs turn.now other result) }
{
    match next {
        None => Cause::Extra,
        Some(other) => match difference(turn, &other) {
            None => unreachable!(),
            Some(cause) => cause,
        },
    }
}

/// The verdict on the records of so many turns but the first of them, which are `done` and as they should be, where the next one isn't that of
/// the turn that comes next, or none comes.
///
/// The form of all of them is looked at first.
fn verdict_at(count: u32, done: u32, records: &[u8], next: Option<Turn>) -> Verdict
    requires some { done < count }
    requires differs { IfSome next (λ other. (rest : List ℕ) → IsRecord records.now other rest → ⊥) }
    ensures { (w : World) (past : List Turn) → length past ≡ done → IsNext w past next → IsTold w past (count - done) (done + 1) records.now result }
{
    match broken_turn(count, done, records) {
        Some(turn) => Verdict::Bad {
            turn,
            cause: Cause::Form,
        },
        None => Verdict::bad_after(done, cause_of(&turn_of_record(records), next)),
    }
}

/// The verdict on records of which all that are to come have come: `next` is the turn that comes then.
fn verdict_behind(count: u32, rest: &[u8], next: Option<Turn>) -> Verdict
    ensures { (w : World) (past : List Turn) → length past ≡ count → IsNext w past next → IsTold w past 0 (count + 1) rest.now result }
{
    if !rest.is_empty() {
        return Verdict::bad_after(count, Cause::Form);
    }
    match next {
        None => Verdict::Good(u64::from(count)),
        Some(_) => Verdict::bad_after(count, Cause::More),
    }
}

/// Walks a machine beside the records of a file, turn by turn, up to the first that isn't the record of the machine's next turn.
///
/// What is the record of a turn has the form of one, so the form is looked at only of what is left then.
fn walk(machine: &mut Machine, count: u32, records: &[u8]) -> Verdict
    requires stands { IsStanding machine.old }
    requires begin { past_in machine.old ≡ [] }
    ensures { IsTold (world_in machine.old) [] count 1 records.now result }
{
    let mut rest = records;
    for index in 0..count {
        match machine.step() {
            None => return verdict_at(count, index, rest, None),
            Some(next) => {
                if !begins_with(rest, next) {
                    return verdict_at(count, index, rest, Some(next));
                }
                rest = after_record(rest);
            }
        }
    }
    verdict_behind(count, rest, machine.step())
}

/// The verdict on a file that is to be the history of a boot and a script, within the limits of its head.
///
/// A machine makes the turns, and each record is compared with that of the turn as soon as it is made: so no second history is kept, and no
/// memory is taken after the machine was opened. Where they differ, the form of all that is left of the file is looked at first.
pub fn verdict_on(
    alloc: Global,
    boot: Boot,
    script: PinScript,
    bytes: &[u8],
) -> Result<Verdict, NoMemory>
    requires { IsProperOrigin boot.first }
    ensures { IfOk result (IsVerdict boot script bytes.now) }
{
    let Some(head) = HistoryHead::read(bytes) else {
        return Ok(Verdict::Bad {
            turn: 0,
            cause: Cause::Form,
        });
    };
    let records = after_head(bytes);
    let mut machine = Machine::open(alloc, boot, script, head.limits())?;
    Ok(walk(&mut machine, head.count, records))
}
