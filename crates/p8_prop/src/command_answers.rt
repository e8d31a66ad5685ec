// What comes of commands: what they read, a driver, and a finish.
ghost use Rattle.std.specs.Prelude.{IfOk};
ghost use Rattle.p8_commands.specs.Seen.{command_read, HasLimits};
ghost use Rattle.p8_prop.specs.Texts.{asks_of};
ghost use Rattle.p8_prop.specs.Works.{IsAnswerTo};
ghost use Rattle.p8_inputs.specs.Reads.{ReadsForAll};
ghost use Rattle.p8_inputs.specs.Seen.{shelf_seen};

use crate::driver::{done_alone, done_by_crew};
use crate::work::{Answer, work_of};
use p8_commands::Command;
use p8_crew::Starter;
use p8_inputs::Stop;
use p8_io::Shelf;
use std::alloc::Global;
use std::sync::Wait;
use std::thread::Threads;

/// What comes of a command, where one thread makes all turns.
pub fn answer_alone<S: Shelf>(
    alloc: Global,
    command: Command<'_>,
    shelf: &mut S,
) -> Result<Answer, Stop>
    requires { HasLimits command }
    ensures answer { IfOk result (IsAnswerTo (S.files shelf.old) (command_read command.entry)) }
    ensures reads { ReadsForAll (asks_of (command_read command.entry)) (shelf_seen S.files S.log S.faults shelf.old shelf.new) result }
{
    let work = work_of(alloc, command, shelf)?;
    let answer = done_alone(alloc, work)?;
    Ok(answer)
}

/// What comes of a command. A crew makes the turns of a run, unless one thread alone is to make them.
pub fn answer_by_crew<R: Threads + Wait + Clone + Send + Drop + 'static, S: Shelf, F: Starter>(
    rt: &R,
    alloc: Global,
    starter: &mut F,
    command: Command<'_>,
    shelf: &mut S,
) -> Result<Answer, Stop>
    requires { HasLimits command }
    ensures answer { IfOk result (IsAnswerTo (S.files shelf.old) (command_read command.entry)) }
    ensures reads { ReadsForAll (asks_of (command_read command.entry)) (shelf_seen S.files S.log S.faults shelf.old shelf.new) result }
{
    if command.is_alone() {
        return answer_alone(alloc, command, shelf);
    }
    let work = work_of(alloc, command, shelf)?;
    let answer = done_by_crew(rt, alloc, starter, work)?;
    Ok(answer)
}
