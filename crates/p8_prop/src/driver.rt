// Runs, by one thread alone or by a crew, and what is told of them.
ghost use Rattle.std.specs.Prelude.{◌≡◌, ◌≤◌, reverse, IfOk};
ghost use Rattle.p8_access.specs.Proper.{IsProperOrigin};
ghost use Rattle.p8_access.specs.Histories.{Ended as HasEnded};
ghost use Rattle.p8_hub.specs.Standing.{IsHub};
ghost use Rattle.p8_cog.specs.Lives.{asks};
ghost use Rattle.p8_ledger.specs.Worlds.{world_of};
ghost use Rattle.std.specs.Prelude.{List};
ghost use Rattle.p8_page.specs.Page.{Block, blocks_text};
ghost use Rattle.p8_prop.specs.Texts.{IsPaged, IsViewed};
ghost use Rattle.p8_prop.specs.Answers.{CanBeDone, IsDone};
ghost use Rattle.p8_prop.specs.Works.{world_in, IsMadeOf, IsPageable, IsRunnable, IsViewable};

use crate::page::Paging;
use crate::view::Viewing;
use crate::work::{Answer, Work};
use p8_crew::{Starter, run_crew};
use p8_desk::Desk;
use p8_finish::{Finish, told};
use p8_ledger::{Ended, Start};
use p8_machine::{run_alone, run_counted};
use p8_page::{Span, page as page_text};
use p8_pins::{pin_changes, run_end};
use p8_view::{ViewOptions, view as view_text};
use p8_words::NoMemory;
use std::alloc::Global;
use std::sync::Wait;
use std::thread::Threads;

/// What is told of a run that one thread makes.
fn told_alone(alloc: Global, start: Start, finish: Finish) -> Result<Vec<u8>, NoMemory>
    requires { IsRunnable start finish }
    ensures { IfOk result (λ text. IsMadeOf start finish text.items) }
{
    let script = start.script.copy(alloc)?;
    let ended = run_alone(alloc, start.boot, start.script, start.limits)?;
    let text = told(alloc, &ended, &script, finish)?;
    Ok(text)
}

/// The view of a run. One thread makes it in any case, since it looks at the machine before each turn.
fn viewed(alloc: Global, start: Start, view: &Viewing) -> Result<Vec<u8>, NoMemory>
    requires { IsViewable start view.now }
    ensures { IfOk result (λ text. IsViewed (world_in start) view.now.options view.now.legend view.now.dump text.items) }
{
    let counted = run_counted(alloc, start.boot, start.script, start.limits)?;
    view_text(
        alloc,
        &counted.ended,
        &counted.counters,
        &counted.asked,
        &view.legend,
        &view.options,
        view.dump,
    )
}

/// The page of a run. One thread makes it in any case, as it does a view.
fn paged(alloc: Global, start: Start, page: &Paging) -> Result<Vec<u8>, NoMemory>
    requires { IsPageable start page.now }
    ensures { (blocks : List Block) → page.now.project.items ≡ blocks_text blocks
        → IfOk result (λ text. IsPaged (world_in start) page.now.file.items page.now.from page.now.to page.now.legend blocks text.items) }
{
    let script = start.script.copy(alloc)?;
    let counted = run_counted(alloc, start.boot, start.script, start.limits)?;
    let options = ViewOptions {
        cog: None,
        from: page.from,
        to: page.to,
        pins_only: false,
        quiet: false,
    };
    let view = view_text(
        alloc,
        &counted.ended,
        &counted.counters,
        &counted.asked,
        &page.legend,
        &options,
        None,
    )?;
    let turns = counted.ended.history.turns.as_slice();
    let changes = pin_changes(alloc, turns, &script)?;
    let limits = counted.ended.history.limits;
    let span = Span {
        from: page.from,
        to: page.to,
        end: run_end(turns, limits.clocks, limits.turns),
    };
    page_text(alloc, &page.file, span, &view, &changes, &page.project)
}

/// What comes of a command, where one thread makes all turns.
pub fn done_alone(alloc: Global, work: Work) -> Result<Answer, NoMemory>
    requires { CanBeDone work }
    ensures { IfOk result (IsDone work) }
{
    match work {
        Work::Done(answer) => Ok(answer),
        Work::Run { start, finish } => Ok(Answer::Text(told_alone(alloc, start, finish)?)),
        Work::View { start, view } => Ok(Answer::Text(viewed(alloc, start, &view)?)),
        Work::Page { start, page } => Ok(Answer::Text(paged(alloc, start, &page)?)),
    }
}

/// The whole history of what a run begins from, made by a crew at one desk.
fn run_by_crew<R: Threads + Wait + Clone + Send + Drop + 'static, F: Starter>(
    rt: &R,
    alloc: Global,
    starter: &mut F,
    start: Start,
) -> Result<Ended, NoMemory>
    requires clocks { start.limits.clocks ≤ 4000000000 }
    requires turns { start.limits.turns ≤ 1000000 }
    requires first { IsProperOrigin start.boot.first }
    ensures world { IfOk result (λ ended. world_of ended.history.boot start.script ended.history.limits ≡ world_of start.boot start.script start.limits) }
    ensures ended { IfOk result (λ ended. HasEnded asks (world_of start.boot start.script start.limits) (reverse ended.history.turns.list)) }
    ensures hub { IfOk result (λ ended. IsHub (world_of start.boot start.script start.limits) (reverse ended.history.turns.list) ended.hub) }
{
    let (desk, passes) = Desk::open(alloc, start)?;
    run_crew(rt, alloc, starter, desk, passes)
}

/// What is told of a run that a crew makes.
fn told_by_crew<R: Threads + Wait + Clone + Send + Drop + 'static, F: Starter>(
    rt: &R,
    alloc: Global,
    starter: &mut F,
    start: Start,
    finish: Finish,
) -> Result<Vec<u8>, NoMemory>
    requires { IsRunnable start finish }
    ensures { IfOk result (λ text. IsMadeOf start finish text.items) }
{
    let script = start.script.copy(alloc)?;
    let ended = run_by_crew(rt, alloc, starter, start)?;
    let text = told(alloc, &ended, &script, finish)?;
    Ok(text)
}

/// What comes of a command, where a crew makes all turns but those of a view or a page.
pub fn done_by_crew<R: Threads + Wait + Clone + Send + Drop + 'static, F: Starter>(
    rt: &R,
    alloc: Global,
    starter: &mut F,
    work: Work,
) -> Result<Answer, NoMemory>
    requires { CanBeDone work }
    ensures { IfOk result (IsDone work) }
{
    match work {
        Work::Done(answer) => Ok(answer),
        Work::Run { start, finish } => {
            let text = told_by_crew(rt, alloc, starter, start, finish)?;
            Ok(Answer::Text(text))
        }
        Work::View { start, view } => Ok(Answer::Text(viewed(alloc, start, &view)?)),
        Work::Page { start, page } => Ok(Answer::Text(paged(alloc, start, &page)?)),
    }
}
