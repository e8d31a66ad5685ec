// What a running cog does next, in words.
ghost use Rattle.std.specs.Prelude.{◌≡◌, ◌<◌, ◌++◌, ◌^◌, OnOk};
ghost use Rattle.std.specs.Fmt.{decimal};
ghost use Rattle.p8_view.specs.Nexts.{asked_of, asks_text, awaited_text, clocks_since, comes_again, is_missed, late_text, missed_text, next_text};

use crate::accesses::{local_of, push_asked, push_place_of};
use crate::words::push_long;
use itoa::Buffer;
use p8_access::{Access, Next, Origin, Test};
use p8_instr::push_text;
use p8_legend::Legend;
use p8_machine::Asked;
use p8_report::push_numbered;
use p8_words::NoMemory;

/// In how many clocks the system counter goes round.
const ROUND: u128 = 0x1_0000_0000;

/// What the cogs do next, and what tells it in words.
#[derive(Clone, Copy)]
pub(crate) struct Nexts<'a> {
    /// What each asks next, by its number.
    pub asked: &'a [Asked],
    pub legend: &'a Legend,
    /// The clock up to which turns come.
    pub clocks: u64,
}

impl<'a> Nexts<'a> {
    /// What a cog asks next; nothing, where that isn't told.
    pub fn asked(&self, cog: u8) -> Asked
        ensures { result ≡ asked_of self.now.asked.now cog }
    {
        match self.asked.get(usize::from(cog)) {
            Some(asked) => *asked,
            None => Asked {
                next: Next::Quiet,
                counter: None,
            },
        }
    }

    /// Appends what a running cog does next, which was started with `own`, and the place of what asks that.
    pub fn push_next(&self, out: &mut Vec<u8>, own: &Origin, asked: &Asked) -> Result<(), NoMemory>
        ensures { OnOk result (out.new.items ≡ out.old.items ++ next_text self.now.legend.now self.now.clocks own.now asked.now.counter asked.now.next) }
    {
        match &asked.next {
            Next::At { clock, access } => {
                let local = local_of(self.legend, own, asked.counter);
                push_asks(out, self.legend, local, *clock, access)?;
                push_place_of(out, self.legend, own, asked.counter)
            }
            Next::Quiet => push_numbered(out, b", asks nothing before clock ", self.clocks),
            Next::More { bound } => push_numbered(out, b", asks nothing before clock ", *bound),
        }
    }
}

/// Appends the access that a cog asks from a clock on, which names this in the frame of a method.
fn push_asks(
    out: &mut Vec<u8>,
    legend: &Legend,
    local: &[u8],
    clock: u64,
    access: &Access,
) -> Result<(), NoMemory>
    ensures { OnOk result (out.new.items ≡ out.old.items ++ asks_text legend.now local.now clock access.now) }
{
    match *access {
        Access::Wait { test } => {
            push_numbered(out, b", waits since clock ", clock)?;
            push_text(out, b" for ")?;
            push_awaited(out, clock, test)
        }
        _ => {
            push_numbered(out, b", does next at clock ", clock)?;
            push_text(out, b": ")?;
            push_asked(out, legend, local, access)
        }
    }
}

/// Appends what is waited for since a clock.
fn push_awaited(out: &mut Vec<u8>, since: u64, test: Test) -> Result<(), NoMemory>
    ensures { OnOk result (out.new.items ≡ out.old.items ++ awaited_text since test) }
{
    match test {
        Test::Count { target } => {
            push_numbered(out, b"the counter to be ", u64::from(target))?;
            push_missed(out, since, clocks_since(target, since))
        }
        Test::PinsEqual { state, mask } => {
            push_long(out, b"the pins ", mask)?;
            push_long(out, b" to be ", state)
        }
        Test::PinsDiffer { state, mask } => {
            push_long(out, b"the pins ", mask)?;
            push_long(out, b" not to be ", state)
        }
    }
}

/// How many clocks before this one the counter was a number.
fn clocks_since(target: u32, clock: u64) -> u128
    ensures since { result ≡ clocks_since target clock }
    ensures near { result < 4294967296 }
{
    (u128::from(clock) + ROUND - u128::from(target)) % ROUND
}

/// When the counter, which was a number so many clocks before this one, is that again.
fn comes_again(clock: u64, back: u128) -> u128
    requires { back < 4294967296 }
    ensures { result ≡ comes_again clock back }
{
    u128::from(clock) + ROUND - back
}

/// Whether a wait is missed for a number that lay so many clocks back when it began.
fn is_missed(back: u128) -> bool
    ensures { result ≡ is_missed back }
{
    0 < back && back <= ROUND / 2
}

/// Appends that a wait is missed, and when it ends, where what it waits for lay so many clocks back when it began; nothing where it isn't.
fn push_missed(out: &mut Vec<u8>, since: u64, back: u128) -> Result<(), NoMemory>
    requires { back < 4294967296 }
    ensures { OnOk result (out.new.items ≡ out.old.items ++ missed_text since back) }
{
    if !is_missed(back) {
        return Ok(());
    }
    push_late(out, back, comes_again(since, back))
}

/// Appends that a wait is missed whose number lay so many clocks back, and when it ends.
fn push_late(out: &mut Vec<u8>, back: u128, end: u128) -> Result<(), NoMemory>
    ensures { OnOk result (out.new.items ≡ out.old.items ++ late_text back end) }
{
    push_clock(out, b", which lies ", back)?;
    push_clock(
        out,
        b" clocks back: the wait is missed, and ends at clock ",
        end,
    )
}

/// Appends a text and a number of clocks.
fn push_clock(out: &mut Vec<u8>, text: &[u8], clock: u128) -> Result<(), NoMemory>
    ensures { OnOk result (out.new.items ≡ out.old.items ++ (text.now ++ decimal clock)) }
{
    push_text(out, text)?;
    push_text(out, Buffer::new().format(clock).as_bytes())
}
