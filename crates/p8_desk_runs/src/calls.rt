// One caller, who calls the passes in orders of its own.
ghost use Rattle.std.specs.Prelude.{◌≡◌, ◌<◌, Some, None, slice_get, slice_set};
ghost use Rattle.p8_desk.specs.PassSets.{AllThere, IsOut};
ghost use Rattle.p8_desk.specs.Passes.{Owns, PassValue};

use p8_desk::{CogPass, Desk, Passes, Turned};

/// How many turns a run has at most.
const MOST_TURNS: u32 = 1_000_000;

/// How many rounds there are at most.
const ROUNDS: u32 = 10_000_000;

/// How many calls a round has in which cog 7 is called ten times first, and in any other.
const LAST_FIRST_CALLS: u8 = 18;

const CALLS: u8 = 8;

/// The order in which one caller calls the passes. Each is a round, which is repeated until the history has ended.
#[derive(Clone, Copy)]
pub enum Order {
    /// Cogs 0 to 7, each once.
    Rising,
    /// Cogs 7 to 0, each once.
    Falling,
    /// Cog 7 ten times, and then cogs 0 to 7, each once.
    LastFirst,
    /// Cogs 0 to 7, each for as long as it makes turns.
    Whole,
}

impl Order {
    /// How many calls a round has.
    fn calls(self) -> u8 {
        match self {
            Order::LastFirst => LAST_FIRST_CALLS,
            Order::Rising => CALLS,
            Order::Falling => CALLS,
            Order::Whole => CALLS,
        }
    }

    /// Which cog a call of a round is for.
    fn cog(self, call: u8) -> u8
        ensures { result < 8 }
    {
        match self {
            Order::Rising => call % 8,
            Order::Falling => 7 - call % 8,
            Order::LastFirst if call < 10 => 7,
            Order::LastFirst => (call - 10) % 8,
            Order::Whole => call % 8,
        }
    }
}

/// Tries once with a pass. Answers whether the history has ended.
fn call_once(desk: &Desk, pass: &mut CogPass) -> bool
    requires { Owns desk.now pass.old }
    ensures owns { Owns desk.now pass.new }
    ensures cog { pass.new.cog ≡ pass.old.cog }
{
    match desk.try_turn(pass) {
        Turned::Over => true,
        Turned::Done(_) => false,
        Turned::Held { .. } => false,
        Turned::After { .. } => false,
        Turned::Ahead { .. } => false,
    }
}

/// Tries with a pass for as long as it makes turns. Answers whether the history has ended.
fn exhaust(desk: &Desk, pass: &mut CogPass) -> bool
    requires { Owns desk.now pass.old }
    ensures owns { Owns desk.now pass.new }
    ensures cog { pass.new.cog ≡ pass.old.cog }
{
    for _ in 0..MOST_TURNS {
        match desk.try_turn(pass) {
            Turned::Done(_) => {}
            Turned::Over => return true,
            Turned::Held { .. } => return false,
            Turned::After { .. } => return false,
            Turned::Ahead { .. } => return false,
        }
    }
    false
}

/// The pass of a cog, which is there.
pub fn take(passes: &mut Passes, cog: u8) -> CogPass
    requires { (cog < 8) × (pass : PassValue) × (slice_get passes.old cog ≡ Some (Some pass)) }
    ensures taken { slice_get passes.old cog ≡ Some (Some result) }
    ensures left { passes.new ≡ slice_set passes.old cog None }
{
    match passes.take(cog) {
        Some(pass) => pass,
        None => unreachable!(),
    }
}

/// Puts a pass back into its place, which is empty.
pub fn put(passes: &mut Passes, pass: CogPass)
    requires { IsOut pass.cog passes.old }
    ensures { passes.new ≡ slice_set passes.old pass.cog (Some pass) }
{
    match passes.put(pass) {
        Ok(()) => {}
        Err(_) => unreachable!(),
    }
}

/// Calls a pass as an order has it. Answers whether the history has ended.
fn call_in(order: Order, desk: &Desk, pass: &mut CogPass) -> bool
    requires { Owns desk.now pass.old }
    ensures owns { Owns desk.now pass.new }
    ensures cog { pass.new.cog ≡ pass.old.cog }
{
    match order {
        Order::Whole => exhaust(desk, pass),
        Order::Rising => call_once(desk, pass),
        Order::Falling => call_once(desk, pass),
        Order::LastFirst => call_once(desk, pass),
    }
}

/// Calls the pass of a cog. Answers whether the history has ended.
fn call(order: Order, desk: &Desk, passes: &mut Passes, cog: u8) -> bool
    requires near { cog < 8 }
    requires there { AllThere desk.now passes.old }
    ensures { AllThere desk.now passes.new }
{
    let mut pass = take(passes, cog);
    let over = call_in(order, desk, &mut pass);
    put(passes, pass);
    over
}

/// One round. Answers whether the history has ended.
fn round(order: Order, desk: &Desk, passes: &mut Passes) -> bool
    requires { AllThere desk.now passes.old }
    ensures { AllThere desk.now passes.new }
{
    for step in 0..order.calls() {
        if call(order, desk, passes, order.cog(step)) {
            return true;
        }
    }
    false
}

/// Rounds in this order until the history has ended.
pub fn rounds(order: Order, desk: &Desk, passes: &mut Passes)
    requires { AllThere desk.now passes.old }
    ensures { AllThere desk.now passes.new }
{
    for _ in 0..ROUNDS {
        if round(order, desk, passes) {
            return;
        }
    }
}
