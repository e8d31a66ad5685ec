// Bytecodes up to one that asks.
ghost use Rattle.std.specs.Prelude.{◌≡◌, ◌<◌, ◌≤◌, ◌+◌, ◌*◌, ◌^◌, length};
ghost use Rattle.p8_access.specs.Timing.{earliest, behind};
ghost use Rattle.p8_bcog.specs.Code.{code_of};
ghost use Rattle.p8_bcog.specs.declared.state.SpinState.{SpinState};
ghost use Rattle.p8_bcog.specs.declared.stage.SpinStage.TheVariants.{Ready};
ghost use Rattle.p8_bcog.specs.Stops.{stage_of, is_ready, done_by, IsSound, Leads, Led, IsBehind};

use crate::stage::SpinStage;
use crate::state::SpinState;
use crate::step::Step;
use p8_access::{Access, Reason, window};

/// A run of bytecodes, and where it is.
#[derive(Clone, Copy)]
pub struct Ran {
    /// How many bytecodes were done whole.
    pub done: u32,
    /// The clock at which the last one begins.
    pub begun: u64,
    /// The clock from which its access counts.
    pub clock: u64,
    /// The address at which it stands.
    pub counter: u16,
}

/// How far a life is after a bytecode.
pub fn stage_of(stepped: Result<Step, Reason>) -> SpinStage
    ensures { result ≡ stage_of stepped }
{
    match stepped {
        Ok(Step::Done) => SpinStage::Ready,
        Ok(Step::Asking { access, later }) => SpinStage::Asked { access, later },
        Err(reason) => SpinStage::Halted { reason },
    }
}

/// Whether a bytecode is to be done next.
#[inline]
pub fn is_ready(stage: &SpinStage) -> bool
    ensures { result ≡ is_ready stage.now }
{
    match stage {
        SpinStage::Ready => true,
        SpinStage::Entering
        | SpinStage::Asked { .. }
        | SpinStage::Halted { .. }
        | SpinStage::Over => false,
    }
}

/// How many bytecodes are done with the one that stands so.
#[inline]
pub fn done_by(stage: &SpinStage) -> u64
    ensures done { result ≡ done_by stage.now }
    ensures most { result ≤ 1 }
{
    match stage {
        SpinStage::Ready => 1,
        SpinStage::Entering
        | SpinStage::Asked { .. }
        | SpinStage::Halted { .. }
        | SpinStage::Over => 0,
    }
}

/// The earliest clock of an access that counts from a clock on.
pub fn earliest(cog: u8, clock: u64, access: Access) -> u64
    requires cog { cog < 8 }
    requires clock { clock + 1 < 2 ^ 62 }
    ensures earliest { result ≡ earliest cog clock access }
    ensures from { clock ≤ result }
    ensures near { result ≤ clock + 16 }
{
    match access {
        Access::PinsIn | Access::Clock => clock + 2,
        Access::OutSet { .. } | Access::DirSet { .. } => clock + 3,
        Access::Wait { .. } => clock + 4,
        Access::Halt { .. } => clock,
        _ => window(cog, clock + 1),
    }
}

/// Where the life is after the turn of an access that counted from a clock on.
pub fn behind(clock: u64, access: Access, turn: u64) -> u64
    requires clock { clock < 2 ^ 62 + 2 ^ 16 }
    requires turn { turn < 2 ^ 62 }
    ensures { result ≡ behind clock access turn }
{
    match access {
        Access::PinsIn | Access::Clock | Access::OutSet { .. } | Access::DirSet { .. } => clock + 4,
        Access::Wait { .. } => turn + 2,
        _ => turn + 7,
    }
}

/// Does bytecodes up to one that asks, within a budget and below a clock, and tells how far the last one is.
///
/// This loop is where a cog that computes spends its time.
pub fn run(
    state: &mut SpinState,
    stage: &mut SpinStage,
    memory: &[u8],
    code: &[u8],
    cog: u8,
    begin: u64,
    until: u64,
    budget: u32,
) -> Ran
    requires ready { stage.old ≡ Ready }
    requires code { code.now ≡ code_of memory.now }
    requires cog { cog < 8 }
    requires room { length code.now ≤ 32768 }
    requires begin { begin < 2 ^ 62 + 2 ^ 14 }
    requires until { until < 2 ^ 62 }
    ensures budget { result.done ≤ budget }
    ensures leads { Leads memory.now cog result.done state.old begin stage.new state.new result.clock }
    ensures began { (s : SpinState) × Led memory.now cog result.done state.old begin s result.begun × (s.at ≡ result.counter) }
    ensures sound { IsSound stage.new state.new }
    ensures is_behind { IsBehind result.done budget result.begun result.clock until stage.new }
    ensures least { begin + 32 * result.done ≤ result.begun }
    ensures most { result.begun ≤ begin + 544 * result.done }
    ensures clock { result.begun < 2 ^ 62 + 2 ^ 14 }
{
    let mut clock = begin;
    for done in 0..budget {
        if clock >= until {
            return Ran {
                done,
                begun: clock,
                clock,
                counter: state.at,
            };
        }
        let counter = state.at;
        let cost = state.bytecode(memory, code, cog, stage);
        if is_ready(stage) {
            clock += cost;
        } else {
            return Ran {
                done,
                begun: clock,
                clock: clock + cost,
                counter,
            };
        }
    }
    Ran {
        done: budget,
        begun: clock,
        clock,
        counter: state.at,
    }
}
