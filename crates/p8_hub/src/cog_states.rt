// What the eight cogs are doing.
ghost use Rattle.std.specs.Prelude.{◌≡◌, ◌<◌, replicate, slice_set, slice_index_or};
ghost use Rattle.std.specs.List.{position_from};
ghost use Rattle.p8_access.specs.Proper.{IsNumber};
ghost use Rattle.p8_access.specs.declared.states.CogState.TheVariants.{Stopped, Starting, Running};
ghost use Rattle.p8_access.specs.Hub.{is_stopped, origin_of};
ghost use Rattle.p8_hub.specs.Parts.{set_where, target_or};

use p8_access::{CogState, Origin};

/// The states of the eight cogs.
#[derive(Drop)]
pub struct Cogs {
    pub states: [CogState; 8],
}

/// What a cog was started with. A stopped one has nothing, and no cog runs that wasn't started.
fn start_of(state: CogState) -> Origin
    ensures { result ≡ origin_of state }
{
    match state {
        CogState::Stopped => Origin::Pasm { code: 0, par: 0 },
        CogState::Starting { origin, .. } => origin,
        CogState::Running { origin } => origin,
    }
}

impl Cogs {
    /// Cog 0 is started at clock 0, and the others are stopped.
    pub fn open(first: Origin) -> Cogs
        ensures { result.states ≡ slice_set (replicate 8 Stopped) 0 (Starting 0 first) }
    {
        let mut states = [CogState::Stopped; 8];
        states[0] = CogState::Starting {
            since: 0,
            origin: first,
        };
        Cogs { states }
    }

    /// The lowest cog that is stopped.
    fn lowest_stopped(&self) -> Option<u8>
        ensures cog { result ≡ position_from is_stopped 0 self.now.states }
        ensures number { IsNumber result }
    {
        for cog in 0..8 {
            if self.states[cog as usize] == CogState::Stopped {
                return Some(cog);
            }
        }
        None
    }

    /// Starts the target, or the lowest stopped cog where there is none, and tells which it is.
    pub fn start(&mut self, clock: u64, target: Option<u8>, origin: Origin) -> Option<u8>
        requires { IsNumber target }
        ensures cog { result ≡ target_or target (position_from is_stopped 0 self.old.states) }
        ensures number { IsNumber result }
        ensures states { self.new.states ≡ set_where self.old.states result (Starting clock origin) }
    {
        let started = match target {
            Some(cog) => Some(cog),
            None => self.lowest_stopped(),
        };
        if let Some(cog) = started {
            self.states[cog as usize] = CogState::Starting {
                since: clock,
                origin,
            };
        }
        started
    }

    /// A cog that was started runs from now on.
    pub fn run(&mut self, cog: u8)
        requires { cog < 8 }
        ensures { self.new.states ≡ slice_set self.old.states cog (Running (origin_of (slice_index_or self.old.states cog Stopped))) }
    {
        let origin = start_of(self.states[cog as usize]);
        self.states[cog as usize] = CogState::Running { origin };
    }

    /// Stops a cog.
    pub fn stop(&mut self, cog: u8)
        requires { cog < 8 }
        ensures { self.new.states ≡ slice_set self.old.states cog Stopped }
    {
        self.states[cog as usize] = CogState::Stopped;
    }
}
