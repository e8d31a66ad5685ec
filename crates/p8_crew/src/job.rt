// What each thread of a crew does.
ghost use Rattle.std.specs.Prelude.{◌≡◌, ◌⊎◌};
ghost use Rattle.std.specs.Arc.{arc_value};
ghost use Rattle.p8_crew.specs.Jobs.{ComesBack, RanOut};
ghost use Rattle.p8_desk.specs.Passes.{Owns};

use crate::gate::Gate;
use p8_desk::{CogPass, Desk};
use std::alloc::Global;
use std::sync::{Arc, Wait};

/// What a thread is given: the pass of a cog, the desk that made it, and the gate at which it waits first.
#[derive(Drop)]
pub struct CogJob {
    pub desk: Arc<Desk, Global>,
    pub pass: CogPass,
    pub gate: Arc<Gate, Global>,
}

/// Makes the turns of a pass, one call of `Desk::turn` after the other, until no turn comes any more.
fn make_turns<R: Wait>(rt: &R, desk: &Desk, pass: &mut CogPass)
    requires { Owns desk.now pass.old }
    ensures owns { Owns desk.now pass.new }
    ensures cog { pass.new.cog ≡ pass.old.cog }
    ensures ran { RanOut desk.now.world pass.old pass.new }
{
    for _ in rt.forever() {
        match desk.turn(rt, pass) {
            Some(_) => {}
            None => return,
        }
    }
    unreachable!()
}

impl CogJob {
    /// Waits at the gate. Where that is opened the job makes its cog's turns, each by a call of `Desk::turn`, until no turn comes any
    /// more; where it is called off it makes no call of the desk. It may wait for the other cogs.
    ///
    /// The pass that it gives is of the same cog and desk. It is over, and its steps are those of these calls and no others; or it is
    /// as it was.
    pub fn run<R: Wait>(self, rt: &R) -> CogPass
        requires { Owns (arc_value self.desk) self.pass }
        ensures back { ComesBack self.pass result }
        ensures ran { RanOut (arc_value self.desk).world self.pass result ⊎ (result ≡ self.pass) }
    {
        let CogJob {
            desk,
            mut pass,
            gate,
        } = self;
        if gate.wait(rt) {
            make_turns(rt, &desk, &mut pass);
        }
        pass
    }
}
