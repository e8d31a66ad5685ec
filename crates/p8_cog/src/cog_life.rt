// The life of a cog, of whatever kind.
ghost use Rattle.std.specs.Prelude.{List, ◌≡◌, ◌<◌, ◌≤◌, ◌+◌, ◌^◌, [], None, IfOk};
ghost use Rattle.p8_access.specs.declared.order.Turn.{Turn};
ghost use Rattle.p8_access.specs.Lives.{Begun};
ghost use Rattle.p8_access.specs.Windows.{IsWindow};
ghost use Rattle.p8_bcog.specs.Counters.{IsAnnouncing};
ghost use Rattle.p8_cog.specs.Counters.{IsCounterOf};
ghost use Rattle.p8_cog.specs.Lives.{asks, begins, begun_by, IsStartable};
ghost use Rattle.p8_cog.specs.Kinds.{number_of, access_of, fact_of};
ghost use Rattle.p8_cog.specs.Laws.{one-asked, asked-first, asked-later, paced};

use crate::life_kind::LifeKind;
use crate::pasm::Cog;
use p8_access::{Life, Next, Origin, Ram, Turn, window};
use p8_bcog::SpinCog;
use p8_region::Strip;
use p8_words::NoMemory;
use std::alloc::Global;

/// A place for the lives of one cog, one after the other, and the life that runs there. Its memory is
/// taken once.
#[derive(Drop)]
pub struct CogLife {
    /// Which of the two runs.
    kind: LifeKind,
    pasm: Cog,
    spin: SpinCog,
}

/// An origin that is taken before any life has begun.
const NOTHING: Origin = Origin::Spin {
    entry: 0,
    pbase: 0,
    vbase: 0,
    frame: 0,
    size: 0,
};

impl CogLife {
    /// A place for the lives of a cog, with all memory that they need. Nothing of use runs there before
    /// `restart`.
    ///
    /// `memory` is the boot's, in which the code of Spin stands, and `stack` is to be the operand stack of Spin: it has
    /// room for 16,384 longs.
    pub fn new(alloc: Global, memory: &Ram, stack: Strip<u32>, cog: u8) -> Result<CogLife, NoMemory>
        requires cog { cog < 8 }
        requires stack { stack.room ≡ 16384 }
        ensures cog { IfOk result (λ life. ⟦<CogLife as Life>⟧.cog life ≡ cog) }
        ensures announced { IfOk result (λ life. ⟦<CogLife as Life>⟧.announced life ≡ None) }
    {
        let first = window(cog, 0);
        Ok(CogLife {
            kind: LifeKind::Pasm,
            pasm: Cog::start(alloc, 0, 0, cog, first)?,
            spin: SpinCog::start_in(alloc, memory.share(), stack, NOTHING, cog, first)?,
        })
    }

    /// A new life begins with its first turn, Load or Begin, at the clock `first`. It takes no memory, and
    /// nothing of the old life is left. The code of Spin stands in `memory`, the boot's.
    pub fn restart(&mut self, memory: &Ram, origin: Origin, cog: u8, first: u64)
        requires origin { IsStartable origin }
        requires cog { cog < 8 }
        requires window { IsWindow cog first }
        requires first { first < 2 ^ 62 }

        ensures stands { ⟦<CogLife as Life>⟧.stands self.new (begun_by memory.now origin cog first) [] }
        ensures place { ⟦<CogLife as Life>⟧.place self.new ≡ 0 }
        ensures reached { first ≤ ⟦<CogLife as Life>⟧.reached self.new }
        ensures lead { ⟦<CogLife as Life>⟧.reached self.new ≤ first + ⟦<CogLife as Life>⟧.lead self.new }
        ensures announced { ⟦<CogLife as Life>⟧.announced self.new ≡ None }
        ensures cog { ⟦<CogLife as Life>⟧.cog self.new ≡ cog }
    {
        match origin {
            Origin::Pasm { code, par } => {
                self.kind = LifeKind::Pasm;
                self.pasm.restart(code, par, cog, first);
            }
            Origin::Spin { .. } => {
                self.kind = LifeKind::Spin;
                self.spin.restart(memory.share(), origin, cog, first);
            }
        }
    }

    /// The counter of the access that is announced: for Spin the hub address, in bytes, of the first byte of the bytecode that asks it, and for
    /// PASM that from which the long was loaded that asks it, if the run begins with that long there. `memory` is what the run begins with.
    /// `None` where nothing is announced, for the write with which Spin enters its method, which no bytecode asks, for a read of a load, and
    /// for an instruction that isn't the one that was loaded into its register from there.
    pub fn counter(&self, memory: &Ram) -> Option<u16>
        ensures counts { (b : Begun) (ts : List Turn) → ⟦<CogLife as Life>⟧.stands self.now b ts →
            IsAnnouncing (⟦<CogLife as Life>⟧.announced self.now) → IsCounterOf memory.now b ts result }
        ensures none { ⟦<CogLife as Life>⟧.announced self.now ≡ None → result ≡ None }
    {
        match self.kind {
            LifeKind::Pasm => self.pasm.counter(memory),
            LifeKind::Spin => self.spin.counter(),
        }
    }
}

impl Life for CogLife {
    ghost stands = { λ life began turns. fact_of life.kind (⟦<Cog as Life>⟧.stands life.pasm began turns) (⟦<SpinCog as Life>⟧.stands life.spin began turns) };

    ghost asked = { asks };

    ghost begins = { begins };

    ghost place = { λ life. number_of life.kind (⟦<Cog as Life>⟧.place life.pasm) (⟦<SpinCog as Life>⟧.place life.spin) };

    ghost reached = { λ life. number_of life.kind (⟦<Cog as Life>⟧.reached life.pasm) (⟦<SpinCog as Life>⟧.reached life.spin) };

    ghost pace = { λ life. number_of life.kind (⟦<Cog as Life>⟧.pace life.pasm) (⟦<SpinCog as Life>⟧.pace life.spin) };

    ghost stride = { λ life. number_of life.kind (⟦<Cog as Life>⟧.stride life.pasm) (⟦<SpinCog as Life>⟧.stride life.spin) };

    ghost lead = { λ life. number_of life.kind (⟦<Cog as Life>⟧.lead life.pasm) (⟦<SpinCog as Life>⟧.lead life.spin) };

    ghost reach = { λ life. number_of life.kind (⟦<Cog as Life>⟧.reach life.pasm) (⟦<SpinCog as Life>⟧.reach life.spin) };

    ghost announced = { λ life. access_of life.kind (⟦<Cog as Life>⟧.announced life.pasm) (⟦<SpinCog as Life>⟧.announced life.spin) };

    ghost cog = { λ life. number_of life.kind (⟦<Cog as Life>⟧.cog life.pasm) (⟦<SpinCog as Life>⟧.cog life.spin) };

    #[inline(always)]
    fn run_to_access(&mut self, until: u64, budget: u32) -> Next {
        match self.kind {
            LifeKind::Pasm => self.pasm.run_to_access(until, budget),
            LifeKind::Spin => self.spin.run_to_access(until, budget),
        }
    }

    #[inline(always)]
    fn take_answer(&mut self, turn: &Turn) {
        match self.kind {
            LifeKind::Pasm => self.pasm.take_answer(turn),
            LifeKind::Spin => self.spin.take_answer(turn),
        }
    }

    ghost paced = { λ life. paced life.kind };

    ghost one_asked = { one-asked };

    ghost asked_first = { asked-first };

    ghost asked_later = { asked-later };
}
