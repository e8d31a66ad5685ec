// A cog as a life.
ghost use Rattle.std.specs.Prelude.{ℕ, ◌≡◌, ◌<◌, ◌≤◌, ◌+◌, ◌%◌, ◌^◌, [], List, true, None, Some, IfOk};
ghost use Rattle.std.proofs.Math.Nat.{le_refl};
ghost use Rattle.p8_access.specs.Windows.{IsWindow};
ghost use Rattle.p8_access.specs.declared.order.Turn.{Turn};
ghost use Rattle.p8_access.specs.Lives.{Begun, PasmBegun};
ghost use Rattle.p8_bcog.specs.Counters.{IsAnnouncing};
ghost use Rattle.p8_cog.specs.Counters.{IsCounterOf};
ghost use Rattle.p8_cog.specs.declared.stage.PasmStage.TheVariants.{Loading};
ghost use Rattle.p8_cog.specs.Replay.{IsAsked, Begins, step};
ghost use Rattle.p8_cog.specs.Standing.{StandsFor, clock_of, standing_at};
ghost use Rattle.p8_cog.specs.Stops.{Announces, IsAtHub, IsHalf, IsInLoad, announced_at, is_asking};
ghost use Rattle.p8_cog.specs.Replaying.{one-asked, asked-first, asked-later};

use crate::counters::loaded_from;
use crate::ending::Ending;
use crate::hub::value_in;
use crate::progress::{Had, Progress};
use crate::stage::PasmStage;
use crate::state::PasmState;
use p8_access::{Life, Next, Ram, Turn};
use p8_bcog::is_access;
use p8_words::NoMemory;
use std::alloc::Global;

/// A cog that runs PASM, from a start on.
///
/// It keeps its registers and flags, how far it is in its load or in the instruction at hand, and whether it has
/// announced the access that is asked there: that access itself it doesn't keep.
#[derive(Drop)]
pub struct Cog {
    state: Progress,
    /// The address from which it loads.
    code: u16,
    /// Its own number.
    cog: u8,
    stage: PasmStage,
    /// How many instructions it has done since its start.
    done: u64,
    /// Whether the access that it asks next is announced and has had no turn yet.
    asking: bool,
    /// As a run told it of the instruction at hand.
    kept: Option<u32>,
    ghost at: { state.begun.at < 512 },
    ghost aligned: { code % 4 ≡ 0 },
    ghost room: { code ≤ 30784 },
    ghost cog_below: { cog < 8 },
    ghost clock: { clock_of state < 2 ^ 62 + 2 ^ 10 },
    ghost counts: { done ≤ clock_of state },
    ghost half: { IsHalf cog state },
    ghost at_hub: { (k : ℕ) → kept ≡ Some k → IsAtHub state.begun k },
    ghost loads: { stage ≡ Loading → IsInLoad state },
    ghost announces: { Announces cog code stage state (announced_at asking cog code stage state) },
    ghost told: { asking ≡ true → is_asking (step cog (standing_at stage code state)) ≡ true },
}

impl Cog {
    /// A cog whose Load had its turn at the clock `load`: it is to read its 496 longs from the address
    /// `code` on.
    ///
    /// `cog` is its own number, and `par` the value that its register PAR has as a source.
    pub fn start(alloc: Global, code: u16, par: u16, cog: u8, load: u64) -> Result<Cog, NoMemory>
        requires aligned { code % 4 ≡ 0 }
        requires room { code ≤ 30784 }
        requires cog { cog < 8 }
        requires window { IsWindow cog load }
        requires load { load < 2 ^ 62 }

        ensures stands { IfOk result (λ life. ⟦<Cog as Life>⟧.stands life (PasmBegun (record { code = code; par = par; cog = cog; load = load })) []) }
        ensures place { IfOk result (λ life. ⟦<Cog as Life>⟧.place life ≡ 0) }
        ensures reached { IfOk result (λ life. ⟦<Cog as Life>⟧.reached life ≡ load) }
        ensures pace { IfOk result (λ life. ⟦<Cog as Life>⟧.pace life ≡ 4) }
        ensures stride { IfOk result (λ life. ⟦<Cog as Life>⟧.stride life ≡ 8) }
        ensures lead { IfOk result (λ life. ⟦<Cog as Life>⟧.lead life ≡ 8192) }
        ensures announced { IfOk result (λ life. ⟦<Cog as Life>⟧.announced life ≡ None) }
        ensures cog { IfOk result (λ life. ⟦<Cog as Life>⟧.cog life ≡ cog) }
    {
        Ok(Cog {
            state: Progress {
                begun: PasmState::unloaded(alloc, par, load)?,
                had: Had::Nothing,
            },
            code,
            cog,
            stage: PasmStage::Loading,
            done: 0,
            asking: false,
            kept: None,
        })
    }

    /// Starts it anew, as `start` would, in the memory that it has: nothing of the old life is left.
    pub fn restart(&mut self, code: u16, par: u16, cog: u8, load: u64)
        requires aligned { code % 4 ≡ 0 }
        requires room { code ≤ 30784 }
        requires cog { cog < 8 }
        requires window { IsWindow cog load }
        requires load { load < 2 ^ 62 }

        ensures stands { ⟦<Cog as Life>⟧.stands self.new (PasmBegun (record { code = code; par = par; cog = cog; load = load })) [] }
        ensures place { ⟦<Cog as Life>⟧.place self.new ≡ 0 }
        ensures reached { ⟦<Cog as Life>⟧.reached self.new ≡ load }
        ensures pace { ⟦<Cog as Life>⟧.pace self.new ≡ 4 }
        ensures stride { ⟦<Cog as Life>⟧.stride self.new ≡ 8 }
        ensures lead { ⟦<Cog as Life>⟧.lead self.new ≡ 8192 }
        ensures announced { ⟦<Cog as Life>⟧.announced self.new ≡ None }
        ensures cog { ⟦<Cog as Life>⟧.cog self.new ≡ cog }
    {
        self.asking = false;
        self.kept = None;
        self.state.had = Had::Nothing;
        self.state.begun.unload(par, load);
        self.code = code;
        self.cog = cog;
        self.stage = PasmStage::Loading;
        self.done = 0;
    }

    /// Where the long came from that asks the access that is announced: the hub address, in bytes, from which its register was loaded, if the run
    /// begins with this long there. `memory` is what the run begins with. `None` where nothing is announced, for a read of the load, and for an
    /// instruction that isn't the one that was loaded into its register from there.
    pub fn counter(&self, memory: &Ram) -> Option<u16>
        ensures counts { (b : Begun) (ts : List Turn) → ⟦<Cog as Life>⟧.stands self.now b ts →
            IsAnnouncing (⟦<Cog as Life>⟧.announced self.now) → IsCounterOf memory.now b ts result }
        ensures none { ⟦<Cog as Life>⟧.announced self.now ≡ None → result ≡ None }
    {
        if !self.asking {
            return None;
        }
        match self.stage {
            PasmStage::Running => {
                let begun = &self.state.begun;
                loaded_from(memory, self.code, begun.at, begun.long)
            }
            PasmStage::Loading | PasmStage::Over => None,
        }
    }
}

impl Life for Cog {
    ghost stands = { λ life began turns. StandsFor life.done life.cog life.code life.stage life.state began turns };

    ghost asked = { IsAsked };

    ghost begins = { Begins };

    ghost place = { λ life. life.done };

    ghost reached = { λ life. clock_of life.state };

    ghost pace = { λ life. 4 };

    ghost stride = { λ life. 8 };

    ghost lead = { λ life. 8192 };

    ghost reach = { λ life. 16 };

    ghost announced = { λ life. announced_at life.asking life.cog life.code life.stage life.state };

    ghost cog = { λ life. life.cog };

    #[inline(never)]
    fn run_to_access(&mut self, until: u64, budget: u32) -> Next {
        self.asking = false;
        self.kept = None;
        match self.stage {
            PasmStage::Loading => {
                let next = self.state.next_read(self.code, until);
                self.asking = is_access(next);
                next
            }
            PasmStage::Running => {
                let ran = self.state.next_below(self.cog, until, budget);
                self.done += u64::from(ran.done);
                self.kept = ran.kept;
                self.asking = is_access(ran.next);
                ran.next
            }
            PasmStage::Over => Next::Quiet,
        }
    }

    #[inline(always)]
    fn take_answer(&mut self, turn: &Turn) {
        let kept = self.kept;
        self.asking = false;
        self.kept = None;
        match self.stage {
            PasmStage::Loading => self.stage = self.state.take_long(value_in(turn.answer)),
            PasmStage::Running => match self.state.take(self.cog, kept, turn) {
                Ending::Ended => {
                    self.stage = PasmStage::Over;
                    self.done += 1;
                }
                Ending::Whole => self.done += 1,
                Ending::Half { .. } => {}
            },
            PasmStage::Over => unreachable!(),
        }
    }

    ghost paced = { λ life. le_refl 4 };

    ghost one_asked = { one-asked };

    ghost asked_first = { asked-first };

    ghost asked_later = { asked-later };
}
