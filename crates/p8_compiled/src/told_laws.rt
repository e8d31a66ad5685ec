// Laws of the lives of a history. The functions do nothing: their contracts are the laws.
ghost use Rattle.std.specs.Prelude.{◌≡◌, ℕ, ◌<◌, List, ◌∷◌, Some};
ghost use Rattle.p8_access.specs.declared.kinds.Origin.{Origin};
ghost use Rattle.p8_access.specs.declared.states.CogState.TheVariants.{Running};
ghost use Rattle.p8_access.specs.Hub.{cog_state};
ghost use Rattle.p8_access.specs.Lives.{Entered, SpinBegun};
ghost use Rattle.p8_access.specs.Timing.{Goes};
ghost use Rattle.p8_bcog.specs.declared.state.SpinState.{SpinState};
ghost use Rattle.p8_bcog.specs.Replay.{lived};
ghost use Rattle.p8_access.specs.declared.order.Turn.{Turn};
ghost use Rattle.p8_access.specs.Worlds.{World};
ghost use Rattle.p8_access.specs.Histories.{begun, since_begin, Legal, Ended};
ghost use Rattle.p8_cog.specs.Lives.{asks};
ghost use Rattle.p8_meaning.specs.Programs.{Program, Addresses};
ghost use Rattle.p8_compiled.specs.Told.{IsWorldOf, SpinIsTold};

/// Law: in the history of a world that begins with a project, each life of Spin is told by its source.
///
/// Every Spin cog was started with a method of the project, and what it does from its start on, up to its next start or the end of the
/// history, are the accesses that the method makes, in order, of the answers that they got: whatever the other cogs do, whatever code of
/// Propeller Assembly runs, and whatever is written to the memory.
pub fn lives_are_told()
    ensures legal { (program : Program) → (addresses : Addresses) → (w : World) → IsWorldOf program addresses w → (past : List Turn) →
        Legal asks w past → SpinIsTold program addresses w past }
    ensures ended { (program : Program) → (addresses : Addresses) → (w : World) → IsWorldOf program addresses w → (past : List Turn) →
        Ended asks w past → SpinIsTold program addresses w past }
{}

/// Law: in such a history each turn of a cog that runs Spin comes after fewer bytecodes than the limit of clocks, since a bytecode takes 32 clocks or more.
/// And its life began with the memory of the world.
pub fn turns_come_after_few_bytecodes()
    ensures { (program : Program) → (addresses : Addresses) → (w : World) → IsWorldOf program addresses w → (turn : Turn) → (past : List Turn) →
        Legal asks w (turn ∷ past) → (origin : Origin) → cog_state w past turn.key.cog ≡ Running origin → (entered : Entered) →
        begun w past turn.key.cog ≡ Some (SpinBegun entered) →
        (entered.memory ≡ w.memory) × ((done : ℕ) → (s : SpinState) → (begin : ℕ) → (left : List Turn) →
        lived done entered (since_begin past turn.key.cog) ≡ Goes s begin left → done < w.clocks) }
{}
