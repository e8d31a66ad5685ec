// The law of missed waits. The function does nothing: its contract is the law.
ghost use Rattle.std.specs.Prelude.{◌≡◌, ◌<◌, ◌^◌, ℕ, List};
ghost use Rattle.p8_access.specs.declared.kinds.Test.TheVariants.{Count};
ghost use Rattle.p8_access.specs.declared.order.Key.{Key};
ghost use Rattle.p8_access.specs.declared.order.Turn.{Turn};
ghost use Rattle.p8_access.specs.Worlds.{World};
ghost use Rattle.p8_access.specs.Histories.{IsAfter, IsWoken};
ghost use Rattle.p8_view.specs.Nexts.{clocks_since, comes_again};

/// A wait for the counter to be a number, which it was some clocks before the wait began, ends just when the counter is that again.
pub fn missed_wait_ends()
    ensures { (w : World) (past : List Turn) (n target since clock : ℕ) (again : Key)
        → target < 2 ^ 32
        → 0 < clocks_since target since
        → again.clock ≡ comes_again since (clocks_since target since)
        → again.cog ≡ n
        → IsAfter past again
        → IsWoken w past n (Count target) since clock
        → clock ≡ again.clock }
{}
