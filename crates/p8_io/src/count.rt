// Counts of faults and of calls.
ghost use Rattle.std.specs.Prelude.{◌≡◌, ◌≤◌};
ghost use Rattle.p8_io.specs.Counts.{raised, Rose};

// One more, and at the last value of 64 bits that value.
pub(crate) fn raise(count: &mut u64)
    ensures raised { count.new ≡ raised count.old }
    ensures rose { Rose count.old count.new }
    ensures later { count.old ≤ count.new }
{
    *count = count.saturating_add(1);
}
