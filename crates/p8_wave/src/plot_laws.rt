// Laws of pictures. The functions do nothing: their contracts are the laws.
ghost use Rattle.std.specs.Prelude.{◌≡◌, ◌+◌, ◌-◌, ◌*◌, ◌<◌, ◌≤◌, ℕ, Bool, true, List, ◌++◌, codes, flat_map, length};
ghost use Rattle.std.specs.Int.{div_ceil};
ghost use Rattle.std.specs.List.{range_with_len};
ghost use Rattle.p8_access.specs.declared.order.Turn.{Turn};
ghost use Rattle.p8_access.specs.Worlds.{World};
ghost use Rattle.p8_wave.specs.declared.axes.Axis.TheVariants.{Clocks, Times};
ghost use Rattle.p8_wave.specs.declared.axes.TimeUnit.{TimeUnit};
ghost use Rattle.p8_wave.specs.Axes.{axis_line, thousandths_of, tick_line, time_at, unit_for, AreApart};
ghost use Rattle.p8_wave.specs.Ending.{end_text, last_clock};
ghost use Rattle.p8_wave.specs.Plot.{clocks_of, columns_of, width_of, pin_line};

/// The columns of a picture cover the clocks that are shown, each one once and in order; there are at most as many as it may
/// have, and with fewer clocks in each there would be more.
pub fn columns_cover()
    ensures covered { (most from end : ℕ) → flat_map clocks_of (columns_of most from end) ≡ range_with_len from (end - from) }
    ensures fit { (most from end : ℕ) → 0 < most → length (columns_of most from end) ≤ most }
    ensures least { (most shown width : ℕ) → 0 < most → 0 < width → div_ceil shown width ≤ most → width_of most shown ≤ width }
{}

/// How long the lines of a picture in ASCII are, with their line feeds: for pins, ticks and clocks at most 115 characters where
/// there are at most 110 columns, for times of a frequency of at least 1 MHz 119, and for what ended a run 120. Clocks are at
/// most 4,000,000,000, and turns 1,000,000.
pub fn lines_fit()
    ensures pins { (high : ℕ → Bool) (most from end pin : ℕ) → 0 < most → pin < 32
        → length (pin_line high true (columns_of most from end) pin) ≤ 5 + most }
    ensures ticks { (most from end : ℕ) → 0 < most → length (tick_line (columns_of most from end)) ≤ 5 + most }
    ensures clocks { (most from end : ℕ) → 0 < most → end ≤ 4000000000
        → length (axis_line Clocks (columns_of most from end)) ≤ 5 + 10 * div_ceil most 10 }
    ensures times { (most from end frequency : ℕ) (unit : TimeUnit) → 0 < most → end ≤ 4000000000 → 1000000 ≤ frequency
        → length (axis_line (Times frequency unit) (columns_of most from end)) ≤ 9 + 10 * div_ceil most 10 }
    ensures ended { (w : World) (past : List Turn) → length past ≤ 1000000 → last_clock past ≤ 4000000000 → w.clocks ≤ 4000000000
        → length (end_text w past ++ codes "\n") ≤ 120 }
{}

/// Each clock below a picture, and each time, is shorter than the place that it has, so spaces stand between them. Clocks are at
/// most 4,000,000,000.
pub fn texts_apart()
    ensures clocks { (most from end : ℕ) → end ≤ 4000000000 → AreApart Clocks (columns_of most from end) }
    ensures times { (most from end frequency : ℕ) → end ≤ 4000000000 → 0 < frequency
        → AreApart (Times frequency (unit_for frequency (end - from))) (columns_of most from end) }
{}

/// A time below a picture is exact to its last digit: so many thousandths of the unit have passed at the clock, and not one more.
pub fn times_exact()
    ensures { (frequency clock : ℕ) (unit : TimeUnit) → 0 < frequency
        → (time_at frequency unit clock * frequency ≤ clock * thousandths_of unit)
        × (clock * thousandths_of unit < (time_at frequency unit clock + 1) * frequency) }
{}
