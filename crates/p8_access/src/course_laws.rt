// A law of courses. The function does nothing: its contract is the law.
ghost use Rattle.std.specs.Prelude.{ℕ, List, map};
ghost use Rattle.p8_access.specs.declared.order.Turn.{Turn};
ghost use Rattle.p8_access.specs.Courses.{Course};
ghost use Rattle.p8_access.specs.Replays.{Engine, StandAlike, answer_of, replayed, retold};

/// The clocks change nothing of what is asked: whatever turns a life has had, the reading with clocks and
/// the one that sees only their answers ask the same access next, or leave the same, or are both over. As
/// this holds for each beginning of the turns too, they ask the same accesses in the same order.
pub fn readings_agree<S>()
    ensures { (e : Engine S) (start count : ℕ) (first : Course S) (turns : List Turn) →
        StandAlike (replayed e start first count turns) (retold e first count (map answer_of turns)) }
{}
