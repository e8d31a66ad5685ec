// Laws of history files. The functions do nothing: their contracts are the laws.
ghost use Rattle.std.specs.Prelude.{◌≡◌, ◌≤◌, ◌++◌, ℕ, List, ◌↔◌};
ghost use Rattle.p8_access.specs.declared.memory.Boot.{Boot};
ghost use Rattle.p8_access.specs.declared.order.Turn.{Turn};
ghost use Rattle.p8_access.specs.Worlds.{Line, World};
ghost use Rattle.p8_access.specs.Histories.{Ended};
ghost use Rattle.p8_cog.specs.Lives.{asks};
ghost use Rattle.p8_verify.specs.Bytes.{IsOfBytes};
ghost use Rattle.p8_verify.specs.Files.{HasFile};
ghost use Rattle.p8_verify.specs.declared.verdicts.Verdict.{Verdict};
ghost use Rattle.p8_verify.specs.declared.verdicts.Verdict.TheVariants.{Good};
ghost use Rattle.p8_verify.specs.Table.{IsWithin, turn_bytes};
ghost use Rattle.p8_verify.specs.Verdicts.{IsVerdict, IsEndedFile};

/// Two turns have no record in common: a record, whatever follows it, is that of one turn.
pub fn one_turn_of_a_record()
    ensures { (t u : Turn) (x y : List ℕ) → IsWithin t → IsWithin u → turn_bytes t ++ x ≡ turn_bytes u ++ y → (t ≡ u) × (x ≡ y) }
{}

/// A file has one verdict.
pub fn one_verdict()
    ensures { (boot : Boot) (script : List Line) (bytes : List ℕ) (v u : Verdict) → IsVerdict boot script bytes v → IsVerdict boot script bytes u → v ≡ u }
{}

/// The ended history of a world of bytes has a file: each number of each of its turns fits the place that a record has for it. The limits are those that
/// a head may have.
///
/// So what the code of [`history_bytes`](crate::history_bytes) writes is there for each such history, whatever runs in it: Propeller Assembly
/// and bytecodes of Spin ask nothing else, and the hub answers nothing else.
pub fn ended_histories_have_files()
    ensures { (w : World) → IsOfBytes w → w.clocks ≤ 100000000 → w.turns ≤ 40000 → (past : List Turn) → Ended asks w past → HasFile w past }
{}

/// The verdict is good exactly where the file is that of an ended history.
pub fn good_files()
    ensures { (boot : Boot) (script : List Line) (bytes : List ℕ) (count : ℕ) → IsVerdict boot script bytes (Good count) ↔ IsEndedFile boot script bytes count }
{}
