// Which other cog a turn changes.
ghost use Rattle.std.specs.Prelude.{◌≡◌, ℕ, Some, None};
ghost use Rattle.p8_access.specs.Proper.{IsProper, IsNumber, Fits};
ghost use Rattle.p8_access.specs.Hub.{change_of};
ghost use Rattle.p8_ledger.specs.Dues.{number_of};

use p8_access::{Access, Answer, Turn};

/// The cog that a turn starts or stops, if it does either. Besides it a turn changes the state of its own
/// cog at most.
#[inline]
pub fn changed_cog(turn: &Turn) -> Option<u8>
    requires proper { IsProper turn.now.access }
    requires fits { Fits turn.now.access turn.now.answer }
    ensures number { IsNumber result }
    ensures others { (n : ℕ) → (n ≡ turn.now.key.cog → ⊥) → (result ≡ Some n → ⊥) → change_of n turn.now ≡ None }
{
    match turn.access {
        Access::CogInit { .. } => started(turn.answer),
        Access::CogStop { cog } => Some(cog),
        _ => None,
    }
}

/// The number that an answer has.
fn started(answer: Answer) -> Option<u8>
    ensures { result ≡ number_of answer }
{
    match answer {
        Answer::Number(number) => number,
        _ => None,
    }
}
