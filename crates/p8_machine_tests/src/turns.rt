// The turns of a life, one after the other.
ghost use Rattle.std.specs.Prelude.{◌≡◌, ℕ, IfSome};
ghost use Rattle.p8_access.specs.Lives.{IsOnTime};
ghost use Rattle.p8_access.specs.Proper.{Fits};

use p8_access::{Access, Answer, Key, Life, Next, Turn, Width};

/// What answers an access of the kinds that the lives here ask; a value where one is asked for.
fn answer_to(access: Access, value: u32) -> Option<Answer>
    ensures fits { IfSome result (λ answer. Fits access answer) }
    ensures on_time { IfSome result (λ answer. (clock : ℕ) → IsOnTime access clock clock) }
{
    match access {
        Access::Read {
            width: Width::Long,
            address: _,
        } => Some(Answer::Value(value)),
        Access::CogId => Some(Answer::Value(value)),
        Access::Write { .. } => Some(Answer::Done),
        Access::CogStop { .. } => Some(Answer::Done),
        Access::Halt { .. } => Some(Answer::Done),
        _ => None,
    }
}

/// The clock of the next access of cog 0, and the access, which is answered by this value or as done.
fn next_turn<L: Life>(life: &mut L, value: u32) -> Option<(u64, Access)>
    requires { L.cog life.old ≡ 0 }
    ensures { L.cog life.new ≡ 0 }
{
    let Next::At { clock, access } = life.run_to_access(1 << 40, 1000) else {
        return None;
    };
    let answer = answer_to(access, value)?;
    life.take_answer(&Turn {
        key: Key { clock, cog: 0 },
        access,
        answer,
    });
    Some((clock, access))
}

/// Whether the next access of cog 0 comes at this clock and is this one. It is answered by this value or as done.
pub fn takes<L: Life>(life: &mut L, clock: u64, access: Access, value: u32) -> bool
    requires { L.cog life.old ≡ 0 }
    ensures { L.cog life.new ≡ 0 }
{
    match next_turn(life, value) {
        Some((at, asked)) => at == clock && asked == access,
        None => false,
    }
}

/// The same of a write of a long.
pub fn writes<L: Life>(life: &mut L, clock: u64, address: u16, value: u32) -> bool
    requires { L.cog life.old ≡ 0 }
    ensures { L.cog life.new ≡ 0 }
{
    let access = Access::Write {
        width: Width::Long,
        address,
        value,
    };
    takes(life, clock, access, 0)
}
