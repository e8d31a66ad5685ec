// What each cog was last started with.
ghost use Rattle.std.specs.Prelude.{◌≡◌, ◌∷◌, [], List, IfOk};
ghost use Rattle.p8_access.specs.declared.order.Turn.{Turn};
ghost use Rattle.p8_access.specs.Worlds.{World};
ghost use Rattle.p8_access.specs.Hub.{cog_state, origin_of};

use p8_access::{Access, Answer, Origin, Turn};
use p8_words::NoMemory;
use std::alloc::Global;
use std::marker::Model;

/// What is said to be the origin of a cog that is stopped.
const NOTHING: Origin = Origin::Pasm { code: 0, par: 0 };

/// The origin of each cog after some turns. A turn names its cog by a byte, so there is a place for
/// each byte: whatever the turns say, their text is exact.
#[derive(Drop)]
pub struct Origins {
    of_cogs: Vec<Origin>,
}

impl Model for Origins {
    ghost use Rattle.std.specs.Prelude.{◌≡◌, List, length};
    ghost use Rattle.p8_access.specs.declared.kinds.Origin.{Origin};

    ghost Value = { List Origin };

    ghost view = { λ o. o.of_cogs.items };

    ghost invariant = { λ o. length o.of_cogs.items ≡ 256 };
}

impl Origins {
    ghost use Rattle.p8_report.specs.Origins.{AreOrigins};

    /// Before the first turn: cog 0 was started with this, and no other cog was.
    pub fn new(alloc: Global, first: Origin) -> Result<Origins, NoMemory>
        ensures { IfOk result (λ o. (w : World) → w.first ≡ first → AreOrigins w [] o) }
    {
        let mut of_cogs = Vec::new(alloc);
        of_cogs.resize(256, NOTHING)?;
        of_cogs[0] = first;
        Ok(Origins { of_cogs })
    }

    /// The origin of a cog.
    #[inline]
    pub fn of_cog(&self, cog: u8) -> &Origin
        ensures { (w : World) (past : List Turn) → AreOrigins w past self.now → result.now ≡ origin_of (cog_state w past cog) }
    {
        &self.of_cogs[cog as usize]
    }

    /// Takes note of a turn.
    #[inline]
    pub fn record_turn(&mut self, turn: &Turn)
        ensures { (w : World) (past : List Turn) → AreOrigins w past self.old → AreOrigins w (turn.now ∷ past) self.new }
    {
        match turn.access {
            Access::CogInit { origin, .. } => {
                if let Answer::Number(Some(cog)) = turn.answer {
                    self.of_cogs[cog as usize] = origin;
                }
            }
            Access::CogStop { cog } => self.of_cogs[cog as usize] = NOTHING,
            Access::Halt { .. } => self.of_cogs[turn.key.cog as usize] = NOTHING,
            _ => {}
        }
    }
}
