// Cogs, locks and waits.
ghost use Rattle.std.specs.Prelude.{◌≡◌, ◌<◌, ◌≤◌, ◌+◌, ◌%◌, length};
ghost use Rattle.p8_access.specs.Proper.{IsLongAddress, IsNumber};
ghost use Rattle.p8_access.specs.Lives.{IsMade};
ghost use Rattle.p8_bcog.specs.Cogs.{tells, asks_word, long_address, target_of, pasm_start, waits_for_pins};
ghost use Rattle.p8_bcog.specs.Laters.{comes};
ghost use Rattle.p8_bcog.specs.Ready.{IsGood};

use crate::state::SpinState;
use crate::step::{Later, Step};
use crate::variable_access::ending;
use p8_access::{Access, Origin, Reason, Test};

/// The low 16 bits of a value with bits 1 and 0 cleared.
pub fn long_address(value: u32) -> u16
    ensures address { result ≡ long_address value }
    ensures long { IsLongAddress result }
{
    ((value & 0xFFFF) / 4 * 4) as u16
}

/// The cog that an id names, or none.
pub fn target_of(id: u32) -> Option<u8>
    ensures target { result ≡ target_of id }
    ensures number { IsNumber result }
{
    if id < 8 { Some(id as u8) } else { None }
}

/// The number of a lock or of a cog that is stopped.
pub fn number_in(value: u32) -> u8
    ensures number { result ≡ value % 8 }
    ensures below { result < 8 }
{
    (value & 7) as u8
}

impl SpinState {
    /// Asks an access that leaves nothing.
    #[tactic(auto, unfolding(crate::specs::Cogs::tells))]
    pub fn tell(&mut self, takes: usize, access: Access) -> Result<Step, Reason>
        requires takes { takes ≤ 3 }
        requires made { IsMade access }
        ensures does { comes result self.new ≡ tells takes access self.old }
        ensures good { IsGood result self.new }
    {
        self.test(takes, 0)?;
        self.take(takes);
        Ok(ending(access, None))
    }

    /// Asks an access whose word is left.
    #[tactic(auto, unfolding(crate::specs::Cogs::asks_word))]
    pub fn ask_word(&mut self, takes: usize, access: Access) -> Result<Step, Reason>
        requires takes { takes ≤ 3 }
        requires made { IsMade access }
        ensures does { comes result self.new ≡ asks_word takes access self.old }
        ensures good { IsGood result self.new }
    {
        self.test(takes, 1)?;
        self.take(takes);
        Ok(Step::Asking {
            access,
            later: Later::Push,
        })
    }

    /// Waits for pins.
    #[tactic(auto, unfolding(crate::specs::Cogs::waits_for_pins))]
    pub fn wait_for_pins(&mut self, test: Test) -> Result<Step, Reason>
        ensures does { comes result self.new ≡ waits_for_pins test self.old }
        ensures good { IsGood result self.new }
    {
        self.test(3, 0)?;
        if self.operand(0) != 0 {
            return Err(Reason::Port);
        }
        self.take(3);
        Ok(ending(Access::Wait { test }, None))
    }
}
