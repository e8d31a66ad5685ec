// The hub, seen as the history that it stands for.
ghost use Rattle.std.specs.Prelude.{◌≡◌, ◌<◌, ◌∷◌, [], ℕ, List, nat_lt, if◌then◌else◌, slice_set, IfOk};
ghost use Rattle.std.specs.List.{position_from};
ghost use Rattle.p8_access.specs.declared.order.Turn.{Turn};
ghost use Rattle.p8_access.specs.declared.kinds.Access.TheVariants.{PinsIn};
ghost use Rattle.p8_access.specs.declared.kinds.Answer.TheVariants.{Done};
ghost use Rattle.p8_access.specs.Proper.{IsProper, IsNumber, Fits};
ghost use Rattle.p8_access.specs.Worlds.{World, level_at};
ghost use Rattle.p8_access.specs.Hub.{byte_at, cog_state, is_stopped, is_taken, is_set};
ghost use Rattle.p8_access.specs.Pins.{dira, outputs};
ghost use Rattle.p8_access.specs.Histories.{answer_to};
ghost use Rattle.p8_access.specs.declared.states.CogState.TheVariants.{Stopped, Starting};
ghost use Rattle.p8_hub.specs.Parts.{set_where, target_or};
ghost use Rattle.p8_hub.specs.Standing.{IsHub};

use crate::cog_states::Cogs;
use crate::locks::Locks;
use crate::memory::Memory;
use crate::pins::Pins;
use p8_access::{Access, Answer, Boot, CogState, Key, Origin};
use p8_words::NoMemory;
use std::alloc::Global;
use std::marker::Model;

/// The hub after some turns: its 32,768 bytes of memory, its eight locks, the states of the eight cogs,
/// and the registers OUTA and DIRA by which they drive the pins (Propeller Manual v1.2, "Hub", "Cogs",
/// "Locks").
#[derive(Drop)]
pub struct Hub {
    memory: Memory,
    cogs: Cogs,
    locks: Locks,
    pins: Pins,
}

impl Model for Hub {
    ghost use Rattle.p8_hub.specs.Standing.{HubValue};

    ghost Value = { HubValue };

    ghost view = { λ h. record { bytes = h.memory; states = h.cogs.states; outa = h.pins.outa; dira = h.pins.dira; taken = h.locks.taken; set = h.locks.set } };
}

impl Hub {
    /// The hub of a boot before any turn: cog 0 is starting since clock 0, the other cogs are stopped,
    /// and every lock is free and clear. This is the one call of a hub that takes memory.
    pub fn open(alloc: Global, boot: &Boot) -> Result<Hub, NoMemory>
        ensures stands { IfOk result (λ hub. (w : World) → w.memory ≡ boot.now.ram → w.first ≡ boot.now.first → IsHub w [] hub) }
    {
        Ok(Hub {
            memory: Memory::open(alloc, &boot.ram)?,
            cogs: Cogs::open(boot.first),
            locks: Locks::open(),
            pins: Pins::open(),
        })
    }

    /// Answers the access of a turn with this key and does what it asks for. `levels` are those of the
    /// 32 input pins at the key's clock, bit n for pin n; only a `PinsIn` looks at them.
    ///
    /// A number in memory stands with its lowest byte first. A read at $8000 and above gives 0, and a
    /// write there changes nothing. A start that names no cog takes the lowest stopped one, and a start
    /// or a stop of a cog clears its OUTA and DIRA.
    #[inline(always)]
    pub fn answer(&mut self, key: Key, access: &Access, levels: u32) -> Answer
        requires cog { key.cog < 8 }
        requires proper { IsProper access.now }

        // Where the hub stands for a history it answers as that history does, and stands then for the
        // history with this turn.
        ensures answer { (w : World) (past : List Turn) → IsHub w past self.old → (access.now ≡ PinsIn → levels ≡ level_at w.script key.clock) →
            result ≡ answer_to w past key access.now }
        ensures stands { (w : World) (past : List Turn) → IsHub w past self.old →
            IsHub w ((record { key = key; access = access.now; answer = result }) ∷ past) self.new }

        ensures fits { Fits access.now result }
    {
        match *access {
            Access::Read { width, address } => Answer::Value(self.memory.read(width, address)),
            Access::CogId => Answer::Value(key.cog as u32),
            Access::CogInit { target, origin } => {
                Answer::Number(self.start(key.clock, target, origin))
            }
            Access::LockNew => Answer::Number(self.locks.take()),
            Access::LockSet { lock } => Answer::Was(self.locks.exchange(lock, true)),
            Access::LockClr { lock } => Answer::Was(self.locks.exchange(lock, false)),
            Access::PinsIn => Answer::Value(self.pins.read(levels)),
            Access::Clock => Answer::Value((key.clock % 0x1_0000_0000) as u32),
            _ => {
                self.carry_out(key, access);
                Answer::Done
            }
        }
    }

    /// Does what an access asks for that is answered by nothing but `Done`.
    #[inline(always)]
    fn carry_out(&mut self, key: Key, access: &Access)
        requires cog { key.cog < 8 }
        requires proper { IsProper access.now }
        requires done { Fits access.now Done }
        ensures { (w : World) (past : List Turn) → IsHub w past self.old →
            IsHub w ((record { key = key; access = access.now; answer = Done }) ∷ past) self.new }
    {
        match *access {
            Access::Write {
                width,
                address,
                value,
            } => self.memory.write(width, address, value),
            Access::Begin | Access::Load => self.cogs.run(key.cog),
            Access::CogStop { cog } => self.stop(cog),
            Access::Halt { .. } => self.stop(key.cog),
            Access::LockRet { lock } => self.locks.give_back(lock),
            Access::OutSet { value } => self.pins.set_outa(key.cog, value),
            Access::DirSet { value } => self.pins.set_dira(key.cog, value),
            Access::ClkSet { .. } | Access::Wait { .. } => {}
            _ => unreachable!(),
        }
    }

    /// What a cog below 8 is doing.
    pub fn state(&self, cog: u8) -> CogState
        requires { cog < 8 }
        ensures { (w : World) (past : List Turn) → IsHub w past self.now → result ≡ cog_state w past cog }
    {
        self.cogs.states[cog as usize]
    }

    /// The byte of memory at an address: 0 at $8000 and above.
    pub fn byte(&self, address: u16) -> u8
        ensures { (w : World) (past : List Turn) → IsHub w past self.now → result ≡ (if nat_lt address 32768 then byte_at w past address else 0) }
    {
        self.memory.byte(address)
    }

    /// Whether a lock below 8 is taken, and whether it is set.
    pub fn lock(&self, lock: u8) -> (bool, bool)
        requires { lock < 8 }
        ensures { (w : World) (past : List Turn) → IsHub w past self.now → result ≡ (is_taken past lock, is_set past lock) }
    {
        (
            self.locks.taken[lock as usize],
            self.locks.set[lock as usize],
        )
    }

    /// The pins that some cog makes outputs, bit n for pin n.
    pub fn dira(&self) -> u32
        ensures { (w : World) (past : List Turn) → IsHub w past self.now → result ≡ dira past }
    {
        self.pins.directions()
    }

    /// The outputs that are high, bit n for pin n.
    pub fn outputs(&self) -> u32
        ensures { (w : World) (past : List Turn) → IsHub w past self.now → result ≡ outputs past }
    {
        self.pins.outputs()
    }

    /// Starts the target, or the lowest stopped cog where there is none, and clears its pins.
    fn start(&mut self, clock: u64, target: Option<u8>, origin: Origin) -> Option<u8>
        requires { IsNumber target }
        ensures cog { result ≡ target_or target (position_from is_stopped 0 self.old.states) }
        ensures number { IsNumber result }
        ensures states { self.new.states ≡ set_where self.old.states result (Starting clock origin) }
        ensures outa { self.new.outa ≡ set_where self.old.outa result 0 }
        ensures dira { self.new.dira ≡ set_where self.old.dira result 0 }
        ensures bytes { self.new.bytes ≡ self.old.bytes }
        ensures taken { self.new.taken ≡ self.old.taken }
        ensures set { self.new.set ≡ self.old.set }
    {
        let started = self.cogs.start(clock, target, origin);
        if let Some(cog) = started {
            self.pins.clear(cog);
        }
        started
    }

    /// Stops a cog and clears its pins.
    fn stop(&mut self, cog: u8)
        requires { cog < 8 }
        ensures states { self.new.states ≡ slice_set self.old.states cog Stopped }
        ensures outa { self.new.outa ≡ slice_set self.old.outa cog 0 }
        ensures dira { self.new.dira ≡ slice_set self.old.dira cog 0 }
        ensures bytes { self.new.bytes ≡ self.old.bytes }
        ensures taken { self.new.taken ≡ self.old.taken }
        ensures set { self.new.set ≡ self.old.set }
    {
        self.cogs.stop(cog);
        self.pins.clear(cog);
    }
}
