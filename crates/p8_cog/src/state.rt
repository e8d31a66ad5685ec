// A cog between two instructions.
ghost use Rattle.std.specs.Prelude.{ℕ, ◌≡◌, ◌<◌, ◌≤◌, ◌+◌, ◌^◌, ◌++◌, ◌∷◌, [], take, if◌then◌else◌, IfOk, IfErr};
ghost use Rattle.p8_access.specs.Lives.{IsMade};
ghost use Rattle.p8_cog.specs.Replay.{at_hand, register_value, source_value, sourced, played, Asks, Course, destination_value, next_of, effect};
ghost use Rattle.p8_cog.specs.Replay.{fetched_before, fetched_after, passed, first_with};
ghost use Rattle.p8_cog.specs.Stops.{left_with, latest};

use crate::hub::value_in;
use crate::instruction_kind::{INB, PAR, source_access};
use crate::registers::{LOADED_LONGS, Registers};
use p8_access::{Access, Turn};
use p8_alu::{Effect, execute};
use p8_instr::decode;
use p8_words::NoMemory;
use std::alloc::Global;

/// How many clocks after the Load of its code a cog begins its first instruction.
const START_CLOCKS: u64 = 8192;

/// What stands in a cog where an instruction begins.
#[derive(Drop)]
pub struct PasmState {
    pub registers: Registers,
    /// The value of PAR as a source.
    pub par: u16,
    /// The address of the long that is executed next, below 512; in a load, of the one that is read next.
    pub at: u16,
    /// That long, as it stood there when it was fetched.
    pub long: u32,
    /// The clock at which it begins; in a load, that of the last turn.
    pub clock: u64,
    /// The flag C.
    pub c: bool,
    /// The flag Z.
    pub z: bool,
}

/// The one or the other.
#[inline(always)]
fn flag_of(writes: bool, new: bool, old: bool) -> bool
    ensures { result ≡ (if writes then new else old) }
{
    if writes { new } else { old }
}

impl PasmState {
    /// What stands in a cog that is to load from the clock of its Load on, with this value of PAR.
    pub fn unloaded(alloc: Global, par: u16, load: u64) -> Result<PasmState, NoMemory>
        ensures par { IfOk result (λ s. s.par ≡ par) }
        ensures at { IfOk result (λ s. s.at ≡ 0) }
        ensures clock { IfOk result (λ s. s.clock ≡ load) }
    {
        Ok(PasmState {
            registers: Registers::new(alloc)?,
            par,
            at: 0,
            long: 0,
            clock: load,
            c: false,
            z: false,
        })
    }

    /// Makes it what `unloaded` gives, in the memory that it has.
    pub fn unload(&mut self, par: u16, load: u64)
        ensures par { self.new.par ≡ par }
        ensures at { self.new.at ≡ 0 }
        ensures clock { self.new.clock ≡ load }
    {
        self.par = par;
        self.at = 0;
        self.clock = load;
    }

    /// Takes the next long of the load, which is read 16 clocks after the one before.
    pub fn load(&mut self, long: u32)
        requires at { self.old.at < 496 }
        requires clock { self.old.clock < 2 ^ 62 }
        ensures par { self.new.par ≡ self.old.par }
        ensures at { self.new.at ≡ self.old.at + 1 }
        ensures clock { self.new.clock ≡ self.old.clock + 16 }
        ensures longs { take (self.old.at + 1) self.new.registers ≡ take self.old.at self.old.registers ++ long ∷ [] }
    {
        self.registers.load(self.at, long);
        self.at += 1;
        self.clock += 16;
    }

    /// Begins the first instruction after the last read of the load, 8,192 clocks after the Load.
    pub fn begin(&mut self)
        requires { self.old.clock < 2 ^ 62 + 2 ^ 8 }
        ensures { self.new ≡ first_with (take 496 self.old.registers) self.old.par (self.old.clock + 256) }
    {
        self.registers.clear_special();
        self.at = 0;
        self.long = self.registers.get(0);
        self.clock += START_CLOCKS - 16 * u64::from(LOADED_LONGS);
        self.c = false;
        self.z = false;
    }

    /// The value of a special register in the source field.
    fn special_value(&self, register: u32) -> u32
        requires { register < 512 }
        ensures { result ≡ register_value self.now register }
    {
        if register == u32::from(PAR) {
            u32::from(self.par)
        } else if register == u32::from(INB) {
            0
        } else {
            self.registers.get(register)
        }
    }

    /// The value of a source that isn't read by an access.
    #[inline(always)]
    pub fn source_value(&self) -> u32
        ensures { result ≡ source_value self.now }
    {
        let field = self.source_field();
        if self.is_immediate() {
            field
        } else if field < u32::from(PAR) {
            self.registers.get(field)
        } else {
            self.special_value(field)
        }
    }

    /// The value of a source of a special register, as `source` gives it.
    #[inline(always)]
    fn special_source<'a>(&self, had: &'a [Turn]) -> Result<(u32, &'a [Turn]), Access>
        ensures value { IfOk result (λ p. (clock : ℕ) (go : ℕ → Course) → played (sourced clock self.now go) had.now ≡ played (go p.0) p.1.now) }
        ensures left { IfOk result (λ p. latest p.1.now ≤ latest had.now) }
        ensures asks { IfErr result (λ access. (clock : ℕ) (go : ℕ → Course) → played (sourced clock self.now go) had.now ≡ Asks clock access) }
        ensures made { IfErr result (λ access. IsMade access) }
    {
        match source_access(decode(self.long)) {
            None => Ok((self.source_value(), had)),
            Some(access) => match had {
                [] => Err(access),
                [turn, left @ ..] => Ok((value_in(turn.answer), left)),
            },
        }
    }

    /// The value of the source, and the turns that are left after its read; or the access that reads it
    /// and has had no turn.
    #[inline(always)]
    pub fn source<'a>(&self, had: &'a [Turn]) -> Result<(u32, &'a [Turn]), Access>
        ensures value { IfOk result (λ p. (clock : ℕ) (go : ℕ → Course) → played (sourced clock self.now go) had.now ≡ played (go p.0) p.1.now) }
        ensures left { IfOk result (λ p. latest p.1.now ≤ latest had.now) }
        ensures asks { IfErr result (λ access. (clock : ℕ) (go : ℕ → Course) → played (sourced clock self.now go) had.now ≡ Asks clock access) }
        ensures made { IfErr result (λ access. IsMade access) }
    {
        // Most instructions name a general register or a number.
        if self.is_immediate() || self.source_field() < u32::from(PAR) {
            Ok((self.source_value(), had))
        } else {
            self.special_source(had)
        }
    }

    /// The value of the destination.
    #[inline(always)]
    pub fn destination_value(&self) -> u32
        ensures { result ≡ destination_value self.now }
    {
        self.registers.get(self.dest())
    }

    /// The next address.
    #[inline(always)]
    pub fn next(&self) -> u32
        requires { self.now.at < 512 }
        ensures next { result ≡ next_of self.now }
        ensures below { result < 512 }
    {
        (u32::from(self.at) + 1) & 511
    }

    /// The result and the flags that are computed.
    #[inline(always)]
    pub fn effect(&self, source: u32) -> Effect
        requires first { 8 ≤ (at_hand self.now).opcode }
        requires last { (at_hand self.now).opcode ≤ 59 }
        requires at { self.now.at < 512 }
        ensures { result ≡ effect self.now source }
    {
        let i = decode(self.long);
        let destination = self.destination_value();
        execute(i, destination, source, self.c, self.z, self.next() as u16)
    }

    /// Goes on at an address with the long that was fetched, when the result is written.
    #[inline(always)]
    fn go_on(&mut self, effect: &Effect, at: u32, long: u32)
        requires { at < 512 }
        ensures { self.new ≡ left_with self.old (at_hand self.old) effect.now at long self.old.clock }
    {
        let writes_flags = self.writes_flags();
        let writes_c = self.writes_c();
        let writes_z = self.writes_z();
        self.at = at as u16;
        self.long = long;
        // Most instructions write no flag.
        if writes_flags {
            self.c = flag_of(writes_c, effect.c, self.c);
            self.z = flag_of(writes_z, effect.z, self.z);
        }
    }

    /// Writes, and goes on with the long that stood at an address before. The clock stays.
    #[inline(always)]
    pub fn fetch_and_write(&mut self, effect: &Effect, at: u32)
        requires at { at < 512 }
        ensures { self.new ≡ fetched_before self.old effect.now at self.old.clock }
    {
        let long = self.registers.get(at);
        let writes = self.writes_result();
        let dest = self.dest();
        self.registers.set_where(writes, dest, effect.result);
        self.go_on(effect, at, long);
    }

    /// Writes, and goes on with the long that stands at an address then. The clock stays.
    #[inline(always)]
    pub fn write_and_fetch(&mut self, effect: &Effect, at: u32)
        requires at { at < 512 }
        ensures { self.new ≡ fetched_after self.old effect.now at self.old.clock }
    {
        let writes = self.writes_result();
        let dest = self.dest();
        self.registers.set_where(writes, dest, effect.result);
        let long = self.registers.get(at);
        self.go_on(effect, at, long);
    }

    /// Passes over an instruction.
    #[inline(always)]
    pub fn pass(&mut self)
        requires at { self.old.at < 512 }
        requires clock { self.old.clock < 2 ^ 62 }
        ensures passed { self.new ≡ passed self.old }
    {
        let at = self.next();
        self.long = self.registers.get(at);
        self.at = at as u16;
        self.clock += 4;
    }
}
